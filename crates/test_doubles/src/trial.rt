//! The hosted kinds and the scribbler as one kind.
ghost use Rattle.std.proofs.Common.{rules};
ghost use Rattle.std.specs.Cmp.Rules.{comparing};
ghost use Rattle.test_doubles.specs.Trials.{trial_laws, idle_words, active_words, idle_fill, active_fill};

use crate::scribbler::Scribbler;
use ialg::{Block, Ctl, Ialg, Lent, Params, Status};
use kind_parts::Or;
use mem_rec::MemTab;
use voice_set::Voice;

/// A hosted kind or a scribbler. Each call is that of the kind. It is a struct and not an alias, so that the tests of hosts are checked
/// over one type.
#[derive(Clone, Copy, PartialEq, Eq, Debug)]
pub struct Trial {
    pub kind: Or<Voice, Scribbler>,
}

/// The scribbler among them.
pub const SCRIBBLER: Trial = Trial {
    kind: Or::Second(Scribbler),
};

impl Ialg for Trial {
    ghost law = { trial_laws ⟦<Or<Voice, Scribbler> as Ialg>⟧.law };

    fn alg_num_alloc(&self) -> usize {
        self.kind.alg_num_alloc()
    }

    fn alg_alloc(&self, p: &Params) -> Option<MemTab> {
        self.kind.alg_alloc(p)
    }

    fn alg_init(&self, tab: &MemTab, p: &Params, mem: &mut Lent<'_>) {
        self.kind.alg_init(tab, p, mem);
    }

    fn alg_activate(&self, mem: &mut Lent<'_>) {
        self.kind.alg_activate(mem);
    }

    fn activate_and_process(&self, mem: &mut Lent<'_>, input: &[i16], out: &mut Block) {
        self.kind.activate_and_process(mem, input, out);
    }

    fn process(&self, mem: &mut Lent<'_>, input: &[i16], out: &mut Block) {
        self.kind.process(mem, input, out);
    }

    fn process_sample(&self, object: &[i16], once: &[i16], x: i16) -> Option<i16> {
        self.kind.process_sample(object, once, x)
    }

    fn alg_deactivate(&self, mem: &mut Lent<'_>) {
        self.kind.alg_deactivate(mem);
    }

    fn alg_moved(&self, tab: &MemTab, mem: &mut Lent<'_>) {
        self.kind.alg_moved(tab, mem);
    }

    fn accepts(&self, p: &Params, c: &Ctl) -> bool {
        self.kind.accepts(p, c)
    }

    fn alg_control(&self, mem: &mut Lent<'_>, c: &Ctl) -> Status {
        self.kind.alg_control(mem, c)
    }

    fn alg_free(&self, mem: &Lent<'_>) -> MemTab {
        self.kind.alg_free(mem)
    }

    ghost same = { Prim.search (comparing, rules) };

    ghost compared = { Prim.search (comparing, rules) };

    ghost idle_words = { λ t. idle_words t.kind };

    ghost active_words = { λ t. active_words t.kind };

    ghost idle_fill = { λ t. idle_fill t.kind };

    ghost active_fill = { λ t. active_fill t.kind };
}
