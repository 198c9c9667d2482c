//! The kinds of a gateway as one type.
ghost use Rattle.std.specs.Option.{option_map};
ghost use Rattle.std.specs.Cmp.Rules.{comparing};
ghost use Rattle.std.proofs.Common.{rules};
ghost use Rattle.gateway_kinds.specs.Kinds.{in_gateway};
ghost use Rattle.gateway_kinds.specs.Keeps.{kind_laws};
ghost use Rattle.gateway_kinds.specs.Kept.{idle_words, active_words, idle_fill, active_fill};

use alg_activity::Activity;
use alg_adpcm::Adpcm;
use alg_dtmf::Dtmf;
use alg_echo::Echo;
use alg_gain::Gain;
use alg_level::Level;
use alg_signal::Signal;
use ialg::{Block, Ctl, Ialg, Lent, Named, Params, Status};
use kind_parts::Or;
use mem_rec::MemTab;
use voice_set::Voice;

/// The sets of kinds, in the order in which a name is looked for.
pub type Sets = Or<Voice, Or<Gain, Or<Level, Or<Dtmf, Or<Echo, Or<Adpcm, Or<Signal, Activity>>>>>>>;

/// A kind that a gateway hosts: `fir`, `decim`, `biquad`, `tone`, `g711`, `gain`, `level`, `dtmf`, `echo`, `adpcm`, `signal` or
/// `activity`. Each call is that of the kind.
///
/// It is a struct and not an alias of its sets, so that what is built over a gateway's kinds, as the library for C is, is checked over one
/// type, and not over each set again.
#[derive(Clone, Copy, PartialEq, Eq, Debug)]
pub struct GatewayKind {
    pub kind: Sets,
}

impl Named for GatewayKind {
    ghost named = { λ name. option_map in_gateway (⟦<Sets as Named>⟧.named name) };

    fn of_name(name: &[u8]) -> Option<GatewayKind> {
        match Sets::of_name(name) {
            Some(kind) => Some(GatewayKind { kind }),
            None => None,
        }
    }
}

impl Ialg for GatewayKind {
    ghost law = { kind_laws };

    #[inline(always)]
    fn alg_num_alloc(&self) -> usize {
        self.kind.alg_num_alloc()
    }

    #[inline(always)]
    fn alg_alloc(&self, p: &Params) -> Option<MemTab> {
        self.kind.alg_alloc(p)
    }

    #[inline(always)]
    fn alg_init(&self, tab: &MemTab, p: &Params, mem: &mut Lent<'_>) {
        self.kind.alg_init(tab, p, mem);
    }

    #[inline(always)]
    fn alg_activate(&self, mem: &mut Lent<'_>) {
        self.kind.alg_activate(mem);
    }

    #[inline(always)]
    fn activate_and_process(&self, mem: &mut Lent<'_>, input: &[i16], out: &mut Block) {
        self.kind.activate_and_process(mem, input, out);
    }

    #[inline(always)]
    fn process(&self, mem: &mut Lent<'_>, input: &[i16], out: &mut Block) {
        self.kind.process(mem, input, out);
    }

    #[inline(always)]
    fn process_sample(&self, object: &[i16], once: &[i16], x: i16) -> Option<i16> {
        self.kind.process_sample(object, once, x)
    }

    #[inline(always)]
    fn alg_deactivate(&self, mem: &mut Lent<'_>) {
        self.kind.alg_deactivate(mem);
    }

    #[inline(always)]
    fn alg_moved(&self, tab: &MemTab, mem: &mut Lent<'_>) {
        self.kind.alg_moved(tab, mem);
    }

    #[inline(always)]
    fn accepts(&self, p: &Params, c: &Ctl) -> bool {
        self.kind.accepts(p, c)
    }

    #[inline(always)]
    fn alg_control(&self, mem: &mut Lent<'_>, c: &Ctl) -> Status {
        self.kind.alg_control(mem, c)
    }

    #[inline(always)]
    fn alg_free(&self, mem: &Lent<'_>) -> MemTab {
        self.kind.alg_free(mem)
    }

    ghost same = { Prim.search (comparing, rules) };

    ghost compared = { Prim.search (comparing, rules) };

    ghost idle_words = { λ k. idle_words k.kind };

    ghost active_words = { λ k. active_words k.kind };

    ghost idle_fill = { λ k. idle_fill k.kind };

    ghost active_fill = { λ k. active_fill k.kind };
}
