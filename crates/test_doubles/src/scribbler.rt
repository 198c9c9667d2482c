//! A kind for tests of hosts.
ghost use Rattle.test_doubles.specs.Lawless.{lawless, is_word_history, holds_fill};
ghost use Rattle.test_doubles.specs.Rogues.{scribbler_meaning};
ghost use Rattle.std.proofs.Common.{rules};
ghost use Rattle.std.specs.Cmp.Rules.{comparing};

use crate::rogue_records::echo;
use crate::scribbling::scribble;
use arrayvec::ArrayVec;
use ialg::{Block, Ctl, Ialg, Lent, Params, Status, object_record};
use mem_rec::{Attr, MemRec, MemTab, Space, TABLE_RECORDS};

/// A kind that keeps no law, and whose memory is what its parameters say.
///
/// It asks for an object and for up to three scratch records, three parameters for each: the space (0 to 2), the words and the
/// alignment. In each call it writes over every word that it may write, its object's too. It gives the samples that it takes, and
/// takes every control.
#[derive(Clone, Copy, PartialEq, Eq, Debug)]
pub struct Scribbler;

impl Ialg for Scribbler {
    ghost law = { lawless scribbler_meaning };

    fn alg_num_alloc(&self) -> usize {
        TABLE_RECORDS
    }

    fn alg_alloc(&self, p: &Params) -> Option<MemTab> {
        scribbled_table(p.as_slice())
    }

    fn alg_init(&self, _tab: &MemTab, _p: &Params, mem: &mut Lent<'_>) {
        scribble(mem);
    }

    fn alg_activate(&self, mem: &mut Lent<'_>) {
        scribble(mem);
    }

    fn process(&self, mem: &mut Lent<'_>, input: &[i16], out: &mut Block) {
        scribble(mem);
        echo(input, out);
    }

    fn process_sample(&self, _object: &[i16], _once: &[i16], x: i16) -> Option<i16> {
        Some(x)
    }

    fn alg_deactivate(&self, mem: &mut Lent<'_>) {
        scribble(mem);
    }

    fn alg_moved(&self, _tab: &MemTab, mem: &mut Lent<'_>) {
        scribble(mem);
    }

    fn accepts(&self, _p: &Params, _c: &Ctl) -> bool {
        true
    }

    fn alg_control(&self, mem: &mut Lent<'_>, _c: &Ctl) -> Status {
        scribble(mem);
        Status::Done
    }

    fn alg_free(&self, mem: &Lent<'_>) -> MemTab {
        mem.table().copied()
    }

    ghost same = { Prim.search (comparing, rules) };

    ghost compared = { Prim.search (comparing, rules) };

    ghost idle_words = { is_word_history };

    ghost active_words = { is_word_history };

    ghost idle_fill = { holds_fill };

    ghost active_fill = { holds_fill };
}

/// A scratch record of so many words in a space, at a multiple of the alignment.
fn scratch_record(asked: &[i16]) -> Option<MemRec> {
    let [space, words, align] = asked else {
        return None;
    };
    let space = match space {
        0 => Space::Daram,
        1 => Space::Saram,
        _ => Space::External,
    };
    Some(MemRec {
        size: u32::from(words.unsigned_abs()),
        align: u32::from(align.unsigned_abs()),
        space,
        attr: Attr::Scratch,
        base: 0,
    })
}

/// The object, and a scratch record for each three parameters.
fn scribbled_table(p: &[i16]) -> Option<MemTab> {
    let mut records: ArrayVec<MemRec, TABLE_RECORDS> = ArrayVec::new();
    records.push(object_record());
    for asked in p.chunks(3) {
        records.try_push(scratch_record(asked)?).ok()?;
    }
    MemTab::make(records.as_slice())
}
