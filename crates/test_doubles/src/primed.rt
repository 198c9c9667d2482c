//! A kind that is lawful under one poison word alone, and keeps a word in a write-once record.
ghost use Rattle.std.specs.Prelude.{◌≡◌, ◌≤◌, ◌+◌, ◌++◌, ℤ, List, length, take, drop, FitsSigned, true};
ghost use Rattle.std.specs.List.{All};
ghost use Rattle.std.specs.Int.{w16};
ghost use Rattle.ialg.specs.declared.TheConstants.{BLOCK_SAMPLES, PARAMETER_WORDS};
ghost use Rattle.ialg.specs.History.{History};
ghost use Rattle.ialg.specs.Records.{AllLent};
ghost use Rattle.ialg.specs.Loans.{lent_words};
ghost use Rattle.test_doubles.specs.declared.TheConstants.{PRIMED_RECORDS};
ghost use Rattle.test_doubles.specs.Primed.{KeepsWords, KeepsActive, primed_fill, primed_meaning, primed_records};

use crate::{ONCE, PRIMED, PRIMED_KIND, PRIMED_PARAMETERS, PRIMED_RECORDS, PRIMED_SCRATCH};
use ialg::{
    BLOCK_SAMPLES, Block, Ctl, Ialg, Lent, Params, Record, Status, Words, object_record, overwrite,
    place,
};
use mem_rec::{Attr, LEAST_ALIGNMENT, MemRec, MemTab, Space};

/// A kind that gives nothing for its samples. Its parameters are two words: the poison word that the host is to have, and
/// a word that it writes into a write-once record when it starts. It relies on a third record having the poison word
/// already, and on a scratch record having it at each activation, and never writes either: it is lawful only in a host of
/// that poison word. `get` answers the scratch word, the word of the third record and the write-once word, and no other
/// control is taken.
#[derive(Clone, Copy, PartialEq, Eq, Debug)]
pub struct Primed;

impl Ialg for Primed {
    ghost law = { record {
      meaning = primed_meaning;
      bound = λ _. PRIMED_RECORDS;
      fill = λ _. primed_fill;
      idle_refines = λ _ p rs wss l. KeepsWords p rs wss l.history;
      active_refines = λ _ p rs wss l. KeepsActive p rs wss l.history;
    } };

    fn alg_num_alloc(&self) -> usize {
        PRIMED_RECORDS
    }

    fn alg_alloc(&self, p: &Params) -> Option<MemTab> {
        if p.len() == PRIMED_PARAMETERS {
            MemTab::make(&records())
        } else {
            None
        }
    }

    fn alg_init(&self, tab: &MemTab, p: &Params, mem: &mut Lent<'_>) {
        mem.name_records(PRIMED_KIND, tab);
        let Some(taken) = mem.take_named(Space::External, ONCE) else {
            return;
        };
        let Record { k, words } = taken;
        overwrite(words, once_word(p.as_slice()));
        mem.put(k, words);
    }

    fn alg_activate(&self, _mem: &mut Lent<'_>) {}

    fn process(&self, _mem: &mut Lent<'_>, input: &[i16], _out: &mut Block) {
        read(input);
    }

    fn alg_deactivate(&self, _mem: &mut Lent<'_>) {}

    fn alg_moved(&self, tab: &MemTab, mem: &mut Lent<'_>) {
        mem.name_records(PRIMED_KIND, tab);
    }

    fn accepts(&self, _p: &Params, c: &Ctl) -> bool {
        matches!(c, Ctl::Get)
    }

    fn alg_control(&self, mem: &mut Lent<'_>, _c: &Ctl) -> Status {
        Status::Words(kept_words(mem))
    }

    fn alg_free(&self, mem: &Lent<'_>) -> MemTab {
        mem.table().copied()
    }

    ghost same = { λ a b e i. a };

    ghost compared = { λ a b i. true };

    ghost idle_words = { λ _ p rs wss l keeps. keeps.history };

    ghost active_words = { λ _ p rs wss l keeps. keeps.idle.history };

    ghost idle_fill = { λ _ p rs wss l keeps. keeps.once };

    ghost active_fill = { λ _ p rs wss l keeps. keeps.idle.once };
}

/// The records: the object, one that is written once, one that is never written, and a scratch record.
fn records() -> [MemRec; PRIMED_RECORDS]
    ensures { result ≡ primed_records }
{
    let word = |space, attr| MemRec {
        size: 1,
        align: LEAST_ALIGNMENT,
        space,
        attr,
        base: 0,
    };
    [
        object_record(),
        word(Space::External, Attr::WriteOnce),
        word(Space::Saram, Attr::Persist),
        word(Space::Daram, Attr::Scratch),
    ]
}

/// The parameters without the poison word.
fn once_word(p: &[i16]) -> &[i16]
    ensures { result.now ≡ drop 1 p.now }
{
    p.get(1..).unwrap_or(&[])
}

/// Reads the samples, so that they are known to have 16 bits.
pub(crate) fn read(samples: &[i16])
    requires { length samples.now ≤ BLOCK_SAMPLES }
    ensures { All (FitsSigned w16) samples.now }
{
    let mut copy = [0; BLOCK_SAMPLES];
    place(&mut copy, 0, samples);
}

/// The scratch word, the word that was never written, and the one that was written once.
fn kept_words(mem: &Lent<'_>) -> Words
    ensures { (p : List ℤ) (h : History) → AllLent mem.now.table.now (lent_words mem.now)
        → KeepsActive p mem.now.table.now (lent_words mem.now) h → result.items ≡ take 1 p ++ p }
{
    let Some(once) = mem.read_named(Space::External, ONCE) else {
        return Words::new();
    };
    let primed = mem.read_named(Space::Saram, PRIMED);
    let Some(primed) = primed else {
        return Words::new();
    };
    let scratch = mem.read_named(Space::Daram, PRIMED_SCRATCH);
    let Some(scratch) = scratch else {
        return Words::new();
    };
    joined(scratch, primed, once)
}

/// The words of the slices one after the other, where there is room.
fn joined(first: &[i16], second: &[i16], third: &[i16]) -> Words
    ensures { length first.now + length second.now + length third.now ≤ PARAMETER_WORDS
        → result.items ≡ first.now ++ second.now ++ third.now }
{
    let mut words = Words::new();
    let _first_fits = words.try_extend_from_slice(first);
    let _second_fits = words.try_extend_from_slice(second);
    let _third_fits = words.try_extend_from_slice(third);
    words
}
