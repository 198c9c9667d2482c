//! A kind that has a write-once record, and scratch records of two alignments in two spaces.
ghost use Rattle.std.specs.Prelude.{◌≡◌, ◌≤◌, ℤ, [], List, length, map, true, FitsSigned};
ghost use Rattle.std.specs.List.{All};
ghost use Rattle.std.specs.Int.{w16};
ghost use Rattle.mem_rec.specs.declared.MemRec.{MemRec};
ghost use Rattle.mem_rec.specs.declared.Attr.TheVariants.{Scratch};
ghost use Rattle.mem_rec.specs.declared.Space.TheVariants.{Daram, Saram};
ghost use Rattle.ialg.specs.declared.TheConstants.{BLOCK_SAMPLES, PARAMETER_WORDS};
ghost use Rattle.ialg.specs.History.{History};
ghost use Rattle.ialg.specs.Records.{record_at, words_of, AllLent};
ghost use Rattle.ialg.specs.Loans.{lent_words, SameLoans};
ghost use Rattle.ialg.specs.Objects.{NamedAt};
ghost use Rattle.test_doubles.specs.declared.TheConstants.{HIGH, LOW, SLICER_RECORDS};
ghost use Rattle.test_doubles.specs.Slicer.{HoldsLevels, IsSpread, SpreadsLevels, sliced, slicer_fill, slicer_meaning, slicer_records};

use crate::primed::read;
use crate::{
    HIGH, HIGH_ALIGNMENT, HIGH_WORDS, LEVELS, LOW, LOW_WORDS, ONCE, SLICER_KIND, SLICER_RECORDS,
};
use ialg::{
    BLOCK_SAMPLES, Block, Ctl, Ialg, Lent, Params, Record, Status, Words, object_record, overwrite,
};
use mem_rec::{Attr, LEAST_ALIGNMENT, MemRec, MemTab, Space};

/// A kind that gives one of two levels by the sign of a sample: the low one for a sample below 0. Its parameters are the low
/// level and the high one, which it writes into a write-once record when it starts. While it is active each word of a scratch
/// record in `daram` is the low level, and each word of a coarser aligned one in `saram` is the high level: its outputs are made
/// of these. `get` answers both levels, and no other control is taken.
///
/// A table has four records at most, so that the object is its only persistent record: a slicer has no state.
#[derive(Clone, Copy, PartialEq, Eq, Debug)]
pub struct Slicer;

impl Ialg for Slicer {
    ghost same = { λ a b e i. a };

    ghost compared = { λ a b i. true };

    ghost law = { record {
      meaning = slicer_meaning;
      bound = λ _. SLICER_RECORDS;
      fill = λ _. slicer_fill;
      idle_refines = λ _ p rs wss l. HoldsLevels p rs wss l.history;
      active_refines = λ _ p rs wss l. SpreadsLevels p rs wss l.history;
    } };

    fn alg_num_alloc(&self) -> usize {
        SLICER_RECORDS
    }

    fn alg_alloc(&self, p: &Params) -> Option<MemTab> {
        if p.len() == LEVELS {
            MemTab::make(&records())
        } else {
            None
        }
    }

    fn alg_init(&self, tab: &MemTab, p: &Params, mem: &mut Lent<'_>) {
        mem.name_records(SLICER_KIND, tab);
        let Some(taken) = mem.take_named(Space::External, ONCE) else {
            return;
        };
        let Record { k, words } = taken;
        overwrite(words, p.as_slice());
        mem.put(k, words);
    }

    fn alg_activate(&self, mem: &mut Lent<'_>) {
        let levels = kept_levels(mem);
        let levels = levels.as_slice();
        if levels.len() != LEVELS {
            return;
        }
        spread_low(mem, levels[0]);
        spread_high(mem, levels[1]);
    }

    fn process(&self, mem: &mut Lent<'_>, input: &[i16], out: &mut Block) {
        let low = level(mem, Space::Daram, LOW);
        let high = level(mem, Space::Saram, HIGH);
        slice(low, high, input, out);
    }

    fn alg_deactivate(&self, _mem: &mut Lent<'_>) {}

    fn alg_moved(&self, tab: &MemTab, mem: &mut Lent<'_>) {
        mem.name_records(SLICER_KIND, tab);
    }

    fn accepts(&self, _p: &Params, c: &Ctl) -> bool {
        matches!(c, Ctl::Get)
    }

    fn alg_control(&self, mem: &mut Lent<'_>, _c: &Ctl) -> Status {
        Status::Words(kept_levels(mem))
    }

    fn alg_free(&self, mem: &Lent<'_>) -> MemTab {
        mem.table().copied()
    }

    ghost idle_words = { λ _ p rs wss l keeps. keeps.history };

    ghost active_words = { λ _ p rs wss l keeps. keeps.levels.history };

    ghost idle_fill = { λ _ p rs wss l keeps. keeps.once };

    ghost active_fill = { λ _ p rs wss l keeps. keeps.levels.once };
}

/// The records: the object, the levels, which are written once, and a scratch record for each level.
fn records() -> [MemRec; SLICER_RECORDS]
    ensures { result ≡ slicer_records }
{
    [
        object_record(),
        MemRec {
            size: LEVELS as u32,
            align: LEAST_ALIGNMENT,
            space: Space::External,
            attr: Attr::WriteOnce,
            base: 0,
        },
        MemRec {
            size: LOW_WORDS,
            align: LEAST_ALIGNMENT,
            space: Space::Daram,
            attr: Attr::Scratch,
            base: 0,
        },
        MemRec {
            size: HIGH_WORDS,
            align: HIGH_ALIGNMENT,
            space: Space::Saram,
            attr: Attr::Scratch,
            base: 0,
        },
    ]
}

/// The levels, which were written once.
fn kept_levels(mem: &Lent<'_>) -> Words
    ensures { (p : List ℤ) (h : History) → AllLent mem.now.table.now (lent_words mem.now)
        → HoldsLevels p mem.now.table.now (lent_words mem.now) h → result.items ≡ p }
{
    match mem.read_named(Space::External, ONCE) {
        Some(levels) => fitted(levels),
        None => Words::new(),
    }
}

/// The words, where there is room.
fn fitted(words: &[i16]) -> Words
    ensures { length words.now ≤ PARAMETER_WORDS → result.items ≡ words.now }
{
    let mut kept = Words::new();
    let _fits = kept.try_extend_from_slice(words);
    kept
}

/// Makes each word of the low level's record this one.
fn spread_low(mem: &mut Lent<'_>, word: i16)
    ensures loans { SameLoans mem.old mem.new }
    ensures spread { (kind : ℤ) (records : List MemRec) → NamedAt mem.old Daram LOW kind records
        → (record_at records LOW).attr ≡ Scratch → IsSpread LOW word (lent_words mem.old) (lent_words mem.new) }
{
    spread(mem, Space::Daram, LOW, word);
}

/// Makes each word of the high level's record this one.
fn spread_high(mem: &mut Lent<'_>, word: i16)
    ensures loans { SameLoans mem.old mem.new }
    ensures spread { (kind : ℤ) (records : List MemRec) → NamedAt mem.old Saram HIGH kind records
        → (record_at records HIGH).attr ≡ Scratch → IsSpread HIGH word (lent_words mem.old) (lent_words mem.new) }
{
    spread(mem, Space::Saram, HIGH, word);
}

/// Makes each word of a scratch record this one. The base of the record stands in word `n` of the object.
fn spread(mem: &mut Lent<'_>, space: Space, n: usize, word: i16)
    ensures loans { SameLoans mem.old mem.new }
    ensures spread { (kind : ℤ) (records : List MemRec) → NamedAt mem.old space n kind records
        → (record_at records n).attr ≡ Scratch → IsSpread n word (lent_words mem.old) (lent_words mem.new) }
{
    let Some(taken) = mem.take_named(space, n) else {
        return;
    };
    let Record { k, words } = taken;
    flood(words, word);
    mem.put(k, words);
}

/// Makes each word this one.
fn flood(words: &mut [i16], word: i16)
    ensures { All (λ x. x ≡ word) words.new }
{
    words.fill(word);
}

/// The last word of a record, whose base stands in word `n` of the object.
fn level(mem: &Lent<'_>, space: Space, n: usize) -> i16
    ensures { (kind : ℤ) (records : List MemRec) (v : ℤ) → NamedAt mem.now space n kind records
        → All (λ x. x ≡ v) (words_of (lent_words mem.now) n) → result ≡ v }
{
    let Some(words) = mem.read_named(space, n) else {
        return 0;
    };
    if words.is_empty() {
        return 0;
    }
    words[words.len() - 1]
}

/// The level of a sample.
fn sliced(low: i16, high: i16, x: i16) -> i16
    ensures { result ≡ sliced low high x }
{
    if x < 0 { low } else { high }
}

/// Gives the level of each sample.
fn slice(low: i16, high: i16, input: &[i16], out: &mut Block)
    requires within { length input.now ≤ BLOCK_SAMPLES }
    requires empty { out.old.items ≡ [] }
    ensures bounded { length out.new.items ≤ length input.now }
    ensures given { out.new.items ≡ map (sliced low high) input.now }
    ensures read { All (FitsSigned w16) input.now }
{
    read(input);
    for x in input {
        out.push(sliced(low, high, *x));
    }
}
