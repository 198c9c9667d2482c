//! The decimator `Decim`, an algorithm of four records.
ghost use Rattle.std.specs.Prelude.{◌≡◌, ◌≤◌, [], length, true, IsTrue};
ghost use Rattle.mem_rec.specs.Records.{is_table};
ghost use Rattle.ialg.specs.History.{word_at};
ghost use Rattle.ialg.specs.Meaning.{AreAlwaysLawful};
ghost use Rattle.ialg.specs.Loans.{SameLoans};
ghost use Rattle.alg_fir.specs.declared.TheConstants.{DECIM_RECORDS};
ghost use Rattle.alg_fir.specs.DecimMeaning.{decim_meaning, decim_records};
ghost use Rattle.alg_fir.specs.DecimKeeps.{IsActiveDecim, IsIdleDecim};
ghost use Rattle.alg_fir.specs.DecimCalls.{WritesConstants, ClearsKept, ClearsRing, FillsRing, RestoresPastLent, FillsKept, SavesPastLent, RunsRing, RunsBlockLent, CountsPhase, CountsOnLent, ResetsDecim, AnswersPhase, GetsDecim};

use crate::decimation::{advance, restore, run, save, takes};
use crate::{CONSTANTS_ALIGNMENT, DECIM_KIND, DECIM_RECORDS, LINE_ALIGNMENT};
use fir_kernel::MOST_COEFFICIENTS;
use ialg::{
    BLOCK_SAMPLES, Block, Ctl, Ialg, Lent, Params, Record, Status, Words, clear, copied,
    object_record, overwrite,
};
use mem_rec::{Attr, LEAST_ALIGNMENT, MemRec, MemTab, Space};

/// The number of the record of the kept words: the phase and the past samples.
const KEPT: usize = 1;

/// The number of the record of the constants: the factor and the coefficients.
const CONSTANTS: usize = 2;

/// The number of the record of the ring.
const RING: usize = 3;

/// A filter that gives one output for each M samples. Its parameters are the factor M, 1 to 16, and the 1 to 64
/// coefficients in Q15, that of the newest sample first. The output is that of [`Fir`](crate::Fir) at the last of the M
/// samples.
///
/// `set` isn't accepted, and `get` answers the phase: how many samples there are since the last output, the last reset
/// or the start. The phase stands in a persistent record, while the instance is active too.
#[derive(Clone, Copy, PartialEq, Eq, Debug)]
pub struct Decim;

impl Ialg for Decim {
    ghost law = { record {
      meaning = decim_meaning;
      bound = λ _. DECIM_RECORDS;
      fill = λ _ p k. p;
      idle_refines = λ _ p rs wss l. IsIdleDecim p rs wss l.history;
      active_refines = λ _ p rs wss l. IsActiveDecim p rs wss l.history;
    } };

    fn alg_num_alloc(&self) -> usize {
        DECIM_RECORDS
    }

    fn alg_alloc(&self, p: &Params) -> Option<MemTab> {
        let p = p.as_slice();
        if takes(p) {
            MemTab::make(&records(p.len() - 1))
        } else {
            None
        }
    }

    fn alg_init(&self, tab: &MemTab, p: &Params, mem: &mut Lent<'_>) {
        mem.name_records(DECIM_KIND, tab);
        write_constants(mem, p.as_slice());
        clear_kept(mem);
    }

    fn alg_activate(&self, mem: &mut Lent<'_>) {
        restore_ring(mem);
    }

    fn process(&self, mem: &mut Lent<'_>, input: &[i16], out: &mut Block) {
        run_ring(mem, input, out);
        count(mem, input.len());
    }

    fn alg_deactivate(&self, mem: &mut Lent<'_>) {
        save_past(mem);
    }

    fn alg_moved(&self, tab: &MemTab, mem: &mut Lent<'_>) {
        mem.name_records(DECIM_KIND, tab);
    }

    fn accepts(&self, _p: &Params, c: &Ctl) -> bool {
        match c {
            Ctl::Set(_) => false,
            Ctl::Reset | Ctl::Get => true,
        }
    }

    fn alg_control(&self, mem: &mut Lent<'_>, c: &Ctl) -> Status {
        match c {
            Ctl::Set(_) => Status::Done,
            Ctl::Reset => {
                reset(mem);
                Status::Done
            }
            Ctl::Get => Status::Words(get(mem)),
        }
    }

    fn alg_free(&self, mem: &Lent<'_>) -> MemTab {
        mem.table().copied()
    }

    ghost same = { λ a b e i. a };

    ghost compared = { λ a b i. true };

    ghost idle_words = { λ _ p rs wss l idle. idle.keeps.history };

    ghost active_words = { λ _ p rs wss l active. active.keeps.history };

    ghost idle_fill = { λ _ p rs wss l idle. idle.constants.constants };

    ghost active_fill = { λ _ p rs wss l active. active.constants.constants };
}

/// The records of a decimator of so many coefficients.
fn records(taps: usize) -> [MemRec; DECIM_RECORDS]
    requires some { 1 ≤ taps }
    requires few { taps ≤ MOST_COEFFICIENTS }
    ensures value { result ≡ decim_records taps }
    ensures valid { IsTrue (is_table result) }
{
    let record = |size, align, space, attr| MemRec {
        size,
        align,
        space,
        attr,
        base: 0,
    };
    let taps = taps as u32;
    [
        object_record(),
        record(taps, LEAST_ALIGNMENT, Space::Saram, Attr::Persist),
        record(
            taps + 1,
            CONSTANTS_ALIGNMENT,
            Space::External,
            Attr::WriteOnce,
        ),
        record(
            taps - 1 + BLOCK_SAMPLES as u32,
            LINE_ALIGNMENT,
            Space::Daram,
            Attr::Scratch,
        ),
    ]
}

/// Writes the parameters into the write-once record, which `alg_init` alone may write.
fn write_constants(mem: &mut Lent<'_>, p: &[i16])
    ensures loans { SameLoans mem.old mem.new }
    ensures written { WritesConstants p.now mem.old mem.new }
{
    let Some(taken) = mem.take_named(Space::External, CONSTANTS) else {
        return;
    };
    let Record { k, words } = taken;
    overwrite(words, p);
    mem.put(k, words);
}

/// Makes the phase and the past samples 0.
fn clear_kept(mem: &mut Lent<'_>)
    ensures loans { SameLoans mem.old mem.new }
    ensures cleared { ClearsKept mem.old mem.new }
{
    let Some(taken) = mem.take_named(Space::Saram, KEPT) else {
        return;
    };
    let Record { k, words: kept } = taken;
    clear(kept);
    mem.put(k, kept);
}

/// Makes all samples of the ring 0.
fn clear_ring(mem: &mut Lent<'_>)
    ensures loans { SameLoans mem.old mem.new }
    ensures cleared { ClearsRing mem.old mem.new }
{
    let Some(taken) = mem.take_named(Space::Daram, RING) else {
        return;
    };
    let Record { k, words: ring } = taken;
    clear(ring);
    mem.put(k, ring);
}

/// Makes the ring from the kept past samples.
fn restore_ring(mem: &mut Lent<'_>)
    ensures loans { SameLoans mem.old mem.new }
    ensures restored { FillsRing mem.old mem.new }
{
    let Some(taken) = mem.take_named(Space::Daram, RING) else {
        return;
    };
    let Record { k, words } = taken;
    restore_from(mem, words);
    mem.put(k, words);
}

/// Fills the ring with the past samples of the kept words.
fn restore_from(mem: &Lent<'_>, ring: &mut [i16])
    ensures { RestoresPastLent mem.now ring.old ring.new }
{
    if let Some(kept) = mem.read_named(Space::Saram, KEPT) {
        restore(kept, ring);
    }
}

/// Keeps the past samples of the ring.
fn save_past(mem: &mut Lent<'_>)
    ensures loans { SameLoans mem.old mem.new }
    ensures saved { FillsKept mem.old mem.new }
{
    let Some(taken) = mem.take_named(Space::Saram, KEPT) else {
        return;
    };
    let Record { k, words } = taken;
    save_from(mem, words);
    mem.put(k, words);
}

/// Keeps the past samples of the ring.
fn save_from(mem: &Lent<'_>, kept: &mut [i16])
    ensures past { SavesPastLent mem.now kept.old kept.new }
    ensures phase { word_at kept.new 0 ≡ word_at kept.old 0 }
{
    if let Some(ring) = mem.read_named(Space::Daram, RING) {
        save(kept, ring);
    }
}

/// Runs a block: its outputs, and the ring with its samples. The phase stays that before the block.
fn run_ring(mem: &mut Lent<'_>, input: &[i16], out: &mut Block)
    requires empty { out.old.items ≡ [] }
    requires within { length input.now ≤ BLOCK_SAMPLES }
    ensures loans { SameLoans mem.old mem.new }
    ensures bounded { length out.new.items ≤ length input.now }
    ensures ran { RunsRing input.now out.new.items mem.old mem.new }
{
    let Some(taken) = mem.take_named(Space::Daram, RING) else {
        return;
    };
    let Record { k, words } = taken;
    run_with(mem, words, input, out);
    mem.put(k, words);
}

/// Runs the ring over a block, by the constants and the phase.
fn run_with(mem: &Lent<'_>, ring: &mut [i16], input: &[i16], out: &mut Block)
    requires empty { out.old.items ≡ [] }
    requires within { length input.now ≤ BLOCK_SAMPLES }
    ensures bounded { length out.new.items ≤ length input.now }
    ensures ran { RunsBlockLent mem.now ring.old input.now ring.new out.new.items }
{
    let Some(constants) = mem.read_named(Space::External, CONSTANTS) else {
        return;
    };
    let Some(kept) = mem.read_named(Space::Saram, KEPT) else {
        return;
    };
    run(constants, kept, ring, input, out);
}

/// Counts the samples of a block in the phase.
fn count(mem: &mut Lent<'_>, samples: usize)
    requires { samples ≤ BLOCK_SAMPLES }
    ensures loans { SameLoans mem.old mem.new }
    ensures counted { CountsPhase samples mem.old mem.new }
{
    let Some(taken) = mem.take_named(Space::Saram, KEPT) else {
        return;
    };
    let Record { k, words: counter } = taken;
    count_with(mem, counter, samples);
    mem.put(k, counter);
}

/// Moves the phase on by so many samples.
fn count_with(mem: &Lent<'_>, kept: &mut [i16], samples: usize)
    requires { samples ≤ BLOCK_SAMPLES }
    ensures { CountsOnLent mem.now samples kept.old kept.new }
{
    if let Some(constants) = mem.read_named(Space::External, CONSTANTS) {
        advance(constants, kept, samples);
    }
}

/// Forgets the past samples, and makes the phase 0.
fn reset(mem: &mut Lent<'_>)
    ensures loans { SameLoans mem.old mem.new }
    ensures law { ResetsDecim mem.old mem.new }
{
    clear_kept(mem);
    clear_ring(mem);
}

/// The phase, as the answer to `get`.
fn get(mem: &Lent<'_>) -> Words
    ensures answer { AnswersPhase mem.now result.items }
    ensures history { GetsDecim mem.now }
{
    let Some(kept) = mem.read_named(Space::Saram, KEPT) else {
        return Words::new();
    };
    match kept {
        [phase, ..] => copied(&[*phase]),
        [] => Words::new(),
    }
}

/// The law that the decimator keeps IALG's laws for all parameters, refused ones too, in a host of any poison word and
/// in one of none. The call does nothing: its contract is the law.
pub fn decim_is_lawful()
    ensures { AreAlwaysLawful ⟦<Decim as Ialg>⟧.law.meaning }
{}
