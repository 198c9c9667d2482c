//! The decimator over plain words: its constants, the kept words, which begin with the phase, and the ring.
ghost use Rattle.std.specs.Prelude.{◌≡◌, ◌<◌, ◌≤◌, ◌+◌, ◌/◌, [], length, unsigned_abs};
ghost use Rattle.ialg.specs.History.{word_at};
ghost use Rattle.alg_fir.specs.Keeps.{AreWithin};
ghost use Rattle.alg_fir.specs.DecimMeaning.{decim_takes};
ghost use Rattle.alg_fir.specs.DecimCalls.{RestoresPast, SavesPast, RunsBlock, CountsOn};

use crate::MOST_FACTOR;
use crate::delay::{MOST_RING_WORDS, Taken, refill, run_block};
use fir_kernel::{MOST_COEFFICIENTS, named_place, unroll};
use ialg::{BLOCK_SAMPLES, Block};

/// Whether the parameters are a factor and coefficients of a decimator.
pub(crate) fn takes(p: &[i16]) -> bool
    ensures { result ≡ decim_takes p.now }
{
    p.len() >= 2 && p.len() - 1 <= MOST_COEFFICIENTS && 1 <= p[0] && p[0] <= MOST_FACTOR
}

/// The magnitude of the first word, 0 where there is none: of the constants it is the factor, and of the kept words the
/// phase.
pub(crate) fn first_of(words: &[i16]) -> usize
    ensures value { result ≡ unsigned_abs (word_at words.now 0) }
    ensures small { result ≤ 32768 }
{
    match words {
        [first, ..] => usize::from(first.unsigned_abs()),
        [] => 0,
    }
}

/// Makes the ring from the past samples of the kept words.
pub(crate) fn restore(kept: &[i16], ring: &mut [i16])
    ensures { RestoresPast kept.now ring.old ring.new }
{
    if !kept.is_empty() {
        refill(&kept[1..], ring);
    }
}

/// Makes the past samples of the kept words from the ring. The phase stays.
pub(crate) fn save(kept: &mut [i16], ring: &[i16])
    ensures past { SavesPast ring.now kept.old kept.new }
    ensures phase { word_at kept.new 0 ≡ word_at kept.old 0 }
{
    let next = named_place(ring);
    if !kept.is_empty() && kept.len() <= ring.len() && next + 1 < ring.len() {
        unroll(ring, ring.len() - 1, next, kept.len() - 1, kept, 1);
    }
}

/// Runs the filter over a block for the samples that give an output, and enters the block into the ring.
pub(crate) fn run(constants: &[i16], kept: &[i16], ring: &mut [i16], input: &[i16], out: &mut Block)
    requires empty { out.old.items ≡ [] }
    requires within { length input.now ≤ BLOCK_SAMPLES }
    ensures bounded { length out.new.items ≤ length input.now }
    ensures law { RunsBlock constants.now kept.now ring.old input.now ring.new out.new.items }
{
    let next = named_place(ring);
    let factor = first_of(constants);
    let phase = first_of(kept);
    if constants.len() >= 2
        && constants.len() - 1 <= MOST_COEFFICIENTS
        && constants.len() <= ring.len() + 1
        && ring.len() <= MOST_RING_WORDS
        && next + 1 < ring.len()
        && phase < factor
    {
        let taken = taken_of(factor, phase, input.len());
        run_block(&constants[1..], ring, next, input, taken, out);
    }
}

/// The samples of a block of so many for which there is an output.
fn taken_of(factor: usize, phase: usize, samples: usize) -> Taken
    requires phase { phase < factor }
    requires factor { factor ≤ 32768 }
    requires samples { samples ≤ BLOCK_SAMPLES }
    ensures first { result.first + phase + 1 ≡ factor }
    ensures step { result.step ≡ factor }
    ensures count { result.count ≡ (phase + samples) / factor }
    ensures few { result.count ≤ samples }
    ensures reach { AreWithin result samples }
{
    Taken {
        first: factor - 1 - phase,
        step: factor,
        count: (phase + samples) / factor,
    }
}

/// Counts the samples of a block on in the phase.
pub(crate) fn advance(constants: &[i16], kept: &mut [i16], samples: usize)
    requires { samples ≤ BLOCK_SAMPLES }
    ensures { CountsOn constants.now samples kept.old kept.new }
{
    let factor = first_of(constants);
    let phase = first_of(kept);
    if factor > 0 && !kept.is_empty() {
        kept[0] = ((phase + samples) % factor) as i16;
    }
}
