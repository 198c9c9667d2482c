//! The delay line of a filter: a ring of past samples in scratch words, and in the last of them the place of the next
//! sample.
ghost use Rattle.std.specs.Prelude.{◌≡◌, ◌↔◌, ◌≤◌, ◌+◌, ◌<◌, [], length, IsTrue};
ghost use Rattle.fir_kernel.specs.Rings.{OtherPlacesStay};
ghost use Rattle.alg_fir.specs.Keeps.{AreWithin, Filters, RefillsRing};

use fir_kernel::{FEW_SAMPLES, MOST_COEFFICIENTS, SHORT_BLOCK, enter, filter, unroll};
use ialg::{BLOCK_SAMPLES, Block, place};

/// The most words of a delay line.
pub(crate) const MOST_RING_WORDS: usize = MOST_COEFFICIENTS - 1 + BLOCK_SAMPLES;

/// The words of a line of past samples and a block, with a run of taps at its end.
const LINE_WORDS: usize = MOST_COEFFICIENTS + BLOCK_SAMPLES;

/// The words of such a line for a short block.
const SHORT_LINE_WORDS: usize = MOST_COEFFICIENTS + SHORT_BLOCK;

/// The words of such a line for a few samples.
const FEW_LINE_WORDS: usize = MOST_COEFFICIENTS + FEW_SAMPLES;

/// The samples of a block for which there is an output: the sample `first`, and each `step`-th after it.
#[derive(Clone, Copy, PartialEq, Eq, Debug)]
pub(crate) struct Taken {
    pub first: usize,
    pub step: usize,
    /// How many samples these are.
    pub count: usize,
}

/// Makes the ring from past samples, the newest last, whatever it was. A ring without room for them and one more stays
/// as it is.
pub(crate) fn refill(past: &[i16], ring: &mut [i16])
    ensures { RefillsRing past.now ring.old ring.new }
{
    if past.len() < MOST_COEFFICIENTS && past.len() + 1 < ring.len() {
        place(ring, 0, past);
        let last = ring.len() - 1;
        ring[last] = past.len() as i16;
    }
}

/// Runs a filter over a block, which enters the ring, in which `next` is the place of the next sample. Where past samples and block don't
/// stand there in a row, they are laid out in a line before. Beside the block's places in the ring, and the last word, no word changes: no
/// past sample is shifted.
///
/// It is inlined, and the lines aren't, so that a block of a sample needs neither a call nor room for a line.
#[inline(always)]
pub(crate) fn run_block(
    coefficients: &[i16],
    ring: &mut [i16],
    next: usize,
    input: &[i16],
    taken: Taken,
    out: &mut Block,
)
    requires some { 1 ≤ length coefficients.now }
    requires few { length coefficients.now ≤ MOST_COEFFICIENTS }
    requires room { length coefficients.now ≤ length ring.old }
    requires small { length ring.old ≤ MOST_RING_WORDS }
    requires next { next + 1 < length ring.old }
    requires within { length input.now ≤ BLOCK_SAMPLES }
    requires reach { AreWithin taken (length input.now) }
    requires count { taken.count ≤ length input.now }
    requires empty { out.old.items ≡ [] }
    ensures count { length out.new.items ≡ taken.count }
    ensures law { Filters coefficients.now next taken input.now ring.old ring.new out.new.items }
    ensures stays { OtherPlacesStay next (length input.now) ring.old ring.new }
{
    if is_straight(coefficients.len(), ring.len(), next, input.len()) {
        run_straight(coefficients, ring, next, input, taken, out);
    } else if input.len() <= FEW_SAMPLES {
        run_line::<FEW_LINE_WORDS>(coefficients, ring, next, input, taken, out);
    } else if input.len() <= SHORT_BLOCK {
        run_line::<SHORT_LINE_WORDS>(coefficients, ring, next, input, taken, out);
    } else {
        run_line::<LINE_WORDS>(coefficients, ring, next, input, taken, out);
    }
}

/// Whether the past samples and a block stand in a row in the ring, once the block is in it, and as many words behind its last window as
/// the filter's runs of taps take.
fn is_straight(taps: usize, ring_words: usize, next: usize, samples: usize) -> bool
    requires few { taps ≤ MOST_COEFFICIENTS }
    requires small { ring_words ≤ MOST_RING_WORDS }
    requires next { next < ring_words }
    requires within { samples ≤ BLOCK_SAMPLES }
    ensures { IsTrue result ↔ (taps ≤ next + 1) × (next + samples < ring_words)
        × (next + samples + MOST_COEFFICIENTS ≤ ring_words + taps) }
{
    taps <= next + 1
        && next + samples < ring_words
        && next + samples + MOST_COEFFICIENTS <= ring_words + taps
}

/// Runs a filter over a block as [`run_block`] does, in the ring itself.
#[inline(always)]
fn run_straight(
    coefficients: &[i16],
    ring: &mut [i16],
    next: usize,
    input: &[i16],
    taken: Taken,
    out: &mut Block,
)
    requires some { 1 ≤ length coefficients.now }
    requires few { length coefficients.now ≤ MOST_COEFFICIENTS }
    requires past { length coefficients.now ≤ next + 1 }
    requires next { next + 1 < length ring.old }
    requires room { next + length input.now < length ring.old }
    requires windows { next + length input.now + MOST_COEFFICIENTS ≤ length ring.old + length coefficients.now }
    requires small { length ring.old ≤ MOST_RING_WORDS }
    requires within { length input.now ≤ BLOCK_SAMPLES }
    requires reach { AreWithin taken (length input.now) }
    requires count { taken.count ≤ length input.now }
    requires empty { out.old.items ≡ [] }
    ensures count { length out.new.items ≡ taken.count }
    ensures law { Filters coefficients.now next taken input.now ring.old ring.new out.new.items }
    ensures stays { OtherPlacesStay next (length input.now) ring.old ring.new }
{
    let past = coefficients.len() - 1;
    let size = ring.len() - 1;
    let after = enter(ring, size, next, input);
    out.set_len(taken.count);
    let (outputs, _room) = out.room_mut().split_at_mut(taken.count);
    filter(
        coefficients,
        &ring[next - past..],
        taken.first,
        taken.step,
        outputs,
    );
    ring[size] = after as i16;
}

/// Runs a filter over a block as [`run_block`] does, in a line of `N` words, which are cleared first.
#[inline(never)]
fn run_line<const N: usize>(
    coefficients: &[i16],
    ring: &mut [i16],
    next: usize,
    input: &[i16],
    taken: Taken,
    out: &mut Block,
)
    requires some { 1 ≤ length coefficients.now }
    requires few { length coefficients.now ≤ MOST_COEFFICIENTS }
    requires room { length coefficients.now ≤ length ring.old }
    requires small { length ring.old ≤ MOST_RING_WORDS }
    requires next { next + 1 < length ring.old }
    requires within { length input.now ≤ BLOCK_SAMPLES }
    requires line { MOST_COEFFICIENTS + length input.now ≤ N }
    requires array { N ≤ LINE_WORDS }
    requires reach { AreWithin taken (length input.now) }
    requires count { taken.count ≤ length input.now }
    requires empty { out.old.items ≡ [] }
    ensures count { length out.new.items ≡ taken.count }
    ensures law { Filters coefficients.now next taken input.now ring.old ring.new out.new.items }
    ensures stays { OtherPlacesStay next (length input.now) ring.old ring.new }
{
    let past = coefficients.len() - 1;
    let size = ring.len() - 1;
    let mut line = [0; N];
    unroll(ring, size, next, past, &mut line, 0);
    place(&mut line, past, input);
    out.set_len(taken.count);
    let (outputs, _room) = out.room_mut().split_at_mut(taken.count);
    filter(coefficients, &line, taken.first, taken.step, outputs);
    let after = enter(ring, size, next, input);
    ring[size] = after as i16;
}
