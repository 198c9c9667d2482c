//! The filter where no sum can saturate: plain sums, in whatever order the vector registers take the products. Each is half of the sum of
//! the doubled products, and is rounded as such.
ghost use Rattle.std.specs.Prelude.{◌≡◌, ◌⊎◌, ◌↔◌, ◌<◌, ◌≤◌, ◌+◌, ◌-◌, ◌*◌, ◌%◌, ◌+ℤ◌, ◌*ℤ◌, ℕ, length, take, IsTrue};
ghost use Rattle.std.specs.Int.{int_wrap, w32};
ghost use Rattle.ialg.specs.History.{word_at};
ghost use Rattle.fir_kernel.specs.Bounded.{product_sum, magnitude_sum, NoneLouder, IsBounded};
ghost use Rattle.fir_kernel.specs.Sums.{filtered_at, AreOutputs, Reaches};
ghost use Rattle.fir_kernel.specs.Windows.{AreRounded, HaveHalfSums};

use crate::windows::{WINDOWS, filter_groups, read_words};
use crate::{GREATEST_MAGNITUDE, LEAST_UNBOUNDED_SUM, MOST_COEFFICIENTS};
use basic_op::{half_round, product};

/// How many products are summed at once: a loop of so many is unrolled into vector products.
const LANES: usize = 32;

/// Whether no sum of the filter over these samples can saturate, and a magnitude that none of them exceeds. Of most filters none can,
/// however loud the samples are: then these aren't looked through.
pub(crate) fn bound(coefficients: &[i16], samples: &[i16]) -> (bool, u16)
    requires { length coefficients.now ≤ MOST_COEFFICIENTS }
    ensures bounded { IsTrue result.0 ↔ IsBounded coefficients.now samples.now }
    ensures quiet { NoneLouder samples.now result.1 }
{
    let magnitude = u64::from(magnitude(coefficients));
    if magnitude * GREATEST_MAGNITUDE < LEAST_UNBOUNDED_SUM {
        read(samples);
        return (true, GREATEST_MAGNITUDE as u16);
    }
    let loudest = loudest(samples);
    (
        magnitude * u64::from(loudest) < LEAST_UNBOUNDED_SUM,
        loudest,
    )
}

/// Reads all samples. Nothing is left of it where the code is made.
fn read(samples: &[i16])
    ensures { NoneLouder samples.now GREATEST_MAGNITUDE }
{
    for sample in samples {
        let _sample = *sample;
    }
}

/// The sum of the coefficients' magnitudes.
pub(crate) fn magnitude(coefficients: &[i16]) -> u32
    requires { length coefficients.now ≤ MOST_COEFFICIENTS }
    ensures { result ≡ magnitude_sum (word_at coefficients.now) (length coefficients.now) }
{
    let mut sum = 0;
    for coefficient in coefficients {
        sum += u32::from(coefficient.unsigned_abs());
    }
    sum
}

/// The greatest magnitude of a sample.
fn loudest(samples: &[i16]) -> u16
    ensures bound { NoneLouder samples.now result }
    ensures least { (bound : ℕ) → NoneLouder samples.now bound → result ≤ bound }
{
    let mut loudest = 0;
    for sample in samples {
        loudest = sample.unsigned_abs().max(loudest);
    }
    loudest
}

/// The one output of the filter for sample `at` of the block, where no sum can saturate over the samples up to it. It needs no arrays.
pub(crate) fn output_bounded(coefficients: &[i16], line: &[i16], at: usize) -> i16
    requires some { 1 ≤ length coefficients.now }
    requires reach { at + length coefficients.now ≤ length line.now }
    requires bounded { IsBounded coefficients.now (take (at + length coefficients.now) line.now) }
    ensures { result ≡ filtered_at coefficients.now line.now at }
{
    let sum = dot_turned(coefficients, &line[at..at + coefficients.len()]);
    half_round(sum)
}

/// The sum of the products of the coefficients with a window of samples, of which the newest stands last: wrapped to 32 bits.
fn dot_turned(coefficients: &[i16], window: &[i16]) -> i32
    requires { length window.now ≡ length coefficients.now }
    ensures { result ≡ int_wrap w32 (product_sum (word_at coefficients.now)
        (λ k. word_at window.now (length coefficients.now - 1 - k)) (length coefficients.now)) }
{
    let mut sum: i32 = 0;
    for (k, coefficient) in coefficients.iter().enumerate() {
        sum = add_product(sum, *coefficient, window[coefficients.len() - 1 - k]);
    }
    sum
}

/// Runs the filter as [`filter`](crate::filter) does, where no sum can saturate over the samples up to `last`. There is
/// no output for a later one. It is a call of its own, so that one output needs no room for arrays.
#[inline(never)]
pub(crate) fn filter_bounded(
    coefficients: &[i16],
    line: &[i16],
    first: usize,
    step: usize,
    last: usize,
    out: &mut [i16],
)
    requires some { 1 ≤ length coefficients.now }
    requires few { length coefficients.now ≤ MOST_COEFFICIENTS }
    requires reach { Reaches first step (length out.old) MOST_COEFFICIENTS line.now }
    requires last { (i : ℕ) → i < length out.old → first + step * i ≤ last }
    requires bounded { IsBounded coefficients.now (take (last + length coefficients.now) line.now) }
    ensures { AreOutputs coefficients.now line.now first step (length out.old) out.new }
{
    let mut taps = [0; MOST_COEFFICIENTS];
    reverse(coefficients, &mut taps);
    let runs = if coefficients.len() <= LANES { 1 } else { 2 };
    filter_windows(&taps[..LANES * runs], line, first, step, out);
}

/// Writes the coefficients into the first words of `taps`, the last one first.
fn reverse(coefficients: &[i16], taps: &mut [i16])
    requires { length coefficients.now ≤ length taps.old }
    ensures reversed { (j k : ℕ) → j + k + 1 ≡ length coefficients.now
        → word_at taps.new j ≡ word_at coefficients.now k }
    ensures rest { (j : ℕ) → length coefficients.now ≤ j → word_at taps.new j ≡ word_at taps.old j }
{
    for (k, coefficient) in coefficients.iter().enumerate() {
        taps[coefficients.len() - 1 - k] = *coefficient;
    }
}

/// Writes the outputs: each is the sum of the products of all taps with a window of the line, rounded; output `i` is that of the window
/// that begins at word `first + step * i`. Those that make no whole group are made one by one.
fn filter_windows(taps: &[i16], line: &[i16], first: usize, step: usize, out: &mut [i16])
    requires size { (length taps.now ≡ LANES) ⊎ (length taps.now ≡ LANES * 2) }
    requires reach { Reaches first step (length out.old) (length taps.now) line.now }
    requires halves { HaveHalfSums taps.now line.now first step (length out.old) }
    ensures { AreRounded taps.now line.now first step (length out.old) out.old out.new }
{
    read_words(taps);
    read_words(line);
    filter_groups(taps, line, first, step, out);
    for i in WINDOWS * (out.len() / WINDOWS)..out.len() {
        let from = first + step * i;
        let sum = dot(taps, &line[from..from + taps.len()]);
        out[i] = half_round(sum);
    }
}

/// The sum of the products, wrapped to 32 bits.
///
/// A call of its own for each window keeps the taps in vector order: inlined, their loads are drawn out of the loop one
/// by one.
#[inline(never)]
fn dot(taps: &[i16], window: &[i16]) -> i32
    requires whole { length taps.now % LANES ≡ 0 }
    requires as_many { length window.now ≡ length taps.now }
    ensures { result ≡ int_wrap w32 (product_sum (word_at taps.now) (word_at window.now) (length taps.now)) }
{
    let mut sum: i32 = 0;
    for run in 0..taps.len() / LANES {
        let from = LANES * run;
        sum = sum.wrapping_add(dot_lanes(&taps[from..from + LANES], &window[from..from + LANES]));
    }
    sum
}

/// The sum of the products of one run, wrapped to 32 bits.
#[inline(always)]
fn dot_lanes(taps: &[i16], samples: &[i16]) -> i32
    requires taps { length taps.now ≡ LANES }
    requires samples { length samples.now ≡ LANES }
    ensures { result ≡ int_wrap w32 (product_sum (word_at taps.now) (word_at samples.now) (length taps.now)) }
{
    let mut sum: i32 = 0;
    for j in 0..LANES {
        sum = add_product(sum, taps[j], samples[j]);
    }
    sum
}

/// The product is added to the sum, wrapped to 32 bits.
#[inline(always)]
fn add_product(sum: i32, tap: i16, sample: i16) -> i32
    ensures { result ≡ int_wrap w32 (sum +ℤ tap *ℤ sample) }
{
    sum.wrapping_add(product(tap, sample))
}
