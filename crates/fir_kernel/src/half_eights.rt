//! Sums by halves in vectors of eight lanes, which are two registers where the processor has no wider ones: 32 neighbouring outputs side by
//! side, whose sums stay in registers from the first tap to the last.
ghost use Rattle.std.specs.Prelude.{◌≡◌, ◌<◌, ◌≤◌, ◌+◌, ◌-◌, ◌*◌, ◌%◌, ℕ, ℤ, length, FitsSigned};
ghost use Rattle.std.specs.Int.{saturate_to_bits, w16, w32};
ghost use Rattle.basic_op.specs.Operators.{l_mac_of};
ghost use Rattle.ialg.specs.History.{word_at};
ghost use Rattle.fir_kernel.specs.Halves.{AreHalves, HasHalves, HaveHalves};
ghost use Rattle.fir_kernel.specs.HalfEights.{AreWritten, HaveTaps, IsHalved};
ghost use Rattle.fir_kernel.specs.HalfLanes.{HasHalfSums};

use crate::halves::Half;
use std::simd::prelude::*;

/// How many sums are made at once, in four vectors.
pub(crate) const BESIDE: usize = 32;

/// How many sums a vector has.
const LANES: usize = 8;

/// The least half of a sum.
const LEAST_HALF: Half = -(1 << 30);

/// The greatest half of a sum.
const MOST_HALF: Half = (1 << 30) - 1;

/// Writes the sums of 32 neighbouring outputs by halves, that at sample `first` first, from sum `at` on.
///
/// Both taps of a pair are added to a register before the next one: so none is copied.
#[inline(never)]
pub(crate) fn sum_beside(
    coefficients: &[i16],
    line: &[i16],
    first: usize,
    sums: &mut [Half],
    at: usize,
)
    requires samples { (k : ℕ) → FitsSigned w16 (word_at line.now k) }
    requires products { HaveHalves coefficients.now line.now }
    requires reach { first + BESIDE + length coefficients.now ≤ length line.now + 1 }
    requires room { at + BESIDE ≤ length sums.old }
    requires halves { AreHalves sums.old }
    ensures { HasHalfSums coefficients.now line.now first at BESIDE sums.old sums.new }
{
    let mut a = begin(coefficients, line, first);
    let mut b = begin(coefficients, line, first + LANES);
    let mut c = begin(coefficients, line, first + LANES * 2);
    let mut d = begin(coefficients, line, first + LANES * 3);
    for pair in 0..coefficients.len() / 2 {
        a = add_pair(a, coefficients, pair, line, first);
        b = add_pair(b, coefficients, pair, line, first + LANES);
        c = add_pair(c, coefficients, pair, line, first + LANES * 2);
        d = add_pair(d, coefficients, pair, line, first + LANES * 3);
    }
    let second = write(a, sums, at);
    let third = write(b, sums, second);
    let fourth = write(c, sums, third);
    let _end = write(d, sums, fourth);
}

/// The sums of eight outputs before the first pair of taps: with a tap already where there is an odd number of them.
#[inline(always)]
fn begin(coefficients: &[i16], line: &[i16], first: usize) -> i32x8
    requires samples { (k : ℕ) → FitsSigned w16 (word_at line.now k) }
    requires products { HaveHalves coefficients.now line.now }
    requires reach { first + LANES + length coefficients.now ≤ length line.now + 1 }
    ensures { HaveTaps coefficients.now line.now first (length coefficients.now % 2 + 2 * 0) result }
{
    let none = i32x8::splat(0);
    if coefficients.len() % 2 == 0 {
        return none;
    }
    add_products(
        none,
        coefficients[0],
        line,
        first + (coefficients.len() - 1),
    )
}

/// Adds the products of a pair of taps to the sums of eight outputs, one tap after the other.
#[inline(always)]
fn add_pair(halves: i32x8, coefficients: &[i16], pair: usize, line: &[i16], first: usize) -> i32x8
    requires samples { (k : ℕ) → FitsSigned w16 (word_at line.now k) }
    requires products { HaveHalves coefficients.now line.now }
    requires reach { first + LANES + length coefficients.now ≤ length line.now + 1 }
    requires pair { 2 * pair + 2 ≤ length coefficients.now }
    requires before { HaveTaps coefficients.now line.now first (length coefficients.now % 2 + 2 * pair) halves }
    ensures { HaveTaps coefficients.now line.now first (length coefficients.now % 2 + 2 * (pair + 1)) result }
{
    let tap = coefficients.len() % 2 + 2 * pair;
    let older = first + (coefficients.len() - 2 - tap);
    let half = add_products(halves, coefficients[tap], line, older + 1);
    add_products(half, coefficients[tap + 1], line, older)
}

/// Adds the products of the coefficient and the eight samples from word `at` of the line on to half sums.
#[inline(always)]
fn add_products(halves: i32x8, coefficient: i16, line: &[i16], at: usize) -> i32x8
    requires samples { (k : ℕ) → FitsSigned w16 (word_at line.now k) }
    requires products { HasHalves coefficient line.now }
    requires reach { at + LANES ≤ length line.now }
    requires eight { length halves ≡ LANES }
    requires within { AreHalves halves }
    ensures { (sums : ℕ → ℤ) → IsHalved halves sums
        → IsHalved result (λ k. l_mac_of (sums k) coefficient (word_at line.now (at + k))) }
{
    let samples = i16x8::from_slice(&line[at..at + LANES]).cast::<i32>();
    limited(halves + i32x8::splat(i32::from(coefficient)) * samples)
}

/// The sums, each limited to half of a Word32.
#[inline(always)]
fn limited(sums: i32x8) -> i32x8
    requires eight { length sums ≡ LANES }
    requires fit { (k : ℕ) → FitsSigned w32 (word_at sums k) }
    ensures eight { length result ≡ LANES }
    ensures values { (k : ℕ) → word_at result k ≡ saturate_to_bits 30 (word_at sums k) }
{
    sums.simd_max(i32x8::splat(LEAST_HALF))
        .simd_min(i32x8::splat(MOST_HALF))
}

/// Writes the half sums, from sum `at` on, and answers which sum is behind them.
#[inline(always)]
fn write(halves: i32x8, sums: &mut [Half], at: usize) -> usize
    requires eight { length halves ≡ LANES }
    requires within { AreHalves halves }
    requires room { at + LANES ≤ length sums.old }
    ensures next { result ≡ at + LANES }
    ensures written { AreWritten halves at sums.old sums.new }
{
    halves.copy_to_slice(&mut sums[at..]);
    at + LANES
}
