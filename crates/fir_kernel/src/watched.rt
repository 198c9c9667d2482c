//! Sums by halves in vector registers, that are limited only where a limit can bind: 16 neighbouring outputs side by side. Before each
//! group of eight taps the sums are looked at: where the products of the group can't take one of them beyond the limits, whatever the
//! samples, those are added together, and else one after the other.
ghost use Rattle.std.specs.Prelude.{true, ◌≡◌, ◌<◌, ◌≤◌, ◌+◌, ◌-◌, ◌*◌, ◌/◌, ◌^◌, ◌+ℤ◌, ◌*ℤ◌, ℕ, ℤ, List, length, FitsSigned};
ghost use Rattle.std.specs.Int.{w16};
ghost use Rattle.basic_op.specs.Operators.{l_mac_of};
ghost use Rattle.ialg.specs.History.{word_at};
ghost use Rattle.fir_kernel.specs.Bounded.{magnitude_sum, product_sum, NoneLouder};
ghost use Rattle.fir_kernel.specs.Halves.{AreHalves, HasHalves, HaveHalves};
ghost use Rattle.fir_kernel.specs.HalfLanes.{HasHalfSums, IsHalved};
ghost use Rattle.fir_kernel.specs.Watched.{AreBelow, AreRooms, AreWrapped, HaveEvery, StayWithin};

use crate::bounded::magnitude;
use crate::half_lanes::{LANES, limited, write};
use crate::halves::Half;
use crate::{LEAST_UNBOUNDED_SUM, MOST_COEFFICIENTS};
use std::simd::prelude::*;

/// How many sums are made at once, in four registers.
pub(crate) const SIXTEEN: usize = 16;

/// How many taps are added together where no sum can reach a limit.
pub(crate) const GROUP: usize = 8;

/// The most groups of taps.
pub(crate) const MOST_GROUPS: usize = MOST_COEFFICIENTS / GROUP;

/// How many words a load has: two for each of four sums.
const REGISTER: usize = 8;

/// Finds the room of each group of taps, for samples of which none is louder: a sum whose magnitude is below it stays within the limits.
/// Whether one has any.
pub(crate) fn find_rooms(coefficients: &[i16], loudest: u16, rooms: &mut [u32]) -> bool
    requires few { length coefficients.now / 8 ≤ length rooms.old }
    ensures some { result ≡ true → GROUP ≤ length coefficients.now }
    ensures rooms { result ≡ true → (line : List ℤ) → NoneLouder line loudest → AreRooms coefficients.now line rooms.new }
{
    if coefficients.len() < GROUP {
        return false;
    }
    let mut most = 0;
    for group in 0..coefficients.len() / GROUP {
        let tap = coefficients.len() % GROUP + GROUP * group;
        rooms[group] = room_of(&coefficients[tap..tap + GROUP], loudest);
        most = rooms[group].max(most);
    }
    most > 0
}

/// By how much less than the least magnitude beyond the limits the products of a group of taps come to.
fn room_of(taps: &[i16], loudest: u16) -> u32
    requires { length taps.now ≡ GROUP }
    ensures { (n : ℕ) → n < result → n + magnitude_sum (word_at taps.now) 8 * loudest < 2 ^ 30 }
{
    let reach = u64::from(magnitude(taps)) * u64::from(loudest);
    if reach < LEAST_UNBOUNDED_SUM {
        (LEAST_UNBOUNDED_SUM - reach) as u32
    } else {
        0
    }
}

/// Writes the sums of 16 neighbouring outputs by halves, that at sample `first` first, from sum `at` on. The registers have those at the
/// samples `first`, `first + 2`, .., `first + 6`, those between, and those eight behind both: so one load has the samples of two taps for
/// each sum.
#[inline(never)]
pub(crate) fn sum_sixteen(
    coefficients: &[i16],
    rooms: &[u32],
    line: &[i16],
    first: usize,
    sums: &mut [Half],
    at: usize,
)
    requires words { (k : ℕ) → FitsSigned w16 (word_at coefficients.now k) }
    requires samples { (k : ℕ) → FitsSigned w16 (word_at line.now k) }
    requires products { HaveHalves coefficients.now line.now }
    requires some { GROUP ≤ length coefficients.now }
    requires rooms { AreRooms coefficients.now line.now rooms.now }
    requires groups { length coefficients.now / 8 ≤ length rooms.now }
    requires reach { first + SIXTEEN + length coefficients.now ≤ length line.now + 1 }
    requires room { at + SIXTEEN ≤ length sums.old }
    requires halves { AreHalves sums.old }
    ensures { HasHalfSums coefficients.now line.now first at SIXTEEN sums.old sums.new }
{
    let mut a = i32x4::splat(0);
    let mut b = i32x4::splat(0);
    let mut c = i32x4::splat(0);
    let mut d = i32x4::splat(0);
    for tap in 0..coefficients.len() % GROUP {
        let before = first + (coefficients.len() - 2 - tap);
        let coefficient = coefficients[tap];
        a = add_newer(a, coefficient, line, before);
        b = add_newer(b, coefficient, line, before + 1);
        c = add_newer(c, coefficient, line, before + 8);
        d = add_newer(d, coefficient, line, before + 9);
    }
    for group in 0..coefficients.len() / GROUP {
        let tap = coefficients.len() % GROUP + GROUP * group;
        if are_below(a, b, c, d, rooms[group]) {
            let taps = &coefficients[tap..tap + GROUP];
            let oldest = first + (coefficients.len() - GROUP - tap);
            a = add_together(a, taps, line, oldest);
            b = add_together(b, taps, line, oldest + 1);
            c = add_together(c, taps, line, oldest + 8);
            d = add_together(d, taps, line, oldest + 9);
        } else {
            a = add_in_order(a, coefficients, tap, line, first);
            b = add_in_order(b, coefficients, tap, line, first + 1);
            c = add_in_order(c, coefficients, tap, line, first + 8);
            d = add_in_order(d, coefficients, tap, line, first + 9);
        }
    }
    let first_sums = low_of(a, b);
    let second = write(first_sums, sums, at);
    let second_sums = high_of(a, b);
    let third = write(second_sums, sums, second);
    let third_sums = low_of(c, d);
    let fourth = write(third_sums, sums, third);
    let fourth_sums = high_of(c, d);
    let _end = write(fourth_sums, sums, fourth);
}

/// Whether the magnitudes of all sums are below the room.
#[inline(always)]
fn are_below(a: i32x4, b: i32x4, c: i32x4, d: i32x4, room: u32) -> bool
    requires small { room ≤ 2 ^ 30 }
    requires a { length a ≡ LANES }
    requires b { length b ≡ LANES }
    requires c { length c ≡ LANES }
    requires d { length d ≡ LANES }
    requires a_halves { AreHalves a }
    requires b_halves { AreHalves b }
    requires c_halves { AreHalves c }
    requires d_halves { AreHalves d }
    ensures a { result ≡ true → AreBelow room a }
    ensures b { result ≡ true → AreBelow room b }
    ensures c { result ≡ true → AreBelow room c }
    ensures d { result ≡ true → AreBelow room d }
{
    let ab = a.abs().simd_max(b.abs());
    let cd = c.abs().simd_max(d.abs());
    let limit = i32x4::splat(room as i32);
    ab.simd_max(cd).simd_lt(limit).all()
}

/// Adds the products of eight taps to four sums, to 32 bits.
#[inline(always)]
fn add_together(sums: i32x4, taps: &[i16], line: &[i16], oldest: usize) -> i32x4
    requires samples { (k : ℕ) → FitsSigned w16 (word_at line.now k) }
    requires words { (k : ℕ) → FitsSigned w16 (word_at taps.now k) }
    requires taps { length taps.now ≡ GROUP }
    requires reach { oldest + 6 + REGISTER ≤ length line.now }
    ensures { (s : ℕ → ℤ) → AreWrapped sums s
        → AreWrapped result (λ k. s k +ℤ product_sum (word_at taps.now) (λ j. word_at line.now (oldest + 7 + 2 * k - j)) GROUP) }
{
    let taps = i16x8::from_slice(taps);
    let a = add_products(
        sums,
        taps.swizzle([1, 0, 1, 0, 1, 0, 1, 0]),
        line,
        oldest + 6,
    );
    let b = add_products(a, taps.swizzle([3, 2, 3, 2, 3, 2, 3, 2]), line, oldest + 4);
    let c = add_products(b, taps.swizzle([5, 4, 5, 4, 5, 4, 5, 4]), line, oldest + 2);
    add_products(c, taps.swizzle([7, 6, 7, 6, 7, 6, 7, 6]), line, oldest)
}

/// Adds the products of two taps to each of four sums, to 32 bits: the compiler makes one instruction of it.
#[inline(always)]
fn add_products(sums: i32x4, pair: i16x8, line: &[i16], at: usize) -> i32x4
    requires samples { (k : ℕ) → FitsSigned w16 (word_at line.now k) }
    requires words { (k : ℕ) → FitsSigned w16 (word_at pair k) }
    requires eight { length pair ≡ REGISTER }
    requires reach { at + REGISTER ≤ length line.now }
    ensures { (s : ℕ → ℤ) → AreWrapped sums s → AreWrapped result (λ k. s k
        +ℤ ((word_at pair (2 * k) *ℤ word_at line.now (at + 2 * k)) +ℤ (word_at pair (2 * k + 1) *ℤ word_at line.now (at + 2 * k + 1)))) }
{
    let samples = i16x8::from_slice(&line[at..at + REGISTER]).cast::<i32>();
    let products: i32x8 = pair.cast::<i32>() * samples;
    let even: i32x4 = products.swizzle([0, 2, 4, 6]);
    let odd: i32x4 = products.swizzle([1, 3, 5, 7]);
    sums + (even + odd)
}

/// Adds the products of a group of taps to four sums, one tap after the other.
#[inline(always)]
fn add_in_order(
    halves: i32x4,
    coefficients: &[i16],
    tap: usize,
    line: &[i16],
    first: usize,
) -> i32x4
    requires samples { (k : ℕ) → FitsSigned w16 (word_at line.now k) }
    requires products { HaveHalves coefficients.now line.now }
    requires reach { first + 6 + length coefficients.now ≤ length line.now }
    requires tap { tap + GROUP ≤ length coefficients.now }
    requires before { HaveEvery coefficients.now line.now first tap halves }
    ensures { HaveEvery coefficients.now line.now first (tap + GROUP) result }
{
    let a = add_pair(halves, coefficients, tap, line, first);
    let b = add_pair(a, coefficients, tap + 2, line, first);
    let c = add_pair(b, coefficients, tap + 4, line, first);
    add_pair(c, coefficients, tap + 6, line, first)
}

/// Adds the products of two taps to four sums, one tap after the other.
#[inline(always)]
fn add_pair(halves: i32x4, coefficients: &[i16], tap: usize, line: &[i16], first: usize) -> i32x4
    requires samples { (k : ℕ) → FitsSigned w16 (word_at line.now k) }
    requires products { HaveHalves coefficients.now line.now }
    requires reach { first + 6 + length coefficients.now ≤ length line.now }
    requires tap { tap + 2 ≤ length coefficients.now }
    requires before { HaveEvery coefficients.now line.now first tap halves }
    ensures { HaveEvery coefficients.now line.now first (tap + 2) result }
{
    let older = first + (coefficients.len() - 2 - tap);
    let half = add_newer(halves, coefficients[tap], line, older);
    add_older(half, coefficients[tap + 1], line, older)
}

/// Adds the products of the coefficient and the samples at the words `at + 1`, `at + 3`, .. to half sums.
#[inline(always)]
fn add_newer(halves: i32x4, coefficient: i16, line: &[i16], at: usize) -> i32x4
    requires samples { (k : ℕ) → FitsSigned w16 (word_at line.now k) }
    requires products { HasHalves coefficient line.now }
    requires reach { at + REGISTER ≤ length line.now }
    requires four { length halves ≡ LANES }
    requires within { AreHalves halves }
    ensures { (sums : ℕ → ℤ) → IsHalved halves sums
        → IsHalved result (λ k. l_mac_of (sums k) coefficient (word_at line.now (at + 1 + 2 * k))) }
{
    let words = i16x8::from_slice(&line[at..at + REGISTER]);
    let samples: i16x4 = words.swizzle([1, 3, 5, 7]);
    limited(halves + i32x4::splat(i32::from(coefficient)) * samples.cast::<i32>())
}

/// Adds the products of the coefficient and the samples at the words `at`, `at + 2`, .. to half sums.
#[inline(always)]
fn add_older(halves: i32x4, coefficient: i16, line: &[i16], at: usize) -> i32x4
    requires samples { (k : ℕ) → FitsSigned w16 (word_at line.now k) }
    requires products { HasHalves coefficient line.now }
    requires reach { at + REGISTER ≤ length line.now }
    requires four { length halves ≡ LANES }
    requires within { AreHalves halves }
    ensures { (sums : ℕ → ℤ) → IsHalved halves sums
        → IsHalved result (λ k. l_mac_of (sums k) coefficient (word_at line.now (at + 2 * k))) }
{
    let words = i16x8::from_slice(&line[at..at + REGISTER]);
    let samples: i16x4 = words.swizzle([0, 2, 4, 6]);
    limited(halves + i32x4::splat(i32::from(coefficient)) * samples.cast::<i32>())
}

/// The first four of eight sums, of which one register has the even ones and another those between.
#[inline(always)]
fn low_of(even: i32x4, odd: i32x4) -> i32x4
    ensures { (sums : ℕ → ℤ) → IsHalved even (λ k. sums (2 * k)) → IsHalved odd (λ k. sums (2 * k + 1))
        → IsHalved result (λ k. sums (k)) }
{
    even.shuffle(odd, [0, 4, 1, 5])
}

/// The last four of them.
#[inline(always)]
fn high_of(even: i32x4, odd: i32x4) -> i32x4
    ensures { (sums : ℕ → ℤ) → IsHalved even (λ k. sums (2 * k)) → IsHalved odd (λ k. sums (2 * k + 1))
        → IsHalved result (λ k. sums (4 + k)) }
{
    even.shuffle(odd, [2, 6, 3, 7])
}
