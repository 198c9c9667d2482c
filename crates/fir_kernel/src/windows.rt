//! The filter over windows of a line, eight of them at a time: their sums of products are made and rounded in vector registers.
ghost use Rattle.std.specs.Prelude.{◌≡◌, ◌⊎◌, ◌<◌, ◌≤◌, ◌+◌, ◌*◌, ◌+ℤ◌, ℕ, ℤ, [], ◌∷◌, length, FitsSigned};
ghost use Rattle.std.specs.Int.{int_wrap, w16, w32};
ghost use Rattle.basic_op.specs.Halves.{half_of};
ghost use Rattle.basic_op.specs.Operators.{round_of};
ghost use Rattle.ialg.specs.History.{word_at};
ghost use Rattle.fir_kernel.specs.Sums.{Reaches};
ghost use Rattle.fir_kernel.specs.Halves.{AreHalves};
ghost use Rattle.fir_kernel.specs.Windows.{window_sum, in_groups, HaveHalfSums, AreRounded, AreRoundedFrom, IsSplit, IsSpread};

use std::simd::prelude::*;

/// How many outputs are made at once.
pub(crate) const WINDOWS: usize = 8;

/// How many taps or samples a vector has: where the processor's registers have half as many, two of them stand for it.
const REGISTER: usize = 16;

/// How many registers have the taps of a short filter.
const FEW_REGISTERS: usize = 2;

/// How many registers have the taps of a long one.
const MOST_REGISTERS: usize = 4;

/// The bits by which half of a sum in Q31 is longer than a word in Q15.
const LONGER_BITS: i32 = 15;

/// Half of the least step of a word, in half a sum: what is added before it is cut to a word.
const HALF_STEP: i32 = 1 << 14;

/// The least word.
const LEAST_WORD: i32 = -(1 << 15);

/// The greatest word.
const MOST_WORD: i32 = (1 << 15) - 1;

/// Writes the outputs that are made by whole groups of eight: each is the sum of the products of all taps with a window, rounded. The first
/// window begins at word `first` of the line, and each other one `step` words behind the one before. There are 32 taps or 64.
pub(crate) fn filter_groups(taps: &[i16], line: &[i16], first: usize, step: usize, out: &mut [i16])
    requires words { (k : ℕ) → FitsSigned w16 (word_at taps.now k) }
    requires samples { (k : ℕ) → FitsSigned w16 (word_at line.now k) }
    requires size { (length taps.now ≡ REGISTER * FEW_REGISTERS) ⊎ (length taps.now ≡ REGISTER * MOST_REGISTERS) }
    requires reach { Reaches first step (length out.old) (length taps.now) line.now }
    requires halves { HaveHalfSums taps.now line.now first step (length out.old) }
    ensures { AreRounded taps.now line.now first step (in_groups (length out.old)) out.old out.new }
{
    let few = taps.len() == REGISTER * FEW_REGISTERS;
    match (few, step) {
        (true, 1) => filter_beside::<FEW_REGISTERS>(taps, line, first, out),
        (true, _) => filter_apart::<FEW_REGISTERS>(taps, line, first, step, out),
        (false, 1) => filter_beside::<MOST_REGISTERS>(taps, line, first, out),
        (false, _) => filter_apart::<MOST_REGISTERS>(taps, line, first, step, out),
    }
}

/// Writes the outputs of windows side by side. Where the step is known, no address but one is computed for eight windows; where the number
/// of registers is, they have the taps of all eight.
#[inline(never)]
fn filter_beside<const REGISTERS: usize>(taps: &[i16], line: &[i16], first: usize, out: &mut [i16])
    requires words { (k : ℕ) → FitsSigned w16 (word_at taps.now k) }
    requires samples { (k : ℕ) → FitsSigned w16 (word_at line.now k) }
    requires size { length taps.now ≡ REGISTER * REGISTERS }
    requires reach { Reaches first 1 (length out.old) (length taps.now) line.now }
    requires halves { HaveHalfSums taps.now line.now first 1 (length out.old) }
    ensures { AreRounded taps.now line.now first 1 (in_groups (length out.old)) out.old out.new }
{
    filter_by_step::<REGISTERS>(taps, line, first, 1, out);
}

/// Writes the outputs of windows that are `step` words apart.
#[inline(never)]
fn filter_apart<const REGISTERS: usize>(
    taps: &[i16],
    line: &[i16],
    first: usize,
    step: usize,
    out: &mut [i16],
)
    requires words { (k : ℕ) → FitsSigned w16 (word_at taps.now k) }
    requires samples { (k : ℕ) → FitsSigned w16 (word_at line.now k) }
    requires size { length taps.now ≡ REGISTER * REGISTERS }
    requires reach { Reaches first step (length out.old) (length taps.now) line.now }
    requires halves { HaveHalfSums taps.now line.now first step (length out.old) }
    ensures { AreRounded taps.now line.now first step (in_groups (length out.old)) out.old out.new }
{
    filter_by_step::<REGISTERS>(taps, line, first, step, out);
}

/// Writes the outputs as [`filter_groups`] does.
#[inline(always)]
fn filter_by_step<const REGISTERS: usize>(
    taps: &[i16],
    line: &[i16],
    first: usize,
    step: usize,
    out: &mut [i16],
)
    requires words { (k : ℕ) → FitsSigned w16 (word_at taps.now k) }
    requires samples { (k : ℕ) → FitsSigned w16 (word_at line.now k) }
    requires size { length taps.now ≡ REGISTER * REGISTERS }
    requires reach { Reaches first step (length out.old) (length taps.now) line.now }
    requires halves { HaveHalfSums taps.now line.now first step (length out.old) }
    ensures { AreRounded taps.now line.now first step (in_groups (length out.old)) out.old out.new }
{
    for group in 0..out.len() / WINDOWS {
        let at = WINDOWS * group;
        filter_eight::<REGISTERS>(taps, line, first + step * at, step, out, at);
    }
}

/// Writes eight outputs, from output `at` on. The first window begins at word `from` of the line.
#[inline(always)]
fn filter_eight<const REGISTERS: usize>(
    taps: &[i16],
    line: &[i16],
    from: usize,
    step: usize,
    out: &mut [i16],
    at: usize,
)
    requires words { (k : ℕ) → FitsSigned w16 (word_at taps.now k) }
    requires samples { (k : ℕ) → FitsSigned w16 (word_at line.now k) }
    requires size { length taps.now ≡ REGISTER * REGISTERS }
    requires reach { from + step * 7 + length taps.now ≤ length line.now }
    requires halves { HaveHalfSums taps.now line.now from step 8 }
    requires room { at + WINDOWS ≤ length out.old }
    ensures { AreRoundedFrom taps.now line.now from step at out.old out.new }
{
    let a = sum_window::<REGISTERS>(taps, line, from);
    let b = sum_window::<REGISTERS>(taps, line, from + step);
    let c = sum_window::<REGISTERS>(taps, line, from + step * 2);
    let d = sum_window::<REGISTERS>(taps, line, from + step * 3);
    let e = sum_window::<REGISTERS>(taps, line, from + step * 4);
    let f = sum_window::<REGISTERS>(taps, line, from + step * 5);
    let g = sum_window::<REGISTERS>(taps, line, from + step * 6);
    let h = sum_window::<REGISTERS>(taps, line, from + step * 7);
    let low = lane_sums(a, b, c, d);
    let high = lane_sums(e, f, g, h);
    round_eight(low, high).copy_to_slice(&mut out[at..]);
}

/// The sum of the products of all taps with the window that begins at word `from` of the line, in lanes.
#[inline(always)]
fn sum_window<const REGISTERS: usize>(taps: &[i16], line: &[i16], from: usize) -> i32x4
    requires words { (k : ℕ) → FitsSigned w16 (word_at taps.now k) }
    requires samples { (k : ℕ) → FitsSigned w16 (word_at line.now k) }
    requires size { length taps.now ≡ REGISTER * REGISTERS }
    requires reach { from + length taps.now ≤ length line.now }
    ensures { IsSplit result (window_sum taps.now line.now from (length taps.now)) }
{
    let mut sums = i32x8::splat(0);
    for register in 0..REGISTERS {
        let on = REGISTER * register;
        sums = add_products(sums, &taps[on..on + REGISTER], line, from + on);
    }
    fold(sums)
}

/// The sums of eight lanes in four.
#[inline(always)]
fn fold(sums: i32x8) -> i32x4
    ensures { (sum : ℤ) → IsSpread sums sum → IsSplit result sum }
{
    let low: i32x4 = sums.swizzle([0, 1, 2, 3]);
    low + sums.swizzle([4, 5, 6, 7])
}

/// Eight halves of sums in Q31, each rounded to Q15: the compiler makes one instruction of the limits and the cut.
#[inline(always)]
fn round_eight(low: i32x4, high: i32x4) -> i16x8
    requires low_four { length low ≡ 4 }
    requires high_four { length high ≡ 4 }
    requires low_halves { AreHalves low }
    requires high_halves { AreHalves high }
    ensures eight { length result ≡ 8 }
    ensures low { (k : ℕ) (v : ℤ) → k < 4 → word_at low k ≡ half_of v → word_at result k ≡ round_of v }
    ensures high { (k : ℕ) (v : ℤ) → k < 4 → word_at high k ≡ half_of v → word_at result (4 + k) ≡ round_of v }
{
    let halves: i32x8 = low.shuffle(high, [0, 1, 2, 3, 4, 5, 6, 7]);
    let nearest = (halves + i32x8::splat(HALF_STEP)) >> i32x8::splat(LONGER_BITS);
    nearest
        .simd_max(i32x8::splat(LEAST_WORD))
        .simd_min(i32x8::splat(MOST_WORD))
        .cast::<i16>()
}

/// Reads all words. Nothing is left of it where the code is made.
pub(crate) fn read_words(words: &[i16])
    ensures { (k : ℕ) → FitsSigned w16 (word_at words.now k) }
{
    for word in words {
        let _word = *word;
    }
}

/// Adds the products of 16 taps with the samples from word `at` of the line on, two to each lane: the compiler makes one instruction of it,
/// or two.
#[inline(always)]
fn add_products(sums: i32x8, taps: &[i16], line: &[i16], at: usize) -> i32x8
    requires words { (k : ℕ) → FitsSigned w16 (word_at taps.now k) }
    requires samples { (k : ℕ) → FitsSigned w16 (word_at line.now k) }
    requires taps { length taps.now ≡ REGISTER }
    requires line { at + REGISTER ≤ length line.now }
    ensures { (sum : ℤ) → IsSpread sums sum → IsSpread result (sum +ℤ window_sum taps.now line.now at REGISTER) }
{
    let taps = i16x16::from_slice(taps).cast::<i32>();
    let samples = i16x16::from_slice(&line[at..at + REGISTER]).cast::<i32>();
    let products: i32x16 = taps * samples;
    let even: i32x8 = products.swizzle([0, 2, 4, 6, 8, 10, 12, 14]);
    let odd: i32x8 = products.swizzle([1, 3, 5, 7, 9, 11, 13, 15]);
    sums + (even + odd)
}

/// The sums of the lanes of four vectors, each wrapped to 32 bits.
#[inline(always)]
fn lane_sums(a: i32x4, b: i32x4, c: i32x4, d: i32x4) -> i32x4
    ensures { (s t u v : ℤ) → IsSplit a s → IsSplit b t → IsSplit c u → IsSplit d v
        → result ≡ int_wrap w32 s ∷ int_wrap w32 t ∷ int_wrap w32 u ∷ int_wrap w32 v ∷ [] }
{
    let ab: i32x4 = a.shuffle(b, [0, 2, 4, 6]);
    let ab = ab + a.shuffle(b, [1, 3, 5, 7]);
    let cd: i32x4 = c.shuffle(d, [0, 2, 4, 6]);
    let cd = cd + c.shuffle(d, [1, 3, 5, 7]);
    let even: i32x4 = ab.shuffle(cd, [0, 2, 4, 6]);
    even + ab.shuffle(cd, [1, 3, 5, 7])
}
