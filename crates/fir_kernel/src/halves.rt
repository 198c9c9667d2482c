//! The filter by halves of its sums, where no product is that of -32768 and -32768: each sum takes its products in order, and is limited
//! after each that may take it beyond a limit. A step has neither a doubling nor a test for overflow, and the sums of a block run side by
//! side in vector registers.
ghost use Rattle.std.specs.Prelude.{true, ◌≡◌, ◌<◌, ◌≤◌, ◌+◌, ◌*◌, ◌/◌, ℕ, ℤ, length, FitsSigned};
ghost use Rattle.std.specs.Int.{w16};
ghost use Rattle.basic_op.specs.Halves.{half_of};
ghost use Rattle.basic_op.specs.Operators.{round_of};
ghost use Rattle.ialg.specs.History.{word_at};
ghost use Rattle.fir_kernel.specs.Bounded.{NoneLouder};
ghost use Rattle.fir_kernel.specs.Halves.{AreAboveLeast, AreHalfSums, AreHalves, HasHalves, HaveHalves, HaveProduct, HaveProducts};
ghost use Rattle.fir_kernel.specs.HalfLanes.{BeginWithSums};
ghost use Rattle.fir_kernel.specs.Sums.{AreOutputs, Reaches};
ghost use Rattle.fir_kernel.specs.Watched.{AreRooms};

use crate::MOST_COEFFICIENTS;
use crate::half_eights::{BESIDE, sum_beside};
use crate::half_lanes::{LANES, sum_four};
use crate::watched::{GROUP, MOST_GROUPS, SIXTEEN, find_rooms, sum_sixteen};
use crate::windows::read_words;
use basic_op::{half_mac, half_round};
use ialg::BLOCK_SAMPLES;

/// Half of a sum of products in Q31.
pub(crate) type Half = i32;

/// Whether no word is -32768.
pub(crate) fn are_above_least(words: &[i16]) -> bool
    ensures { result ≡ true → AreAboveLeast words.now }
{
    // to the end, whatever is found: so the words are compared side by side in vector registers
    let mut above = true;
    for word in words {
        above &= *word != i16::MIN;
    }
    above
}

/// Runs the filter. It is a call of its own, so that one output needs no room for arrays.
#[inline(never)]
pub(crate) fn filter_halves<const N: usize>(
    coefficients: &[i16],
    line: &[i16],
    first: usize,
    step: usize,
    loudest: u16,
    out: &mut [i16],
)
    requires some { 1 ≤ length coefficients.now }
    requires few { length coefficients.now ≤ MOST_COEFFICIENTS }
    requires halves { HaveHalves coefficients.now line.now }
    requires quiet { NoneLouder line.now loudest }
    requires outputs { 1 ≤ length out.old }
    requires reach { Reaches first step (length out.old) (length coefficients.now) line.now }
    requires block { length out.old ≤ N }
    requires arrays { N ≤ BLOCK_SAMPLES }
    ensures { AreOutputs coefficients.now line.now first step (length out.old) out.new }
{
    let mut block = [0; N];
    let (sums, _unused) = block.split_at_mut(out.len());
    if step == 1 {
        sum_in_a_row(coefficients, line, first, loudest, sums);
    } else {
        sum_gathered::<N>(coefficients, line, first, step, sums);
    }
    round_halves(sums, out);
}

/// The sums of neighbouring outputs, that at sample `first` first, by halves: as many as can be side by side, and then those that are left.
fn sum_in_a_row(coefficients: &[i16], line: &[i16], first: usize, loudest: u16, sums: &mut [Half])
    requires some { 1 ≤ length coefficients.now }
    requires few { length coefficients.now ≤ MOST_COEFFICIENTS }
    requires halves { HaveHalves coefficients.now line.now }
    requires reach { first + length coefficients.now + length sums.old ≤ length line.now + 1 }
    requires quiet { NoneLouder line.now loudest }
    requires cleared { AreHalves sums.old }
    ensures halves { AreHalves sums.new }
    ensures sums { AreHalfSums coefficients.now line.now first 1 (length coefficients.now) (length sums.old) sums.new }
{
    read_words(coefficients);
    read_words(line);
    if sums.len() < LANES {
        sum_neighbours(coefficients, line, first, sums);
        return;
    }
    let done = sum_blocks(coefficients, line, first, loudest, sums);
    sum_fours(coefficients, line, first, sums, done);
}

/// The sums of neighbouring outputs by halves, in blocks, and how many those are.
fn sum_blocks(
    coefficients: &[i16],
    line: &[i16],
    first: usize,
    loudest: u16,
    sums: &mut [Half],
) -> usize
    requires words { (k : ℕ) → FitsSigned w16 (word_at coefficients.now k) }
    requires samples { (k : ℕ) → FitsSigned w16 (word_at line.now k) }
    requires few { length coefficients.now ≤ MOST_COEFFICIENTS }
    requires products { HaveHalves coefficients.now line.now }
    requires reach { first + length coefficients.now + length sums.old ≤ length line.now + 1 }
    requires quiet { NoneLouder line.now loudest }
    requires halves { AreHalves sums.old }
    ensures some { result ≤ length sums.old }
    ensures size { length sums.new ≡ length sums.old }
    ensures halves { AreHalves sums.new }
    ensures sums { BeginWithSums coefficients.now line.now first result sums.new }
{
    let mut rooms = [0; MOST_GROUPS];
    if sums.len() >= SIXTEEN && find_rooms(coefficients, loudest, &mut rooms) {
        sum_watched(coefficients, &rooms, line, first, sums)
    } else {
        sum_limited(coefficients, line, first, sums)
    }
}

/// The sums of neighbouring outputs by halves, in blocks of 16 that are limited only where a limit can bind, and how many those are.
fn sum_watched(
    coefficients: &[i16],
    rooms: &[u32],
    line: &[i16],
    first: usize,
    sums: &mut [Half],
) -> usize
    requires words { (k : ℕ) → FitsSigned w16 (word_at coefficients.now k) }
    requires samples { (k : ℕ) → FitsSigned w16 (word_at line.now k) }
    requires products { HaveHalves coefficients.now line.now }
    requires taps { GROUP ≤ length coefficients.now }
    requires rooms { AreRooms coefficients.now line.now rooms.now }
    requires groups { length coefficients.now / GROUP ≤ length rooms.now }
    requires reach { first + length coefficients.now + length sums.old ≤ length line.now + 1 }
    requires halves { AreHalves sums.old }
    ensures some { result ≤ length sums.old }
    ensures size { length sums.new ≡ length sums.old }
    ensures halves { AreHalves sums.new }
    ensures sums { BeginWithSums coefficients.now line.now first result sums.new }
{
    for block in 0..sums.len() / SIXTEEN {
        let at = SIXTEEN * block;
        sum_sixteen(coefficients, rooms, line, first + at, sums, at);
    }
    SIXTEEN * (sums.len() / SIXTEEN)
}

/// The sums of neighbouring outputs by halves, in blocks of 32 that are limited after each product, and how many those are.
fn sum_limited(coefficients: &[i16], line: &[i16], first: usize, sums: &mut [Half]) -> usize
    requires samples { (k : ℕ) → FitsSigned w16 (word_at line.now k) }
    requires products { HaveHalves coefficients.now line.now }
    requires reach { first + length coefficients.now + length sums.old ≤ length line.now + 1 }
    requires halves { AreHalves sums.old }
    ensures some { result ≤ length sums.old }
    ensures size { length sums.new ≡ length sums.old }
    ensures halves { AreHalves sums.new }
    ensures sums { BeginWithSums coefficients.now line.now first result sums.new }
{
    for block in 0..sums.len() / BESIDE {
        let at = BESIDE * block;
        sum_beside(coefficients, line, first + at, sums, at);
    }
    BESIDE * (sums.len() / BESIDE)
}

/// The sums of neighbouring outputs by halves from sum `done` on: four at a time, and where fewer are left, the last four.
fn sum_fours(coefficients: &[i16], line: &[i16], first: usize, sums: &mut [Half], done: usize)
    requires samples { (k : ℕ) → FitsSigned w16 (word_at line.now k) }
    requires products { HaveHalves coefficients.now line.now }
    requires reach { first + length coefficients.now + length sums.old ≤ length line.now + 1 }
    requires halves { AreHalves sums.old }
    requires four { LANES ≤ length sums.old }
    requires some { done ≤ length sums.old }
    requires done { BeginWithSums coefficients.now line.now first done sums.old }
    ensures halves { AreHalves sums.new }
    ensures sums { BeginWithSums coefficients.now line.now first (length sums.old) sums.new }
{
    for four in 0..(sums.len() - done) / LANES {
        let at = done + LANES * four;
        sum_four(coefficients, line, first + at, sums, at);
    }
    if (sums.len() - done) % LANES > 0 {
        let at = sums.len() - LANES;
        sum_four(coefficients, line, first + at, sums, at);
    }
}

/// The sums of neighbouring outputs, that at sample `first` first, by halves. Taps are outside and outputs inside, two taps in each pass.
fn sum_neighbours(coefficients: &[i16], line: &[i16], first: usize, sums: &mut [Half])
    requires some { 1 ≤ length coefficients.now }
    requires halves { HaveHalves coefficients.now line.now }
    requires reach { first + length coefficients.now + length sums.old ≤ length line.now + 1 }
    ensures halves { AreHalves sums.new }
    ensures sums { AreHalfSums coefficients.now line.now first 1 (length coefficients.now) (length sums.old) sums.new }
{
    if sums.is_empty() {
        return;
    }
    sums.fill(0);
    let count = coefficients.len();
    for pair in 0..count / 2 {
        let tap = 2 * pair;
        let older = first + (count - 2 - tap);
        add_products(
            (coefficients[tap], coefficients[tap + 1]),
            &line[older + 1..older + 1 + sums.len()],
            &line[older..older + sums.len()],
            sums,
        );
    }
    if count % 2 == 1 {
        add_product(
            coefficients[count - 1],
            &line[first..first + sums.len()],
            sums,
        );
    }
}

/// The sums of outputs `step` samples apart, as [`sum_neighbours`] has those of neighbours. The samples of a tap are gathered first, so
/// that they too are side by side.
fn sum_gathered<const N: usize>(
    coefficients: &[i16],
    line: &[i16],
    first: usize,
    step: usize,
    sums: &mut [Half],
)
    requires some { 1 ≤ length coefficients.now }
    requires halves { HaveHalves coefficients.now line.now }
    requires reach { Reaches first step (length sums.old) (length coefficients.now) line.now }
    requires block { length sums.old ≤ N }
    requires arrays { N ≤ BLOCK_SAMPLES }
    ensures halves { AreHalves sums.new }
    ensures sums { AreHalfSums coefficients.now line.now first step (length coefficients.now) (length sums.old) sums.new }
{
    let mut newer_block = [0; N];
    let (newer, _unused) = newer_block.split_at_mut(sums.len());
    let mut older_block = [0; N];
    let (older, _unused) = older_block.split_at_mut(sums.len());
    sums.fill(0);
    let count = coefficients.len();
    for pair in 0..count / 2 {
        let tap = 2 * pair;
        gather(line, first, step, count - 1 - tap, newer);
        gather(line, first, step, count - 2 - tap, older);
        add_products(
            (coefficients[tap], coefficients[tap + 1]),
            newer,
            older,
            sums,
        );
    }
    if count % 2 == 1 {
        gather(line, first, step, 0, newer);
        add_product(coefficients[count - 1], newer, sums);
    }
}

/// Copies the samples that stand `on` behind `first`, `first + step`, .. of the line.
fn gather(line: &[i16], first: usize, step: usize, on: usize, samples: &mut [i16])
    requires { (i : ℕ) → i < length samples.old → first + step * i + on < length line.now }
    ensures { (i : ℕ) → i < length samples.old
        → word_at samples.new i ≡ word_at line.now (first + step * i + on) }
{
    for (i, sample) in samples.iter_mut().enumerate() {
        *sample = line[first + step * i + on];
    }
}

/// Adds the products of two coefficients, one with the newer samples and then one with the older, to each sum: so a load of sums serves two
/// taps. It is a call of its own: where the compiler knows how few sums there can be, or knows the coefficients, it makes no vectors of
/// them.
#[inline(never)]
fn add_products(coefficients: (i16, i16), newer: &[i16], older: &[i16], sums: &mut [Half])
    requires newer_products { HasHalves coefficients.0 newer.now }
    requires older_products { HasHalves coefficients.1 older.now }
    requires as_many_newer { length newer.now ≡ length sums.old }
    requires as_many_older { length older.now ≡ length sums.old }
    requires halves { AreHalves sums.old }
    ensures halves { AreHalves sums.new }
    ensures sums { HaveProducts coefficients newer.now older.now sums.old sums.new }
{
    for (i, sum) in sums.iter_mut().enumerate() {
        let half = half_mac(*sum, coefficients.0, newer[i]);
        *sum = half_mac(half, coefficients.1, older[i]);
    }
}

/// Adds the product of the coefficient and a sample to each sum.
fn add_product(coefficient: i16, samples: &[i16], sums: &mut [Half])
    requires products { HasHalves coefficient samples.now }
    requires as_many { length samples.now ≡ length sums.old }
    requires halves { AreHalves sums.old }
    ensures halves { AreHalves sums.new }
    ensures sums { HaveProduct coefficient samples.now sums.old sums.new }
{
    for (i, sum) in sums.iter_mut().enumerate() {
        *sum = half_mac(*sum, coefficient, samples[i]);
    }
}

/// The sums, each rounded to Q15.
pub(crate) fn round_halves(sums: &[Half], out: &mut [i16])
    requires as_many { length sums.now ≡ length out.old }
    requires halves { AreHalves sums.now }
    ensures { (i : ℕ) (v : ℤ) → i < length out.old → word_at sums.now i ≡ half_of v → word_at out.new i ≡ round_of v }
{
    for (i, output) in out.iter_mut().enumerate() {
        *output = half_round(sums[i]);
    }
}
