//! A ring of samples: the first `size` words, in which each sample takes the place of the oldest.
ghost use Rattle.std.specs.Prelude.{◌≡◌, ◌<◌, ◌≤◌, ◌+◌, ◌-◌, ◌^◌, ℕ, length, pos};
ghost use Rattle.ialg.specs.History.{History, past, word_at};
ghost use Rattle.fir_kernel.specs.Rings.{Entered, IsRing};

use crate::FEW_SAMPLES;
use ialg::place;

/// The place that the last word names.
pub fn named_place(words: &[i16]) -> usize
    ensures value { (next : ℕ) → 1 ≤ length words.now → word_at words.now (length words.now - 1) ≡ pos next
        → result ≡ next }
    ensures small { result ≤ 2 ^ 15 }
{
    if words.is_empty() {
        return 0;
    }
    usize::from(words[words.len() - 1].unsigned_abs())
}

/// Copies the `count` samples before the place `next` into `line`, from word `at` on, the newest last.
pub fn unroll(words: &[i16], size: usize, next: usize, count: usize, line: &mut [i16], at: usize)
    requires size { size ≤ length words.now }
    requires next { next < size }
    requires count { count ≤ size }
    requires room { at + count ≤ length line.old }
    ensures samples { (h : History) → IsRing count size words.now next h
        → (j k : ℕ) → j + k + 1 ≡ count → word_at line.new (at + j) ≡ past h k }
    ensures before { (j : ℕ) → j < at → word_at line.new j ≡ word_at line.old j }
    ensures after { (j : ℕ) → at + count ≤ j → word_at line.new j ≡ word_at line.old j }
{
    if count <= next {
        place(line, at, &words[next - count..next]);
    } else {
        let far = count - next;
        place(line, at, &words[size - far..size]);
        place(line, at + far, &words[..next]);
    }
}

/// Enters the samples one after the other, each at the place of the oldest, and gives the place of the next one. No other word changes:
/// none is shifted.
pub fn enter(words: &mut [i16], size: usize, next: usize, samples: &[i16]) -> usize
    requires size { size ≤ length words.old }
    requires next { next < size }
    ensures { Entered size next samples.now words.old words.new result }
{
    // a few samples are written sooner than a call that copies them is made
    if samples.len() > FEW_SAMPLES && next + samples.len() <= size {
        enter_row(words, size, next, samples)
    } else {
        enter_each(words, size, next, samples)
    }
}

/// Enters samples that have room before the ring's end, together.
fn enter_row(words: &mut [i16], size: usize, next: usize, samples: &[i16]) -> usize
    requires size { size ≤ length words.old }
    requires next { next < size }
    requires room { next + length samples.now ≤ size }
    ensures { Entered size next samples.now words.old words.new result }
{
    place(words, next, samples);
    let after = next + samples.len();
    if after < size { after } else { 0 }
}

/// Enters the samples one by one, around the ring.
fn enter_each(words: &mut [i16], size: usize, next: usize, samples: &[i16]) -> usize
    requires size { size ≤ length words.old }
    requires next { next < size }
    ensures { Entered size next samples.now words.old words.new result }
{
    let mut at = next;
    for sample in samples {
        words[at] = *sample;
        at = if at + 1 < size { at + 1 } else { 0 };
    }
    at
}
