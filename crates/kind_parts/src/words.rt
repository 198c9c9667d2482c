//! Words of parameters and of states.
ghost use Rattle.std.specs.Prelude.{◌≡◌, ◌≤ℤ◌, ◌<ℤ◌, ℤ, pos, length};
ghost use Rattle.ialg.specs.Meaning.{is_between};
ghost use Rattle.kind_parts.specs.Words.{joined, lower_of, sum_words};

use basic_op::{extract_h, extract_l, l_deposit_h};

/// The words that keep a sum of 32 bits.
pub const SUM_WORDS: usize = 2;

/// The most words of a state.
pub const MOST_STATE_WORDS: usize = 8_192;

/// 2 ^ 16: what the upper of two words counts.
const UPPER: i32 = 0x1_0000;

/// Whether a word is at least `least` and at most `most`.
pub fn is_within(word: i16, least: i16, most: i16) -> bool
    ensures { result ≡ is_between least most word }
{
    least <= word && word <= most
}

/// What the lower of two words counts: its 16 bits, without a sign.
fn lower(low: i16) -> i32
    ensures value { result ≡ lower_of low }
    ensures range { pos 0 ≤ℤ result × result <ℤ UPPER }
{
    if low < 0 {
        i32::from(low) + UPPER
    } else {
        i32::from(low)
    }
}

/// The Word32 whose upper and lower words these are, as `extract_h` and `extract_l` gave them.
pub fn join(high: i16, low: i16) -> i32
    ensures { result ≡ joined high low }
{
    l_deposit_h(high) + lower(low)
}

/// The sum of 32 bits that these words keep.
pub fn kept_sum(words: &[i16]) -> i32
    requires { length words.now ≡ SUM_WORDS }
    ensures { (sum : ℤ) → words.now ≡ sum_words sum → result ≡ sum }
{
    join(words[0], words[1])
}

/// Keeps a sum of 32 bits in these words.
pub fn keep_sum(sum: i32, words: &mut [i16])
    requires { length words.old ≡ SUM_WORDS }
    ensures { words.new ≡ sum_words sum }
{
    words.copy_from_slice(&[extract_h(sum), extract_l(sum)]);
}
