//! Sums of products that don't saturate, as halves of G.191's sums, whose products are doubled.
ghost use Rattle.std.specs.Prelude.{◌≡◌, ◌≤◌, ◌<◌, ◌-◌, ◌^◌, ◌+ℤ◌, ◌-ℤ◌, ◌*ℤ◌, pos, true, unsigned_abs, IfSome};
ghost use Rattle.std.specs.Int.{saturate_to_bits};
ghost use lib.Signed.{shr_z};
ghost use Rattle.basic_op.specs.Operators.{l_mult_of, l_mac_of, l_shl_of, round_of, saturate32};
ghost use Rattle.alg_biquad.specs.Halves.{AreAboveLeast, IsHalfOf};

/// Halves of sums are less than this in magnitude: twice of them a Word32 has.
const LIMIT: i32 = 1 << 30;

/// The bits by which a half sum is longer than a word.
const HALF_BITS: u32 = 14;

/// Half of the least step of a word, in a half sum: what is added before it is cut to a word.
const HALF_STEP: i32 = 1 << 13;

/// Whether no coefficient is the least word: then no product saturates.
#[inline]
pub(crate) fn are_above_least(coefficients: &[i16]) -> bool
    ensures { result ≡ true → AreAboveLeast coefficients.now }
{
    coefficients.iter().all(|c| *c != i16::MIN)
}

/// Half of the product that G.191's `L_mult` gives.
#[inline]
pub(crate) fn half_product(c: i16, v: i16) -> i32
    requires { unsigned_abs c ≤ 32767 }
    ensures half { IsHalfOf result (l_mult_of c v) }
    ensures within { unsigned_abs result ≤ 2 ^ 30 - 2 ^ 15 }
{
    let coefficient = i32::from(c);
    let word = i32::from(v);
    coefficient * word
}

/// The half sum, where it is less than the limit.
#[inline]
pub(crate) fn within(sum: i32) -> Option<i32>
    ensures { IfSome result (λ s. (s ≡ sum) × (unsigned_abs s < 2 ^ 30)) }
{
    if -LIMIT < sum && sum < LIMIT {
        Some(sum)
    } else {
        None
    }
}

/// Half of what G.191's `L_mac` gives, and None where that saturates.
#[inline]
pub(crate) fn plus_product(sum: i32, c: i16, v: i16) -> Option<i32>
    requires above { unsigned_abs c ≤ 32767 }
    requires small { unsigned_abs sum < 2 ^ 30 }
    ensures { IfSome result (λ s. IsHalfOf s (l_mac_of (sum +ℤ sum) c v)) }
{
    within(sum + half_product(c, v))
}

/// The sum less the product, in Q15, where it is beyond words. Few are.
#[cold]
#[inline(never)]
fn limited_less(ahead: i32, newer: i32) -> i16
    requires { unsigned_abs (ahead -ℤ newer) < 2 ^ 31 }
    ensures { result ≡ saturate_to_bits 15 (shr_z (ahead -ℤ newer) 16384) }
{
    let word = (ahead - newer) >> HALF_BITS;
    let least = i32::from(i16::MIN);
    let most = i32::from(i16::MAX);
    word.clamp(least, most) as i16
}

/// The sum less the product, in Q15, limited. Where it is beyond words it is made once more, from its two parts: if it alone were passed
/// on, the compiler would add up all products before.
#[inline]
fn nearest_less(ahead: i32, newer: i32) -> i16
    requires { unsigned_abs (ahead -ℤ newer) < 2 ^ 31 }
    ensures { result ≡ saturate_to_bits 15 (shr_z (ahead -ℤ newer) 16384) }
{
    match i16::try_from((ahead - newer) >> HALF_BITS) {
        Ok(word) => word,
        Err(_) => limited_less(ahead, newer),
    }
}

/// The half sum less both products, in Q15, rounded and limited once, in place of a last difference, a doubling, a shift and a sum that are
/// limited each. The newer product is taken off last: it is made of the output before, and nothing else is to be waited for.
#[inline]
pub(crate) fn rounded_less(half: i32, newer: i32, older: i32) -> i16
    requires half { unsigned_abs half < 2 ^ 30 }
    requires newer { unsigned_abs (half -ℤ newer) < 2 ^ 30 }
    requires older { unsigned_abs older ≤ 2 ^ 30 - 2 ^ 15 }
    ensures { result ≡ round_of (l_shl_of (saturate32 (pos 2 *ℤ ((half -ℤ newer) -ℤ older))) (pos 1)) }
{
    nearest_less(half + HALF_STEP - older, newer)
}

/// The number, limited to a word. Few are beyond words.
#[cold]
#[inline(never)]
fn limited_word(wide: i32) -> i16
    ensures { result ≡ saturate_to_bits 15 wide }
{
    let least = i32::from(i16::MIN);
    let most = i32::from(i16::MAX);
    wide.clamp(least, most) as i16
}

/// The sum doubled and then rounded to Q15, with one limit in place of those of `l_shl` and of `round`.
#[inline]
pub(crate) fn doubled_and_rounded(sum: i32) -> i16
    ensures { result ≡ round_of (l_shl_of sum (pos 1)) }
{
    let wide = ((sum >> HALF_BITS) + 1) >> 1;
    match i16::try_from(wide) {
        Ok(word) => word,
        Err(_) => limited_word(wide),
    }
}
