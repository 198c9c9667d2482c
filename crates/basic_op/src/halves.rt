//! Sums by halves of their values: no step overflows, each is limited by itself as the operators limit it, and what is rounded is the same.
//! Half of what `L_mult` gives is the plain product, unless both factors are -32768.
ghost use Rattle.std.specs.Prelude.{◌≡◌, ◌≤◌, ◌⊎◌, ◌^◌, ℤ, pos, unsigned_abs};
ghost use Rattle.std.specs.Int.{saturate_to_bits};
ghost use Rattle.basic_op.specs.Operators.{l_mac_of, l_msu_of, l_mult_of, l_shl_of, round_of};
ghost use Rattle.basic_op.specs.Halves.{half_of};

use crate::wide::{nearest_word16, product};

/// The bits of the half of a Word32 without its sign.
const HALF_BITS: u32 = 30;

/// The bits by which half of a sum in Q31 is longer than a word in Q15.
const LONGER_BITS: u32 = 15;

/// The nearest half of a Word32.
#[inline(always)]
fn nearest_half(wide: i32) -> i32
    ensures { result ≡ saturate_to_bits 30 wide }
{
    wide.clamp(-(1 << HALF_BITS), (1 << HALF_BITS) - 1)
}

/// Half of the doubled product: half of what `l_mult` gives.
#[inline(always)]
pub fn half_mult(a: i16, b: i16) -> i32
    requires not_both_least { (unsigned_abs a ≤ 32767) ⊎ (unsigned_abs b ≤ 32767) }
    ensures value { result ≡ half_of (l_mult_of a b) }
    ensures within { unsigned_abs result ≤ 2 ^ 30 }
{
    product(a, b)
}

/// Half of the sum and the doubled product: of half of `v`, half of what `l_mac` gives.
#[inline(always)]
pub fn half_mac(half: i32, a: i16, b: i16) -> i32
    requires not_both_least { (unsigned_abs a ≤ 32767) ⊎ (unsigned_abs b ≤ 32767) }
    requires within { unsigned_abs half ≤ 2 ^ 30 }
    ensures value { (v : ℤ) → half ≡ half_of v → result ≡ half_of (l_mac_of v a b) }
    ensures within { unsigned_abs result ≤ 2 ^ 30 }
{
    nearest_half(half + product(a, b))
}

/// Half of the sum less the doubled product: of half of `v`, half of what `l_msu` gives.
#[inline(always)]
pub fn half_msu(half: i32, a: i16, b: i16) -> i32
    requires not_both_least { (unsigned_abs a ≤ 32767) ⊎ (unsigned_abs b ≤ 32767) }
    requires within { unsigned_abs half ≤ 2 ^ 30 }
    ensures value { (v : ℤ) → half ≡ half_of v → result ≡ half_of (l_msu_of v a b) }
    ensures within { unsigned_abs result ≤ 2 ^ 30 }
{
    nearest_half(half - product(a, b))
}

/// The sum in Q31, of which this is half, rounded to Q15: of half of `v`, what `round` gives.
#[inline(always)]
pub fn half_round(half: i32) -> i16
    requires { unsigned_abs half ≤ 2 ^ 30 }
    ensures { (v : ℤ) → half ≡ half_of v → result ≡ round_of v }
{
    nearest_word16((half + (1 << (LONGER_BITS - 1))) >> LONGER_BITS)
}

/// The sum in Q30, of which this is half, rounded to Q15: of half of `v`, what `round` gives of the doubled `v`.
#[inline(always)]
pub fn half_round_doubled(half: i32) -> i16
    requires { unsigned_abs half ≤ 2 ^ 30 }
    ensures { (v : ℤ) → half ≡ half_of v → result ≡ round_of (l_shl_of v (pos 1)) }
{
    nearest_word16((half + (1 << (LONGER_BITS - 2))) >> (LONGER_BITS - 1))
}
