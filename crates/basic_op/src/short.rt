//! Operators on Word16 alone.
ghost use Rattle.std.specs.Prelude.{◌≡◌};
ghost use Rattle.basic_op.specs.Operators.{abs_s_of, add_of, mult_of, mult_r_of, negate_of, sub_of};

use crate::wide::{nearest_word16, product};

/// The sum `a + b`, saturated (G.191 `add`).
#[inline]
pub fn add(a: i16, b: i16) -> i16
    ensures { result ≡ add_of a b }
{
    let first = i32::from(a);
    let second = i32::from(b);
    nearest_word16(first + second)
}

/// The difference `a - b`, saturated (G.191 `sub`).
#[inline]
pub fn sub(a: i16, b: i16) -> i16
    ensures { result ≡ sub_of a b }
{
    let first = i32::from(a);
    let second = i32::from(b);
    nearest_word16(first - second)
}

/// `-a`, saturated: 32767 for -32768 (G.191 `negate`).
#[inline]
pub fn negate(a: i16) -> i16
    ensures { result ≡ negate_of a }
{
    nearest_word16(-i32::from(a))
}

/// The magnitude of `a`, saturated: 32767 for -32768 (G.191 `abs_s`).
#[inline]
pub fn abs_s(a: i16) -> i16
    ensures { result ≡ abs_s_of a }
{
    nearest_word16(i32::from(a).abs())
}

/// The product of two fractions in Q15, rounded down, in Q15 (G.191 `mult`).
#[inline]
pub fn mult(a: i16, b: i16) -> i16
    ensures { result ≡ mult_of a b }
{
    nearest_word16(product(a, b) >> 15)
}

/// The product of two fractions in Q15, rounded to the nearest, halves up, in Q15 (G.191 `mult_r`).
#[inline]
pub fn mult_r(a: i16, b: i16) -> i16
    ensures { result ≡ mult_r_of a b }
{
    nearest_word16((product(a, b) + 0x4000) >> 15)
}
