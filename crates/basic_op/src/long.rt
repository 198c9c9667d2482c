//! Operators on Word32, and between the two widths.
ghost use Rattle.std.specs.Prelude.{◌≡◌};
ghost use Rattle.basic_op.specs.Operators.{extract_h_of, extract_l_of, l_abs_of, l_add_of, l_deposit_h_of, l_deposit_l_of, l_mac_of, l_msu_of, l_mult_of, l_negate_of, l_sub_of, round_of};

use crate::wide::{nearest_word32, product};

/// The sum `v + w`, saturated (G.191 `L_add`).
#[inline]
pub fn l_add(v: i32, w: i32) -> i32
    ensures { result ≡ l_add_of v w }
{
    let first = i64::from(v);
    let second = i64::from(w);
    nearest_word32(first + second)
}

/// The difference `v - w`, saturated (G.191 `L_sub`).
#[inline]
pub fn l_sub(v: i32, w: i32) -> i32
    ensures { result ≡ l_sub_of v w }
{
    let first = i64::from(v);
    let second = i64::from(w);
    nearest_word32(first - second)
}

/// `-v`, saturated (G.191 `L_negate`).
#[inline]
pub fn l_negate(v: i32) -> i32
    ensures { result ≡ l_negate_of v }
{
    nearest_word32(-i64::from(v))
}

/// The magnitude of `v`, saturated (G.191 `L_abs`).
#[inline]
pub fn l_abs(v: i32) -> i32
    ensures { result ≡ l_abs_of v }
{
    nearest_word32(i64::from(v).abs())
}

/// Twice the product, saturated: two fractions in Q15 give one in Q31 (G.191 `L_mult`).
#[inline]
pub fn l_mult(a: i16, b: i16) -> i32
    ensures { result ≡ l_mult_of a b }
{
    let product = product(a, b);
    // -1 times -1 alone, in Q15, gives no fraction in Q31.
    if product == 1 << 30 {
        i32::MAX
    } else {
        product + product
    }
}

/// The product of `a` and `b`, doubled and saturated, is added to `v`, and the sum saturated (G.191 `L_mac`).
#[inline]
pub fn l_mac(v: i32, a: i16, b: i16) -> i32
    ensures { result ≡ l_mac_of v a b }
{
    l_add(v, l_mult(a, b))
}

/// The product of `a` and `b`, doubled and saturated, is taken from `v`, and the difference saturated (G.191 `L_msu`).
#[inline]
pub fn l_msu(v: i32, a: i16, b: i16) -> i32
    ensures { result ≡ l_msu_of v a b }
{
    l_sub(v, l_mult(a, b))
}

/// The upper 16 bits, which round a fraction in Q31 down to Q15 (G.191 `extract_h`).
#[inline]
pub fn extract_h(v: i32) -> i16
    ensures { result ≡ extract_h_of v }
{
    (v >> 16) as i16
}

/// The lower 16 bits, as a Word16 (G.191 `extract_l`).
#[inline]
pub fn extract_l(v: i32) -> i16
    ensures { result ≡ extract_l_of v }
{
    ((v.cast_unsigned() & 0xffff) as u16).cast_signed()
}

/// A fraction in Q31 rounded to the nearest in Q15, halves up, saturated (G.191 `round`).
#[inline]
pub fn round(v: i32) -> i16
    ensures { result ≡ round_of v }
{
    extract_h(l_add(v, 0x8000))
}

/// `a` in the upper 16 bits, 0 in the lower ones: a fraction in Q15 as one in Q31 (G.191 `L_deposit_h`).
#[inline]
pub fn l_deposit_h(a: i16) -> i32
    ensures { result ≡ l_deposit_h_of a }
{
    i32::from(a) * 0x1_0000
}

/// `a` in the lower 16 bits, its sign in the upper ones (G.191 `L_deposit_l`).
#[inline]
pub fn l_deposit_l(a: i16) -> i32
    ensures { result ≡ l_deposit_l_of a }
{
    a.into()
}
