//! Norms, and the quotient of fractions.
ghost use Rattle.std.specs.Prelude.{◌≡◌, ◌≤ℤ◌, ◌<ℤ◌, pos};
ghost use Rattle.std.specs.Int.Signed.{mag};
ghost use Rattle.basic_op.specs.Operators.{div_s_of, norm_l_of, norm_s_of};

/// `v`, or `-1 - v` where `v` is negative: as many leading zeros as `v` has bits that equal its sign.
#[inline]
fn sign_folded(v: i32) -> u32
    ensures { result ≡ mag v }
{
    let folded = if v < 0 { !v } else { v };
    folded.cast_unsigned()
}

/// The count of left shifts that brings `a` into 16384..=32767 or -32768..=-16385; 0 for 0 (G.191 `norm_s`).
#[inline]
pub fn norm_s(a: i16) -> i16
    ensures { result ≡ norm_s_of a }
{
    if a == 0 {
        0
    } else {
        // Its 32 bits are 17 more than the word has below its sign.
        (sign_folded(i32::from(a)).leading_zeros() - 17) as i16
    }
}

/// The count of left shifts that brings `v` into 2^30..=2^31 - 1 or -2^31..=-2^30 - 1; 0 for 0 (G.191 `norm_l`).
#[inline]
pub fn norm_l(v: i32) -> i16
    ensures { result ≡ norm_l_of v }
{
    if v == 0 {
        0
    } else {
        (sign_folded(v).leading_zeros() - 1) as i16
    }
}

/// The quotient of two fractions as a fraction in Q15, rounded down: 32767 where they are equal (G.191 `div_s`).
#[inline]
pub fn div_s(a: i16, b: i16) -> i16
    requires at_least_zero { pos 0 ≤ℤ a }
    requires at_most_b { a ≤ℤ b }
    requires divisor { pos 0 <ℤ b }
    ensures { result ≡ div_s_of a b }
{
    let quotient = u32::from(a.unsigned_abs()) * 0x8000 / u32::from(b.unsigned_abs());
    quotient.min(0x7fff) as i16
}
