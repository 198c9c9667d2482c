//! What is computed in a wider type, and the nearest word of it.
ghost use Rattle.std.specs.Prelude.{◌≡◌, ◌≤◌, ◌^◌, ◌*ℤ◌, unsigned_abs};
ghost use Rattle.basic_op.specs.Operators.{saturate16, saturate32};

/// The Word16 nearest to `wide`.
#[inline]
pub fn nearest_word16(wide: i32) -> i16
    ensures { result ≡ saturate16 wide }
{
    wide.clamp(i32::from(i16::MIN), i32::from(i16::MAX)) as i16
}

/// The Word32 nearest to `wide`.
#[inline]
pub fn nearest_word32(wide: i64) -> i32
    ensures { result ≡ saturate32 wide }
{
    wide.clamp(i64::from(i32::MIN), i64::from(i32::MAX)) as i32
}

/// The whole product, in Q30 of two fractions in Q15.
#[inline]
pub fn product(a: i16, b: i16) -> i32
    ensures value { result ≡ a *ℤ b }
    ensures within { unsigned_abs result ≤ 2 ^ 30 }
{
    let first = i32::from(a);
    let second = i32::from(b);
    first * second
}
