//! Shifts by any count: a negative count shifts the other way.
ghost use Rattle.std.specs.Prelude.{◌≡◌, ◌^◌, ◌≤◌, pos, unsigned_abs};
ghost use Rattle.basic_op.specs.Operators.{l_shl_of, l_shr_of, shl_of, shr_of};

use crate::wide::{nearest_word16, nearest_word32};

/// `2^exponent`.
#[inline]
fn power_of_two(exponent: u32) -> i64
    requires { exponent ≤ 31 }
    ensures value { result ≡ pos (2 ^ exponent) }
    ensures within { unsigned_abs result ≤ 2 ^ 31 }
{
    1 << exponent
}

/// `v` shifted to the left by `count` bits, saturated; to the right by `-count`, rounded down, where `count` is negative.
#[inline]
fn shift_left(v: i32, count: i32) -> i32
    ensures { result ≡ l_shl_of v count }
{
    // 31 shifts to the left saturate each number but 0, and 31 to the right leave 0 or -1: so do more.
    let steps = count.unsigned_abs().min(31);
    if count < 0 {
        v >> steps
    } else {
        nearest_word32(i64::from(v) * power_of_two(steps))
    }
}

/// `a` shifted to the left by `count` bits, saturated; to the right by `-count`, rounded down, where `count` is negative
/// (G.191 `shl`).
#[inline]
pub fn shl(a: i16, count: i16) -> i16
    ensures { result ≡ shl_of a count }
{
    nearest_word16(shift_left(i32::from(a), i32::from(count)))
}

/// `a` shifted to the right by `count` bits, rounded down; to the left by `-count`, saturated, where `count` is negative
/// (G.191 `shr`).
#[inline]
pub fn shr(a: i16, count: i16) -> i16
    ensures { result ≡ shr_of a count }
{
    nearest_word16(shift_left(i32::from(a), -i32::from(count)))
}

/// `v` shifted to the left by `count` bits, saturated; to the right by `-count`, rounded down, where `count` is negative
/// (G.191 `L_shl`).
#[inline]
pub fn l_shl(v: i32, count: i16) -> i32
    ensures { result ≡ l_shl_of v count }
{
    shift_left(v, i32::from(count))
}

/// `v` shifted to the right by `count` bits, rounded down; to the left by `-count`, saturated, where `count` is negative
/// (G.191 `L_shr`).
#[inline]
pub fn l_shr(v: i32, count: i16) -> i32
    ensures { result ≡ l_shr_of v count }
{
    shift_left(v, -i32::from(count))
}
