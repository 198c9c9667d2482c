//! Basic operators (ITU-T G.191), alone and over blocks.
ghost use Rattle.std.specs.Prelude.{◌≡◌, ◌≢◌, ◌≤ℤ◌, ◌<ℤ◌, pos};
ghost use Rattle.basic_op.specs.Operators.{add_of, l_mac_of, div_s_of};
ghost use Rattle.dsp_library.specs.declared.TheConstants.{DONE, BAD_OPERAND};

use crate::{BAD_OPERAND, DONE};

/// The sum `a + b`, saturated (G.191 `add`).
#[unsafe(no_mangle)]
pub extern "C" fn rokdaum_proved_add(a: i16, b: i16) -> i16
    ensures { result ≡ add_of a b }
{
    basic_op::add(a, b)
}

/// The product of `a` and `b`, doubled and saturated, is added to `v`, and the sum saturated (G.191 `L_mac`).
#[unsafe(no_mangle)]
pub extern "C" fn rokdaum_proved_l_mac(v: i32, a: i16, b: i16) -> i32
    ensures { result ≡ l_mac_of v a b }
{
    basic_op::l_mac(v, a, b)
}

/// Writes the quotient of two fractions (G.191 `div_s`): `DONE`, or `BAD_OPERAND`, and then nothing is written.
#[unsafe(no_mangle)]
pub extern "C" fn rokdaum_proved_div_s(a: i16, b: i16, quotient: &mut i16) -> i32
    ensures done { pos 0 ≤ℤ a → a ≤ℤ b → pos 0 <ℤ b → (result ≡ DONE) × (quotient.new ≡ div_s_of a b) }
    ensures operands { ¬ ((pos 0 ≤ℤ a) × (a ≤ℤ b) × (pos 0 <ℤ b)) → result ≡ BAD_OPERAND }
    ensures refused { result ≢ DONE → quotient.new ≡ quotient.old }
{
    if a < 0 || b < a || b <= 0 {
        return BAD_OPERAND;
    }
    *quotient = basic_op::div_s(a, b);
    DONE
}
