// SPDX-License-Identifier: Apache-2.0
//! Gains for 16-bit samples, as algorithms.
#![tactic(auto)]

ghost use Rattle.std.specs.Prelude.{◌≡◌, codes};
ghost use Rattle.basic_op.specs.Operators.{l_shl_of};
ghost use Rattle.alg_gain.specs.declared.TheConstants.{GAIN_KIND};
ghost use Rattle.alg_gain.specs.Equation.{is_factor, amplified, factor_shift};

use basic_op::{l_mult, round};
use kind_parts::{Mapped, Mapping};

/// The parameters of a gain: its factor.
pub const PARAMETERS: usize = 1;

/// The bits by which the product of a factor in Q12 and a sample in Q15, which is in Q28 when it is doubled, goes to Q31.
pub const FACTOR_SHIFT: i16 = 3;

/// 2 to the [`FACTOR_SHIFT`].
const POWER: i32 = 8;

/// The greatest number that isn't limited when it is shifted so.
const MOST: i32 = i32::MAX / POWER;

/// The least number that isn't limited.
const LEAST: i32 = i32::MIN / POWER;

/// The kind word of a gain's instance object.
pub const GAIN_KIND: i16 = 11;

/// A gain. Its parameter is its factor in Q12, -8 to almost 8. It gives each sample times the factor, rounded and saturated as
/// G.191's operators do. Samples and outputs are in Q15.
pub type Gain = Mapped<Amplifier>;

/// What a gain makes of a sample.
#[derive(Clone, Copy, PartialEq, Eq, Debug)]
pub struct Amplifier;

impl Mapping for Amplifier {
    const KIND: i16 = GAIN_KIND;

    ghost KIND = { GAIN_KIND };

    ghost name = { codes "gain" };

    ghost taken = { is_factor };

    ghost value = { amplified };

    fn name() -> &'static [u8] {
        b"gain".as_slice()
    }

    fn takes(words: &[i16]) -> bool {
        words.len() == PARAMETERS
    }

    fn value(words: &[i16], x: i16) -> i16 {
        round(shifted(l_mult(words[0], x)))
    }
}

/// `v` shifted to the left by [`FACTOR_SHIFT`] bits, saturated, as `l_shl` does it. By two comparisons in 32 bits, so that the compiler
/// makes several samples at once, for which `l_shl` of any count has no short way.
#[inline(always)]
fn shifted(v: i32) -> i32
    ensures { result ≡ l_shl_of v factor_shift }
{
    if v > MOST {
        i32::MAX
    } else if v < LEAST {
        i32::MIN
    } else {
        v * POWER
    }
}
