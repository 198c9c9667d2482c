// SPDX-License-Identifier: Apache-2.0
//! The energy of frames of 16-bit samples, as an algorithm.
#![tactic(auto)]

ghost use Rattle.std.specs.Prelude.{◌≡◌, codes};
ghost use Rattle.std.proofs.Common.{refl, lit≤};
ghost use Rattle.alg_level.specs.declared.TheConstants.{LEVEL_KIND};
ghost use Rattle.kind_parts.specs.declared.words.TheConstants.{SUM_WORDS};
ghost use Rattle.alg_level.specs.Equation.{is_meter, energy_words, frame_level, with_square};

use basic_op::{extract_h, l_mac, shr};
use kind_parts::{Framed, Framing, SUM_WORDS, is_within, keep_sum, kept_sum};

/// The parameters of a meter: the length of a frame, and the shift.
pub const PARAMETERS: usize = 2;

/// The most samples of a frame.
pub const FRAME_SAMPLES: i16 = 1_024;

/// The most bits by which samples are shifted to the right.
pub const MOST_SHIFT: i16 = 15;

/// The kind word of a meter's instance object.
pub const LEVEL_KIND: i16 = 12;

/// A meter of energy. Its parameters are N s: the samples of a frame, 1 to 1024, and the bits by which each sample is shifted to
/// the right, 0 to 15. After each frame it gives the frame's energy: the sum of the squares, in Q15 where the shifted samples are
/// in Q15.
pub type Level = Framed<Meter>;

/// What a meter makes of a frame. Its state is the energy so far, in Q31.
#[derive(Clone, Copy, PartialEq, Eq, Debug)]
pub struct Meter;

impl Framing for Meter {
    const KIND: i16 = LEVEL_KIND;

    const STATE_WORDS: usize = SUM_WORDS;

    ghost KIND = { LEVEL_KIND };

    ghost STATE_WORDS = { SUM_WORDS };

    ghost name = { codes "level" };

    ghost taken = { is_meter };

    ghost state_of = { energy_words };

    ghost told = { frame_level };

    fn name() -> &'static [u8] {
        b"level".as_slice()
    }

    fn takes(p: &[i16]) -> bool {
        p.len() == PARAMETERS && is_within(p[0], 1, FRAME_SAMPLES) && is_within(p[1], 0, MOST_SHIFT)
    }

    fn grow(p: &[i16], state: &mut [i16], x: i16) {
        let energy = kept_sum(state);
        keep_sum(add_square(p[1], x, energy), state);
    }

    fn tell(_p: &[i16], state: &[i16]) -> i16 {
        extract_h(kept_sum(state))
    }

    ghost begins = { λ p. refl };

    ghost some = { lit≤ tt };

    ghost few = { lit≤ tt };
}

/// The energy with the square of one more sample, which is shifted to the right by so many bits.
fn add_square(shift: i16, x: i16, energy: i32) -> i32
    ensures { result ≡ with_square shift x energy }
{
    let shifted = shr(x, shift);
    l_mac(energy, shifted, shifted)
}
