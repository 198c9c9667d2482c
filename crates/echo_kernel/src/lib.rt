// SPDX-License-Identifier: Apache-2.0
//! The kernel of line echo cancellers: what a pair of samples makes of lines of taps, over plain words.
#![tactic(auto)]

mod kernel;
mod parts;

pub use kernel::{Head, Pair, read_head, take_pair, write_head};

/// The parameters of a canceller: the taps, the step, the share, and the hold.
pub const PARAMETERS: usize = 4;

/// The most taps.
pub const MOST_TAPS: i16 = 256;

/// The bits by which the squares are shifted of which the far end's energy is the sum: so many times [`MOST_TAPS`] don't come to its limit.
pub const SQUARE_BITS: i16 = 8;

/// What is added to the energy before a step is divided by it.
pub const FLOOR: i32 = 1_024;

/// 0.5 in Q15.
pub const HALF: i16 = 16_384;

/// By so many bits to the right a step is shifted where neither its error nor the energy has a norm to take off.
pub const STEP_BITS: i16 = 7;

/// The powers are means over some 2 to so many pairs.
pub const POWER_BITS: i16 = 8;

/// The learning coefficients are taken over where their power is below that of those in use less this many bits of it.
pub const BETTER_BITS: i16 = 2;

/// .. and below the near end's, shifted by so many bits.
pub const CLEAR_BITS: i16 = 3;

/// Those in use do harm where what they leave, shifted by so many bits, exceeds the near end's power.
pub const HARM_BITS: i16 = 1;

/// They are given up where so many bits less of their power exceed that of those in use.
pub const WORSE_BITS: i16 = 1;

/// The words of a canceller's state before the lines of taps: the hold, the energy, and the three powers.
pub const HEAD_WORDS: usize = 9;

/// The lines of taps: the past samples, the coefficients in use, and both words of those that learn.
pub const LINES: usize = 4;
