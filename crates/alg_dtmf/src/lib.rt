// SPDX-License-Identifier: Apache-2.0
//! Digits of dual tones (DTMF, ITU-T Q.23) in 16-bit samples at 8000 a second, frame by frame, as an algorithm.
#![tactic(auto)]

mod decision;
mod detector;
mod kernel;
mod rows;

pub use detector::Dtmf;
pub use rows::dtmf_rows;

/// The parameters of a detector: the length of a frame, the shift, the threshold, the two limits of twist, the dominance, and the share.
pub const PARAMETERS: usize = 7;

/// The words of a detector's state: how many samples of a frame there are, the two words of their energy, and the two newest values of
/// each of eight tones.
pub const STATE_WORDS: usize = 19;

/// The most samples of a frame.
pub const FRAME_SAMPLES: i16 = 127;

/// The most bits by which samples are shifted to the right.
pub const MOST_SHIFT: i16 = 14;

/// 1.0 in Q14.
pub const ONE: i16 = 16_384;

/// By so many bits less than the values' samples are those shifted whose squares are the energy.
pub const ENERGY_BITS: i16 = 3;

/// The bits by which a frame's length, in Q15, is what the levels of two tones alone are of its energy: N / 128.
pub const SHARE_BITS: i16 = 8;

/// The bits of the high tone's place in a code.
pub const PLACE_BITS: i16 = 2;

/// The code of a frame without a digit.
pub const NO_DIGIT: i16 = -1;

/// The kind word of a detector's instance object.
pub const DTMF_KIND: i16 = 13;

/// Twice the cosine of the angle by which a tone of 697 Hz turns in a sample, in Q14.
pub const FACTOR_697: i16 = 27980;

/// Twice the cosine of the angle by which a tone of 770 Hz turns in a sample, in Q14.
pub const FACTOR_770: i16 = 26956;

/// Twice the cosine of the angle by which a tone of 852 Hz turns in a sample, in Q14.
pub const FACTOR_852: i16 = 25701;

/// Twice the cosine of the angle by which a tone of 941 Hz turns in a sample, in Q14.
pub const FACTOR_941: i16 = 24219;

/// Twice the cosine of the angle by which a tone of 1209 Hz turns in a sample, in Q14.
pub const FACTOR_1209: i16 = 19073;

/// Twice the cosine of the angle by which a tone of 1336 Hz turns in a sample, in Q14.
pub const FACTOR_1336: i16 = 16325;

/// Twice the cosine of the angle by which a tone of 1477 Hz turns in a sample, in Q14.
pub const FACTOR_1477: i16 = 13085;

/// Twice the cosine of the angle by which a tone of 1633 Hz turns in a sample, in Q14.
pub const FACTOR_1633: i16 = 9315;
