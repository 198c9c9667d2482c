// SPDX-License-Identifier: Apache-2.0
//! Companding of 16-bit samples to codes of eight bits and back (ITU-T G.711), as an algorithm.
#![tactic(auto)]

mod blocks;
mod coder;
mod companding;
mod kind;
mod laws;
mod rows;
mod tables;

pub use companding::{Law, decode, encode};
pub use kind::G711;
pub use laws::{codes_come_back, decoding_is_monotone, g711_is_lawful, intervals_divide_samples};
pub use rows::companding_rows;

/// The intervals of a law: sixteen in each of eight segments.
pub const INTERVALS: usize = 128;

/// The codes of a law: one of each sign for an interval.
pub const CODES: usize = 256;

/// The bit of a code that is set where the sample isn't negative.
pub const SIGN_BIT: u16 = 128;

/// The segments of a law, of which each but the first has steps twice as wide as the one before. A-law's second is as fine as the first.
pub const SEGMENTS: u16 = 8;

/// The steps of a segment.
pub const STEPS: u16 = 16;

/// The width of A-law's finest steps, in samples of 16 bits.
pub const FINEST_A_STEP: u16 = 16;

/// The bias of mu-law's magnitudes (G.711, tables 2a and 2b).
pub const BIAS: u16 = 33;

/// The greatest magnitude of mu-law, with the bias.
pub const GREATEST_MAGNITUDE: u16 = 8191;

/// The bits of a number that A-law turns in its code: the even ones.
pub const EVEN_BITS: u16 = 0x55;

/// The kind word of an A-law encoder's object.
pub const A_ENCODER_KIND: i16 = 5;

/// The kind word of an A-law decoder's object.
pub const A_DECODER_KIND: i16 = 6;

/// The kind word of a mu-law encoder's object.
pub const MU_ENCODER_KIND: i16 = 7;

/// The kind word of a mu-law decoder's object.
pub const MU_DECODER_KIND: i16 = 8;

/// The most records of an instance: the object, and a decoder's samples of the codes.
pub const CODER_RECORDS: usize = 2;

/// The alignment of a decoder's samples of the codes.
pub const SAMPLES_ALIGNMENT: u32 = 8;
