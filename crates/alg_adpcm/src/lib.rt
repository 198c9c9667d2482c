// SPDX-License-Identifier: Apache-2.0
//! Adaptive differential coding (ADPCM) of 16-bit samples at 40, 32, 24 and 16 kbit/s and back (ITU-T G.726), as an algorithm.
#![tactic(auto)]

mod coder;
mod parameters;
mod rows;
mod words;

pub use coder::{Adpcm, Coding};
pub use rows::adpcm_rows;

/// The words of a coder's state: of the zeros twelve, of the poles seven, of the scale factor six.
pub const STATE_WORDS: usize = 25;

/// The kind word of a coder's instance object.
pub const ADPCM_KIND: i16 = 15;
