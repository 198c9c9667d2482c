// SPDX-License-Identifier: Apache-2.0
//! Detectors of voice activity in frames of 16-bit samples, as algorithms.
#![tactic(auto)]

mod detector;
mod kernel;
mod rows;

pub use detector::{Activity, Detector};
pub use kernel::Heard;
pub use rows::activity_rows;

/// The parameters of a detector: the samples of a frame, the shift, the margin, the rise, the least floor and the hangover.
pub const PARAMETERS: usize = 6;

/// The most samples of a frame.
pub const MOST_SAMPLES: i16 = 1_024;

/// The most bits of a shift, a margin or a rise.
pub const MOST_BITS: i16 = 15;

/// The words of a detector's state: for how many frames speech is told, and the floor.
pub const STATE_WORDS: usize = 3;

/// What is told of a frame with speech.
pub const SPEECH: i16 = 1;

/// The kind word of a detector's instance object.
pub const ACTIVITY_KIND: i16 = 17;
