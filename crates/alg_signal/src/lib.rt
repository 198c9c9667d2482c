// SPDX-License-Identifier: Apache-2.0
//! Generators of one or two tones with a cadence, clocked by the samples that they are given, as an algorithm.
#![tactic(auto)]

mod generator;
mod rows;
mod tones;

pub use generator::{Generator, Signal};
pub use rows::signal_rows;
pub use tones::{Cadence, Tones};

/// The words of a generator's state: the two newest values of each tone, the place in the cadence, and how many times it was run.
pub const STATE_WORDS: usize = 6;

/// 1.0 in Q14.
pub const ONE: i16 = 16_384;

/// The kind word of a generator's instance object.
pub const SIGNAL_KIND: i16 = 16;
