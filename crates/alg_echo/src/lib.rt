// SPDX-License-Identifier: Apache-2.0
//! Line echo cancellers on pairs of 16-bit samples at 8000 a second, as algorithms.
#![tactic(auto)]

mod canceller;
mod rows;

pub use canceller::{Canceller, Echo};
pub use rows::echo_rows;

/// The kind word of a canceller's instance object.
pub const ECHO_KIND: i16 = 14;
