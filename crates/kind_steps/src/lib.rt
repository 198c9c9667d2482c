// SPDX-License-Identifier: Apache-2.0
//! Kinds with a state that lasts from sample to sample, by a few lines each.
//!
//! A [`Recursion`] says what a sample makes of a small state, a value that is read from its words once a block, and what is given for the
//! sample: [`Recursive`] is the kind. A [`Stepping`] has a state of any size, which stays in its words, and gives one word for each frame
//! of samples: [`Stepped`] is the kind. A [`Pairing`] is a stepping whose frames have two samples, one of each channel of a stereo file:
//! [`Paired`] is the kind. All are filters, and so keep every law.
#![tactic(auto)]

mod pairing;
mod recursion;
mod stepping;

pub use pairing::{OfPairs, Paired, Pairing};
pub use recursion::{Recursion, Recursive};
pub use stepping::{MOST_FRAME_SAMPLES, Stepped, Stepping};
