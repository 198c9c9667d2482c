// SPDX-License-Identifier: Apache-2.0
//! The program over a set of kinds: its files, its exit statuses, and what is said on the standard error.
#![tactic(auto)]

mod explaining;
mod serving;
mod starting;

pub use dsp_arguments::{About, CONSOLE, VERSION};
pub use starting::{answer, program};
