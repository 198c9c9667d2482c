// SPDX-License-Identifier: Apache-2.0
//! The hosted kinds as one type: what a host of voices runs, and the names that scripts give them.
#![tactic(auto)]

mod equations;
mod voice;

pub use equations::voices_give_their_equations;
pub use voice::{Voice, voices_are_lawful};
