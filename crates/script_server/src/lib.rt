// SPDX-License-Identifier: Apache-2.0
//! Serves the lines of a script over ports, for any machine that answers lines.
#![tactic(auto)]

mod limits;
mod line;
mod serving;

pub use limits::SCRIPT_OCTETS;
pub use serving::{PortsFault, serve};
