// SPDX-License-Identifier: Apache-2.0
//! The ports of a run: the paths that its command line names, in pairs, and the files behind them. None that is read or written already is
//! written over, and none is emptied before something is written. It stands below the command line, so that none of its edits loads `clap`.
#![tactic(auto)]

mod files;
mod opening;
mod pairing;
mod roll;
mod trouble;

pub use files::{InFile, OutFile, ReplyFile};
pub use opening::{OpenFault, RunFiles};
pub use pairing::{PORT_PAIRS, pairs};
pub use roll::{RegularFile, Role, Roll, RollFault};
pub use trouble::{Trouble, Troubles, Why};
