// SPDX-License-Identifier: Apache-2.0
//! The command line of the program: which files and options it names.
#![tactic(auto)]

mod asked;
mod command_line;
mod version;

pub use asked::{About, ArgFault, Arguments, CONSOLE};
pub use command_line::{arguments, arguments_of};
pub use port_files::PORT_PAIRS;
pub use version::VERSION;
