// SPDX-License-Identifier: Apache-2.0
//! For tests: callers of the headline of one run and of two, of its sounds, and of runs of calls through the library for C; and worked
//! rows: of the headline's definitions, of what a host answers to lists of calls, of what an instance was given, gave and answered in such
//! a list, and of what a console serves.
#![tactic(auto)]

mod beside;
mod console_rows;
mod first_example;
mod host_rows;
mod rooms;
mod row;
mod served;
mod sounds;
mod two_runs;

pub use beside::run_beside;
pub use console_rows::worked_rows;
pub use first_example::run_first;
pub use host_rows::{creation_rows, run_rows, sharing_rows, voice_rows};
pub use rooms::room_rows;
pub use row::run_row;
pub use served::served_calls_go_by_histories;
pub use sounds::sound_rows;
pub use two_runs::{Ports, run_both};
