// SPDX-License-Identifier: Apache-2.0
//! The console over the five kinds.
#![tactic(auto)]

use dsp_program::{CONSOLE, program};
use std::process::ExitCode;
use voice_set::Voice;

fn main(rt: HostRuntime) -> ExitCode {
    program::<Voice, _>(&rt, &CONSOLE)
}
