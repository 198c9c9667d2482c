// SPDX-License-Identifier: Apache-2.0
//! A test program: the console over the hosted kinds and four that keep no law, as one type whose values have names.
//!
//! The four are the rogues of `test_doubles`. A host, its channels and a whole run are to serve the hosted kinds beside them as if they
//! were alone.
#![tactic(auto)]

use dsp_program::{About, program};
use std::process::ExitCode;
use test_doubles::Mixed;

/// The console over the five kinds and the rogues.
const MIXED: About = About {
    name: "mixed_console",
    usage: "mixed_console [OPTIONS] <SCRIPT> <IN OUT> [IN OUT]...",
    about: "Serves a script of commands over files of 16-bit samples, by instances of dsp_console's kinds and of scribble, clinger, forger and babbler, which break the laws of algorithms.",
};

fn main(rt: HostRuntime) -> ExitCode {
    program::<Mixed, _>(&rt, &MIXED)
}
