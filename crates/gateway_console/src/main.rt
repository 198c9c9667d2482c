// SPDX-License-Identifier: Apache-2.0
//! The console over the kinds of a voice gateway. The command line, the replies, the outputs and the exit status are those of
//! `dsp_console`.
#![tactic(auto)]

use dsp_program::{About, program};
use gateway_kinds::GatewayKind;
use std::process::ExitCode;

/// The console over all twelve kinds.
const GATEWAY: About = About {
    name: "gateway_console",
    usage: "gateway_console [OPTIONS] <SCRIPT> <IN OUT> [IN OUT]...",
    about: "Serves a script of commands over files of 16-bit samples, by instances of dsp_console's kinds and of gain, level, dtmf, echo, adpcm, signal and activity.",
};

fn main(rt: HostRuntime) -> ExitCode {
    program::<GatewayKind, _>(&rt, &GATEWAY)
}
