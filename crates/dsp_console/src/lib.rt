// SPDX-License-Identifier: Apache-2.0
//! Serves a script of commands over ports: instances of algorithms in three spaces of memory, and channels of samples through them. A
//! console over the channels does what the lines ask, and takes the samples of feeds.
#![tactic(auto)]

mod commands;
mod console;
mod ending;
mod laws;
mod lines;
mod obeying;
mod replies;
mod samples;
mod serving;

pub use ending::outcome;
pub use laws::headline;
pub use octet_ports::{PortFault, PortIn, PortOut, Reading, TAPE_OCTETS, TapeIn, TapeOut, Writing};
pub use script_server::SCRIPT_OCTETS;
pub use serving::{Config, Fault, Summary, run, run_memory};
// what a console stands over
pub use voice_channel::{CHANNELS, HostMemory, Sizes};

// A command line has as many pairs of ports, and a script as many channels.
const _: () = prove!(CHANNELS == 16);
