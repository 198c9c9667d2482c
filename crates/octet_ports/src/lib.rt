// SPDX-License-Identifier: Apache-2.0
//! Ports: what bytes come from and go to, whole buffers through them, the lines of a script, and the journal: what waits for outputs and
//! replies, and is passed on together, no reply before the samples that it tells of.
#![tactic(auto)]

mod device;
mod handles;
mod journal;
mod marks;
mod octets;
mod port;
mod reader;
mod tape;
mod waiting;

pub use device::{Reading, Writing};
pub use handles::{JournalOutput, JournalReplies, pass_on_all};
pub use journal::{Journal, Passing};
pub use marks::{MARKS, Marks};
pub use octets::{read_octets, write_octets};
pub use port::{PortFault, PortIn, PortOut};
pub use reader::{BUFFER_OCTETS, LineFault, LineReader, ReadLine};
pub use tape::{TAPE_OCTETS, TapeIn, TapeOut};
pub use waiting::JOURNAL_OCTETS;

/// The octet that ends a line.
pub const LINE_FEED: u8 = b'\n';
