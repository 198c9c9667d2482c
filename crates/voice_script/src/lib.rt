// SPDX-License-Identifier: Apache-2.0
//! The grammar of scripts: a line's command or refusal, and the text of a reply; and what answers the lines of a script: what a line asks
//! of the ports, and what is then given and told.
#![tactic(auto)]

mod commands;
mod fields;
mod limits;
mod machine;
mod members;
mod numbers;
mod octets;
mod replies;
mod rows;
mod samples;
mod width;
mod words;

pub use commands::{Command, parse};
pub use limits::{FEED_SAMPLES, GREATEST_MAGNITUDE, LINE_OCTETS, MEMBERS, REPLY_OCTETS};
pub use machine::{Ask, LineMachine};
pub use members::Members;
pub use numbers::value_of;
pub use octets::{BLOCK_OCTETS, WORD_OCTETS};
pub use replies::{Reply, ReplyText, line_of, reply_text, write_reply};
pub use rows::grammar_rows;
pub use samples::FeedSamples;
pub use width::{PortWidths, Width};
pub use words::Words;
