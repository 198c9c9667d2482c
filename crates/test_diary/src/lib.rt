// SPDX-License-Identifier: Apache-2.0
//! A lawful algorithm that writes each of its calls down, and a host in miniature over any algorithm: which calls the host makes is its
//! contract, by the laws of `Ialg` alone, and what the diary has afterwards follows from it.
#![tactic(auto)]

mod diary;
mod turns;

pub use diary::Diary;
pub use turns::{take_diary_turn, take_turn, tell};

/// How many of its newest calls a diary has.
pub const DIARY_WORDS: u32 = 8;

/// The words of its scratch record.
pub const DIARY_SCRATCH: u32 = 4;

/// The type word of an instance's object.
pub const DIARY_KIND: i16 = 90;

/// The word for algInit.
pub const INIT: i16 = 1;

/// The word for algActivate.
pub const ACTIVATE: i16 = 2;

/// The word for a block of samples.
pub const PROCESS: i16 = 3;

/// The word for algControl.
pub const COMMAND: i16 = 4;

/// The word for algDeactivate.
pub const DEACTIVATE: i16 = 5;

/// The word for algMoved.
pub const MOVED: i16 = 6;
