// SPDX-License-Identifier: Apache-2.0
//! Doubles for tests: an allocator that counts and refuses, and kinds that meet the premises of laws which no hosted kind needs.
//!
//! [`Primed`] is lawful in a host of one poison word alone. [`start_in_poison`] and [`start_with_fill`] start it, and
//! [`activate_in_poison`] activates it, by the laws of IALG, so that what these laws ask of new records and of scratch words is
//! met by words that there are. [`give_sample`] gives it a sample by the law of one entry.
//! [`Slicer`] has scratch records of two alignments in two spaces.
//!
//! The other kinds keep no law. [`Scribbler`] asks for the memory that its parameters say, and writes over all that it may. A [`Rogue`] is
//! one of four: one writes over all that it may, one reads what others left in its scratch words, one goes by forged bases, and one gives
//! as many samples as it likes. [`Trial`] and [`Mixed`] are the sets of the hosted kinds and these.
#![tactic(auto)]

mod babbling;
mod clinging;
mod forging;
mod metered;
mod primed;
mod rogue;
pub mod rogue_records;
mod scribbler;
mod scribbling;
mod slicer;
mod starts;
mod trial;

use ialg::OBJECT_WORDS;
pub use kind_parts::Or;
pub use metered::Metered;
pub use primed::Primed;
pub use rogue::{Mixed, Rogue, voices_alone_are_lawful};
pub use scribbler::Scribbler;
pub use scribbling::SCRIBBLE;
pub use slicer::Slicer;
pub use starts::{Active, Held, activate_in_poison, give_sample, start_in_poison, start_with_fill};
pub use trial::{SCRIBBLER, Trial};

/// The kind word of a primed instance's object.
pub const PRIMED_KIND: i16 = 9;

/// The parameters: the host's poison word, and the write-once word.
pub const PRIMED_PARAMETERS: usize = 2;

/// The records: the object, the write-once word, the word that is never written, and the scratch word.
pub const PRIMED_RECORDS: usize = 4;

/// The number of the write-once record.
pub const ONCE: usize = 1;

/// The number of the record that is never written.
pub const PRIMED: usize = 2;

/// The number of the scratch record.
pub const PRIMED_SCRATCH: usize = 3;

/// Where the write-once record is placed: right behind the object.
pub const ONCE_BASE: u16 = OBJECT_WORDS as u16;

/// The kind word of a slicer's object.
pub const SLICER_KIND: i16 = 10;

/// The parameters of a slicer: the low level and the high one.
pub const LEVELS: usize = 2;

/// The records of a slicer: the object, the levels, and a scratch record for each.
pub const SLICER_RECORDS: usize = 4;

/// The number of the scratch record of the low level.
pub const LOW: usize = 2;

/// The number of the scratch record of the high level.
pub const HIGH: usize = 3;

/// The words of the scratch record of the low level.
pub const LOW_WORDS: u32 = 5;

/// The words of the scratch record of the high level.
pub const HIGH_WORDS: u32 = 3;

/// The alignment of the scratch record of the high level.
pub const HIGH_ALIGNMENT: u32 = 64;
