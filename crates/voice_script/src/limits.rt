//! The limits of lines and replies.
use host_map::MAP_BLOCKS;
use ialg::{BLOCK_SAMPLES, PARAMETER_WORDS};

/// The most octets of a line, without the line feed.
pub const LINE_OCTETS: usize = 1_024;

/// The most octets of a reply, the line feed counted.
pub const REPLY_OCTETS: usize = 8_704;

/// The most digits of a number that is replied.
pub(crate) const NUMBER_DIGITS: usize = 10;

/// The most digits of the number of an instance, a record or a group.
pub(crate) const BYTE_DIGITS: usize = 3;

/// The most octets of the name of a refusal.
pub(crate) const NAME_OCTETS: usize = 7;

/// The most octets of a block's owner.
pub(crate) const OWNER_OCTETS: usize = 9;

/// The most octets of a word of 16 bits and the space before it.
pub(crate) const WORD_TEXT_OCTETS: usize = 12;

/// The most octets of a block in a map and the space before it.
pub(crate) const ENTRY_OCTETS: usize = 32;

/// No number is told from others beyond this magnitude, which no range reaches.
pub const GREATEST_MAGNITUDE: u32 = 100_000;

/// A number of so many digits isn't beyond the greatest magnitude: most numbers have no more.
pub(crate) const SHORT_DIGITS: usize = 5;

/// A feed takes as many samples as a block has, at most.
pub const FEED_SAMPLES: u16 = BLOCK_SAMPLES as u16;

/// The most members of a channel.
pub const MEMBERS: usize = 8;

// the grammar's own limits, whatever they are made of
const _: () = prove!(LINE_OCTETS == 1_024);

const _: () = prove!(FEED_SAMPLES == 1_024);

const _: () = prove!(PARAMETER_WORDS == 72);

const _: () = prove!(MEMBERS == 8);

// the longest map fits a reply, with what stands around it
const _: () = prove!(2 + MAP_BLOCKS * ENTRY_OCTETS + 1 <= REPLY_OCTETS);
