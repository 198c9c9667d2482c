// SPDX-License-Identifier: Apache-2.0
//! The memory map of a host, as plain values: which blocks stand in its spaces, whose they are, and where they go.
//!
//! A creation adds blocks at their least free places, a deletion takes them away, a move slides one down. Which member of a group is
//! active, and with which instance a new one shares a write-once record, stand here too. Specification and host both speak in these terms:
//! no word of a record, no piece of memory and no algorithm is known here.
#![tactic(auto)]

mod parts;
mod placed;

use mem_rec::{GROUPS, INSTANCES, TABLE_RECORDS};
pub use parts::{Map, Sizes, Stat, Wanted};
pub use placed::{Owner, Placed};

/// The most blocks of a space where no owner has two: a record is one block at most, and a group has one in each space.
pub const MAP_BLOCKS: usize = INSTANCES * TABLE_RECORDS + GROUPS as usize;

/// The most blocks of a space: there is one more while a group's block is replaced.
pub const SPACE_BLOCKS: usize = MAP_BLOCKS + 1;

// Code and contracts share the constants. Their values stand here once more, so that a slip of one of them doesn't go unseen.
const _: () = prove!(MAP_BLOCKS == 264);
