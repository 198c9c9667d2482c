// SPDX-License-Identifier: Apache-2.0
//! Moves of records and blocks, and the invariant of tables and spaces.
//!
//! The records of each instance, and the blocks of each group, lie where the memory map shows them. A move takes a piece out, moves it, and
//! puts it back; then every instance that has records in it is called by algMoved, an active one too, which stays active. The words of its
//! records are the same, so it keeps its history.
//!
//! Tables and spaces refine a state of the specification where they have its instances, its memory map, its active members and its counts,
//! and where each lawful instance keeps its history in the words of its records. A step and a compaction lead to tables and spaces that
//! refine the specification's next state.
#![tactic(auto)]

mod blocks;
mod compaction;
mod held_laws;
mod laws;
mod moves;
mod order;
mod records;
mod told;

pub use blocks::{put_block, take_block};
pub use compaction::{compact, step};
pub use held_laws::{apart, poisoned, slid, waiting, words};
pub use laws::{loans_are_apart, maps_have_room};
pub use order::in_order;
pub use records::take_own;
pub use told::{call_moved_of_sharers, tell};
