// SPDX-License-Identifier: Apache-2.0
//! The shared scratch memory of a group of instances: a block in each space, the active member, and how often a member was
//! activated.
//!
//! A group lends records to a step. The persistent records of an instance lie in pieces that it owns, its write-once records in pieces
//! that are lent to it, and its scratch records in the group's blocks, at the layout's offsets.
#![tactic(auto)]

mod bases;
mod group;
mod lasting;
mod plan;
mod table;

pub use bases::lends_at_the_layout;
pub use group::{Group, Need};
pub use lasting::{lend_lasting, lend_lasting_filter, lend_lasting_reader, lend_lasting_sharing};
pub use plan::Loan;
pub use table::LentTable;
