// SPDX-License-Identifier: Apache-2.0
//! Shared write-once records: instances whose records are equal share one piece.
//!
//! For each record of each instance there is a location: here, with the piece, or at another instance, the record's owner. The owner is
//! the least-numbered instance that shares the record. Nothing here knows a kind, a group or an instance's state.
#![tactic(auto)]

mod joining;
mod locations;
mod sharers;
mod tables;

pub use joining::{Sharers, join};
pub use locations::{
    Location, Locations, borrow_pieces, give_back_pieces, next_with_owner, owner, put_moved, sees,
    take_to_move,
};
pub use sharers::{hand_on, next_sharers};
pub use tables::{empty_sharing, end_sharing};
