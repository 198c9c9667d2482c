// SPDX-License-Identifier: Apache-2.0
//! The three spaces of a host: which block stands where, and whose it is.
//!
//! The blocks of a space stand in place order, each with its owner: a record of an instance, or a group's scratch. A block is placed at its
//! least place, taken out, or moved down; the map of the space and its next move are read off. A creation is refused whole: all its blocks
//! are placed, or none. Places and sizes are counted in words of 16 bits.
#![tactic(auto)]

mod blocks;
mod creation;
mod deletion;
mod granted;
mod laws;
mod pieces;
mod placing;
mod sharing;
mod space_laws;
mod spaces;
mod start;
mod wants;

pub use blocks::SpaceBlocks;
pub use deletion::record_spaces;
pub use laws::creations;
pub use pieces::{NewBlocks, OldBlocks, Placement};
pub use space_laws::{blocks_are_apart, blocks_are_few, moves_pack};
pub use spaces::Spaces;
pub use start::{EmptySpaces, StartError};
pub use wants::Sharers;
