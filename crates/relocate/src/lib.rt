// SPDX-License-Identifier: Apache-2.0
//! Where the blocks of a space go when they are moved together.
//!
//! A block's packed place is the least multiple of its alignment not below the end of the block before it, once that one
//! stands at its own packed place; the first block's is 0. A move takes the first block that stands elsewhere to its packed
//! place. Places and sizes are counted in words of 16 bits, and blocks go by their index in place order, from 0.
#![tactic(auto)]

mod laws;
mod limits;
mod packing;
mod rows;

pub use laws::{compactions, lowering_moves, moves_go_down};
pub use limits::{GREATEST_NEED, SPACE_WORDS, is_space_size};
pub use packing::{Move, Spot, Standing, next_move, next_move_behind};
pub use rows::packing_rows;
