// SPDX-License-Identifier: Apache-2.0
//! One space's raw words, as pieces that are owned. `docs/RAW_MEMORY.md` says how pointers, owners and safe types fit together.
#![tactic(auto)]

mod block;
mod loose;
mod piece;
mod places;
mod region;
mod rest;
mod store;
mod words;

pub use piece::{Piece, end_none};
pub use region::Region;
pub use rest::Rest;
