// SPDX-License-Identifier: Apache-2.0
//! The free words of one space, out of which blocks are taken at their least aligned place.
#![tactic(auto)]

mod find;
mod heap;
mod hole;
mod holes;

pub use heap::{Heap, HeapError};
