// SPDX-License-Identifier: Apache-2.0
//! Creation and deletion of an instance, the memory of a host that has none yet, and the end of a host with all that it has.
//!
//! At a creation all places are found before any instance is called. Then the group of the new instance gets the blocks that it needs: the
//! old ones go back, and where one was replaced the members are called by algMoved. The new instance starts last. Where a block has no
//! place nothing has happened.
//!
//! At a deletion the records of the instance are freed, and with the last member of a group the group's blocks.
//!
//! Both lead from a state of the specification to its next one, and a refused one changes nothing.
#![tactic(auto)]

mod blocks;
mod closing;
mod creation;
mod deletions;
mod ends;
mod growth;
mod leaving;
mod members;
mod memory;
mod starting;

pub use closing::close;
pub use creation::create;
pub use deletions::delete;
pub use memory::HostMemory;
