// SPDX-License-Identifier: Apache-2.0
//! A host of algorithms: instances in three spaces of memory, in groups that work in the same scratch words by turns.
//!
//! For each call there is one sentence: whatever state of the specification the host refined, the call is answered as the specification
//! answers it there, and the host refines a state that comes after it. No condition is put on the algorithm types that it hosts. Over any
//! list of calls each lawful instance gives the outputs of its own history ([`make_all`]).
#![tactic(auto)]

mod calls;
mod creation;
mod deletion;
mod groups;
mod host;
mod lists;
mod moves;
mod request;
mod table_calls;

pub use host::Host;
pub use host_instances::HostMemory;
pub use host_map::{Map, Owner, Placed, Sizes, Stat};
pub use host_spaces::StartError;
pub use lists::{make, make_all, make_both};
pub use request::Request;
