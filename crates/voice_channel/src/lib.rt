// SPDX-License-Identifier: Apache-2.0
//! Channels over a host: lists of instances, through which blocks of samples pass in order.
//!
//! For each call there is one sentence: whatever state of the machine the channels refined, the call is answered as the machine answers it
//! there, and the channels refine a state that comes after it. No condition is put on the kinds that the host has.
#![tactic(auto)]

mod chaining;
mod channels;
mod feeding;
mod host_calls;
mod lists;
mod members;

// what channels stand over
pub use alg_host::{Host, HostMemory, Map, Sizes, StartError, Stat};
use arrayvec::ArrayVec;
pub use channels::Channels;

/// The most members of a channel.
pub const MEMBERS: usize = 8;

/// The most channels.
pub const CHANNELS: usize = 16;

/// The members of a channel, by their numbers.
type Members = ArrayVec<u8, MEMBERS>;
