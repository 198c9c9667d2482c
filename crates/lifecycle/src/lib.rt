// SPDX-License-Identifier: Apache-2.0
//! The life of an instance: idle and active, started, run, moved and ended.
//!
//! An instance owns the pieces of its persistent records. Those of its write-once records, which stand at their owners, and the scratch
//! memory of its group are lent to it for each call, in one way whatever the call is. A state that keeps a history becomes one that keeps
//! the next: so each call says, where the kind is lawful, and no call has a condition on that.
#![tactic(auto)]

mod active;
mod idle;
mod instance;
mod laws;
mod performing;
mod steps;

pub use active::Active;
pub use idle::Idle;
pub use instance::{Inst, Instance};
pub use laws::room;
