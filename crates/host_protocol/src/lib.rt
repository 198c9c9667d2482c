// SPDX-License-Identifier: Apache-2.0
//! IALG's calling protocol: which calls of IALG a call of a host makes, of which instance, in which order and how often, as a function of
//! the host's state; and that they are in the order that IALG lays down. It stands on the specification of a host alone.
#![tactic(auto)]

mod laws;
mod rows;

pub use laws::calls_are_in_order;
pub use rows::protocol_rows;
