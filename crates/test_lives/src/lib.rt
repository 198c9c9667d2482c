// SPDX-License-Identifier: Apache-2.0
//! For tests: one instance, two neighbours in one group, and two instances of one table. What one gives doesn't depend on the others.
//! Beside them stands what each rogue does in each call.
#![tactic(auto)]

#[cfg(test)]
mod alone;
#[cfg(test)]
mod neighbour_tests;
#[cfg(test)]
mod neighbours;
#[cfg(test)]
mod regions;
#[cfg(test)]
mod rogue_calls;
#[cfg(test)]
mod slicer;
#[cfg(test)]
mod slicer_tests;
#[cfg(test)]
mod turn_tests;
#[cfg(test)]
mod turns;
