// SPDX-License-Identifier: Apache-2.0
//! For tests: records and loans, raw words, heaps, spaces and scratch groups, and a kind that is lawful under one poison word alone.
#![tactic(auto)]

#[cfg(test)]
mod groups;
#[cfg(test)]
mod heaps;
#[cfg(test)]
mod lending;
#[cfg(test)]
mod loans;
#[cfg(test)]
mod primed;
#[cfg(test)]
mod regions;
#[cfg(test)]
mod spaces;
#[cfg(test)]
mod tables;
