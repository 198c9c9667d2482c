// SPDX-License-Identifier: Apache-2.0
//! For tests: the grammar, ports and their devices, lines, the journal, and whole runs of the engine.
#![tactic(auto)]

#[cfg(test)]
mod devices;
#[cfg(test)]
mod engine;
#[cfg(test)]
mod faults;
#[cfg(test)]
mod grammar;
#[cfg(test)]
mod journal;
#[cfg(test)]
mod lines;
#[cfg(test)]
mod ports;
#[cfg(test)]
mod scripts;
#[cfg(test)]
mod shaky;
