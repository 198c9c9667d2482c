// SPDX-License-Identifier: Apache-2.0
//! For tests: hosts and channels in which a kind that keeps no law stands beside the hosted kinds; which calls of IALG an algorithm gets,
//! by one that keeps a diary of them; and callers of the laws of cuts and of two runs.
#![tactic(auto)]

#[cfg(test)]
mod agree_tests;
#[cfg(test)]
mod channel_calls;
#[cfg(test)]
mod channel_runs;
#[cfg(test)]
mod channel_tests;
#[cfg(test)]
mod cut_feeds;
#[cfg(test)]
mod diary;
#[cfg(test)]
mod diary_tests;
#[cfg(test)]
mod fill_tests;
#[cfg(test)]
mod host_calls;
#[cfg(test)]
mod host_tests;
#[cfg(test)]
mod two_channels;

use voice_channel::MEMBERS;

// A chain has as many members at most.
const _: () = prove!(MEMBERS == 8);
