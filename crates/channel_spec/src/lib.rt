// SPDX-License-Identifier: Apache-2.0
//! What channels over a host have to do, as a machine over plain values: for each call what it may answer, and which state comes after
//! it.
//!
//! A channel is a list of instances. A block of samples that it is fed passes through them in order: each takes what the one before it
//! gave. What an instance gives is by its kind's meaning where it is lawful, and free where it isn't.
#![tactic(auto)]

mod cuts;
mod laws;
mod outcomes;

pub use cuts::{channels_agree, controls_agree_where_all_is_alike, cuts_do_not_show};
pub use laws::{
    lawful_calls_are_computed, members_live_in_one_channel, poison_words_change_nothing,
    refused_calls_change_nothing,
};
pub use outcomes::{chains_answer_in_order, deletions_answer_in_order, unchains_answer_in_order};
