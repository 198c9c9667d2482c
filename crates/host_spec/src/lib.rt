// SPDX-License-Identifier: Apache-2.0
//! What a host has to do, as a machine over plain values: for each call what it may answer, and which state comes after it.
//!
//! A state has the living instances with their histories, the memory map, and the active member and the count of each group. It
//! knows no word of a record. What an instance answers is by its kind's meaning where it is lawful, and free where it isn't.
#![tactic(auto)]

mod laws;
mod outcomes;

pub use laws::{
    calls_keep_other_instances, compactions_are_steps, lawful_calls_are_computed, lives_agree,
    lives_go_by_their_histories, moves_change_places_alone, only_creations_lack_room,
    refused_calls_change_nothing,
};
pub use outcomes::{
    controls_answer_in_order, creations_answer_in_order, deletions_answer_in_order,
    groups_answer_in_order, samples_touch,
};
