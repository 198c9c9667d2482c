// SPDX-License-Identifier: Apache-2.0
//! What a console does with the lines of a script, as a machine over plain values; whole runs of the machines, calls of channels as calls
//! of their host, and each instance from its creation on; and the main theorem of such runs.
#![tactic(auto)]

mod laws;
mod main_law;
mod runs;

pub use laws::{honest_feeds_are_exact, lawful_consoles_serve_one_answer};
pub use main_law::{answers_have_sounds, headline, sounds_are_one};
pub use runs::{
    births_agree, births_go_by_their_histories, calls_run_on_the_host, creations_alone_lack_room,
    honest_feeds_take_what_is_next, lines_are_calls, refused_lines_change_nothing,
};
