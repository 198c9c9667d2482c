// SPDX-License-Identifier: Apache-2.0
//! Kinds of two shapes by a few lines each, and the parts of which others are made.
//!
//! A [`Mapping`] says what each sample gives by the words in force, and [`Mapped`] is the kind. A [`Framing`] says what a frame of samples
//! has as its state and what is told of it, and [`Framed`] is the kind. Both are filters, and so keep every law. Kinds whose state lasts
//! from sample to sample stand in `kind_steps`. A filter of another shape finds words of parameters, sums of 32 bits in two words, frames,
//! and what a run over a block goes on with.
//!
//! [`Or`] makes one set of two as a type: a kind of either, lawful where both are.
#![tactic(auto)]

mod either;
mod framing;
mod mapping;
mod words;

pub use either::{Or, both_are_lawful};
pub use framing::{Framed, Framing, MOST_FRAME};
pub use mapping::{Mapped, Mapping, NO_WORDS};
pub use words::{MOST_STATE_WORDS, SUM_WORDS, is_within, join, keep_sum, kept_sum};
