// SPDX-License-Identifier: Apache-2.0
//! Loans of records: the words of an instance's records, lent as plain slices for one step.
//!
//! A [`Plan`] says of each record of a table where its words lie: in a piece that the instance owns, in a shared piece that is lent to it,
//! or in a scratch block of its group. What a record lies in is taken for the time of the step and put back behind it, so it is known what
//! every piece and every block holds then.
#![tactic(auto)]

mod block;
mod loans;
mod pieces;
mod plan;
mod taken;

pub use block::ScratchBlock;
pub use loans::{
    PlannedLoan, lend_filter, lend_reader, lend_sharing_filter, lend_with_blocks,
    lend_without_blocks,
};
pub use pieces::{Pieces, end_absent, first_words, place_of};
pub use plan::{CONSTANTS, Cut, FilterSizes, ONCE, Plan, ReaderSizes, SharingSizes, Source};
