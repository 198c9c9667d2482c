//! The limits of spaces and blocks, in words of 16 bits.
ghost use Rattle.std.specs.Prelude.{IsTrue, ◌↔◌};
ghost use Rattle.relocate.specs.Places.{IsSpaceSize};

use mem_rec::{GREATEST_ALIGNMENT, LEAST_ALIGNMENT, RECORD_WORDS, SCRATCH_RECORDS};

/// The greatest number of words of a space, which the greatest record fills.
pub const SPACE_WORDS: u32 = RECORD_WORDS;

/// The greatest number of words that are asked for in one block: the scratch records of a table.
pub const GREATEST_NEED: u32 = SCRATCH_RECORDS as u32 * RECORD_WORDS;

// Code and contracts share the constants. Their values stand here once more, so that a slip of one of them doesn't go unseen.
const _: () = prove!(SPACE_WORDS == 65_536);

const _: () = prove!(GREATEST_NEED == 196_608);

const _: () = prove!(LEAST_ALIGNMENT == 4);

const _: () = prove!(GREATEST_ALIGNMENT == 1_024);

/// Whether a space may have so many words: up to [`SPACE_WORDS`], a multiple of [`LEAST_ALIGNMENT`].
pub fn is_space_size(words: u32) -> bool
    ensures { IsTrue result ↔ IsSpaceSize words }
{
    words <= SPACE_WORDS && words % LEAST_ALIGNMENT == 0
}
