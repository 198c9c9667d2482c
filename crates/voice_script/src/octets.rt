//! The octets of samples.
use ialg::BLOCK_SAMPLES;

/// The octets of a sample where a port carries words.
pub const WORD_OCTETS: usize = 2;

/// The most octets of a feed.
pub const BLOCK_OCTETS: usize = WORD_OCTETS * BLOCK_SAMPLES;

// The limit that a reader is told, said once more: no slip of one passes.
const _: () = prove!(BLOCK_OCTETS == 2_048);
