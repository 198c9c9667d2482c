//! The limit of a script.

/// The most octets of a script.
pub const SCRIPT_OCTETS: u32 = 1_000_000_000;

// The limit that a reader is told, said once more: no slip of one passes.
const _: () = prove!(SCRIPT_OCTETS == 1_000 * 1_000 * 1_000);
