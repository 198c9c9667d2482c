//! What a host is asked for and shows, as plain values.
use crate::MAP_BLOCKS;
use crate::placed::{Owner, Placed};
use arrayvec::ArrayVec;
use mem_rec::Space;

/// How many words of 16 bits each space has: a multiple of 4 up to 65,536.
#[derive(Clone, Copy, PartialEq, Eq, Debug)]
pub struct Sizes {
    pub daram: u32,
    pub saram: u32,
    pub external: u32,
}

/// A block that needs a place: whose it is, in which space, of how many words and at which alignment.
#[derive(Clone, Copy, PartialEq, Eq, Debug)]
pub struct Wanted {
    pub space: Space,
    pub owner: Owner,
    pub size: u32,
    pub align: u32,
}

/// The blocks of a space, in place order.
pub type Map = ArrayVec<Placed, MAP_BLOCKS>;

/// The number of a group's active member, if one is active, and how often a member of the group was activated; this count stays at the
/// greatest `u32`.
#[derive(Clone, Copy, PartialEq, Eq, Debug)]
pub struct Stat {
    pub active: Option<u8>,
    pub activations: u32,
}
