//! Blocks as a map shows them.
ghost use Rattle.host_map.specs.Moves.{spot_of};

use relocate::{Spot, Standing};

/// Whose block it is.
#[derive(Clone, Copy, PartialEq, Eq, Debug)]
pub enum Owner {
    /// Record `.1` of instance `.0`.
    Record(u8, u8),
    /// The scratch of a group.
    Scratch(u8),
}

/// It only fills the unused places of a vector of fixed capacity, and means nothing.
impl Default for Owner {
    fn default() -> Owner {
        Owner::Scratch(0)
    }
}

/// A block: whose it is, where it stands in its space, how many words of 16 bits it has, and what its place is a multiple of.
#[derive(Clone, Copy, PartialEq, Eq, Debug, Default)]
pub struct Placed {
    pub owner: Owner,
    pub place: u32,
    pub size: u32,
    pub align: u32,
}

impl Standing for Placed {
    ghost stands = { spot_of };

    fn spot(&self) -> Spot {
        Spot {
            place: self.place,
            size: self.size,
            align: self.align,
        }
    }
}
