//! The next move of a space's blocks.
ghost use Rattle.std.specs.Prelude.{◌≡◌, ◌≤◌, ◌↔◌, length, map, take, IfSome, IsNone};
ghost use Rattle.relocate.specs.declared.packing.Spot.{Spot};
ghost use Rattle.std.specs.Int.{next_multiple_of};
ghost use Rattle.relocate.specs.Spots.{AreSpots, IsSpot};
ghost use Rattle.relocate.specs.Ends.{end_from};
ghost use Rattle.relocate.specs.Packing.{IsNextMove, IsPacked, next_move_of};

/// Where a block stands in its space, how many words of 16 bits it has, and the alignment that its place is a multiple of.
#[derive(Clone, Copy, Default)]
pub struct Spot {
    pub place: u32,
    pub size: u32,
    pub align: u32,
}

/// Whatever stands in a space, and says where, how large it is and how it is aligned.
pub trait Standing {
    // the place, the size and the alignment that it says
    ghost stands: { Self → Spot };

    /// How it stands in its space.
    fn spot(&self) -> Spot
        ensures { result ≡ stands self.now };
}

/// A spot stands as it says.
impl Standing for Spot {
    ghost stands = { λ s. s };

    fn spot(&self) -> Spot {
        *self
    }
}

/// The block of that index, in place order from 0, goes to the place `to`.
#[derive(Clone, Copy, PartialEq, Eq)]
pub struct Move {
    pub index: usize,
    pub to: u32,
}

/// Where a block goes that stands behind a packed end: the least multiple of its alignment from there on. Most stand right at the end,
/// and their place is a multiple already: for these nothing is divided.
fn packed_place(spot: Spot, end: u32) -> u32
    requires spot { IsSpot spot }
    requires behind { end ≤ spot.place }
    ensures { result ≡ next_multiple_of end spot.align }
{
    if spot.place == end {
        end
    } else {
        end.next_multiple_of(spot.align)
    }
}

/// The first block that isn't at its packed place goes there. `None` exactly where every block is at its packed place, as it is
/// without blocks. The blocks are in place order, at multiples of their alignments, and none meets another.
pub fn next_move<B: Standing>(blocks: &[B]) -> Option<Move>
    requires spots { AreSpots (map B.stands blocks.now) }
    ensures first { IfSome result (IsNextMove (map B.stands blocks.now)) }
    ensures packed { IsNone result ↔ IsPacked (map B.stands blocks.now) }
    ensures value { result ≡ next_move_of (map B.stands blocks.now) }
{
    next_move_behind(blocks, 0)
}

/// The same, of blocks whose first ones, so many, are known to be at their packed places: the search begins behind them.
pub fn next_move_behind<B: Standing>(blocks: &[B], packed: usize) -> Option<Move>
    requires spots { AreSpots (map B.stands blocks.now) }
    requires within { packed ≤ length blocks.now }
    requires packed { IsPacked (take packed (map B.stands blocks.now)) }
    ensures value { result ≡ next_move_of (map B.stands blocks.now) }
{
    let mut end = end_of_first(blocks, packed);
    for index in packed..blocks.len() {
        let spot = blocks[index].spot();
        let to = packed_place(spot, end);
        if spot.place != to {
            return Some(Move { index, to });
        }
        end = to + spot.size;
    }
    None
}

/// Where the first blocks, so many, end: 0 where they are none.
fn end_of_first<B: Standing>(blocks: &[B], count: usize) -> u32
    requires spots { AreSpots (map B.stands blocks.now) }
    requires within { count ≤ length blocks.now }
    ensures { result ≡ end_from 0 (take count (map B.stands blocks.now)) }
{
    if count == 0 {
        return 0;
    }
    let last = blocks[count - 1].spot();
    last.place + last.size
}
