//! What follows for the blocks of a space.
ghost use Rattle.std.specs.Prelude.{◌≤◌, ℕ, List, length};
ghost use Rattle.host_map.specs.declared.TheConstants.{MAP_BLOCKS};
ghost use Rattle.host_map.specs.declared.placed.Placed.{Placed};
ghost use Rattle.host_map.specs.Blocks.{AreSingle};
ghost use Rattle.host_spaces.specs.Laws.{OneMoreHasRoom, OwnersAreApart, PacksAll};

/// The law that where no owner has two blocks of a space a map has room for all of them; and for the records of one more instance, where
/// an instance number has none. The call does nothing: its contract is the law.
pub fn blocks_are_few()
    ensures few { (blocks : List Placed) → AreSingle blocks → length blocks ≤ MAP_BLOCKS }
    ensures room { (blocks : List Placed) (i : ℕ) → OneMoreHasRoom blocks i }
{}

/// The law that the pieces of two owners have no word in common. The call does nothing.
pub fn blocks_are_apart()
    ensures { OwnersAreApart }
{}

/// The law that next moves come to the packed blocks, one move for each block that isn't at its packed place. The call does nothing.
pub fn moves_pack()
    ensures { (blocks : List Placed) (n : ℕ) (after : List Placed) → PacksAll blocks n after }
{}
