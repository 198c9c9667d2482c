//! The order of blocks.
ghost use Rattle.host_moves.specs.Standing.{AreOrdered};

use host_spaces::Spaces;
use mem_rec::Space;

/// The law that the blocks of each space are in place order, and that no two of them meet. Nothing happens to them.
pub fn in_order(spaces: &Spaces)
    ensures { AreOrdered spaces.now }
{
    let _daram = spaces.blocks(Space::Daram);
    let _saram = spaces.blocks(Space::Saram);
    let _external = spaces.blocks(Space::External);
}
