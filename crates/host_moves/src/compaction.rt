//! Moves, as the machine's.
ghost use Rattle.host_table.specs.Steps.{AreConsistent};
ghost use Rattle.host_moves.specs.Standing.{MapAgrees, PoisonStaysInTables};
ghost use Rattle.host_moves.specs.Moves.{FirstArePacked};
ghost use Rattle.host_moves.specs.Hosts.{Compacted, Stepped};

use crate::moves::make_next_move;
use crate::order::in_order;
use host_spaces::Spaces;
use host_table::Tables;
use ialg::Ialg;
use mem_rec::Space;

/// Does what [`step`] does, where so many of the first blocks of the space are known to be at their packed places: they aren't looked at.
#[inline(always)]
fn step_behind<M: Ialg>(
    tables: &mut Tables<M>,
    spaces: &mut Spaces,
    space: Space,
    packed: &mut usize,
) -> bool
    requires ok { AreConsistent tables.old }
    requires standing { MapAgrees tables.old spaces.old }
    requires front { FirstArePacked packed.old spaces.old space }
    ensures ok { AreConsistent tables.new }
    ensures standing { MapAgrees tables.new spaces.new }
    ensures poisoned { PoisonStaysInTables tables.old tables.new }
    ensures stepped { Stepped M.law space result tables.old spaces.old tables.new spaces.new }
    ensures front { FirstArePacked packed.new spaces.new space }
{
    make_next_move(tables, spaces, space, packed)
}

/// Moves the first block of the space that isn't at its packed place there, as the machine does, and says whether a block moved.
pub fn step<M: Ialg>(tables: &mut Tables<M>, spaces: &mut Spaces, space: Space) -> bool
    requires ok { AreConsistent tables.old }
    requires standing { MapAgrees tables.old spaces.old }
    ensures ok { AreConsistent tables.new }
    ensures standing { MapAgrees tables.new spaces.new }
    ensures poisoned { PoisonStaysInTables tables.old tables.new }
    ensures stepped { Stepped M.law space result tables.old spaces.old tables.new spaces.new }
{
    // of no block it is known where it belongs
    let mut packed = 0;
    step_behind(tables, spaces, space, &mut packed)
}

/// Makes next moves of the space until all its blocks are packed, as the machine does, and says how many blocks moved: each moves once.
///
/// Not inlined, so that its loop has the processor's registers for itself.
#[inline(never)]
pub fn compact<M: Ialg>(tables: &mut Tables<M>, spaces: &mut Spaces, space: Space) -> u32
    requires ok { AreConsistent tables.old }
    requires standing { MapAgrees tables.old spaces.old }
    ensures ok { AreConsistent tables.new }
    ensures standing { MapAgrees tables.new spaces.new }
    ensures poisoned { PoisonStaysInTables tables.old tables.new }
    ensures machine { Compacted M.law space result tables.old spaces.old tables.new spaces.new }
{
    in_order(spaces);
    let mut packed = 0;
    let mut moved = 0;
    while step_behind(tables, spaces, space, &mut packed) {
        moved += 1;
    }
    moved
}
