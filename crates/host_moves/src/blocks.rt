//! The blocks of groups, put in and taken out.
ghost use Rattle.std.specs.Prelude.{◌≡◌, ◌<◌, length, Some, None};
ghost use Rattle.host_table.specs.Table.{SameActivities};
ghost use Rattle.host_table.specs.Frames.{OtherBlocksStay};
ghost use Rattle.host_moves.specs.Lent.{lent_block, scratch_block};

use mem_rec::Space;
use scratch_group::Group;
use space_raw::Piece;

/// Puts a block of this alignment into a space of a group, and gives back the one that stood there.
#[inline(never)]
pub fn put_block(
    groups: &mut Vec<Group>,
    g: u8,
    space: Space,
    piece: Piece,
    align: u32,
) -> Option<Piece>
    requires { g < length groups.old.items }
    ensures old { result ≡ lent_block groups.old.items g space }
    ensures new { scratch_block groups.new.items g space ≡ Some (record { piece = piece; align = align }) }
    ensures others { OtherBlocksStay g space groups.old.items groups.new.items }
    ensures activity { SameActivities groups.old.items groups.new.items }
    ensures length { length groups.new.items ≡ length groups.old.items }
{
    groups[g as usize].replace(space, piece, align)
}

/// Takes the block out of a space of a group.
pub fn take_block(groups: &mut Vec<Group>, g: u8, space: Space) -> Option<Piece>
    requires { g < length groups.old.items }
    ensures old { result ≡ lent_block groups.old.items g space }
    ensures new { scratch_block groups.new.items g space ≡ None }
    ensures others { OtherBlocksStay g space groups.old.items groups.new.items }
    ensures activity { SameActivities groups.old.items groups.new.items }
    ensures length { length groups.new.items ≡ length groups.old.items }
{
    groups[g as usize].remove(space)
}
