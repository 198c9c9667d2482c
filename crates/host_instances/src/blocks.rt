//! The new blocks of a group, in place of its old ones.
ghost use Rattle.std.specs.Prelude.{◌≡◌, ◌<◌, length, is_some};
ghost use Rattle.scratch_group.specs.Blocks.{block_in};
ghost use Rattle.host_table.specs.Table.{SameActivities};
ghost use Rattle.host_instances.specs.Blocks.{replaced_piece, replaced_in, AreRenewed, AreReplaced, IsRenewed, IsReplaced};
ghost use Rattle.host_table.specs.Frames.{OtherBlocksStay, OtherGroupsStay};

use host_moves::put_block;
use host_spaces::{NewBlocks, OldBlocks};
use mem_rec::Space;
use record_loans::ScratchBlock;
use scratch_group::Group;
use space_raw::Piece;

/// Whether a new block stands in place of an old one in a space of the group.
fn replaces(group: &Group, space: Space, new: &Option<ScratchBlock>) -> bool
    ensures { result ≡ is_some (replaced_piece new.now (block_in group.now space)) }
{
    new.is_some() && group.spot(space).is_some()
}

/// Whether a new block stands in place of an old one of the group.
pub fn replaces_any(group: &Group, blocks: &NewBlocks) -> bool
    ensures { result ≡ replaced_in blocks.now group.now }
{
    replaces(group, Space::Daram, &blocks.daram)
        || replaces(group, Space::Saram, &blocks.saram)
        || replaces(group, Space::External, &blocks.external)
}

/// Puts a new block into a space of a group, if there is one, and gives back the one that stood there.
fn put_new(groups: &mut Vec<Group>, g: u8, space: Space, new: Option<ScratchBlock>) -> Option<Piece>
    requires { g < length groups.old.items }
    ensures old { IsReplaced g space new groups.old.items result }
    ensures new { IsRenewed g space new groups.old.items groups.new.items }
    ensures others { OtherBlocksStay g space groups.old.items groups.new.items }
    ensures activity { SameActivities groups.old.items groups.new.items }
    ensures length { length groups.new.items ≡ length groups.old.items }
{
    match new {
        Some(ScratchBlock { piece, align }) => put_block(groups, g, space, piece, align),
        None => None,
    }
}

/// Puts new blocks into a group, and gives back the ones that they replace. A space without a new block keeps its old one.
pub fn put_new_blocks(groups: &mut Vec<Group>, g: u8, blocks: NewBlocks) -> OldBlocks
    requires { g < length groups.old.items }
    ensures old { AreReplaced g blocks groups.old.items result }
    ensures new { AreRenewed g blocks groups.old.items groups.new.items }
    ensures others { OtherGroupsStay g groups.old.items groups.new.items }
    ensures activity { SameActivities groups.old.items groups.new.items }
    ensures length { length groups.new.items ≡ length groups.old.items }
{
    let NewBlocks {
        daram,
        saram,
        external,
    } = blocks;
    let daram = put_new(groups, g, Space::Daram, daram);
    let saram = put_new(groups, g, Space::Saram, saram);
    let external = put_new(groups, g, Space::External, external);
    OldBlocks {
        daram,
        saram,
        external,
    }
}
