//! A group grows.
ghost use Rattle.std.specs.Prelude.{◌≡◌, ◌≢◌, ◌<◌, length, None, true, false};
ghost use Rattle.mem_rec.specs.declared.TheConstants.{GROUPS};
ghost use Rattle.host_table.specs.Table.{group_at, ArePoisoned, SameActivities, ActivitiesAre};
ghost use Rattle.host_table.specs.Frames.{InactiveGroupsStay};
ghost use Rattle.host_spaces.specs.MemoryMap.{AreSameSpaces, map_of};
ghost use Rattle.host_spaces.specs.MapChanges.{AllButGroupStay};
ghost use Rattle.host_spaces.specs.Pieces.{without_pieces};
ghost use Rattle.host_spaces.specs.Placing.{AreInTheirSpaces, AreOfGroup};
ghost use Rattle.host_moves.specs.Standing.{AreOrdered};
ghost use Rattle.host_instances.specs.Blocks.{no_blocks, replaced_in};
ghost use Rattle.host_instances.specs.Growth.{CanGrow, HasGrown, activity_grown};
ghost use Rattle.host_table.specs.Steps.{AreConsistent, MembersAreTold, MembersStay, HistoriesStay, AllHistoriesStay};

use crate::blocks::{put_new_blocks, replaces_any};
use host_moves::in_order;
use host_spaces::{NewBlocks, OldBlocks, Spaces};
use host_table::{Tables, call_moved_in_group};
use ialg::Ialg;
use space_raw::end_none;

/// Whether a new block stands in place of an old one of the group.
fn replaces_in<M: Ialg>(tables: &Tables<M>, g: u8, blocks: &NewBlocks) -> bool
    requires { g < length tables.now.groups }
    ensures { result ≡ replaced_in blocks.now (group_at tables.now.groups g) }
{
    replaces_any(&tables.groups[g as usize], blocks)
}

/// Deactivates the active member of the group, if there is one, where a block is replaced.
fn rest_where<M: Ialg>(tables: &mut Tables<M>, poison: Option<i16>, g: u8, replaced: bool)
    requires range { g < GROUPS }
    requires ok { AreConsistent tables.old }
    requires poisoned { ArePoisoned poison tables.old.groups }
    ensures ok { AreConsistent tables.new }
    ensures poisoned { ArePoisoned poison tables.new.groups }
    ensures idle { replaced ≡ true → (group_at tables.new.groups g).active ≡ None }
    ensures same { MembersStay tables.old tables.new }
    ensures activity { ActivitiesAre tables.new.groups (activity_grown replaced tables.old.groups g) }
    ensures keeps { HistoriesStay M.law poison tables.old tables.new }
{
    if replaced {
        let _was_active = tables.deactivate_by_call(poison, g);
    }
}

/// Tells each member of the group where its records lie now, where a block was replaced.
fn tell_where<M: Ialg>(tables: &mut Tables<M>, g: u8, replaced: bool)
    requires range { g < GROUPS }
    requires told { replaced ≡ true → MembersAreTold g 0 tables.old }
    requires ok { replaced ≡ false → AreConsistent tables.old }
    ensures ok { AreConsistent tables.new }
    ensures inactive { InactiveGroupsStay tables.old.groups tables.new.groups }
    ensures same { MembersStay tables.old tables.new }
    ensures activity { SameActivities tables.old.groups tables.new.groups }
    ensures keeps { AllHistoriesStay M.law tables.old tables.new }
{
    if replaced {
        call_moved_in_group(tables, g);
    }
}

/// Whether there is no new block.
fn has_none(blocks: &NewBlocks) -> bool
    ensures none { result ≡ true → blocks.now ≡ no_blocks }
    ensures some { result ≡ false → blocks.now ≢ no_blocks }
{
    blocks.daram.is_none() && blocks.saram.is_none() && blocks.external.is_none()
}

/// Ends new blocks where there are none.
fn end_no_blocks(blocks: NewBlocks)
    requires { blocks ≡ no_blocks }
{
    let NewBlocks {
        daram,
        saram,
        external,
    } = blocks;
    end_none(daram);
    end_none(saram);
    end_none(external);
}

/// Gives the old blocks of the group back.
fn give_back_old(spaces: &mut Spaces, g: u8, pieces: OldBlocks)
    requires regions { AreInTheirSpaces pieces spaces.old }
    requires owner { AreOfGroup g pieces (map_of spaces.old) }
    ensures ordered { AreOrdered spaces.new }
    ensures map { map_of spaces.new ≡ without_pieces (map_of spaces.old) pieces }
    ensures others { AllButGroupStay g (map_of spaces.old) (map_of spaces.new) }
    ensures stays { AreSameSpaces spaces.old spaces.new }
{
    spaces.take_out_blocks(g, pieces);
    in_order(spaces);
}

/// Puts new blocks into the group, as [`grow`] does.
#[inline(never)]
fn grow_by_blocks<M: Ialg>(
    tables: &mut Tables<M>,
    spaces: &mut Spaces,
    poison: Option<i16>,
    g: u8,
    blocks: NewBlocks,
)
    requires { CanGrow poison g blocks tables.old spaces.old }
    ensures { HasGrown M.law poison g blocks tables.old tables.new spaces.old spaces.new }
{
    let replaced = replaces_in(tables, g, &blocks);
    rest_where(tables, poison, g, replaced);
    in_order(spaces);
    let old = put_new_blocks(&mut tables.groups, g, blocks);
    give_back_old(spaces, g, old);
    tell_where(tables, g, replaced);
}

/// The group has these new blocks from now on, which were placed while its old ones stand. Where one is replaced the active member of
/// the group is deactivated first, the old block goes back, and then each member, in ascending number, is told where its records lie.
///
/// Most creations need no new block. Nothing of the group is touched for them.
pub fn grow<M: Ialg>(
    tables: &mut Tables<M>,
    spaces: &mut Spaces,
    poison: Option<i16>,
    g: u8,
    blocks: NewBlocks,
)
    requires { CanGrow poison g blocks tables.old spaces.old }
    ensures { HasGrown M.law poison g blocks tables.old tables.new spaces.old spaces.new }
{
    if has_none(&blocks) {
        in_order(spaces);
        end_no_blocks(blocks);
        return;
    }
    grow_by_blocks(tables, spaces, poison, g, blocks);
}
