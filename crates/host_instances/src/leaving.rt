//! What an instance leaves: its records, and with the last member of a group the group's blocks.
ghost use Rattle.std.specs.Prelude.{◌≡◌, ◌<◌, length, None, IsSome};
ghost use Rattle.mem_rec.specs.declared.Space.{Space};
ghost use Rattle.scratch_group.specs.Blocks.{block_in};
ghost use Rattle.mem_rec.specs.declared.TheConstants.{GROUPS};
ghost use Rattle.host_table.specs.Table.{slot_at, group_at, group_of, HasNoMembers, PoisonStays, TablesOk, ArePoisoned, SameActivities};
ghost use Rattle.host_spaces.specs.MemoryMap.{AreSameSpaces, map_of};
ghost use Rattle.host_map.specs.MemoryMap.{is_group's, without_owners};
ghost use Rattle.host_moves.specs.Standing.{AgreeWithMap, MapAgrees};
ghost use Rattle.host_instances.specs.Ends.{OtherSlotsSame};
ghost use Rattle.host_instances.specs.Leaving.{AgreeWithMapBut, AreBlocksOf, HistoriesStayWith, LeavesItsRecords, MapAgreesBut};
ghost use Rattle.host_table.specs.Steps.{AreConsistent, HistoriesStay, WasDeactivated};
ghost use Rattle.host_table.specs.Frames.{OtherGroupsStay};

use crate::members::spaces_of_records;
use crate::starting::listed;
use host_moves::take_block;
use host_shared::{Locations, next_sharers};
use host_spaces::{OldBlocks, Spaces};
use host_table::{Member, Tables, end};
use ialg::Ialg;
use mem_rec::Space;
use scratch_group::Group;

/// Ends an instance, and gives back its records that no other instance holds. The others are their next owners' from then on.
pub(crate) fn give_records<M: Ialg>(
    tables: &mut Tables<M>,
    spaces: &mut Spaces,
    poison: Option<i16>,
    i: u8,
)
    requires living { IsSome (slot_at tables.old.instances i) }
    requires ok { AreConsistent tables.old }
    requires standing { MapAgrees tables.old spaces.old }
    requires poisoned { ArePoisoned poison tables.old.groups }
    ensures ok { AreConsistent tables.new }
    ensures standing { MapAgreesBut (group_of (slot_at tables.old.instances i)) tables.new spaces.new }
    ensures poisoned { ArePoisoned poison tables.new.groups }
    ensures gone { slot_at tables.new.instances i ≡ None }
    ensures others { OtherSlotsSame i tables.old.instances tables.new.instances }
    ensures activity { WasDeactivated i tables.old tables.new }
    ensures map { LeavesItsRecords M.law i tables.old spaces.old tables.new spaces.new }
    ensures spaces { AreSameSpaces spaces.old spaces.new }
    ensures keeps { HistoriesStay M.law poison tables.old tables.new }
{
    let places = spaces_of_records(&tables.instances, i);
    let next = next_sharers(&tables.sharing, i);
    let (own, shared) = end(tables, poison, i, &next);
    let list = listed(&next);
    spaces.hand_on(i, &list);
    spaces.take_out_records(i, &places, own, shared);
}

/// Takes all blocks out of a group.
fn take_blocks(groups: &mut Vec<Group>, g: u8) -> OldBlocks
    requires { g < length groups.old.items }
    ensures old { AreBlocksOf g groups.old.items result }
    ensures new { (space : Space) → block_in (group_at groups.new.items g) space ≡ None }
    ensures others { OtherGroupsStay g groups.old.items groups.new.items }
    ensures activity { SameActivities groups.old.items groups.new.items }
    ensures length { length groups.new.items ≡ length groups.old.items }
{
    let daram = take_block(groups, g, Space::Daram);
    let saram = take_block(groups, g, Space::Saram);
    let external = take_block(groups, g, Space::External);
    OldBlocks {
        daram,
        saram,
        external,
    }
}

/// Gives back the blocks of a group without members.
#[inline(never)]
pub(crate) fn give_blocks<M: Ialg>(
    instances: &Vec<Option<Member<M>>>,
    sharing: &Vec<Locations>,
    groups: &mut Vec<Group>,
    spaces: &mut Spaces,
    g: u8,
)
    requires number { g < GROUPS }
    requires none { HasNoMembers instances.now.items g }
    requires ok { TablesOk instances.now.items sharing.now.items groups.old.items }
    requires standing { AgreeWithMapBut g instances.now.items sharing.now.items groups.old.items spaces.old }
    ensures ok { TablesOk instances.now.items sharing.now.items groups.new.items }
    ensures standing { AgreeWithMap instances.now.items sharing.now.items groups.new.items spaces.new }
    ensures poisoned { PoisonStays groups.old.items groups.new.items }
    ensures activity { SameActivities groups.old.items groups.new.items }
    ensures map { map_of spaces.new ≡ without_owners (is_group's g) (map_of spaces.old) }
    ensures spaces { AreSameSpaces spaces.old spaces.new }
    ensures keeps { HistoriesStayWith M.law instances.now.items sharing.now.items groups.old.items groups.new.items }
{
    let blocks = take_blocks(groups, g);
    spaces.take_out_blocks(g, blocks);
}
