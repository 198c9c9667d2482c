//! A new instance starts.
ghost use Rattle.std.specs.Prelude.{◌≡◌, ◌<◌, ℕ, length, None, IfOk, OnOk, OnErr};
ghost use Rattle.mem_rec.specs.declared.TheConstants.{INSTANCES, GROUPS};
ghost use Rattle.host_table.specs.Table.{slot_at, group_at, ArePoisoned};
ghost use Rattle.host_table.specs.Frames.{OtherSlotsStay};
ghost use Rattle.host_table.specs.Sharers.{AreLeastSharers};
ghost use Rattle.host_shared.specs.Joining.{sharer_at};
ghost use Rattle.host_map.specs.Creation.{sharer_at as listed_at};
ghost use Rattle.host_spaces.specs.MemoryMap.{AreSameSpaces, map_of};
ghost use Rattle.host_spaces.specs.Pieces.{AreSharable, HasBlocks, IsPoisoned};
ghost use Rattle.host_spaces.specs.MapChanges.{AllButTheseStay, InstanceHasNone};
ghost use Rattle.host_spaces.specs.Placing.{AreNeeded, HasNew, HasPlacedPieces, HasPlacedRecords, HasRoomForInstance, PlacesInstance};
ghost use Rattle.host_instances.specs.Growth.{TablesAreGrown};
ghost use Rattle.host_instances.specs.Ends.{OtherSlotsSame};
ghost use Rattle.host_instances.specs.Started.{ActivityIsGrown, BeginsHistoryIn, EmptySlotsHaveNone, HasNewborn, IsPlacedFor, MapIsCreated, TakesOver};
ghost use Rattle.host_table.specs.Steps.{AreConsistent};
ghost use Rattle.host_moves.specs.Standing.{MapAgrees};
ghost use Rattle.host_table.specs.Starts.{asked_for, BeginsHistory};

use crate::growth::grow;
use host_moves::{in_order, maps_have_room};
use host_shared::Sharers;
use host_spaces::{Placement, Spaces, blocks_are_few, creations};
use host_table::{NewInstance, Tables, find_sharers, start};
use ialg::{Ialg, Params};
use mem_rec::{MemTab, Space};
use record_loans::Pieces;
use scratch_group::Group;

/// The sharers as a list, by the numbers of records.
pub(crate) fn listed(sharers: &Sharers) -> host_spaces::Sharers
    ensures { (k : ℕ) → listed_at result k ≡ sharer_at sharers.now k }
{
    [sharers.t0, sharers.t1, sharers.t2, sharers.t3]
}

/// Places all blocks that a new instance needs for what it doesn't share, or says the space of the first one that has no place.
fn place(
    spaces: &mut Spaces,
    i: u8,
    g: u8,
    table: &MemTab,
    sharers: &host_spaces::Sharers,
    groups: &Vec<Group>,
    poison: Option<i16>,
) -> Result<Placement, Space>
    requires group { g < length groups.now.items }
    requires sharers { AreSharable table.now (listed_at sharers.now) }
    requires blocks { HasBlocks (map_of spaces.old) g (group_at groups.now.items g) }
    requires records { InstanceHasNone i (map_of spaces.old) }
    requires room { HasRoomForInstance (map_of spaces.old) }
    ensures exact { PlacesInstance i g table.now (listed_at sharers.now) spaces.old spaces.new result }
    ensures pieces { IfOk result (HasPlacedPieces spaces.old table.now (listed_at sharers.now)) }
    ensures records { IfOk result (HasPlacedRecords (map_of spaces.new) i table.now) }
    ensures needed { IfOk result (λ made. AreNeeded spaces.old table.now (group_at groups.now.items g) made.blocks) }
    ensures blocks { IfOk result (λ made. HasNew g made.blocks (map_of spaces.old) (map_of spaces.new)) }
    ensures others { OnOk result (AllButTheseStay g i (map_of spaces.old) (map_of spaces.new)) }
    ensures poison { IfOk result (IsPoisoned poison) }
    ensures refused { OnErr result (spaces.new ≡ spaces.old) }
    ensures stays { AreSameSpaces spaces.old spaces.new }
{
    spaces.place_instance(i, g, table, sharers, &groups[g as usize], poison)
}

/// Starts an instance whose records are placed, but for those that it shares with its sharers, and whose group has the blocks for it. A
/// shared block is the new instance's from now on where that one has the lower number.
fn begin<M: Ialg>(
    tables: &mut Tables<M>,
    spaces: &mut Spaces,
    instance: NewInstance<'_, M>,
    own: Pieces,
    shared: Pieces,
    sharers: Sharers,
)
    requires number { instance.number < INSTANCES }
    requires group { instance.group < GROUPS }
    requires empty { slot_at tables.old.instances instance.number ≡ None }
    requires ok { AreConsistent tables.old }
    requires grown { TablesAreGrown instance.group tables.old spaces.old }
    requires sharers { AreLeastSharers M.law.meaning.same tables.old.instances (asked_for instance) sharers }
    requires placed { IsPlacedFor instance own shared sharers tables.old spaces.old }
    requires gone { EmptySlotsHaveNone instance.number tables.old spaces.old }
    ensures groups { tables.new.groups ≡ tables.old.groups }
    ensures ok { AreConsistent tables.new }
    ensures standing { MapAgrees tables.new spaces.new }
    ensures others { OtherSlotsStay instance.entry.number tables.old.instances tables.new.instances }
    ensures newborn { HasNewborn instance.entry tables.new }
    ensures map { TakesOver instance.entry.number sharers spaces.old spaces.new }
    ensures stays { AreSameSpaces spaces.old spaces.new }
    ensures keeps { BeginsHistory M.law instance.entry own shared tables.old tables.new }
{
    let list = listed(&sharers);
    spaces.take_over(instance.number, &list);
    in_order(spaces);
    start(tables, instance, own, shared, sharers);
}

/// Starts an instance in an empty slot. A write-once record that a living instance shares gets no
/// block: the least of those that share it owns it. All other blocks that it needs are placed first, while the old ones of its group
/// stand, and it is called last. Or says the space of the first block that has no place; then nothing has happened.
pub fn start_in_spaces<M: Ialg>(
    tables: &mut Tables<M>,
    spaces: &mut Spaces,
    poison: Option<i16>,
    instance: NewInstance<'_, M>,
) -> Result<(), Space>
    requires number { instance.number < INSTANCES }
    requires group { instance.group < GROUPS }
    requires empty { slot_at tables.old.instances instance.number ≡ None }
    requires ok { AreConsistent tables.old }
    requires standing { MapAgrees tables.old spaces.old }
    requires poisoned { ArePoisoned poison tables.old.groups }
    ensures ok { AreConsistent tables.new }
    ensures standing { MapAgrees tables.new spaces.new }
    ensures poisoned { ArePoisoned poison tables.new.groups }
    ensures exact { MapIsCreated M.law instance.entry tables.old spaces.old spaces.new result }
    ensures refused { OnErr result ((tables.new ≡ tables.old) × (spaces.new ≡ spaces.old)) }
    ensures stays { AreSameSpaces spaces.old spaces.new }
    ensures others { OnOk result (OtherSlotsSame instance.entry.number tables.old.instances tables.new.instances) }
    ensures newborn { OnOk result (HasNewborn instance.entry tables.new) }
    ensures activity { OnOk result (ActivityIsGrown instance.entry tables.old spaces.old tables.new) }
    ensures keeps { OnOk result (BeginsHistoryIn M.law poison instance.entry tables.old tables.new) }
{
    maps_have_room::<M>();
    blocks_are_few();
    creations();
    // a table is valid, as its records say
    let _records = instance.table.records();
    let sharers = find_sharers(
        &tables.instances,
        instance.kind,
        instance.params,
        &instance.table,
    );
    let list = listed(&sharers);
    let i = instance.number;
    let g = instance.group;
    let placed = match place(spaces, i, g, &instance.table, &list, &tables.groups, poison) {
        Ok(placed) => placed,
        Err(space) => return Err(space),
    };
    let Placement {
        own,
        shared,
        blocks,
    } = placed;
    grow(tables, spaces, poison, g, blocks);
    begin(tables, spaces, instance, own, shared, sharers);
    Ok(())
}
