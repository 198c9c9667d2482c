//! Places for all that a new instance needs.
ghost use Rattle.std.specs.Prelude.{◌≡◌, IfOk, OnOk, OnErr};
ghost use Rattle.host_spaces.specs.MemoryMap.{AreSameSpaces, map_of};
ghost use Rattle.host_map.specs.Creation.{sharer_at};
ghost use Rattle.host_spaces.specs.Pieces.{AreSharable, HasBlocks, IsPoisoned};
ghost use Rattle.host_spaces.specs.MapChanges.{AllButTheseStay, InstanceHasNone};
ghost use Rattle.host_spaces.specs.Placing.{AreNeeded, HasNew, HasPlacedPieces, HasPlacedRecords, HasRoomForInstance, PlacesInstance};

use crate::granted::Granted;
use crate::pieces::{Placement, as_placement};
use crate::placing::place_from;
use crate::spaces::Spaces;
use crate::wants::{Sharers, wants};
use mem_rec::{MemTab, Space};
use scratch_group::Group;

impl Spaces {
    /// Places all blocks that a new instance `i` with this table needs: its records that aren't scratch and have no sharer, in table order,
    /// and then the blocks that its group `g` needs for it in `daram`, `saram` and `external`, while the group's old blocks still stand. Or
    /// says the space of the first block that has no place; then nothing has happened. Where there is a poison word, it fills what was
    /// placed.
    pub fn place_instance(
        &mut self,
        i: u8,
        g: u8,
        table: &MemTab,
        sharers: &Sharers,
        old: &Group,
        poison: Option<i16>,
    ) -> Result<Placement, Space>
        requires blocks { HasBlocks (map_of self.old) g old.now }
        requires sharers { AreSharable table.now (sharer_at sharers.now) }
        requires records { InstanceHasNone i (map_of self.old) }
        requires room { HasRoomForInstance (map_of self.old) }
        ensures exact { PlacesInstance i g table.now (sharer_at sharers.now) self.old self.new result }
        ensures pieces { IfOk result (HasPlacedPieces self.old table.now (sharer_at sharers.now)) }
        ensures records { IfOk result (HasPlacedRecords (map_of self.new) i table.now) }
        ensures needed { IfOk result (λ made. AreNeeded self.old table.now old.now made.blocks) }
        ensures blocks { IfOk result (λ made. HasNew g made.blocks (map_of self.old) (map_of self.new)) }
        ensures others { OnOk result (AllButTheseStay g i (map_of self.old) (map_of self.new)) }
        ensures poison { IfOk result (IsPoisoned poison) }
        ensures refused { OnErr result (self.new ≡ self.old) }
        ensures stays { AreSameSpaces self.old self.new }
    {
        // it has four records at most
        let _records = table.records();
        let wants = wants(self, i, g, table, sharers, old);
        let mut granted = Granted::none();
        match place_from(self, &wants, 0, poison, &mut granted) {
            Ok(()) => {}
            Err(space) => {
                granted.end_none();
                return Err(space);
            }
        }
        Ok(as_placement(granted, table, &wants))
    }
}
