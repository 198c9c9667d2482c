//! What a new instance needs.
ghost use Rattle.std.specs.Prelude.{◌≡◌, IfSome};
ghost use Rattle.ialg.specs.Records.{record_at};
ghost use Rattle.host_map.specs.Creation.{record_wanted, sharer_at};
ghost use Rattle.host_spaces.specs.MemoryMap.{map_of};
ghost use Rattle.host_spaces.specs.Pieces.{HasBlocks};
ghost use Rattle.host_spaces.specs.Wants.{AllAreWithinLimits, IsWithinLimits, block_need, need_wanted, wants_of};

use crate::spaces::Spaces;
use host_map::{Owner, Wanted};
use mem_rec::{Attr, LEAST_ALIGNMENT, MemTab, Space, TABLE_RECORDS};
use scratch_group::Group;

/// For each record the least other instance that shares it, its sharer.
pub type Sharers = [Option<u8>; TABLE_RECORDS];

// What a creation can need: four records and a block in each space.
pub(crate) const WANTS: usize = 7;

/// What record `k` of instance `i` needs, where this other instance shares it, or none.
pub(crate) fn wanted_record(i: u8, k: u8, table: &MemTab, sharer: Option<u8>) -> Option<Wanted>
    ensures value { result ≡ record_wanted (λ _. sharer) i k (record_at table.now k) }
    ensures limits { IfSome result IsWithinLimits }
{
    let records = table.records();
    if k as usize >= records.len() {
        return None;
    }
    let record = records[k as usize];
    if record.attr == Attr::Scratch || sharer.is_some() {
        return None;
    }
    Some(Wanted {
        space: record.space,
        owner: Owner::Record(i, k),
        size: record.size.next_multiple_of(LEAST_ALIGNMENT),
        align: record.align,
    })
}

/// What group `g`, which has these blocks in the spaces, needs in a space for a member with this table.
pub(crate) fn wanted_block(
    spaces: &Spaces,
    g: u8,
    table: &MemTab,
    old: &Group,
    space: Space,
) -> Option<Wanted>
    requires blocks { HasBlocks (map_of spaces.now) g old.now }
    ensures value { result ≡ need_wanted g space (block_need table.now old.now space) }
    ensures limits { IfSome result IsWithinLimits }
{
    // its records are within the limits, and so are the blocks of the space
    let _records = table.records();
    let _blocks = spaces.blocks(space);
    let need = old.need(table, space)?;
    Some(Wanted {
        space,
        owner: Owner::Scratch(g),
        size: need.size,
        align: need.align,
    })
}

/// All that an instance with this table needs, in the order in which it is placed.
pub(crate) fn wants(
    spaces: &Spaces,
    i: u8,
    g: u8,
    table: &MemTab,
    sharers: &Sharers,
    old: &Group,
) -> [Option<Wanted>; WANTS]
    requires blocks { HasBlocks (map_of spaces.now) g old.now }
    ensures value { result ≡ wants_of (sharer_at sharers.now) i g table.now old.now }
    ensures limits { AllAreWithinLimits result }
{
    [
        wanted_record(i, 0, table, sharers[0]),
        wanted_record(i, 1, table, sharers[1]),
        wanted_record(i, 2, table, sharers[2]),
        wanted_record(i, 3, table, sharers[3]),
        wanted_block(spaces, g, table, old, Space::Daram),
        wanted_block(spaces, g, table, old, Space::Saram),
        wanted_block(spaces, g, table, old, Space::External),
    ]
}
