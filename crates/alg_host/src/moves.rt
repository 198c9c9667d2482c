//! Where the blocks stand, and how they are moved together.
ghost use Rattle.std.specs.Prelude.{◌≡◌, ◌≤◌, length};
ghost use Rattle.host_spec.specs.Calls.Call.{Step, Compact, Map as MapCall, Copied};
ghost use Rattle.alg_host.specs.Hosts.{HostCallRefines};
ghost use Rattle.host_map.specs.declared.TheConstants.{MAP_BLOCKS};

use crate::Host;
use host_map::{Map, Placed};
use host_moves::maps_have_room;
use ialg::Ialg;
use mem_rec::Space;

impl<M: Ialg> Host<M> {
    /// Moves the first block of the space that doesn't stand at the least place behind the block before it to that place, with its
    /// words, and says whether a block moved. The instances that have records in it are told; an active one stays active.
    pub fn step(&mut self, space: Space) -> bool
        ensures machine { HostCallRefines M.law (Step space result) self.old self.new }
    {
        host_moves::step(&mut self.tables, &mut self.spaces, space)
    }

    /// Steps until no block of the space moves, and says how many blocks moved; each moves once.
    pub fn compact(&mut self, space: Space) -> u32
        ensures machine { HostCallRefines M.law (Compact space result) self.old self.new }
    {
        host_moves::compact(&mut self.tables, &mut self.spaces, space)
    }

    /// The blocks of the space in place order: whose each is, where it stands, its size and its alignment in words.
    pub fn map(&self, space: Space) -> Map
        ensures machine { HostCallRefines M.law (MapCall space result.items) self.now self.now }
    {
        maps_have_room::<M>();
        self.spaces.map(space)
    }

    /// The same blocks, lent as they stand.
    pub fn blocks_in(&self, space: Space) -> &[Placed]
        ensures machine { HostCallRefines M.law (MapCall space result.now) self.now self.now }
        ensures few { length result.now ≤ MAP_BLOCKS }
    {
        maps_have_room::<M>();
        self.spaces.blocks(space)
    }

    /// The words that moves have copied, each time that they did. It stays at the greatest `u64`.
    pub fn copied(&self) -> u64
        ensures machine { HostCallRefines M.law (Copied result) self.now self.now }
    {
        self.spaces.copied()
    }
}
