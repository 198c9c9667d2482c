//! The calls of the host, which change no channel.
ghost use Rattle.std.specs.Prelude.{◌≡◌, ◌≤◌, length, OnErr};
ghost use Rattle.ialg.specs.Views.{control_of};
ghost use Rattle.host_spec.specs.Calls.Call.{Create, Control, Release, Step, Compact, Stat as StatCall, Map as MapCall, Copied};
ghost use Rattle.host_map.specs.declared.TheConstants.{MAP_BLOCKS};
ghost use Rattle.host_moves.specs.Refinement.{told};
ghost use Rattle.alg_host.specs.Hosts.{stat_told};
ghost use Rattle.channel_spec.specs.Calls.Call.{OfHost};
ghost use Rattle.voice_channel.specs.Channels.{ChannelsCallRefines};

use crate::Channels;
use alg_host::Stat;
use host_map::{Map, Placed};
use ialg::{Ctl, Ialg, Params, Refusal, Status};
use mem_rec::Space;

impl<M: Ialg> Channels<M> {
    /// Creates instance `i` of this kind in the group, as [`Host::create`](alg_host::Host::create) does.
    ///
    /// # Errors
    ///
    /// `Range`, `Taken`, `Params` and `Room`, as the host's. A refused call changes nothing.
    pub fn create(&mut self, i: u8, kind: M, group: u8, p: &Params) -> Result<(), Refusal>
        ensures refused { OnErr result (self.new ≡ self.old) }
        ensures chained { self.new.chained ≡ self.old.chained }
        ensures machine { ChannelsCallRefines M.law (OfHost (Create i kind group p.now.items result)) self.old self.new }
    {
        self.host.create(i, kind, group, p)
    }

    /// Gives instance `i` a control, whether it is in a channel or not.
    ///
    /// # Errors
    ///
    /// `Range`, `Missing` and `Command`, as the host's. A refused call changes nothing.
    pub fn control(&mut self, i: u8, c: &Ctl) -> Result<Status, Refusal>
        ensures refused { OnErr result (self.new ≡ self.old) }
        ensures chained { self.new.chained ≡ self.old.chained }
        ensures machine { ChannelsCallRefines M.law (OfHost (Control i (control_of c.now) (told result))) self.old self.new }
    {
        self.host.control(i, c)
    }

    /// Deactivates the active member of the group, and says whether there was one.
    ///
    /// # Errors
    ///
    /// `Range` where the number is past the last group's. Nothing has happened then.
    pub fn release(&mut self, group: u8) -> Result<bool, Refusal>
        ensures refused { OnErr result (self.new ≡ self.old) }
        ensures chained { self.new.chained ≡ self.old.chained }
        ensures machine { ChannelsCallRefines M.law (OfHost (Release group result)) self.old self.new }
    {
        self.host.release(group)
    }

    /// Moves the first block of the space that can be moved down, and says whether one moved.
    pub fn step(&mut self, space: Space) -> bool
        ensures chained { self.new.chained ≡ self.old.chained }
        ensures machine { ChannelsCallRefines M.law (OfHost (Step space result)) self.old self.new }
    {
        self.host.step(space)
    }

    /// Steps until no block of the space moves, and says how many blocks moved.
    pub fn compact(&mut self, space: Space) -> u32
        ensures chained { self.new.chained ≡ self.old.chained }
        ensures machine { ChannelsCallRefines M.law (OfHost (Compact space result)) self.old self.new }
    {
        self.host.compact(space)
    }

    /// The active member of the group and its count of activations.
    ///
    /// # Errors
    ///
    /// `Range` where the number is past the last group's.
    pub fn stat(&self, group: u8) -> Result<Stat, Refusal>
        ensures machine { ChannelsCallRefines M.law (OfHost (StatCall group (stat_told result))) self.now self.now }
    {
        self.host.stat(group)
    }

    /// The blocks of the space in place order.
    pub fn map(&self, space: Space) -> Map
        ensures machine { ChannelsCallRefines M.law (OfHost (MapCall space result.items)) self.now self.now }
    {
        self.host.map(space)
    }

    /// The same blocks, lent as they stand.
    pub fn blocks_in(&self, space: Space) -> &[Placed]
        ensures machine { ChannelsCallRefines M.law (OfHost (MapCall space result.now)) self.now self.now }
        ensures few { length result.now ≤ MAP_BLOCKS }
    {
        self.host.blocks_in(space)
    }

    /// The words that moves have copied. It stays at the greatest `u64`.
    pub fn copied(&self) -> u64
        ensures machine { ChannelsCallRefines M.law (OfHost (Copied result)) self.now self.now }
    {
        self.host.copied()
    }
}
