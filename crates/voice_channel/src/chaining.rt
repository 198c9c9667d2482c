//! How channels get members and lose them.
ghost use Rattle.std.specs.Prelude.{◌≡◌, ◌<◌, ◌≤◌, OnErr, IfNone, length, set};
ghost use Rattle.std.specs.List.{list_all, list_any};
ghost use Rattle.alg_host.specs.Hosts.{lives};
ghost use Rattle.channel_spec.specs.Channels.{Channels as State, is_in_channel};
ghost use Rattle.channel_spec.specs.Parts.{all_live, chain_refusal};
ghost use Rattle.channel_spec.specs.Calls.Call.{Chain, Unchain, Remove};
ghost use Rattle.voice_channel.specs.Channels.{ChannelsCallRefines};

use crate::lists::{are_numbers, is_in_one, kept, names_twice};
use crate::{Channels, MEMBERS, Members};
use ialg::{Ialg, Refusal};
use mem_rec::INSTANCES;

impl<M: Ialg> Channels<M> {
    /// Whether an instance is a member of a channel.
    fn is_member(&self, i: u8) -> bool
        ensures { result ≡ is_in_channel self.now.chained i }
    {
        is_in_one(&self.channels, i)
    }

    /// Whether each of them lives.
    fn all_live(&self, members: &[u8]) -> bool
        ensures { result ≡ list_all (lives self.now.host) members.now }
    {
        let host = &self.host;
        members.iter().all(|i| host.living(*i))
    }

    /// Whether one of them is a member of a channel.
    fn has_member(&self, members: &[u8]) -> bool
        ensures { result ≡ list_any (is_in_channel self.now.chained) members.now }
    {
        members.iter().any(|i| self.is_member(*i))
    }

    /// Why a channel can't be given these members.
    fn chaining_refusal(&self, c: u8, members: &[u8]) -> Option<Refusal>
        ensures refusal { (state : State M) → state.chained ≡ self.now.chained
            → all_live state.host members.now ≡ list_all (lives self.now.host) members.now → chain_refusal state c members.now ≡ result }
        ensures number { IfNone result (c < length self.now.chained) }
    {
        if c as usize >= self.channels.len() || !are_numbers(members) {
            return Some(Refusal::Range);
        }
        if !self.channels[c as usize].is_empty() {
            return Some(Refusal::Taken);
        }
        if !self.all_live(members) {
            return Some(Refusal::Missing);
        }
        if self.has_member(members) || names_twice(members) {
            return Some(Refusal::Busy);
        }
        None
    }

    /// Gives a channel these members.
    fn set_members(&mut self, c: u8, members: Members)
        requires number { c < length self.old.chained }
        ensures host { self.new.host ≡ self.old.host }
        ensures chained { self.new.chained ≡ set self.old.chained c members.items }
    {
        self.channels[c as usize] = members;
    }

    /// Gives a channel members: instances that live, each in no other channel. A block that the channel is fed passes through them in
    /// this order.
    ///
    /// # Errors
    ///
    /// `Range` where the number isn't below the number of channels or a member's is past the last instance's, `Taken` where the channel
    /// has members, `Missing` where no instance has a member's number, and `Busy` where a member is in a channel or is named twice. A
    /// refused call changes nothing.
    pub fn chain(&mut self, c: u8, members: &[u8]) -> Result<(), Refusal>
        requires least { 1 ≤ length members.now }
        requires most { length members.now ≤ MEMBERS }
        ensures refused { OnErr result (self.new ≡ self.old) }
        ensures count { length self.new.chained ≡ length self.old.chained }
        ensures machine { ChannelsCallRefines M.law (Chain c members.now result) self.old self.new }
    {
        if let Some(refusal) = self.chaining_refusal(c, members) {
            return Err(refusal);
        }
        self.set_members(c, kept(members));
        Ok(())
    }

    /// Takes its members from a channel. They live on.
    ///
    /// # Errors
    ///
    /// `Range` where the number isn't below the number of channels, and `Missing` where the channel has no members. A refused call
    /// changes nothing.
    pub fn unchain(&mut self, c: u8) -> Result<(), Refusal>
        ensures refused { OnErr result (self.new ≡ self.old) }
        ensures count { length self.new.chained ≡ length self.old.chained }
        ensures machine { ChannelsCallRefines M.law (Unchain c result) self.old self.new }
    {
        if let Some(refusal) = self.refusal(c) {
            return Err(refusal);
        }
        self.set_members(c, Members::new());
        Ok(())
    }

    /// Deletes instance `i`, as [`Host::delete`](alg_host::Host::delete) does.
    ///
    /// # Errors
    ///
    /// `Range` and `Missing` as the host's, then `Busy` where the instance is in a channel. A refused call changes nothing.
    pub fn delete(&mut self, i: u8) -> Result<(), Refusal>
        ensures refused { OnErr result (self.new ≡ self.old) }
        ensures chained { self.new.chained ≡ self.old.chained }
        ensures machine { ChannelsCallRefines M.law (Remove i result) self.old self.new }
    {
        if i as usize >= INSTANCES {
            return Err(Refusal::Range);
        }
        if !self.host.living(i) {
            return Err(Refusal::Missing);
        }
        if self.is_member(i) {
            return Err(Refusal::Busy);
        }
        self.host.delete(i)
    }
}
