//! The tables of a host as one value.
ghost use Rattle.std.specs.Prelude.{◌≡◌, IsSome, is_some};
ghost use Rattle.host_table.specs.Table.{group_of, slot_at};

use crate::member::Member;
use host_shared::Locations;
use ialg::Ialg;
use scratch_group::Group;
use std::marker::Model;

/// The tables of a host: the instances by their numbers, where their write-once records are, and the groups.
pub struct Tables<M> {
    pub instances: Vec<Option<Member<M>>>,
    pub sharing: Vec<Locations>,
    pub groups: Vec<Group>,
}

impl<M> Model for Tables<M> {
    ghost use Rattle.host_table.specs.View.{View};

    ghost Value = { View M };

    ghost view = { λ t. record { instances = t.instances.items; sharing = t.sharing.items; groups = t.groups.items } };
}

impl<M: Ialg> Tables<M> {
    /// Whether an instance has the number.
    pub fn lives(&self, i: u8) -> bool
        ensures { result ≡ is_some (slot_at self.now.instances i) }
    {
        match self.instances.get(i as usize) {
            Some(Some(_)) => true,
            _ => false,
        }
    }

    /// The number of an instance's group.
    pub fn group_number(&self, i: u8) -> u8
        requires { IsSome (slot_at self.now.instances i) }
        ensures { result ≡ group_of (slot_at self.now.instances i) }
    {
        match &self.instances[i as usize] {
            Some(member) => member.group,
            None => unreachable!(),
        }
    }
}
