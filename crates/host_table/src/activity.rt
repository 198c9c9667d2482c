//! Which member of a group is active.
ghost use Rattle.std.specs.Prelude.{◌≡◌, ◌<◌, IsSome, IfSome, IfNone, OnSome, is_some};
ghost use Rattle.mem_rec.specs.declared.TheConstants.{GROUPS};
ghost use Rattle.host_table.specs.Table.{slot_at, group_at, group_of, IsActiveAt, IsIdleAt};
ghost use Rattle.host_table.specs.Steps.{Ready, Activates, Deactivates, DeactivatesIn};

use crate::member::{active_group, make_active, make_idle};
use crate::tables::Tables;
use ialg::Ialg;
use lifecycle::Inst;

impl<M: Ialg> Tables<M> {
    /// Deactivates the active member of a group, if there is one, and says whether there was one.
    ///
    /// Inlined, since members that take turns call it at each block.
    #[inline(always)]
    pub fn deactivate_in(&mut self, poison: Option<i16>, g: u8) -> bool
        requires range { g < GROUPS }
        requires ready { Ready poison self.old }
        ensures active { result ≡ is_some (group_at self.old.groups g).active }
        ensures step { DeactivatesIn M.law poison g self.old self.new }
    {
        let Some(i) = self.groups[g as usize].active() else {
            return false;
        };
        match &mut self.instances[i as usize] {
            Some(member) => match &mut member.inst {
                Inst::Running(active) => {
                    active.deactivate(&mut self.sharing, i, &mut self.groups[g as usize], poison);
                    make_idle(&mut self.instances, i);
                    true
                }
                Inst::Idling(_) => unreachable!(),
            },
            None => unreachable!(),
        }
    }

    /// Deactivates the active member of a group, as [`deactivate_in`](Tables::deactivate_in) does. It is a call of its own, for those that
    /// hardly ever come to it: a creation and a deletion.
    #[inline(never)]
    pub fn deactivate_by_call(&mut self, poison: Option<i16>, g: u8) -> bool
        requires range { g < GROUPS }
        requires ready { Ready poison self.old }
        ensures active { result ≡ is_some (group_at self.old.groups g).active }
        ensures step { DeactivatesIn M.law poison g self.old self.new }
    {
        self.deactivate_in(poison, g)
    }

    /// The group of an idle instance, or None where the instance is active.
    #[inline(always)]
    pub(crate) fn idle_in(&self, i: u8) -> Option<u8>
        requires { IsSome (slot_at self.now.instances i) }
        ensures active { IfNone result (IsActiveAt self.now.instances i) }
        ensures group { IfSome result (λ g. g ≡ group_of (slot_at self.now.instances i)) }
        ensures idle { OnSome result (IsIdleAt self.now.instances i) }
    {
        match &self.instances[i as usize] {
            Some(member) => match &member.inst {
                Inst::Idling(_) => Some(member.group),
                Inst::Running(_) => None,
            },
            None => unreachable!(),
        }
    }

    /// Activates the instance, unless it is active; another active member of its group is deactivated first.
    pub fn activate(&mut self, poison: Option<i16>, i: u8)
        requires living { IsSome (slot_at self.old.instances i) }
        requires ready { Ready poison self.old }
        ensures active { IsActiveAt self.new.instances i }
        ensures step { Activates M.law poison i self.old self.new }
    {
        let Some(g) = self.idle_in(i) else {
            return;
        };
        let _deactivated = self.deactivate_in(poison, g);
        match &mut self.instances[i as usize] {
            Some(member) => match &mut member.inst {
                Inst::Idling(idle) => {
                    idle.activate(&mut self.sharing, i, &mut self.groups[g as usize]);
                    make_active(&mut self.instances, i);
                }
                Inst::Running(_) => unreachable!(),
            },
            None => unreachable!(),
        }
    }

    /// Deactivates the instance, if it is active.
    pub fn deactivate(&mut self, poison: Option<i16>, i: u8)
        requires living { IsSome (slot_at self.old.instances i) }
        requires ready { Ready poison self.old }
        ensures idle { IsIdleAt self.new.instances i }
        ensures step { Deactivates M.law poison i self.old self.new }
    {
        let active = active_group(&self.instances, i);
        if let Some(g) = active {
            let _was_active = self.deactivate_by_call(poison, g);
        }
    }
}
