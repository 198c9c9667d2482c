//! Slots of the table of instances.
ghost use Rattle.std.specs.Prelude.{◌≡◌, IsSome};
ghost use Rattle.lifecycle.specs.declared.instance.Inst.TheVariants.{Idling, Running};
ghost use Rattle.host_table.specs.Table.{slot_at, slot_active_in, instance_of};
ghost use Rattle.host_table.specs.Turns.{IsMadeActive, IsMadeIdle};

use core::mem::replace_with;
use ialg::Ialg;
use lifecycle::Inst;

/// An instance, and the number of its group.
pub struct Member<M> {
    pub group: u8,
    pub inst: Inst<M>,
}

/// The instance as an idle one.
fn as_idle<M: Ialg>(inst: Inst<M>, _nothing: ()) -> (Inst<M>, ())
    ensures { result.0 ≡ Idling (record { instance = instance_of inst }) }
{
    match inst {
        Inst::Running(active) => (Inst::Idling(active.into_idle()), ()),
        Inst::Idling(idle) => (Inst::Idling(idle), ()),
    }
}

/// The instance as an active one.
fn as_active<M: Ialg>(inst: Inst<M>, _nothing: ()) -> (Inst<M>, ())
    ensures { result.0 ≡ Running (record { instance = instance_of inst }) }
{
    match inst {
        Inst::Idling(idle) => (Inst::Running(idle.into_active()), ()),
        Inst::Running(active) => (Inst::Running(active), ()),
    }
}

/// Makes the instance of a slot idle in place, without copying it.
pub(crate) fn make_idle<M: Ialg>(instances: &mut Vec<Option<Member<M>>>, i: u8)
    requires { IsSome (slot_at instances.old.items i) }
    ensures { IsMadeIdle i instances.old.items instances.new.items }
{
    match &mut instances[i as usize] {
        Some(member) => replace_with(&mut member.inst, (), as_idle),
        None => unreachable!(),
    }
}

/// Makes the instance of a slot active in place, without copying it.
pub(crate) fn make_active<M: Ialg>(instances: &mut Vec<Option<Member<M>>>, i: u8)
    requires { IsSome (slot_at instances.old.items i) }
    ensures { IsMadeActive i instances.old.items instances.new.items }
{
    match &mut instances[i as usize] {
        Some(member) => replace_with(&mut member.inst, (), as_active),
        None => unreachable!(),
    }
}

/// The group of an active instance, or None where the instance is idle.
pub(crate) fn active_group<M: Ialg>(instances: &Vec<Option<Member<M>>>, i: u8) -> Option<u8>
    requires { IsSome (slot_at instances.now.items i) }
    ensures { result ≡ slot_active_in (slot_at instances.now.items i) }
{
    match &instances[i as usize] {
        Some(member) => match &member.inst {
            Inst::Idling(_) => None,
            Inst::Running(_) => Some(member.group),
        },
        None => unreachable!(),
    }
}
