//! What becomes of instances when a block of their group lies elsewhere.
ghost use Rattle.std.specs.Prelude.{◌≡◌, ◌<◌, ◌+◌, length, true};
ghost use Rattle.mem_rec.specs.declared.TheConstants.{INSTANCES, GROUPS};
ghost use Rattle.ialg.specs.Log.Called.{Moved};
ghost use Rattle.host_table.specs.Table.{slot_at, is_member_of, SameActivities};
ghost use Rattle.host_table.specs.Frames.{InactiveGroupsStay};
ghost use Rattle.host_table.specs.Steps.{AreConsistent, AllLogsGo, MembersAreTold, MembersStay, called_at, told_at, told_below};

use crate::Tables;
use ialg::Ialg;
use lifecycle::Inst;
use mem_rec::INSTANCES;

/// Whether the slot has a member of the group.
fn is_member<M: Ialg>(tables: &Tables<M>, g: u8, i: usize) -> bool
    requires { i < length tables.now.instances }
    ensures { result ≡ is_member_of g (slot_at tables.now.instances i) }
{
    match &tables.instances[i] {
        Some(member) => member.group == g,
        None => false,
    }
}

/// Tells a member of the group where its records lie now.
fn call_moved_of_member<M: Ialg>(tables: &mut Tables<M>, g: u8, i: usize)
    requires range { g < GROUPS }
    requires number { i < INSTANCES }
    requires member { is_member_of g (slot_at tables.old.instances i) ≡ true }
    requires told { MembersAreTold g i tables.old }
    ensures told { MembersAreTold g (i + 1) tables.new }
    ensures inactive { InactiveGroupsStay tables.old.groups tables.new.groups }
    ensures same { MembersStay tables.old tables.new }
    ensures activity { SameActivities tables.old.groups tables.new.groups }
    ensures keeps { AllLogsGo M.law tables.old tables.new (called_at i Moved) }
{
    match &mut tables.instances[i] {
        Some(member) => match &mut member.inst {
            Inst::Idling(idle) => {
                idle.moved(None, &mut tables.sharing, i, &tables.groups[g as usize]);
            }
            Inst::Running(active) => {
                active.moved(None, &mut tables.sharing, i, &mut tables.groups[g as usize]);
            }
        },
        None => unreachable!(),
    }
}

/// Tells the instance in the slot where its records lie now, if it is a member of the group.
fn call_moved_in_slot<M: Ialg>(tables: &mut Tables<M>, g: u8, i: usize)
    requires range { g < GROUPS }
    requires number { i < INSTANCES }
    requires told { MembersAreTold g i tables.old }
    ensures told { MembersAreTold g (i + 1) tables.new }
    ensures inactive { InactiveGroupsStay tables.old.groups tables.new.groups }
    ensures same { MembersStay tables.old tables.new }
    ensures activity { SameActivities tables.old.groups tables.new.groups }
    ensures keeps { AllLogsGo M.law tables.old tables.new (told_at g i tables.old) }
{
    if is_member(tables, g, i) {
        call_moved_of_member(tables, g, i);
    }
}

/// Tells each member of the group, in ascending number, where its records lie now. An active member stays active.
pub fn call_moved_in_group<M: Ialg>(tables: &mut Tables<M>, g: u8)
    requires range { g < GROUPS }
    requires told { MembersAreTold g 0 tables.old }
    ensures ok { AreConsistent tables.new }
    ensures inactive { InactiveGroupsStay tables.old.groups tables.new.groups }
    ensures same { MembersStay tables.old tables.new }
    ensures activity { SameActivities tables.old.groups tables.new.groups }
    ensures keeps { AllLogsGo M.law tables.old tables.new (told_below g INSTANCES tables.old) }
{
    for i in 0..INSTANCES {
        call_moved_in_slot(tables, g, i);
    }
}
