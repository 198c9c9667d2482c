//! The members of groups.
ghost use Rattle.std.specs.Prelude.{◌≡◌, ◌<◌, ℕ, length, IsSome};
ghost use Rattle.mem_rec.specs.declared.TheConstants.{INSTANCES};
ghost use Rattle.host_table.specs.Table.{slot_at, is_member_of};
ghost use Rattle.host_instances.specs.Ends.{has_members};
ghost use Rattle.host_instances.specs.Leaving.{AreSpacesOfRecords};

use host_spaces::record_spaces;
use host_table::Member;
use ialg::Ialg;
use lifecycle::Inst;
use mem_rec::{INSTANCES, Space, TABLE_RECORDS};

/// The spaces of an instance's records.
pub(crate) fn spaces_of_records<M: Ialg>(
    instances: &Vec<Option<Member<M>>>,
    i: u8,
) -> [Space; TABLE_RECORDS]
    requires { IsSome (slot_at instances.now.items i) }
    ensures { AreSpacesOfRecords instances.now.items i result }
{
    match &instances[i as usize] {
        Some(member) => match &member.inst {
            Inst::Idling(idle) => record_spaces(idle.instance.table.table()),
            Inst::Running(active) => record_spaces(active.instance.table.table()),
        },
        None => unreachable!(),
    }
}

/// Whether the slot has a member of the group.
fn is_member<M: Ialg>(instances: &Vec<Option<Member<M>>>, g: u8, i: usize) -> bool
    requires { i < length instances.now.items }
    ensures { result ≡ is_member_of g (slot_at instances.now.items i) }
{
    match &instances[i] {
        Some(member) => member.group == g,
        None => false,
    }
}

/// Whether the group has a member.
pub(crate) fn members_left<M: Ialg>(instances: &Vec<Option<Member<M>>>, g: u8) -> bool
    requires { length instances.now.items ≡ INSTANCES }
    ensures { result ≡ has_members instances.now.items g }
{
    for i in 0..INSTANCES {
        if is_member(instances, g, i) {
            return true;
        }
    }
    false
}
