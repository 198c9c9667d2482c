//! algMoved: instances follow their records to where these lie now.
ghost use Rattle.std.specs.Prelude.{◌≡◌, ◌+◌, ◌<◌, IsSome};
ghost use Rattle.mem_rec.specs.declared.TheConstants.{TABLE_RECORDS, INSTANCES};
ghost use Rattle.ialg.specs.Log.Called.{Moved};
ghost use Rattle.host_table.specs.Table.{slot_at, SameActivities};
ghost use Rattle.host_shared.specs.Locations.{owner_of};
ghost use Rattle.host_shared.specs.Sharing.{AreLeast};
ghost use Rattle.host_table.specs.Steps.{AreConsistent, AllLogsGo, MembersStay, called_at};
ghost use Rattle.host_table.specs.Frames.{InactiveGroupsStay};
ghost use Rattle.host_moves.specs.Moves.{told_where};
ghost use Rattle.host_moves.specs.Waiting.{holds_with, restored_at, AreConsistentBut, AreThere, CanComeBack, SharersWait, SharersWaitFrom, SlotHasRoom, WaitsNoLonger};

use host_shared::next_with_owner;
use host_table::Tables;
use ialg::Ialg;
use lifecycle::Inst;
use mem_rec::INSTANCES;
use space_raw::Piece;

/// Calls algMoved of an instance, with its own piece that was taken out, if one was. It stays in its state.
#[inline(always)]
pub fn tell<M: Ialg>(tables: &mut Tables<M>, i: u8, back: Option<(usize, Piece)>)
    requires number { i < INSTANCES }
    requires living { IsSome (slot_at tables.old.instances i) }
    requires back { CanComeBack i back tables.old }
    requires there { AreThere tables.old }
    requires room { SlotHasRoom i back tables.old }
    ensures ok { AreConsistentBut i tables.old → AreConsistent tables.new }
    ensures waiting { WaitsNoLonger i tables.old tables.new }
    ensures inactive { InactiveGroupsStay tables.old.groups tables.new.groups }
    ensures same { MembersStay (restored_at tables.old i back) tables.new }
    ensures activity { SameActivities tables.old.groups tables.new.groups }
    ensures keeps { AllLogsGo M.law (restored_at tables.old i back) tables.new (called_at i Moved) }
{
    match &mut tables.instances[i as usize] {
        Some(member) => {
            let g = member.group as usize;
            match &mut member.inst {
                Inst::Idling(idle) => {
                    idle.moved(back, &mut tables.sharing, i as usize, &tables.groups[g]);
                }
                Inst::Running(active) => {
                    let group = &mut tables.groups[g];
                    active.moved(back, &mut tables.sharing, i as usize, group);
                }
            }
        }
        None => unreachable!(),
    }
}

/// Calls algMoved of instance `j`, which shares record `k` with its owner `i` or is the owner.
#[inline(always)]
fn call_moved_of_sharer<M: Ialg>(tables: &mut Tables<M>, i: u8, k: usize, j: u8)
    requires number { j < INSTANCES }
    requires record { k < TABLE_RECORDS }
    requires shares { owner_of tables.old.sharing j k ≡ i }
    requires waiting { SharersWaitFrom j i k tables.old }
    ensures waiting { SharersWaitFrom (j + 1) i k tables.new }
    ensures inactive { InactiveGroupsStay tables.old.groups tables.new.groups }
    ensures same { MembersStay tables.old tables.new }
    ensures activity { SameActivities tables.old.groups tables.new.groups }
    ensures keeps { AllLogsGo M.law tables.old tables.new (called_at j Moved) }
{
    if tables.lives(j) {
        tell(tables, j, None);
    }
}

/// Calls algMoved of the owner `i` of a write-once record and of each instance that shares it, in ascending number. The owner has the least
/// number.
pub fn call_moved_of_sharers<M: Ialg>(tables: &mut Tables<M>, i: u8, k: usize)
    requires number { i < INSTANCES }
    requires least { AreLeast tables.old.sharing }
    requires record { k < TABLE_RECORDS }
    requires owner { owner_of tables.old.sharing i k ≡ i }
    requires waiting { SharersWait i k tables.old }
    ensures ok { AreConsistent tables.new }
    ensures inactive { InactiveGroupsStay tables.old.groups tables.new.groups }
    ensures same { MembersStay tables.old tables.new }
    ensures activity { SameActivities tables.old.groups tables.new.groups }
    ensures keeps { AllLogsGo M.law tables.old tables.new (told_where (holds_with tables.old.sharing i k)) }
{
    call_moved_of_sharer(tables, i, k, i);
    let mut j = next_with_owner(&tables.sharing, i, k, i as usize + 1);
    while j < INSTANCES {
        call_moved_of_sharer(tables, i, k, j as u8);
        j = next_with_owner(&tables.sharing, i, k, j + 1);
    }
}
