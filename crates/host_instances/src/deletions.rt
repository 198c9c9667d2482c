//! Deletions, as the machine's.
ghost use Rattle.std.specs.Prelude.{◌≡◌, ◌<◌, length, None, OnErr, is_some};
ghost use Rattle.host_table.specs.Table.{slot_at, ArePoisoned};
ghost use Rattle.host_spec.specs.Calls.Call.{Delete};
ghost use Rattle.host_moves.specs.Standing.{MapAgrees};
ghost use Rattle.host_table.specs.Steps.{AreConsistent};
ghost use Rattle.host_instances.specs.Calls.{MachineDoes};
ghost use Rattle.host_instances.specs.Ends.{OtherSlotsSame};

use crate::ends::end_instance;
use host_spaces::Spaces;
use host_table::Tables;
use ialg::{Ialg, Refusal};
use mem_rec::INSTANCES;

/// Deletes an instance, as the machine does: its records go, and its group's blocks where no other member is left. It is active no more,
/// where it was. A number out of range and an instance that isn't there are refused, and a refused call changes nothing.
pub fn delete<M: Ialg>(
    tables: &mut Tables<M>,
    spaces: &mut Spaces,
    poison: Option<i16>,
    i: u8,
) -> Result<(), Refusal>
    requires ok { AreConsistent tables.old }
    requires standing { MapAgrees tables.old spaces.old }
    requires poisoned { ArePoisoned poison tables.old.groups }
    ensures ok { AreConsistent tables.new }
    ensures standing { MapAgrees tables.new spaces.new }
    ensures poisoned { ArePoisoned poison tables.new.groups }
    ensures gone { slot_at tables.new.instances i ≡ None }
    ensures others { OtherSlotsSame i tables.old.instances tables.new.instances }
    ensures refused { OnErr result ((tables.new ≡ tables.old) × (spaces.new ≡ spaces.old)) }
    ensures machine { MachineDoes M.law poison (Delete i result) tables.old spaces.old tables.new spaces.new }
{
    if usize::from(i) >= INSTANCES {
        return Err(Refusal::Range);
    }
    if !tables.lives(i) {
        return Err(Refusal::Missing);
    }
    end_instance(tables, spaces, poison, i);
    Ok(())
}
