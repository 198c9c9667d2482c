//! The end of all instances.
ghost use Rattle.std.specs.Prelude.{◌≡◌};
ghost use Rattle.host_table.specs.Table.{ArePoisoned, NoneLives};
ghost use Rattle.host_map.specs.MemoryMap.{empty_map};
ghost use Rattle.host_spaces.specs.MemoryMap.{map_of};
ghost use Rattle.host_table.specs.Steps.{AreConsistent};
ghost use Rattle.host_moves.specs.Standing.{MapAgrees};
ghost use Rattle.host_instances.specs.Calls.{MachineCloses};

use crate::deletions::delete;
use host_spaces::Spaces;
use host_table::{Tables, end_tables};
use ialg::Ialg;
use mem_rec::INSTANCES;

/// Deletes all instances, in ascending number, as the machine does. No block is left in the spaces.
fn delete_all<M: Ialg>(tables: &mut Tables<M>, spaces: &mut Spaces, poison: Option<i16>)
    requires ok { AreConsistent tables.old }
    requires standing { MapAgrees tables.old spaces.old }
    requires poisoned { ArePoisoned poison tables.old.groups }
    ensures ok { AreConsistent tables.new }
    ensures standing { MapAgrees tables.new spaces.new }
    ensures poisoned { ArePoisoned poison tables.new.groups }
    ensures none { NoneLives tables.new.instances }
    ensures empty { map_of spaces.new ≡ empty_map }
    ensures machine { MachineCloses M.law poison tables.old spaces.old tables.new spaces.new }
{
    for i in 0..INSTANCES as u8 {
        let _answer = delete(tables, spaces, poison, i);
    }
}

/// Deletes all instances, in ascending number, and gives all memory back.
pub fn close<M: Ialg>(mut tables: Tables<M>, mut spaces: Spaces, poison: Option<i16>)
    requires ok { AreConsistent tables }
    requires standing { MapAgrees tables spaces }
    requires poisoned { ArePoisoned poison tables.groups }
{
    delete_all(&mut tables, &mut spaces, poison);
    end_tables(tables);
    spaces.close();
}
