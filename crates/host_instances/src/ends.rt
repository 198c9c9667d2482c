//! The end of an instance.
ghost use Rattle.std.specs.Prelude.{IsSome};
ghost use Rattle.host_table.specs.Table.{slot_at, ArePoisoned};
ghost use Rattle.host_instances.specs.Ends.{InstanceHasEnded};
ghost use Rattle.host_table.specs.Steps.{AreConsistent};
ghost use Rattle.host_moves.specs.Standing.{MapAgrees};

use crate::leaving::{give_blocks, give_records};
use crate::members::members_left;
use host_spaces::Spaces;
use host_table::Tables;
use ialg::Ialg;

/// Ends an instance. Its records are given back, and its group's blocks where no other member is left. An active one is deactivated
/// first, and the blocks are filled with the poison word, if there is one.
pub fn end_instance<M: Ialg>(
    tables: &mut Tables<M>,
    spaces: &mut Spaces,
    poison: Option<i16>,
    i: u8,
)
    requires living { IsSome (slot_at tables.old.instances i) }
    requires ok { AreConsistent tables.old }
    requires standing { MapAgrees tables.old spaces.old }
    requires poisoned { ArePoisoned poison tables.old.groups }
    ensures { InstanceHasEnded M.law poison i tables.old spaces.old tables.new spaces.new }
{
    let g = tables.group_number(i);
    give_records(tables, spaces, poison, i);
    if !members_left(&tables.instances, g) {
        give_blocks(
            &tables.instances,
            &tables.sharing,
            &mut tables.groups,
            spaces,
            g,
        );
    }
}
