//! Calls that the tables of instances alone answer, as the specification does: controls, blocks of samples, groups.
ghost use Rattle.std.specs.Prelude.{◌≡◌, ◌≤◌, ◌<◌, [], length, IsSome, OnErr, is_some};
ghost use Rattle.ialg.specs.Views.{control_of};
ghost use Rattle.host_table.specs.Table.{slot_at};
ghost use Rattle.host_table.specs.Steps.{AreConsistent, Ready, Stays};
ghost use Rattle.host_spec.specs.State.{State};
ghost use Rattle.host_spec.specs.Calls.{Processes, Controls, Does};
ghost use Rattle.host_spec.specs.Calls.Call.{Release, Stat as StatCall};
ghost use Rattle.host_spec.specs.Steps.{processed};
ghost use Rattle.host_moves.specs.Refinement.{TablesRefine, told, stat_told};

use host_map::Stat;
use host_table::Tables;
use ialg::{BLOCK_SAMPLES, Block, Ctl, Ialg, Refusal, Status};
use mem_rec::{GROUPS, INSTANCES};

/// Gives the instance a block of samples, as the machine does.
pub fn give_block<M: Ialg>(
    tables: &mut Tables<M>,
    poison: Option<i16>,
    i: u8,
    input: &[i16],
    out: &mut Block,
)
    requires living { IsSome (slot_at tables.old.instances i) }
    requires ready { Ready poison tables.old }
    requires empty { out.old.items ≡ [] }
    requires some { 1 ≤ length input.now }
    requires within { length input.now ≤ BLOCK_SAMPLES }
    ensures stays { Stays poison tables.old tables.new }
    ensures bounded { length out.new.items ≤ length input.now }
    ensures machine { (before : State M) → before.poison ≡ poison
        → TablesRefine M.law tables.old before
        → Processes M.law.meaning before i input.now out.new.items (processed before i input.now)
        × TablesRefine M.law tables.new (processed before i input.now) }
{
    tables.process(poison, i, input, out);
}

/// Gives the instance a control, or refuses it, as the machine does: a number out of range, an instance that isn't there, a control
/// that it doesn't take. A refused control changes nothing.
pub fn give_control<M: Ialg>(
    tables: &mut Tables<M>,
    poison: Option<i16>,
    i: u8,
    c: &Ctl,
) -> Result<Status, Refusal>
    requires ready { Ready poison tables.old }
    ensures stays { Stays poison tables.old tables.new }
    ensures refused { OnErr result (tables.new ≡ tables.old) }
    ensures machine { (before : State M) → before.poison ≡ poison
        → TablesRefine M.law tables.old before
        → (after : State M) × Controls M.law.meaning before i (control_of c.now) (told result) after
        × TablesRefine M.law tables.new after }
{
    if usize::from(i) >= INSTANCES {
        return Err(Refusal::Range);
    }
    if !tables.lives(i) {
        return Err(Refusal::Missing);
    }
    match tables.control(poison, i, c) {
        Some(status) => Ok(status),
        None => Err(Refusal::Command),
    }
}

/// Deactivates the active member of the group, if there is one, and says whether there was one, as the machine does. A refused call
/// changes nothing.
pub fn deactivate_group<M: Ialg>(
    tables: &mut Tables<M>,
    poison: Option<i16>,
    g: u8,
) -> Result<bool, Refusal>
    requires ready { Ready poison tables.old }
    ensures stays { Stays poison tables.old tables.new }
    ensures refused { OnErr result (tables.new ≡ tables.old) }
    ensures machine { (before : State M) → before.poison ≡ poison
        → TablesRefine M.law tables.old before
        → (after : State M) × Does M.law.meaning before (Release g result) after
        × TablesRefine M.law tables.new after }
{
    if g >= GROUPS {
        return Err(Refusal::Range);
    }
    Ok(tables.deactivate_in(poison, g))
}

/// The active member of the group and its count of activations, as the machine has them.
pub fn stat<M: Ialg>(tables: &Tables<M>, g: u8) -> Result<Stat, Refusal>
    requires ready { AreConsistent tables.now }
    ensures machine { (before : State M) → TablesRefine M.law tables.now before
        → Does M.law.meaning before (StatCall g (stat_told result)) before }
{
    if g >= GROUPS {
        return Err(Refusal::Range);
    }
    let group = &tables.groups[g as usize];
    Ok(Stat {
        active: group.active(),
        activations: group.activations(),
    })
}
