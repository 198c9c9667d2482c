//! A creation, as the machine's.
ghost use Rattle.std.specs.Prelude.{◌≡◌, ◌<◌, ℤ, length, Option, Some, OnErr, is_some};
ghost use Rattle.ialg.specs.Calls.{AsksWithoutBases};
ghost use Rattle.host_table.specs.Table.{slot_at, ArePoisoned};
ghost use Rattle.host_spec.specs.Choices.{MayAsk};
ghost use Rattle.host_spec.specs.Calls.Call.{Create};
ghost use Rattle.host_table.specs.Steps.{AreConsistent};
ghost use Rattle.host_moves.specs.Standing.{MapAgrees};
ghost use Rattle.host_instances.specs.Calls.{MachineDoes};

use crate::starting::start_in_spaces;
use host_spaces::Spaces;
use host_spec::creations_answer_in_order;
use host_table::{NewInstance, Tables};
use ialg::{Ialg, Params, Refusal};
use mem_rec::{GROUPS, INSTANCES, MemTab};

/// The memory that the kind asks for with these parameters, None where it refuses them.
fn asked_for<M: Ialg>(kind: M, p: &Params) -> Option<MemTab>
    ensures allowed { (w : Option ℤ) → MayAsk M.law.meaning w kind p.now.items result }
    ensures unplaced { AsksWithoutBases M.law.meaning kind p.now.items result }
{
    let asked = kind.alg_alloc(p);
    if let Some(table) = &asked {
        // a table is valid, as its records say
        let _records = table.records();
    }
    asked
}

/// Creates instance `i` of this kind in the group, or refuses it, as the machine does: a number out of range, one that is taken,
/// parameters that the kind refuses, or the space of the first block that has no place. A refused creation changes nothing. The kind is
/// asked for its memory first, also where a number is refused then: only its answer says what it may ask for. All places are found before
/// any instance is called, and the new one is called last.
pub fn create<M: Ialg>(
    tables: &mut Tables<M>,
    spaces: &mut Spaces,
    poison: Option<i16>,
    i: u8,
    kind: M,
    group: u8,
    p: &Params,
) -> Result<(), Refusal>
    requires ok { AreConsistent tables.old }
    requires standing { MapAgrees tables.old spaces.old }
    requires poisoned { ArePoisoned poison tables.old.groups }
    ensures ok { AreConsistent tables.new }
    ensures standing { MapAgrees tables.new spaces.new }
    ensures poisoned { ArePoisoned poison tables.new.groups }
    ensures refused { OnErr result ((tables.new ≡ tables.old) × (spaces.new ≡ spaces.old)) }
    ensures machine { MachineDoes M.law poison (Create i kind group p.now.items result) tables.old spaces.old tables.new spaces.new }
{
    creations_answer_in_order::<M>();
    let asked = asked_for(kind, p);
    if usize::from(i) >= INSTANCES || group >= GROUPS {
        return Err(Refusal::Range);
    }
    if tables.lives(i) {
        return Err(Refusal::Taken);
    }
    let Some(table) = asked else {
        return Err(Refusal::Params);
    };
    let instance = NewInstance {
        number: i,
        group,
        kind,
        params: p,
        table,
    };
    match start_in_spaces(tables, spaces, poison, instance) {
        Ok(()) => Ok(()),
        Err(space) => Err(Refusal::Room(space)),
    }
}
