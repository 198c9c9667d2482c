//! The life of an instance whose levels lie in a piece that is lent to it.
ghost use Rattle.std.specs.Prelude.{◌≡◌, ◌<◌, ◌≤◌, [], length, map, take};
ghost use Rattle.ialg.specs.declared.TheConstants.{BLOCK_SAMPLES};
ghost use Rattle.ialg.specs.History.{word_at};
ghost use Rattle.ialg.specs.Meaning.{Words};
ghost use Rattle.ialg.specs.Records.{unplaced};
ghost use Rattle.ialg.specs.Views.{answer_of};
ghost use Rattle.record_loans.specs.Pieces.{SamePieces, piece_words};
ghost use Rattle.scratch_group.specs.Words.{placed};
ghost use Rattle.host_shared.specs.Locations.{shared_at};
ghost use Rattle.host_shared.specs.Owners.{HasOwners};
ghost use Rattle.lifecycle.specs.States.{Fits};
ghost use Rattle.lifecycle.specs.Turns.{CanBeLent};
ghost use Rattle.test_lives.specs.Blocks.{SameBlocks};
ghost use Rattle.test_doubles.specs.declared.TheConstants.{LEVELS};
ghost use Rattle.test_doubles.specs.Slicer.{sliced, slicer_records};

use host_shared::Locations;
use ialg::{BLOCK_SAMPLES, Block, Ctl, Ialg, Params, Status};
use lifecycle::Idle;
use mem_rec::MemTab;
use record_loans::Pieces;
use scratch_group::Group;
use test_doubles::Slicer;

/// A slicer is started and activated, is given a block, is asked for its levels, and is deactivated. Its levels stand in a piece
/// of number 0, which is lent to each of these calls.
pub fn live(
    levels: Params,
    table: MemTab,
    own: Pieces,
    sharing: &mut Vec<Locations>,
    group: &mut Group,
    input: &[i16],
    out: &mut Block,
) -> (Idle<Slicer>, Status)
    requires levels { length levels.items ≡ LEVELS }
    requires table { unplaced table ≡ slicer_records }
    requires number { 0 < length sharing.old.items }
    requires owners { HasOwners sharing.old.items 0 }
    requires room { Fits (placed table own (shared_at sharing.old.items 0) group.old) own (shared_at sharing.old.items 0) group.old }
    requires empty { out.old.items ≡ [] }
    requires some { 1 ≤ length input.now }
    requires within { length input.now ≤ BLOCK_SAMPLES }
    ensures output { out.new.items ≡ map (sliced (word_at levels.items 0) (word_at levels.items 1)) input.now }
    ensures answer { answer_of result.1 ≡ Words levels.items }
    ensures once { take LEVELS (piece_words (shared_at sharing.new.items 0).p1) ≡ levels.items }
    ensures table { result.0.instance.table ≡ placed table own (shared_at sharing.old.items 0) group.old }
    ensures own { SamePieces own result.0.instance.own }
    ensures shared { SamePieces (shared_at sharing.old.items 0) (shared_at sharing.new.items 0) }
    ensures blocks { SameBlocks group.old group.new }
    ensures count { length sharing.new.items ≡ length sharing.old.items }
    ensures lent { CanBeLent result.0.instance sharing.new.items 0 group.new }
{
    let mut member = Idle::new(Slicer, &levels, table, own);
    member.start(sharing, 0, group);
    member.activate(sharing, 0, group);
    let mut active = member.into_active();
    active.run(sharing, 0, group, input, out);
    let status = active.control(sharing, 0, group, &Ctl::Get);
    active.deactivate(sharing, 0, group, None);
    (active.into_idle(), status)
}
