//! The pieces of an instance's records, taken out and put back.
ghost use Rattle.std.specs.Prelude.{◌≡◌, Some, IsSome};
ghost use Rattle.host_moves.specs.Waiting.{piece_owned, without_owned};

use host_table::Member;
use ialg::Ialg;
use lifecycle::Inst;
use space_raw::Piece;

/// Takes the piece of record `k` out of an instance that has it for its own, to be moved: [`tell`](crate::tell) puts it back.
pub fn take_own<M: Ialg>(instances: &mut Vec<Option<Member<M>>>, i: u8, k: usize) -> Piece
    requires { IsSome (piece_owned instances.old.items i k) }
    ensures piece { piece_owned instances.old.items i k ≡ Some result }
    ensures left { instances.new.items ≡ without_owned instances.old.items i k }
{
    match &mut instances[i as usize] {
        Some(member) => match &mut member.inst {
            Inst::Idling(idle) => idle.detach(k),
            Inst::Running(active) => active.detach(k),
        },
        None => unreachable!(),
    }
}
