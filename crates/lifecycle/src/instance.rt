//! What an idle and an active instance have in common.
ghost use Rattle.std.specs.Prelude.{◌≡◌};
ghost use Rattle.lifecycle.specs.Moves.{restored, CanRestore};

use crate::{Active, Idle};
use ialg::Params;
use record_loans::Pieces;
use scratch_group::LentTable;
use space_raw::Piece;

/// An instance: its kind, its table with bases and with the way in which its records are lent, the pieces of its persistent records, and
/// its parameters.
///
/// What a block of samples takes stands side by side, so that the caches of a small processor hold it for many instances. The parameters,
/// which none of that needs, stand behind it.
pub struct Instance<M> {
    pub kind: M,
    pub table: LentTable,
    pub own: Pieces,
    pub params: Params,
}

/// An instance in either state.
pub enum Inst<M> {
    Idling(Idle<M>),
    Running(Active<M>),
}

/// Puts back the piece that was taken out, if one was.
pub(crate) fn restore(own: &mut Pieces, back: Option<(usize, Piece)>)
    requires { CanRestore back own.old }
    ensures { own.new ≡ restored back own.old }
{
    match back {
        Some((k, piece)) => own.put_in(k, piece),
        None => {}
    }
}
