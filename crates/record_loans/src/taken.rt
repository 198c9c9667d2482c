//! What a record lies in is taken for a loan, and put back behind it.
ghost use Rattle.std.specs.Prelude.{◌≡◌, ◌+◌, ◌≤◌, length, None};
ghost use Rattle.record_loans.specs.Blocks.{block_words};
ghost use Rattle.record_loans.specs.Cuts.{CutFits};
ghost use Rattle.record_loans.specs.Loans.{held};
ghost use Rattle.record_loans.specs.Pieces.{piece_words};
ghost use Rattle.record_loans.specs.Taken.{taken_words, front_of, behind, joined, IsFrontOf, CanPut, CutsOut, PutsBack};

use crate::block::ScratchBlock;
use crate::plan::{Cut, Source};
use space_raw::{Piece, end_none};
use std::mem;

impl Cut {
    /// Takes what a record lies in: the instance's own piece, the one that is lent to it, or the front of a block. A piece stays whole.
    pub(crate) fn take(
        &self,
        own: &mut Option<Piece>,
        shared: &mut Option<Piece>,
        daram: &mut Option<ScratchBlock>,
        saram: &mut Option<ScratchBlock>,
        external: &mut Option<ScratchBlock>,
    ) -> Option<Piece>
        requires fit { CutFits self.now.source self.now.gap self.now.size (length (piece_words (held self.now.source own.old shared.old)))
            (length (block_words daram.old)) (length (block_words saram.old)) (length (block_words external.old)) }
        ensures cut { CutsOut self.now own.old shared.old daram.old saram.old external.old result own.new shared.new daram.new saram.new external.new }
    {
        match self.source {
            Source::Absent => None,
            Source::Own => own.take(),
            Source::Shared => shared.take(),
            Source::InDaram => take_front(self, daram),
            Source::InSaram => take_front(self, saram),
            Source::InExternal => take_front(self, external),
        }
    }

    /// Puts it back where it was taken.
    pub(crate) fn put_back(
        &self,
        piece: Option<Piece>,
        own: &mut Option<Piece>,
        shared: &mut Option<Piece>,
        daram: &mut Option<ScratchBlock>,
        saram: &mut Option<ScratchBlock>,
        external: &mut Option<ScratchBlock>,
    )
        requires can { CanPut self.now.source piece own.old shared.old daram.old saram.old external.old }
        ensures put { PutsBack self.now piece own.old shared.old daram.old saram.old external.old own.new shared.new daram.new saram.new external.new }
    {
        match self.source {
            Source::Absent => end_none(piece),
            Source::Own => put_piece(piece, own),
            Source::Shared => put_piece(piece, shared),
            Source::InDaram => put_front(piece, daram),
            Source::InSaram => put_front(piece, saram),
            Source::InExternal => put_front(piece, external),
        }
    }
}

/// Puts a piece where none is.
fn put_piece(piece: Option<Piece>, place: &mut Option<Piece>)
    requires empty { place.old ≡ None }
    ensures { place.new ≡ piece }
{
    end_none(mem::replace(place, piece));
}

/// Takes the front of a block: the words up to the record's end. A record without words has none where there is no block.
fn take_front(cut: &Cut, block: &mut Option<ScratchBlock>) -> Option<Piece>
    requires fit { taken_words cut.now ≤ length (block_words block.old) }
    ensures front { result ≡ front_of (taken_words cut.now) block.old }
    ensures left { block.new ≡ behind (taken_words cut.now) block.old }
{
    match block.take() {
        Some(ScratchBlock { piece, align }) => {
            // a block is no longer than its region, as its length says
            let _len = piece.len();
            let (front, left) = piece.split((cut.gap + cut.size) as u32);
            end_none(block.replace(ScratchBlock { piece: left, align }));
            Some(front)
        }
        None => None,
    }
}

/// Puts the front of a block before the rest of it.
fn put_front(front: Option<Piece>, block: &mut Option<ScratchBlock>)
    requires { IsFrontOf front block.old }
    ensures { block.new ≡ joined front block.old }
{
    if let Some(front) = front {
        match block.take() {
            Some(ScratchBlock { piece, align }) => {
                let piece = front.join(piece);
                end_none(block.replace(ScratchBlock { piece, align }));
            }
            None => unreachable!(),
        }
    }
}
