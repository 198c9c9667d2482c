//! The pieces of an instance's records.
ghost use Rattle.std.specs.Prelude.{◌≡◌, ◌≤◌, ◌<◌, Option, Some, None, IsSome, length, take};
ghost use Rattle.mem_rec.specs.declared.TheConstants.{TABLE_RECORDS};
ghost use Rattle.record_loans.specs.Pieces.{no_pieces, piece_at, with_piece, piece_words, piece_place, IsInSpace};

use mem_rec::TABLE_RECORDS;
use space_raw::{Piece, end_none};

/// A piece for each of some records of a table. The pieces of an instance's own records are kept by the instance, those of its
/// write-once records are lent to it.
pub struct Pieces {
    pub p0: Option<Piece>,
    pub p1: Option<Piece>,
    pub p2: Option<Piece>,
    pub p3: Option<Piece>,
}

impl Pieces {
    /// No pieces.
    pub fn none() -> Pieces
        ensures { result ≡ no_pieces }
    {
        Pieces {
            p0: None,
            p1: None,
            p2: None,
            p3: None,
        }
    }

    /// The piece of record `k`.
    pub fn piece(&self, k: usize) -> &Option<Piece>
        requires { k < 4 }
        ensures { result.now ≡ piece_at self.now k }
    {
        match k {
            0 => &self.p0,
            1 => &self.p1,
            2 => &self.p2,
            _ => &self.p3,
        }
    }

    /// Where the piece of record `k` begins.
    pub fn place(&self, k: usize) -> u16
        requires number { k < 4 }
        requires some { 1 ≤ length (piece_words (piece_at self.now k)) }
        requires space { IsInSpace (piece_at self.now k) }
        ensures { result ≡ piece_place (piece_at self.now k) }
    {
        place_of(self.piece(k))
    }

    /// Takes the piece of record `k` out, if there is one.
    pub fn take(&mut self, k: usize) -> Option<Piece>
        requires { k < TABLE_RECORDS }
        ensures piece { result ≡ piece_at self.old k }
        ensures left { self.new ≡ with_piece self.old k None }
    {
        match k {
            0 => self.p0.take(),
            1 => self.p1.take(),
            2 => self.p2.take(),
            _ => self.p3.take(),
        }
    }

    /// Takes the piece of record `k` out.
    pub fn take_out(&mut self, k: usize) -> Piece
        requires { IsSome (piece_at self.old k) }
        ensures piece { piece_at self.old k ≡ Some result }
        ensures left { self.new ≡ with_piece self.old k None }
    {
        match self.take(k) {
            Some(piece) => piece,
            None => unreachable!(),
        }
    }

    /// Puts the piece of record `k` in, which has none.
    pub fn put_in(&mut self, k: usize, piece: Piece)
        requires number { k < 4 }
        requires empty { piece_at self.old k ≡ None }
        ensures { self.new ≡ with_piece self.old k (Some piece) }
    {
        let old = match k {
            0 => self.p0.replace(piece),
            1 => self.p1.replace(piece),
            2 => self.p2.replace(piece),
            _ => self.p3.replace(piece),
        };
        match old {
            Some(_piece) => unreachable!(),
            None => {}
        }
    }
}

/// Where a piece begins, which is there.
pub fn place_of(piece: &Option<Piece>) -> u16
    requires some { 1 ≤ length (piece_words piece.now) }
    requires space { IsInSpace piece.now }
    ensures { result ≡ piece_place piece.now }
{
    match piece {
        Some(p) => {
            // the piece lies within its region, as its length says
            let _len = p.len();
            p.place() as u16
        }
        None => unreachable!(),
    }
}

/// The first `n` words of a piece, and none where there is no piece.
#[inline(always)]
pub fn first_words(piece: &Option<Piece>, n: usize) -> &[i16]
    requires { n ≤ length (piece_words piece.now) }
    ensures { result.now ≡ take n (piece_words piece.now) }
{
    match piece {
        Some(piece) => &piece.words()[..n],
        None => &[],
    }
}

/// Ends a table of no pieces. It answers nothing and leaves nothing behind, so that there is no more to say.
pub fn end_absent(pieces: Pieces)
    requires { pieces ≡ no_pieces }
{
    let Pieces { p0, p1, p2, p3 } = pieces;
    end_none(p0);
    end_none(p1);
    end_none(p2);
    end_none(p3);
}
