//! The pieces that a creation places.
ghost use Rattle.std.specs.Prelude.{◌≡◌, ◌<◌, ℕ, None, Some};
ghost use Rattle.host_spaces.specs.declared.wants.TheConstants.{WANTS};
ghost use Rattle.host_spaces.specs.Wants.{none_granted, slot_at, with_slot};

use crate::wants::WANTS;
use space_raw::{Piece, end_none};

// A piece for each entry of what a creation needs.
pub(crate) struct Granted {
    pub(crate) p0: Option<Piece>,
    pub(crate) p1: Option<Piece>,
    pub(crate) p2: Option<Piece>,
    pub(crate) p3: Option<Piece>,
    pub(crate) p4: Option<Piece>,
    pub(crate) p5: Option<Piece>,
    pub(crate) p6: Option<Piece>,
}

impl Granted {
    /// No pieces.
    pub(crate) fn none() -> Granted
        ensures { result ≡ none_granted }
    {
        Granted {
            p0: None,
            p1: None,
            p2: None,
            p3: None,
            p4: None,
            p5: None,
            p6: None,
        }
    }

    /// Entry `k`, which has none, gets the piece.
    pub(crate) fn put(&mut self, k: usize, piece: Piece)
        requires number { k < WANTS }
        requires empty { slot_at self.old k ≡ None }
        ensures { self.new ≡ with_slot self.old k (Some piece) }
    {
        let old = match k {
            0 => self.p0.replace(piece),
            1 => self.p1.replace(piece),
            2 => self.p2.replace(piece),
            3 => self.p3.replace(piece),
            4 => self.p4.replace(piece),
            5 => self.p5.replace(piece),
            _ => self.p6.replace(piece),
        };
        end_none(old);
    }

    /// Ends it where it has no pieces.
    pub(crate) fn end_none(self)
        requires { self ≡ none_granted }
    {
        let Granted {
            p0,
            p1,
            p2,
            p3,
            p4,
            p5,
            p6,
        } = self;
        end_none(p0);
        end_none(p1);
        end_none(p2);
        end_none(p3);
        end_none(p4);
        end_none(p5);
        end_none(p6);
    }
}
