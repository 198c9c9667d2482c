//! The pieces of a new instance.
ghost use Rattle.std.specs.Prelude.{◌≡◌, ℕ, IsSome, length};
ghost use Rattle.host_spaces.specs.declared.wants.TheConstants.{WANTS};
ghost use Rattle.host_spaces.specs.Wants.{slot_at, want_at};
ghost use Rattle.host_spaces.specs.Pieces.{as_block, is_write_once, kept_piece, lent_piece, placement_of};
ghost use Rattle.ialg.specs.Records.{record_at};

use crate::granted::Granted;
use host_map::Wanted;
use mem_rec::{Attr, MemTab};
use record_loans::{Pieces, ScratchBlock};
use space_raw::Piece;

/// The blocks that a group gets in a creation, in each space one or none.
pub struct NewBlocks {
    pub daram: Option<ScratchBlock>,
    pub saram: Option<ScratchBlock>,
    pub external: Option<ScratchBlock>,
}

/// The blocks that a group has no more, in each space one or none.
pub struct OldBlocks {
    pub daram: Option<Piece>,
    pub saram: Option<Piece>,
    pub external: Option<Piece>,
}

/// What a creation places.
pub struct Placement {
    /// The pieces of the instance's persistent records.
    pub own: Pieces,
    /// The pieces of its write-once records.
    pub shared: Pieces,
    /// The blocks of its group that are needed anew.
    pub blocks: NewBlocks,
}

/// Whether record `k` is one that is written once.
fn is_once(table: &MemTab, k: usize) -> bool
    ensures { result ≡ is_write_once (record_at table.now k).attr }
{
    k < table.len() && table.get(k).attr == Attr::WriteOnce
}

/// The piece of a record as one of its own, and as one that is lent.
fn sides(once: bool, piece: Option<Piece>) -> (Option<Piece>, Option<Piece>)
    ensures own { result.0 ≡ kept_piece once piece }
    ensures shared { result.1 ≡ lent_piece once piece }
{
    if once { (None, piece) } else { (piece, None) }
}

/// The piece as a block of the alignment that was wanted.
fn block_for(want: Option<Wanted>, piece: Option<Piece>) -> Option<ScratchBlock>
    requires wanted { IsSome piece → IsSome want }
    ensures { result ≡ as_block want piece }
{
    match piece {
        Some(piece) => match want {
            Some(want) => Some(ScratchBlock {
                piece,
                align: want.align,
            }),
            None => unreachable!(),
        },
        None => None,
    }
}

/// What was granted to an instance with this table.
pub(crate) fn as_placement(granted: Granted, table: &MemTab, wants: &[Option<Wanted>]) -> Placement
    requires seven { length wants.now ≡ WANTS }
    requires wanted { (j : ℕ) → IsSome (slot_at granted j) → IsSome (want_at wants.now j) }
    ensures { result ≡ placement_of table.now wants.now granted }
{
    let Granted {
        p0,
        p1,
        p2,
        p3,
        p4,
        p5,
        p6,
    } = granted;
    let (own0, shared0) = sides(is_once(table, 0), p0);
    let (own1, shared1) = sides(is_once(table, 1), p1);
    let (own2, shared2) = sides(is_once(table, 2), p2);
    let (own3, shared3) = sides(is_once(table, 3), p3);
    Placement {
        own: Pieces {
            p0: own0,
            p1: own1,
            p2: own2,
            p3: own3,
        },
        shared: Pieces {
            p0: shared0,
            p1: shared1,
            p2: shared2,
            p3: shared3,
        },
        blocks: NewBlocks {
            daram: block_for(wants[4], p4),
            saram: block_for(wants[5], p5),
            external: block_for(wants[6], p6),
        },
    }
}
