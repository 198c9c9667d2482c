//! Regions that tests ask for, and what comes back of them.
ghost use Rattle.std.specs.Prelude.{◌≡◌, Some, None};
ghost use Rattle.space_raw.specs.Span.{IsWhole};
ghost use Rattle.record_loans.specs.Blocks.{block_piece};
ghost use Rattle.scratch_group.specs.Blocks.{SameBut, block_in};

use mem_rec::Space;
use scratch_group::Group;
use space_raw::{Piece, Region};
use std::alloc::Allocator;
use std::process::Abort;

/// A region of that many words, and all of them as one piece.
pub(crate) fn region<A: Allocator>(rt: &impl Abort, alloc: A, words: u32) -> (Region<A>, Piece)
    ensures size { result.0.size ≡ words }
    ensures region { result.1.region ≡ result.0 }
    ensures whole { IsWhole result.1 }
{
    Region::make(alloc, words).expect(rt, "memory")
}

/// Closes two regions, each with its one piece.
pub(crate) fn close_both<A: Allocator>(
    one: Region<A>,
    one_piece: Piece,
    other: Region<A>,
    other_piece: Piece,
)
    requires one { (one_piece.region ≡ one) × IsWhole one_piece }
    requires other { (other_piece.region ≡ other) × IsWhole other_piece }
{
    one.close(one_piece);
    other.close(other_piece);
}

/// Takes the block of a space out of a group, which has one.
pub(crate) fn take_block(rt: &impl Abort, group: &mut Group, space: Space) -> Piece
    ensures old { block_piece (block_in group.old space) ≡ Some result }
    ensures new { block_in group.new space ≡ None }
    ensures others { SameBut space group.old group.new }
{
    group.remove(space).expect(rt, "a block")
}

/// Looks that there is no piece.
pub(crate) fn nothing(rt: &impl Abort, piece: Option<Piece>)
    ensures { piece ≡ None }
{
    assert!(rt; piece.is_none(), "no piece");
    match piece {
        Some(_piece) => unreachable!(),
        None => {}
    }
}
