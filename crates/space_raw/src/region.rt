//! One space's allocation. Its words are pieces, and it takes them all to free it.
ghost use Rattle.std.specs.Prelude.{◌≡◌, length, map, replicate, IfOk, Some, pos};
ghost use Rattle.space_raw.specs.Slots.{IsRun};
ghost use Rattle.space_raw.specs.Span.{IsWhole};

use crate::block::Deed;
use crate::piece::Piece;
use crate::places::Places;
use crate::rest::Rest;
use crate::words::Base;
use std::alloc::{AllocError, Allocator, Global};
use std::marker::Model;

/// One space's raw words. It can't be copied, and must be given back by `close`.
pub struct Region<A: Allocator = Global> {
    base: Base,
    size: u32,
    deed: Deed<A>,
    alloc: A,
    places: Places,
}

impl<A: Allocator> Model for Region<A> {
    ghost use Rattle.std.specs.Prelude.{◌≡◌, ◌<◌};
    ghost use Rattle.space_raw.specs.Ownership.{word_limit};
    ghost use Rattle.space_raw.specs.Span.{Extent};

    ghost Value = { Extent };

    ghost view = { λ r. record { base = r.base.ptr; name = r.places.name; size = r.size } };

    ghost invariant = { λ r. (r.deed.base ≡ r.base.ptr) × (r.deed.len ≡ r.size) × (r.deed.alloc ≡ r.alloc) × (r.size < word_limit) };
}

impl<A: Allocator> Region<A> {
    /// A region of that many words, and all of them as one piece. Each word is 0.
    /// `AllocError` is answered where the allocator refuses the one request, and nothing is held then.
    pub fn make(alloc: A, words: u32) -> Result<(Region<A>, Piece), AllocError>
        ensures region { IfOk result (λ r. r.0.size ≡ words) }
        ensures whole { IfOk result (λ r. (r.1.region ≡ r.0) × IsWhole r.1) }
        ensures zeros { IfOk result (λ r. r.1.words ≡ replicate words (pos 0)) }
    {
        let (region, rest) = Region::make_rest(alloc, words)?;
        Ok((region, rest.whole()))
    }

    /// A region of that many words, none of which a piece holds. Each word is 0, and none is written before it is asked for.
    /// `AllocError` is answered where the allocator refuses the one request, and nothing is held then.
    pub fn make_rest(alloc: A, words: u32) -> Result<(Region<A>, Rest), AllocError>
        ensures region { IfOk result (λ r. (r.0.size ≡ words) × (r.1.region ≡ r.0)) }
        ensures zeros { IfOk result (λ r. r.1.slots ≡ map Some (replicate words (pos 0))) }
    {
        let (base, none, blank, deed) = Deed::allocate(&alloc, words as usize)?;
        let (inner, places) = Places::make(words as usize).part(0, words as usize);
        let rest = Rest::of_blank(base, none, blank, words, inner);
        let region = Region {
            base,
            size: words,
            deed,
            alloc,
            places,
        };
        Ok((region, rest))
    }

    /// The words are given back to the allocator.
    pub fn close(self, all: Piece)
        requires region { all.region ≡ self }
        requires whole { IsWhole all }
    {
        self.close_rest(Rest::of(all));
    }

    /// The words are given back to the allocator, of which no piece holds one.
    pub fn close_rest(self, rest: Rest)
        requires region { rest.region ≡ self }
        requires there { IsRun rest.slots 0 (length rest.slots) }
    {
        let Region {
            base: _,
            size: _,
            deed,
            alloc,
            places: _none,
        } = self;
        let (base, len, words, blank) = rest.end();
        deed.deallocate(&alloc, base, len as usize, words, blank);
    }
}
