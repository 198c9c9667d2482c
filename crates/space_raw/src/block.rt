//! The allocation of a region, as its allocator sees it.
ghost use Rattle.std.specs.Prelude.{◌≡◌, ℕ, ◌+◌, ◌*◌, ◌<◌, ◌≤◌, List, [], ◌∷◌, ◌++◌, length, IfOk};
ghost use denote.RawPtr.{Ptr};
ghost use Rattle.space_raw.specs.Ownership.{blank_owns, deed_owns, word_limit};

use crate::words::{Base, Words};
use std::alloc::{AllocError, Allocator};
use std::marker::{Model, PhantomData};

// The owner of words that are not written yet. It takes no space.
#[derive(Drop)]
pub(crate) struct Blank {
    ghost base: { Ptr },
    ghost place: { ℕ },
    ghost len: { ℕ },
}

impl Model for Blank {
    ghost also_owns = { λ b. blank_owns b.base b.place b.len };
}

// The right to give the block of `len` words at `base` back to `alloc`. It takes no space.
pub(crate) struct Deed<A: Allocator> {
    marker: PhantomData<A>,
    ghost alloc: { A },
    ghost base: { Ptr },
    ghost len: { ℕ },
}

impl<A: Allocator> Model for Deed<A> {
    ghost also_owns = { λ d. deed_owns (A.dealloc_token d.alloc) d.base d.len };
}

impl<A: Allocator> Deed<A> {
    /// The words of the block, none of which is written.
    pub(crate) fn allocate(
        alloc: &A,
        len: usize,
    ) -> Result<(Base, Words, Blank, Deed<A>), AllocError>
        requires size { len < word_limit }
        ensures granted { IfOk result (λ r. (r.1.base ≡ r.0.ptr) × (r.1.place ≡ 0) × (r.1.items ≡ []) × (r.2.base ≡ r.0.ptr) × (r.2.place ≡ 0)
            × (r.2.len ≡ len) × (r.3.base ≡ r.0.ptr) × (r.3.len ≡ len) × (r.3.alloc ≡ alloc.now)) }
    {
        match alloc.allocate(len * 2, 2) {
            Ok(block) => {
                let base = Base {
                    ptr: block as *mut i16,
                };
                let marker = PhantomData;
                Ok((base, Words {}, Blank {}, Deed { marker }))
            }
            Err(error) => Err(error),
        }
    }

    /// The words that were written, and behind them those that never were.
    pub(crate) fn deallocate(self, alloc: &A, base: Base, len: usize, words: Words, blank: Blank)
        requires block { (self.base ≡ base.ptr) × (self.len ≡ len) × (self.alloc ≡ alloc.now) × (len < word_limit) }
        requires words { (words.base ≡ base.ptr) × (words.place ≡ 0) }
        requires blank { (blank.base ≡ base.ptr) × (blank.place ≡ length words.items) × (length words.items + blank.len ≡ len) }
    {
        let Deed { marker: _ } = self;
        let Words {} = words;
        let Blank {} = blank;
        unsafe { alloc.deallocate(base.ptr as *mut u8, len * 2, 2) }
    }
}

impl Blank {
    ghost use Rattle.space_raw.specs.Owners.{OwnsWords};

    /// It stands for an owner that was moved out of its place.
    pub(crate) fn nowhere() -> Blank
        ensures none { result.len ≡ 0 }
    {
        Blank {}
    }

    /// The first word is written, and joins the words before it.
    pub(crate) fn write_first(
        self,
        base: Base,
        place: usize,
        word: i16,
        before: Words,
    ) -> (Words, Blank)
        requires place { (self.base ≡ base.ptr) × (self.place ≡ place) × (0 < self.len) × (place < word_limit) }
        requires before { (before.base ≡ base.ptr) × (before.place + length before.items ≡ place) }
        ensures words { OwnsWords result.0 base.ptr before.place (before.items ++ word ∷ []) }
        ensures blank { (result.1.base ≡ base.ptr) × (result.1.place ≡ place + 1) × (result.1.len + 1 ≡ self.len) }
    {
        let Blank {} = self;
        let Words {} = before;
        unsafe { *base.ptr.add(place) = word };
        (Words {}, Blank {})
    }
}
