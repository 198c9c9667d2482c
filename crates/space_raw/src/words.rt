//! The words of a region in memory. All of them are reached from the pointer to the whole allocation.
ghost use Rattle.std.specs.Prelude.{◌≡◌, ℕ, ℤ, ◌+◌, ◌*◌, ◌≤◌, List, ◌++◌, length, take, drop, ⊤};
ghost use Rattle.std.specs.Borrow.{sem};
ghost use denote.RawPtr.{Ptr};
ghost use Rattle.space_raw.specs.Ownership.{words_own, words_lent};

use crate::block::Blank;
use std::alloc::AllocError;
use std::marker::Model;
use std::slice;

// Where the allocation begins. It owns nothing.
pub(crate) struct Base {
    pub(crate) ptr: *mut i16,
}

impl Clone for Base {
    ghost is_clone = { λ x y. y ≡ x };

    ghost is_infallible = { λ _. ⊤ };

    fn clone(&self) -> Result<Base, AllocError> {
        Ok(*self)
    }
}

impl Copy for Base {}

// The owner of the words from a place on. It takes no space.
pub(crate) struct Words {
    ghost base: { Ptr },
    ghost place: { ℕ },
    ghost items: { List ℤ },
}

impl Model for Words {
    ghost also_owns = { λ w. words_own w.base w.place w.items };

    ghost also_shares = { λ w _ κ. words_lent w.base w.place w.items κ };
}

impl Words {
    ghost use Rattle.space_raw.specs.Lends.{lends_items};
    ghost use Rattle.space_raw.specs.Owners.{CanBeRead, OwnsRoom, OwnsWords};

    /// The words, for reading.
    pub(crate) fn slice(&self, base: Base, place: usize, len: usize) -> &[i16]
        requires range { CanBeRead self.now base.ptr place len }
        ensures value { result.now ≡ self.now.items }
    {
        unsafe { slice::from_raw_parts(base.ptr.add(place), len) }
    }

    /// The words, for writing.
    pub(crate) fn slice_mut(&mut self, base: Base, place: usize, len: usize) -> &mut [i16]
        requires range { CanBeRead self.old base.ptr place len }
        ensures* writes_back { sem 𝓛 (lends_items self.entry result) }
        ensures value { result.now ≡ self.old.items }
    {
        unsafe { slice::from_raw_parts_mut(base.ptr.add(place), len) }
    }

    /// The first n words, and those behind them.
    pub(crate) fn split(self, n: usize) -> (Words, Words)
        requires fewer { n ≤ length self.items }
        ensures left { OwnsWords result.0 self.base self.place (take n self.items) }
        ensures right { OwnsWords result.1 self.base (self.place + n) (drop n self.items) }
    {
        let Words {} = self;
        (Words {}, Words {})
    }

    /// These words and those right behind them, as one.
    pub(crate) fn join(self, next: Words) -> Words
        requires adjoins { (next.base ≡ self.base) × (next.place ≡ self.place + length self.items) }
        ensures words { OwnsWords result self.base self.place (self.items ++ next.items) }
    {
        let Words {} = self;
        let Words {} = next;
        Words {}
    }

    /// The words, and the room of no words behind them.
    pub(crate) fn end(self) -> (Words, Blank)
        ensures words { result.0 ≡ self }
        ensures blank { OwnsRoom result.1 self.base (self.place + length self.items) 0 }
    {
        let Words {} = self;
        (Words {}, Blank {})
    }
}
