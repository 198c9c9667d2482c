//! The words of a region that no piece holds.
ghost use Rattle.std.specs.Prelude.{◌≡◌, ℕ, ℤ, ◌+◌, ◌≤◌, ◌++◌, List, [], Option, Some, None, map, replicate, length};
ghost use Rattle.std.specs.Borrow.{sem};
ghost use denote.RawPtr.{Ptr};
ghost use Rattle.space_raw.specs.Loose.{loose_owns, loose_lent};
ghost use Rattle.space_raw.specs.Slots.{run_of, IsRun, without, with_run};

use crate::words::{Base, Words};
use std::marker::Model;
use std::slice;

// The owner of the words that no piece holds: `None` stands for a word that is away. It takes no space.
#[derive(Drop)]
pub(crate) struct Loose {
    ghost base: { Ptr },
    ghost slots: { List (Option ℤ) },
}

impl Model for Loose {
    ghost also_owns = { λ r. loose_owns r.base r.slots };

    ghost also_shares = { λ r _ κ. loose_lent r.base r.slots κ };
}

impl Loose {
    ghost use Rattle.space_raw.specs.LooseLends.{lends_run};
    ghost use Rattle.space_raw.specs.Owners.{OwnsWords, RunCanBeRead};

    /// It stands for an owner that was moved out of its place.
    pub(crate) fn nowhere() -> Loose
        ensures none { result.slots ≡ [] }
    {
        Loose {}
    }

    /// The words from the region's first on. So many behind them are away.
    pub(crate) fn of(words: Words, away: usize) -> Loose
        requires start { words.place ≡ 0 }
        ensures words { (result.base ≡ words.base) × (result.slots ≡ map Some words.items ++ replicate away None) }
    {
        let Words {} = words;
        Loose {}
    }

    /// The `len` words from the place on, none of which is away.
    pub(crate) fn run(&self, base: Base, place: usize, len: usize) -> &[i16]
        requires there { RunCanBeRead self.now base.ptr place len }
        ensures value { result.now ≡ run_of self.now.slots place len }
    {
        unsafe { slice::from_raw_parts(base.ptr.add(place), len) }
    }

    /// The same, for writing.
    pub(crate) fn run_mut(&mut self, base: Base, place: usize, len: usize) -> &mut [i16]
        requires there { RunCanBeRead self.old base.ptr place len }
        ensures* writes_back { sem 𝓛 (lends_run self.entry place len result) }
        ensures value { result.now ≡ run_of self.old.slots place len }
    {
        unsafe { slice::from_raw_parts_mut(base.ptr.add(place), len) }
    }

    /// Takes out the `len` words from the place on, none of which is away.
    pub(crate) fn carve(self, place: usize, len: usize) -> (Words, Loose)
        requires there { IsRun self.slots place len }
        ensures words { OwnsWords result.0 self.base place (run_of self.slots place len) }
        ensures loose { (result.1.base ≡ self.base) × (result.1.slots ≡ without self.slots place len) }
    {
        let Loose {} = self;
        (Words {}, Loose {})
    }

    /// Puts words back where they were taken out.
    pub(crate) fn absorb(self, words: Words) -> Loose
        requires inside { (words.base ≡ self.base) × (words.place + length words.items ≤ length self.slots) }
        ensures words { (result.base ≡ self.base) × (result.slots ≡ with_run self.slots words.place words.items) }
    {
        let Loose {} = self;
        let Words {} = words;
        Loose {}
    }
}
