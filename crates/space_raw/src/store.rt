//! The words that no piece holds, of which those behind a mark were never written.
ghost use Rattle.std.specs.Prelude.{◌≡◌, ◌+◌, ◌<◌, ◌≤◌, [], ◌∷◌, length, map, replicate, Some, pos};
ghost use Rattle.space_raw.specs.Ownership.{word_limit};
ghost use Rattle.space_raw.specs.Slots.{run_of, IsRun, without, with_run};
ghost use Rattle.space_raw.specs.Owners.{OwnsRoom, OwnsWords};
ghost use Rattle.space_raw.specs.Stores.{IsStore, IsStoreAt, slots_of};

use crate::block::Blank;
use crate::loose::Loose;
use crate::words::{Base, Words};
use std::mem;

// The words that no piece holds. Those from `written` on were never written: they count as 0, and are written when one is asked for.
#[derive(Drop)]
pub(crate) struct Store {
    pub(crate) written: u32,
    pub(crate) loose: Loose,
    pub(crate) blank: Blank,
}

impl Store {
    /// All words of a region, which were written.
    pub(crate) fn of(words: Words, len: u32) -> Store
        requires whole { (words.place ≡ 0) × (length words.items ≡ len) }
        ensures store { IsStoreAt result words.base }
        ensures slots { slots_of result ≡ map Some words.items }
    {
        let (words, blank) = words.end();
        Store {
            written: len,
            loose: Loose::of(words, 0),
            blank,
        }
    }

    /// All words of a region, of which none was written.
    pub(crate) fn of_blank(none: Words, blank: Blank, len: u32) -> Store
        requires none { (none.place ≡ 0) × (none.items ≡ []) }
        requires blank { OwnsRoom blank none.base 0 len }
        ensures store { IsStoreAt result none.base }
        ensures slots { slots_of result ≡ map Some (replicate len (pos 0)) }
    {
        Store {
            written: 0,
            loose: Loose::of(none, len as usize),
            blank,
        }
    }

    /// The words before `end` are written, if they aren't yet.
    #[inline]
    fn reach(&mut self, base: Base, end: u32)
        requires store { IsStore self.old × (base.ptr ≡ self.old.loose.base) }
        requires within { end ≤ length (slots_of self.old) }
        ensures store { IsStoreAt self.new self.old.loose.base }
        ensures reached { end ≤ self.new.written }
        ensures slots { slots_of self.new ≡ slots_of self.old }
    {
        if self.written < end {
            self.clear(base, end);
        }
    }

    /// Zeros are written from the mark up to `end`.
    #[inline(never)]
    fn clear(&mut self, base: Base, end: u32)
        requires store { IsStore self.old × (base.ptr ≡ self.old.loose.base) }
        requires more { self.old.written < end }
        requires within { end ≤ length (slots_of self.old) }
        ensures store { IsStoreAt self.new self.old.loose.base }
        ensures reached { self.new.written ≡ end }
        ensures slots { slots_of self.new ≡ slots_of self.old }
    {
        let from = self.written;
        let loose = mem::replace(&mut self.loose, Loose::nowhere());
        let blank = mem::replace(&mut self.blank, Blank::nowhere());
        let (none, loose) = loose.carve(from as usize, 0);
        let (zeros, blank) = zeros(base, from, end - from, none, blank);
        self.loose = loose.absorb(zeros);
        self.blank = blank;
        self.written = end;
    }

    /// `len` words from the place on leave.
    pub(crate) fn carve(&mut self, base: Base, place: u32, len: u32) -> Words
        requires store { IsStore self.old × (base.ptr ≡ self.old.loose.base) }
        requires there { IsRun (slots_of self.old) place len }
        ensures store { IsStoreAt self.new self.old.loose.base }
        ensures words { OwnsWords result self.old.loose.base place (run_of (slots_of self.old) place len) }
        ensures slots { slots_of self.new ≡ without (slots_of self.old) place len }
    {
        self.reach(base, place + len);
        let loose = mem::replace(&mut self.loose, Loose::nowhere());
        let (words, loose) = loose.carve(place as usize, len as usize);
        self.loose = loose;
        words
    }

    /// Words come back, which end at this place.
    pub(crate) fn absorb(&mut self, base: Base, words: Words, end: u32)
        requires store { IsStore self.old × (base.ptr ≡ self.old.loose.base) }
        requires inside { (words.base ≡ self.old.loose.base) × (end ≡ words.place + length words.items) × (end ≤ length (slots_of self.old)) }
        ensures store { IsStoreAt self.new self.old.loose.base }
        ensures slots { slots_of self.new ≡ with_run (slots_of self.old) words.place words.items }
    {
        self.reach(base, end);
        let loose = mem::replace(&mut self.loose, Loose::nowhere());
        self.loose = loose.absorb(words);
    }

    /// The words at the place and at the next one.
    pub(crate) fn pair(&self, base: Base, place: u32) -> (i16, i16)
        requires store { IsStore self.now × (base.ptr ≡ self.now.loose.base) }
        requires there { IsRun (slots_of self.now) place 2 }
        ensures words { run_of (slots_of self.now) place 2 ≡ result.0 ∷ result.1 ∷ [] }
    {
        if self.written < place + 2 {
            return (self.word(base, place), self.word(base, place + 1));
        }
        written_pair(&self.loose, base, place)
    }

    /// The word at the place, whether it was written or not.
    fn word(&self, base: Base, place: u32) -> i16
        requires store { IsStore self.now × (base.ptr ≡ self.now.loose.base) }
        requires there { IsRun (slots_of self.now) place 1 }
        ensures word { run_of (slots_of self.now) place 1 ≡ result ∷ [] }
    {
        if place < self.written {
            written_word(&self.loose, base, place)
        } else {
            0
        }
    }

    /// Those two words are written, and no others.
    pub(crate) fn set_pair(&mut self, base: Base, place: u32, pair: (i16, i16))
        requires store { IsStore self.old × (base.ptr ≡ self.old.loose.base) }
        requires there { IsRun (slots_of self.old) place 2 }
        ensures store { IsStoreAt self.new self.old.loose.base }
        ensures slots { slots_of self.new ≡ with_run (slots_of self.old) place (pair.0 ∷ pair.1 ∷ []) }
    {
        self.reach(base, place + 2);
        write_pair(&mut self.loose, base, place, pair);
    }

    /// What was written, and the room of what never was.
    pub(crate) fn end(self) -> (Words, Blank)
        requires store { IsStore self }
        requires there { IsRun (slots_of self) 0 (length (slots_of self)) }
        ensures words { (result.0.base ≡ self.loose.base) × (result.0.place ≡ 0) × (length result.0.items ≡ self.written) }
        ensures blank { result.1 ≡ self.blank }
    {
        let Store {
            written,
            loose,
            blank,
        } = self;
        let (words, _none) = loose.carve(0, written as usize);
        (words, blank)
    }
}

/// Zeros are written to the first `count` words of the blank room.
fn zeros(base: Base, from: u32, count: u32, none: Words, blank: Blank) -> (Words, Blank)
    requires none { OwnsWords none base.ptr from [] }
    requires blank { (blank.base ≡ base.ptr) × (blank.place ≡ from) × (count ≤ blank.len) }
    requires fits { from + count < word_limit }
    ensures zeros { OwnsWords result.0 base.ptr from (replicate count (pos 0)) }
    ensures blank { (result.1.base ≡ base.ptr) × (result.1.place ≡ from + count) × (count + result.1.len ≡ blank.len) }
{
    let mut zeros = none;
    let mut blank = blank;
    let mut done = 0;
    while done < count {
        let (more, rest) = blank.write_first(base, (from + done) as usize, 0, zeros);
        zeros = more;
        blank = rest;
        done += 1;
    }
    (zeros, blank)
}

/// The words at the place and at the next one, which were written.
fn written_pair(loose: &Loose, base: Base, place: u32) -> (i16, i16)
    requires base { base.ptr ≡ loose.now.base }
    requires there { IsRun loose.now.slots place 2 × (place + 2 < word_limit) }
    ensures words { run_of loose.now.slots place 2 ≡ result.0 ∷ result.1 ∷ [] }
{
    let words = loose.run(base, place as usize, 2);
    (words[0], words[1])
}

/// The word at the place, which was written.
fn written_word(loose: &Loose, base: Base, place: u32) -> i16
    requires base { base.ptr ≡ loose.now.base }
    requires there { IsRun loose.now.slots place 1 × (place + 1 < word_limit) }
    ensures word { run_of loose.now.slots place 1 ≡ result ∷ [] }
{
    loose.run(base, place as usize, 1)[0]
}

/// Writes the words at the place and at the next one.
fn write_pair(loose: &mut Loose, base: Base, place: u32, pair: (i16, i16))
    requires base { base.ptr ≡ loose.old.base }
    requires there { IsRun loose.old.slots place 2 × (place + 2 < word_limit) }
    ensures base { loose.new.base ≡ loose.old.base }
    ensures words { loose.new.slots ≡ with_run loose.old.slots place (pair.0 ∷ pair.1 ∷ []) }
{
    let words = loose.run_mut(base, place as usize, 2);
    words[0] = pair.0;
    words[1] = pair.1;
}
