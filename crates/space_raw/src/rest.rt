//! The words of a region that no piece holds, as a map from places to words.
ghost use Rattle.std.specs.Prelude.{◌≡◌, ◌+◌, ◌<◌, ◌≤◌, [], ◌∷◌, length, map, replicate, Some, pos};
ghost use Rattle.space_raw.specs.Marks.{range_marks};
ghost use Rattle.space_raw.specs.Slots.{run_of, IsRun, IsAway, without, with_run};
ghost use Rattle.space_raw.specs.Owners.{OwnsRoom, OwnsWords};
ghost use Rattle.space_raw.specs.Span.{IsSpanOf, IsWhole};

use crate::block::Blank;
use crate::piece::Piece;
use crate::places::Places;
use crate::store::Store;
use crate::words::{Base, Words};
use std::marker::Model;
use std::mem;

/// The words of a region that no piece holds. It can't be copied, and must be turned back into a piece by `whole`.
/// It keeps the pointer to the whole allocation, as a piece does.
pub struct Rest {
    base: Base,
    size: u32,
    store: Store,
    places: Places,
}

impl Model for Rest {
    ghost use Rattle.std.specs.Prelude.{◌≡◌, ◌<◌, length, map, is_some};
    ghost use Rattle.space_raw.specs.Ownership.{word_limit};
    ghost use Rattle.space_raw.specs.Span.{Scattered};
    ghost use Rattle.space_raw.specs.Stores.{IsStore, slots_of};

    ghost Value = { Scattered };

    ghost view = { λ r. record { region = record { base = r.base.ptr; name = r.places.name; size = r.size }; slots = slots_of r.store } };

    ghost invariant = { λ r. (r.base.ptr ≡ r.store.loose.base) × (r.size ≡ length (slots_of r.store)) × (r.size < word_limit)
        × (r.places.marks ≡ map is_some (slots_of r.store)) × IsStore r.store };
}

impl Rest {
    /// The rest of a region of which no piece is away: it has every word.
    pub fn of(all: Piece) -> Rest
        requires whole { IsWhole all }
        ensures region { result.region ≡ all.region }
        ensures words { result.slots ≡ map Some all.words }
    {
        let Piece {
            base,
            place: _,
            len,
            words,
            places,
        } = all;
        Rest {
            base,
            size: len,
            store: Store::of(words, len),
            places,
        }
    }

    /// All words of a region, of which none was written.
    pub(crate) fn of_blank(base: Base, none: Words, blank: Blank, len: u32, places: Places) -> Rest
        requires none { OwnsWords none base.ptr 0 [] }
        requires blank { OwnsRoom blank base.ptr 0 len }
        requires places { places.marks ≡ range_marks len 0 len }
        ensures region { result.region ≡ record { base = base.ptr; name = places.name; size = len } }
        ensures zeros { result.slots ≡ map Some (replicate len (pos 0)) }
    {
        Rest {
            base,
            size: len,
            store: Store::of_blank(none, blank, len),
            places,
        }
    }

    /// The words that were written, and the room of those that never were.
    pub(crate) fn end(self) -> (Base, u32, Words, Blank)
        requires there { IsRun self.slots 0 (length self.slots) }
        ensures region { (result.0.ptr ≡ self.region.base) × (result.1 ≡ self.region.size) }
        ensures words { (result.2.base ≡ result.0.ptr) × (result.2.place ≡ 0) }
        ensures blank { (result.3.base ≡ result.0.ptr) × (result.3.place ≡ length result.2.items) × (length result.2.items + result.3.len ≡ result.1) }
    {
        let Rest {
            base,
            size,
            store,
            places: _none,
        } = self;
        let (words, blank) = store.end();
        (base, size, words, blank)
    }

    /// `len` words from the place on leave the rest, as a piece. They are kept.
    pub fn carve(&mut self, place: u32, len: u32) -> Piece
        requires some { 0 < len }
        requires there { IsRun self.old.slots place len }
        ensures piece { IsSpanOf result self.old.region place (run_of self.old.slots place len) }
        ensures rest { (self.new.region ≡ self.old.region) × (self.new.slots ≡ without self.old.slots place len) }
    {
        let base = self.base;
        let places = mem::replace(&mut self.places, Places::make(0));
        let words = self.store.carve(base, place, len);
        let (inner, outer) = places.part(place as usize, len as usize);
        self.places = outer;
        Piece {
            base,
            place,
            len,
            words,
            places: inner,
        }
    }

    /// The piece's words come back to the rest. They are kept.
    pub fn absorb(&mut self, piece: Piece)
        requires region { piece.region ≡ self.old.region }
        ensures region { self.new.region ≡ self.old.region }
        ensures words { self.new.slots ≡ with_run self.old.slots piece.place piece.words }
    {
        let Piece {
            base,
            place,
            len,
            words,
            places,
        } = piece;
        let others = mem::replace(&mut self.places, Places::make(0));
        self.store.absorb(base, words, place + len);
        self.places = others.unite(places);
    }

    /// The words at the place and at the next one.
    pub fn tag(&self, place: u32) -> (i16, i16)
        requires there { IsRun self.now.slots place 2 }
        ensures words { run_of self.now.slots place 2 ≡ result.0 ∷ result.1 ∷ [] }
    {
        self.store.pair(self.base, place)
    }

    /// Those two words are written, and no others.
    pub fn set_tag(&mut self, place: u32, tag: (i16, i16))
        requires there { IsRun self.old.slots place 2 }
        ensures region { self.new.region ≡ self.old.region }
        ensures words { self.new.slots ≡ with_run self.old.slots place (tag.0 ∷ tag.1 ∷ []) }
    {
        self.store.set_pair(self.base, place, tag);
    }

    /// The whole region as one piece, where no other piece is left.
    pub fn whole(self) -> Piece
        requires there { IsRun self.slots 0 (length self.slots) }
        ensures whole { (result.region ≡ self.region) × IsWhole result }
        ensures words { result.words ≡ run_of self.slots 0 (length self.slots) }
    {
        let Rest {
            base,
            size,
            store,
            places,
        } = self;
        let mut store = store;
        let words = store.carve(base, 0, size);
        let (all, _others) = places.part(0, size as usize);
        Piece {
            base,
            place: 0,
            len: size,
            words,
            places: all,
        }
    }

    /// The rest has no word of a piece of its region. Nothing happens to them, and nothing is done when it runs.
    pub fn apart(&mut self, piece: &mut Piece)
        requires region { piece.old.region ≡ self.old.region }
        ensures same { (self.new ≡ self.old) × (piece.new ≡ piece.old) }
        ensures apart { IsAway self.old.slots piece.old.place (length piece.old.words) }
    {
        let places = mem::replace(&mut self.places, Places::make(0));
        let others = mem::replace(&mut piece.places, Places::make(0));
        let (places, others) = places.apart(others);
        self.places = places;
        piece.places = others;
    }
}
