//! A range of a region's words that is owned.
ghost use Rattle.std.specs.Prelude.{◌≡◌, ◌+◌, ◌<◌, ◌≤◌, ◌++◌, length, take, drop, None};
ghost use Rattle.std.specs.Borrow.{sem};
ghost use Rattle.space_raw.specs.Span.{Adjoins, Apart, IsBack, IsFront, IsSpanOf};
ghost use Rattle.space_raw.specs.SpanLends.{lends_words};

use crate::places::Places;
use crate::words::{Base, Words};
use std::marker::Model;
use std::mem;

/// A range of a region's words that its holder owns. It can't be copied, and must be given back.
/// It keeps the pointer to the whole allocation, its place there in words, and its length in words.
pub struct Piece {
    pub(crate) base: Base,
    pub(crate) place: u32,
    pub(crate) len: u32,
    pub(crate) words: Words,
    pub(crate) places: Places,
}

impl Model for Piece {
    ghost use Rattle.std.specs.Prelude.{◌≡◌, ◌+◌, ◌^◌, ◌<◌, ◌≤◌, length};
    ghost use Rattle.space_raw.specs.Marks.{range_marks};
    ghost use Rattle.space_raw.specs.Ownership.{word_limit};
    ghost use Rattle.space_raw.specs.Span.{Span};

    ghost Value = { Span };

    ghost view = { λ p. record {
      region = record { base = p.base.ptr; name = p.places.name; size = length p.places.marks };
      place = p.place;
      words = p.words.items;
    } };

    ghost invariant = { λ p. (p.base.ptr ≡ p.words.base) × (p.place ≡ p.words.place) × (p.len ≡ length p.words.items)
        × (p.places.marks ≡ range_marks (length p.places.marks) p.place p.len) × (p.place + p.len ≤ length p.places.marks)
        × (length p.places.marks < word_limit) };
}

impl Piece {
    /// The place of the first word, in words from the start of the region.
    pub fn place(&self) -> u32
        ensures value { result ≡ self.now.place }
    {
        self.place
    }

    /// The number of words. All of them lie within the region.
    pub fn len(&self) -> u32
        ensures value { result ≡ length self.now.words }
        ensures inside { self.now.place + length self.now.words ≤ self.now.region.size }
    {
        self.len
    }

    /// The words.
    pub fn words(&self) -> &[i16]
        ensures value { result.now ≡ self.now.words }
    {
        self.words
            .slice(self.base, self.place as usize, self.len as usize)
    }

    /// The words, to be written. The piece then has what was last written.
    pub fn words_mut(&mut self) -> &mut [i16]
        ensures* writes_back { sem 𝓛 (lends_words self.entry result) }
        ensures value { result.now ≡ self.old.words }
    {
        self.words
            .slice_mut(self.base, self.place as usize, self.len as usize)
    }

    /// The first `n` words, and the others. One of the two may have no words.
    pub fn split(self, n: u32) -> (Piece, Piece)
        requires fewer { n ≤ length self.words }
        ensures left { IsFront n self result.0 }
        ensures right { IsBack n self result.1 }
    {
        let Piece {
            base,
            place,
            len,
            words,
            places,
        } = self;
        let (left, right) = words.split(n as usize);
        let (inner, outer) = places.part(place as usize, n as usize);
        let front = Piece {
            base,
            place,
            len: n,
            words: left,
            places: inner,
        };
        let back = Piece {
            base,
            place: place + n,
            len: len - n,
            words: right,
            places: outer,
        };
        (front, back)
    }

    /// One piece of two, where `next` begins at the end of `self`.
    pub fn join(self, next: Piece) -> Piece
        requires adjoins { Adjoins self next }
        ensures region { result.region ≡ self.region }
        ensures place { result.place ≡ self.place }
        ensures words { result.words ≡ self.words ++ next.words }
    {
        let Piece {
            base,
            place,
            len,
            words,
            places,
        } = self;
        let Piece {
            base: _,
            place: _,
            len: more,
            words: others,
            places: behind,
        } = next;
        Piece {
            base,
            place,
            len: len + more,
            words: words.join(others),
            places: places.unite(behind),
        }
    }

    /// The block at the hole's place, and the hole behind it. The block's words are kept and the hole's are unknown.
    /// The words are copied one by one, upwards, so the two ranges may overlap.
    pub fn slide(hole: Piece, block: Piece) -> (Piece, Piece)
        requires adjoins { Adjoins hole block }
        ensures block { IsSpanOf result.0 hole.region hole.place block.words }
        ensures hole { (result.1.region ≡ hole.region) × (result.1.place ≡ hole.place + length block.words) × (length result.1.words ≡ length hole.words) }
    {
        let gap = hole.len();
        let count = block.len();
        let mut run = hole.join(block);
        copy_down(run.words_mut(), gap as usize, count as usize);
        run.split(count)
    }

    /// Two pieces of one region have no word in common. Nothing happens to them, and nothing is done when it runs.
    pub fn apart(&mut self, other: &mut Piece)
        requires region { other.old.region ≡ self.old.region }
        ensures same { (self.new ≡ self.old) × (other.new ≡ other.old) }
        ensures apart { Apart self.old other.old }
    {
        let places = mem::replace(&mut self.places, Places::make(0));
        let others = mem::replace(&mut other.places, Places::make(0));
        let (places, others) = places.apart(others);
        self.places = places;
        other.places = others;
    }
}

/// The `count` words from `gap` on are copied to the start, upwards.
fn copy_down(words: &mut [i16], gap: usize, count: usize)
    requires inside { gap + count ≤ length words.old }
    ensures moved { words.new ≡ take count (drop gap words.old) ++ drop count words.old }
{
    let mut i = 0;
    while i < count {
        words[i] = words[gap + i];
        i += 1;
    }
}

/// Ends what isn't there: a piece can't be dropped, nor can a value that holds pieces. It answers nothing and leaves nothing behind, so
/// that there is no more to say.
pub fn end_none<T>(absent: Option<T>)
    requires { absent ≡ None }
{
    match absent {
        Some(_there) => unreachable!(),
        None => {}
    }
}
