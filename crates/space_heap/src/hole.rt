//! A hole, and how it stands in its own first two words.
ghost use Rattle.std.specs.Prelude.{◌≡◌, ◌+◌, ◌*◌, ◌/◌, ◌<◌, ◌^◌, ℕ, Option, pos};
ghost use Rattle.space_heap.specs.Holes.{IsLink, link};

use mem_rec::LEAST_ALIGNMENT;
use space_raw::Rest;

// Stands for no next hole.
const NO_PLACE: i16 = -1;

// A range of free words, and where the next one begins.
#[derive(Clone, Copy)]
pub(crate) struct Hole {
    pub(crate) place: u32,
    pub(crate) len: u32,
    pub(crate) next: Option<u32>,
}

/// A length or a place as a word, in units of the least alignment: at most 16,384 of them.
fn word_of(words: u32) -> i16
    requires { words < 2 ^ 15 * LEAST_ALIGNMENT }
    ensures { result ≡ pos (words / LEAST_ALIGNMENT) }
{
    (words / LEAST_ALIGNMENT) as i16
}

/// The length or the place that the word stands for.
fn words_of(word: i16) -> u32
    ensures { (n : ℕ) → word ≡ pos n → result ≡ n * LEAST_ALIGNMENT }
{
    u32::from(word.cast_unsigned()) * LEAST_ALIGNMENT
}

/// The place of a next hole as a word.
pub(crate) fn link_of(next: Option<u32>) -> i16
    requires { IsLink next }
    ensures { result ≡ link next }
{
    match next {
        Some(place) => word_of(place),
        None => NO_PLACE,
    }
}

/// The place that the word stands for.
fn place_of(word: i16) -> Option<u32>
    ensures { (next : Option ℕ) → IsLink next → word ≡ link next → result ≡ next }
{
    if word == NO_PLACE {
        None
    } else {
        Some(words_of(word))
    }
}

impl Hole {
    ghost use Rattle.space_raw.specs.Slots.{IsRun};
    ghost use Rattle.space_heap.specs.Holes.{IsHole, IsWritten, Rewrites, hole_end};

    /// The place behind its last word.
    pub(crate) fn end(&self) -> u32
        requires { hole_end self.now < 2 ^ 32 }
        ensures { result ≡ hole_end self.now }
    {
        self.place + self.len
    }

    /// The hole that stands at the place.
    pub(crate) fn read(rest: &Rest, place: u32) -> Hole
        requires written { (h : Hole) × (h.place ≡ place) × IsHole h × IsWritten rest.now.slots h }
        ensures hole { (h : Hole) → h.place ≡ place → IsHole h → IsWritten rest.now.slots h → result ≡ h }
    {
        let (len, next) = rest.tag(place);
        Hole {
            place,
            len: words_of(len),
            next: place_of(next),
        }
    }

    /// The hole stands in its first two words from now on.
    pub(crate) fn write(self, rest: &mut Rest)
        requires hole { IsHole self }
        requires there { IsRun rest.old.slots self.place 2 }
        ensures region { rest.new.region ≡ rest.old.region }
        ensures written { IsWritten rest.new.slots self }
        ensures others { Rewrites rest.old.slots self.place 2 rest.new.slots }
    {
        let tag = (word_of(self.len), link_of(self.next));
        rest.set_tag(self.place, tag);
    }
}
