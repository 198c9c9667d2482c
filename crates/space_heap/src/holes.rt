//! The holes of a heap, linked in place order through their own first two words. `first` is where the first of them begins.
ghost use Rattle.std.specs.Prelude.{◌≡◌, ◌-◌, ◌%◌, ◌<◌, ◌≤◌, ℕ, List, length, true, IfSome};
ghost use Rattle.space_raw.specs.Slots.{IsRun};
ghost use Rattle.relocate.specs.Places.{Range, IsAlignment, IsSpaceSize};
ghost use Rattle.space_heap.specs.Maps.{IsBlock, range_of};
ghost use Rattle.space_heap.specs.Holes.{AreParts, AreWritten, HasHoles, IsBackOf, IsCarved, IsFit, IsFitBefore, IsFromOn, IsFront, IsLink, IsLowestBefore, IsRelinked, IsTaken, IsTakenPlace, LeadsTo, Rewrites, between, first_place, front_of_fit, in_rest};

use crate::find::{Fit, Found, last_before};
use crate::hole::{Hole, link_of};
use mem_rec::LEAST_ALIGNMENT;
use space_raw::{Piece, Rest};

/// The words from `from` up to `to` are left as a hole before `next`, if there are some. The place of the first hole from there on.
pub(crate) fn leave_hole(rest: &mut Rest, from: u32, to: u32, next: Option<u32>) -> Option<u32>
    requires order { (from ≤ to) × (to ≤ length rest.old.slots) × IsSpaceSize (length rest.old.slots) }
    requires units { (from % LEAST_ALIGNMENT ≡ 0) × (to % LEAST_ALIGNMENT ≡ 0) }
    requires there { (k : ℕ) → from ≤ k → k < to → in_rest rest.old.slots k ≡ true }
    requires next { IsLink next }
    ensures start { result ≡ first_place (between from to) next }
    ensures written { AreWritten rest.new.slots (between from to) next }
    ensures others { (rest.new.region ≡ rest.old.region) × Rewrites rest.old.slots from (to - from) rest.new.slots }
{
    if from == to {
        return next;
    }
    let hole = Hole {
        place: from,
        len: to - from,
        next,
    };
    hole.write(rest);
    Some(from)
}

/// The hole at `before` leads to `next` from now on. Without it, `next` is the first of all.
fn relink(rest: &mut Rest, first: &mut Option<u32>, before: Option<u32>, next: Option<u32>)
    requires there { IfSome before (λ p. IsRun rest.old.slots p 2) }
    requires next { IsLink next }
    ensures region { rest.new.region ≡ rest.old.region }
    ensures linked { IsRelinked rest.old.slots first.old before next rest.new.slots first.new }
{
    match before {
        Some(place) => {
            let (len, _next) = rest.tag(place);
            let tag = (len, link_of(next));
            rest.set_tag(place, tag);
        }
        None => *first = next,
    }
}

/// The words are taken out of the hole that they are in.
#[inline(always)]
pub(crate) fn carve(rest: &mut Rest, first: &mut Option<u32>, fit: Fit, words: u32) -> Piece
    requires fit { IsFit rest.old.slots first.old words fit }
    requires words { (0 < words) × (words % LEAST_ALIGNMENT ≡ 0) }
    ensures block { (result.region ≡ rest.old.region) × (result.place ≡ fit.place) × (length result.words ≡ words) }
    ensures rest { (rest.new.region ≡ rest.old.region) × (length rest.new.slots ≡ length rest.old.slots) }
    ensures holes { IsCarved rest.new.slots first.new words fit }
    ensures parts { AreParts (in_rest rest.old.slots) (range_of result) (in_rest rest.new.slots) }
{
    let Fit { found, place } = fit;
    let Found { before, hole } = found;
    let piece = rest.carve(place, words);
    let behind = leave_hole(rest, place + words, hole.end(), hole.next);
    let start = leave_hole(rest, hole.place, place, behind);
    relink(rest, first, before, start);
    piece
}

// Where the free words begin that end at a place, and the holes before and behind it that don't touch it.
pub(crate) struct Front {
    pub(crate) before: Option<u32>,
    pub(crate) from: u32,
    pub(crate) next: Option<u32>,
}

impl Front {
    /// What stands before a place, once the words from the fit's place to its hole's end are a block that ends there.
    pub(crate) fn behind(fit: Fit, place: u32) -> Front
        ensures { result ≡ front_of_fit fit place }
    {
        let Found { before, hole } = fit.found;
        let before = if hole.place < fit.place {
            Some(hole.place)
        } else {
            before
        };
        Front {
            before,
            from: place,
            next: hole.next,
        }
    }
}

/// What stands before a place: the hole that ends there joins the free words, or the last hole before them leads to them.
fn join_front(rest: &Rest, first: Option<u32>, place: u32) -> Front
    requires holes { HasHoles rest.now.slots first }
    requires block { IsTakenPlace rest.now.slots place }
    ensures { IsFront rest.now.slots first place result }
{
    match last_before(rest, first, place) {
        Some(found) => {
            let Found { before, hole } = found;
            if hole.end() == place {
                Front {
                    before,
                    from: hole.place,
                    next: hole.next,
                }
            } else {
                Front {
                    before: Some(hole.place),
                    from: place,
                    next: hole.next,
                }
            }
        }
        None => Front {
            before: None,
            from: place,
            next: first,
        },
    }
}

// Where the free words end that begin at a place, and the first hole behind them.
pub(crate) struct Back {
    pub(crate) to: u32,
    pub(crate) behind: Option<u32>,
}

/// What stands behind free words that end here: a hole that begins there joins them.
fn join_back(rest: &Rest, end: u32, next: Option<u32>) -> Back
    requires next { ((right : List Range) × LeadsTo rest.now.slots next right) × IsFromOn end next }
    requires end { (end % LEAST_ALIGNMENT ≡ 0) × (end ≤ length rest.now.slots) }
    ensures { IsBackOf rest.now.slots next end result }
{
    if next == Some(end) {
        let hole = Hole::read(rest, end);
        Back {
            to: hole.end(),
            behind: hole.next,
        }
    } else {
        Back {
            to: end,
            behind: next,
        }
    }
}

/// The piece's words are free from now on. With the holes that they touch they are one hole.
pub(crate) fn put_back(rest: &mut Rest, first: &mut Option<u32>, piece: Piece)
    requires holes { HasHoles rest.old.slots first.old }
    requires region { piece.region ≡ rest.old.region }
    requires block { IsBlock (length rest.old.slots) (range_of piece) }
    ensures rest { (rest.new.region ≡ rest.old.region) × (length rest.new.slots ≡ length rest.old.slots) }
    ensures holes { HasHoles rest.new.slots first.new }
    ensures parts { AreParts (in_rest rest.new.slots) (range_of piece) (in_rest rest.old.slots) }
{
    let mut piece = piece;
    rest.apart(&mut piece);
    let front = join_front(rest, *first, piece.place());
    put_behind(rest, first, front, piece);
}

/// The same, where it is known what stands before the piece.
#[inline(always)]
pub(crate) fn put_behind(rest: &mut Rest, first: &mut Option<u32>, front: Front, piece: Piece)
    requires region { piece.region ≡ rest.old.region }
    requires block { IsBlock (length rest.old.slots) (range_of piece) }
    requires taken { IsTaken rest.old.slots (range_of piece) }
    requires front { IsFront rest.old.slots first.old piece.place front }
    ensures rest { (rest.new.region ≡ rest.old.region) × (length rest.new.slots ≡ length rest.old.slots) }
    ensures holes { HasHoles rest.new.slots first.new }
    ensures parts { AreParts (in_rest rest.new.slots) (range_of piece) (in_rest rest.old.slots) }
{
    let Front { before, from, next } = front;
    let Back { to, behind } = join_back(rest, piece.place() + piece.len(), next);
    rest.absorb(piece);
    let start = leave_hole(rest, from, to, behind);
    relink(rest, first, before, start);
}

/// Where a piece can be lowered to: the least multiple of `align` in the hole that ends at its place.
#[tactic(auto, using(crate::proofs::Words::away_within))]
pub(crate) fn gap_before(
    rest: &mut Rest,
    first: Option<u32>,
    piece: &mut Piece,
    align: u32,
) -> Option<Fit>
    requires holes { HasHoles rest.old.slots first }
    requires region { piece.old.region ≡ rest.old.region }
    requires block { IsBlock (length rest.old.slots) (range_of piece.old) }
    requires align { IsAlignment align }
    ensures same { (rest.new ≡ rest.old) × (piece.new ≡ piece.old) }
    ensures taken { IsTaken rest.old.slots (range_of piece.old) }
    ensures found { IfSome result (IsFitBefore rest.old.slots first piece.old.place) }
    ensures place { IsLowestBefore rest.old.slots piece.old.place align result }
{
    rest.apart(piece);
    let start = piece.place();
    let found = last_before(rest, first, start)?;
    let place = found.hole.place.next_multiple_of(align);
    if found.hole.end() == start && place < start {
        Some(Fit { found, place })
    } else {
        None
    }
}
