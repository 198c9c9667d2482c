//! The search among the holes, in place order.
ghost use Rattle.std.specs.Prelude.{◌+◌, ◌<◌, ◌≤◌, IfSome, IfNone};
ghost use Rattle.relocate.specs.Places.{IsAlignment};
ghost use Rattle.space_heap.specs.Holes.{HasHoles, HasNoPlace, IsFit, IsFromOn, IsLastBefore, IsLeastPlace, in_rest};

use crate::hole::Hole;
use relocate::GREATEST_NEED;
use space_raw::Rest;

// A hole, and where the one before it begins, if there is one.
#[derive(Clone, Copy)]
pub(crate) struct Found {
    pub(crate) before: Option<u32>,
    pub(crate) hole: Hole,
}

// A place, and the hole that it is in.
#[derive(Clone, Copy)]
pub(crate) struct Fit {
    pub(crate) found: Found,
    pub(crate) place: u32,
}

/// The least place for `words` words. Holes are looked at up to the first in which they fit.
pub(crate) fn find(rest: &Rest, first: Option<u32>, words: u32, align: u32) -> Option<Fit>
    requires holes { HasHoles rest.now.slots first }
    requires words { (0 < words) × (words ≤ GREATEST_NEED) }
    requires align { IsAlignment align }
    ensures fit { IfSome result (IsFit rest.now.slots first words) }
    ensures least { IfSome result (λ f. IsLeastPlace (in_rest rest.now.slots) words align f.place) }
    ensures none { IfNone result (HasNoPlace (in_rest rest.now.slots) words align) }
{
    let mut before = None;
    let mut next = first;
    while let Some(at) = next {
        let hole = Hole::read(rest, at);
        let place = at.next_multiple_of(align);
        if place + words <= hole.end() {
            let found = Found { before, hole };
            return Some(Fit { found, place });
        }
        before = next;
        next = hole.next;
    }
    None
}

/// The last hole that begins before the place.
#[inline(always)]
pub(crate) fn last_before(rest: &Rest, first: Option<u32>, place: u32) -> Option<Found>
    requires holes { HasHoles rest.now.slots first }
    ensures found { IfSome result (IsLastBefore rest.now.slots first place) }
    ensures none { IfNone result (IsFromOn place first) }
{
    let mut before = None;
    let mut last = None;
    let mut next = first;
    while let Some(at) = next {
        if place <= at {
            return last;
        }
        let hole = Hole::read(rest, at);
        last = Some(Found { before, hole });
        before = next;
        next = hole.next;
    }
    last
}
