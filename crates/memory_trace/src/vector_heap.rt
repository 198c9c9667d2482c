//! The heap's earlier body as a program over numbers: its holes are kept in a vector, in place order. The heap is compared with it.

use mem_rec::LEAST_ALIGNMENT;
use relocate::is_space_size;
use std::alloc::Global;

// Free words. No two holes of a heap touch.
#[derive(Clone, Copy, Drop)]
struct Hole {
    place: u32,
    len: u32,
}

impl Hole {
    /// The place behind its last word.
    fn end(self) -> u32 {
        self.place.saturating_add(self.len)
    }

    /// The least multiple of `align` at which the words fit.
    fn fit(self, words: u32, align: u32) -> Option<u32> {
        let place = self.place.checked_next_multiple_of(align)?;
        (place.checked_add(words)? <= self.end()).then_some(place)
    }

    /// Whether one begins where the other ends.
    fn touches(self, other: Hole) -> bool {
        self.end() == other.place || other.end() == self.place
    }

    /// One hole of this one and one that touches it.
    fn joined(self, other: Option<Hole>) -> Hole {
        match other {
            Some(other) => Hole {
                place: self.place.min(other.place),
                len: self.len.saturating_add(other.len),
            },
            None => self,
        }
    }
}

// A place, and the number of the hole that it is in.
#[derive(Clone, Copy, Drop)]
struct Fit {
    hole: usize,
    place: u32,
}

/// A heap of one space that has no words, only their numbers.
#[derive(Drop)]
pub struct VectorHeap {
    holes: Vec<Hole>,
    free: u32,
    slid: u64,
}

impl VectorHeap {
    /// A heap of that many words, all of them free. Room for as many holes as there can be is asked for here. `None` for a size that
    /// isn't one, or without memory.
    pub fn new(alloc: Global, words: u32) -> Option<VectorHeap> {
        if !is_space_size(words) {
            return None;
        }
        let room = words / (2 * LEAST_ALIGNMENT) + 1;
        let mut heap = VectorHeap {
            holes: Vec::with_capacity(alloc, room as usize).ok()?,
            free: words,
            slid: 0,
        };
        let all = Hole {
            place: 0,
            len: words,
        };
        heap.put(0, all);
        Some(heap)
    }

    /// The least multiple of `align` at which `words` words, one at least, rounded up to a multiple of 4, lie in a hole.
    pub fn take(&mut self, words: u32, align: u32) -> Option<u32> {
        let size = words.checked_next_multiple_of(LEAST_ALIGNMENT)?;
        let Fit { hole, place } = self.find(size, align)?;
        self.carve(hole, place, size);
        self.free = self.free.saturating_sub(size);
        Some(place)
    }

    /// The block is free from now on.
    pub fn give(&mut self, place: u32, len: u32) {
        self.put_back(Hole { place, len });
        self.free = self.free.saturating_add(len);
    }

    /// The block's place after it was moved to the least multiple of `align` in the hole that ends where it begins.
    pub fn lower(&mut self, place: u32, len: u32, align: u32) -> u32 {
        let Some(Fit { hole, place: to }) = self.gap_before(place, align) else {
            return place;
        };
        let moved = place.saturating_sub(to);
        self.carve(hole, to, moved);
        self.put_back(Hole {
            place: to.saturating_add(len),
            len: moved,
        });
        self.slid = self.slid.saturating_add(u64::from(len));
        to
    }

    /// The words that no block has.
    pub fn free(&self) -> u32 {
        self.free
    }

    /// The words that `lower` has moved, again for each move.
    pub fn slid(&self) -> u64 {
        self.slid
    }

    /// Holes are looked at in place order, up to the first in which the words fit.
    fn find(&self, words: u32, align: u32) -> Option<Fit> {
        self.holes.iter().enumerate().find_map(|(hole, free)| {
            let place = free.fit(words, align)?;
            Some(Fit { hole, place })
        })
    }

    /// How many holes begin before the place.
    fn position(&self, place: u32) -> usize {
        self.holes
            .iter()
            .take_while(|hole| hole.place < place)
            .count()
    }

    /// Where a block can be lowered to, in the hole that ends at its place.
    fn gap_before(&self, place: u32, align: u32) -> Option<Fit> {
        let hole = self.position(place).checked_sub(1)?;
        let gap = *self.holes.get(hole)?;
        let to = gap.place.checked_next_multiple_of(align)?;
        (gap.end() == place && to < place).then_some(Fit { hole, place: to })
    }

    /// The hole is put in at `i`, if it has words. There is room, so no memory is asked for.
    fn put(&mut self, i: usize, hole: Hole) {
        if hole.len > 0 && i <= self.holes.len() {
            let _ = self.holes.insert(i, hole);
        }
    }

    /// The words are taken out of the i-th hole.
    fn carve(&mut self, i: usize, place: u32, words: u32) {
        if i >= self.holes.len() {
            return;
        }
        let hole = self.holes.remove(i);
        let end = place.saturating_add(words);
        let before = Hole {
            place: hole.place,
            len: place.saturating_sub(hole.place),
        };
        let behind = Hole {
            place: end,
            len: hole.end().saturating_sub(end),
        };
        self.put(i, behind);
        self.put(i, before);
    }

    /// The i-th hole is taken out where it touches the piece.
    fn take_touching(&mut self, i: usize, piece: Hole) -> Option<Hole> {
        if i < self.holes.len() && self.holes[i].touches(piece) {
            Some(self.holes.remove(i))
        } else {
            None
        }
    }

    /// The piece is a hole from now on, together with the holes that it touches.
    fn put_back(&mut self, piece: Hole) {
        let i = self.position(piece.place);
        let behind = self.take_touching(i, piece);
        let before = match i.checked_sub(1) {
            Some(at) => self.take_touching(at, piece),
            None => None,
        };
        let at = i.saturating_sub(usize::from(before.is_some()));
        self.put(at, piece.joined(before).joined(behind));
    }
}
