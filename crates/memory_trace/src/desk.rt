//! A heap and the blocks that are taken of it, in the order of their taking. Each step is done by the heap's earlier body too.

use crate::vector_heap::VectorHeap;
use mem_rec::{GREATEST_ALIGNMENT, LEAST_ALIGNMENT};
use relocate::GREATEST_NEED;
use space_heap::Heap;
use space_raw::Piece;
use std::alloc::Global;
use std::marker::Model;

// The greatest number of blocks that are held at one time.
const HELD: usize = 64;

/// What a body shows after a step: the block's place, the free words and the words that were moved.
#[derive(Clone, Copy, Drop, PartialEq)]
pub struct Seen {
    pub place: Option<u32>,
    pub free: u32,
    pub slid: u64,
}

/// What both bodies show after a step. They should show the same.
#[derive(Clone, Copy, Drop)]
pub struct Both {
    pub heap: Seen,
    pub vector: Seen,
}

/// A heap, the blocks that are taken of it, and the heap's earlier body.
pub struct Desk {
    heap: Heap,
    held: Vec<Piece>,
    vector: VectorHeap,
}

impl Model for Desk {
    ghost use Rattle.std.specs.Prelude.{◌≤◌, map};
    ghost use Rattle.std.specs.Vec.{vec_capacity};
    ghost use Rattle.space_heap.specs.Maps.{HeapState, Holds, range_of};
    ghost use Rattle.memory_trace.specs.Held.{AreOf};
    ghost use Rattle.memory_trace.specs.declared.desk.TheConstants.{HELD};

    ghost Value = { HeapState };

    ghost view = { λ d. d.heap };

    ghost invariant = { λ d. Holds d.heap (map range_of d.held.items) × AreOf d.heap.region d.held.items × (HELD ≤ vec_capacity d.held) };
}

impl Desk {
    /// No block is taken. `None` for a size that isn't one, or without memory.
    pub fn open(alloc: Global, words: u32) -> Option<Desk> {
        let vector = VectorHeap::new(alloc, words)?;
        let held = match Vec::with_capacity(alloc, HELD) {
            Ok(held) => held,
            Err(_refused) => return None,
        };
        match Heap::new(alloc, words) {
            Ok(heap) => Some(Desk { heap, held, vector }),
            Err(_refusal) => {
                held.destroy_empty();
                None
            }
        }
    }

    /// A new block, which is the last one.
    pub fn take(&mut self, words: u32, align: u32) -> Both {
        if words == 0
            || words > GREATEST_NEED
            || align == 0
            || align > GREATEST_ALIGNMENT
            || align % LEAST_ALIGNMENT != 0
        {
            return self.seen();
        }
        if self.held.len() >= HELD {
            return self.seen();
        }
        let vector = self.vector.take(words, align);
        match self.heap.take(words, align) {
            Some(block) => {
                let place = block.place();
                self.held.push_reserved(block);
                self.both(Some(place), vector)
            }
            None => self.both(None, vector),
        }
    }

    /// The i-th block goes back.
    pub fn give(&mut self, i: usize) -> Both {
        if i >= self.held.len() {
            return self.seen();
        }
        let block = self.held.remove(i);
        let (place, len) = (block.place(), block.len());
        self.heap.give(block);
        self.vector.give(place, len);
        self.seen()
    }

    /// The i-th block is moved down.
    pub fn lower(&mut self, i: usize, align: u32) -> Both {
        if i >= self.held.len()
            || align == 0
            || align > GREATEST_ALIGNMENT
            || align % LEAST_ALIGNMENT != 0
        {
            return self.seen();
        }
        let block = self.held.remove(i);
        let vector = self.vector.lower(block.place(), block.len(), align);
        let block = self.heap.lower(block, align);
        let place = block.place();
        match self.held.insert(i, block) {
            Ok(()) => {}
            Err(_refused) => unreachable!(),
        }
        self.both(Some(place), Some(vector))
    }

    /// What both bodies show without a block.
    pub fn seen(&self) -> Both {
        self.both(None, None)
    }

    /// The same with the place of the block in each body.
    fn both(&self, heap: Option<u32>, vector: Option<u32>) -> Both {
        Both {
            heap: Seen {
                place: heap,
                free: self.heap.free(),
                slid: self.heap.slid(),
            },
            vector: Seen {
                place: vector,
                free: self.vector.free(),
                slid: self.vector.slid(),
            },
        }
    }

    /// All blocks go back, and then the heap.
    pub fn close(self) {
        let Desk {
            mut heap,
            mut held,
            vector: _,
        } = self;
        while let Some(block) = held.pop() {
            heap.give(block);
        }
        held.destroy_empty();
        heap.close();
    }
}
