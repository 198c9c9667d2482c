//! That nothing is kept of a heap's holes beside the free words: a heap is these six fields.
ghost use Rattle.std.specs.Prelude.{◌≡◌, [], ◌∷◌};
ghost use Rattle.space_raw.specs.Span.{IsWhole};
ghost use Rattle.space_heap.specs.Maps.{Holds};

use super::{Heap, HeapError};
use space_raw::{Piece, Region, Rest};
use std::test::Fail;

/// A heap of 8 free words: one hole of two units, without a next one.
fn of_eight_words(region: Region, all: Piece) -> Heap
    requires whole { (all.region ≡ region) × IsWhole all × (region.size ≡ 8) }
    ensures free { (result.region ≡ region) × Holds result [] }
{
    let mut rest = Rest::of(all);
    let tag = (2, -1);
    rest.set_tag(0, tag);
    Heap {
        region,
        rest,
        size: 8,
        first: Some(0),
        free: 8,
        slid: 0,
    }
}

#[test]
fn a_heap_is_six_fields(rt: HostRuntime) -> Result<(), Fail> {
    let (region, all) = Region::make(rt.alloc(), 8)?;
    let mut heap = of_eight_words(region, all);
    let fresh = (heap.size(), heap.free(), heap.slid());
    let taken = match heap.take(5, 4) {
        Some(block) => {
            let seen = (block.place(), block.len(), heap.free());
            heap.give(block);
            Some(seen)
        }
        None => None,
    };
    heap.close();
    assert!(rt; fresh == (8, 8, 0));
    assert!(rt; taken == Some((0, 8, 0)));
    Ok(())
}
