// A box that is taken apart.
ghost use Rattle.std.specs.Prelude.{◌≡◌};
ghost use Rattle.std.specs.Box.Ownership.{box_owns};
ghost use Rattle.std_heap.specs.contracts.GlobalAllocator.TheImpl.{ghosts};

use std::alloc::Global;
use std::marker::Model;

// What a box was made of, with its pointer in sight of the module above. It owns what the box owned.
pub(super) struct Apart<T> {
    pub(super) at: *mut T,
    pub(super) alloc: Global,
    pub(super) ghost value: { T },
}

impl<T> Model for Apart<T> {
    ghost also_owns = { λ a. box_owns (ghosts.dealloc_token a.alloc) T.row a.at a.value };
}

impl<T> Apart<T> {
    /// The address of what stands in a box, and its allocator.
    pub(super) fn of(boxed: Box<T>) -> Apart<T>
    where
        T: Drop,
        ensures { result.value ≡ boxed.value }
    {
        let (at, alloc) = Box::into_raw_with_allocator(boxed);
        Apart { at, alloc }
    }
}
