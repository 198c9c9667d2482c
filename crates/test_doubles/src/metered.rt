//! An allocator that counts what passes through it, and refuses one request.
//!
//! Its contract is the trait's: what it hands out is memory, and goes back to where it came from. The counts stand in cells, and no clause
//! can say what a cell holds. So tests alone show that they are right, and that the one request is refused.

use std::alloc::{AllocError, Allocator};
use std::cell::Cell;

// What came by so far, and the number of the request to be refused.
#[derive(Drop)]
struct Meter {
    refused: Option<u64>,
    requests: Cell<u64>,
    returned: Cell<u64>,
}

impl Meter {
    /// A meter that refuses the request of this number, if there is one.
    fn new(refused: Option<u64>) -> Meter {
        Meter {
            refused,
            requests: Cell::new(0),
            returned: Cell::new(0),
        }
    }

    /// Counts a request, and says whether it is to be refused.
    fn refuses(&self) -> bool {
        let number = self.requests.get();
        self.requests.set(number.wrapping_add(1));
        self.refused == Some(number)
    }

    /// Counts a block that comes back.
    fn takes_back(&self) {
        self.returned.set(self.returned.get().wrapping_add(1));
    }
}

/// Passes requests on to another allocator, and blocks back to it. It counts both, and can refuse one request.
pub struct Metered<B: Allocator> {
    inner: B,
    meter: Meter,
}

impl<B: Allocator> Metered<B> {
    /// Refuses no request.
    pub fn new(inner: B) -> Metered<B> {
        Metered {
            inner,
            meter: Meter::new(None),
        }
    }

    /// Refuses the request of that number, without asking the other allocator. The first request has the number 0.
    pub fn refusing(inner: B, number: u64) -> Metered<B> {
        Metered {
            inner,
            meter: Meter::new(Some(number)),
        }
    }

    /// How many requests came so far, with the refused one.
    pub fn requests(&self) -> u64 {
        self.meter.requests.get()
    }

    /// How many blocks came back so far.
    pub fn returned(&self) -> u64 {
        self.meter.returned.get()
    }
}

impl<B: Allocator> Drop for Metered<B> {
    fn drop(self) {
        let Self { inner: _, meter: _ } = self;
    }
}

unsafe impl<B: Allocator> Allocator for Metered<B> {
    ghost dealloc_token = { λ metered ty ptr. B.dealloc_token metered.inner ty ptr };

    fn allocate(&self, size: usize, align: usize) -> Result<*mut u8, AllocError> {
        if self.meter.refuses() {
            return Err(AllocError);
        }
        self.inner.allocate(size, align)
    }

    unsafe fn deallocate(&self, ptr: *mut u8, size: usize, align: usize) {
        self.meter.takes_back();
        self.inner.deallocate(ptr, size, align);
    }
}
