//! What no clause says: that a heap is made where memory is there, and what comes of a refused request.
use space_heap::{Heap, HeapError};
use std::alloc::Global;
use test_doubles::Metered;

// What came of asking for a heap and closing it again.
#[derive(Drop)]
struct Asked {
    answer: Result<(), HeapError>,
    // how often memory was asked for
    requests: u64,
    // how many blocks came back
    returned: u64,
}

/// The request of that number is refused.
fn ask(alloc: Global, words: u32, refused: u64) -> Asked {
    let metered = Metered::refusing(alloc, refused);
    let answer = match Heap::new(&metered, words) {
        Ok(heap) => {
            heap.close();
            Ok(())
        }
        Err(refusal) => Err(refusal),
    };
    Asked {
        answer,
        requests: metered.requests(),
        returned: metered.returned(),
    }
}

#[test]
fn memory_is_asked_for_once_and_given_back_once(rt: HostRuntime) {
    for words in [0u32, 4, 12, 65_532, 65_536] {
        let granted = ask(rt.alloc(), words, 1);
        assert!(rt; granted.answer.is_ok());
        assert!(rt; (granted.requests, granted.returned) == (1, 1));
        let refused = ask(rt.alloc(), words, 0);
        assert!(rt; matches!(refused.answer, Err(HeapError::Memory)));
        assert!(rt; (refused.requests, refused.returned) == (1, 0));
    }
}

#[test]
fn a_bad_size_asks_for_no_memory(rt: HostRuntime) {
    for words in [1u32, 2, 6, 65_537, 65_540, u32::MAX] {
        let asked = ask(rt.alloc(), words, 0);
        assert!(rt; matches!(asked.answer, Err(HeapError::BadSize)));
        assert!(rt; (asked.requests, asked.returned) == (0, 0));
    }
}
