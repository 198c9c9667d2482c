//! What no clause says: that a space, and the three of a host, are made where memory is there; and how sizes are refused.
use host_map::Sizes;
use host_spaces::{SpaceBlocks, Spaces, StartError};
use space_heap::HeapError;

/// Spaces of these sizes.
fn sizes(daram: u32, saram: u32, external: u32) -> Sizes {
    Sizes {
        daram,
        saram,
        external,
    }
}

#[test]
fn a_space_is_made_empty(rt: HostRuntime) {
    for words in [0u32, 4, 65_536] {
        match SpaceBlocks::new(rt.alloc(), words) {
            Ok(space) => {
                assert!(rt; space.size() == words && space.map().is_empty());
                space.close();
            }
            Err(_refusal) => assert!(rt; false),
        }
    }
}

#[test]
fn three_spaces_are_made(rt: HostRuntime) {
    match Spaces::new(rt.alloc(), sizes(65_536, 0, 4)) {
        Ok(spaces) => spaces.close(),
        Err(_refusal) => assert!(rt; false),
    }
}

#[test]
fn a_bad_size_is_refused(rt: HostRuntime) {
    for words in [1u32, 6, 65_540] {
        match SpaceBlocks::new(rt.alloc(), words) {
            Ok(space) => {
                space.close();
                assert!(rt; false);
            }
            Err(refusal) => assert!(rt; matches!(refusal, HeapError::BadSize)),
        }
    }
}

#[test]
fn one_bad_size_of_three_is_refused(rt: HostRuntime) {
    for (daram, saram, external) in [(1, 0, 0), (65_536, 65_540, 4), (4, 4, 2)] {
        match Spaces::new(rt.alloc(), sizes(daram, saram, external)) {
            Ok(spaces) => {
                spaces.close();
                assert!(rt; false);
            }
            Err(refusal) => assert!(rt; refusal == StartError::BadSize),
        }
    }
}
