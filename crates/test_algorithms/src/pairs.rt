//! Pairs of what was given and what is wanted.
use std::process::Abort;

/// Asserts of each pair that what was given is what is wanted.
pub fn assert_pairs<T: PartialEq>(rt: &impl Abort, pairs: &[(T, T)]) {
    for (k, (given, wanted)) in pairs.iter().enumerate() {
        assert!(rt; given == wanted, "pair {k}");
    }
}
