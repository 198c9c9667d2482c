// SPDX-License-Identifier: Apache-2.0
//! The kernels of finite impulse response filters over plain words, and the ring of past samples that they read.
//!
//! They know nothing of records or instances. Coefficients are in Q15, that of the newest sample first.
#![tactic(auto)]

mod bounded;
mod half_eights;
mod half_lanes;
mod halves;
mod in_order;
mod kernel;
mod ring;
mod watched;
mod windows;

pub use kernel::filter;
pub use ring::{enter, named_place, unroll};

/// The most coefficients of a filter.
pub const MOST_COEFFICIENTS: usize = 64;

/// The most samples of a short block. What a call needs beside its records stands in arrays, and those are cleared first: a short block has
/// arrays of this length, a longer one of `ialg`'s `BLOCK_SAMPLES`.
pub const SHORT_BLOCK: usize = 256;

/// The most samples that have arrays of this length, shorter still: a sample, or a few of them.
pub const FEW_SAMPLES: usize = 16;

/// The least magnitude of a sum of products that leaves 32 bits when it is doubled.
pub const LEAST_UNBOUNDED_SUM: u64 = 1 << 30;

/// The greatest magnitude of a sample.
pub const GREATEST_MAGNITUDE: u64 = 1 << 15;
