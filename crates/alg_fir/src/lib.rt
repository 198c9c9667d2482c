// SPDX-License-Identifier: Apache-2.0
//! Finite impulse response filters on 16-bit samples, as algorithms: one that gives an output for each sample, and one
//! that gives each M-th of them.
#![tactic(auto)]

mod decimation;
mod decimator;
mod delay;
mod filter;
mod rows;

pub use decimator::{Decim, decim_is_lawful};
pub use filter::Fir;
pub use fir_kernel::MOST_COEFFICIENTS;
pub use rows::fir_rows;

/// The alignment of the delay line, which is a ring.
pub const LINE_ALIGNMENT: u32 = 16;

/// The kind word of a filter's instance object.
pub const FIR_KIND: i16 = 1;

/// The kind word of a decimator's instance object.
pub const DECIM_KIND: i16 = 2;

/// The records of a decimator: the object, the kept words, the constants, and the ring.
pub const DECIM_RECORDS: usize = 4;

/// The alignment of a decimator's constants.
pub const CONSTANTS_ALIGNMENT: u32 = 8;

/// The greatest factor of a decimator.
pub const MOST_FACTOR: i16 = 16;
