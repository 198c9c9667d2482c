// SPDX-License-Identifier: Apache-2.0
//! The basic operators of ITU-T G.191 (the ITU-T Software Tool Library's module BASOP) on words of 16 and 32 bits.
//!
//! A Word16 is an `i16` and a Word32 an `i32`; as fractions they are in Q15 and Q31. Each operator is one function,
//! named as in the standard but in lower case, and each saturates where the standard's does: its clause gives the
//! value as a function of whole numbers. The flags Overflow and Carry are left out.
//!
//! Beside them stand the whole product of two words, and sums by halves: a step of `half_mac` is what a step of `l_mac` is, of half of the
//! sum, and has neither a doubling nor a test for overflow.
#![tactic(auto)]

mod halves;
mod long;
mod norm;
mod shift;
mod short;
mod wide;

pub use halves::{half_mac, half_msu, half_mult, half_round, half_round_doubled};
pub use long::{
    extract_h, extract_l, l_abs, l_add, l_deposit_h, l_deposit_l, l_mac, l_msu, l_mult, l_negate,
    l_sub, round,
};
pub use norm::{div_s, norm_l, norm_s};
pub use shift::{l_shl, l_shr, shl, shr};
pub use short::{abs_s, add, mult, mult_r, negate, sub};
pub use wide::product;
