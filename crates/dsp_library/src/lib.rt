// SPDX-License-Identifier: Apache-2.0
//! The library for C, linked as a static library: a host of instances in three spaces, chained into channels, behind a handle that the
//! caller keeps; and the basic operators, a FIR filter and G.711 on numbers and blocks of samples, which ask for no memory and keep none.
//!
//! Each function tests what it is given, and answers `DONE` or a code that says why nothing was done. What a call of the host does is said
//! in terms of the machine of `channel_spec`, which the channels behind the handle keep.
#![tactic(auto)]

mod blocks;
mod calls;
mod codes;
mod companding;
mod controls;
mod feeding;
mod handle;
mod held;
mod machine;
mod operators;
mod spaces;

/// The call did what it says. The codes 3 to 9 are the numbers of `Refusal`.
pub const DONE: i32 = 0;

/// The operands of a quotient aren't 0 <= a <= b with b above 0.
pub const BAD_OPERAND: i32 = 6;

/// A size isn't a multiple of 4 up to 65,536, or the number of channels isn't 1 to 16.
pub const BAD_SIZE: i32 = 16;

/// There is no memory.
pub const NO_MEMORY: i32 = 17;

/// The handle isn't open.
pub const CLOSED: i32 = 18;

/// The handle is open already.
pub const OPEN: i32 = 19;

/// A block or list has too few or too many items, two blocks have different lengths, or there is too little room for the answer.
pub const BAD_LENGTH: i32 = 20;

/// No kind has the number.
pub const BAD_KIND: i32 = 21;

/// No space has the number.
pub const BAD_SPACE: i32 = 22;

/// The number of the law isn't 0 (A-law) or 1 (mu-law).
pub const BAD_LAW: i32 = 23;

/// What an open handle has for its mark. Any other word is that of a closed one.
pub const MARK: u64 = 0x6b6f_7220_6461_756d;
