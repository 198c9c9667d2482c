// SPDX-License-Identifier: Apache-2.0
//! A DC blocker: docs/OWN_KIND.md has it as the example of a kind with a state.
#![tactic(auto)]

ghost use Rattle.std.specs.Prelude.{◌≡◌, codes, length};
ghost use Rattle.std.proofs.Common.{lit≤};
ghost use Rattle.test_blocker.specs.declared.TheConstants.{BLOCKER_KIND, STATE_WORDS};
ghost use Rattle.test_blocker.specs.Equation.{blocked, nothing, ratio_named, taken, words_of};
ghost use Rattle.test_blocker.specs.Rows.{BlockerRows};

use basic_op::{add, mult_r, sub};
use kind_steps::{Recursion, Recursive};

/// The words of a blocker's state.
pub const STATE_WORDS: usize = 2;

/// The kind word of a blocker's instance object.
pub const BLOCKER_KIND: i16 = 99;

/// A DC blocker. Its parameter is r in Q15: the nearer to 1, the lower the frequencies that pass.
pub type Blocker = Recursive<Blocking>;

/// The newest sample, and what was given for it.
#[derive(Clone, Copy)]
pub struct Past {
    pub x1: i16,
    pub y1: i16,
}

/// What a blocker makes of a sample.
#[derive(Clone, Copy, PartialEq, Eq, Debug)]
pub struct Blocking;

impl Recursion for Blocking {
    type Tuning = i16;

    type State = Past;

    const KIND: i16 = BLOCKER_KIND;

    const STATE_WORDS: usize = STATE_WORDS;

    ghost KIND = { BLOCKER_KIND };

    ghost STATE_WORDS = { STATE_WORDS };

    ghost name = { codes "blocker" };

    ghost tuned = { ratio_named };

    ghost first = { nothing };

    ghost taken = { taken };

    ghost words_of = { words_of };

    fn name() -> &'static [u8] {
        b"blocker".as_slice()
    }

    fn tune(p: &[i16]) -> Option<i16> {
        ratio(p)
    }

    fn first() -> Past {
        Past { x1: 0, y1: 0 }
    }

    fn take(ratio: i16, x: i16, state: &Past) -> (Past, i16) {
        take(ratio, x, state)
    }

    fn read(words: &[i16]) -> Past {
        Past {
            x1: words[0],
            y1: words[1],
        }
    }

    fn write(state: &Past, words: &mut [i16]) {
        words.copy_from_slice(&[state.x1, state.y1]);
    }

    ghost some = { lit≤ tt };

    ghost few = { lit≤ tt };
}

/// The ratio that these parameters name.
fn ratio(p: &[i16]) -> Option<i16>
    ensures { result ≡ ratio_named p.now }
{
    let [ratio] = p else {
        return None;
    };
    Some(*ratio)
}

/// What a sample gives.
#[tactic(auto, unfolding(crate::specs::Equation::blocked))]
fn blocked(ratio: i16, x: i16, past: &Past) -> i16
    ensures { result ≡ blocked ratio x past.now }
{
    add(sub(x, past.x1), mult_r(ratio, past.y1))
}

/// Takes a sample: the state behind it, and what it gives.
#[tactic(auto, unfolding(crate::specs::Equation::taken))]
fn take(ratio: i16, x: i16, past: &Past) -> (Past, i16)
    ensures { result ≡ taken ratio x past.now }
{
    let y = blocked(ratio, x, past);
    (Past { x1: x, y1: y }, y)
}

/// The law that the definition gives what the worked rows say. The call does nothing: its contract is the law.
pub fn blocker_rows()
    ensures { BlockerRows }
{}
