//! What a frame makes of a detector's state.
ghost use Rattle.std.specs.Prelude.{◌≡◌, ◌∷◌, ℤ, [], int_lt, length};
ghost use Rattle.basic_op.specs.Operators.{l_shl_of};
ghost use Rattle.kind_parts.specs.Words.{sum_words};
ghost use Rattle.kind_steps.specs.Steppings.{onto};
ghost use Rattle.alg_activity.specs.Equation.{energy_of, greater_of, lasting, lesser_of, next, risen, told_of, tracked, with_square};
ghost use Rattle.alg_activity.specs.Keeps.{heard_words};

use crate::{PARAMETERS, SPEECH, STATE_WORDS};
use basic_op::{add, extract_h, extract_l, l_add, l_mult, l_shl, l_shr, sub};
use kind_parts::kept_sum;

/// What is heard of the frames so far: the floor, and for how many frames, from the newest on, speech is told.
#[derive(Clone, Copy)]
pub struct Heard {
    pub floor: i32,
    pub left: i16,
}

impl Heard {
    /// Before the first frame.
    pub const NOTHING: Heard = Heard {
        floor: i32::MAX,
        left: 0,
    };
}

/// The energy with the square of one more sample, shifted to the right by so many bits.
fn with_square(shift: i16, x: i16, energy: i32) -> i32
    ensures { result ≡ with_square shift x energy }
{
    l_add(energy, l_shr(l_mult(x, x), shift))
}

/// The energy of a frame.
pub(crate) fn energy(shift: i16, samples: &[i16]) -> i32
    ensures { result ≡ energy_of shift (onto samples.now []) }
{
    let mut energy = 0;
    for x in samples {
        energy = with_square(shift, *x, energy);
    }
    energy
}

/// The lesser of two.
fn lesser(a: i32, b: i32) -> i32
    ensures { result ≡ lesser_of a b }
{
    if b < a { b } else { a }
}

/// The greater of two.
fn greater(a: i32, b: i32) -> i32
    ensures { result ≡ greater_of a b }
{
    if a < b { b } else { a }
}

/// The floor one frame later, where no frame holds it down.
fn risen(rise: i16, floor: i32) -> i32
    ensures { result ≡ risen rise floor }
{
    l_add(floor, l_add(l_shr(floor, rise), 1))
}

/// The floor behind a frame.
#[tactic(auto, unfolding(crate::specs::Equation::tracked))]
fn tracked(rise: i16, least: i16, energy: i32, floor: i32) -> i32
    ensures { result ≡ tracked rise least energy floor }
{
    greater(i32::from(least), lesser(energy, risen(rise, floor)))
}

/// Whether a frame is louder than the margin over the floor.
fn is_loud(margin: i16, energy: i32, floor: i32) -> bool
    ensures { result ≡ int_lt (l_shl_of floor margin) energy }
{
    l_shl(floor, margin) < energy
}

/// For how many frames speech is told, from this one on.
#[tactic(auto, unfolding(crate::specs::Equation::lasting))]
fn lasting(margin: i16, hang: i16, energy: i32, floor: i32, left: i16) -> i16
    ensures { result ≡ lasting margin hang energy floor left }
{
    if is_loud(margin, energy, floor) {
        add(hang, 1)
    } else if left > 0 {
        sub(left, 1)
    } else {
        0
    }
}

/// What is heard behind a frame of this energy.
#[tactic(auto, unfolding(crate::specs::Equation::next))]
pub(crate) fn next(p: &[i16], energy: i32, before: &Heard) -> Heard
    requires { length p.now ≡ PARAMETERS }
    ensures { result ≡ next p.now energy before.now }
{
    let floor = tracked(p[3], p[4], energy, before.floor);
    let left = lasting(p[2], p[5], energy, floor, before.left);
    Heard { floor, left }
}

/// What is told of the newest frame.
pub(crate) fn told(s: &Heard) -> i16
    ensures { result ≡ told_of s.now }
{
    if s.left > 0 { SPEECH } else { 0 }
}

/// Writes the state into the words.
pub(crate) fn write(s: &Heard, words: &mut [i16])
    requires { length words.old ≡ STATE_WORDS }
    ensures { words.new ≡ heard_words s.now }
{
    words.copy_from_slice(&[s.left, extract_h(s.floor), extract_l(s.floor)]);
}

/// The state that these words have.
pub(crate) fn read(words: &[i16]) -> Heard
    requires { length words.now ≡ STATE_WORDS }
    ensures { (floor left : ℤ) → words.now ≡ left ∷ sum_words floor → result ≡ record { floor = floor; left = left } }
{
    Heard {
        floor: kept_sum(&words[1..3]),
        left: words[0],
    }
}
