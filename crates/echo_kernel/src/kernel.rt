//! The canceller over plain words.
ghost use Rattle.std.specs.Prelude.{◌≡◌, ◌<◌, ◌≤◌, ◌++◌, ℕ, ℤ, List, length, pos, map, not, ◌&&◌, ◌||◌, int_lt, if◌then◌else◌};
ghost use Rattle.basic_op.specs.Operators.{abs_s_of, extract_h_of, extract_l_of, l_sub_of, l_shr_of, mult_of, sub_of};
ghost use Rattle.ialg.specs.History.{word_at};
ghost use Rattle.echo_kernel.specs.declared.TheConstants.{BETTER_BITS, CLEAR_BITS, HARM_BITS};
ghost use Rattle.echo_kernel.specs.Equation.{Line, chosen, entered, given_of, heard_pair, held, is_better, is_worse, left_of, loudest_of, next, taught};
ghost use Rattle.echo_kernel.specs.Keeps.{IsKept, IsLine, head_words, line_words};

use crate::parts::{echo, enter, follow, learn, loudest, next_energy};
use crate::{BETTER_BITS, CLEAR_BITS, HARM_BITS, HEAD_WORDS, LINES, PARAMETERS, WORSE_BITS};
use basic_op::{abs_s, l_shr, l_sub, mult, sub};
use ialg::clear;
use kind_parts::{SUM_WORDS, keep_sum, kept_sum};

/// What stands before the lines of taps.
#[derive(Clone, Copy)]
pub struct Head {
    /// For so many pairs nothing is learnt.
    pub hold: i16,
    /// 2^-8 of the energy of the past samples.
    pub energy: i32,
    /// The power of what the coefficients leave that learn.
    pub left: i32,
    /// The power of what those in use leave.
    pub given: i32,
    /// The power of the near end.
    pub heard: i32,
}

/// A sample of each end of the line.
#[derive(Clone, Copy)]
pub struct Pair {
    pub far: i16,
    pub near: i16,
}

/// Whether the coefficients that learn are the better ones, by what is left, given and heard.
#[tactic(auto, unfolding(crate::specs::Equation::is_better))]
fn is_better(left: i32, given: i32, heard: i32) -> bool
    ensures { result ≡ is_better left given heard }
{
    leaves_less(left, given) && is_clear(left, given, heard)
}

/// Whether they leave less than those in use.
fn leaves_less(left: i32, given: i32) -> bool
    ensures { result ≡ int_lt left (l_sub_of given (l_shr_of given BETTER_BITS)) }
{
    left < l_sub(given, l_shr(given, BETTER_BITS))
}

/// Whether they leave little of the near end, or those in use do harm.
fn is_clear(left: i32, given: i32, heard: i32) -> bool
    ensures { result ≡ (int_lt left (l_shr_of heard CLEAR_BITS) || int_lt heard (l_shr_of given HARM_BITS)) }
{
    left < l_shr(heard, CLEAR_BITS) || heard < l_shr(given, HARM_BITS)
}

/// Whether the coefficients that learn are put to use.
fn is_use(head: &Head) -> bool
    ensures { result ≡ (not (int_lt (pos 0) head.now.hold) && is_better head.now.left head.now.given head.now.heard) }
{
    !is_held(head.hold) && is_better(head.left, head.given, head.heard)
}

/// Whether nothing is learnt.
fn is_held(hold: i16) -> bool
    ensures { result ≡ int_lt (pos 0) hold }
{
    hold > 0
}

/// Whether they are far worse.
#[tactic(auto, unfolding(crate::specs::Equation::is_worse))]
fn is_worse(left: i32, given: i32) -> bool
    ensures { result ≡ is_worse left given }
{
    given < l_shr(left, WORSE_BITS)
}

/// Puts the coefficients to use that learn, where they are better, and gives them up, where they are far worse.
fn choose(head: Head, used: &mut [i16], high: &mut [i16], low: &mut [i16]) -> Head
    requires high { length high.old ≡ length used.old }
    requires low { length low.old ≡ length used.old }
    ensures { (s : Line) → IsKept s head used.old high.old low.old → IsKept (chosen s) result used.new high.new low.new }
{
    if is_use(&head) {
        used.copy_from_slice(high);
        Head {
            hold: head.hold,
            energy: head.energy,
            left: head.left,
            given: head.left,
            heard: head.heard,
        }
    } else if is_worse(head.left, head.given) {
        high.copy_from_slice(used);
        clear(low);
        Head {
            hold: head.hold,
            energy: head.energy,
            left: head.given,
            given: head.given,
            heard: head.heard,
        }
    } else {
        head
    }
}

/// The hold behind a near-end sample.
#[tactic(auto, unfolding(crate::specs::Equation::held))]
fn hold(p: &[i16], past: &[i16], near: i16, hold: i16) -> i16
    requires { length p.now ≡ PARAMETERS }
    ensures { result ≡ held p.now past.now near hold }
{
    if is_talk(p[2], past, near) {
        p[3]
    } else {
        count_down(hold)
    }
}

/// Whether the near end is louder than a share of the past samples.
fn is_talk(share: i16, past: &[i16], near: i16) -> bool
    ensures { result ≡ int_lt (mult_of (loudest_of (word_at past.now) (length past.now)) share) (abs_s_of near) }
{
    mult(loudest(past), share) < abs_s(near)
}

/// One less, where it is more than none.
fn count_down(hold: i16) -> i16
    ensures { result ≡ (if int_lt (pos 0) hold then sub_of hold (pos 1) else pos 0) }
{
    if is_held(hold) { sub(hold, 1) } else { 0 }
}

/// Teaches the coefficients by the error `e`, unless the hold forbids it.
fn teach(step: i16, e: i16, head: &Head, past: &[i16], high: &mut [i16], low: &mut [i16])
    requires high { length high.old ≡ length past.now }
    requires low { length low.old ≡ length past.now }
    ensures { (s : Line) (used : List ℤ) → past.now ≡ s.far → IsKept s head.now used high.old low.old
        → IsKept (taught step e s) head.now used high.new low.new }
{
    if !is_held(head.hold) {
        learn(step, e, head.energy, past, high, low);
    }
}

/// The words before the lines.
pub fn read_head(words: &[i16]) -> Head
    requires { length words.now ≡ HEAD_WORDS }
    ensures { (hold energy left given heard : ℤ) → words.now ≡ head_words hold energy left given heard
        → result ≡ record { hold = hold; energy = energy; left = left; given = given; heard = heard } }
{
    Head {
        hold: words[0],
        energy: kept_sum(&words[1..3]),
        left: kept_sum(&words[3..5]),
        given: kept_sum(&words[5..7]),
        heard: kept_sum(&words[7..9]),
    }
}

/// Writes them.
pub fn write_head(head: Head, words: &mut [i16])
    requires { length words.old ≡ HEAD_WORDS }
    ensures { words.new ≡ head_words head.hold head.energy head.left head.given head.heard }
{
    let (hold, sums) = words.split_at_mut(1);
    let (energy, powers) = sums.split_at_mut(SUM_WORDS);
    let (left, others) = powers.split_at_mut(SUM_WORDS);
    let (given, heard) = others.split_at_mut(SUM_WORDS);
    hold.copy_from_slice(&[head.hold]);
    keep_sum(head.energy, energy);
    keep_sum(head.left, left);
    keep_sum(head.given, given);
    keep_sum(head.heard, heard);
}

/// Hears a pair: its samples enter, and what is left and given of the near end is known, before it is learnt.
pub(crate) fn hear(
    p: &[i16],
    before: Head,
    far: i16,
    near: i16,
    past: &mut [i16],
    used: &[i16],
    high: &[i16],
) -> (Head, i16, i16)
    requires four { length p.now ≡ PARAMETERS }
    requires some { 0 < length past.old }
    requires used { length used.now ≡ length past.old }
    requires high { length high.now ≡ length past.old }
    ensures { (s : Line) (low : List ℤ) → past.old ≡ s.far → IsKept s before used.now high.now low
        → (past.new ≡ entered far s.far) × IsKept (heard_pair p.now far near s) result.0 used.now high.now low
        × (result.1 ≡ left_of far near s) × (result.2 ≡ given_of far near s) }
{
    let energy = next_energy(before.energy, far, past[past.len() - 1]);
    enter(far, past);
    let left = sub(near, echo(high, past));
    let given = sub(near, echo(used, past));
    let after = Head {
        hold: hold(p, past, near, before.hold),
        energy,
        left: follow(before.left, left),
        given: follow(before.given, given),
        heard: follow(before.heard, near),
    };
    (after, left, given)
}

/// Takes a pair into the lines, and gives the near end without the echo.
pub fn take_pair(
    p: &[i16],
    before: Head,
    pair: Pair,
    past: &mut [i16],
    used: &mut [i16],
    high: &mut [i16],
    low: &mut [i16],
) -> (Head, i16)
    requires four { length p.now ≡ PARAMETERS }
    requires some { 0 < length past.old }
    requires used { length used.old ≡ length past.old }
    requires high { length high.old ≡ length past.old }
    requires low { length low.old ≡ length past.old }
    ensures { (s : Line) → past.old ≡ s.far → IsKept s before used.old high.old low.old
        → (past.new ≡ entered pair.far s.far) × IsKept (next p.now pair.far pair.near s) result.0 used.new high.new low.new
        × (result.1 ≡ given_of pair.far pair.near s) }
{
    let (heard, left, given) = hear(p, before, pair.far, pair.near, past, used, high);
    teach(p[1], left, &heard, past, high, low);
    let after = choose(heard, used, high, low);
    (after, given)
}
