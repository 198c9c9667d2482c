//! The filter over plain words.
ghost use Rattle.std.specs.Prelude.{◌≡◌, ◌≤◌, ◌<◌, ◌∷◌, ℕ, ℤ, List, [], length, take, FitsSigned, IfSome};
ghost use Rattle.std.specs.Int.{w16};
ghost use Rattle.ialg.specs.History.{History, word_at, words_in_force};
ghost use Rattle.alg_biquad.specs.Equation.{biquad_value};
ghost use Rattle.alg_biquad.specs.Halves.{AreAboveLeast};
ghost use Rattle.alg_biquad.specs.Keeps.{state_after, Gives, IsNewest, Ran};

use crate::halves::{
    are_above_least, doubled_and_rounded, half_product, plus_product, rounded_less, within,
};
use crate::{COEFFICIENTS, STATE_WORDS};
use basic_op::{l_mac, l_msu, l_mult};
use ialg::{BLOCK_SAMPLES, Block};

/// The two newest samples and the two newest outputs, in Q15.
#[derive(Clone, Copy)]
struct State {
    x1: i16,
    x2: i16,
    y1: i16,
    y2: i16,
}

impl State {
    /// The state that these words have.
    fn read(words: &[i16]) -> State
        requires { length words.now ≡ STATE_WORDS }
        ensures x1 { result.x1 ≡ word_at words.now 0 }
        ensures x2 { result.x2 ≡ word_at words.now 1 }
        ensures y1 { result.y1 ≡ word_at words.now 2 }
        ensures y2 { result.y2 ≡ word_at words.now 3 }
    {
        State {
            x1: words[0],
            x2: words[1],
            y1: words[2],
            y2: words[3],
        }
    }

    /// Writes the state into the words.
    fn write(self, words: &mut [i16])
        requires { length words.old ≡ STATE_WORDS }
        ensures { words.new ≡ self.x1 ∷ self.x2 ∷ self.y1 ∷ self.y2 ∷ [] }
    {
        // One by one: an array of the four is read back in one step, which waits until each of them is written.
        words[0] = self.x1;
        words[1] = self.x2;
        words[2] = self.y1;
        words[3] = self.y2;
    }

    /// Takes the sample `x` with the output `y` in.
    #[inline]
    fn shift(&mut self, x: i16, y: i16)
        ensures x1 { self.new.x1 ≡ x }
        ensures x2 { self.new.x2 ≡ self.old.x1 }
        ensures y1 { self.new.y1 ≡ y }
        ensures y2 { self.new.y2 ≡ self.old.y1 }
    {
        self.x2 = self.x1;
        self.x1 = x;
        self.y2 = self.y1;
        self.y1 = y;
    }
}

/// The output at the sample `x`, in Q15, each step saturated in its order, the last two at once. Coefficients are in Q14, so that the sum
/// is in Q30, and in Q31 when it is doubled.
#[inline]
fn limited_output(c: &[i16], state: State, x: i16) -> i16
    requires { length c.now ≡ COEFFICIENTS }
    ensures { result ≡ biquad_value (word_at c.now) x state.x1 state.x2 state.y1 state.y2 }
{
    let forward = l_mac(l_mac(l_mult(c[0], x), c[1], state.x1), c[2], state.x2);
    let sum = l_msu(l_msu(forward, c[3], state.y1), c[4], state.y2);
    doubled_and_rounded(sum)
}

/// The output where no step but the last saturates, and None where one does. Sums are halves of G.191's, which are doubled.
#[inline]
fn plain_output(c: &[i16], state: &State, x: i16) -> Option<i16>
    requires five { length c.now ≡ COEFFICIENTS }
    requires above { AreAboveLeast c.now }
    ensures { IfSome result (λ y. y ≡ biquad_value (word_at c.now) x state.now.x1 state.now.x2 state.now.y1 state.now.y2) }
{
    let first = half_product(c[0], x);
    let second = plus_product(first, c[1], state.x1)?;
    let third = plus_product(second, c[2], state.x2)?;
    let newer = half_product(c[3], state.y1);
    let _fourth = within(third - newer)?;
    let older = half_product(c[4], state.y2);
    Some(rounded_less(third, newer, older))
}

/// [`limited_output`] of the state that these words have, as a call.
#[cold]
#[inline(never)]
fn limited_alone(c: &[i16], words: &[i16], x: i16) -> i16
    requires five { length c.now ≡ COEFFICIENTS }
    requires four { length words.now ≡ STATE_WORDS }
    ensures { result ≡ biquad_value (word_at c.now) x (word_at words.now 0) (word_at words.now 1) (word_at words.now 2) (word_at words.now 3) }
{
    limited_output(c, State::read(words), x)
}

/// The output at the sample `x`, in Q15, of the state that these words have, where that sample comes alone: few outputs are limited, so the
/// limits are out of the way.
#[inline]
fn output_alone(c: &[i16], words: &[i16], x: i16) -> i16
    requires five { length c.now ≡ COEFFICIENTS }
    requires four { length words.now ≡ STATE_WORDS }
    ensures { result ≡ biquad_value (word_at c.now) x (word_at words.now 0) (word_at words.now 1) (word_at words.now 2) (word_at words.now 3) }
{
    if !are_above_least(c) {
        return limited_alone(c, words, x);
    }
    match plain_output(c, &State::read(words), x) {
        Some(y) => y,
        None => limited_alone(c, words, x),
    }
}

/// Runs samples as long as no step saturates, and none where a coefficient is the least word: there are as many outputs. Gives the state
/// after them.
fn run_plain(coefficients: &[i16], state: State, input: &[i16], out: &mut Block) -> State
    requires five { length coefficients.now ≡ COEFFICIENTS }
    requires within { length input.now ≤ BLOCK_SAMPLES }
    requires empty { out.old.items ≡ [] }
    ensures count { length out.new.items ≤ length input.now }
    ensures fit { (k : ℕ) → k < length out.new.items → FitsSigned w16 (word_at input.now k) }
    ensures law { (p : List ℤ) (h : History) → coefficients.now ≡ words_in_force p h → IsNewest p h state
        → Gives p h (take (length out.new.items) input.now) result out.new.items }
{
    if !are_above_least(coefficients) {
        return state;
    }
    // A copy: the caller's words would be read anew at each sample, since the output might lie over them.
    let own = [
        coefficients[0],
        coefficients[1],
        coefficients[2],
        coefficients[3],
        coefficients[4],
    ];
    // Field by field, here and at the end: the four are words of their own while the loop runs.
    let State { x1, x2, y1, y2 } = state;
    let mut newest = State { x1, x2, y1, y2 };
    for x in input {
        let Some(y) = plain_output(&own, &newest, *x) else {
            break;
        };
        newest.shift(*x, y);
        out.push(y);
    }
    let State { x1, x2, y1, y2 } = newest;
    State { x1, x2, y1, y2 }
}

/// Runs one sample; `state` has the two newest samples and outputs before and after. For a sample alone the loops of a block cost more than
/// its sums.
fn run_one(coefficients: &[i16], state: &mut [i16], x: i16, out: &mut Block)
    requires five { length coefficients.now ≡ COEFFICIENTS }
    requires four { length state.old ≡ STATE_WORDS }
    requires empty { out.old.items ≡ [] }
    ensures count { length out.new.items ≡ 1 }
    ensures law { (p : List ℤ) (h : History) → coefficients.now ≡ words_in_force p h → state.old ≡ state_after p h
        → Ran p h (x ∷ []) state.new out.new.items }
{
    let y = output_alone(coefficients, state, x);
    let mut after = State::read(state);
    after.shift(x, y);
    out.push(y);
    after.write(state);
}

/// Runs samples as [`filter`] does, as many as they are. Where a step saturates, others soon will: the rest of the block is run with a
/// limit at each step.
///
/// A call of its own, so that its loops take no registers from one sample.
#[inline(never)]
fn run_block(coefficients: &[i16], state: &mut [i16], input: &[i16], out: &mut Block)
    requires five { length coefficients.now ≡ COEFFICIENTS }
    requires four { length state.old ≡ STATE_WORDS }
    requires within { length input.now ≤ BLOCK_SAMPLES }
    requires empty { out.old.items ≡ [] }
    ensures bounded { length out.new.items ≡ length input.now }
    ensures law { (p : List ℤ) (h : History) → coefficients.now ≡ words_in_force p h → state.old ≡ state_after p h
        → Ran p h input.now state.new out.new.items }
{
    let mut newest = State::read(state);
    newest = run_plain(coefficients, newest, input, out);
    let rest = &input[out.len()..];
    for x in rest {
        let y = limited_output(coefficients, newest, *x);
        newest.shift(*x, y);
        out.push(y);
    }
    newest.write(state);
}

/// Runs the filter over a block; `state` has the two newest samples and outputs before and after.
pub(crate) fn filter(coefficients: &[i16], state: &mut [i16], input: &[i16], out: &mut Block)
    requires five { length coefficients.now ≡ COEFFICIENTS }
    requires four { length state.old ≡ STATE_WORDS }
    requires within { length input.now ≤ BLOCK_SAMPLES }
    requires empty { out.old.items ≡ [] }
    ensures bounded { length out.new.items ≡ length input.now }
    ensures law { (p : List ℤ) (h : History) → coefficients.now ≡ words_in_force p h → state.old ≡ state_after p h
        → Ran p h input.now state.new out.new.items }
{
    match input {
        [x] => run_one(coefficients, state, *x, out),
        _ => run_block(coefficients, state, input, out),
    }
}
