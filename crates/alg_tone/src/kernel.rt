//! The detector over plain words.
ghost use Rattle.std.specs.Prelude.{◌≡◌, ◌≤◌, ◌<◌, ◌+◌, ◌^◌, ◌++◌, ◌∷◌, ◌≤ℤ◌, ℕ, ℤ, List, [], length, take, pos, true, unsigned_abs, FitsSigned, IfSome};
ghost use Rattle.std.specs.Int.{w16};
ghost use Rattle.basic_op.specs.Operators.{add_of, saturate16, shr_of};
ghost use Rattle.ialg.specs.History.{History, word_at, samples_in_frame};
ghost use Rattle.alg_tone.specs.Equation.{feedback_of, frame_length, tone_level, tone_value};
ghost use Rattle.alg_tone.specs.Frames.{Gives, IsFrame, IsTuned};
ghost use Rattle.alg_tone.specs.Keeps.{state_after, KeepsParameters, Ran};

use crate::{PARAMETERS, STATE_WORDS};
use basic_op::{add, extract_h, l_mac, l_msu, l_mult, shr, sub};
use ialg::{BLOCK_SAMPLES, Block};

/// The bits behind a factor's point.
const FACTOR_BITS: u32 = 14;

/// The greatest magnitude of a quiet value: after one, no step to the next value saturates where samples are shifted.
const QUIET: i32 = 8_191;

/// The greatest magnitude of a quiet value's feedback.
const QUIET_FEEDBACK: i32 = 16_382;

/// A frame so far: how many samples of it there are, and the two newest values.
#[derive(Clone, Copy)]
struct Frame {
    samples: i16,
    v1: i16,
    v2: i16,
}

impl Frame {
    /// A frame without samples.
    const EMPTY: Frame = Frame {
        samples: 0,
        v1: 0,
        v2: 0,
    };

    /// The frame that these words have.
    fn read(words: &[i16]) -> Frame
        requires { length words.now ≡ STATE_WORDS }
        ensures samples { result.samples ≡ word_at words.now 0 }
        ensures v1 { result.v1 ≡ word_at words.now 1 }
        ensures v2 { result.v2 ≡ word_at words.now 2 }
    {
        Frame {
            samples: words[0],
            v1: words[1],
            v2: words[2],
        }
    }

    /// Writes the frame into the words.
    fn write(self, words: &mut [i16])
        requires { length words.old ≡ STATE_WORDS }
        ensures { words.new ≡ self.samples ∷ self.v1 ∷ self.v2 ∷ [] }
    {
        words.copy_from_slice(&[self.samples, self.v1, self.v2]);
    }

    /// The frame with the value of one more sample.
    fn with(self, v: i16) -> Frame
        ensures samples { result.samples ≡ add_of self.samples (pos 1) }
        ensures v1 { result.v1 ≡ v }
        ensures v2 { result.v2 ≡ self.v1 }
    {
        Frame {
            samples: add(self.samples, 1),
            v1: v,
            v2: self.v1,
        }
    }
}

/// What a detector is made for: the factor in Q14, the samples of a frame, and the shift.
#[derive(Clone, Copy)]
struct Tuning {
    factor: i16,
    samples: i16,
    shift: i16,
}

impl Tuning {
    /// What these words say.
    fn read(words: &[i16]) -> Tuning
        requires { length words.now ≡ PARAMETERS }
        ensures factor { result.factor ≡ word_at words.now 0 }
        ensures samples { result.samples ≡ word_at words.now 1 }
        ensures shift { result.shift ≡ word_at words.now 2 }
    {
        Tuning {
            factor: words[0],
            samples: words[1],
            shift: words[2],
        }
    }

    /// The factor, in Q14, times a value in Q15: in Q15, and not limited.
    #[inline]
    fn whole_feedback(self, v: i16) -> i32
        ensures value { saturate16 result ≡ feedback_of self.factor v }
        ensures within { unsigned_abs result ≤ 2 ^ 16 }
    {
        let factor = i32::from(self.factor);
        let value = i32::from(v);
        (factor * value) >> FACTOR_BITS
    }

    /// The same, limited: one limit stands for those of the product and of its shift.
    #[inline]
    fn feedback(self, v: i16) -> i16
        ensures { result ≡ feedback_of self.factor v }
    {
        let whole = self.whole_feedback(v);
        let least = i32::from(i16::MIN);
        let most = i32::from(i16::MAX);
        whole.clamp(least, most) as i16
    }

    /// The value of the sample `x` in the frame, in Q15, each step saturated.
    fn value(self, frame: Frame, x: i16) -> i16
        ensures { result ≡ tone_value self.factor self.shift x frame.v1 frame.v2 }
    {
        sub(add(shr(x, self.shift), self.feedback(frame.v1)), frame.v2)
    }

    /// A sample shifted to the right, and None where the shift is one to the left.
    #[inline]
    fn shifted_right(self, x: i16) -> Option<i16>
        ensures { IfSome result (λ y. y ≡ shr_of x self.shift) }
    {
        if self.shift < 0 {
            return None;
        }
        // 15 shifts leave 0 or -1: so do more.
        let bits = self.shift.unsigned_abs().min(15);
        Some(x >> bits)
    }

    /// The value where no step saturates, and None where one does.
    #[inline]
    fn plain_value(self, frame: Frame, x: i16) -> Option<i16>
        ensures { IfSome result (λ v. v ≡ tone_value self.factor self.shift x frame.v1 frame.v2) }
    {
        let shifted = self.shifted_right(x)?;
        let sample = i32::from(shifted);
        let older = i32::from(frame.v2);
        let feedback = self.whole_feedback(frame.v1);
        let sum = sample + feedback;
        let value = sum - older;
        if are_words(feedback, sum, value) {
            Some(value as i16)
        } else {
            None
        }
    }

    /// The feedback of a quiet value, which no limit changes.
    #[inline]
    fn quiet_feedback(self, v: i32) -> i32
        requires { unsigned_abs v ≤ unsigned_abs QUIET }
        ensures value { saturate16 result ≡ feedback_of self.factor v }
        ensures within { unsigned_abs result ≤ unsigned_abs QUIET_FEEDBACK }
    {
        let factor = i32::from(self.factor);
        (factor * v) >> FACTOR_BITS
    }

    /// The value after a quiet one where it is quiet too, and None where it isn't. Both values are those of words: a word of 16 bits would
    /// be extended anew at each sample.
    #[inline]
    fn quiet_value(self, v1: i32, v2: i32, x: i16) -> Option<i32>
        requires shifts { pos 1 ≤ℤ self.shift }
        requires quiet { unsigned_abs v1 ≤ unsigned_abs QUIET }
        requires word { FitsSigned w16 v2 }
        ensures quiet { IfSome result (λ v. unsigned_abs v ≤ unsigned_abs QUIET) }
        ensures value { IfSome result (λ v. v ≡ tone_value self.factor self.shift x v1 v2) }
    {
        let shifted = self.shifted_right(x)?;
        let sample = i32::from(shifted);
        // the feedback comes last, since the next value waits for it
        let value = (sample - v2) + self.quiet_feedback(v1);
        if is_quiet(value) { Some(value) } else { None }
    }

    /// How many samples can follow in the frame before its last one. Words that no instance keeps may count more samples than a frame has:
    /// then it is none.
    fn room(self, frame: Frame) -> usize
        ensures { (p : List ℤ) (h : History) → IsTuned p h self → IsFrame p h frame → samples_in_frame (frame_length p) h + result < frame_length p }
    {
        let left = sub(self.samples, frame.samples);
        let some = left.max(1);
        usize::from(some.unsigned_abs()) - 1
    }

    /// The level of the tone in the frame, in Q15: the sum of squares is in Q31.
    fn level(self, frame: Frame) -> i16
        ensures { result ≡ tone_level self.factor frame.v1 frame.v2 }
    {
        let squares = l_mac(l_mult(frame.v1, frame.v1), frame.v2, frame.v2);
        extract_h(l_msu(squares, self.feedback(frame.v1), frame.v2))
    }

    /// Gives the level of a frame that is full, and begins the next; another frame goes on.
    fn finish(self, frame: Frame, out: &mut Block) -> Frame
        requires { length out.old.items < BLOCK_SAMPLES }
        ensures bounded { length out.new.items ≤ length out.old.items + 1 }
        ensures full { frame.samples ≡ self.samples → (result ≡ record { samples = pos 0; v1 = pos 0; v2 = pos 0 })
            × (out.new.items ≡ out.old.items ++ tone_level self.factor frame.v1 frame.v2 ∷ []) }
        ensures unfinished { (frame.samples ≡ self.samples → ⊥) → (result ≡ frame)
            × (out.new.items ≡ out.old.items) }
    {
        if frame.samples == self.samples {
            out.push(self.level(frame));
            Frame::EMPTY
        } else {
            frame
        }
    }
}

/// Whether this is a Word16.
#[inline]
fn is_word(z: i32) -> bool
    ensures { result ≡ true → FitsSigned w16 z }
{
    i32::from(i16::MIN) <= z && z <= i32::from(i16::MAX)
}

/// Whether a value is quiet.
#[inline]
fn is_quiet(value: i32) -> bool
    ensures { result ≡ true → unsigned_abs value ≤ unsigned_abs QUIET }
{
    -QUIET <= value && value <= QUIET
}

/// Whether all three steps to a value give words.
#[inline]
fn are_words(feedback: i32, sum: i32, value: i32) -> bool
    ensures { result ≡ true → FitsSigned w16 feedback × FitsSigned w16 sum × FitsSigned w16 value }
{
    is_word(feedback) && is_word(sum) && is_word(value)
}

/// The frame after some samples, and how many these are.
#[derive(Clone, Copy)]
struct Run {
    frame: Frame,
    count: usize,
}

/// The two newest values after some samples, and how many these are.
#[derive(Clone, Copy)]
struct Values {
    v1: i16,
    v2: i16,
    count: usize,
}

/// Runs samples, all of them before the frame's last one, as long as the values are quiet: a value takes one test.
fn run_quiet(tuning: Tuning, start: Frame, input: &[i16]) -> Values
    requires { length input.now ≤ BLOCK_SAMPLES }
    ensures count { result.count ≤ length input.now }
    ensures fit { (k : ℕ) → k < result.count → FitsSigned w16 (word_at input.now k) }
    ensures law { (p : List ℤ) (h : History) → IsTuned p h tuning → IsFrame p h start → samples_in_frame (frame_length p) h + length input.now < frame_length p
        → Gives p h (take result.count input.now) (record {
          samples = pos (samples_in_frame (frame_length p) h + result.count);
          v1 = result.v1;
          v2 = result.v2;
        }) [] }
{
    let mut v1 = i32::from(start.v1);
    let mut v2 = i32::from(start.v2);
    let mut count = 0;
    if tuning.shift < 1 || !is_quiet(v1) {
        return Values {
            v1: start.v1,
            v2: start.v2,
            count,
        };
    }
    for x in input {
        let Some(v) = tuning.quiet_value(v1, v2, *x) else {
            break;
        };
        v2 = v1;
        v1 = v;
        count += 1;
    }
    Values {
        v1: v1 as i16,
        v2: v2 as i16,
        count,
    }
}

/// Runs samples, all of them before the frame's last one, as long as no step saturates: those with quiet values first.
fn run_plain(tuning: Tuning, start: Frame, input: &[i16]) -> Run
    requires { length input.now ≤ BLOCK_SAMPLES }
    ensures count { result.count ≤ length input.now }
    ensures fit { (k : ℕ) → k < result.count → FitsSigned w16 (word_at input.now k) }
    ensures law { (p : List ℤ) (h : History) → IsTuned p h tuning → IsFrame p h start → samples_in_frame (frame_length p) h + length input.now < frame_length p
        → Gives p h (take result.count input.now) result.frame [] }
{
    let quiet = run_quiet(tuning, start, input);
    // The values as two words: as a struct they would be put together and taken apart at each sample.
    let mut v1 = quiet.v1;
    let mut v2 = quiet.v2;
    let done = quiet.count;
    let mut count = done;
    for x in &input[done..] {
        let newest = Frame { v1, v2, ..start };
        let Some(v) = tuning.plain_value(newest, *x) else {
            break;
        };
        v2 = v1;
        v1 = v;
        count += 1;
    }
    let samples = add(start.samples, count as i16);
    let frame = Frame { samples, v1, v2 };
    Run { frame, count }
}

/// Runs the detector over a block; `state` has the frame so far before and after. Where a step saturates, others soon will: the rest of
/// the frame is run with a limit at each step, and so is its last sample, which gives the level.
pub(crate) fn detect(parameters: &[i16], state: &mut [i16], input: &[i16], out: &mut Block)
    requires three { length parameters.now ≡ PARAMETERS }
    requires few { length state.old ≡ STATE_WORDS }
    requires within { length input.now ≤ BLOCK_SAMPLES }
    requires empty { out.old.items ≡ [] }
    ensures bounded { length out.new.items ≤ length input.now }
    ensures law { (p : List ℤ) (h : History) → KeepsParameters p h parameters.now → state.old ≡ state_after p h
        → Ran p h input.now state.new out.new.items }
{
    let tuning = Tuning::read(parameters);
    let mut frame = Frame::read(state);
    let mut done = 0;
    while done < input.len() {
        let room = tuning.room(frame).min(input.len() - done);
        let last = done + room;
        let run = run_plain(tuning, frame, &input[done..last]);
        frame = run.frame;
        let start = done + run.count;
        let end = input.len().min(last + 1);
        for x in &input[start..end] {
            let v = tuning.value(frame, *x);
            frame = tuning.finish(frame.with(v), out);
        }
        done = end;
    }
    frame.write(state);
}
