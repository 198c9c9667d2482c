//! The detector `Activity`: what the words of its state keep of the frames.
ghost use Rattle.std.specs.Prelude.{◌≡◌, ◌&&◌, codes, length, unsigned_abs, int_le, pos};
ghost use Rattle.std.proofs.Common.{lit≤};
ghost use Rattle.ialg.specs.History.{word_at};
ghost use Rattle.alg_activity.specs.declared.TheConstants.{ACTIVITY_KIND};
ghost use Rattle.alg_activity.specs.Equation.{activity, frame_length, are_limits, is_detector, is_frame, is_margin, is_rest};
ghost use Rattle.alg_activity.specs.Keeps.{state_words, words_of};
ghost use Rattle.alg_activity.specs.Sizes.{some_samples, few_samples};

use crate::kernel::{Heard, energy, next, read, told, write};
use crate::{ACTIVITY_KIND, MOST_BITS, MOST_SAMPLES, PARAMETERS, STATE_WORDS};
use kind_parts::is_within;
use kind_steps::{Stepped, Stepping};

/// A detector of voice activity. For each frame it gives 1 where somebody talks, and else 0. Its parameters are N s margin rise least hang:
/// the samples of a frame, 1 to 1024; the bits by which each sample's square is shifted to the right; a frame with speech has more than
/// 2^margin times the energy of the floor; the floor falls to the energy of a frame at once, and rises by 2^-rise of itself in a frame; it
/// is at least `least`, in Q31; and behind a frame with speech so many more count as speech.
pub type Activity = Stepped<Detector>;

/// What a detector makes of a frame. Its state is for how many frames speech is told, and the floor.
#[derive(Clone, Copy, PartialEq, Eq, Debug)]
pub struct Detector;

impl Stepping for Detector {
    const KIND: i16 = ACTIVITY_KIND;

    ghost KIND = { ACTIVITY_KIND };

    ghost name = { codes "activity" };

    ghost taken = { is_detector };

    ghost frame = { frame_length };

    ghost words = { state_words };

    ghost state_of = { words_of };

    ghost told = { activity };

    fn name() -> &'static [u8] {
        b"activity".as_slice()
    }

    fn takes(p: &[i16]) -> bool {
        p.len() == PARAMETERS && are_parts(p)
    }

    fn frame(p: &[i16]) -> usize {
        frame_length(p)
    }

    fn state_words(_p: &[i16]) -> usize {
        STATE_WORDS
    }

    fn begin(_p: &[i16], state: &mut [i16]) {
        write(&Heard::NOTHING, state);
    }

    fn step(p: &[i16], state: &mut [i16], samples: &[i16]) -> i16 {
        let energy = energy(p[1], samples);
        let before = read(state);
        let after = next(p, energy, &before);
        write(&after, state);
        told(&after)
    }

    ghost some = { λ p e. some_samples p e };

    ghost short = { λ p e. few_samples p e };

    ghost few = { λ p e. lit≤ tt };
}

/// Whether a frame may have so many samples and such a shift.
fn is_frame(samples: i16, shift: i16) -> bool
    ensures { result ≡ is_frame samples shift }
{
    is_within(samples, 1, MOST_SAMPLES) && is_within(shift, 0, MOST_BITS)
}

/// Whether these are a margin and a rise.
fn is_margin(margin: i16, rise: i16) -> bool
    ensures { result ≡ is_margin margin rise }
{
    is_within(margin, 0, MOST_BITS) && is_within(rise, 0, MOST_BITS)
}

/// Whether these are a least floor and a hangover.
fn is_rest(least: i16, hang: i16) -> bool
    ensures { result ≡ is_rest least hang }
{
    0 <= least && 0 <= hang
}

/// Whether a frame may be compared with these.
fn are_limits(p: &[i16]) -> bool
    requires { length p.now ≡ PARAMETERS }
    ensures { result ≡ are_limits p.now }
{
    is_margin(p[2], p[3]) && is_rest(p[4], p[5])
}

/// Whether six words are those of a detector.
fn are_parts(p: &[i16]) -> bool
    requires { length p.now ≡ PARAMETERS }
    ensures { result ≡ (is_frame (word_at p.now 0) (word_at p.now 1) && are_limits p.now) }
{
    is_frame(p[0], p[1]) && are_limits(p)
}

/// The samples of a frame.
fn frame_length(p: &[i16]) -> usize
    requires { length p.now ≡ PARAMETERS }
    ensures { result ≡ frame_length p.now }
{
    usize::from(p[0].unsigned_abs())
}
