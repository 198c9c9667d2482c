//! The detector `Tone`: what the words of its records keep of a history.
ghost use Rattle.std.specs.Prelude.{◌≡◌, pos};
ghost use Rattle.alg_tone.specs.Keeps.{tone_kind, Rests, Runs};
ghost use Rattle.ialg.specs.Meaning.{is_between};
ghost use Rattle.alg_tone.specs.Meaning.{tone_filter};

use crate::kernel::detect;
use crate::{FRAME_SAMPLES, MOST_SHIFT, PARAMETERS, STATE_WORDS, TONE_KIND};
use ialg::{Block, Ctl, Filter, FilterMemory, Words, clear, copied, overwrite};
use mem_rec::LEAST_ALIGNMENT;

/// A detector of one tone (Goertzel). Its parameters are k N s: the factor in Q14, twice the cosine of the angle by which the tone
/// turns in a sample; the samples of a frame, 1 to 1024; and the bits by which each sample is shifted to the right, 0 to 15. After
/// each frame it gives the level of the tone in it: the squared magnitude in Q15, where the shifted samples are in Q15.
///
/// The kept words are the parameters and the state. The running words are the state: how many samples of the frame there
/// are, and the two newest values in it.
#[derive(Clone, Copy, PartialEq, Eq, Debug)]
pub struct Tone;

impl Filter for Tone {
    const KIND: i16 = TONE_KIND;

    ghost KIND = { tone_kind };

    ghost filter = { tone_filter };

    ghost rests = { Rests };

    ghost runs = { Runs };

    fn memory(p: &[i16]) -> Option<FilterMemory> {
        if p.len() != PARAMETERS || !is_frame(p[1]) || !is_shift(p[2]) {
            return None;
        }
        Some(FilterMemory {
            kept: (PARAMETERS + STATE_WORDS) as u32,
            running: STATE_WORDS as u32,
            align: LEAST_ALIGNMENT,
        })
    }

    fn start(p: &[i16], kept: &mut [i16]) {
        clear(kept);
        overwrite(kept, p);
    }

    fn restore(kept: &[i16], state: &mut [i16]) {
        if kept.len() == PARAMETERS + state.len() {
            state.copy_from_slice(&kept[PARAMETERS..]);
        }
    }

    fn run(kept: &[i16], state: &mut [i16], input: &[i16], out: &mut Block) {
        if kept.len() >= PARAMETERS && state.len() == STATE_WORDS {
            detect(&kept[..PARAMETERS], state, input, out);
        }
    }

    fn save(kept: &mut [i16], state: &[i16]) {
        if kept.len() == PARAMETERS + state.len() {
            let (_parameters, kept_state) = kept.split_at_mut(PARAMETERS);
            kept_state.copy_from_slice(state);
        }
    }

    fn takes(_p: &[i16], c: &Ctl) -> bool {
        match c {
            Ctl::Set(words) => words.len() == 1,
            Ctl::Reset | Ctl::Get => true,
        }
    }

    fn set(kept: &mut [i16], words: &[i16]) {
        overwrite(kept, words);
    }

    fn reset(state: &mut [i16]) {
        clear(state);
    }

    fn get(_kept: &[i16], state: &[i16]) -> Words {
        if state.is_empty() {
            Words::new()
        } else {
            copied(&state[..1])
        }
    }

    ghost one = { λ a b i. a };

    ghost rests_words = { λ p h kept rests. rests.history };

    ghost runs_words = { λ p h kept state runs. runs.history };
}

/// Whether a frame may have so many samples.
fn is_frame(samples: i16) -> bool
    ensures { result ≡ is_between (pos 1) FRAME_SAMPLES samples }
{
    1 <= samples && samples <= FRAME_SAMPLES
}

/// Whether samples may be shifted by so many bits.
fn is_shift(bits: i16) -> bool
    ensures { result ≡ is_between (pos 0) MOST_SHIFT bits }
{
    0 <= bits && bits <= MOST_SHIFT
}
