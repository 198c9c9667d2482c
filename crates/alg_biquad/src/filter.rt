//! The filter `Biquad`: what the words of its records keep of a history.
ghost use Rattle.alg_biquad.specs.Keeps.{biquad_kind, Rests, Runs};
ghost use Rattle.alg_biquad.specs.Meaning.{biquad_filter};

use crate::kernel::filter;
use crate::{BIQUAD_KIND, COEFFICIENTS, STATE_WORDS};
use ialg::{Block, Ctl, Filter, FilterMemory, Words, clear, copied, overwrite};
use mem_rec::LEAST_ALIGNMENT;

/// A filter of second order with feedback. Its parameters are its five coefficients in Q14, those of the samples first:
/// b0 b1 b2 a1 a2. It gives one output per sample, rounded and saturated as G.191's operators do. Samples and outputs are in
/// Q15, and an output that is fed back was rounded.
///
/// The kept words are the coefficients and the state. The running words are the state: the two newest samples and the two
/// newest outputs.
#[derive(Clone, Copy, PartialEq, Eq, Debug)]
pub struct Biquad;

impl Filter for Biquad {
    const KIND: i16 = BIQUAD_KIND;

    ghost KIND = { biquad_kind };

    ghost filter = { biquad_filter };

    ghost rests = { Rests };

    ghost runs = { Runs };

    fn memory(p: &[i16]) -> Option<FilterMemory> {
        if p.len() != COEFFICIENTS {
            return None;
        }
        Some(FilterMemory {
            kept: (COEFFICIENTS + STATE_WORDS) as u32,
            running: STATE_WORDS as u32,
            align: LEAST_ALIGNMENT,
        })
    }

    fn start(p: &[i16], kept: &mut [i16]) {
        clear(kept);
        overwrite(kept, p);
    }

    fn restore(kept: &[i16], state: &mut [i16]) {
        if kept.len() == COEFFICIENTS + state.len() {
            state.copy_from_slice(&kept[COEFFICIENTS..]);
        }
    }

    fn run(kept: &[i16], state: &mut [i16], input: &[i16], out: &mut Block) {
        if kept.len() >= COEFFICIENTS && state.len() == STATE_WORDS {
            filter(&kept[..COEFFICIENTS], state, input, out);
        }
    }

    fn save(kept: &mut [i16], state: &[i16]) {
        if kept.len() == COEFFICIENTS + state.len() {
            let (_coefficients, kept_state) = kept.split_at_mut(COEFFICIENTS);
            kept_state.copy_from_slice(state);
        }
    }

    fn takes(_p: &[i16], c: &Ctl) -> bool {
        match c {
            Ctl::Set(words) => words.len() == COEFFICIENTS,
            Ctl::Reset | Ctl::Get => true,
        }
    }

    fn set(kept: &mut [i16], words: &[i16]) {
        overwrite(kept, words);
    }

    fn reset(state: &mut [i16]) {
        clear(state);
    }

    fn get(kept: &[i16], _state: &[i16]) -> Words {
        if kept.len() >= COEFFICIENTS {
            copied(&kept[..COEFFICIENTS])
        } else {
            Words::new()
        }
    }

    ghost one = { λ a b i. a };

    ghost rests_words = { λ p h kept rests. rests.history };

    ghost runs_words = { λ p h kept state runs. runs.history };
}
