//! The detector `Dtmf`: what the words of its records keep of a history.
ghost use Rattle.alg_dtmf.specs.Keeps.{Rests, Runs};
ghost use Rattle.alg_dtmf.specs.declared.TheConstants.{DTMF_KIND};
ghost use Rattle.alg_dtmf.specs.Meaning.{dtmf_filter, dtmf_named};

use crate::kernel::{Tuning, detect};
use crate::{DTMF_KIND, FRAME_SAMPLES, MOST_SHIFT, PARAMETERS, STATE_WORDS};
use ialg::{Block, Ctl, Filter, FilterMemory, Named, Words, clear, copied, overwrite};
use kind_parts::is_within;
use mem_rec::LEAST_ALIGNMENT;

/// A detector of digits (DTMF). Its parameters are N s threshold down up dominance share: the samples of a frame, 1 to 127; the bits
/// by which samples are shifted to the right, 0 to 14; the least amplitude of a tone, as the recursion has it; and four shares in Q15: what
/// the high tone's level is of the low one's at least, and the low one's of the high one's; what the other tones of a band are of the
/// strongest at most; and what both are at least of the frame's energy, where two tones alone are all of it. After each frame it gives the
/// code of its digit, four times the place of the low tone and the place of the high one, or -1.
///
/// The kept words are the parameters and the state. The running words are the state: how many samples of the frame there are, and
/// the two words of their energy, and the two newest values of each tone.
#[derive(Clone, Copy, PartialEq, Eq, Debug)]
pub struct Dtmf;

impl Filter for Dtmf {
    const KIND: i16 = DTMF_KIND;

    ghost KIND = { DTMF_KIND };

    ghost filter = { dtmf_filter };

    ghost rests = { Rests };

    ghost runs = { Runs };

    fn memory(p: &[i16]) -> Option<FilterMemory> {
        if p.len() != PARAMETERS
            || !is_within(p[0], 1, FRAME_SAMPLES)
            || !is_within(p[1], 0, MOST_SHIFT)
        {
            return None;
        }
        Some(FilterMemory {
            kept: (PARAMETERS + STATE_WORDS) as u32,
            running: STATE_WORDS as u32,
            align: LEAST_ALIGNMENT,
        })
    }

    fn start(p: &[i16], kept: &mut [i16]) {
        clear(kept);
        overwrite(kept, p);
    }

    fn restore(kept: &[i16], state: &mut [i16]) {
        if kept.len() == PARAMETERS + state.len() {
            state.copy_from_slice(&kept[PARAMETERS..]);
        }
    }

    fn run(kept: &[i16], state: &mut [i16], input: &[i16], out: &mut Block) {
        if kept.len() >= PARAMETERS && state.len() == STATE_WORDS {
            let tuning = Tuning::of(kept[1]);
            detect(&tuning, &kept[..PARAMETERS], state, input, out);
        }
    }

    fn save(kept: &mut [i16], state: &[i16]) {
        if kept.len() == PARAMETERS + state.len() {
            let (_parameters, kept_state) = kept.split_at_mut(PARAMETERS);
            kept_state.copy_from_slice(state);
        }
    }

    fn takes(_p: &[i16], c: &Ctl) -> bool {
        match c {
            Ctl::Set(_words) => false,
            Ctl::Reset | Ctl::Get => true,
        }
    }

    fn set(_kept: &mut [i16], _words: &[i16]) {}

    fn reset(state: &mut [i16]) {
        clear(state);
    }

    fn get(_kept: &[i16], state: &[i16]) -> Words {
        if state.is_empty() {
            Words::new()
        } else {
            copied(&state[..1])
        }
    }

    ghost one = { λ a b i. a };

    ghost rests_words = { λ p h kept rests. rests.history };

    ghost runs_words = { λ p h kept state runs. runs.history };
}

impl Named for Dtmf {
    ghost named = { dtmf_named };

    fn of_name(name: &[u8]) -> Option<Dtmf> {
        if name == b"dtmf".as_slice() {
            Some(Dtmf)
        } else {
            None
        }
    }
}
