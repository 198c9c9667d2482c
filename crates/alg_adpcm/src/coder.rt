//! The coder `Adpcm`: G.726 as a recursion.
ghost use Rattle.std.specs.Prelude.{codes};
ghost use Rattle.std.proofs.Common.{lit≤};
ghost use Rattle.adpcm_kernel.specs.Subblocks.{initial_state, taken};
ghost use Rattle.alg_adpcm.specs.declared.TheConstants.{ADPCM_KIND, STATE_WORDS};
ghost use Rattle.alg_adpcm.specs.Meaning.{coder_named};
ghost use Rattle.alg_adpcm.specs.Words.{words_of};

use crate::parameters::by_parameters;
use crate::words::{read, write};
use crate::{ADPCM_KIND, STATE_WORDS};
use adpcm_kernel::{Coder, State, take};
use kind_steps::{Recursion, Recursive};

/// An ADPCM coder (ITU-T G.726). Its parameters are the rate in kbit/s, 16, 24, 32 or 40, and the direction, 0 to encode and 1 to decode.
/// It gives a word for each word: the code of a sample in the lower bits, or the sample of a code. Samples have their fourteen bits of
/// G.726 in the upper bits of their words. A code that is decoded is in the lower bits of its word, whatever the others are.
pub type Adpcm = Recursive<Coding>;

/// What a coder makes of a word.
#[derive(Clone, Copy, PartialEq, Eq, Debug)]
pub struct Coding;

impl Recursion for Coding {
    type Tuning = Coder;

    type State = State;

    const KIND: i16 = ADPCM_KIND;

    const STATE_WORDS: usize = STATE_WORDS;

    ghost KIND = { ADPCM_KIND };

    ghost STATE_WORDS = { STATE_WORDS };

    ghost name = { codes "adpcm" };

    ghost tuned = { coder_named };

    ghost first = { initial_state };

    ghost taken = { taken };

    ghost words_of = { words_of };

    fn name() -> &'static [u8] {
        b"adpcm".as_slice()
    }

    fn tune(p: &[i16]) -> Option<Coder> {
        by_parameters(p)
    }

    fn first() -> State {
        State::INITIAL
    }

    fn take(tuning: Coder, x: i16, state: &State) -> (State, i16) {
        take(tuning, x, state)
    }

    fn read(words: &[i16]) -> State {
        read(words)
    }

    fn write(state: &State, words: &mut [i16]) {
        write(state, words);
    }

    ghost some = { lit≤ tt };

    ghost few = { lit≤ tt };
}
