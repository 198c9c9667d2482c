//! The generator `Signal`: tones as a recursion.
ghost use Rattle.std.specs.Prelude.{codes};
ghost use Rattle.std.proofs.Common.{lit≤};
ghost use Rattle.alg_signal.specs.declared.TheConstants.{SIGNAL_KIND, STATE_WORDS};
ghost use Rattle.alg_signal.specs.Tones.{cadence_named, initial_tones, taken, words_of};

use crate::tones::{Cadence, Tones, by_parameters, read, take, write};
use crate::{SIGNAL_KIND, STATE_WORDS};
use kind_steps::{Recursion, Recursive};

/// A generator of one or two tones with a cadence. Its parameters are k1 s1 k2 s2 on off count: of each tone twice the cosine of the angle
/// by which it turns in a sample, in Q14, and its second sample, in Q15, 0 0 for no tone; how many samples of a cycle sound and how many
/// don't; and how many cycles there are, 0 for no end. Each sample that it is given gives one: the tones' sum while they sound, and itself
/// while they don't. A reset begins the cadence.
pub type Signal = Recursive<Generator>;

/// What a generator makes of a sample.
#[derive(Clone, Copy, PartialEq, Eq, Debug)]
pub struct Generator;

impl Recursion for Generator {
    type Tuning = Cadence;

    type State = Tones;

    const KIND: i16 = SIGNAL_KIND;

    const STATE_WORDS: usize = STATE_WORDS;

    ghost KIND = { SIGNAL_KIND };

    ghost STATE_WORDS = { STATE_WORDS };

    ghost name = { codes "signal" };

    ghost tuned = { cadence_named };

    ghost first = { initial_tones };

    ghost taken = { taken };

    ghost words_of = { words_of };

    fn name() -> &'static [u8] {
        b"signal".as_slice()
    }

    fn tune(p: &[i16]) -> Option<Cadence> {
        by_parameters(p)
    }

    fn first() -> Tones {
        Tones::INITIAL
    }

    fn take(tuning: Cadence, x: i16, state: &Tones) -> (Tones, i16) {
        take(tuning, x, state)
    }

    fn read(words: &[i16]) -> Tones {
        read(words)
    }

    fn write(state: &Tones, words: &mut [i16]) {
        write(state, words);
    }

    ghost some = { lit≤ tt };

    ghost few = { lit≤ tt };
}
