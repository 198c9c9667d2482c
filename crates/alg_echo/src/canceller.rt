//! The canceller `Echo`: what the words of its state keep of the pairs.
ghost use Rattle.std.specs.Prelude.{◌≡◌, codes, length, unsigned_abs};
ghost use Rattle.ialg.specs.History.{word_at};
ghost use Rattle.alg_echo.specs.declared.TheConstants.{ECHO_KIND};
ghost use Rattle.echo_kernel.specs.Equation.{cleared, is_canceller, taps};
ghost use Rattle.echo_kernel.specs.Keeps.{state_words, words_of};
ghost use Rattle.echo_kernel.proofs.Lines.{begins, few};

use crate::ECHO_KIND;
use echo_kernel::{
    HEAD_WORDS, LINES, MOST_TAPS, PARAMETERS, Pair, read_head, take_pair, write_head,
};
use kind_parts::is_within;
use kind_steps::{Paired, Pairing};

/// A line echo canceller. Its samples are pairs, that of the far end before that of the near end, and for each pair it gives the near end
/// without the far end's echo. Its parameters are N step share hold: the taps, 1 to 256; the step in Q15; the share of the loudest of N
/// far-end samples that only a near end that talks exceeds, in Q15; and for how many pairs nothing is learnt behind such a sample.
pub type Echo = Paired<Canceller>;

/// What a canceller makes of a pair. Its state is the hold, the energy and the powers, the past samples of the far end, the coefficients in
/// use, and the upper and the lower words of those that learn.
#[derive(Clone, Copy, PartialEq, Eq, Debug)]
pub struct Canceller;

impl Pairing for Canceller {
    const KIND: i16 = ECHO_KIND;

    ghost KIND = { ECHO_KIND };

    ghost name = { codes "echo" };

    ghost taken = { is_canceller };

    ghost words = { state_words };

    ghost state_of = { words_of };

    ghost told = { cleared };

    fn name() -> &'static [u8] {
        b"echo".as_slice()
    }

    fn takes(p: &[i16]) -> bool {
        p.len() == PARAMETERS && is_within(p[0], 1, MOST_TAPS)
    }

    fn state_words(p: &[i16]) -> usize {
        HEAD_WORDS + LINES * taps(p)
    }

    fn step(p: &[i16], state: &mut [i16], first: i16, second: i16) -> i16 {
        let n = taps(p);
        let (head, lines) = state.split_at_mut(HEAD_WORDS);
        let (past, coefficients) = lines.split_at_mut(n);
        let (used, learning) = coefficients.split_at_mut(n);
        let (high, low) = learning.split_at_mut(n);
        let before = read_head(head);
        let pair = Pair {
            far: first,
            near: second,
        };
        let (after, given) = take_pair(p, before, pair, past, used, high, low);
        write_head(after, head);
        given
    }

    ghost begins = { λ p e. begins p e };

    ghost few = { λ p e. few p e };
}

/// The taps of a canceller of these parameters.
fn taps(p: &[i16]) -> usize
    requires { length p.now ≡ PARAMETERS }
    ensures { result ≡ taps p.now }
{
    usize::from(p[0].unsigned_abs())
}
