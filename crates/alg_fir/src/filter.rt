//! The filter `Fir`: what the words of its records keep of a history.
ghost use Rattle.std.specs.Prelude.{◌≡◌, ◌≤◌, ◌-◌, ◌*◌, ℕ, length};
ghost use Rattle.alg_fir.specs.Keeps.{fir_kind, Rests, Runs};
ghost use Rattle.alg_fir.specs.Meaning.{fir_filter};

use crate::delay::{MOST_RING_WORDS, Taken, refill, run_block};
use crate::{FIR_KIND, LINE_ALIGNMENT};
use fir_kernel::{MOST_COEFFICIENTS, named_place, unroll};
use ialg::{
    BLOCK_SAMPLES, Block, Ctl, Filter, FilterMemory, PARAMETER_WORDS, Words, clear, copied,
    overwrite,
};

/// A finite impulse response filter. Its parameters are its 1 to 64 coefficients in Q15, that of the newest sample
/// first; it gives one output per sample, rounded and saturated as G.191's operators do.
///
/// The kept words are the coefficients and one past sample less, the newest last. The running words are a ring of past
/// samples, and in the last of them the place of the next sample.
#[derive(Clone, Copy, PartialEq, Eq, Debug)]
pub struct Fir;

impl Filter for Fir {
    const KIND: i16 = FIR_KIND;

    ghost KIND = { fir_kind };

    ghost filter = { fir_filter };

    ghost rests = { Rests };

    ghost runs = { Runs };

    fn memory(p: &[i16]) -> Option<FilterMemory> {
        let n = p.len();
        if n == 0 || n > MOST_COEFFICIENTS {
            return None;
        }
        Some(FilterMemory {
            kept: (2 * n - 1) as u32,
            running: (n - 1 + BLOCK_SAMPLES) as u32,
            align: LINE_ALIGNMENT,
        })
    }

    fn start(p: &[i16], kept: &mut [i16]) {
        clear(kept);
        overwrite(kept, p);
    }

    fn restore(kept: &[i16], ring: &mut [i16]) {
        let n = count_of(kept);
        if n <= kept.len() {
            refill(&kept[n..], ring);
        }
    }

    fn run(kept: &[i16], ring: &mut [i16], input: &[i16], out: &mut Block) {
        let n = count_of(kept);
        let next = named_place(ring);
        if n <= MOST_COEFFICIENTS
            && n <= kept.len()
            && n <= ring.len()
            && ring.len() <= MOST_RING_WORDS
            && next + 1 < ring.len()
        {
            let every = Taken {
                first: 0,
                step: 1,
                count: input.len(),
            };
            run_block(&kept[..n], ring, next, input, every, out);
        }
    }

    fn save(kept: &mut [i16], ring: &[i16]) {
        let n = count_of(kept);
        let next = named_place(ring);
        if n <= kept.len() && kept.len() - n < ring.len() && next + 1 < ring.len() {
            unroll(ring, ring.len() - 1, next, kept.len() - n, kept, n);
        }
    }

    fn takes(p: &[i16], c: &Ctl) -> bool {
        match c {
            Ctl::Set(words) => words.len() == p.len(),
            Ctl::Reset | Ctl::Get => true,
        }
    }

    fn set(kept: &mut [i16], words: &[i16]) {
        overwrite(kept, words);
    }

    fn reset(ring: &mut [i16]) {
        clear(ring);
    }

    fn get(kept: &[i16], _ring: &[i16]) -> Words {
        let n = count_of(kept);
        if n <= kept.len() && n <= PARAMETER_WORDS {
            copied(&kept[..n])
        } else {
            Words::new()
        }
    }

    ghost one = { λ a b i. a };

    ghost rests_words = { λ p h kept rests. rests.history };

    ghost runs_words = { λ p h kept ring runs. runs.history };
}

/// How many coefficients these words begin with; behind them is one past sample less.
fn count_of(kept: &[i16]) -> usize
    ensures exact { (n : ℕ) → 1 ≤ n → length kept.now ≡ 2 * n - 1 → result ≡ n }
    ensures some { 1 ≤ result }
{
    kept.len() / 2 + 1
}
