//! Kinds that give one word for each pair of samples.
ghost use Rattle.std.specs.Prelude.{◌≡◌, ◌≤◌, ◌∷◌, ℕ, ℤ, Bool, List, [], length, pos, replicate, IsTrue};
ghost use Rattle.std.proofs.Common.{lit≤};
ghost use Rattle.kind_steps.specs.Pairings.{two_samples};

use crate::stepping::{Stepped, Stepping};
use ialg::clear;
use std::marker::PhantomData;

/// What makes a kind of [`Paired`]: a state of words, and one word that is given for each pair of samples.
pub trait Pairing: Copy + Eq {
    ghost use Rattle.kind_parts.specs.declared.words.TheConstants.{MOST_STATE_WORDS};

    /// The kind word of an instance's object.
    const KIND: i16;

    ghost KIND: { ℤ };

    // its name in scripts
    ghost name: { List ℕ };

    // which parameters are taken
    ghost taken: { List ℤ → Bool };

    // how many words the state has, by the parameters
    ghost words: { List ℤ → ℕ };

    // the state's words behind these samples of whole pairs, the newest first
    ghost state_of: { List ℤ → List ℤ → List ℤ };

    // what is given for the newest pair of these samples, the newest first
    ghost told: { List ℤ → List ℤ → ℤ };

    /// Its name in scripts.
    fn name() -> &'static [u8]
        ensures { result.now ≡ name };

    /// Whether these parameters are taken.
    fn takes(p: &[i16]) -> bool
        ensures { result ≡ taken p.now };

    /// How many words the state has.
    fn state_words(p: &[i16]) -> usize
        requires { IsTrue (taken p.now) }
        ensures { result ≡ words p.now };

    /// Takes a pair into the state, and gives the word for it.
    fn step(p: &[i16], state: &mut [i16], first: i16, second: i16) -> i16
        requires takes { IsTrue (taken p.now) }
        requires size { length state.old ≡ words p.now }
        ensures state { (xs : List ℤ) → state.old ≡ state_of p.now xs → state.new ≡ state_of p.now (second ∷ first ∷ xs) }
        ensures told { (xs : List ℤ) → state.old ≡ state_of p.now xs → result ≡ told p.now (second ∷ first ∷ xs) };

    // the state before the first pair has words of 0
    ghost begins: { (p : List ℤ) → IsTrue (taken p) → state_of p [] ≡ replicate (words p) (pos 0) };

    // the state isn't too large
    ghost few: { (p : List ℤ) → IsTrue (taken p) → words p ≤ MOST_STATE_WORDS };
}

/// A kind that gives one word for each pair of samples. Pairs follow each other from the start or the last `reset`.
pub type Paired<K> = Stepped<OfPairs<K>>;

/// A kind of pairs as one of frames of two.
#[derive(Clone, Copy, PartialEq, Eq, Debug)]
pub struct OfPairs<K> {
    of: PhantomData<K>,
}

impl<K: Pairing> Stepping for OfPairs<K> {
    const KIND: i16 = K::KIND;

    ghost KIND = { K.KIND };

    ghost name = { K.name };

    ghost taken = { K.taken };

    ghost frame = { two_samples };

    ghost words = { K.words };

    ghost state_of = { K.state_of };

    ghost told = { K.told };

    fn name() -> &'static [u8] {
        K::name()
    }

    fn takes(p: &[i16]) -> bool {
        K::takes(p)
    }

    fn frame(_p: &[i16]) -> usize {
        2
    }

    fn state_words(p: &[i16]) -> usize {
        K::state_words(p)
    }

    fn begin(_p: &[i16], state: &mut [i16]) {
        clear(state);
    }

    fn step(p: &[i16], state: &mut [i16], samples: &[i16]) -> i16 {
        let [first, second] = samples else {
            return 0;
        };
        K::step(p, state, *first, *second)
    }

    ghost some = { λ p e. lit≤ tt };

    ghost short = { λ p e. lit≤ tt };

    ghost few = { λ p e. K.few p e };
}
