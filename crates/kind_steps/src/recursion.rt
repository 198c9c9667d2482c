//! Kinds that give one word for each sample, by a recursion over a small state.
ghost use Rattle.std.specs.Prelude.{◌≡◌, ◌≤◌, [], ℕ, ℤ, List, Option, IfSome, length};
ghost use Rattle.ialg.specs.History.{History};
ghost use Rattle.kind_steps.specs.Recursions.{recursion_filter, state_after, tuning_by, RanByRecursion, RestsByRecursion, RunsByRecursion};
ghost use Rattle.kind_steps.specs.Steppings.{stepping_named};

use ialg::{
    BLOCK_SAMPLES, Block, Ctl, Filter, FilterMemory, Named, PARAMETER_WORDS, Words, copied,
};
use mem_rec::LEAST_ALIGNMENT;
use std::marker::PhantomData;

/// What makes a kind of [`Recursive`]: a state, and what a sample makes of it and gives.
///
/// The state is a value: it is read from its words before a block and written to them behind it. What the parameters name is read once a
/// block too.
pub trait Recursion: Copy + Eq {
    ghost use Rattle.kind_parts.specs.declared.words.TheConstants.{MOST_STATE_WORDS};

    /// What the parameters name.
    type Tuning: Copy;

    /// What is kept from sample to sample.
    type State: Copy;

    /// The kind word of an instance's object.
    const KIND: i16;

    /// The words of a state.
    const STATE_WORDS: usize;

    ghost KIND: { ℤ };

    ghost STATE_WORDS: { ℕ };

    // its name in scripts
    ghost name: { List ℕ };

    // what parameters name, if they are taken
    ghost tuned: { List ℤ → Option Self.Tuning };

    // the state before the first sample
    ghost first: { Self.State };

    // the state behind a sample, and what is given for it
    ghost taken: { Self.Tuning → ℤ → Self.State → Self.State × ℤ };

    // a state as words
    ghost words_of: { Self.State → List ℤ };

    /// Its name in scripts.
    fn name() -> &'static [u8]
        ensures { result.now ≡ name };

    /// What these parameters name; None where they aren't taken.
    fn tune(p: &[i16]) -> Option<Self::Tuning>
        ensures { result ≡ tuned p.now };

    /// The state before the first sample.
    fn first() -> Self::State
        ensures { result ≡ first };

    /// Takes a sample: the state behind it, and what is given for it.
    fn take(tuning: Self::Tuning, x: i16, state: &Self::State) -> (Self::State, i16)
        ensures { result ≡ taken tuning x state.now };

    /// The state that these words have.
    fn read(words: &[i16]) -> Self::State
        requires { length words.now ≡ STATE_WORDS }
        ensures { (s : Self.State) → words.now ≡ words_of s → result ≡ s };

    /// Writes the state into its words.
    fn write(state: &Self::State, words: &mut [i16])
        requires { length words.old ≡ STATE_WORDS }
        ensures { words.new ≡ words_of state.now };

    // there is some state, and it isn't too large
    ghost some: { 1 ≤ STATE_WORDS };

    ghost few: { STATE_WORDS ≤ MOST_STATE_WORDS };
}

/// A kind that gives one word for each sample, by a recursion from the start or the last `reset`.
///
/// The kept words are the parameters and the state. The running words are the state.
#[derive(Clone, Copy, PartialEq, Eq, Debug)]
pub struct Recursive<K> {
    of: PhantomData<K>,
}

impl<K: Recursion> Recursive<K> {
    /// The kind, which is a type of one value.
    pub fn new() -> Recursive<K> {
        Recursive { of: PhantomData }
    }
}

impl<K: Recursion> Filter for Recursive<K> {
    const KIND: i16 = K::KIND;

    ghost KIND = { K.KIND };

    ghost filter = { recursion_filter K.first K.taken K.STATE_WORDS K.tuned };

    ghost rests = { RestsByRecursion K.first K.taken K.STATE_WORDS K.tuned K.words_of };

    ghost runs = { RunsByRecursion K.first K.taken K.STATE_WORDS K.tuned K.words_of };

    fn memory(p: &[i16]) -> Option<FilterMemory> {
        match tuning::<K>(p) {
            Some(_tuning) => Some(FilterMemory {
                kept: (p.len() + K::STATE_WORDS) as u32,
                running: K::STATE_WORDS as u32,
                align: LEAST_ALIGNMENT,
            }),
            None => None,
        }
    }

    fn start(p: &[i16], kept: &mut [i16]) {
        if p.len() <= kept.len() {
            let (parameters, state) = kept.split_at_mut(p.len());
            parameters.copy_from_slice(p);
            begin::<K>(state);
        }
    }

    fn restore(kept: &[i16], running: &mut [i16]) {
        if running.len() <= kept.len() {
            let parameters = kept.len() - running.len();
            running.copy_from_slice(&kept[parameters..]);
        }
    }

    fn run(kept: &[i16], running: &mut [i16], input: &[i16], out: &mut Block) {
        if running.len() == K::STATE_WORDS && running.len() <= kept.len() {
            if let Some(tuning) = tuning::<K>(&kept[..kept.len() - running.len()]) {
                run::<K>(tuning, running, input, out);
            }
        }
    }

    fn save(kept: &mut [i16], running: &[i16]) {
        if running.len() <= kept.len() {
            let parameters = kept.len() - running.len();
            let (_p, state) = kept.split_at_mut(parameters);
            state.copy_from_slice(running);
        }
    }

    fn takes(_p: &[i16], c: &Ctl) -> bool {
        match c {
            Ctl::Set(_words) => false,
            Ctl::Reset | Ctl::Get => true,
        }
    }

    fn set(_kept: &mut [i16], _words: &[i16]) {}

    fn reset(running: &mut [i16]) {
        begin::<K>(running);
    }

    fn get(kept: &[i16], running: &[i16]) -> Words {
        let parameters = kept.len().saturating_sub(running.len());
        if parameters <= PARAMETER_WORDS {
            copied(&kept[..parameters])
        } else {
            Words::new()
        }
    }

    ghost one = { λ a b i. a };

    ghost rests_words = { λ p h kept rests. rests.history };

    ghost runs_words = { λ p h kept running runs. runs.history };
}

impl<K: Recursion> Named for Recursive<K> {
    ghost named = { stepping_named K.name (record { of = record {} }) };

    fn of_name(name: &[u8]) -> Option<Recursive<K>> {
        if name == K::name() {
            Some(Recursive::new())
        } else {
            None
        }
    }
}

/// What these parameters name, which are no more words than parameters may have.
fn tuning<K: Recursion>(p: &[i16]) -> Option<K::Tuning>
    ensures value { result ≡ tuning_by K.tuned p.now }
    ensures few { IfSome result (λ _. length p.now ≤ PARAMETER_WORDS) }
{
    if p.len() <= PARAMETER_WORDS {
        K::tune(p)
    } else {
        None
    }
}

/// Writes the first state, where these are the words of a state.
fn begin<K: Recursion>(state: &mut [i16])
    ensures { length state.old ≡ K.STATE_WORDS → state.new ≡ K.words_of K.first }
{
    if state.len() == K::STATE_WORDS {
        K::write(&K::first(), state);
    }
}

/// Runs over a block; `words` have the state before and after.
fn run<K: Recursion>(tuning: K::Tuning, words: &mut [i16], input: &[i16], out: &mut Block)
    requires size { length words.old ≡ K.STATE_WORDS }
    requires within { length input.now ≤ BLOCK_SAMPLES }
    requires empty { out.old.items ≡ [] }
    ensures bounded { length out.new.items ≡ length input.now }
    ensures law { (h : History) → words.old ≡ K.words_of (state_after K.first K.taken tuning h)
        → RanByRecursion K.first K.taken K.words_of tuning h input.now words.new out.new.items }
{
    let mut state = K::read(words);
    for x in input {
        let (next, word) = K::take(tuning, *x, &state);
        state = next;
        out.push(word);
    }
    K::write(&state, words);
}
