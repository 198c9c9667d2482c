//! Kinds with a state that give one word for each frame of samples.
ghost use Rattle.std.specs.Prelude.{◌≡◌, ◌≤◌, ◌<◌, ◌+◌, ◌∷◌, ℕ, ℤ, pos, Bool, List, [], length, unsigned_abs, IsTrue};
ghost use Rattle.ialg.specs.History.{History, word_at};
ghost use Rattle.kind_parts.specs.declared.words.TheConstants.{MOST_STATE_WORDS};
ghost use Rattle.kind_steps.specs.Steppings.{stepping_filter, stepping_named, are_parameters, onto, RestsInSteps, RunsInSteps, TakesSample, StepsOn, WordsOn};

use ialg::{
    BLOCK_SAMPLES, Block, Ctl, Filter, FilterMemory, Named, PARAMETER_WORDS, Words, clear, copied,
    overwrite,
};
use mem_rec::LEAST_ALIGNMENT;
use std::marker::PhantomData;

/// The words before the samples that wait and the state: whether the state has begun, and how many samples wait.
const HEAD: usize = 2;

/// The state has begun.
const BEGUN: i16 = 1;

/// The most samples of a frame.
pub const MOST_FRAME_SAMPLES: usize = 8_192;

/// What makes a kind of [`Stepped`]: a state of words, and one word that is given for each frame of samples.
pub trait Stepping: Copy + Eq {
    ghost use Rattle.kind_steps.specs.declared.stepping.TheConstants.{MOST_FRAME_SAMPLES};
    ghost use Rattle.kind_parts.specs.declared.words.TheConstants.{MOST_STATE_WORDS};

    /// The kind word of an instance's object.
    const KIND: i16;

    ghost KIND: { ℤ };

    // its name in scripts
    ghost name: { List ℕ };

    // which parameters are taken
    ghost taken: { List ℤ → Bool };

    // how many samples a frame has, by the parameters
    ghost frame: { List ℤ → ℕ };

    // how many words the state has, by the parameters
    ghost words: { List ℤ → ℕ };

    // the state's words behind these samples of whole frames, the newest first
    ghost state_of: { List ℤ → List ℤ → List ℤ };

    // what is given for the newest frame of these samples, the newest first
    ghost told: { List ℤ → List ℤ → ℤ };

    /// Its name in scripts.
    fn name() -> &'static [u8]
        ensures { result.now ≡ name };

    /// Whether these parameters are taken.
    fn takes(p: &[i16]) -> bool
        ensures { result ≡ taken p.now };

    /// How many samples a frame has.
    fn frame(p: &[i16]) -> usize
        requires { IsTrue (taken p.now) }
        ensures { result ≡ frame p.now };

    /// How many words the state has.
    fn state_words(p: &[i16]) -> usize
        requires { IsTrue (taken p.now) }
        ensures { result ≡ words p.now };

    /// Makes the first state, whatever the words were.
    fn begin(p: &[i16], state: &mut [i16])
        requires takes { IsTrue (taken p.now) }
        requires size { length state.old ≡ words p.now }
        ensures { state.new ≡ state_of p.now [] };

    /// Takes a frame into the state, the oldest sample first, and gives the word for it.
    fn step(p: &[i16], state: &mut [i16], samples: &[i16]) -> i16
        requires takes { IsTrue (taken p.now) }
        requires size { length state.old ≡ words p.now }
        requires whole { length samples.now ≡ frame p.now }
        ensures state { (xs : List ℤ) → state.old ≡ state_of p.now xs → state.new ≡ state_of p.now (onto samples.now xs) }
        ensures told { (xs : List ℤ) → state.old ≡ state_of p.now xs → result ≡ told p.now (onto samples.now xs) };

    // a frame has a sample, and not too many
    ghost some: { (p : List ℤ) → IsTrue (taken p) → 1 ≤ frame p };

    ghost short: { (p : List ℤ) → IsTrue (taken p) → frame p ≤ MOST_FRAME_SAMPLES };

    // the state isn't too large
    ghost few: { (p : List ℤ) → IsTrue (taken p) → words p ≤ MOST_STATE_WORDS };
}

/// A kind with a state that gives one word for each frame of samples. Frames follow each other from the start or the last `reset`.
///
/// The kept words are the parameters and the running words. The running words are whether the state has begun, how many samples wait for
/// the others of their frame, room for a frame, and the state.
#[derive(Clone, Copy, PartialEq, Eq, Debug)]
pub struct Stepped<K> {
    of: PhantomData<K>,
}

impl<K: Stepping> Stepped<K> {
    /// The kind, which is a type of one value.
    pub fn new() -> Stepped<K> {
        Stepped { of: PhantomData }
    }
}

impl<K: Stepping> Filter for Stepped<K> {
    const KIND: i16 = K::KIND;

    ghost KIND = { K.KIND };

    ghost filter = { stepping_filter K.frame K.words K.taken K.told };

    ghost rests = { RestsInSteps K.frame K.words K.taken K.state_of };

    ghost runs = { RunsInSteps K.frame K.words K.taken K.state_of };

    fn memory(p: &[i16]) -> Option<FilterMemory> {
        if !takes::<K>(p) {
            return None;
        }
        let running = running_words::<K>(p);
        Some(FilterMemory {
            kept: (p.len() + running) as u32,
            running: running as u32,
            align: LEAST_ALIGNMENT,
        })
    }

    fn start(p: &[i16], kept: &mut [i16]) {
        clear(kept);
        overwrite(kept, p);
    }

    fn restore(kept: &[i16], running: &mut [i16]) {
        if running.len() <= kept.len() {
            let parameters = kept.len() - running.len();
            running.copy_from_slice(&kept[parameters..]);
        }
    }

    fn run(kept: &[i16], running: &mut [i16], input: &[i16], out: &mut Block) {
        if running.len() <= kept.len() {
            let p = &kept[..kept.len() - running.len()];
            if takes::<K>(p) && running.len() == running_words::<K>(p) {
                run_words::<K>(p, running, input, out);
            }
        }
    }

    fn save(kept: &mut [i16], running: &[i16]) {
        if running.len() <= kept.len() {
            let parameters = kept.len() - running.len();
            let (_p, state) = kept.split_at_mut(parameters);
            state.copy_from_slice(running);
        }
    }

    fn takes(_p: &[i16], c: &Ctl) -> bool {
        match c {
            Ctl::Set(_words) => false,
            Ctl::Reset | Ctl::Get => true,
        }
    }

    fn set(_kept: &mut [i16], _words: &[i16]) {}

    fn reset(running: &mut [i16]) {
        clear(running);
    }

    fn get(_kept: &[i16], running: &[i16]) -> Words {
        if running.len() < HEAD {
            Words::new()
        } else {
            copied(&running[1..HEAD])
        }
    }

    ghost one = { λ a b i. a };

    ghost rests_words = { λ p h kept rests. rests.history };

    ghost runs_words = { λ p h kept running runs. runs.history };
}

impl<K: Stepping> Named for Stepped<K> {
    ghost named = { stepping_named K.name (record { of = record {} }) };

    fn of_name(name: &[u8]) -> Option<Stepped<K>> {
        if name == K::name() {
            Some(Stepped::new())
        } else {
            None
        }
    }
}

/// Whether these parameters are taken.
fn takes<K: Stepping>(p: &[i16]) -> bool
    ensures { result ≡ are_parameters K.taken p.now }
{
    !p.is_empty() && p.len() <= PARAMETER_WORDS && K::takes(p)
}

/// How many words run.
fn running_words<K: Stepping>(p: &[i16]) -> usize
    requires { IsTrue (are_parameters K.taken p.now) }
    ensures value { result ≡ HEAD + (K.frame p.now + K.words p.now) }
    ensures few { result ≤ HEAD + (MOST_FRAME_SAMPLES + MOST_STATE_WORDS) }
{
    HEAD + (K::frame(p) + K::state_words(p))
}

/// Takes a sample, which waits or is the last of its frame; `waiting` samples wait before, and so many as are returned behind it.
#[inline]
fn take_sample<K: Stepping>(
    p: &[i16],
    waiting: usize,
    held: &mut [i16],
    state: &mut [i16],
    x: i16,
    out: &mut Block,
) -> usize
    requires takes { IsTrue (K.taken p.now) }
    requires frame { length held.old ≡ K.frame p.now }
    requires size { length state.old ≡ K.words p.now }
    requires few { waiting < K.frame p.now }
    requires room { length out.old.items < BLOCK_SAMPLES }
    ensures few { result < K.frame p.now }
    ensures bounded { length out.new.items ≤ length out.old.items + 1 }
    ensures law { TakesSample K.frame K.state_of K.told p.now waiting held.old state.old x result held.new state.new out.old.items out.new.items }
{
    held[waiting] = x;
    if waiting + 1 < held.len() {
        waiting + 1
    } else {
        out.push(K::step(p, state, held));
        0
    }
}

/// Runs over a block; `held` has the samples that wait, and `state` the state, before and after. How many wait behind it is returned.
fn run_block<K: Stepping>(
    p: &[i16],
    waiting: usize,
    held: &mut [i16],
    state: &mut [i16],
    input: &[i16],
    out: &mut Block,
) -> usize
    requires takes { IsTrue (K.taken p.now) }
    requires frame { length held.old ≡ K.frame p.now }
    requires size { length state.old ≡ K.words p.now }
    requires few { waiting < K.frame p.now }
    requires within { length input.now ≤ BLOCK_SAMPLES }
    requires empty { out.old.items ≡ [] }
    ensures few { result < K.frame p.now }
    ensures bounded { length out.new.items ≤ length input.now }
    ensures law { (h : History) → StepsOn K.frame K.state_of K.told p.now h waiting held.old state.old input.now result held.new state.new out.new.items }
{
    let mut now = waiting;
    for x in input {
        now = take_sample::<K>(p, now, held, state, *x, out);
    }
    now
}

/// Runs over a block; `words` have all that runs before and after.
fn run_words<K: Stepping>(p: &[i16], words: &mut [i16], input: &[i16], out: &mut Block)
    requires takes { IsTrue (are_parameters K.taken p.now) }
    requires size { length words.old ≡ HEAD + (K.frame p.now + K.words p.now) }
    requires within { length input.now ≤ BLOCK_SAMPLES }
    requires empty { out.old.items ≡ [] }
    ensures bounded { length out.new.items ≤ length input.now }
    ensures law { (h : History) → WordsOn K.frame K.state_of K.told p.now h words.old input.now words.new out.new.items }
{
    let n = K::frame(p);
    let (head, rest) = words.split_at_mut(HEAD);
    let (held, state) = rest.split_at_mut(n);
    let waiting = waiting(head);
    if head[0] == 0 {
        K::begin(p, state);
    }
    if waiting < n {
        let now = run_block::<K>(p, waiting, held, state, input, out);
        write_head(head, now);
    }
}

/// How many samples wait.
fn waiting(head: &[i16]) -> usize
    requires { length head.now ≡ HEAD }
    ensures { result ≡ unsigned_abs (word_at head.now 1) }
{
    usize::from(head[1].unsigned_abs())
}

/// Writes that the state has begun, and how many samples wait.
fn write_head(head: &mut [i16], waiting: usize)
    requires size { length head.old ≡ HEAD }
    requires few { waiting < MOST_FRAME_SAMPLES }
    ensures { head.new ≡ BEGUN ∷ pos waiting ∷ [] }
{
    head.copy_from_slice(&[BEGUN, waiting as i16]);
}
