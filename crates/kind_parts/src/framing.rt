//! Kinds that tell one word of each frame of samples.
ghost use Rattle.std.specs.Prelude.{◌≡◌, ◌≤◌, ◌<◌, ◌+◌, ◌++◌, ◌∷◌, ℕ, ℤ, Bool, List, [], length, pos, replicate, IsTrue};
ghost use Rattle.ialg.specs.History.{History, word_at};
ghost use Rattle.kind_parts.specs.Framings.{framing_filter, framing_named, are_parameters, counted, RestsInFrame, RunsInFrame, FramesOn};

use crate::words::is_within;
use basic_op::add;
use ialg::{
    BLOCK_SAMPLES, Block, Ctl, Filter, FilterMemory, Named, PARAMETER_WORDS, Words, clear, copied,
    overwrite,
};
use mem_rec::LEAST_ALIGNMENT;
use std::marker::PhantomData;

/// The most samples of a frame.
pub const MOST_FRAME: i16 = 32_767;

/// The words that count the samples of a frame.
const COUNT: usize = 1;

/// What makes a kind of [`Framed`]: frames of samples, of which the first parameter is the length, and one word that is told of each.
pub trait Framing: Copy + Eq {
    ghost use Rattle.kind_parts.specs.declared.words.TheConstants.{MOST_STATE_WORDS};

    /// The kind word of an instance's object.
    const KIND: i16;

    /// The words of a frame's state.
    const STATE_WORDS: usize;

    ghost KIND: { ℤ };

    ghost STATE_WORDS: { ℕ };

    // its name in scripts
    ghost name: { List ℕ };

    // which parameters are taken
    ghost taken: { List ℤ → Bool };

    // the state's words behind these samples of a frame, the newest first
    ghost state_of: { List ℤ → List ℤ → List ℤ };

    // what is told of a frame of these samples, the newest first
    ghost told: { List ℤ → List ℤ → ℤ };

    /// Its name in scripts.
    fn name() -> &'static [u8]
        ensures { result.now ≡ name };

    /// Whether these parameters are taken. The first of them is the length of a frame, which is at least 1.
    fn takes(p: &[i16]) -> bool
        ensures { result ≡ taken p.now };

    /// Takes the sample `x` into the state of a frame.
    fn grow(p: &[i16], state: &mut [i16], x: i16)
        requires takes { IsTrue (taken p.now) }
        requires size { length state.old ≡ STATE_WORDS }
        ensures { (xs : List ℤ) → state.old ≡ state_of p.now xs → state.new ≡ state_of p.now (x ∷ xs) };

    /// What is told of a frame that has this state.
    fn tell(p: &[i16], state: &[i16]) -> i16
        requires takes { IsTrue (taken p.now) }
        requires size { length state.now ≡ STATE_WORDS }
        ensures { (xs : List ℤ) → state.now ≡ state_of p.now xs → result ≡ told p.now xs };

    // a frame without samples has words of 0
    ghost begins: { (p : List ℤ) → state_of p [] ≡ replicate STATE_WORDS (pos 0) };

    // there is some state, and it isn't too large
    ghost some: { 1 ≤ STATE_WORDS };

    ghost few: { STATE_WORDS ≤ MOST_STATE_WORDS };
}

/// A kind that tells one word of each frame of samples. Frames follow each other from the start or the last `reset`.
///
/// The kept words are the parameters, how many samples the frame has so far, and its state. The running words are that count and that
/// state.
#[derive(Clone, Copy, PartialEq, Eq, Debug)]
pub struct Framed<K> {
    of: PhantomData<K>,
}

impl<K: Framing> Framed<K> {
    /// The kind, which is a type of one value.
    pub fn new() -> Framed<K> {
        Framed { of: PhantomData }
    }
}

impl<K: Framing> Filter for Framed<K> {
    const KIND: i16 = K::KIND;

    ghost KIND = { K.KIND };

    ghost filter = { framing_filter K.STATE_WORDS K.taken K.told };

    ghost rests = { RestsInFrame K.STATE_WORDS K.taken K.state_of };

    ghost runs = { RunsInFrame K.STATE_WORDS K.taken K.state_of };

    fn memory(p: &[i16]) -> Option<FilterMemory> {
        if !takes::<K>(p) {
            return None;
        }
        Some(FilterMemory {
            kept: (p.len() + (COUNT + K::STATE_WORDS)) as u32,
            running: (COUNT + K::STATE_WORDS) as u32,
            align: LEAST_ALIGNMENT,
        })
    }

    fn start(p: &[i16], kept: &mut [i16]) {
        clear(kept);
        overwrite(kept, p);
    }

    fn restore(kept: &[i16], running: &mut [i16]) {
        if running.len() <= kept.len() {
            let parameters = kept.len() - running.len();
            running.copy_from_slice(&kept[parameters..]);
        }
    }

    fn run(kept: &[i16], running: &mut [i16], input: &[i16], out: &mut Block) {
        if running.len() <= kept.len() && running.len() == COUNT + K::STATE_WORDS {
            let p = &kept[..kept.len() - running.len()];
            if takes::<K>(p) {
                run_frames::<K>(p, running, input, out);
            }
        }
    }

    fn save(kept: &mut [i16], running: &[i16]) {
        if running.len() <= kept.len() {
            let parameters = kept.len() - running.len();
            let (_p, state) = kept.split_at_mut(parameters);
            state.copy_from_slice(running);
        }
    }

    fn takes(_p: &[i16], c: &Ctl) -> bool {
        match c {
            Ctl::Set(_words) => false,
            Ctl::Reset | Ctl::Get => true,
        }
    }

    fn set(_kept: &mut [i16], _words: &[i16]) {}

    fn reset(running: &mut [i16]) {
        clear(running);
    }

    fn get(_kept: &[i16], running: &[i16]) -> Words {
        if running.is_empty() {
            Words::new()
        } else {
            copied(&running[..COUNT])
        }
    }

    ghost one = { λ a b i. a };

    ghost rests_words = { λ p h kept rests. rests.history };

    ghost runs_words = { λ p h kept running runs. runs.history };
}

impl<K: Framing> Named for Framed<K> {
    ghost named = { framing_named K.name (record { of = record {} }) };

    fn of_name(name: &[u8]) -> Option<Framed<K>> {
        if name == K::name() {
            Some(Framed::new())
        } else {
            None
        }
    }
}

/// Whether these parameters are taken.
fn takes<K: Framing>(p: &[i16]) -> bool
    ensures { result ≡ are_parameters K.taken p.now }
{
    !p.is_empty() && p.len() <= PARAMETER_WORDS && is_within(p[0], 1, MOST_FRAME) && K::takes(p)
}

/// Takes a sample into a frame, which has so far the count and the state that `words` have.
fn grow<K: Framing>(p: &[i16], words: &mut [i16], x: i16)
    requires takes { IsTrue (K.taken p.now) }
    requires size { length words.old ≡ COUNT + K.STATE_WORDS }
    ensures { (k : ℕ) (xs : List ℤ) → k < 32767 → words.old ≡ counted K.state_of p.now k xs
        → words.new ≡ counted K.state_of p.now (k + 1) (x ∷ xs) }
{
    let (count, state) = words.split_at_mut(COUNT);
    K::grow(p, state, x);
    count[0] = add(count[0], 1);
}

/// Tells of a frame that is full, and begins the next; another frame goes on.
fn finish<K: Framing>(p: &[i16], words: &mut [i16], out: &mut Block)
    requires takes { IsTrue (K.taken p.now) }
    requires some { 1 ≤ length p.now }
    requires size { length words.old ≡ COUNT + K.STATE_WORDS }
    requires room { length out.old.items < BLOCK_SAMPLES }
    ensures bounded { length out.new.items ≤ length out.old.items + 1 }
    ensures full { (k : ℕ) (xs : List ℤ) → words.old ≡ counted K.state_of p.now k xs → pos k ≡ word_at p.now 0
        → (words.new ≡ counted K.state_of p.now 0 []) × (out.new.items ≡ out.old.items ++ K.told p.now xs ∷ []) }
    ensures unfinished { (k : ℕ) (xs : List ℤ) → words.old ≡ counted K.state_of p.now k xs → (pos k ≡ word_at p.now 0 → ⊥)
        → (words.new ≡ words.old) × (out.new.items ≡ out.old.items) }
{
    if words[0] == p[0] {
        let (_count, state) = words.split_at(COUNT);
        out.push(K::tell(p, state));
        clear(words);
    }
}

/// Runs over a block; `words` have the frame so far before and after.
fn run_frames<K: Framing>(p: &[i16], words: &mut [i16], input: &[i16], out: &mut Block)
    requires takes { IsTrue (are_parameters K.taken p.now) }
    requires size { length words.old ≡ COUNT + K.STATE_WORDS }
    requires within { length input.now ≤ BLOCK_SAMPLES }
    requires empty { out.old.items ≡ [] }
    ensures bounded { length out.new.items ≤ length input.now }
    ensures law { (h : History) → FramesOn K.state_of K.told p.now h words.old input.now words.new out.new.items }
{
    for x in input {
        grow::<K>(p, words, *x);
        finish::<K>(p, words, out);
    }
}
