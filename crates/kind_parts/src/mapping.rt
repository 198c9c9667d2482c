//! Kinds that give one word for each sample, by the words in force alone.
ghost use Rattle.std.specs.Prelude.{◌≡◌, ◌≤◌, ◌<◌, ℕ, ℤ, Bool, List, [], length, FitsSigned, IsTrue};
ghost use Rattle.std.specs.List.{All};
ghost use Rattle.std.specs.Int.{w16};
ghost use Rattle.ialg.specs.History.{History, word_at};
ghost use Rattle.kind_parts.specs.Mappings.{mapping_filter, mapping_named, Maps, MapsOn};

use ialg::{
    BLOCK_SAMPLES, Block, Ctl, Filter, FilterMemory, Named, PARAMETER_WORDS, Words, copied,
    overwrite,
};
use mem_rec::LEAST_ALIGNMENT;
use std::marker::PhantomData;

/// The words of the scratch record of a kind that needs none: a record has one at least.
pub const NO_WORDS: usize = 1;

/// What makes a kind of [`Mapped`]: one word for each sample, by the words in force.
pub trait Mapping: Copy + Eq {
    /// The kind word of an instance's object.
    const KIND: i16;

    ghost KIND: { ℤ };

    // its name in scripts
    ghost name: { List ℕ };

    // which words are taken, as parameters and by a `set`
    ghost taken: { List ℤ → Bool };

    // what a sample gives, by the words in force
    ghost value: { List ℤ → ℤ → ℤ };

    /// Its name in scripts.
    fn name() -> &'static [u8]
        ensures { result.now ≡ name };

    /// Whether these words are taken, as parameters and by a `set`.
    fn takes(words: &[i16]) -> bool
        ensures { result ≡ taken words.now };

    /// What the sample `x` gives, by the words in force.
    fn value(words: &[i16], x: i16) -> i16
        requires { IsTrue (taken words.now) }
        ensures { result ≡ value words.now x };
}

/// A kind that gives one word for each sample, by the words in force alone: those of the last `set`, and the parameters where there was
/// none.
///
/// The kept words are those in force. The running word isn't used.
#[derive(Clone, Copy, PartialEq, Eq, Debug)]
pub struct Mapped<K> {
    of: PhantomData<K>,
}

impl<K: Mapping> Mapped<K> {
    /// The kind, which is a type of one value.
    pub fn new() -> Mapped<K> {
        Mapped { of: PhantomData }
    }
}

impl<K: Mapping> Filter for Mapped<K> {
    const KIND: i16 = K::KIND;

    ghost KIND = { K.KIND };

    ghost filter = { mapping_filter K.taken K.value };

    ghost rests = { Maps K.taken };

    ghost runs = { λ p h kept running. Maps K.taken p h kept };

    fn memory(p: &[i16]) -> Option<FilterMemory> {
        if p.is_empty() || p.len() > PARAMETER_WORDS || !K::takes(p) {
            return None;
        }
        Some(FilterMemory {
            kept: p.len() as u32,
            running: NO_WORDS as u32,
            align: LEAST_ALIGNMENT,
        })
    }

    fn start(p: &[i16], kept: &mut [i16]) {
        overwrite(kept, p);
    }

    fn restore(_kept: &[i16], _running: &mut [i16]) {}

    fn run(kept: &[i16], _running: &mut [i16], input: &[i16], out: &mut Block) {
        if K::takes(kept) {
            map::<K>(kept, input, out);
        }
    }

    fn save(_kept: &mut [i16], _running: &[i16]) {}

    fn takes(p: &[i16], c: &Ctl) -> bool {
        match c {
            Ctl::Set(words) => words.len() == p.len() && K::takes(words.as_slice()),
            Ctl::Reset | Ctl::Get => true,
        }
    }

    fn set(kept: &mut [i16], words: &[i16]) {
        overwrite(kept, words);
    }

    fn reset(_running: &mut [i16]) {}

    fn get(kept: &[i16], _running: &[i16]) -> Words {
        if kept.len() <= PARAMETER_WORDS {
            copied(kept)
        } else {
            Words::new()
        }
    }

    ghost one = { λ a b i. a };

    ghost rests_words = { λ p h kept rests. rests.history };

    ghost runs_words = { λ p h kept running runs. runs.history };
}

impl<K: Mapping> Named for Mapped<K> {
    ghost named = { mapping_named K.name (record { of = record {} }) };

    fn of_name(name: &[u8]) -> Option<Mapped<K>> {
        if name == K::name() {
            Some(Mapped::new())
        } else {
            None
        }
    }
}

/// Writes what each sample gives.
fn map_each<K: Mapping>(words: &[i16], input: &[i16], outputs: &mut [i16])
    requires takes { IsTrue (K.taken words.now) }
    requires room { length outputs.old ≡ length input.now }
    ensures values { (k : ℕ) → k < length input.now → word_at outputs.new k ≡ K.value words.now (word_at input.now k) }
    ensures read { All (FitsSigned w16) input.now }
{
    for k in 0..input.len() {
        outputs[k] = K::value(words, input[k]);
    }
}

/// Gives what each sample of a block gives.
fn map<K: Mapping>(words: &[i16], input: &[i16], out: &mut Block)
    requires takes { IsTrue (K.taken words.now) }
    requires within { length input.now ≤ BLOCK_SAMPLES }
    requires empty { out.old.items ≡ [] }
    ensures bounded { length out.new.items ≡ length input.now }
    ensures law { (p : List ℤ) (h : History) → Maps K.taken p h words.now → MapsOn K.taken K.value p h words.now input.now out.new.items }
{
    out.set_len(input.len());
    let (outputs, _room) = out.room_mut().split_at_mut(input.len());
    map_each::<K>(words, input, outputs);
}
