//! Filters: kinds whose instances have one persistent record and one scratch record beside the object.
ghost use Rattle.std.specs.Prelude.{◌≡◌, ◌≤◌, ℤ, [], List, length, Option, IfSome, IsTrue};
ghost use Rattle.mem_rec.specs.Records.{is_table};
ghost use Rattle.ialg.specs.History.{History, IsWordHistory};
ghost use Rattle.ialg.specs.Views.{control_of};
ghost use Rattle.ialg.specs.Filters.{FilterMeaning, filter_records};
ghost use Rattle.ialg.specs.Filtering.{StartsKept, RestoresRunning, KeepsSamples, GivesForSamples, SavesRunning, KeepsSet, KeepsReset, AnswersGet, KeepsGet};

use crate::{BLOCK_SAMPLES, Block, Ctl, Words};

/// The memory that a filter asks for, beside its object.
#[derive(Clone, Copy, PartialEq, Eq, Debug)]
pub struct FilterMemory {
    /// The words of the persistent record r1, in `saram`.
    pub kept: u32,
    /// The words of the scratch record r2, in `daram`.
    pub running: u32,
    /// The alignment of the scratch record.
    pub align: u32,
}

/// A kind with a state, which runs in scratch words while an instance is active, and rests in persistent words while it
/// is idle.
///
/// A filter knows nothing of tables, bases and lent records: its functions work on plain words, and its two relations
/// say what these words keep of a history. Each filter is an [`Ialg`](crate::Ialg), lawful for all parameters.
pub trait Filter: Copy + Eq {
    /// The kind word of an instance's object.
    const KIND: i16;

    ghost KIND: { ℤ };

    // what the kind means, without code and memory
    ghost filter: { FilterMeaning };

    // the kept words keep the history of an idle instance with these parameters
    ghost rests: { List ℤ → History → List ℤ → Type 0 };

    // the kept and the running words keep the history of an active instance
    ghost runs: { List ℤ → History → List ℤ → List ℤ → Type 0 };

    /// The memory for an instance with the parameters `p`; None where the kind refuses them.
    fn memory(p: &[i16]) -> Option<FilterMemory>
        ensures asked { result ≡ filter.memory p.now }
        ensures fits { IfSome result (λ m. IsTrue (is_table (filter_records m))) };

    /// Starts an instance, whatever the words were.
    fn start(p: &[i16], kept: &mut [i16])
        ensures { StartsKept filter rests p.now kept.old kept.new };

    /// Makes the running words from the kept words, whatever they were.
    fn restore(kept: &[i16], running: &mut [i16])
        ensures { RestoresRunning filter rests runs kept.now running.old running.new };

    /// Takes the samples of `input`, and puts what they give into `out`. The kept words stay.
    fn run(kept: &[i16], running: &mut [i16], input: &[i16], out: &mut Block)
        requires empty { out.old.items ≡ [] }
        requires within { length input.now ≤ BLOCK_SAMPLES }
        ensures bounded { length out.new.items ≤ length input.now }
        ensures history { KeepsSamples runs kept.now running.old input.now running.new }
        ensures outputs { GivesForSamples filter runs kept.now running.old input.now out.new.items };

    /// Makes the kept words from the running words.
    fn save(kept: &mut [i16], running: &[i16])
        ensures { SavesRunning rests runs running.now kept.old kept.new };

    /// Whether an instance with the parameters `p` takes the control `c`.
    fn takes(p: &[i16], c: &Ctl) -> bool
        ensures { result ≡ filter.accepts p.now (control_of c.now) };

    /// Puts words that the kind takes into force.
    fn set(kept: &mut [i16], words: &[i16])
        ensures { KeepsSet filter runs words.now kept.old kept.new };

    /// Forgets the past samples.
    fn reset(running: &mut [i16])
        ensures { KeepsReset runs running.old running.new };

    /// The answer to `get`, which changes nothing.
    fn get(kept: &[i16], running: &[i16]) -> Words
        ensures answer { AnswersGet filter runs kept.now running.now result.items }
        ensures history { KeepsGet runs kept.now running.now };

    // a filter is a type of one value
    ghost one: { (a b : Self) → a ≡ b };

    // what is kept is a history of 16-bit samples and words
    ghost rests_words: { (p : List ℤ) (h : History) (kept : List ℤ) → rests p h kept → IsWordHistory h };

    ghost runs_words: { (p : List ℤ) (h : History) (kept running : List ℤ) → runs p h kept running → IsWordHistory h };
}
