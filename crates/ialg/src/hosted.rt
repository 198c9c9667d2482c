//! Each filter is an algorithm: its calls find the records, and leave the words to the filter.
ghost use Rattle.std.specs.Prelude.{◌≡◌, ◌≤◌, [], length, IsTrue};
ghost use Rattle.std.proofs.Common.{ap, ◌∙◌};
ghost use Rattle.mem_rec.specs.Records.{is_table};
ghost use Rattle.ialg.specs.Loans.{SameLoans, SameBut};
ghost use Rattle.ialg.specs.Objects.{NamesTable};
ghost use Rattle.ialg.specs.Meaning.{AreAlwaysLawful};
ghost use Rattle.ialg.specs.Filters.{filter_records, filter_laws};
ghost use Rattle.ialg.specs.Calls.{ProcessesBlock};
ghost use Rattle.ialg.specs.Hosted.{RestoresFromLent, SavesFromLent, RunsFromLent, GivesFromLent, LeavesLasting, SetsInLent, ResetsInLent, AnswersFromLent, GetsFromLent};

use crate::filter::{Filter, FilterMemory};
use crate::laws::Ialg;
use crate::memory::{Lent, Record};
use crate::object::object_record;
use crate::{BLOCK_SAMPLES, Block, Ctl, FILTER_RECORDS, OBJECT_WORDS, Params, Status, Words};
use mem_rec::{Attr, LEAST_ALIGNMENT, MemRec, MemTab, Space};

/// The number of the record of the kept words.
const KEPT: usize = 1;

/// The number of the record of the running words.
const RUNNING: usize = 2;

impl<K: Filter> Ialg for K {
    ghost law = { filter_laws K.KIND K.filter K.rests K.runs };

    fn alg_num_alloc(&self) -> usize {
        FILTER_RECORDS
    }

    fn alg_alloc(&self, p: &Params) -> Option<MemTab> {
        match K::memory(p.as_slice()) {
            Some(memory) => MemTab::make(&records(memory)),
            None => None,
        }
    }

    fn alg_init(&self, tab: &MemTab, p: &Params, mem: &mut Lent<'_>) {
        write_object_of::<K>(tab, mem);
        let Some(taken) = mem.take_named(Space::Saram, KEPT) else {
            return;
        };
        let Record { k, words } = taken;
        K::start(p.as_slice(), words);
        mem.put(k, words);
    }

    fn alg_activate(&self, mem: &mut Lent<'_>) {
        let Some(taken) = mem.take_named(Space::Daram, RUNNING) else {
            return;
        };
        let Record { k, words } = taken;
        restore_from::<K>(mem, words);
        mem.put(k, words);
    }

    // The running words are taken once for both calls.
    fn activate_and_process(&self, mem: &mut Lent<'_>, input: &[i16], out: &mut Block) {
        let Some(taken) = mem.take_named(Space::Daram, RUNNING) else {
            return;
        };
        let Record { k, words } = taken;
        restore_from::<K>(mem, words);
        run_with::<K>(mem, words, input, out);
        mem.put(k, words);
    }

    #[inline(always)]
    fn process(&self, mem: &mut Lent<'_>, input: &[i16], out: &mut Block)
        requires empty { out.old.items ≡ [] }
        requires some { 1 ≤ length input.now }
        requires within { length input.now ≤ BLOCK_SAMPLES }
        ensures loans { SameLoans mem.old mem.new }
        ensures bounded { length out.new.items ≤ length input.now }
        ensures law { ProcessesBlock (filter_laws K.KIND K.filter K.rests K.runs) self.now input.now out.new.items mem.old mem.new }

        // No word changes but those of the scratch record.
        ensures leaves { LeavesLasting K.KIND K.filter K.runs mem.old mem.new }
    {
        let Some(taken) = mem.take_named(Space::Daram, RUNNING) else {
            return;
        };
        let Record { k, words } = taken;
        run_with::<K>(mem, words, input, out);
        mem.put(k, words);
    }

    fn alg_deactivate(&self, mem: &mut Lent<'_>) {
        let Some(taken) = mem.take_named(Space::Saram, KEPT) else {
            return;
        };
        let Record { k, words } = taken;
        save_from::<K>(mem, words);
        mem.put(k, words);
    }

    fn alg_moved(&self, tab: &MemTab, mem: &mut Lent<'_>) {
        write_object_of::<K>(tab, mem);
    }

    fn accepts(&self, p: &Params, c: &Ctl) -> bool {
        K::takes(p.as_slice(), c)
    }

    fn alg_control(&self, mem: &mut Lent<'_>, c: &Ctl) -> Status {
        match c {
            Ctl::Set(words) => {
                set::<K>(mem, words.as_slice());
                Status::Done
            }
            Ctl::Reset => {
                reset::<K>(mem);
                Status::Done
            }
            Ctl::Get => Status::Words(get::<K>(mem)),
        }
    }

    fn alg_free(&self, mem: &Lent<'_>) -> MemTab {
        mem.table.copied()
    }

    ghost same = { λ a b e. K.one a b };

    ghost compared = { λ a b. ap (λ x. ⟦<K as PartialEq>⟧.eq x b) (K.one a b) ∙ K.Eq.laws.refl b };

    ghost idle_words = { λ _ p rs wss l keeps. K.rests_words p l.history _ keeps.keeps };

    ghost active_words = { λ _ p rs wss l keeps. K.runs_words p l.history _ _ keeps.keeps };

    ghost idle_fill = { λ _ p rs wss l keeps k once. absurd (keeps.placed.none_once k once) };

    ghost active_fill = { λ _ p rs wss l keeps k once. absurd (keeps.placed.none_once k once) };
}

/// The records of a filter that asks for this memory.
fn records(memory: FilterMemory) -> [MemRec; FILTER_RECORDS]
    ensures { result ≡ filter_records memory }
{
    [
        object_record(),
        MemRec {
            size: memory.kept,
            align: LEAST_ALIGNMENT,
            space: Space::Saram,
            attr: Attr::Persist,
            base: 0,
        },
        MemRec {
            size: memory.running,
            align: memory.align,
            space: Space::Daram,
            attr: Attr::Scratch,
            base: 0,
        },
    ]
}

/// Writes the instance object: the kind word, and the bases of the table.
fn write_object_of<K: Filter>(tab: &MemTab, mem: &mut Lent<'_>)
    ensures loans { SameLoans mem.old mem.new }
    ensures others { SameBut 0 mem.old mem.new }
    ensures names { NamesTable K.KIND tab.now mem.old.r0.now mem.new.r0.now }
    ensures valid { IsTrue (is_table tab.now) }
{
    // a table is valid, as its records say
    let _records = tab.records();
    mem.name_records(K::KIND, tab);
}

/// Makes the running words from the kept words that `mem` has.
fn restore_from<K: Filter>(mem: &Lent<'_>, running: &mut [i16])
    ensures { RestoresFromLent K.KIND K.filter K.rests K.runs mem.now running.old running.new }
{
    if let Some(kept) = mem.read_named(Space::Saram, KEPT) {
        K::restore(kept, running);
    }
}

/// Makes the kept words from the running words that `mem` has.
fn save_from<K: Filter>(mem: &Lent<'_>, kept: &mut [i16])
    ensures { SavesFromLent K.KIND K.runs K.rests mem.now kept.old kept.new }
{
    if let Some(running) = mem.read_named(Space::Daram, RUNNING) {
        K::save(kept, running);
    }
}

/// Runs the filter with the kept words that `mem` has.
#[inline(always)]
fn run_with<K: Filter>(mem: &Lent<'_>, running: &mut [i16], input: &[i16], out: &mut Block)
    requires empty { out.old.items ≡ [] }
    requires within { length input.now ≤ BLOCK_SAMPLES }
    ensures bounded { length out.new.items ≤ length input.now }
    ensures history { RunsFromLent K.KIND K.runs mem.now running.old input.now running.new }
    ensures outputs { GivesFromLent K.KIND K.runs K.filter mem.now running.old input.now out.new.items }
{
    if let Some(kept) = mem.read_named(Space::Saram, KEPT) {
        K::run(kept, running, input, out);
    }
}

/// Puts these words into force.
fn set<K: Filter>(mem: &mut Lent<'_>, words: &[i16])
    ensures loans { SameLoans mem.old mem.new }
    ensures law { SetsInLent K.KIND K.filter K.runs words.now mem.old mem.new }
{
    let Some(taken) = mem.take_named(Space::Saram, KEPT) else {
        return;
    };
    let Record { k, words: kept } = taken;
    K::set(kept, words);
    mem.put(k, kept);
}

/// Forgets the past samples.
fn reset<K: Filter>(mem: &mut Lent<'_>)
    ensures loans { SameLoans mem.old mem.new }
    ensures law { ResetsInLent K.KIND K.filter K.runs mem.old mem.new }
{
    let Some(taken) = mem.take_named(Space::Daram, RUNNING) else {
        return;
    };
    let Record { k, words } = taken;
    K::reset(words);
    mem.put(k, words);
}

/// The answer to `get`.
fn get<K: Filter>(mem: &Lent<'_>) -> Words
    ensures answer { AnswersFromLent K.KIND K.filter K.runs mem.now result.items }
    ensures history { GetsFromLent K.KIND K.filter K.runs mem.now }
{
    let Some(kept) = mem.read_named(Space::Saram, KEPT) else {
        return Words::new();
    };
    let Some(running) = mem.read_named(Space::Daram, RUNNING) else {
        return Words::new();
    };
    K::get(kept, running)
}

/// The law that filters keep IALG's laws for all parameters, refused ones too, in a host of any poison word and in one
/// of none. The call does nothing: its contract is the law.
pub fn filters_are_lawful<K: Filter>()
    ensures { AreAlwaysLawful ⟦<K as Ialg>⟧.law.meaning }
{}
