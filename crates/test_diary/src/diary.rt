//! An algorithm that writes each of its calls down in its persistent record.
ghost use Rattle.std.specs.Prelude.{◌≡◌, List, length, FitsSigned, true};
ghost use Rattle.std.specs.List.{All};
ghost use Rattle.std.specs.Int.{w16};
ghost use Rattle.ialg.specs.Filters.{filter_records};
ghost use Rattle.ialg.specs.Loans.{SameLoans};
ghost use Rattle.ialg.proofs.Hosting.{none_once};
ghost use Rattle.test_diary.specs.Diary.{diary_laws, diary_memory, BeginsDiary, Noted, NotesCall, Started};

use crate::{
    ACTIVATE, COMMAND, DEACTIVATE, DIARY_KIND, DIARY_SCRATCH, DIARY_WORDS, INIT, MOVED, PROCESS,
};
use ialg::{
    Block, Ctl, FILTER_RECORDS, Ialg, Lent, Params, Record, Status, Words, clear, object_record,
};
use mem_rec::{Attr, LEAST_ALIGNMENT, MemRec, MemTab, Space};

/// The number of the diary's record.
const DIARY: usize = 1;

/// Keeps its newest calls in a persistent record, the newest first, and has a scratch record that it never touches. It gives nothing for
/// its samples, answers no word to `get`, and takes no `set`.
#[derive(Clone, Copy, PartialEq, Eq, Debug)]
pub struct Diary;

impl Ialg for Diary {
    ghost law = { diary_laws };

    fn alg_num_alloc(&self) -> usize {
        FILTER_RECORDS
    }

    fn alg_alloc(&self, _p: &Params) -> Option<MemTab> {
        MemTab::make(&records())
    }

    fn alg_init(&self, tab: &MemTab, _p: &Params, mem: &mut Lent<'_>) {
        mem.name_records(DIARY_KIND, tab);
        begin(mem);
    }

    fn alg_activate(&self, mem: &mut Lent<'_>) {
        note_in(mem, ACTIVATE);
    }

    fn process(&self, mem: &mut Lent<'_>, input: &[i16], _out: &mut Block) {
        read(input);
        note_in(mem, PROCESS);
    }

    fn alg_deactivate(&self, mem: &mut Lent<'_>) {
        note_in(mem, DEACTIVATE);
    }

    fn alg_moved(&self, tab: &MemTab, mem: &mut Lent<'_>) {
        mem.name_records(DIARY_KIND, tab);
        note_in(mem, MOVED);
    }

    fn accepts(&self, _p: &Params, c: &Ctl) -> bool {
        match c {
            Ctl::Set(_words) => false,
            Ctl::Reset | Ctl::Get => true,
        }
    }

    fn alg_control(&self, mem: &mut Lent<'_>, c: &Ctl) -> Status {
        note_in(mem, COMMAND);
        match c {
            Ctl::Get => Status::Words(Words::new()),
            Ctl::Set(_words) => Status::Done,
            Ctl::Reset => Status::Done,
        }
    }

    fn alg_free(&self, mem: &Lent<'_>) -> MemTab {
        mem.table().copied()
    }

    ghost same = { λ a b e i. a };

    ghost compared = { λ a b i. true };

    ghost idle_words = { λ _ p rs wss l keeps. keeps.notes.history };

    ghost active_words = { λ _ p rs wss l keeps. keeps.notes.history };

    ghost idle_fill = { λ _ p rs wss l keeps k once. absurd (none_once diary_memory rs keeps.object.on_table k once) };

    ghost active_fill = { λ _ p rs wss l keeps k once. absurd (none_once diary_memory rs keeps.object.on_table k once) };
}

/// The object, the diary, and a scratch record.
fn records() -> [MemRec; FILTER_RECORDS]
    ensures { result ≡ filter_records diary_memory }
{
    [
        object_record(),
        MemRec {
            size: DIARY_WORDS,
            align: LEAST_ALIGNMENT,
            space: Space::Saram,
            attr: Attr::Persist,
            base: 0,
        },
        MemRec {
            size: DIARY_SCRATCH,
            align: LEAST_ALIGNMENT,
            space: Space::Daram,
            attr: Attr::Scratch,
            base: 0,
        },
    ]
}

/// No call was written down before algInit.
fn begin(mem: &mut Lent<'_>)
    ensures loans { SameLoans mem.old mem.new }
    ensures begun { BeginsDiary mem.old mem.new }
{
    let Some(taken) = mem.take_named(Space::Saram, DIARY) else {
        return;
    };
    let Record { k, words } = taken;
    start(words);
    mem.put(k, words);
}

/// Writes a call down.
fn note_in(mem: &mut Lent<'_>, call: i16)
    ensures loans { SameLoans mem.old mem.new }
    ensures noted { NotesCall call mem.old mem.new }
{
    let Some(taken) = mem.take_named(Space::Saram, DIARY) else {
        return;
    };
    let Record { k, words } = taken;
    note(words, call);
    mem.put(k, words);
}

/// A diary of its start alone.
fn start(words: &mut [i16])
    ensures { Started words.old words.new }
{
    clear(words);
    note(words, INIT);
}

/// Puts a call in front of those that are there; the oldest goes.
fn note(words: &mut [i16], call: i16)
    ensures { Noted call words.old words.new }
{
    if words.is_empty() {
        return;
    }
    let last = words.len() - 1;
    words.copy_within(0..last, 1);
    words[0] = call;
}

/// Reads all words, so that they are known to have 16 bits.
fn read(words: &[i16])
    ensures { All (FitsSigned w16) words.now }
{
    for k in 0..words.len() {
        let _word = words[k];
    }
}
