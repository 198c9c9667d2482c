//! An algorithm that writes each of its calls down in a record that lasts, and answers them to `get`.
ghost use Rattle.std.specs.Prelude.{◌≡◌, ◌≤◌, [], length};
ghost use Rattle.std.proofs.Common.{rules};
ghost use Rattle.std.specs.Cmp.Rules.{comparing};
ghost use Rattle.ialg.specs.Loans.{SameLoans};
ghost use Rattle.test_hosts.specs.Diaries.{diary_meaning};

use arrayvec::ArrayVec;
use ialg::{
    Block, Ctl, Ialg, Lent, PARAMETER_WORDS, Params, Record, Status, Words, copied, object_record,
};
use mem_rec::{Attr, LEAST_ALIGNMENT, MemRec, MemTab, Space, TABLE_RECORDS};

/// What the diary has for each call. That of algFree isn't there: it may write nothing.
pub const INIT: i16 = 1;

pub const ACTIVATE: i16 = 2;

pub const PROCESS: i16 = 3;

pub const CONTROL: i16 = 4;

pub const DEACTIVATE: i16 = 5;

pub const MOVED: i16 = 6;

/// The number of the diary's record, where it isn't the object.
const DIARY: usize = 1;

/// The diary: how many calls there were, and then the calls.
const DIARY_WORDS: u32 = PARAMETER_WORDS as u32;

/// Its parameters are the words of a scratch record in `daram`, of one in `saram`, and of a write-once record, 0 for none; there are two of
/// these at most. Where a fourth parameter is 1 the diary is the object itself, so that there is no other record which lasts. It gives the
/// samples that it takes, answers its diary to `get`, takes `reset`, and takes no `set`. It keeps no law.
///
/// So it can have the records of a filter, of a filter that shares its constants, of a reader, and others.
#[derive(Clone, Copy, PartialEq, Eq, Debug)]
pub struct Diary;

impl Ialg for Diary {
    ghost law = { record {
      meaning = diary_meaning;
      bound = λ _. 0;
      fill = λ _ p k. [];
      idle_refines = λ _ p rs wss l. ⊥;
      active_refines = λ _ p rs wss l. ⊥;
    } };

    fn alg_num_alloc(&self) -> usize {
        TABLE_RECORDS
    }

    fn alg_alloc(&self, p: &Params) -> Option<MemTab> {
        let mut records: ArrayVec<MemRec, TABLE_RECORDS> = ArrayVec::new();
        push_lasting(&mut records, p.get(3) == Some(&1))?;
        push_asked(&mut records, p.get(2), Space::External, Attr::WriteOnce)?;
        push_asked(&mut records, p.get(0), Space::Daram, Attr::Scratch)?;
        push_asked(&mut records, p.get(1), Space::Saram, Attr::Scratch)?;
        MemTab::make(records.as_slice())
    }

    fn alg_init(&self, _tab: &MemTab, _p: &Params, mem: &mut Lent<'_>) {
        begin(mem);
        note(mem, INIT);
    }

    fn alg_activate(&self, mem: &mut Lent<'_>) {
        note(mem, ACTIVATE);
    }

    fn process(&self, mem: &mut Lent<'_>, input: &[i16], out: &mut Block) {
        note(mem, PROCESS);
        out.extend_from_slice(input);
    }

    fn alg_deactivate(&self, mem: &mut Lent<'_>) {
        note(mem, DEACTIVATE);
    }

    fn alg_moved(&self, _tab: &MemTab, mem: &mut Lent<'_>) {
        note(mem, MOVED);
    }

    fn accepts(&self, _p: &Params, c: &Ctl) -> bool {
        match c {
            Ctl::Set(_words) => false,
            Ctl::Reset | Ctl::Get => true,
        }
    }

    fn alg_control(&self, mem: &mut Lent<'_>, c: &Ctl) -> Status {
        note(mem, CONTROL);
        match c {
            Ctl::Get => Status::Words(written(mem)),
            _ => Status::Done,
        }
    }

    fn alg_free(&self, mem: &Lent<'_>) -> MemTab {
        mem.table().copied()
    }

    ghost same = { Prim.search (comparing, rules) };

    ghost compared = { Prim.search (comparing, rules) };

    ghost idle_words = { λ _ p rs wss l keeps. absurd keeps };

    ghost active_words = { λ _ p rs wss l keeps. absurd keeps };

    ghost idle_fill = { λ _ p rs wss l keeps. absurd keeps };

    ghost active_fill = { λ _ p rs wss l keeps. absurd keeps };
}

/// A record of this size.
fn record(size: u32, space: Space, attr: Attr) -> MemRec {
    MemRec {
        size,
        align: LEAST_ALIGNMENT,
        space,
        attr,
        base: 0,
    }
}

/// Adds the records that last: the object, and the diary beside it or in its place.
fn push_lasting(records: &mut ArrayVec<MemRec, TABLE_RECORDS>, is_object: bool) -> Option<()> {
    if is_object {
        let diary = record(DIARY_WORDS, Space::External, Attr::Persist);
        records.try_push(diary).ok()
    } else {
        records.try_push(object_record()).ok()?;
        let diary = record(DIARY_WORDS, Space::Saram, Attr::Persist);
        records.try_push(diary).ok()
    }
}

/// The number of the diary's record.
fn diary_of(table: &MemTab) -> usize {
    if table.len() > 0 && table.get(0).size == DIARY_WORDS {
        0
    } else {
        DIARY
    }
}

/// Adds a record of that many words, where they are asked for.
fn push_asked(
    records: &mut ArrayVec<MemRec, TABLE_RECORDS>,
    words: Option<&i16>,
    space: Space,
    attr: Attr,
) -> Option<()> {
    match words {
        Some(words) if *words > 0 => {
            let more = record(u32::from(words.unsigned_abs()), space, attr);
            records.try_push(more).ok()
        }
        _ => Some(()),
    }
}

/// No call was written down so far.
fn begin(mem: &mut Lent<'_>)
    ensures { SameLoans mem.old mem.new }
{
    let table = mem.table();
    let diary = diary_of(table);
    if diary < table.len() {
        let record = table.get(diary);
        if let Some(Record { k, words }) = mem.take(record.space, record.base) {
            words.fill(0);
            mem.put(k, words);
        }
    }
}

/// Writes a call down, where there is room for it.
fn note(mem: &mut Lent<'_>, call: i16)
    ensures { SameLoans mem.old mem.new }
{
    let table = mem.table();
    let diary = diary_of(table);
    if diary < table.len() {
        let record = table.get(diary);
        if let Some(Record { k, words }) = mem.take(record.space, record.base) {
            write(words, call);
            mem.put(k, words);
        }
    }
}

/// Writes a call behind those that stand in the diary, if there is room.
fn write(words: &mut [i16], call: i16) {
    if words.is_empty() {
        return;
    }
    let at = usize::from(words[0].unsigned_abs()) + 1;
    if at < words.len() && at < PARAMETER_WORDS {
        words[at] = call;
        words[0] = at as i16;
    }
}

/// The calls that were written down, the first one first.
fn written(mem: &Lent<'_>) -> Words {
    let table = mem.table();
    let diary = diary_of(table);
    if table.len() <= diary {
        return Words::new();
    }
    let record = table.get(diary);
    match mem.read(record.space, record.base) {
        Some(words) => calls(words),
        None => Words::new(),
    }
}

/// The calls that stand in the diary.
fn calls(words: &[i16]) -> Words {
    if words.is_empty() {
        return Words::new();
    }
    let count = usize::from(words[0].unsigned_abs());
    if count < words.len() && count < PARAMETER_WORDS {
        copied(&words[1..count + 1])
    } else {
        Words::new()
    }
}
