//! What no clause says: that the calls succeed.
ghost use Rattle.std.specs.Prelude.{⊤};
ghost use Rattle.ialg.specs.Loans.{SameLoans};

use ialg::{
    BLOCK_SAMPLES, Block, Lending, Lent, OBJECT_WORDS, PARAMETER_WORDS, Record, Step, Words, lend,
};
use mem_rec::{Attr, MemRec, MemTab, Space};

// The limits, by their numbers.
const _: () = prove!(PARAMETER_WORDS == 72);

const _: () = prove!(BLOCK_SAMPLES == 1_024);

const _: () = prove!(OBJECT_WORDS == 4);

const TABLE: [MemRec; 3] = [
    MemRec {
        size: 4,
        align: 4,
        space: Space::External,
        attr: Attr::Persist,
        base: 8,
    },
    MemRec {
        size: 2,
        align: 4,
        space: Space::Saram,
        attr: Attr::WriteOnce,
        base: 12,
    },
    MemRec {
        size: 3,
        align: 4,
        space: Space::Daram,
        attr: Attr::Scratch,
        base: 12,
    },
];

/// Fills the scratch record with a word, if it is lent for writing.
fn fill_scratch(mem: &mut Lent<'_>, word: i16)
    ensures loans { SameLoans mem.old mem.new }
{
    let Some(Record { k, words }) = mem.take_named(Space::Daram, 2) else {
        return;
    };
    words.fill(word);
    mem.put(k, words);
}

/// Whether the write-once record can be taken.
fn is_once_taken(mem: &mut Lent<'_>) -> bool
    ensures loans { SameLoans mem.old mem.new }
{
    let Some(Record { k, words }) = mem.take(Space::Saram, 12) else {
        return false;
    };
    mem.put(k, words);
    true
}

/// Looks at the records that are lent: what is found by which base, and what may be written.
#[derive(Clone, Copy)]
struct Probe;

/// What the probe found, as it is to be.
#[derive(Clone, Copy, PartialEq, Eq, Debug, Default)]
struct Findings {
    object_base: u16,
    object_is_named: bool,
    others_are_found: bool,
    unknown_is_found: bool,
    once_is_taken: bool,
    scratch_is_written: bool,
}

impl Step<Findings> for Probe {
    ghost can = { λ _ _. ⊤ };

    ghost done = { λ _ _ _ _ _ _ _. ⊤ };

    fn perform(&self, mem: &mut Lent<'_>, out: &mut Findings) {
        let table = mem.table();
        mem.name_records(7, table);
        out.object_base = mem.object_base();
        out.object_is_named = mem.object() == [7, 12, 12, 0].as_slice();
        out.others_are_found = mem.read(Space::Saram, 12) == Some([5, 6].as_slice())
            && mem.read_named(Space::Saram, 1) == Some([5, 6].as_slice());
        out.unknown_is_found = mem.read(Space::Saram, 8).is_some();
        out.once_is_taken = is_once_taken(mem);
        fill_scratch(mem, 9);
        out.scratch_is_written = mem.read(Space::Daram, 12) == Some([9; 3].as_slice());
    }
}

#[test]
fn records_are_found_by_their_bases(rt: HostRuntime) {
    let table = MemTab::make(&TABLE).expect(&rt, "a table");
    for writable in [false, true] {
        let (mut object, mut once, mut scratch) = ([0; 4], [5, 6], [0; 3]);
        let mut found = Findings::default();
        lend(
            &Lending {
                step: &Probe,
                table: &table,
                writable,
            },
            &mut object,
            &mut once,
            &mut scratch,
            &mut [],
            &mut found,
        );
        let wanted = Findings {
            object_base: 8,
            object_is_named: true,
            others_are_found: true,
            unknown_is_found: false,
            once_is_taken: writable,
            scratch_is_written: true,
        };
        assert!(rt; found == wanted);
        assert!(rt; (once, scratch) == ([5, 6], [9; 3]));
    }
}

#[test]
fn words_and_blocks_have_their_room(rt: HostRuntime) {
    assert!(rt; Words::new().remaining_capacity() == 72);
    let mut block = Block::new();
    assert!(rt; block.room_mut().len() == 1_024);
}
