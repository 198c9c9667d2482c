//! What is needed, where blocks stand and what is counted, by numbers. No hosted kind has scratch records in two spaces, of mixed
//! alignments, beside a write-once record: these tables have.
ghost use Rattle.std.specs.Prelude.{◌≡◌, ⊤};
ghost use Rattle.ialg.specs.Loans.{SameLoans};
ghost use Rattle.space_raw.specs.Span.{IsWhole};
ghost use Rattle.test_memory.specs.Tables.{two_spaces, one_space};

use ialg::{Lent, Record, Step};
use mem_rec::{Attr, MemRec, MemTab, Space};
use record_loans::Pieces;
use scratch_group::{Group, Need};
use space_raw::{Piece, Region};
use std::alloc::Global;
use std::process::Abort;

/// A record at this base.
fn record(space: Space, base: u16, attr: Attr, size: u32, align: u32) -> MemRec
    ensures { result ≡ record { size = size; align = align; space = space; attr = attr; base = base } }
{
    MemRec {
        size,
        align,
        space,
        attr,
        base,
    }
}

/// A write-once record, and scratch records in two spaces.
fn two_spaces(rt: &impl Abort) -> MemTab
    ensures { result ≡ two_spaces }
{
    MemTab::make(&[
        record(Space::External, 0, Attr::Persist, 4, 4),
        record(Space::External, 8, Attr::WriteOnce, 5, 8),
        record(Space::Daram, 16, Attr::Scratch, 5, 16),
        record(Space::Saram, 64, Attr::Scratch, 3, 64),
    ])
    .expect(rt, "a table")
}

/// Three scratch records in one space, at 0, 16 and 24.
fn one_space(rt: &impl Abort) -> MemTab
    ensures { result ≡ one_space }
{
    MemTab::make(&[
        record(Space::External, 0, Attr::Persist, 4, 4),
        record(Space::Daram, 0, Attr::Scratch, 3, 4),
        record(Space::Daram, 16, Attr::Scratch, 5, 16),
        record(Space::Daram, 24, Attr::Scratch, 2, 4),
    ])
    .expect(rt, "a table")
}

/// A need of so many words.
fn need(size: u32, align: u32) -> Option<Need> {
    Some(Need { size, align })
}

/// A region of that many words, and all of them as one piece.
fn memory(rt: &impl Abort, alloc: Global, words: u32) -> (Region, Piece)
    ensures size { result.0.size ≡ words }
    ensures whole { (result.1.region ≡ result.0) × IsWhole result.1 }
{
    Region::make(alloc, words).expect(rt, "memory")
}

/// Closes two regions, all of whose words are back.
fn close_both(daram: Region, fast: Piece, saram: Region, slow: Piece)
    requires daram { (fast.region ≡ daram) × IsWhole fast }
    requires saram { (slow.region ≡ saram) × IsWhole slow }
{
    daram.close(fast);
    saram.close(slow);
}

/// Looks that there is no piece.
fn nothing(rt: &impl Abort, piece: Option<Piece>) {
    assert!(rt; piece.is_none(), "no piece");
    match piece {
        Some(_piece) => unreachable!(),
        None => {}
    }
}

#[test]
fn blocks_are_needed_by_size_and_alignment(rt: HostRuntime) {
    let two = two_spaces(&rt);
    let three = one_space(&rt);
    let (region, all) = Region::make(rt.alloc(), 64).expect(&rt, "memory");
    let (small, large) = all.split(8);
    let mut group = Group::new();
    assert!(rt; group.need(&two, Space::Daram) == need(8, 16));
    assert!(rt; group.need(&two, Space::Saram) == need(4, 64));
    assert!(rt; group.need(&two, Space::External) == None);
    nothing(&rt, group.replace(Space::Daram, small, 16));
    assert!(rt; group.need(&two, Space::Daram) == None);
    assert!(rt; group.need(&three, Space::Daram) == need(28, 16));
    // large enough, and less aligned
    let small = group.replace(Space::Daram, large, 4).expect(&rt, "a block");
    assert!(rt; group.spot(Space::Daram) == Some((8, 56, 4)));
    assert!(rt; group.need(&two, Space::Daram) == need(56, 16));
    let large = group.remove(Space::Daram).expect(&rt, "a block");
    assert!(rt; group.spot(Space::Daram) == None);
    group.end();
    region.close(small.join(large));
}

#[test]
fn activations_are_counted(rt: HostRuntime) {
    let mut group = Group::new();
    assert!(rt; (group.active(), group.activations()) == (None, 0));
    for member in [Some(63), None, Some(0)] {
        group.set_active(member);
    }
    assert!(rt; (group.active(), group.activations()) == (Some(0), 2));
    group.end();
}

#[test]
fn fill_reaches_every_word(rt: HostRuntime) {
    let (region, all) = Region::make(rt.alloc(), 8).expect(&rt, "memory");
    let mut group = Group::new();
    nothing(&rt, group.replace(Space::Saram, all, 4));
    group.fill(21845);
    let all = group.remove(Space::Saram).expect(&rt, "a block");
    assert!(rt; all.words() == [21845i16; 8].as_slice());
    group.end();
    region.close(all);
}

/// Writes a word of its own over each record that may be written, and looks whether the write-once record can be read.
#[derive(Clone, Copy)]
struct Mark;

impl Step<bool> for Mark {
    ghost can = { λ _ _. ⊤ };

    ghost done = { λ _ _ _ _ _ _ _. ⊤ };

    fn perform(&self, mem: &mut Lent<'_>, once_is_read: &mut bool) {
        write(mem, Space::External, 0, 1);
        write(mem, Space::External, 8, 2);
        write(mem, Space::Daram, 0, 3);
        write(mem, Space::Daram, 16, 4);
        write(mem, Space::Daram, 24, 5);
        write(mem, Space::Saram, 64, 6);
        *once_is_read = mem.read(Space::External, 8) == Some([0i16; 5].as_slice());
    }
}

/// Writes this word over the record at `base`, where it may be written.
fn write(mem: &mut Lent<'_>, space: Space, base: u16, word: i16)
    ensures loans { SameLoans mem.old mem.new }
{
    let Some(Record { k, words }) = mem.take(space, base) else {
        return;
    };
    words.fill(word);
    mem.put(k, words);
}

#[test]
fn records_are_lent_in_two_spaces(rt: HostRuntime) {
    let table = two_spaces(&rt);
    let (daram, fast) = memory(&rt, rt.alloc(), 8);
    let (saram, slow) = memory(&rt, rt.alloc(), 4);
    let (external, all) = memory(&rt, rt.alloc(), 16);
    let (object, once) = all.split(8);
    let mut group = Group::new();
    let was_in_daram = group.replace(Space::Daram, fast, 16);
    nothing(&rt, was_in_daram);
    let was_in_saram = group.replace(Space::Saram, slow, 64);
    nothing(&rt, was_in_saram);
    let mut own = Pieces {
        p0: Some(object),
        p1: None,
        p2: None,
        p3: None,
    };
    let mut shared = Pieces {
        p0: None,
        p1: Some(once),
        p2: None,
        p3: None,
    };
    let mut once_is_read = false;
    group.lend(&Mark, &table, &mut own, &mut shared, &mut once_is_read);
    assert!(rt; once_is_read);
    let in_daram = group.remove(Space::Daram);
    let fast = in_daram.expect(&rt, "a block");
    let in_saram = group.remove(Space::Saram);
    let slow = in_saram.expect(&rt, "a block");
    let (object, once) = (own.take_out(0), shared.take_out(1));
    assert!(rt; object.words() == [1i16, 1, 1, 1, 0, 0, 0, 0].as_slice());
    assert!(rt; once.words() == [0i16; 8].as_slice());
    assert!(rt; fast.words() == [4i16, 4, 4, 4, 4, 0, 0, 0].as_slice());
    assert!(rt; slow.words() == [6i16, 6, 6, 0].as_slice());
    group.end();
    close_both(daram, fast, saram, slow);
    external.close(object.join(once));
    end(&rt, own);
    end(&rt, shared);
}

#[test]
fn records_are_lent_at_their_offsets(rt: HostRuntime) {
    let table = one_space(&rt);
    let (daram, block) = memory(&rt, rt.alloc(), 28);
    let (external, object) = memory(&rt, rt.alloc(), 4);
    let mut group = Group::new();
    nothing(&rt, group.replace(Space::Daram, block, 16));
    let mut own = Pieces::none();
    own.put_in(0, object);
    let mut none = Pieces::none();
    let mut once_is_read = false;
    group.lend(&Mark, &table, &mut own, &mut none, &mut once_is_read);
    assert!(rt; !once_is_read);
    let block = group.remove(Space::Daram).expect(&rt, "a block");
    let object = own.take_out(0);
    assert!(rt;
        block.words()
            == [
                3i16, 3, 3, 0, 0, 0, 0, 0, 0, 0, 0, 0, 0, 0, 0, 0, 4, 4, 4, 4, 4, 0, 0, 0, 5, 5, 0,
                0
            ]
            .as_slice()
    );
    group.end();
    daram.close(block);
    external.close(object);
    end(&rt, own);
    end(&rt, none);
}

/// Ends pieces that are all taken out.
fn end(rt: &impl Abort, pieces: Pieces) {
    let Pieces { p0, p1, p2, p3 } = pieces;
    nothing(rt, p0);
    nothing(rt, p1);
    nothing(rt, p2);
    nothing(rt, p3);
}
