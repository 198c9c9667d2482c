//! Layouts worked by hand, and each way to be no table.
use mem_rec::{Attr, MemRec, MemTab, Space, scratch_layout};
use std::process::Abort;
use std::test::Fail;

const OBJECT: MemRec = MemRec {
    size: 4,
    align: 4,
    space: Space::External,
    attr: Attr::Persist,
    base: 0,
};

/// A persistent record.
fn persistent(size: u32) -> MemRec {
    MemRec {
        size,
        align: 4,
        space: Space::Saram,
        attr: Attr::Persist,
        base: 0,
    }
}

/// A write-once record.
fn write_once(size: u32) -> MemRec {
    MemRec {
        size,
        align: 8,
        space: Space::External,
        attr: Attr::WriteOnce,
        base: 0,
    }
}

/// A scratch record.
fn scratch(space: Space, size: u32, align: u32) -> MemRec {
    MemRec {
        size,
        align,
        space,
        attr: Attr::Scratch,
        base: 0,
    }
}

#[test]
fn no_tables(rt: HostRuntime) {
    let largest = persistent(65_536);
    assert!(rt;
        MemTab::make(&[OBJECT, largest, OBJECT, OBJECT]).is_some(),
        "at the limits"
    );
    assert!(rt; MemTab::make(&[]).is_none(), "no record");
    assert!(rt;
        MemTab::make(&[OBJECT, OBJECT, OBJECT, OBJECT, OBJECT]).is_none(),
        "five records"
    );
    assert!(rt;
        MemTab::make(&[scratch(Space::Daram, 4, 4)]).is_none(),
        "a scratch object"
    );
    assert!(rt;
        MemTab::make(&[write_once(4)]).is_none(),
        "a write-once object"
    );
    assert!(rt;
        MemTab::make(&[OBJECT, persistent(0)]).is_none(),
        "no words"
    );
    assert!(rt;
        MemTab::make(&[OBJECT, persistent(65_537)]).is_none(),
        "too many words"
    );
}

/// Whether a table with a record of this alignment is taken.
fn is_aligned_table(align: u32) -> bool {
    MemTab::make(&[OBJECT, scratch(Space::Daram, 4, align)]).is_some()
}

#[test]
fn alignments_are_powers_of_two(rt: HostRuntime) {
    for align in [4, 8, 16, 32, 64, 128, 256, 512, 1_024] {
        assert!(rt; is_aligned_table(align), "an alignment of {align}");
    }
    for align in [0, 1, 2, 3, 5, 12, 36, 1_000, 1_028, 2_048] {
        assert!(rt; !is_aligned_table(align), "an alignment of {align}");
    }
}

#[test]
fn bases(rt: HostRuntime) -> Result<(), Fail> {
    let table = MemTab::make(&[OBJECT, persistent(3)]).ok_or("a table")?;
    assert!(rt; table.len() == 2);
    let placed = table.with_base(1, 65_532);
    let copy = placed.copied();
    assert!(rt; copy.len() == 2);
    assert!(rt; copy.get(0) == OBJECT);
    let moved = MemRec {
        base: 65_532,
        ..persistent(3)
    };
    assert!(rt; copy.get(1) == moved);
    Ok(())
}

/// Asserts where the scratch records of `space` stand, how many words they need and how they are aligned.
fn assert_layout(
    rt: &impl Abort,
    table: &MemTab,
    space: Space,
    offsets: &[u32],
    need: u32,
    align: u32,
) {
    let layout = scratch_layout(table, space);
    assert!(rt; layout.offsets.as_slice() == offsets);
    assert!(rt; layout.need == need);
    assert!(rt; layout.align == align);
}

#[test]
fn layouts(rt: HostRuntime) -> Result<(), Fail> {
    let (daram, saram) = (Space::Daram, Space::Saram);
    let three = [
        OBJECT,
        scratch(daram, 3, 4),
        scratch(daram, 5, 16),
        scratch(daram, 2, 4),
    ];
    let table = MemTab::make(&three).ok_or("a table")?;
    assert_layout(&rt, &table, daram, &[0, 16, 24], 28, 16);
    assert_layout(&rt, &table, saram, &[], 0, 4);

    let mixed = [
        OBJECT,
        scratch(daram, 1, 8),
        scratch(saram, 7, 4),
        scratch(daram, 9, 1_024),
    ];
    let table = MemTab::make(&mixed).ok_or("a table")?;
    assert_layout(&rt, &table, daram, &[0, 1_024], 1_036, 1_024);
    assert_layout(&rt, &table, saram, &[0], 8, 4);
    assert_layout(&rt, &table, Space::External, &[], 0, 4);

    let largest = scratch(daram, 65_536, 1_024);
    let table = MemTab::make(&[OBJECT, largest, largest, largest]).ok_or("a table")?;
    assert_layout(&rt, &table, daram, &[0, 65_536, 131_072], 196_608, 1_024);
    Ok(())
}
