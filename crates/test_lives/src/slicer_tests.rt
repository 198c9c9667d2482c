//! A slicer whose object and levels stand in one region, and whose scratch records stand in blocks of two others.
ghost use Rattle.std.specs.Prelude.{◌≡◌, length, None};
ghost use Rattle.ialg.specs.Records.{unplaced};
ghost use Rattle.test_doubles.specs.declared.TheConstants.{LEVELS};
ghost use Rattle.test_doubles.specs.Slicer.{slicer_records};

use crate::alone::{alone, parted};
use crate::regions::{close_both, nothing, region, take_block};
use crate::slicer::live;
use ialg::{Block, Ialg, PARAMETER_WORDS, Params, Status, Words, copied};
use mem_rec::{LEAST_ALIGNMENT, MemTab, Space};
use record_loans::Pieces;
use scratch_group::Group;
use space_raw::Piece;
use std::process::Abort;
use test_doubles::{HIGH_ALIGNMENT, Slicer};

/// These words as parameters.
fn words(rt: &impl Abort, values: &[i16]) -> Words
    ensures { result.items ≡ values.now }
{
    assert!(rt; values.len() <= PARAMETER_WORDS);
    copied(values)
}

/// The records of a slicer.
fn table(rt: &impl Abort, levels: &Params) -> MemTab
    requires { length levels.now.items ≡ LEVELS }
    ensures { unplaced result ≡ slicer_records }
{
    Slicer.alg_alloc(levels).expect(rt, "a table")
}

/// The first two of some pieces, the others of which are none.
fn two(rt: &impl Abort, pieces: Pieces) -> (Option<Piece>, Option<Piece>)
    ensures { (result.0 ≡ pieces.p0) × (result.1 ≡ pieces.p1) }
{
    let Pieces { p0, p1, p2, p3 } = pieces;
    nothing(rt, p2);
    nothing(rt, p3);
    (p0, p1)
}

#[test]
fn a_slicer_lives(rt: HostRuntime) {
    let (daram, low) = region(&rt, rt.alloc(), 8);
    let (saram, high) = region(&rt, rt.alloc(), 4);
    let (external, all) = region(&rt, rt.alloc(), 6);
    let (object, levels) = all.split(4);
    let mut group = Group::new();
    let old_daram = group.replace(Space::Daram, low, LEAST_ALIGNMENT);
    let old_saram = group.replace(Space::Saram, high, HIGH_ALIGNMENT);
    nothing(&rt, old_daram);
    nothing(&rt, old_saram);
    let own = Pieces {
        p0: Some(object),
        p1: None,
        p2: None,
        p3: None,
    };
    let shared = Pieces {
        p0: None,
        p1: Some(levels),
        p2: None,
        p3: None,
    };
    let mut sharing = alone(&rt, rt.alloc(), shared);
    let parameters = words(&rt, &[-5, 7]);
    let table = table(&rt, &parameters);
    let mut out = Block::new();
    let (member, status) = live(
        parameters,
        table,
        own,
        &mut sharing,
        &mut group,
        &[-1, 0, 3],
        &mut out,
    );
    assert!(rt; out.as_slice() == [-5i16, 7, 7].as_slice());
    assert!(rt; status == Status::Words(words(&rt, &[-5, 7])));

    let (object, none) = two(&rt, member.finish());
    nothing(&rt, none);
    let (none, levels) = two(&rt, parted(&rt, sharing));
    nothing(&rt, none);
    let levels = levels.expect(&rt, "the levels");
    assert!(rt; levels.words() == [-5i16, 7].as_slice());
    let low = take_block(&rt, &mut group, Space::Daram);
    let high = take_block(&rt, &mut group, Space::Saram);
    group.end();
    close_both(daram, low, saram, high);
    external.close(object.expect(&rt, "the object").join(levels));
}
