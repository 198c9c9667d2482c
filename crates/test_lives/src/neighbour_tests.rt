//! Two filters are active by turns in the scratch memory of one group: each gives the outputs of its own samples, with a control in
//! between.
ghost use Rattle.std.specs.Prelude.{◌≡◌, ◌<◌, ◌≤◌, [], length, Some, None};
ghost use Rattle.ialg.specs.Records.{unplaced};
ghost use Rattle.record_loans.specs.Pieces.{IsSamePiece, no_pieces};
ghost use Rattle.host_shared.specs.Locations.{shared_at};
ghost use Rattle.host_shared.specs.Owners.{HasOwners};
ghost use Rattle.lifecycle.specs.States.{SameInstance};
ghost use Rattle.lifecycle.specs.Turns.{CanBeLent, CanBeRead};
ghost use Rattle.test_lives.specs.Blocks.{SameBlocks};
ghost use Rattle.test_lives.specs.Owners.{IsAllOf, IsPieceThere, IsReady, two_taps};

use crate::alone::{alone, end_alone};
use crate::neighbours::feed;
use crate::regions::{close_both, nothing, region, take_block};
use alg_fir::Fir;
use host_shared::Locations;
use ialg::{BLOCK_SAMPLES, Block, Ctl, Ialg, PARAMETER_WORDS, Params, Status, Words, copied};
use lifecycle::Idle;
use mem_rec::{MemTab, Space};
use record_loans::Pieces;
use scratch_group::Group;
use space_raw::{Piece, Region};
use std::alloc::Allocator;
use std::process::Abort;

/// These words as parameters.
fn words(rt: &impl Abort, values: &[i16]) -> Words
    ensures { result.items ≡ values.now }
{
    assert!(rt; values.len() <= PARAMETER_WORDS);
    copied(values)
}

/// The records of a filter of two coefficients.
fn table(rt: &impl Abort, p: &Params) -> MemTab
    requires { length p.now.items ≡ 2 }
    ensures { result ≡ two_taps }
{
    Fir.alg_alloc(p).expect(rt, "a table")
}

/// A filter that gives half of a sample and half of the one before it.
fn filter(
    rt: &impl Abort,
    object: Piece,
    kept: Piece,
    sharing: &mut Vec<Locations>,
    group: &Group,
) -> Idle<Fir>
    requires object { IsPieceThere 4 object }
    requires kept { IsPieceThere 4 kept }
    requires none { shared_at sharing.old.items 0 ≡ no_pieces }
    requires number { 0 < length sharing.old.items }
    requires owners { HasOwners sharing.old.items 0 }
    requires ready { IsReady group.now }
    ensures object { IsSamePiece (Some object) result.instance.own.p0 }
    ensures kept { IsSamePiece (Some kept) result.instance.own.p1 }
    ensures others { (result.instance.own.p2 ≡ None) × (result.instance.own.p3 ≡ None) }
    ensures table { unplaced result.instance.table ≡ two_taps }
    ensures lent { CanBeLent result.instance sharing.new.items 0 group.now }
{
    let p = words(rt, &[16384, 16384]);
    let table = table(rt, &p);
    let own = Pieces {
        p0: Some(object),
        p1: Some(kept),
        p2: None,
        p3: None,
    };
    let mut member = Idle::new(Fir, &p, table, own);
    member.start(sharing, 0, group);
    member
}

/// An idle instance is active for one control that it accepts.
fn control<M: Ialg>(
    member: Idle<M>,
    sharing: &mut Vec<Locations>,
    group: &mut Group,
    c: &Ctl,
) -> (Idle<M>, Status)
    requires lent { CanBeLent member.instance sharing.old.items 0 group.old }
    ensures same { SameInstance member.instance result.0.instance }
    ensures blocks { SameBlocks group.old group.new }
    ensures lent { CanBeLent result.0.instance sharing.new.items 0 group.new }
{
    let mut member = member;
    member.activate(sharing, 0, group);
    let mut active = member.into_active();
    let status = active.control(sharing, 0, group, c);
    active.deactivate(sharing, 0, group, None);
    (active.into_idle(), status)
}

/// What the member gives for these samples. The group's blocks are overwritten afterwards.
fn give<M: Ialg>(
    member: Idle<M>,
    sharing: &mut Vec<Locations>,
    group: &mut Group,
    input: &[i16],
) -> (Idle<M>, Block)
    requires lent { CanBeLent member.instance sharing.old.items 0 group.old }
    requires some { 1 ≤ length input.now }
    requires within { length input.now ≤ BLOCK_SAMPLES }
    ensures same { SameInstance member.instance result.0.instance }
    ensures blocks { SameBlocks group.old group.new }
    ensures lent { CanBeLent result.0.instance sharing.new.items 0 group.new }
{
    let mut out = Block::new();
    let member = feed(member, sharing, group, input, &mut out);
    (member, out)
}

/// The object and the kept words of an ended instance, which has no other pieces.
fn both(rt: &impl Abort, pieces: Pieces) -> (Piece, Piece)
    ensures object { pieces.p0 ≡ Some result.0 }
    ensures kept { pieces.p1 ≡ Some result.1 }
{
    let Pieces { p0, p1, p2, p3 } = pieces;
    nothing(rt, p2);
    nothing(rt, p3);
    (p0.expect(rt, "the object"), p1.expect(rt, "the kept words"))
}

/// Ends a filter, and closes the regions of its object and of its kept words. How many records its kind told of by algFree.
fn end_filter<A: Allocator>(
    rt: &impl Abort,
    member: Idle<Fir>,
    sharing: Vec<Locations>,
    external: Region<A>,
    saram: Region<A>,
) -> usize
    requires lent { CanBeRead member.instance sharing.items 0 }
    requires object { IsAllOf external member.instance.own.p0 }
    requires kept { IsAllOf saram member.instance.own.p1 }
{
    let mut member = member;
    let mut sharing = sharing;
    let told = member.freed(&mut sharing, 0);
    let (object, kept) = both(rt, member.finish());
    close_both(external, object, saram, kept);
    end_alone(rt, sharing);
    told.len()
}

#[test]
fn members_take_turns(rt: HostRuntime) {
    let (daram, block) = region(&rt, rt.alloc(), 1_028);
    let (external, object) = region(&rt, rt.alloc(), 4);
    let (saram, kept) = region(&rt, rt.alloc(), 4);
    let (other_external, other_object) = region(&rt, rt.alloc(), 4);
    let (other_saram, other_kept) = region(&rt, rt.alloc(), 4);
    let mut group = Group::new();
    nothing(&rt, group.replace(Space::Daram, block, 16));
    let mut none = alone(&rt, rt.alloc(), Pieces::none());
    let mut other_none = alone(&rt, rt.alloc(), Pieces::none());
    let first = filter(&rt, object, kept, &mut none, &group);
    let second = filter(&rt, other_object, other_kept, &mut other_none, &group);

    let (first_once, out) = give(first, &mut none, &mut group, &[2, 4]);
    assert!(rt; out.as_slice() == [1i16, 3].as_slice());
    let (second_once, out) = give(second, &mut other_none, &mut group, &[10]);
    assert!(rt; out.as_slice() == [5i16].as_slice());
    let (first_asked, status) = control(first_once, &mut none, &mut group, &Ctl::Get);
    assert!(rt; status == Status::Words(words(&rt, &[16384, 16384])));
    let (first_twice, out) = give(first_asked, &mut none, &mut group, &[6]);
    assert!(rt; out.as_slice() == [5i16].as_slice());
    assert!(rt; first_twice.accepts(&Ctl::Get));
    let told = end_filter(&rt, first_twice, none, external, saram);
    assert!(rt; told == 3);
    let (second_twice, out) = give(second_once, &mut other_none, &mut group, &[20]);
    assert!(rt; out.as_slice() == [15i16].as_slice());
    let other_told = end_filter(&rt, second_twice, other_none, other_external, other_saram);
    assert!(rt; other_told == 3);

    let block = take_block(&rt, &mut group, Space::Daram);
    group.end();
    daram.close(block);
}
