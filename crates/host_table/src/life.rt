//! The start and the end of instances.
ghost use Rattle.std.specs.Prelude.{◌≡◌, ◌<◌, ℕ, Option, Some, None, IsSome, length, slice_set};
ghost use Rattle.record_loans.specs.Pieces.{SamePieces, no_pieces};
ghost use Rattle.lifecycle.specs.declared.instance.Inst.TheVariants.{Idling};
ghost use Rattle.mem_rec.specs.declared.TheConstants.{INSTANCES, GROUPS};
ghost use Rattle.host_shared.specs.Locations.{shared_at};
ghost use Rattle.host_shared.specs.Sharing.{left_with, next_sharer, AreLeast};
ghost use Rattle.host_table.specs.Table.{slot_at, own_of, instance_of, active_in, IsIdleAt};
ghost use Rattle.host_table.specs.Sharers.{AreLeastSharers, AreTogether};
ghost use Rattle.host_shared.specs.Joining.{sharer_at};
ghost use Rattle.host_shared.specs.Owners.{OnlyItsPiecesChange};
ghost use Rattle.host_table.specs.Steps.{Ready, AreConsistent, LogsGo, WasDeactivated, active_beside, rested_if};
ghost use Rattle.host_table.specs.Frames.{IsEnded, OtherSlotsStay};
ghost use Rattle.host_table.specs.Starts.{asked_for, BeginsHistory, HasRoomWithSharers, IsStartedWithSharers, JoinsItsSharers, OtherInstancesStay, SeesItsPieces, SharedHaveNone};
ghost use Rattle.host_table.specs.Ends.{HandsOnRecords, NextSharersAreLeast, OtherInstancesAreSame, StayTogether};
ghost use Rattle.lifecycle.specs.Turns.{CanBeRead, CanBegin, WasStarted};
ghost use Rattle.host_table.specs.Turns.{WasFreed, IsEndedAt, SeesTheSame, SlotCanBeRead, SlotKeepsOnce, idle_of};

use crate::{Member, Tables};
use host_shared::{Locations, Sharers, hand_on, join};
use ialg::{Ialg, Params};
use lifecycle::{Idle, Inst};
use mem_rec::MemTab;
use record_loans::{Pieces, end_absent};
use scratch_group::Group;
use std::mem;

/// An instance that is to be created.
#[derive(Drop)]
pub struct NewInstance<'a, M> {
    /// Its number, which is free.
    pub number: u8,
    /// Its scratch group.
    pub group: u8,
    pub kind: M,
    pub params: &'a Params,
    /// The memory that its kind asks for.
    pub table: MemTab,
}

/// Puts an instance into an empty slot.
fn fill_slot<M: Ialg>(instances: &mut Vec<Option<Member<M>>>, i: u8, member: Member<M>)
    requires room { i < length instances.old.items }
    requires empty { slot_at instances.old.items i ≡ None }
    ensures filled { instances.new.items ≡ slice_set instances.old.items i (Some member) }
    ensures there { slot_at instances.new.items i ≡ Some member }
{
    match mem::replace(&mut instances[i as usize], Some(member)) {
        Some(_) => unreachable!(),
        None => {}
    }
}

/// Starts an instance in an empty slot, in the pieces that were placed for it and those of its sharers, with which it shares the others. It
/// is idle.
pub fn start<M: Ialg>(
    tables: &mut Tables<M>,
    instance: NewInstance<'_, M>,
    own: Pieces,
    shared: Pieces,
    sharers: Sharers,
)
    requires number { instance.number < INSTANCES }
    requires group { instance.group < GROUPS }
    requires empty { slot_at tables.old.instances instance.number ≡ None }
    requires none { shared_at tables.old.sharing instance.number ≡ no_pieces }
    requires ok { AreConsistent tables.old }
    requires least { AreLeast tables.old.sharing }
    requires together { AreTogether tables.old.instances tables.old.sharing }
    requires sharers { AreLeastSharers M.law.meaning.same tables.old.instances (asked_for instance) sharers }
    requires placed { SharedHaveNone sharers shared }
    requires fits { HasRoomWithSharers instance own shared sharers tables.old }
    ensures ok { AreConsistent tables.new }
    ensures groups { tables.new.groups ≡ tables.old.groups }
    ensures others { OtherInstancesStay instance.entry.number tables.old tables.new }
    ensures stands { JoinsItsSharers instance.entry.number shared sharers tables.old tables.new }
    ensures least { AreLeast tables.new.sharing }
    ensures together { AreTogether tables.new.instances tables.new.sharing }
    ensures started { IsStartedWithSharers instance.entry own shared sharers tables.old tables.new }
    ensures pieces { SeesItsPieces instance.entry.number shared sharers tables.old tables.new }
    ensures keeps { BeginsHistory M.law instance.entry own shared tables.old tables.new }
{
    let NewInstance {
        number: i,
        group: g,
        kind,
        params,
        table,
    } = instance;
    let _records = table.records();
    join(&mut tables.sharing, i, shared, sharers);
    fill_slot(
        &mut tables.instances,
        i,
        Member {
            group: g,
            inst: Inst::Idling(Idle::new(kind, params, table, own)),
        },
    );
    match &mut tables.instances[i as usize] {
        Some(member) => start_member(
            &mut member.inst,
            &mut tables.sharing,
            i,
            &tables.groups[g as usize],
        ),
        None => unreachable!(),
    }
}

/// Starts an instance that is idle, in its slot. Moved into the slot once it was started, it would be copied whole.
fn start_member<M: Ialg>(inst: &mut Inst<M>, sharing: &mut Vec<Locations>, i: u8, group: &Group)
    requires idle { (g : ℕ) → active_in g inst.old ≡ None }
    requires can { CanBegin (instance_of inst.old) sharing.old.items i group.now }
    ensures idle { inst.new ≡ Idling (idle_of inst.new) }
    ensures started { WasStarted M.law i (idle_of inst.old) (idle_of inst.new) sharing.old.items sharing.new.items group.now }
{
    match inst {
        Inst::Idling(idle) => idle.start(sharing, i, group),
        Inst::Running(_active) => unreachable!(),
    }
}

/// Ends an instance, and gives back the pieces of its own records and those of its write-once records that no other instance shares: the
/// others get a new owner, the next one. An active one is deactivated first. All these pieces come back, whatever its kind answers to
/// algFree.
pub fn end<M: Ialg>(
    tables: &mut Tables<M>,
    poison: Option<i16>,
    i: u8,
    next: &Sharers,
) -> (Pieces, Pieces)
    requires living { IsSome (slot_at tables.old.instances i) }
    requires ready { Ready poison tables.old }
    requires next { (k : ℕ) → sharer_at next.now k ≡ next_sharer tables.old.sharing i k }
    ensures ready { Ready poison tables.new }
    ensures gone { slot_at tables.new.instances i ≡ None }
    ensures none { shared_at tables.new.sharing i ≡ no_pieces }
    ensures own { SamePieces (own_of (slot_at tables.old.instances i)) result.0 }
    ensures shared { SamePieces (left_with tables.old.sharing i) result.1 }
    ensures others { OtherInstancesAreSame i tables.old tables.new }
    ensures handed { HandsOnRecords i tables.old.sharing tables.new.sharing }
    ensures least { AreLeast tables.old.sharing → AreLeast tables.new.sharing }
    ensures together { StayTogether tables.old tables.new }
    ensures next { NextSharersAreLeast M.law i tables.old tables.new }
    ensures activity { WasDeactivated i tables.old tables.new }
    ensures keeps { LogsGo M.law poison tables.old tables.new (rested_if i (active_beside tables.old i)) }
{
    tables.deactivate(poison, i);
    let own = end_idle(&mut tables.instances, &mut tables.sharing, i);
    (own, hand_on(&mut tables.sharing, i, next))
}

/// Tells the kind of an idle instance by algFree that it ends, and takes its own pieces out of it.
fn free_idle<M: Ialg>(idle: &mut Idle<M>, sharing: &mut Vec<Locations>, i: u8) -> Pieces
    requires lent { CanBeRead idle.old.instance sharing.old.items i }
    ensures { WasFreed i idle.old idle.new sharing.old.items sharing.new.items result }
{
    let _told = idle.freed(sharing, i);
    mem::replace(&mut idle.instance.own, Pieces::none())
}

/// Tells the kind of an instance that is idle that it ends, and takes its own pieces out of it.
fn free_member<M: Ialg>(inst: &mut Inst<M>, sharing: &mut Vec<Locations>, i: u8) -> Pieces
    requires idle { (g : ℕ) → active_in g inst.old ≡ None }
    requires lent { CanBeRead (instance_of inst.old) sharing.old.items i }
    ensures freed { WasFreed i (idle_of inst.old) (idle_of inst.new) sharing.old.items sharing.new.items result }
    ensures left { IsEnded inst.new }
{
    match inst {
        Inst::Idling(idle) => free_idle(idle, sharing, i),
        Inst::Running(_active) => unreachable!(),
    }
}

/// Empties the slot of an idle instance whose own pieces were taken out.
fn empty_slot<M: Ialg>(instances: &mut Vec<Option<Member<M>>>, i: u8)
    requires { IsEndedAt instances.old.items i }
    ensures { instances.new.items ≡ slice_set instances.old.items i None }
{
    match mem::replace(&mut instances[i as usize], None) {
        Some(Member { group: _, inst }) => match inst {
            Inst::Idling(idle) => end_absent(idle.finish()),
            Inst::Running(_active) => unreachable!(),
        },
        None => unreachable!(),
    }
}

/// Ends the idle instance of a slot where it stands, once its kind has been told by algFree, and gives its own pieces back. The slot is
/// empty then. Moved out of it first, the instance would be copied whole.
fn end_idle<M: Ialg>(
    instances: &mut Vec<Option<Member<M>>>,
    sharing: &mut Vec<Locations>,
    i: u8,
) -> Pieces
    requires living { IsSome (slot_at instances.old.items i) }
    requires idle { IsIdleAt instances.old.items i }
    requires lent { SlotCanBeRead instances.old.items sharing.old.items i }
    ensures emptied { instances.new.items ≡ slice_set instances.old.items i None }
    ensures gone { slot_at instances.new.items i ≡ None }
    ensures others { OtherSlotsStay i instances.old.items instances.new.items }
    ensures own { SamePieces (own_of (slot_at instances.old.items i)) result }
    ensures seen { OnlyItsPiecesChange i sharing.old.items sharing.new.items }
    ensures shared { SeesTheSame i sharing.old.items sharing.new.items }
    ensures once { SlotKeepsOnce instances.old.items i sharing.old.items sharing.new.items }
{
    let own = match &mut instances[i as usize] {
        Some(member) => free_member(&mut member.inst, sharing, i),
        None => unreachable!(),
    };
    empty_slot(instances, i);
    own
}
