//! The one way in which an instance is lent its records: for any step, and however its table says that they are lent.
ghost use Rattle.std.specs.Prelude.{◌≡◌, ◌<◌, false, length};
ghost use Rattle.record_loans.specs.Pieces.{SamePieces};
ghost use Rattle.scratch_group.specs.Blocks.{SameGroup};
ghost use Rattle.scratch_group.specs.Words.{placed, DoneActive, DoneIdle, HasPieces, HasWords, InSpaces};
ghost use Rattle.host_shared.specs.Locations.{shared_at};
ghost use Rattle.host_shared.specs.Owners.{HasOwners, OnlyItsPiecesChange};

use host_shared::{Location, Locations, borrow_pieces, give_back_pieces, owner};
use ialg::{Lending, Step};
use record_loans::{CONSTANTS, ONCE, Pieces};
use scratch_group::{
    Group, LentTable, Loan, lend_lasting, lend_lasting_filter, lend_lasting_reader,
    lend_lasting_sharing,
};

/// Where an instance stands: its number, by which its write-once records are found at their owners, and its table.
#[derive(Drop)]
pub(crate) struct Place<'a> {
    pub(crate) number: usize,
    pub(crate) table: &'a LentTable,
}

/// Performs the step with the records of an active instance: its own pieces, those of its write-once records at their owners, and its
/// group's blocks. A filter is lent no shared piece; a reader, and a filter that shares its constants, one where it stands at its owner;
/// every other instance has all of its own borrowed for the time of the step.
#[inline(always)]
pub(crate) fn perform<O, S: Step<O>>(
    step: &S,
    place: &Place<'_>,
    own: &mut Pieces,
    sharing: &mut Vec<Locations>,
    group: &mut Group,
    out: &mut O,
)
    requires can { S.can step.now out.old }
    requires number { place.now.number < length sharing.old.items }
    requires owners { HasOwners sharing.old.items place.now.number }
    requires sizes { HasWords place.now.table.now own.old (shared_at sharing.old.items place.now.number) group.old }
    ensures done { DoneActive (S.done step.now) place.now.table.now false own.old (shared_at sharing.old.items place.now.number) group.old
        own.new (shared_at sharing.new.items place.now.number) group.new out.old out.new }
    ensures own { SamePieces own.old own.new }
    ensures shared { SamePieces (shared_at sharing.old.items place.now.number) (shared_at sharing.new.items place.now.number) }
    ensures seen { OnlyItsPiecesChange place.now.number sharing.old.items sharing.new.items }
    ensures group { SameGroup group.old group.new }
{
    let table = place.table.table();
    match place.table.loan() {
        Loan::Filter(sizes) => group.lend_filtering(step, table, sizes, own, out),
        Loan::Reader(sizes) => {
            let at = owner(sharing, place.number, ONCE);
            match &mut sharing[at].s1 {
                Location::Here(once) => group.lend_reading(step, table, sizes, own, once, out),
                Location::At(_owner) => unreachable!(),
            }
        }
        Loan::Sharing(sizes) => {
            let at = owner(sharing, place.number, CONSTANTS);
            match &mut sharing[at].s2 {
                Location::Here(once) => group.lend_sharing(step, table, sizes, own, once, out),
                Location::At(_owner) => unreachable!(),
            }
        }
        Loan::Planned => {
            let mut shared = borrow_pieces(sharing, place.number);
            group.lend(step, table, own, &mut shared, out);
            give_back_pieces(sharing, place.number, shared);
        }
    }
}

/// Performs the step with the records of an idle instance that last, as [`perform`] does: its own pieces, and those of its write-once
/// records, which may be written where `writable` says so.
#[inline(always)]
pub(crate) fn perform_at_rest<O, S: Step<O>>(
    step: &S,
    place: &Place<'_>,
    writable: bool,
    own: &mut Pieces,
    sharing: &mut Vec<Locations>,
    out: &mut O,
)
    requires can { S.can step.now out.old }
    requires number { place.now.number < length sharing.old.items }
    requires owners { HasOwners sharing.old.items place.now.number }
    requires sizes { HasPieces place.now.table.now own.old (shared_at sharing.old.items place.now.number) }
    ensures done { DoneIdle (S.done step.now) place.now.table.now writable own.old (shared_at sharing.old.items place.now.number)
        own.new (shared_at sharing.new.items place.now.number) out.old out.new }
    ensures own { SamePieces own.old own.new }
    ensures shared { SamePieces (shared_at sharing.old.items place.now.number) (shared_at sharing.new.items place.now.number) }
    ensures seen { OnlyItsPiecesChange place.now.number sharing.old.items sharing.new.items }
{
    let lending = Lending {
        step,
        table: place.table.table(),
        writable,
    };
    match place.table.loan() {
        Loan::Filter(sizes) => lend_lasting_filter(&lending, sizes, own, out),
        Loan::Reader(sizes) => {
            let at = owner(sharing, place.number, ONCE);
            match &mut sharing[at].s1 {
                Location::Here(once) => lend_lasting_reader(&lending, sizes, own, once, out),
                Location::At(_owner) => unreachable!(),
            }
        }
        Loan::Sharing(sizes) => {
            let at = owner(sharing, place.number, CONSTANTS);
            match &mut sharing[at].s2 {
                Location::Here(once) => lend_lasting_sharing(&lending, sizes, own, once, out),
                Location::At(_owner) => unreachable!(),
            }
        }
        Loan::Planned => {
            let mut shared = borrow_pieces(sharing, place.number);
            lend_lasting(&lending, own, &mut shared, out);
            give_back_pieces(sharing, place.number, shared);
        }
    }
}

/// The base of each record of an instance is its place from now on.
pub(crate) fn settle(
    table: &mut LentTable,
    own: &Pieces,
    sharing: &mut Vec<Locations>,
    number: usize,
    group: &Group,
)
    requires number { number < length sharing.old.items }
    requires owners { HasOwners sharing.old.items number }
    requires sizes { HasWords table.old own.now (shared_at sharing.old.items number) group.now }
    requires spaces { InSpaces own.now (shared_at sharing.old.items number) group.now }
    ensures table { table.new ≡ placed table.old own.now (shared_at sharing.old.items number) group.now }
    ensures sharing { sharing.new.items ≡ sharing.old.items }
{
    match table.loan() {
        Loan::Filter(_sizes) => table.rebase_filter(own, group),
        Loan::Sharing(_sizes) => {
            let at = owner(sharing, number, CONSTANTS);
            match &sharing[at].s2 {
                Location::Here(once) => table.rebase_sharing(own, once, group),
                Location::At(_owner) => unreachable!(),
            }
        }
        _ => {
            let shared = borrow_pieces(sharing, number);
            table.rebase(own, &shared, group);
            give_back_pieces(sharing, number, shared);
        }
    }
}
