//! The bases of a table, by the places of its records.
ghost use Rattle.std.specs.Prelude.{◌≡◌, ◌<◌, ℕ, IsTrue, List, length};
ghost use Rattle.mem_rec.specs.declared.MemRec.{MemRec};
ghost use Rattle.mem_rec.specs.Records.{is_table, with_base};
ghost use Rattle.record_loans.specs.Pieces.{no_pieces, only_third};
ghost use Rattle.scratch_group.specs.Filters.{filter_sizes_in, IsOfFilter};
ghost use Rattle.scratch_group.specs.Sharing.{sharing_sizes_in, IsOfSharingFilter};
ghost use Rattle.scratch_group.specs.Words.{record_place, placed, StandsAtLayout, HasWords, InSpaces};

use crate::group::Group;
use crate::plan::{end_before, offset_behind, record};
use mem_rec::{Attr, MemTab, Space};
use record_loans::{Pieces, place_of};
use space_raw::Piece;

/// The base of each record is its place from now on.
///
/// Inlined, so that where the table is known to be a filter's the compiler drops what others need.
#[inline(always)]
pub(crate) fn rebase(table: &mut MemTab, own: &Pieces, shared: &Pieces, group: &Group)
    requires sizes { HasWords table.old own.now shared.now group.now }
    requires spaces { InSpaces own.now shared.now group.now }
    ensures { table.new ≡ placed table.old own.now shared.now group.now }
{
    // a table has four records at most, as its list of records says
    let _records = table.records();
    let first = place_if_any(table, 0, own, shared, group);
    let second = place_if_any(table, 1, own, shared, group);
    let third = place_if_any(table, 2, own, shared, group);
    let fourth = place_if_any(table, 3, own, shared, group);
    put_base(table, 0, first);
    put_base(table, 1, second);
    put_base(table, 2, third);
    put_base(table, 3, fourth);
}

/// The base of each record is its place from now on, as [`rebase`] has it, of a filter: the one scratch record begins where the block in
/// `daram` does, and no piece is shared.
#[inline(always)]
pub(crate) fn rebase_filter(table: &mut MemTab, own: &Pieces, group: &Group)
    requires table { IsTrue (is_table table.old) }
    requires filter { IsOfFilter table.old (filter_sizes_in table.old) }
    requires sizes { HasWords table.old own.now no_pieces group.now }
    requires spaces { InSpaces own.now no_pieces group.now }
    ensures { table.new ≡ placed table.old own.now no_pieces group.now }
{
    let object = own.place(0);
    let kept = own.place(1);
    let running = group.place_in(Space::Daram, 0);
    table.set_base(0, object);
    table.set_base(1, kept);
    table.set_base(2, running);
}

/// The base of each record is its place from now on, as [`rebase`] has it, of a filter that shares its constants: the one scratch record
/// begins where the block in `daram` does, and the constants where the one piece does that is lent.
#[inline(always)]
pub(crate) fn rebase_sharing(table: &mut MemTab, own: &Pieces, once: &Option<Piece>, group: &Group)
    requires table { IsTrue (is_table table.old) }
    requires sharing { IsOfSharingFilter table.old (sharing_sizes_in table.old) }
    requires sizes { HasWords table.old own.now (only_third once.now) group.now }
    requires spaces { InSpaces own.now (only_third once.now) group.now }
    ensures { table.new ≡ placed table.old own.now (only_third once.now) group.now }
{
    let object = own.place(0);
    let kept = own.place(1);
    let constants = place_of(once);
    let running = group.place_in(Space::Daram, 0);
    table.set_base(0, object);
    table.set_base(1, kept);
    table.set_base(2, constants);
    table.set_base(3, running);
}

/// Record `k`, if there is one, is at `base` from now on.
fn put_base(table: &mut MemTab, k: usize, base: u16)
    ensures { table.new ≡ with_base table.old k base }
{
    if k < table.len() {
        table.set_base(k, base);
    }
}

/// Where record `k` begins, if there is one.
fn place_if_any(table: &MemTab, k: usize, own: &Pieces, shared: &Pieces, group: &Group) -> u16
    requires number { k < 4 }
    requires sizes { HasWords table.now own.now shared.now group.now }
    requires spaces { InSpaces own.now shared.now group.now }
    ensures { k < length table.now → result ≡ record_place table.now own.now shared.now group.now k }
{
    if k < table.len() {
        place(table, k, own, shared, group)
    } else {
        0
    }
}

/// Where record `k` begins.
fn place(table: &MemTab, k: usize, own: &Pieces, shared: &Pieces, group: &Group) -> u16
    requires number { k < 4 }
    requires there { k < length table.now }
    requires sizes { HasWords table.now own.now shared.now group.now }
    requires spaces { InSpaces own.now shared.now group.now }
    ensures { result ≡ record_place table.now own.now shared.now group.now k }
{
    let r = record(table, k);
    match r.attr {
        Attr::Persist => own.place(k),
        Attr::WriteOnce => shared.place(k),
        Attr::Scratch => {
            let end = end_before(table, k, r.space);
            group.place_in(r.space, offset_behind(table, k, end))
        }
    }
}

/// The law that the scratch records are lent at the layout's offsets. The call does nothing: its contract is the law.
pub fn lends_at_the_layout()
    ensures { (rs : List MemRec) (k : ℕ) → k < length rs → StandsAtLayout rs k }
{}
