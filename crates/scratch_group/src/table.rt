//! A table of records, with the way in which these are lent.
ghost use Rattle.std.specs.Prelude.{◌≡◌};
ghost use Rattle.record_loans.specs.Pieces.{no_pieces, only_third};
ghost use Rattle.scratch_group.specs.Filters.{filter_sizes_in, IsFilter};
ghost use Rattle.scratch_group.specs.Loans.{IsLoan};
ghost use Rattle.scratch_group.specs.Sharing.{sharing_sizes_in, IsSharingFilter};
ghost use Rattle.scratch_group.specs.Words.{placed, HasWords, InSpaces};

use crate::bases::{rebase, rebase_filter, rebase_sharing};
use crate::group::Group;
use crate::plan::{Loan, loan_of};
use mem_rec::MemTab;
use record_loans::Pieces;
use space_raw::Piece;
use std::marker::Model;

/// The table of an instance, and how its records are lent. Both stay as they are for the instance's life, but for the bases. A contract
/// sees the list of the records.
#[derive(Drop)]
pub struct LentTable {
    table: MemTab,
    loan: Loan,
}

impl Model for LentTable {
    ghost use Rattle.std.specs.Prelude.{List};
    ghost use Rattle.mem_rec.specs.declared.MemRec.{MemRec};
    ghost use Rattle.scratch_group.specs.Loans.{IsLoan};

    ghost Value = { List MemRec };

    ghost view = { λ t. t.table };

    ghost invariant = { λ t. IsLoan t.table t.loan };
}

impl LentTable {
    /// The table, with the way in which its records are lent.
    pub fn of(table: MemTab) -> LentTable
        ensures { result ≡ table }
    {
        LentTable {
            loan: loan_of(&table),
            table,
        }
    }

    /// The records.
    pub fn table(&self) -> &MemTab
        ensures { result.now ≡ self.now }
    {
        &self.table
    }

    /// How they are lent.
    pub fn loan(&self) -> Loan
        ensures { IsLoan self.now result }
    {
        self.loan
    }

    /// The base of each record is its place from now on.
    #[inline(always)]
    pub fn rebase(&mut self, own: &Pieces, shared: &Pieces, group: &Group)
        requires sizes { HasWords self.old own.now shared.now group.now }
        requires spaces { InSpaces own.now shared.now group.now }
        ensures { self.new ≡ placed self.old own.now shared.now group.now }
    {
        rebase(&mut self.table, own, shared, group);
    }

    /// The base of each record is its place from now on, as [`rebase`](LentTable::rebase) has it, of a filter: the one scratch record
    /// begins where the block in `daram` does, and no piece is shared.
    #[inline(always)]
    pub fn rebase_filter(&mut self, own: &Pieces, group: &Group)
        requires filter { IsFilter self.old (filter_sizes_in self.old) }
        requires sizes { HasWords self.old own.now no_pieces group.now }
        requires spaces { InSpaces own.now no_pieces group.now }
        ensures { self.new ≡ placed self.old own.now no_pieces group.now }
    {
        rebase_filter(&mut self.table, own, group);
    }

    /// The base of each record is its place from now on, as [`rebase`](LentTable::rebase) has it, of a filter that shares its constants:
    /// these begin where the one piece does that is lent.
    #[inline(always)]
    pub fn rebase_sharing(&mut self, own: &Pieces, once: &Option<Piece>, group: &Group)
        requires sharing { IsSharingFilter self.old (sharing_sizes_in self.old) }
        requires sizes { HasWords self.old own.now (only_third once.now) group.now }
        requires spaces { InSpaces own.now (only_third once.now) group.now }
        ensures { self.new ≡ placed self.old own.now (only_third once.now) group.now }
    {
        rebase_sharing(&mut self.table, own, once, group);
    }
}
