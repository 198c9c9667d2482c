//! The records that last are lent to idle instances.
ghost use Rattle.std.specs.Prelude.{◌≤◌, length};
ghost use Rattle.record_loans.specs.Pieces.{no_pieces, only_second, only_third, piece_words, IsSamePiece, SamePieces};
ghost use Rattle.scratch_group.specs.Filters.{idle_filter_words, IsFilter};
ghost use Rattle.scratch_group.specs.Readers.{IsReader};
ghost use Rattle.scratch_group.specs.Sharing.{idle_sharing_words, IsSharingFilter};
ghost use Rattle.scratch_group.specs.Words.{DoneIdle, HasPieces};
ghost use Rattle.record_loans.specs.Performed.{Performed};

use crate::plan::idle_plan;
use ialg::{Lending, Step, lend};
use record_loans::{
    FilterSizes, Pieces, PlannedLoan, ReaderSizes, SharingSizes, lend_reader, lend_without_blocks,
};
use space_raw::Piece;

/// Performs the step with the records of an idle instance: its persistent records in its own pieces, and its write-once records in
/// those that are lent to it. These may be written where the loan says that they are writable.
pub fn lend_lasting<O, S: Step<O>>(
    loan: &Lending<'_, S>,
    own: &mut Pieces,
    shared: &mut Pieces,
    out: &mut O,
)
    requires can { S.can loan.now.step.now out.old }
    requires sizes { HasPieces loan.now.table.now own.old shared.old }
    ensures done { DoneIdle (S.done loan.now.step.now) loan.now.table.now loan.now.writable
        own.old shared.old own.new shared.new out.old out.new }
    ensures own { SamePieces own.old own.new }
    ensures shared { SamePieces shared.old shared.new }
{
    let plan = idle_plan(loan.table);
    let planned = PlannedLoan {
        lending: loan,
        plan: &plan,
    };
    lend_without_blocks(&planned, own, shared, out);
}

/// Performs the step with the records of an idle filter, as [`lend_lasting`] does, out of its own pieces alone.
#[inline(always)]
pub fn lend_lasting_filter<O, S: Step<O>>(
    loan: &Lending<'_, S>,
    sizes: FilterSizes,
    own: &mut Pieces,
    out: &mut O,
)
    requires can { S.can loan.now.step.now out.old }
    requires filter { IsFilter loan.now.table.now sizes }
    requires sizes { HasPieces loan.now.table.now own.old no_pieces }
    ensures done { DoneIdle (S.done loan.now.step.now) loan.now.table.now loan.now.writable
        own.old no_pieces own.new no_pieces out.old out.new }
    ensures own { SamePieces own.old own.new }
{
    lend_filter_at_rest(loan, sizes, own, out);
}

/// Performs the step with the records of an idle reader, as [`lend_lasting`] does, out of its own piece and the one that may be lent to it,
/// where it stands.
#[inline(always)]
pub fn lend_lasting_reader<O, S: Step<O>>(
    loan: &Lending<'_, S>,
    sizes: ReaderSizes,
    own: &mut Pieces,
    once: &mut Option<Piece>,
    out: &mut O,
)
    requires can { S.can loan.now.step.now out.old }
    requires reader { IsReader loan.now.table.now sizes }
    requires sizes { HasPieces loan.now.table.now own.old (only_second once.old) }
    ensures done { DoneIdle (S.done loan.now.step.now) loan.now.table.now loan.now.writable
        own.old (only_second once.old) own.new (only_second once.new) out.old out.new }
    ensures own { SamePieces own.old own.new }
    ensures once { IsSamePiece once.old once.new }
{
    lend_reader(loan, sizes, own, once, out);
}

/// Performs the step with the records of an idle filter that shares its constants, as [`lend_lasting`] does, out of its own pieces and the
/// one that is lent to it, where it stands.
#[inline(always)]
pub fn lend_lasting_sharing<O, S: Step<O>>(
    loan: &Lending<'_, S>,
    sizes: SharingSizes,
    own: &mut Pieces,
    once: &mut Option<Piece>,
    out: &mut O,
)
    requires can { S.can loan.now.step.now out.old }
    requires sharing { IsSharingFilter loan.now.table.now sizes }
    requires sizes { HasPieces loan.now.table.now own.old (only_third once.old) }
    ensures done { DoneIdle (S.done loan.now.step.now) loan.now.table.now loan.now.writable
        own.old (only_third once.old) own.new (only_third once.new) out.old out.new }
    ensures own { SamePieces own.old own.new }
    ensures once { IsSamePiece once.old once.new }
{
    lend_sharing_filter_at_rest(loan, sizes, own, once, out);
}

/// Performs the step with the records of an idle filter, out of its own first two pieces: no other piece is looked at, and no plan made.
#[inline(always)]
fn lend_filter_at_rest<O, S: Step<O>>(
    loan: &Lending<'_, S>,
    sizes: FilterSizes,
    own: &mut Pieces,
    out: &mut O,
)
    requires can { S.can loan.now.step.now out.old }
    requires object { sizes.object ≤ length (piece_words own.old.p0) }
    requires kept { sizes.kept ≤ length (piece_words own.old.p1) }
    requires some { 1 ≤ sizes.object × 1 ≤ sizes.kept }
    ensures done { Performed S.done loan.now (idle_filter_words sizes own.old) (idle_filter_words sizes own.new) out.old out.new }
    ensures own { SamePieces own.old own.new }
{
    match &mut own.p0 {
        Some(object) => match &mut own.p1 {
            Some(kept) => {
                let (object, _rest) = object.words_mut().split_at_mut(sizes.object);
                let (kept, _rest) = kept.words_mut().split_at_mut(sizes.kept);
                lend(loan, object, kept, &mut [], &mut [], out);
            }
            None => unreachable!(),
        },
        None => unreachable!(),
    }
}

/// Performs the step with the records of an idle filter that shares its constants, out of its own first two pieces and the third one that
/// is lent to it: no other piece is looked at, and no plan made.
#[inline(always)]
fn lend_sharing_filter_at_rest<O, S: Step<O>>(
    loan: &Lending<'_, S>,
    sizes: SharingSizes,
    own: &mut Pieces,
    once: &mut Option<Piece>,
    out: &mut O,
)
    requires can { S.can loan.now.step.now out.old }
    requires object { sizes.object ≤ length (piece_words own.old.p0) }
    requires kept { sizes.kept ≤ length (piece_words own.old.p1) }
    requires constants { sizes.constants ≤ length (piece_words once.old) }
    requires some { 1 ≤ sizes.object × 1 ≤ sizes.kept × 1 ≤ sizes.constants }
    ensures done { Performed S.done loan.now (idle_sharing_words sizes own.old once.old) (idle_sharing_words sizes own.new once.new) out.old out.new }
    ensures own { SamePieces own.old own.new }
    ensures once { IsSamePiece once.old once.new }
{
    match &mut own.p0 {
        Some(object) => match &mut own.p1 {
            Some(kept) => match once {
                Some(once) => {
                    let (object, _end) = object.words_mut().split_at_mut(sizes.object);
                    let (kept, _end) = kept.words_mut().split_at_mut(sizes.kept);
                    let shared = once.words_mut();
                    let (constants, _end) = shared.split_at_mut(sizes.constants);
                    lend(loan, object, kept, constants, &mut [], out);
                }
                None => unreachable!(),
            },
            None => unreachable!(),
        },
        None => unreachable!(),
    }
}
