//! Records are lent: what they lie in is taken for the time of a step, and each becomes a slice of it.
ghost use Rattle.std.specs.Prelude.{◌≤◌, length, None};
ghost use Rattle.record_loans.specs.Blocks.{IsSameBlock};
ghost use Rattle.record_loans.specs.Pieces.{piece_words, IsSamePiece, SamePieces};
ghost use Rattle.record_loans.specs.Loans.{lent_from, LentFits, filter_words_in, reader_words_in, sharing_words_in, FilterFits, ReaderFits, SharingFits};
ghost use Rattle.record_loans.specs.Taken.{HasRecord, words_taken, first_words, second_words, third_words};
ghost use Rattle.record_loans.specs.Performed.{Performed, PerformedBy};

use crate::block::ScratchBlock;
use crate::pieces::Pieces;
use crate::plan::{FilterSizes, Plan, ReaderSizes, SharingSizes};
use ialg::{Lending, Step, lend};
use space_raw::{Piece, end_none};

/// A step that is to be performed with the records of a table, and the plan by which they are cut.
#[derive(Drop)]
pub struct PlannedLoan<'a, S> {
    pub lending: &'a Lending<'a, S>,
    pub plan: &'a Plan,
}

/// Performs the step with the records that the plan cuts out of an instance's own pieces and those that are lent to it. A record
/// that lies in a block isn't among them.
pub fn lend_without_blocks<O, S: Step<O>>(
    loan: &PlannedLoan<'_, S>,
    own: &mut Pieces,
    shared: &mut Pieces,
    out: &mut O,
)
    requires can { S.can loan.now.lending.now.step.now out.old }
    requires fit { LentFits loan.now.plan.now own.old shared.old None None None }
    ensures done { PerformedBy S.done loan.now (lent_from own.old shared.old None None None) (lent_from own.new shared.new None None None) out.old out.new }
    ensures own { SamePieces own.old own.new }
    ensures shared { SamePieces shared.old shared.new }
{
    let mut daram = None;
    let mut saram = None;
    let mut external = None;
    lend_with_blocks(
        loan,
        own,
        shared,
        &mut daram,
        &mut saram,
        &mut external,
        out,
    );
    end_none(daram);
    end_none(saram);
    end_none(external);
}

/// Performs the step with the records that the plan cuts out of an instance's own pieces, those that are lent to it, and the
/// blocks of its group.
pub fn lend_with_blocks<O, S: Step<O>>(
    loan: &PlannedLoan<'_, S>,
    own: &mut Pieces,
    shared: &mut Pieces,
    daram: &mut Option<ScratchBlock>,
    saram: &mut Option<ScratchBlock>,
    external: &mut Option<ScratchBlock>,
    out: &mut O,
)
    requires can { S.can loan.now.lending.now.step.now out.old }
    requires fit { LentFits loan.now.plan.now own.old shared.old daram.old saram.old external.old }
    ensures done { PerformedBy S.done loan.now
        (lent_from own.old shared.old daram.old saram.old external.old)
        (lent_from own.new shared.new daram.new saram.new external.new) out.old out.new }
    ensures own { SamePieces own.old own.new }
    ensures shared { SamePieces shared.old shared.new }
    ensures daram { IsSameBlock daram.old daram.new }
    ensures saram { IsSameBlock saram.old saram.new }
    ensures external { IsSameBlock external.old external.new }
{
    let plan = loan.plan;
    let mut first = plan
        .first
        .take(&mut own.p1, &mut shared.p1, daram, saram, external);
    let mut second = plan
        .second
        .take(&mut own.p2, &mut shared.p2, daram, saram, external);
    let mut third = plan
        .third
        .take(&mut own.p3, &mut shared.p3, daram, saram, external);
    lend_object(loan, &mut own.p0, &mut first, &mut second, &mut third, out);
    plan.third
        .put_back(third, &mut own.p3, &mut shared.p3, daram, saram, external);
    plan.second.put_back(second, &mut own.p2, &mut shared.p2, daram, saram, external);
    plan.first
        .put_back(first, &mut own.p1, &mut shared.p1, daram, saram, external);
}

/// Performs the step with the records of a filter, out of its own pieces and the block in `daram`. Most instances are filters, and theirs
/// are the shortest steps: so their loans are three, and no other piece or block is looked at.
#[inline(always)]
#[tactic(auto, using(crate::proofs::Parts::front_read))]
pub fn lend_filter<O, S: Step<O>>(
    loan: &Lending<'_, S>,
    sizes: FilterSizes,
    own: &mut Pieces,
    daram: &mut Option<ScratchBlock>,
    out: &mut O,
)
    requires can { S.can loan.now.step.now out.old }
    requires some { 1 ≤ sizes.object × 1 ≤ sizes.kept × 1 ≤ sizes.running }
    requires fit { FilterFits sizes own.old daram.old }
    ensures done { Performed S.done loan.now
        (filter_words_in sizes own.old daram.old)
        (filter_words_in sizes own.new daram.new) out.old out.new }
    ensures own { SamePieces own.old own.new }
    ensures daram { IsSameBlock daram.old daram.new }
{
    match &mut own.p0 {
        Some(object) => match &mut own.p1 {
            Some(kept) => match daram {
                Some(block) => {
                    let (object, _rest) = object.words_mut().split_at_mut(sizes.object);
                    let (kept, _rest) = kept.words_mut().split_at_mut(sizes.kept);
                    let scratch = block.piece.words_mut();
                    let (running, _rest) = scratch.split_at_mut(sizes.running);
                    lend(loan, object, kept, running, &mut [], out);
                }
                None => unreachable!(),
            },
            None => unreachable!(),
        },
        None => unreachable!(),
    }
}

/// Performs the step with the records of a filter that shares its constants, out of its own first two pieces, the third one that is lent to
/// it and the block in `daram`: no other piece or block is looked at. The piece that is lent stays where it stands.
#[inline(always)]
#[tactic(auto, using(crate::proofs::Parts::front_read))]
pub fn lend_sharing_filter<O, S: Step<O>>(
    loan: &Lending<'_, S>,
    sizes: SharingSizes,
    own: &mut Pieces,
    once: &mut Option<Piece>,
    daram: &mut Option<ScratchBlock>,
    out: &mut O,
)
    requires can { S.can loan.now.step.now out.old }
    requires some { 1 ≤ sizes.object × 1 ≤ sizes.kept × 1 ≤ sizes.constants × 1 ≤ sizes.running }
    requires fit { SharingFits sizes own.old once.old daram.old }
    ensures done { Performed S.done loan.now
        (sharing_words_in sizes own.old once.old daram.old)
        (sharing_words_in sizes own.new once.new daram.new) out.old out.new }
    ensures own { SamePieces own.old own.new }
    ensures once { IsSamePiece once.old once.new }
    ensures daram { IsSameBlock daram.old daram.new }
{
    match &mut own.p0 {
        Some(object) => match &mut own.p1 {
            Some(kept) => match once {
                Some(once) => match daram {
                    Some(block) => {
                        let (object, _end) = object.words_mut().split_at_mut(sizes.object);
                        let (kept, _end) = kept.words_mut().split_at_mut(sizes.kept);
                        let shared = once.words_mut();
                        let (constants, _end) = shared.split_at_mut(sizes.constants);
                        let scratch = block.piece.words_mut();
                        let (running, _end) = scratch.split_at_mut(sizes.running);
                        lend(loan, object, kept, constants, running, out);
                    }
                    None => unreachable!(),
                },
                None => unreachable!(),
            },
            None => unreachable!(),
        },
        None => unreachable!(),
    }
}

/// Performs the step with the records of a reader, out of its own piece and the second one that is lent to it, if one is: their loans are
/// two, and no other piece and no block is looked at. The piece that is lent stays where it stands.
#[inline(always)]
#[tactic(auto, using(crate::proofs::Parts::front_read))]
pub fn lend_reader<O, S: Step<O>>(
    loan: &Lending<'_, S>,
    sizes: ReaderSizes,
    own: &mut Pieces,
    once: &mut Option<Piece>,
    out: &mut O,
)
    requires can { S.can loan.now.step.now out.old }
    requires some { 1 ≤ sizes.object }
    requires fit { ReaderFits sizes own.old once.old }
    ensures done { Performed S.done loan.now
        (reader_words_in sizes own.old once.old)
        (reader_words_in sizes own.new once.new) out.old out.new }
    ensures own { SamePieces own.old own.new }
    ensures once { IsSamePiece once.old once.new }
{
    match &mut own.p0 {
        Some(object) => match once {
            Some(once) => {
                let (object, _rest) = object.words_mut().split_at_mut(sizes.object);
                let (once, _rest) = once.words_mut().split_at_mut(sizes.once);
                lend(loan, object, once, &mut [], &mut [], out);
            }
            None => {
                let (object, _rest) = object.words_mut().split_at_mut(sizes.object);
                lend(loan, object, &mut [], &mut [], &mut [], out);
            }
        },
        None => unreachable!(),
    }
}

/// Lends record 0 out of its piece, and those behind it.
#[tactic(auto, using(crate::proofs::Parts::front_read))]
fn lend_object<O, S: Step<O>>(
    loan: &PlannedLoan<'_, S>,
    object: &mut Option<Piece>,
    first: &mut Option<Piece>,
    second: &mut Option<Piece>,
    third: &mut Option<Piece>,
    out: &mut O,
)
    requires can { S.can loan.now.lending.now.step.now out.old }
    requires object { loan.now.plan.now.object ≤ length (piece_words object.old) }
    requires first { HasRecord loan.now.plan.now.first first.old }
    requires second { HasRecord loan.now.plan.now.second second.old }
    requires third { HasRecord loan.now.plan.now.third third.old }
    ensures done { PerformedBy S.done loan.now
        (words_taken object.old first.old second.old third.old)
        (words_taken object.new first.new second.new third.new) out.old out.new }
    ensures object { IsSamePiece object.old object.new }
    ensures first { IsSamePiece first.old first.new }
    ensures second { IsSamePiece second.old second.new }
    ensures third { IsSamePiece third.old third.new }
{
    match object {
        Some(piece) => {
            let (object, _rest) = piece.words_mut().split_at_mut(loan.plan.object);
            lend_first(loan, object, first, second, third, out);
        }
        None => lend_first(loan, &mut [], first, second, third, out),
    }
}

/// Lends record 1 out of what was taken for it, and those behind it.
#[tactic(auto, using(crate::proofs::Parts::part_read))]
fn lend_first<O, S: Step<O>>(
    loan: &PlannedLoan<'_, S>,
    r0: &mut [i16],
    first: &mut Option<Piece>,
    second: &mut Option<Piece>,
    third: &mut Option<Piece>,
    out: &mut O,
)
    requires can { S.can loan.now.lending.now.step.now out.old }
    requires first { HasRecord loan.now.plan.now.first first.old }
    requires second { HasRecord loan.now.plan.now.second second.old }
    requires third { HasRecord loan.now.plan.now.third third.old }
    ensures done { PerformedBy S.done loan.now
        (first_words r0.old first.old second.old third.old)
        (first_words r0.new first.new second.new third.new) out.old out.new }
    ensures first { IsSamePiece first.old first.new }
    ensures second { IsSamePiece second.old second.new }
    ensures third { IsSamePiece third.old third.new }
{
    match first {
        Some(piece) => {
            let (_gap, rest) = piece.words_mut().split_at_mut(loan.plan.first.start());
            let (r1, _rest) = rest.split_at_mut(loan.plan.first.size);
            lend_second(loan, r0, r1, second, third, out);
        }
        None => lend_second(loan, r0, &mut [], second, third, out),
    }
}

/// Lends record 2 out of what was taken for it, and the last one.
#[tactic(auto, using(crate::proofs::Parts::part_read))]
fn lend_second<O, S: Step<O>>(
    loan: &PlannedLoan<'_, S>,
    r0: &mut [i16],
    r1: &mut [i16],
    second: &mut Option<Piece>,
    third: &mut Option<Piece>,
    out: &mut O,
)
    requires can { S.can loan.now.lending.now.step.now out.old }
    requires second { HasRecord loan.now.plan.now.second second.old }
    requires third { HasRecord loan.now.plan.now.third third.old }
    ensures done { PerformedBy S.done loan.now
        (second_words r0.old r1.old second.old third.old)
        (second_words r0.new r1.new second.new third.new) out.old out.new }
    ensures second { IsSamePiece second.old second.new }
    ensures third { IsSamePiece third.old third.new }
{
    match second {
        Some(piece) => {
            let (_gap, rest) = piece.words_mut().split_at_mut(loan.plan.second.start());
            let (r2, _rest) = rest.split_at_mut(loan.plan.second.size);
            lend_third(loan, r0, r1, r2, third, out);
        }
        None => lend_third(loan, r0, r1, &mut [], third, out),
    }
}

/// Lends record 3 out of what was taken for it, and performs the step.
#[tactic(auto, using(crate::proofs::Parts::part_read))]
fn lend_third<O, S: Step<O>>(
    loan: &PlannedLoan<'_, S>,
    r0: &mut [i16],
    r1: &mut [i16],
    r2: &mut [i16],
    third: &mut Option<Piece>,
    out: &mut O,
)
    requires can { S.can loan.now.lending.now.step.now out.old }
    requires third { HasRecord loan.now.plan.now.third third.old }
    ensures done { PerformedBy S.done loan.now
        (third_words r0.old r1.old r2.old third.old)
        (third_words r0.new r1.new r2.new third.new) out.old out.new }
    ensures third { IsSamePiece third.old third.new }
{
    match third {
        Some(piece) => {
            let (_gap, rest) = piece.words_mut().split_at_mut(loan.plan.third.start());
            let (r3, _rest) = rest.split_at_mut(loan.plan.third.size);
            lend(loan.lending, r0, r1, r2, r3, out);
        }
        None => lend(loan.lending, r0, r1, r2, &mut [], out),
    }
}
