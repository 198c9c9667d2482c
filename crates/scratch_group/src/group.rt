//! The scratch memory of a group.
ghost use Rattle.std.specs.Prelude.{◌≡◌, ◌<◌, ◌+◌, length, Option, Some, None, false};
ghost use Rattle.record_loans.specs.Blocks.{block_piece, block_words};
ghost use Rattle.scratch_group.specs.Blocks.{block_in, block_spot, block_to_place, filled, BlocksArePoison, SameBut, SameGroup};
ghost use Rattle.host_map.specs.Activity.{count_after};
ghost use Rattle.record_loans.specs.Pieces.{no_pieces, only_second, only_third, piece_place, IsInSpace, IsSamePiece, SamePieces};
ghost use Rattle.scratch_group.specs.Words.{DoneActive, HasWords};
ghost use Rattle.scratch_group.specs.Filters.{IsFilter};
ghost use Rattle.scratch_group.specs.Readers.{IsReader};
ghost use Rattle.scratch_group.specs.Sharing.{IsSharingFilter};

use crate::plan::active_plan;
use host_map::Stat;
use ialg::{Lending, Step};
use mem_rec::{Layout, MemTab, Space, scratch_layout};
use record_loans::{
    FilterSizes, Pieces, PlannedLoan, ReaderSizes, ScratchBlock, SharingSizes, lend_filter,
    lend_reader, lend_sharing_filter, lend_with_blocks,
};
use space_raw::{Piece, end_none};

/// The size and the alignment of a block that is to be placed, in words.
#[derive(Clone, Copy, PartialEq, Eq)]
pub struct Need {
    pub size: u32,
    pub align: u32,
}

/// The scratch memory of a group: a block in each space, or none there. At most one member is active, and only that one is lent
/// records of the blocks. The group can't be dropped: [`end`](Group::end) ends it.
pub struct Group {
    pub(crate) daram: Option<ScratchBlock>,
    pub(crate) saram: Option<ScratchBlock>,
    pub(crate) external: Option<ScratchBlock>,
    pub(crate) active: Option<u8>,
    pub(crate) activations: u32,
}

impl Group {
    /// A group with no blocks and no active member.
    pub fn new() -> Group
        ensures blocks { (space : Space) → block_in result space ≡ None }
        ensures active { result.active ≡ None }
        ensures activations { result.activations ≡ 0 }
    {
        Group {
            daram: None,
            saram: None,
            external: None,
            active: None,
            activations: 0,
        }
    }

    /// The block in a space.
    fn block(&self, space: Space) -> &Option<ScratchBlock>
        ensures { result.now ≡ block_in self.now space }
    {
        match space {
            Space::Daram => &self.daram,
            Space::Saram => &self.saram,
            Space::External => &self.external,
        }
    }

    /// The block that has to be placed in a space before an instance with this table is created: None where the table has no scratch
    /// records there, or the block that stands there is large and aligned enough.
    pub fn need(&self, table: &MemTab, space: Space) -> Option<Need>
        ensures { result ≡ block_to_place self.now table.now space }
    {
        let Layout {
            offsets: _,
            need,
            align,
        } = scratch_layout(table, space);
        if need == 0 {
            return None;
        }
        match self.block(space) {
            Some(b) => {
                let size = b.piece.len();
                if need <= size && align <= b.align {
                    None
                } else {
                    Some(Need {
                        size: size.max(need),
                        align: b.align.max(align),
                    })
                }
            }
            None => Some(Need { size: need, align }),
        }
    }

    /// Puts a block into a space, and gives back the one that stood there.
    pub fn replace(&mut self, space: Space, piece: Piece, align: u32) -> Option<Piece>
        ensures old { result ≡ block_piece (block_in self.old space) }
        ensures new { block_in self.new space ≡ Some (record { piece = piece; align = align }) }
        ensures others { SameBut space self.old self.new }
    {
        let block = ScratchBlock { piece, align };
        let old = match space {
            Space::Daram => self.daram.replace(block),
            Space::Saram => self.saram.replace(block),
            Space::External => self.external.replace(block),
        };
        piece_of(old)
    }

    /// Takes the block out of a space.
    pub fn remove(&mut self, space: Space) -> Option<Piece>
        ensures old { result ≡ block_piece (block_in self.old space) }
        ensures new { block_in self.new space ≡ None }
        ensures others { SameBut space self.old self.new }
    {
        let old = match space {
            Space::Daram => self.daram.take(),
            Space::Saram => self.saram.take(),
            Space::External => self.external.take(),
        };
        piece_of(old)
    }

    /// The place, the size and the alignment of the block in a space, in words.
    pub fn spot(&self, space: Space) -> Option<(u32, u32, u32)>
        ensures { result ≡ block_spot (block_in self.now space) }
    {
        match self.block(space) {
            Some(b) => Some((b.piece.place(), b.piece.len(), b.align)),
            None => None,
        }
    }

    /// Where the word at this offset of the block in a space stands.
    pub(crate) fn place_in(&self, space: Space, offset: u32) -> u16
        requires inside { offset < length (block_words (block_in self.now space)) }
        requires space { IsInSpace (block_piece (block_in self.now space)) }
        ensures { result ≡ piece_place (block_piece (block_in self.now space)) + offset }
    {
        match self.block(space) {
            Some(b) => {
                // the block lies within its region, as its length says
                let _len = b.piece.len();
                (b.piece.place() + offset) as u16
            }
            None => unreachable!(),
        }
    }

    /// The active member.
    pub fn active(&self) -> Option<u8>
        ensures { result ≡ self.now.active }
    {
        self.active
    }

    /// Says which member is active from now on. Each activation is counted, up to the greatest u32.
    pub fn set_active(&mut self, member: Option<u8>)
        ensures active { self.new.active ≡ member }
        ensures activations { self.new.activations ≡ count_after self.old.activations member }
        ensures blocks { (space : Space) → block_in self.new space ≡ block_in self.old space }
    {
        self.active = member;
        if member.is_some() {
            self.activations = self.activations.saturating_add(1);
        }
    }

    /// How many times a member was activated.
    pub fn activations(&self) -> u32
        ensures { result ≡ self.now.activations }
    {
        self.activations
    }

    /// Makes every word of the blocks this one.
    pub fn fill(&mut self, word: i16)
        ensures blocks { (space : Space) → block_in self.new space ≡ filled word (block_in self.old space) }
        ensures poison { BlocksArePoison (Some word) self.new }
        ensures same { SameGroup self.old self.new }
    {
        fill_block(&mut self.daram, word);
        fill_block(&mut self.saram, word);
        fill_block(&mut self.external, word);
    }

    /// Performs the step with the records of an active instance: its persistent records in its own pieces, its write-once records
    /// in those that are lent to it, for reading alone, and its scratch records at the layout's offsets of the blocks.
    pub fn lend<O, S: Step<O>>(
        &mut self,
        step: &S,
        table: &MemTab,
        own: &mut Pieces,
        shared: &mut Pieces,
        out: &mut O,
    )
        requires can { S.can step.now out.old }
        requires sizes { HasWords table.now own.old shared.old self.old }
        ensures done { DoneActive (S.done step.now) table.now false own.old shared.old self.old own.new shared.new self.new out.old out.new }
        ensures own { SamePieces own.old own.new }
        ensures shared { SamePieces shared.old shared.new }
        ensures group { SameGroup self.old self.new }
    {
        // write-once records are for reading alone
        let loan = Lending {
            step,
            table,
            writable: false,
        };
        let plan = active_plan(table);
        let planned = PlannedLoan {
            lending: &loan,
            plan: &plan,
        };
        lend_with_blocks(
            &planned,
            own,
            shared,
            &mut self.daram,
            &mut self.saram,
            &mut self.external,
            out,
        );
    }

    /// Performs the step with the records of a filter, as [`lend`](Group::lend) does, out of its own pieces and the block in `daram`. No
    /// other block is looked at, and no plan made.
    #[inline(always)]
    pub fn lend_filtering<O, S: Step<O>>(
        &mut self,
        step: &S,
        table: &MemTab,
        sizes: FilterSizes,
        own: &mut Pieces,
        out: &mut O,
    )
        requires can { S.can step.now out.old }
        requires filter { IsFilter table.now sizes }
        requires sizes { HasWords table.now own.old no_pieces self.old }
        ensures done { DoneActive (S.done step.now) table.now false own.old no_pieces self.old own.new no_pieces self.new out.old out.new }
        ensures own { SamePieces own.old own.new }
        ensures group { SameGroup self.old self.new }
    {
        // write-once records are for reading alone
        let loan = Lending {
            step,
            table,
            writable: false,
        };
        lend_filter(&loan, sizes, own, &mut self.daram, out);
    }

    /// Performs the step with the records of a reader, as [`lend`](Group::lend) does, out of the one piece that may be lent to it. No block
    /// is looked at, and no plan made.
    #[inline(always)]
    pub fn lend_reading<O, S: Step<O>>(
        &self,
        step: &S,
        table: &MemTab,
        sizes: ReaderSizes,
        own: &mut Pieces,
        once: &mut Option<Piece>,
        out: &mut O,
    )
        requires can { S.can step.now out.old }
        requires reader { IsReader table.now sizes }
        requires sizes { HasWords table.now own.old (only_second once.old) self.now }
        ensures done { DoneActive (S.done step.now) table.now false own.old (only_second once.old) self.now own.new (only_second once.new) self.now
            out.old out.new }
        ensures own { SamePieces own.old own.new }
        ensures once { IsSamePiece once.old once.new }
    {
        // write-once records are for reading alone
        let loan = Lending {
            step,
            table,
            writable: false,
        };
        lend_reader(&loan, sizes, own, once, out);
    }

    /// Performs the step with the records of a filter that shares its constants, as [`lend`](Group::lend) does, out of its own pieces, the
    /// one that is lent to it and the block in `daram`. No other block is looked at, and no plan made.
    #[inline(always)]
    pub fn lend_sharing<O, S: Step<O>>(
        &mut self,
        step: &S,
        table: &MemTab,
        sizes: SharingSizes,
        own: &mut Pieces,
        once: &mut Option<Piece>,
        out: &mut O,
    )
        requires can { S.can step.now out.old }
        requires sharing { IsSharingFilter table.now sizes }
        requires sizes { HasWords table.now own.old (only_third once.old) self.old }
        ensures done { DoneActive (S.done step.now) table.now false own.old (only_third once.old) self.old own.new (only_third once.new) self.new
            out.old out.new }
        ensures own { SamePieces own.old own.new }
        ensures once { IsSamePiece once.old once.new }
        ensures group { SameGroup self.old self.new }
    {
        // write-once records are for reading alone
        let loan = Lending {
            step,
            table,
            writable: false,
        };
        lend_sharing_filter(&loan, sizes, own, once, &mut self.daram, out);
    }

    /// Ends a group whose blocks were all taken out. It answers nothing and leaves nothing behind, so that there is no more to say: a
    /// block that still stood there would have to be given back, and that is what the call asks.
    #[tactic(auto, using(crate::proofs::NoBlocks::no_daram, crate::proofs::NoBlocks::no_saram, crate::proofs::NoBlocks::no_external))]
    pub fn end(self)
        requires { (space : Space) → block_in self space ≡ None }
    {
        let Group {
            daram,
            saram,
            external,
            active: _,
            activations: _,
        } = self;
        end_none(daram);
        end_none(saram);
        end_none(external);
    }
}

/// The piece of a block.
fn piece_of(block: Option<ScratchBlock>) -> Option<Piece>
    ensures { result ≡ block_piece block }
{
    match block {
        Some(ScratchBlock { piece, align: _ }) => Some(piece),
        None => None,
    }
}

/// Makes every word of a block this one.
fn fill_block(block: &mut Option<ScratchBlock>, word: i16)
    ensures { block.new ≡ filled word block.old }
{
    match block {
        Some(b) => b.piece.words_mut().fill(word),
        None => {}
    }
}
