//! The three spaces.
ghost use Rattle.std.specs.Prelude.{◌≡◌, ◌+◌, ◌-◌, ◌<◌, ◌≤◌, ◌^◌, length, min, None, IsSome, IfOk, IfErr, IfNone, IsErrOf};
ghost use Rattle.host_map.specs.declared.TheConstants.{MAP_BLOCKS, SPACE_BLOCKS};
ghost use Rattle.host_map.specs.declared.placed.Owner.{Owner};
ghost use Rattle.host_spaces.specs.Blocks.{Owns};
ghost use Rattle.host_map.specs.Blocks.{without_at};
ghost use Rattle.host_map.specs.Moves.{moved, next_block};
ghost use Rattle.host_spaces.specs.Spaces.{AreInOrder, HasFront};
ghost use Rattle.host_spaces.specs.MemoryMap.{AreSameSpaces, copied_in, map_of, sizes_of, space_in};
ghost use Rattle.host_map.specs.MemoryMap.{AreSizes, blocks_in, empty_map, moved_in};
ghost use Rattle.host_spaces.specs.Wants.{IsWithinLimits};
ghost use Rattle.host_spaces.specs.Changes.{GoesOnAs, IsIndexOfNext, IsNextToMove, IsPieceOf, IsPlaceOfNext, LeavesItsOwner, MovesLastOf, OthersStayBeside};
ghost use Rattle.host_spaces.specs.MapChanges.{IsAddedFor, IsAllThatIsNewFor, IsLeastPlaceFor, IsOwnedFor, OtherSpacesStay, OthersStayFor, RegionsStay, space_for};

use crate::blocks::SpaceBlocks;
use crate::start::{EmptySpaces, StartError};
use host_map::{Map, Placed, Sizes, Wanted};
use mem_rec::Space;
use space_raw::Piece;
use std::alloc::Global;

/// The three spaces and their blocks. The pieces of the blocks are held elsewhere. They can't be copied, and must be given back by
/// `close`.
pub struct Spaces {
    pub(crate) daram: SpaceBlocks,
    pub(crate) saram: SpaceBlocks,
    pub(crate) external: SpaceBlocks,
}

impl Spaces {
    /// Spaces of these sizes, all of whose words are free.
    pub fn new(alloc: Global, sizes: Sizes) -> Result<Spaces, StartError>
        ensures bad_size { ¬ AreSizes sizes → IsErrOf result StartError.BadSize }
        ensures memory { AreSizes sizes → IfErr result (λ e. e ≡ StartError.Memory) }
        ensures spaces { IfOk result (λ s. (sizes_of s ≡ sizes) × (map_of s ≡ empty_map) × (copied_in s ≡ 0)) }
    {
        EmptySpaces::new(alloc, sizes).map(Spaces::of)
    }

    /// These spaces, in which blocks are placed from now on.
    pub fn of(empty: EmptySpaces) -> Spaces
        ensures sizes { sizes_of result ≡ empty.sizes }
        ensures map { map_of result ≡ empty_map }
        ensures copied { copied_in result ≡ 0 }
    {
        let EmptySpaces {
            sizes: _,
            daram,
            saram,
            external,
        } = empty;
        Spaces {
            daram,
            saram,
            external,
        }
    }

    /// A space.
    fn space(&self, space: Space) -> &SpaceBlocks
        ensures { result.now ≡ space_in self.now space }
    {
        match space {
            Space::Daram => &self.daram,
            Space::Saram => &self.saram,
            Space::External => &self.external,
        }
    }

    /// The blocks of a space, in place order, while none is being replaced.
    pub fn map(&self, space: Space) -> Map
        requires few { length (blocks_in (map_of self.now) space) ≤ MAP_BLOCKS }
        ensures value { result.items ≡ blocks_in (map_of self.now) space }
    {
        self.space(space).map()
    }

    /// The blocks of a space, in place order.
    pub fn blocks(&self, space: Space) -> &[Placed]
        ensures value { result.now ≡ blocks_in (map_of self.now) space }
        ensures order { AreInOrder (space_in self.now space).region.size (blocks_in (map_of self.now) space) }
    {
        self.space(space).blocks()
    }

    /// The block of a space that moves next, as it stands. `None` exactly where all are packed. The search begins behind the first blocks,
    /// so many as `packed` says, which are known to be at their packed places; from then on it says how many of them are there once the
    /// move is made, so that the block is the last of them.
    pub fn next_move_behind(&self, space: Space, packed: &mut usize) -> Option<Placed>
        requires front { HasFront packed.old (blocks_in (map_of self.now) space) }
        ensures value { result ≡ next_block (blocks_in (map_of self.now) space) }
        ensures front { IsSome result → HasFront packed.new (moved (blocks_in (map_of self.now) space)) }
        ensures index { MovesLastOf packed.new result (blocks_in (map_of self.now) space) }
        ensures none { result ≡ None → packed.new ≡ packed.old }
    {
        self.space(space).next_move_behind(packed)
    }

    /// The next move of a space is made, of the block of this index, which the piece is. It is slid down to its packed place with its
    /// words.
    pub fn make_move(&mut self, space: Space, piece: Piece, index: usize) -> Piece
        requires region { piece.region ≡ (space_in self.old space).region }
        requires next { IsNextToMove piece (blocks_in (map_of self.old) space) }
        requires index { IsIndexOfNext index (blocks_in (map_of self.old) space) }
        ensures map { map_of self.new ≡ moved_in (map_of self.old) space }
        ensures place { IsPlaceOfNext result.place (blocks_in (map_of self.old) space) }
        ensures words { (result.words ≡ piece.words) × (result.region ≡ piece.region) }
        ensures owned { GoesOnAs piece result (blocks_in (map_of self.old) space) (blocks_in (map_of self.new) space) }
        ensures others { OthersStayBeside piece (blocks_in (map_of self.old) space) (blocks_in (map_of self.new) space) }
        ensures elsewhere { OtherSpacesStay space self.old self.new }
        ensures copied { copied_in self.new ≡ min (copied_in self.old + length piece.words) (2 ^ 64 - 1) }
        ensures regions { RegionsStay self.old self.new }
    {
        match space {
            Space::Daram => self.daram.make_move(piece, index),
            Space::Saram => self.saram.make_move(piece, index),
            Space::External => self.external.make_move(piece, index),
        }
    }

    /// A block for the owner at its place in the space. `None` exactly where there is none.
    pub(crate) fn place(&mut self, want: Wanted) -> Option<Piece>
        requires limits { IsWithinLimits want }
        requires room { length (space_in self.old want.space).blocks < SPACE_BLOCKS }
        ensures place { IsLeastPlaceFor want result self.old }
        ensures piece { IsPieceOf result (space_for want self.old) want.size }
        ensures blocks { IsAddedFor want result self.old self.new }
        ensures owned { IsOwnedFor want result self.old self.new }
        ensures others { OthersStayFor want self.old self.new }
        ensures elsewhere { OtherSpacesStay want.space self.old self.new }
        ensures back { IsAllThatIsNewFor want result self.old self.new }
        ensures none { IfNone result (self.new ≡ self.old) }
        ensures stays { AreSameSpaces self.old self.new }
    {
        match want.space {
            Space::Daram => self.daram.place(want.owner, want.size, want.align),
            Space::Saram => self.saram.place(want.owner, want.size, want.align),
            Space::External => self.external.place(want.owner, want.size, want.align),
        }
    }

    /// A block of the space goes back.
    pub(crate) fn take_out(&mut self, space: Space, piece: Piece)
        requires region { piece.region ≡ (space_in self.old space).region }
        requires owner { (owner : Owner) × Owns (space_in self.old space).blocks owner piece }
        ensures blocks { (space_in self.new space).blocks ≡ without_at piece.place (space_in self.old space).blocks }
        ensures only { LeavesItsOwner piece (space_in self.old space).blocks (space_in self.new space).blocks }
        ensures others { OthersStayBeside piece (space_in self.old space).blocks (space_in self.new space).blocks }
        ensures elsewhere { OtherSpacesStay space self.old self.new }
        ensures stays { AreSameSpaces self.old self.new }
    {
        match space {
            Space::Daram => self.daram.take_out(piece),
            Space::Saram => self.saram.take_out(piece),
            Space::External => self.external.take_out(piece),
        }
    }

    /// The words that were moved, again for each move. It stays at the greatest `u64`.
    pub fn copied(&self) -> u64
        ensures value { result ≡ copied_in self.now }
    {
        self.daram
            .slid()
            .saturating_add(self.saram.slid())
            .saturating_add(self.external.slid())
    }

    /// The spaces go back to the allocator. All blocks were taken out.
    pub fn close(self)
        requires none { map_of self ≡ empty_map }
    {
        let Spaces {
            daram,
            saram,
            external,
        } = self;
        daram.close();
        saram.close();
        external.close();
    }
}
