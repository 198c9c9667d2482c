//! One space.
ghost use Rattle.std.specs.Prelude.{◌≡◌, ◌≢◌, ◌+◌, ◌-◌, ◌<◌, ◌≤◌, ◌^◌, [], length, min, None, IsSome, Contains, slice_index_or, IfOk, IfErr, IfSome, IfNone, IsErrOf};
ghost use Rattle.std.specs.Vec.{vec_capacity};
ghost use Rattle.relocate.specs.Places.{IsAlignment, IsSpaceSize};
ghost use Rattle.relocate.specs.declared.limits.TheConstants.{GREATEST_NEED};
ghost use Rattle.host_map.specs.declared.TheConstants.{MAP_BLOCKS, SPACE_BLOCKS};
ghost use Rattle.host_map.specs.declared.placed.Owner.{Owner};
ghost use Rattle.host_map.specs.declared.placed.Placed.{Placed};
ghost use Rattle.host_map.specs.Blocks.{owned, renamed_block, renamed_blocks, renaming, with_block, without_at};
ghost use Rattle.host_spaces.specs.Blocks.{Owns, without_piece};
ghost use Rattle.host_map.specs.Moves.{moved, moved_to, next_block, spots_of};
ghost use Rattle.relocate.specs.Spots.{AreSpots};
ghost use Rattle.host_spaces.specs.Spaces.{AreInOrder, HasFront};
ghost use Rattle.host_spaces.specs.Changes.{AllButBothStay, FirstAreBefore, GoesOnAs, IsAdded, IsAllThatIsNew, IsAtLeastPlace, IsOwned, IsIndexOfNext, IsNextToMove, IsPieceOf, IsPlaceOfNext, IsRenamedTo, LeavesAnyOwner, LeavesItsOwner, MovesLastOf, OthersAreBehind, OthersStay, OthersStayBeside, OthersStayBesideAny, StaySingle};

use arrayvec::ArrayVec;
use host_map::{MAP_BLOCKS, Map, Owner, Placed, SPACE_BLOCKS};
use relocate::{Move, next_move_behind};
use space_heap::{Heap, HeapError};
use space_raw::Piece;
use std::alloc::{Allocator, Global};
use std::marker::Model;

/// A space and its blocks. The pieces of the blocks are held elsewhere. The space is of the allocator `A`, the system's by default. It
/// can't be copied, and must be given back by `close`.
pub struct SpaceBlocks<A: Allocator = Global> {
    heap: Heap<A>,
    // Its room is asked for once, and lies apart: so a space is passed on without a copy of its blocks.
    blocks: Vec<Placed, A>,
}

impl<A: Allocator> Model for SpaceBlocks<A> {
    ghost use Rattle.std.specs.Prelude.{◌≡◌};
    ghost use Rattle.std.specs.Vec.{vec_capacity};
    ghost use Rattle.host_map.specs.declared.TheConstants.{SPACE_BLOCKS};
    ghost use Rattle.host_spaces.specs.Spaces.{AreKept, SpaceState};

    ghost Value = { SpaceState };

    ghost view = { λ s. record { region = s.heap.region; slid = s.heap.slid; blocks = s.blocks.items } };

    ghost invariant = { λ s. AreKept s.heap s.blocks.items × (vec_capacity s.blocks ≡ SPACE_BLOCKS) };
}

impl<A: Allocator + Copy> SpaceBlocks<A> {
    /// A space of that many words, all of them free. Both requests for memory of its life are made here, for its words and for its blocks.
    pub fn new(alloc: A, words: u32) -> Result<SpaceBlocks<A>, HeapError>
        ensures bad_size { ¬ IsSpaceSize words → IsErrOf result HeapError.BadSize }
        ensures memory { IsSpaceSize words → IfErr result (λ e. e ≡ HeapError.Memory) }
        ensures space { IfOk result (λ s. (s.region.size ≡ words) × (s.slid ≡ 0) × (s.blocks ≡ [])) }
    {
        let heap = match Heap::new(alloc, words) {
            Ok(heap) => heap,
            Err(refusal) => return Err(refusal),
        };
        match Vec::with_capacity(alloc, SPACE_BLOCKS) {
            Ok(blocks) => Ok(SpaceBlocks { heap, blocks }),
            Err(_refused) => {
                heap.close();
                Err(HeapError::Memory)
            }
        }
    }
}

impl<A: Allocator> SpaceBlocks<A> {
    /// The space goes back to the allocator. All blocks were taken out.
    pub fn close(self)
        requires none { self.blocks ≡ [] }
    {
        let SpaceBlocks { heap, blocks: _ } = self;
        heap.close();
    }
}

impl SpaceBlocks {
    /// A block for the owner: `words` words, rounded up to a multiple of 4, at the least multiple of `align` at which it lies within the
    /// space and meets no block. `None` exactly where there is no such place. The block's words are unknown.
    pub fn place(&mut self, owner: Owner, words: u32, align: u32) -> Option<Piece>
        requires words { (0 < words) × (words ≤ GREATEST_NEED) }
        requires align { IsAlignment align }
        requires room { length self.old.blocks < SPACE_BLOCKS }
        ensures place { IsAtLeastPlace result self.old words align }
        ensures piece { IsPieceOf result self.old words }
        ensures blocks { IsAdded result owner align self.old.blocks self.new.blocks }
        ensures owned { IsOwned result owner align self.old.blocks self.new.blocks }
        ensures others { OthersStay owner self.old.blocks self.new.blocks }
        ensures back { IsAllThatIsNew result self.old.blocks self.new.blocks }
        ensures none { IfNone result (self.new ≡ self.old) }
        ensures stays { (self.new.region ≡ self.old.region) × (self.new.slid ≡ self.old.slid) }
    {
        let piece = self.heap.take(words, align)?;
        let block = Placed {
            owner,
            place: piece.place(),
            size: piece.len(),
            align,
        };
        enter(&mut self.blocks, block);
        Some(piece)
    }

    /// The owner's block goes back.
    pub fn take_out(&mut self, piece: Piece)
        requires region { piece.region ≡ self.old.region }
        requires owner { (owner : Owner) × Owns self.old.blocks owner piece }
        ensures blocks { self.new.blocks ≡ without_at piece.place self.old.blocks }
        ensures only { LeavesItsOwner piece self.old.blocks self.new.blocks }
        ensures others { OthersStayBeside piece self.old.blocks self.new.blocks }
        ensures stays { (self.new.region ≡ self.old.region) × (self.new.slid ≡ self.old.slid) }
    {
        let index = position(self.blocks.as_slice(), piece.place());
        let _block = self.blocks.remove(index);
        self.heap.give(piece);
    }

    /// The owner's block goes back, if there is one.
    pub(crate) fn give_back(&mut self, piece: Option<Piece>)
        requires region { IfSome piece (λ p. p.region ≡ self.old.region) }
        requires owner { IfSome piece (λ p. (owner : Owner) × Owns self.old.blocks owner p) }
        ensures blocks { self.new.blocks ≡ without_piece piece self.old.blocks }
        ensures only { LeavesAnyOwner piece self.old.blocks self.new.blocks }
        ensures others { OthersStayBesideAny piece self.old.blocks self.new.blocks }
        ensures stays { (self.new.region ≡ self.old.region) × (self.new.slid ≡ self.old.slid) }
    {
        match piece {
            Some(piece) => self.take_out(piece),
            None => {}
        }
    }

    /// What is the block of one owner is another owner's from now on. Nothing else of it changes.
    pub fn rename(&mut self, from: Owner, to: Owner)
        ensures blocks { self.new.blocks ≡ renamed_blocks (renaming from to) self.old.blocks }
        ensures given { IsRenamedTo from to self.old.blocks self.new.blocks }
        ensures left { from ≢ to → owned from self.new.blocks ≡ [] }
        ensures others { AllButBothStay from to self.old.blocks self.new.blocks }
        ensures single { StaySingle to self.old.blocks self.new.blocks }
        ensures stays { (self.new.region ≡ self.old.region) × (self.new.slid ≡ self.old.slid) }
    {
        rename_each(self.blocks.as_mut_slice(), from, to);
    }

    /// The block that moves next, as it stands: the first one that isn't at its packed place. `None` exactly where all are packed. The
    /// search begins behind the first blocks, so many as `packed` says, which are known to be at their packed places; from then on it says
    /// how many of them are there once the move is made, so that the block is the last of them.
    pub fn next_move_behind(&self, packed: &mut usize) -> Option<Placed>
        requires front { HasFront packed.old self.now.blocks }
        ensures value { result ≡ next_block self.now.blocks }
        ensures front { IsSome result → HasFront packed.new (moved self.now.blocks) }
        ensures index { MovesLastOf packed.new result self.now.blocks }
        ensures none { result ≡ None → packed.new ≡ packed.old }
    {
        match next_move_behind(self.blocks.as_slice(), *packed) {
            Some(next) => {
                let Move { index, to: _ } = next;
                *packed = index + 1;
                Some(self.blocks.as_slice()[index])
            }
            None => None,
        }
    }

    /// The next move is made, of the block of this index, which the piece is. It is slid down to its packed place with its words.
    pub fn make_move(&mut self, piece: Piece, index: usize) -> Piece
        requires region { piece.region ≡ self.old.region }
        requires next { IsNextToMove piece self.old.blocks }
        requires index { IsIndexOfNext index self.old.blocks }
        ensures blocks { self.new.blocks ≡ moved self.old.blocks }
        ensures place { IsPlaceOfNext result.place self.old.blocks }
        ensures words { (result.words ≡ piece.words) × (result.region ≡ piece.region) }
        ensures owned { GoesOnAs piece result self.old.blocks self.new.blocks }
        ensures others { OthersStayBeside piece self.old.blocks self.new.blocks }
        ensures slid { self.new.slid ≡ min (self.old.slid + length piece.words) (2 ^ 64 - 1) }
        ensures stays { self.new.region ≡ self.old.region }
    {
        let align = align_of(self.blocks.as_slice(), index);
        let moved = self.heap.lower(piece, align);
        put_at(&mut self.blocks, index, moved.place());
        moved
    }

    /// The blocks, in place order.
    pub fn blocks(&self) -> &[Placed]
        ensures value { result.now ≡ self.now.blocks }
        ensures order { AreInOrder self.now.region.size self.now.blocks }
    {
        self.blocks.as_slice()
    }

    /// The blocks as a map, while no block is being replaced.
    pub fn map(&self) -> Map
        requires few { length self.now.blocks ≤ MAP_BLOCKS }
        ensures value { result.items ≡ self.now.blocks }
    {
        let mut map = ArrayVec::new();
        let _fits = map.try_extend_from_slice(self.blocks.as_slice());
        map
    }

    /// The words of the space.
    pub fn size(&self) -> u32
        ensures value { result ≡ self.now.region.size }
    {
        self.heap.size()
    }

    /// The words that were moved, again for each move. It stays at the greatest `u64`.
    pub fn slid(&self) -> u64
        ensures value { result ≡ self.now.slid }
    {
        self.heap.slid()
    }
}

/// One block more, in place order.
fn enter(blocks: &mut Vec<Placed>, block: Placed)
    requires room { length blocks.old.items < vec_capacity blocks.old }
    requires order { AreSpots (spots_of blocks.old.items) }
    ensures items { blocks.new.items ≡ with_block block blocks.old.items }
    ensures capacity { vec_capacity blocks.new ≡ vec_capacity blocks.old }
{
    let index = count_before(blocks.as_slice(), block.place);
    let _there_is_room = blocks.insert(index, block);
}

/// How many blocks begin before the place.
fn count_before(blocks: &[Placed], place: u32) -> usize
    requires order { AreSpots (spots_of blocks.now) }
    ensures within { result ≤ length blocks.now }
    ensures before { FirstAreBefore place result blocks.now }
    ensures behind { OthersAreBehind place result blocks.now }
{
    let mut low = 0;
    let mut high = blocks.len();
    while low < high {
        let middle = low + (high - low) / 2;
        if blocks[middle].place < place {
            low = middle + 1;
        } else {
            high = middle;
        }
    }
    low
}

/// Each block of one owner is another owner's.
fn rename_each(blocks: &mut [Placed], from: Owner, to: Owner)
    ensures { blocks.new ≡ renamed_blocks (renaming from to) blocks.old }
{
    for block in blocks.iter_mut() {
        rename_block(block, from, to);
    }
}

/// The block is another owner's, if it is this owner's. Most are not, and are left as they are.
fn rename_block(block: &mut Placed, from: Owner, to: Owner)
    ensures { block.new ≡ renamed_block (renaming from to) block.old }
{
    if block.owner == from {
        block.owner = to;
    }
}

/// The index of the block that begins at the place.
fn position(blocks: &[Placed], place: u32) -> usize
    requires order { AreSpots (spots_of blocks.now) }
    requires there { (b : Placed) × Contains blocks.now b × (b.place ≡ place) }
    ensures within { result < length blocks.now }
    ensures found { (d : Placed) → (slice_index_or blocks.now result d).place ≡ place }
{
    count_before(blocks, place)
}

/// The alignment of a block.
fn align_of(blocks: &[Placed], index: usize) -> u32
    requires within { index < length blocks.now }
    ensures value { (d : Placed) → result ≡ (slice_index_or blocks.now index d).align }
{
    blocks[index].align
}

/// A block begins at this place from now on.
fn put_at(blocks: &mut Vec<Placed>, index: usize, place: u32)
    requires within { index < length blocks.old.items }
    ensures items { blocks.new.items ≡ moved_to blocks.old.items index place }
    ensures capacity { vec_capacity blocks.new ≡ vec_capacity blocks.old }
{
    let mut block = blocks.as_slice()[index];
    block.place = place;
    blocks.as_mut_slice()[index] = block;
}
