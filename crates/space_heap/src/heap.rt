//! The heap of one space.
ghost use Rattle.std.specs.Prelude.{◌≡◌, ◌<◌, ◌≤◌, [], length, count_by, IfOk, IfErr, IsErrOf, IfSome, IfNone, Some, map, replicate, pos};
ghost use Rattle.relocate.specs.Places.{placed_size, IsAlignment, IsSpaceSize};
ghost use Rattle.space_heap.specs.Maps.{slid_with, AreLeftFree, Holds, IsAtLeastFree, IsBlock, IsLoweredTo, OneFewerIsHeld, OneIsHeldAs, OneMoreIsHeld, range_of};

#[cfg(test)]
mod tests;

use crate::find::find;
use crate::holes::{Front, carve, gap_before, leave_hole, put_back, put_behind};
use mem_rec::LEAST_ALIGNMENT;
use relocate::{GREATEST_NEED, is_space_size};
use space_raw::{Piece, Region, Rest};
use std::alloc::{Allocator, Global};
use std::marker::Model;
use thiserror::Error;

/// Why a heap isn't made. Nothing is held then.
#[derive(Debug, Drop, Error)]
pub enum HeapError {
    /// The number of words isn't a multiple of 4 up to 65,536.
    #[error("a space is 0 to 65536 words, a multiple of 4")]
    BadSize,
    /// A request for memory was refused.
    #[error("out of memory")]
    Memory,
}

/// The heap of one space of 16-bit words. Blocks are pieces of the space that are taken at their least aligned place, given back, and
/// moved down. Its space is of the allocator `A`, the system's by default. It can't be copied, and must be given back by `close`.
pub struct Heap<A: Allocator = Global> {
    region: Region<A>,
    rest: Rest,
    size: u32,
    first: Option<u32>,
    free: u32,
    slid: u64,
}

impl<A: Allocator> Model for Heap<A> {
    ghost use Rattle.std.specs.Prelude.{is_some, map};
    ghost use Rattle.space_heap.specs.Maps.{HeapState};
    ghost use Rattle.space_heap.specs.Holes.{IsHeap};

    ghost Value = { HeapState };

    ghost view = { λ h. record { region = h.region; free = map is_some h.rest.slots; slid = h.slid } };

    ghost invariant = { λ h. IsHeap h.region h.rest h.size h.first h.free };
}

impl<A: Allocator> Heap<A> {
    /// A heap of that many words, all of them free. The one request for memory of its life is made here.
    pub fn new(alloc: A, words: u32) -> Result<Heap<A>, HeapError>
        ensures bad_size { ¬ IsSpaceSize words → IsErrOf result HeapError.BadSize }
        ensures memory { IsSpaceSize words → IfErr result (λ e. e ≡ HeapError.Memory) }
        ensures heap { IfOk result (λ h. (h.region.size ≡ words) × Holds h [] × (h.slid ≡ 0)) }
    {
        if !is_space_size(words) {
            return Err(HeapError::BadSize);
        }
        match Region::make_rest(alloc, words) {
            Ok((region, rest)) => Ok(Heap::over(region, rest, words)),
            Err(_refused) => Err(HeapError::Memory),
        }
    }

    /// The heap of a region of which no piece is away. It asks for no memory.
    fn over(region: Region<A>, rest: Rest, size: u32) -> Heap<A>
        requires whole { (rest.region ≡ region) × (region.size ≡ size) × IsSpaceSize size }
        requires free { rest.slots ≡ map Some (replicate size (pos 0)) }
        ensures region { (result.region ≡ region) × (result.slid ≡ 0) }
        ensures taken { Holds result [] }
    {
        let mut rest = rest;
        let first = leave_hole(&mut rest, 0, size, None);
        Heap {
            region,
            rest,
            size,
            first,
            free: size,
            slid: 0,
        }
    }

    /// A block of `words` words, rounded up to a multiple of 4, at the least multiple of `align` at which it lies within the space and
    /// meets no block that is taken. `None` exactly where there is no such place. The block's words are unknown.
    pub fn take(&mut self, words: u32, align: u32) -> Option<Piece>
        requires words { (0 < words) × (words ≤ GREATEST_NEED) }
        requires align { IsAlignment align }
        ensures place { IsAtLeastFree result self.old words align }
        ensures block { IfSome result (λ p. (p.region ≡ self.old.region) × (length p.words ≡ placed_size words)) }
        ensures taken { IfSome result (λ p. OneMoreIsHeld p self.old self.new) }
        ensures none { IfNone result (self.new ≡ self.old) }
        ensures stays { (self.new.region ≡ self.old.region) × (self.new.slid ≡ self.old.slid) }
    {
        let size = words.next_multiple_of(LEAST_ALIGNMENT);
        let fit = find(&self.rest, self.first, size, align)?;
        let block = carve(&mut self.rest, &mut self.first, fit, size);
        self.free -= size;
        Some(block)
    }

    /// The block is free from now on. It is one that `take` of this heap gave.
    pub fn give(&mut self, piece: Piece)
        requires region { piece.region ≡ self.old.region }
        requires block { IsBlock self.old.region.size (range_of piece) }
        ensures taken { OneFewerIsHeld piece self.old self.new }
        ensures stays { (self.new.region ≡ self.old.region) × (self.new.slid ≡ self.old.slid) }
    {
        let len = piece.len();
        put_back(&mut self.rest, &mut self.first, piece);
        self.free += len;
    }

    /// The block at the least multiple of `align` in the free range that ends where it begins, with its words. It stays where it is if
    /// that range has no such multiple. It is one that `take` of this heap gave.
    pub fn lower(&mut self, piece: Piece, align: u32) -> Piece
        requires region { piece.region ≡ self.old.region }
        requires block { IsBlock self.old.region.size (range_of piece) }
        requires align { IsAlignment align }
        ensures place { IsLoweredTo piece align result self.old }
        ensures words { (result.words ≡ piece.words) × (result.region ≡ piece.region) }
        ensures taken { OneIsHeldAs piece result self.old self.new }
        ensures slid { self.new.slid ≡ slid_with self.old piece result }
        ensures stays { self.new.region ≡ self.old.region }
    {
        let mut piece = piece;
        match gap_before(&mut self.rest, self.first, &mut piece, align) {
            Some(fit) => {
                let len = piece.len();
                let words = piece.place() - fit.place;
                let gap = carve(&mut self.rest, &mut self.first, fit, words);
                let (block, behind) = Piece::slide(gap, piece);
                let end = behind.place();
                let front = Front::behind(fit, end);
                put_behind(&mut self.rest, &mut self.first, front, behind);
                self.slid = self.slid.saturating_add(u64::from(len));
                block
            }
            None => piece,
        }
    }

    /// The words of the space.
    pub fn size(&self) -> u32
        ensures value { result ≡ self.now.region.size }
    {
        self.size
    }

    /// The words of the space that no block has.
    pub fn free(&self) -> u32
        ensures marks { result ≡ count_by (λ mark. mark) self.now.free }
        ensures taken { AreLeftFree result self.now }
    {
        self.free
    }

    /// The words that `lower` has moved, again for each move. It stays at the greatest `u64`.
    pub fn slid(&self) -> u64
        ensures value { result ≡ self.now.slid }
    {
        self.slid
    }

    /// The space goes back to the allocator. All blocks are back.
    pub fn close(self)
        requires back { Holds self [] }
    {
        let Heap {
            region,
            rest,
            size: _,
            first: _,
            free: _,
            slid: _,
        } = self;
        region.close_rest(rest);
    }
}
