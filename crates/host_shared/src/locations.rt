//! Where the pieces of an instance's write-once records are.
ghost use Rattle.std.specs.Prelude.{◌≡◌, ◌≢◌, ◌<◌, ◌≤◌, ◌+◌, ◌*◌, ℕ, length, true, false, Option, Some, None, IsSome, is_some};
ghost use Rattle.host_shared.specs.declared.locations.Location.TheVariants.{Here};
ghost use Rattle.mem_rec.specs.declared.TheConstants.{TABLE_RECORDS, INSTANCES};
ghost use Rattle.host_shared.specs.declared.locations.TheConstants.{RUN};
ghost use Rattle.record_loans.specs.Pieces.{piece_at, with_piece, no_pieces};
ghost use Rattle.host_shared.specs.Locations.{location_at, piece_here, pieces_here, locations_of, locations_at, owner_of, piece_seen, shared_at};
ghost use Rattle.host_shared.specs.Owners.{with_location, set_location, put_piece, with_pieces_of, HasOwner, HasOwners};
ghost use Rattle.host_shared.specs.Sharing.{is_at, names_owner, NameNoOwner};

use mem_rec::{INSTANCES, TABLE_RECORDS};
use record_loans::{CONSTANTS, Pieces, end_absent};
use space_raw::{Piece, end_none};
use std::mem;

/// Where the piece of a write-once record is: with its instance, or at the owner, an instance of this number whose record is equal.
pub enum Location {
    Here(Option<Piece>),
    At(u8),
}

impl Location {
    /// The piece, if it is here.
    pub(crate) fn piece(self) -> Option<Piece>
        ensures { result ≡ piece_here self }
    {
        match self {
            Location::Here(piece) => piece,
            Location::At(_owner) => None,
        }
    }

    /// Whether there is no piece, neither here nor at an owner.
    pub(crate) fn is_nothing(&self) -> bool
        ensures { result ≡ true → self.now ≡ Here None }
    {
        match self {
            Location::Here(piece) => piece.is_none(),
            Location::At(_owner) => false,
        }
    }

    /// Whether the location names an owner.
    fn is_elsewhere(&self) -> bool
        ensures { result ≡ names_owner self.now }
    {
        match self {
            Location::Here(_) => false,
            Location::At(_owner) => true,
        }
    }

    /// Whether instance `i` is the owner that the location names.
    pub(crate) fn is_at(&self, i: u8) -> bool
        ensures { result ≡ is_at i self.now }
    {
        match self {
            Location::Here(_) => false,
            Location::At(owner) => *owner == i,
        }
    }
}

/// Where the pieces of an instance's write-once records are.
pub struct Locations {
    pub s0: Location,
    pub s1: Location,
    pub s2: Location,
    pub s3: Location,
}

impl Locations {
    /// These pieces, each of which is here.
    pub fn of(pieces: Pieces) -> Locations
        ensures { result ≡ locations_of pieces }
    {
        let Pieces { p0, p1, p2, p3 } = pieces;
        Locations {
            s0: Location::Here(p0),
            s1: Location::Here(p1),
            s2: Location::Here(p2),
            s3: Location::Here(p3),
        }
    }

    /// Whether its instance has no piece but maybe those of records 1 and 2: most kinds have no write-once record, or one of these.
    fn is_bare_but_two(&self) -> bool
        ensures s0 { result ≡ true → self.now.s0 ≡ Here None }
        ensures s3 { result ≡ true → self.now.s3 ≡ Here None }
    {
        self.s0.is_nothing() && self.s3.is_nothing()
    }

    /// Where the piece of record `k` is.
    pub(crate) fn location(&self, k: usize) -> &Location
        requires { k < 4 }
        ensures { result.now ≡ location_at self.now k }
    {
        match k {
            0 => &self.s0,
            1 => &self.s1,
            2 => &self.s2,
            _ => &self.s3,
        }
    }

    /// Replaces the location of record `k`; returns the old one.
    fn replace(&mut self, k: usize, location: Location) -> Location
        requires { k < 4 }
        ensures old { result ≡ location_at self.old k }
        ensures new { self.new ≡ with_location self.old k location }
    {
        match k {
            0 => mem::replace(&mut self.s0, location),
            1 => mem::replace(&mut self.s1, location),
            2 => mem::replace(&mut self.s2, location),
            _ => mem::replace(&mut self.s3, location),
        }
    }

    /// The pieces that are here.
    pub fn pieces(self) -> Pieces
        ensures { result ≡ pieces_here self }
    {
        let Locations { s0, s1, s2, s3 } = self;
        Pieces {
            p0: s0.piece(),
            p1: s1.piece(),
            p2: s2.piece(),
            p3: s3.piece(),
        }
    }
}

/// The owner of record `k` of an instance: the instance itself where the piece is its own.
pub fn owner(sharing: &Vec<Locations>, i: usize, k: usize) -> usize
    requires number { i < length sharing.now.items }
    requires record { k < TABLE_RECORDS }
    ensures { result ≡ owner_of sharing.now.items i k }
{
    match sharing[i].location(k) {
        Location::Here(_) => i,
        Location::At(owner) => *owner as usize,
    }
}

/// How many slots make a run. The count of all is a multiple of it.
pub(crate) const RUN: usize = 16;

/// Whether the third records of a run of slots name no owner. LLVM writes the run out and joins its tests, so that a slot costs one
/// instruction.
#[inline(always)]
fn names_no_owner(sharing: &Vec<Locations>, run: usize) -> bool
    requires count { length sharing.now.items ≡ INSTANCES }
    requires run { RUN * run + RUN ≤ INSTANCES }
    ensures { result ≡ true → NameNoOwner sharing.now.items (RUN * run) (RUN * run + RUN) }
{
    let mut elsewhere = false;
    for t in 0..RUN {
        elsewhere = elsewhere | sharing[RUN * run + t].s2.is_elsewhere();
    }
    !elsewhere
}

/// A number from `from` on, where the third records of all before it name no owner: the least of a run in which one does, or [`INSTANCES`].
#[inline(always)]
fn skip_runs(sharing: &Vec<Locations>, from: usize) -> usize
    requires count { length sharing.now.items ≡ INSTANCES }
    requires from { from ≤ INSTANCES }
    ensures within { (from ≤ result) × (result ≤ INSTANCES) }
    ensures passed { NameNoOwner sharing.now.items from result }
{
    for run in from / RUN..INSTANCES / RUN {
        if !names_no_owner(sharing, run) {
            return from.max(RUN * run);
        }
    }
    INSTANCES
}

/// The least number from `from` on of an instance that shares record `k` with its owner `i`, who has a lower one: [`INSTANCES`] where there
/// is none.
#[inline(never)]
pub fn next_with_owner(sharing: &Vec<Locations>, i: u8, k: usize, from: usize) -> usize
    requires count { length sharing.now.items ≡ INSTANCES }
    requires record { k < TABLE_RECORDS }
    requires behind { i < from }
    requires from { from ≤ INSTANCES }
    ensures within { (from ≤ result) × (result ≤ INSTANCES) }
    ensures passed { (j : ℕ) → from ≤ j → j < result → owner_of sharing.now.items j k ≢ i }
    ensures found { result < INSTANCES → owner_of sharing.now.items result k ≡ i }
{
    // most write-once records are constants of filters: few slots name an owner, so they are passed by runs
    let first = if k == CONSTANTS {
        skip_runs(sharing, from)
    } else {
        from
    };
    for j in first..INSTANCES {
        if sharing[j].location(k).is_at(i) {
            return j;
        }
    }
    INSTANCES
}

/// Replaces the location of record `k` of an instance; returns the old one.
pub(crate) fn replace_location(
    sharing: &mut Vec<Locations>,
    i: usize,
    k: usize,
    location: Location,
) -> Location
    requires number { i < length sharing.old.items }
    requires record { k < TABLE_RECORDS }
    ensures old { result ≡ location_at (locations_at sharing.old.items i) k }
    ensures new { sharing.new.items ≡ set_location sharing.old.items i k location }
{
    sharing[i].replace(k, location)
}

/// Borrows the piece of record `k` of an instance from its owner. Most records have none.
#[inline(always)]
fn take_record(sharing: &mut Vec<Locations>, i: usize, k: usize) -> Option<Piece>
    requires number { i < length sharing.old.items }
    requires record { k < TABLE_RECORDS }
    requires owner { HasOwner sharing.old.items i k }
    ensures piece { result ≡ piece_seen sharing.old.items i k }
    ensures left { sharing.new.items ≡ put_piece sharing.old.items i k None }
{
    if sharing[i].location(k).is_nothing() {
        return None;
    }
    let at = owner(sharing, i, k);
    replace_location(sharing, at, k, Location::Here(None)).piece()
}

/// Gives the piece of record `k` of an instance back to its owner, who has none.
#[inline(always)]
fn put_record(sharing: &mut Vec<Locations>, i: usize, k: usize, piece: Option<Piece>)
    requires number { i < length sharing.old.items }
    requires record { k < TABLE_RECORDS }
    requires owner { HasOwner sharing.old.items i k }
    requires none { piece_seen sharing.old.items i k ≡ None }
    ensures { sharing.new.items ≡ put_piece sharing.old.items i k piece }
{
    let Some(piece) = piece else {
        return;
    };
    let at = owner(sharing, i, k);
    end_none(replace_location(sharing, at, k, Location::Here(Some(piece))).piece());
}

/// Borrows the pieces of an instance's write-once records, each from its owner.
#[inline(never)]
fn take_each(sharing: &mut Vec<Locations>, i: usize) -> Pieces
    requires number { i < length sharing.old.items }
    requires owners { HasOwners sharing.old.items i }
    ensures pieces { result ≡ shared_at sharing.old.items i }
    ensures left { sharing.new.items ≡ with_pieces_of sharing.old.items i no_pieces }
    ensures length { length sharing.new.items ≡ length sharing.old.items }
    ensures owners { HasOwners sharing.new.items i }
    ensures none { shared_at sharing.new.items i ≡ no_pieces }
{
    let p0 = take_record(sharing, i, 0);
    let p1 = take_record(sharing, i, 1);
    let p2 = take_record(sharing, i, 2);
    let p3 = take_record(sharing, i, 3);
    Pieces { p0, p1, p2, p3 }
}

/// Borrows the pieces of an instance's write-once records, each from its owner: [`give_back_pieces`] returns them.
#[inline(always)]
pub fn borrow_pieces(sharing: &mut Vec<Locations>, i: usize) -> Pieces
    requires number { i < length sharing.old.items }
    requires owners { HasOwners sharing.old.items i }
    ensures pieces { result ≡ shared_at sharing.old.items i }
    ensures left { sharing.new.items ≡ with_pieces_of sharing.old.items i no_pieces }
    ensures length { length sharing.new.items ≡ length sharing.old.items }
    ensures owners { HasOwners sharing.new.items i }
    ensures none { shared_at sharing.new.items i ≡ no_pieces }
{
    if sharing[i].is_bare_but_two() {
        return Pieces {
            p0: None,
            p1: take_record(sharing, i, 1),
            p2: take_record(sharing, i, 2),
            p3: None,
        };
    }
    take_each(sharing, i)
}

/// Gives the pieces of an instance's write-once records back, each to its owner, who has none.
#[inline(never)]
fn put_each(sharing: &mut Vec<Locations>, i: usize, pieces: Pieces)
    requires number { i < length sharing.old.items }
    requires owners { HasOwners sharing.old.items i }
    requires none { shared_at sharing.old.items i ≡ no_pieces }
    ensures { sharing.new.items ≡ with_pieces_of sharing.old.items i pieces }
{
    let mut left = pieces;
    for k in 0..TABLE_RECORDS {
        let piece = left.take(k);
        put_record(sharing, i, k, piece);
    }
    end_absent(left);
}

/// Takes the piece of record `k` out of its owner, to be moved: [`put_moved`] puts it back.
#[inline(always)]
pub fn take_to_move(sharing: &mut Vec<Locations>, i: usize, k: usize) -> Piece
    requires number { i < length sharing.old.items }
    requires owners { HasOwners sharing.old.items i }
    requires record { k < TABLE_RECORDS }
    requires owner { owner_of sharing.old.items i k ≡ i }
    requires there { IsSome (piece_at (shared_at sharing.old.items i) k) }
    ensures piece { piece_at (shared_at sharing.old.items i) k ≡ Some result }
    ensures left { sharing.new.items ≡ with_pieces_of sharing.old.items i (with_piece (shared_at sharing.old.items i) k None) }
    ensures owners { HasOwners sharing.new.items i }
    ensures owner { owner_of sharing.new.items i k ≡ i }
{
    match replace_location(sharing, i, k, Location::Here(None)).piece() {
        Some(piece) => piece,
        None => unreachable!(),
    }
}

/// Puts the piece of record `k` back into its owner, who has none.
#[inline(always)]
pub fn put_moved(sharing: &mut Vec<Locations>, i: usize, k: usize, piece: Piece)
    requires number { i < length sharing.old.items }
    requires owners { HasOwners sharing.old.items i }
    requires owner { owner_of sharing.old.items i k ≡ i }
    requires record { k < TABLE_RECORDS }
    requires empty { piece_at (shared_at sharing.old.items i) k ≡ None }
    ensures back { sharing.new.items ≡ with_pieces_of sharing.old.items i (with_piece (shared_at sharing.old.items i) k (Some piece)) }
    ensures owner { owner_of sharing.new.items i k ≡ i }
{
    end_none(replace_location(sharing, i, k, Location::Here(Some(piece))).piece());
}

/// Whether there is no piece among these but maybe those of records 1 and 2.
fn has_none_but_two(pieces: &Pieces) -> bool
    ensures p0 { result ≡ true → pieces.now.p0 ≡ None }
    ensures p3 { result ≡ true → pieces.now.p3 ≡ None }
{
    pieces.p0.is_none() && pieces.p3.is_none()
}

/// Gives the pieces of an instance's write-once records back, each to its owner, who has none.
#[inline(always)]
pub fn give_back_pieces(sharing: &mut Vec<Locations>, i: usize, pieces: Pieces)
    requires number { i < length sharing.old.items }
    requires owners { HasOwners sharing.old.items i }
    requires none { shared_at sharing.old.items i ≡ no_pieces }
    ensures { sharing.new.items ≡ with_pieces_of sharing.old.items i pieces }
{
    if has_none_but_two(&pieces) {
        let Pieces { p0, p1, p2, p3 } = pieces;
        end_none(p0);
        end_none(p3);
        put_record(sharing, i, 1, p1);
        put_record(sharing, i, 2, p2);
        return;
    }
    put_each(sharing, i, pieces);
}

/// Whether the owner of record `k` has its piece.
#[inline(never)]
fn has_piece(sharing: &Vec<Locations>, i: usize, k: usize) -> bool
    requires number { i < length sharing.now.items }
    requires record { k < TABLE_RECORDS }
    ensures { result ≡ is_some (piece_here (location_at (locations_at sharing.now.items i) k)) }
{
    match sharing[i].location(k) {
        Location::Here(piece) => piece.is_some(),
        Location::At(_owner) => false,
    }
}

/// Whether an instance has a write-once record `k`.
pub fn sees(sharing: &Vec<Locations>, i: usize, k: usize) -> bool
    requires number { i < length sharing.now.items }
    requires record { k < TABLE_RECORDS }
    requires owners { HasOwners sharing.now.items i }
    ensures { result ≡ is_some (piece_at (shared_at sharing.now.items i) k) }
{
    match sharing[i].location(k) {
        Location::Here(piece) => piece.is_some(),
        Location::At(owner) => has_piece(sharing, *owner as usize, k),
    }
}
