//! How a new instance comes to share records with those that have equal ones.
ghost use Rattle.std.specs.Prelude.{◌≡◌, ◌≢◌, ◌<◌, ℕ, length, Option, Some, None};
ghost use Rattle.mem_rec.specs.declared.TheConstants.{TABLE_RECORDS, INSTANCES};
ghost use Rattle.record_loans.specs.Pieces.{piece_at};
ghost use Rattle.host_shared.specs.declared.locations.Location.TheVariants.{Here};
ghost use Rattle.host_shared.specs.Locations.{location_at, no_locations, locations_at, shared_at, OtherRecordsStay};
ghost use Rattle.host_shared.specs.Owners.{IsPieceHere, AllHaveOwners};
ghost use Rattle.host_shared.specs.Joining.{sharer_at, location_over, location_joined, pieces_joined, CanJoin};
ghost use Rattle.host_shared.specs.Sharing.{AreLeast};

use crate::locations::{Location, Locations, replace_location};
use crate::sharers::{point_all, put_location};
use mem_rec::TABLE_RECORDS;
use record_loans::{Pieces, end_absent};
use space_raw::{Piece, end_none};

/// For each record of an instance the least-numbered other one that shares it, if there is one.
#[derive(Clone, Copy)]
pub struct Sharers {
    pub t0: Option<u8>,
    pub t1: Option<u8>,
    pub t2: Option<u8>,
    pub t3: Option<u8>,
}

impl Sharers {
    /// The sharer of record `k`.
    fn sharer(&self, k: usize) -> Option<u8>
        requires { k < TABLE_RECORDS }
        ensures { result ≡ sharer_at self.now k }
    {
        match k {
            0 => self.t0,
            1 => self.t1,
            2 => self.t2,
            _ => self.t3,
        }
    }
}

/// Makes instance `i` the owner of record `k` in place of `sharer`, for all that share it.
fn take_over(sharing: &mut Vec<Locations>, i: u8, k: usize, sharer: u8)
    requires count { length sharing.old.items ≡ INSTANCES }
    requires number { i < INSTANCES }
    requires record { k < TABLE_RECORDS }
    requires none { location_at (locations_at sharing.old.items i) k ≡ Here None }
    requires here { IsPieceHere (location_at (locations_at sharing.old.items sharer) k) }
    ensures count { length sharing.new.items ≡ INSTANCES }
    ensures taken { (j : ℕ) → location_at (locations_at sharing.new.items j) k ≡ location_over sharing.old.items i k sharer j }
    ensures beside { OtherRecordsStay k sharing.old.items sharing.new.items }
{
    let location = replace_location(sharing, sharer as usize, k, Location::At(i));
    point_all(sharing, sharer, k, i);
    put_location(sharing, i as usize, k, location);
}

/// Shares record `k` of a new instance with `sharer`. The owner is the one with the lower number.
#[inline(never)]
fn join_sharer(sharing: &mut Vec<Locations>, i: u8, k: usize, sharer: u8)
    requires count { length sharing.old.items ≡ INSTANCES }
    requires number { i < INSTANCES }
    requires record { k < TABLE_RECORDS }
    requires none { location_at (locations_at sharing.old.items i) k ≡ Here None }
    requires here { IsPieceHere (location_at (locations_at sharing.old.items sharer) k) }
    ensures count { length sharing.new.items ≡ INSTANCES }
    ensures joined { (j : ℕ) → location_at (locations_at sharing.new.items j) k ≡ location_joined sharing.old.items i k (Some sharer) None j }
    ensures beside { OtherRecordsStay k sharing.old.items sharing.new.items }
{
    if sharer < i {
        put_location(sharing, i as usize, k, Location::At(sharer));
    } else {
        take_over(sharing, i, k, sharer);
    }
}

/// Shares record `k` of a new instance with `sharer`. Without one it owns its own piece.
fn join_record(
    sharing: &mut Vec<Locations>,
    i: u8,
    k: usize,
    sharer: Option<u8>,
    piece: Option<Piece>,
)
    requires count { length sharing.old.items ≡ INSTANCES }
    requires number { i < INSTANCES }
    requires record { k < TABLE_RECORDS }
    requires none { location_at (locations_at sharing.old.items i) k ≡ Here None }
    requires sharer { CanJoin sharing.old.items k sharer piece }
    ensures count { length sharing.new.items ≡ INSTANCES }
    ensures joined { (j : ℕ) → location_at (locations_at sharing.new.items j) k ≡ location_joined sharing.old.items i k sharer piece j }
    ensures beside { OtherRecordsStay k sharing.old.items sharing.new.items }
{
    match sharer {
        None => put_location(sharing, i as usize, k, Location::Here(piece)),
        Some(other) => {
            end_none(piece);
            join_sharer(sharing, i, k, other);
        }
    }
}

/// Gives a new instance its write-once records, each shared with `sharers` or in a piece that was placed for it. The pieces of each other
/// instance stay as they are.
pub fn join(sharing: &mut Vec<Locations>, i: u8, placed: Pieces, sharers: Sharers)
    requires count { length sharing.old.items ≡ INSTANCES }
    requires number { i < INSTANCES }
    requires bare { locations_at sharing.old.items i ≡ no_locations }
    requires owners { AllHaveOwners sharing.old.items }
    requires sharers { (k : ℕ) → CanJoin sharing.old.items k (sharer_at sharers k) (piece_at placed k) }
    ensures count { length sharing.new.items ≡ INSTANCES }
    ensures joined { (j k : ℕ) → location_at (locations_at sharing.new.items j) k
        ≡ location_joined sharing.old.items i k (sharer_at sharers k) (piece_at placed k) j }
    ensures pieces { shared_at sharing.new.items i ≡ pieces_joined sharing.old.items sharers placed }
    ensures others { (j : ℕ) → j ≢ i → shared_at sharing.new.items j ≡ shared_at sharing.old.items j }
    ensures owners { AllHaveOwners sharing.new.items }
    ensures least { AreLeast sharing.old.items → AreLeast sharing.new.items }
{
    let mut left = placed;
    for k in 0..TABLE_RECORDS {
        let piece = left.take(k);
        join_record(sharing, i, k, sharers.sharer(k), piece);
    }
    end_absent(left);
}
