//! What becomes of an owner's pieces when it is deleted: the next sharer becomes the owner.
ghost use Rattle.std.specs.Prelude.{◌≡◌, ◌≢◌, ◌<◌, ℕ, length, Option, Some, None, if◌then◌else◌};
ghost use Rattle.mem_rec.specs.declared.TheConstants.{TABLE_RECORDS, INSTANCES};
ghost use Rattle.host_shared.specs.Locations.{location_at, piece_here, no_locations, locations_at, shared_at, OtherRecordsStay};
ghost use Rattle.host_shared.specs.Owners.{set_location, AllHaveOwners, HoldsForOthers};
ghost use Rattle.host_shared.specs.Joining.{sharer_at};
ghost use Rattle.host_shared.specs.Sharing.{next_sharer, pointed, piece_left, left_with, location_without};

use crate::joining::Sharers;
use crate::locations::{Location, Locations, replace_location};
use mem_rec::INSTANCES;
use record_loans::Pieces;
use space_raw::{Piece, end_none};

/// Looks through all instances for the least-numbered one that shares record `k` with its owner `i`.
fn find_next_sharer(sharing: &Vec<Locations>, i: u8, k: usize) -> Option<u8>
    requires count { length sharing.now.items ≡ INSTANCES }
    requires record { k < TABLE_RECORDS }
    ensures { result ≡ next_sharer sharing.now.items i k }
{
    for j in 0..INSTANCES {
        if sharing[j].location(k).is_at(i) {
            return Some(j as u8);
        }
    }
    None
}

/// The least-numbered instance that shares record `k` with its owner `i`. Where there is no piece, none is looked for.
fn next_sharer(sharing: &Vec<Locations>, i: u8, k: usize) -> Option<u8>
    requires count { length sharing.now.items ≡ INSTANCES }
    requires number { i < INSTANCES }
    requires record { k < TABLE_RECORDS }
    requires held { HoldsForOthers sharing.now.items i k }
    ensures { result ≡ next_sharer sharing.now.items i k }
{
    if sharing[i as usize].location(k).is_nothing() {
        return None;
    }
    find_next_sharer(sharing, i, k)
}

/// For each record the least-numbered instance that shares it with its owner `i`.
pub fn next_sharers(sharing: &Vec<Locations>, i: u8) -> Sharers
    requires count { length sharing.now.items ≡ INSTANCES }
    requires number { i < INSTANCES }
    requires held { (k : ℕ) → HoldsForOthers sharing.now.items i k }
    ensures { (k : ℕ) → sharer_at result k ≡ next_sharer sharing.now.items i k }
{
    let t0 = next_sharer(sharing, i, 0);
    let t1 = next_sharer(sharing, i, 1);
    let t2 = next_sharer(sharing, i, 2);
    let t3 = next_sharer(sharing, i, 3);
    Sharers { t0, t1, t2, t3 }
}

/// Replaces the location of record `k` of an instance, which had no piece.
pub(crate) fn put_location(sharing: &mut Vec<Locations>, i: usize, k: usize, location: Location)
    requires number { i < length sharing.old.items }
    requires record { k < TABLE_RECORDS }
    requires none { piece_here (location_at (locations_at sharing.old.items i) k) ≡ None }
    ensures { sharing.new.items ≡ set_location sharing.old.items i k location }
{
    end_none(replace_location(sharing, i, k, location).piece());
}

/// If instance `j` shares record `k` with owner `i`, makes `next` the owner.
fn point(sharing: &mut Vec<Locations>, i: u8, k: usize, next: u8, j: usize)
    requires number { j < length sharing.old.items }
    requires record { k < TABLE_RECORDS }
    ensures { sharing.new.items ≡ set_location sharing.old.items j k (pointed i next (location_at (locations_at sharing.old.items j) k)) }
{
    if sharing[j].location(k).is_at(i) {
        put_location(sharing, j, k, Location::At(next));
    }
}

/// Makes `next` the owner of record `k` for each instance that shares it with owner `i`.
pub(crate) fn point_all(sharing: &mut Vec<Locations>, i: u8, k: usize, next: u8)
    requires count { length sharing.old.items ≡ INSTANCES }
    requires record { k < TABLE_RECORDS }
    ensures count { length sharing.new.items ≡ INSTANCES }
    ensures pointed { (j : ℕ) → location_at (locations_at sharing.new.items j) k ≡ pointed i next (location_at (locations_at sharing.old.items j) k) }
    ensures beside { OtherRecordsStay k sharing.old.items sharing.new.items }
{
    for j in 0..INSTANCES {
        point(sharing, i, k, next, j);
    }
}

/// Makes the next sharer the owner of record `k`, which has a piece. Where there is none, the piece comes back.
#[inline(never)]
fn hand_piece(sharing: &mut Vec<Locations>, i: u8, k: usize, next: Option<u8>) -> Option<Piece>
    requires count { length sharing.old.items ≡ INSTANCES }
    requires number { i < INSTANCES }
    requires record { k < TABLE_RECORDS }
    requires held { HoldsForOthers sharing.old.items i k }
    requires next { next ≡ next_sharer sharing.old.items i k }
    ensures left { result ≡ piece_left (next_sharer sharing.old.items i k) (location_at (locations_at sharing.old.items i) k) }
    ensures count { length sharing.new.items ≡ INSTANCES }
    ensures handed { (j : ℕ) → location_at (locations_at sharing.new.items j) k ≡ location_without sharing.old.items i k j }
    ensures beside { OtherRecordsStay k sharing.old.items sharing.new.items }
{
    let location = replace_location(sharing, i as usize, k, Location::Here(None));
    match next {
        Some(next) => {
            point_all(sharing, i, k, next);
            put_location(sharing, next as usize, k, location);
            None
        }
        None => location.piece(),
    }
}

/// Makes the next sharer the owner of record `k`. Where there is none, the piece comes back. Most records have no piece.
#[inline(always)]
fn hand_record(sharing: &mut Vec<Locations>, i: u8, k: usize, next: Option<u8>) -> Option<Piece>
    requires count { length sharing.old.items ≡ INSTANCES }
    requires number { i < INSTANCES }
    requires record { k < TABLE_RECORDS }
    requires held { HoldsForOthers sharing.old.items i k }
    requires next { next ≡ next_sharer sharing.old.items i k }
    ensures left { result ≡ piece_left (next_sharer sharing.old.items i k) (location_at (locations_at sharing.old.items i) k) }
    ensures count { length sharing.new.items ≡ INSTANCES }
    ensures handed { (j : ℕ) → location_at (locations_at sharing.new.items j) k ≡ location_without sharing.old.items i k j }
    ensures beside { OtherRecordsStay k sharing.old.items sharing.new.items }
{
    if sharing[i as usize].location(k).is_nothing() {
        return None;
    }
    hand_piece(sharing, i, k, next)
}

/// Makes the next sharers, which are known, the owners of the records of an instance that is deleted. The pieces that nobody shares come
/// back.
pub fn hand_on(sharing: &mut Vec<Locations>, i: u8, next: &Sharers) -> Pieces
    requires count { length sharing.old.items ≡ INSTANCES }
    requires number { i < INSTANCES }
    requires owners { AllHaveOwners sharing.old.items }
    requires next { (k : ℕ) → sharer_at next.now k ≡ next_sharer sharing.old.items i k }
    ensures left { result ≡ left_with sharing.old.items i }
    ensures count { length sharing.new.items ≡ INSTANCES }
    ensures gone { locations_at sharing.new.items i ≡ no_locations }
    ensures handed { (j k : ℕ) → location_at (locations_at sharing.new.items j) k ≡ location_without sharing.old.items i k j }
    ensures others { (j : ℕ) → j ≢ i → shared_at sharing.new.items j ≡ shared_at sharing.old.items j }
{
    let p0 = hand_record(sharing, i, 0, next.t0);
    let p1 = hand_record(sharing, i, 1, next.t1);
    let p2 = hand_record(sharing, i, 2, next.t2);
    let p3 = hand_record(sharing, i, 3, next.t3);
    Pieces { p0, p1, p2, p3 }
}
