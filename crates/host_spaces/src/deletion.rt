//! Blocks that go back.
ghost use Rattle.std.specs.Prelude.{◌≡◌, ◌<◌, ℕ, None, IfSome, IsSome, slice_index_or};
ghost use Rattle.std.specs.Option.{option_or};
ghost use Rattle.mem_rec.specs.declared.Space.TheVariants.{Daram};
ghost use Rattle.mem_rec.specs.declared.TheConstants.{TABLE_RECORDS};
ghost use Rattle.host_map.specs.declared.placed.Owner.{Owner};
ghost use Rattle.host_spaces.specs.Blocks.{Owns, without_piece};
ghost use Rattle.ialg.specs.Records.{record_at};
ghost use Rattle.record_loans.specs.Pieces.{piece_at};
ghost use Rattle.host_spaces.specs.MemoryMap.{AreSameSpaces, map_of, space_in};
ghost use Rattle.host_map.specs.MemoryMap.{is_instance's, without_owners};
ghost use Rattle.host_spaces.specs.Pieces.{AreRecordsOf, spaces_of, without_pieces};
ghost use Rattle.host_spaces.specs.Changes.{LeavesAnyOwner, OthersStayBesideAny};
ghost use Rattle.host_spaces.specs.MapChanges.{AllButGroupStay, AllButInstanceStay, OtherSpacesStay};
ghost use Rattle.host_spaces.specs.Placing.{AreInTheirSpaces, AreOfGroup, LeaveTheirGroup};

use crate::pieces::OldBlocks;
use crate::spaces::Spaces;
use mem_rec::{MemTab, Space, TABLE_RECORDS};
use record_loans::{Pieces, end_absent};
use space_raw::Piece;

impl Spaces {
    /// A block of the space goes back, if there is one.
    fn give_back(&mut self, space: Space, piece: Option<Piece>)
        requires region { IfSome piece (λ p. p.region ≡ (space_in self.old space).region) }
        requires owner { IfSome piece (λ p. (owner : Owner) × Owns (space_in self.old space).blocks owner p) }
        ensures blocks { (space_in self.new space).blocks ≡ without_piece piece (space_in self.old space).blocks }
        ensures only { LeavesAnyOwner piece (space_in self.old space).blocks (space_in self.new space).blocks }
        ensures others { OthersStayBesideAny piece (space_in self.old space).blocks (space_in self.new space).blocks }
        ensures elsewhere { OtherSpacesStay space self.old self.new }
        ensures stays { AreSameSpaces self.old self.new }
    {
        match space {
            Space::Daram => self.daram.give_back(piece),
            Space::Saram => self.saram.give_back(piece),
            Space::External => self.external.give_back(piece),
        }
    }

    /// The blocks of group `g` that these pieces are go back: those that new ones replace, or all of them with its last member.
    pub fn take_out_blocks(&mut self, g: u8, pieces: OldBlocks)
        requires regions { AreInTheirSpaces pieces self.old }
        requires owner { AreOfGroup g pieces (map_of self.old) }
        ensures map { map_of self.new ≡ without_pieces (map_of self.old) pieces }
        ensures last { LeaveTheirGroup g pieces (map_of self.old) (map_of self.new) }
        ensures others { AllButGroupStay g (map_of self.old) (map_of self.new) }
        ensures stays { AreSameSpaces self.old self.new }
    {
        let OldBlocks {
            daram,
            saram,
            external,
        } = pieces;
        self.daram.give_back(daram);
        self.saram.give_back(saram);
        self.external.give_back(external);
    }

    /// The pieces of the records of instance `i`, which lie in these spaces, go back: those that no other instance shares.
    pub fn take_out_records(
        &mut self,
        i: u8,
        spaces: &[Space; TABLE_RECORDS],
        own: Pieces,
        shared: Pieces,
    )
        requires leaving { AreRecordsOf self.old i spaces.now own shared }
        ensures map { map_of self.new ≡ without_owners (is_instance's i) (map_of self.old) }
        ensures others { AllButInstanceStay i (map_of self.old) (map_of self.new) }
        ensures stays { AreSameSpaces self.old self.new }
    {
        let mut pieces = either_pieces(own, shared);
        for k in 0..TABLE_RECORDS {
            let piece = pieces.take(k);
            self.give_back(space_at(spaces, k), piece);
        }
        end_absent(pieces);
    }
}

/// The spaces of a table's records.
pub fn record_spaces(table: &MemTab) -> [Space; TABLE_RECORDS]
    ensures { result ≡ spaces_of table.now }
{
    [
        space_of(table, 0),
        space_of(table, 1),
        space_of(table, 2),
        space_of(table, 3),
    ]
}

/// One of the spaces.
fn space_at(spaces: &[Space; TABLE_RECORDS], k: usize) -> Space
    requires { k < TABLE_RECORDS }
    ensures { result ≡ slice_index_or spaces.now k Daram }
{
    spaces[k]
}

/// The space of record `k`.
fn space_of(table: &MemTab, k: usize) -> Space
    ensures { result ≡ (record_at table.now k).space }
{
    if k < table.len() {
        table.get(k).space
    } else {
        Space::Daram
    }
}

/// The pieces of all records, their own and those that are lent. No record has both.
fn either_pieces(own: Pieces, shared: Pieces) -> Pieces
    requires one { (k : ℕ) → IsSome (piece_at own k) → piece_at shared k ≡ None }
    ensures { (k : ℕ) → piece_at result k ≡ option_or (piece_at own k) (piece_at shared k) }
{
    let Pieces { p0, p1, p2, p3 } = own;
    let Pieces {
        p0: once0,
        p1: once1,
        p2: once2,
        p3: once3,
    } = shared;
    let p0 = either_piece(p0, once0);
    let p1 = either_piece(p1, once1);
    let p2 = either_piece(p2, once2);
    let p3 = either_piece(p3, once3);
    Pieces { p0, p1, p2, p3 }
}

/// A record's piece: its own, or the one that is lent. It doesn't have both.
fn either_piece(own: Option<Piece>, shared: Option<Piece>) -> Option<Piece>
    requires one { IsSome own → shared ≡ None }
    ensures { result ≡ option_or own shared }
{
    match own {
        Some(own) => {
            match shared {
                Some(_shared) => unreachable!(),
                None => {}
            }
            Some(own)
        }
        None => shared,
    }
}
