//! Locations without pieces: how they are made and ended.
ghost use Rattle.std.specs.Prelude.{◌≡◌, ℕ, length, IfOk};
ghost use Rattle.mem_rec.specs.declared.TheConstants.{INSTANCES};
ghost use Rattle.record_loans.specs.Pieces.{no_pieces};
ghost use Rattle.host_shared.specs.Locations.{no_locations, locations_at, shared_at, IsUnshared};

use crate::locations::Locations;
use mem_rec::INSTANCES;
use record_loans::{Pieces, end_absent};
use std::alloc::{AllocError, Allocator};

/// The table of shared records, without a piece. It is of any allocator, which is asked once.
pub fn empty_sharing<A: Allocator>(alloc: A) -> Result<Vec<Locations, A>, AllocError>
    ensures count { IfOk result (λ v. length v.items ≡ INSTANCES) }
    ensures empty { IfOk result (λ v. (i : ℕ) → shared_at v.items i ≡ no_pieces) }
    ensures unshared { IfOk result (λ v. (i : ℕ) → IsUnshared v.items i) }
    ensures bare { IfOk result (λ v. (i : ℕ) → locations_at v.items i ≡ no_locations) }
{
    let mut sharing = Vec::with_capacity(alloc, INSTANCES)?;
    for _ in 0..INSTANCES {
        sharing.push_reserved(Locations::of(Pieces::none()));
    }
    Ok(sharing)
}

/// Ends a table of no pieces.
pub fn end_sharing<A: Allocator>(sharing: Vec<Locations, A>)
    requires { (i : ℕ) → shared_at sharing.items i ≡ no_pieces }
{
    let mut sharing = sharing;
    while let Some(locations) = sharing.pop() {
        end_absent(locations.pieces());
    }
    sharing.destroy_empty();
}
