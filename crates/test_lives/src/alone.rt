//! Where the records of an instance are that shares them with nobody.
ghost use Rattle.std.specs.Prelude.{◌≡◌, ◌<◌, length};
ghost use Rattle.host_shared.specs.Locations.{shared_at};
ghost use Rattle.host_shared.specs.Owners.{HasOwners};

use crate::regions::nothing;
use host_shared::{Locations, borrow_pieces};
use record_loans::Pieces;
use std::alloc::Global;
use std::process::Abort;

/// The locations of one instance, of number 0, each piece with itself.
pub(crate) fn alone(rt: &impl Abort, alloc: Global, pieces: Pieces) -> Vec<Locations>
    ensures lent { shared_at result.items 0 ≡ pieces }
    ensures one { length result.items ≡ 1 }
    ensures owners { HasOwners result.items 0 }
{
    let mut sharing = Vec::with_capacity(alloc, 1).expect(rt, "memory");
    sharing.push_reserved(Locations::of(pieces));
    sharing
}

/// The pieces of such an instance, at its end.
pub(crate) fn parted(rt: &impl Abort, sharing: Vec<Locations>) -> Pieces
    requires some { 0 < length sharing.items }
    requires owners { HasOwners sharing.items 0 }
    ensures { result ≡ shared_at sharing.items 0 }
{
    let mut left = sharing;
    let pieces = borrow_pieces(&mut left, 0);
    end_alone(rt, left);
    pieces
}

/// Ends locations without a piece.
pub(crate) fn end_alone(rt: &impl Abort, sharing: Vec<Locations>) {
    let mut left = sharing;
    while let Some(locations) = left.pop() {
        let Pieces { p0, p1, p2, p3 } = locations.pieces();
        nothing(rt, p0);
        nothing(rt, p1);
        nothing(rt, p2);
        nothing(rt, p3);
    }
    left.destroy_empty();
}
