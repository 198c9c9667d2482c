//! Where a table's scratch records stand in the block of their group.
ghost use Rattle.std.specs.Prelude.{◌≡◌};
ghost use Rattle.mem_rec.specs.Layout.{scratch_align, scratch_need, scratch_offsets};

use crate::{LEAST_ALIGNMENT, MemTab, SCRATCH_RECORDS, Space};
use arrayvec::ArrayVec;

/// Where the scratch records of a table stand in their group's block of one space.
#[derive(Drop)]
pub struct Layout {
    /// The offset of each of these records from the block's start, in words, in table order.
    pub offsets: ArrayVec<u32, SCRATCH_RECORDS>,
    /// The words that they need, a multiple of [`LEAST_ALIGNMENT`].
    pub need: u32,
    /// The greatest of their alignments, [`LEAST_ALIGNMENT`] without such records.
    pub align: u32,
}

/// The layout of the table's scratch records of `space`: each at the least multiple of its alignment not below the end
/// of the one before, the first at 0.
pub fn scratch_layout(table: &MemTab, space: Space) -> Layout
    ensures offsets { result.offsets.items ≡ scratch_offsets table.now space }
    ensures need { result.need ≡ scratch_need table.now space }
    ensures align { result.align ≡ scratch_align table.now space }
{
    let mut offsets = ArrayVec::new();
    let mut end: u32 = 0;
    let mut align = LEAST_ALIGNMENT;
    for r in table.records() {
        if r.is_scratch_of(space) {
            let offset = end.next_multiple_of(r.align);
            offsets.push(offset);
            end = offset + r.size;
            align = align.max(r.align);
        }
    }
    Layout {
        offsets,
        need: end.next_multiple_of(LEAST_ALIGNMENT),
        align,
    }
}
