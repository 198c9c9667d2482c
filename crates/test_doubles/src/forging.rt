//! The rogue that puts forged bases into its object, and reads and writes by them.
ghost use Rattle.ialg.specs.Loans.{SameLoans};

use crate::rogue_records::{OBJECT, fill_record, record_of};
use ialg::Lent;
use mem_rec::{LEAST_ALIGNMENT, MemTab, Space};
use relocate::SPACE_WORDS;

/// At how many places of the greatest space a record may begin.
const PLACES: u32 = 16_384;

const _: () = prove!(PLACES * LEAST_ALIGNMENT == SPACE_WORDS);

/// Bases at which no record begins, among them the last word of the greatest space.
const FORGED_BASES: [u16; 6] = [1, 2, 17, 32_767, 65_533, 65_535];

/// All spaces: a base is tried in each. The object stands in the last one, so it has the base until all are tried.
const SPACES: [Space; 3] = [Space::Daram, Space::Saram, Space::External];

/// The base of the place of this number, from 0. Behind the greatest space's last place it is 0 again.
fn base_of(place: u32) -> u16 {
    (place.wrapping_mul(LEAST_ALIGNMENT) % SPACE_WORDS) as u16
}

/// The first word of the record of `space` that begins at the forged base, 0 where none does.
fn read_forged(mem: &Lent<'_>, space: Space, base: u16) -> i16 {
    match mem.read(space, base) {
        Some([first, ..]) => *first,
        _ => 0,
    }
}

/// Puts a base into the object, and goes by it in each space.
fn try_base(mem: &mut Lent<'_>, base: u16)
    ensures { SameLoans mem.old mem.new }
{
    let Some(object) = record_of(mem.table(), OBJECT) else {
        return;
    };
    fill_record(mem, object.space, object.base, base.cast_signed());
    for space in SPACES {
        let seen = read_forged(mem, space, base);
        fill_record(mem, space, base, seen.wrapping_add(1));
    }
}

/// Tries every base at which a record may begin, in each space: those of all other instances and of all groups' blocks are among them, in
/// whatever order they came and wherever they are moved, and in a space of fewer words those past its end.
fn try_places(mem: &mut Lent<'_>)
    ensures { SameLoans mem.old mem.new }
{
    for place in 0..PLACES {
        try_base(mem, base_of(place));
    }
}

/// Puts forged bases into the object, one after the other, and reads and writes by each. The last one stays there.
pub(crate) fn forge(mem: &mut Lent<'_>)
    ensures { SameLoans mem.old mem.new }
{
    try_places(mem);
    for base in FORGED_BASES {
        try_base(mem, base);
    }
}

/// A table that is untrue of each record: the last word of the greatest space for its base.
pub(crate) fn forged_table(mem: &Lent<'_>) -> MemTab {
    let mut table = mem.table().copied();
    for k in 0..table.len() {
        table = table.with_base(k, u16::MAX);
    }
    table
}
