//! The rogue that writes over every word that it may write, and gives its input.
ghost use Rattle.ialg.specs.Loans.{SameLoans};
ghost use Rattle.test_doubles.specs.Writing.{FillsAll};

use crate::rogue_records::fill_record;
use ialg::Lent;

/// What is written into each word.
pub const SCRIBBLE: i16 = 0x5b5b;

/// Writes over every word that may be written, the object's too.
pub(crate) fn scribble(mem: &mut Lent<'_>)
    ensures loans { SameLoans mem.old mem.new }
    ensures written { FillsAll SCRIBBLE mem.old mem.new }
{
    for record in mem.table().records() {
        fill_record(mem, record.space, record.base, SCRIBBLE);
    }
}
