//! Worked rows, checked on the definitions.
ghost use Rattle.relocate.specs.Rows.{CompactionRows, MoveRows};

/// The law that the definitions give what the worked rows say. The call does nothing: its contract is the law.
pub fn packing_rows()
    ensures moves { MoveRows }
    ensures compactions { CompactionRows }
{}
