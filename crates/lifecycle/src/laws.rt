//! The law of room.
ghost use Rattle.std.specs.Prelude.{List, IsTrue};
ghost use Rattle.mem_rec.specs.declared.MemRec.{MemRec};
ghost use Rattle.mem_rec.specs.Records.{is_table};
ghost use Rattle.record_loans.specs.declared.pieces.Pieces.{Pieces};
ghost use Rattle.scratch_group.specs.declared.group.Group.{Group};
ghost use Rattle.scratch_group.specs.Words.{placed, HasPieces, HasWords, InSpaces};
ghost use Rattle.lifecycle.specs.Rooms.{NoNeed, Separate};
ghost use Rattle.lifecycle.specs.States.{Fits};

/// The law that where no block must be placed for a table and each record that lasts has its piece, each record has its words; and that
/// there is room for the records at their places, where no two of the pieces meet. It holds of pieces wherever they are, so also of one
/// that is away while it is moved. The call does nothing: its contract is the law.
pub fn room()
    ensures words { (rs : List MemRec) (own shared : Pieces) (g : Group) → IsTrue (is_table rs)
        → NoNeed rs g → HasPieces rs own shared → HasWords rs own shared g }
    ensures places { (rs : List MemRec) (own shared : Pieces) (g : Group) → IsTrue (is_table rs)
        → NoNeed rs g → HasPieces rs own shared → Separate rs own shared g → InSpaces own shared g
        → Fits (placed rs own shared g) own shared g }
{}
