//! The laws of moves.
ghost use Rattle.relocate.specs.Compaction.{CompactionsEnd, CompactionsPackOnce, MovesChangeOneRange, NextMovesGoDown, NextMovesLower};

/// The law that the next move takes a block down, keeps the order, and leaves the blocks up to that one packed. The call does nothing:
/// its contract is the law.
pub fn moves_go_down()
    ensures { NextMovesGoDown }
{}

/// The law of compaction: next moves come to an end, and then they have moved each block that wasn't at its packed place, once, and no
/// other. The call does nothing.
pub fn compactions()
    ensures end { CompactionsEnd }
    ensures once { CompactionsPackOnce }
{}

/// The law that a heap of these blocks which lowers the block of the next move puts it where that move takes it, and has the moved
/// blocks then. The call does nothing.
pub fn lowering_moves()
    ensures place { NextMovesLower }
    ensures blocks { MovesChangeOneRange }
{}
