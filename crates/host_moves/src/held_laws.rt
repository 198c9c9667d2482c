//! What moves leave as it is. The calls do nothing: their contracts are the laws.
ghost use Rattle.host_moves.specs.HeldLaws.{AllButOneAreHoused, MembersWaitAfterAChange, OwnPiecesConcernNoOther, PoisonStaysWhereChangesHoldIt, SharersSeeTheSlidPiece, SharersWaitAfterASlide, TheOwnerHasTheSlidPiece, WordsKeepLogs};

use ialg::Ialg;

/// The law that an instance keeps its log wherever its words lie; and that no member of a group sees blocks in which it has no words.
pub fn words<M: Ialg>()
    ensures { WordsKeepLogs M.law }
{}

/// The law that the pieces of one instance concern no other.
pub fn apart<M: Ialg>()
    ensures all { AllButOneAreHoused M }
    ensures own { OwnPiecesConcernNoOther M }
{}

/// The law that after a write-once piece lies elsewhere, in which its sharers have room, these wait to be told, and no other instance does.
/// Nothing stands with another instance than before.
pub fn slid<M: Ialg>()
    ensures waiting { SharersWaitAfterASlide M }
    ensures seen { SharersSeeTheSlidPiece }
    ensures here { TheOwnerHasTheSlidPiece }
{}

/// The law that after a change of a group's blocks, in which its members have room, these wait to be told, and no other instance does.
pub fn waiting<M: Ialg>()
    ensures { MembersWaitAfterAChange M }
{}

/// The law that where no member is active the blocks hold the poison word still, if each that changes holds it.
pub fn poisoned()
    ensures { PoisonStaysWhereChangesHoldIt }
{}
