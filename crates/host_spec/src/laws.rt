//! The laws of the machine.
ghost use Rattle.host_spec.specs.CallLaws.{CallsKeepOtherInstances, CallsKeepTheHost, CompactionsAreSteps, CompactionsOnlyMoveBlocks, LawfulHostCallsAreComputed, LawfulRunsAreComputed, LivesGoByTheirHistories, LivesHaveTheirHistories, LivesOfTwoHostsAgree, OnlyHostCreationsLackRoom, RefusedHostCallsChangeNothing, StepsOnlyMoveBlocks};

/// The law that a refused call leaves the state as it was. The call does nothing: its contract is the law.
pub fn refused_calls_change_nothing<M>()
    ensures { RefusedHostCallsChangeNothing M }
{}

/// The law that only a creation is refused for want of room. The call does nothing.
pub fn only_creations_lack_room<M>()
    ensures { OnlyHostCreationsLackRoom M }
{}

/// The law that a call leaves all instances but the one that it is about, and the sizes and the poison word of the host. The call
/// does nothing.
pub fn calls_keep_other_instances<M>()
    ensures living { CallsKeepOtherInstances M }
    ensures host { CallsKeepTheHost M }
{}

/// The law that moves change the places of blocks and nothing else. The call does nothing.
pub fn moves_change_places_alone<M>()
    ensures step { StepsOnlyMoveBlocks M }
    ensures compact { CompactionsOnlyMoveBlocks M }
{}

/// The law that a lawful instance goes by what it was given: whatever else is called, what it gives over a run of calls are the
/// outputs of its history, and what it answers the statuses. The call does nothing.
pub fn lives_go_by_their_histories<M>()
    ensures living { LivesHaveTheirHistories M }
    ensures grows { LivesGoByTheirHistories M }
{}

/// The law that a lawful instance gives and answers in any two hosts the same, where it was given the same: whatever their sizes and
/// poison words are, whatever the number and the group of the instance, what its neighbours do, what moves, and how its samples are
/// cut into blocks. The call does nothing.
pub fn lives_agree<M>()
    ensures { LivesOfTwoHostsAgree M }
{}

/// The law that nothing is free where the instance that a call is about is lawful: the machine is a function then, and computes its
/// answers. The call does nothing.
pub fn lawful_calls_are_computed<M>()
    ensures call { LawfulHostCallsAreComputed M }
    ensures run { LawfulRunsAreComputed M }
{}

/// The law that a compaction is steps, one after the other, until no block moves: it moves as many blocks, and leaves the same state.
/// The call does nothing.
pub fn compactions_are_steps<M>()
    ensures { CompactionsAreSteps M }
{}
