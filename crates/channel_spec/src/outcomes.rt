//! What each call answers, case by case, and the state after it.
ghost use Rattle.channel_spec.specs.OutcomeLaws.{ChainGrants, ChainRefusesBusy, ChainRefusesMissing, ChainRefusesRange, ChainRefusesTaken, DeletionGrants, DeletionRefusesBusy, DeletionRefusesMissing, DeletionRefusesRange, UnchainGrants, UnchainRefusesMissing, UnchainRefusesRange};

/// The law of chaining: a number out of range is refused first, then a channel that has members, then a member that doesn't live, then
/// one that is in a channel or named twice. The call does nothing: its contract is the law.
pub fn chains_answer_in_order<M>()
    ensures range { ChainRefusesRange M }
    ensures taken { ChainRefusesTaken M }
    ensures missing { ChainRefusesMissing M }
    ensures busy { ChainRefusesBusy M }
    ensures granted { ChainGrants M }
{}

/// The law of unchaining, and of what can be fed: the same calls are refused. The call does nothing.
pub fn unchains_answer_in_order<M>()
    ensures range { UnchainRefusesRange M }
    ensures missing { UnchainRefusesMissing M }
    ensures granted { UnchainGrants M }
{}

/// The law of a deletion: it is refused as the host refuses it, then where the instance is in a channel. The call does nothing.
pub fn deletions_answer_in_order<M>()
    ensures range { DeletionRefusesRange M }
    ensures missing { DeletionRefusesMissing M }
    ensures busy { DeletionRefusesBusy M }
    ensures granted { DeletionGrants M }
{}
