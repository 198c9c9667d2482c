//! The laws of channels.
ghost use Rattle.channel_spec.specs.CallLaws.{CallsKeepMembersHeld, HeldWhereNoneIsChained, LawfulCallsAreComputed, PoisonChangesNoAnswer, RefusedCallsChangeNothing};

/// The law that a refused call leaves the state as it was. The call does nothing: its contract is the law.
pub fn refused_calls_change_nothing<M>()
    ensures { RefusedCallsChangeNothing M }
{
    host_spec::refused_calls_change_nothing::<M>();
}

/// The law that the members of channels live, that none is named twice in a channel, and that none is in two channels: so it is where
/// no channel is chained, and each call keeps it. The call does nothing.
pub fn members_live_in_one_channel<M>()
    ensures start { HeldWhereNoneIsChained M }
    ensures kept { CallsKeepMembersHeld M }
{}

/// The law that nothing is free where the kinds are lawful: the machine is a function then, and computes its answers. The call does
/// nothing.
pub fn lawful_calls_are_computed<M>()
    ensures { LawfulCallsAreComputed M }
{}

/// The law that a poison word changes no answer that is computed, and of the state after it nothing but itself. The call does nothing.
pub fn poison_words_change_nothing<M>()
    ensures { PoisonChangesNoAnswer M }
{}
