//! The laws of whole runs.
ghost use Rattle.console_spec.specs.RunLaws.{ACallRunsOnTheHost, BirthsAgree, BirthsGoByTheirHistories, CallsRunOnTheHost, CreationsLackRoomExactly, HonestFeedsLeaveTheOthers, HonestFeedsTakeTheFirst, HonestInputsHaveEnough, LinesAreCalls, NoBlockIsRefused, OnlyCreationsLackRoom, RefusedLinesChangeNothing};

/// The law that a run of calls of channels is a run of calls of their host: so the life of an instance in channels is a life in the
/// host. The call does nothing: its contract is the law.
pub fn calls_run_on_the_host<M>()
    ensures call { ACallRunsOnTheHost M }
    ensures run { CallsRunOnTheHost M }
{}

/// The law that a lawful instance goes by what it was given since its creation, as long as it isn't deleted, whatever was called before,
/// and whatever else is called; that a control of it is granted by kind, parameters and control alone; and that a block of samples has no
/// answer that refuses it. The call does nothing.
pub fn births_go_by_their_histories<M>()
    ensures born { BirthsGoByTheirHistories M }
    ensures process { NoBlockIsRefused M }
{}

/// The law that in two runs a lawful instance of one kind and the same parameters gives and answers the same, where it was given the
/// same since its creation: whatever the sizes of the hosts and their poison words are, whatever its number and group, what its
/// neighbours do, what moves, and how its samples are cut into blocks. The call does nothing.
pub fn births_agree<M>()
    ensures { BirthsAgree M }
{}

/// The law that what a console does with lines is a run of calls of its channels, which the lines' commands make: a feed is refused, or
/// short, or given as many samples as it asks for, the first that are left of its channel's input where that is honest; and what feeds give
/// is the channel's output. The call does nothing.
pub fn lines_are_calls<M>()
    ensures { LinesAreCalls M }
{
    channel_spec::refused_calls_change_nothing::<M>();
}

/// The law that a feed which isn't short takes just the samples that are next on its channel's input, where that is honest, whatever the
/// other inputs are. The call does nothing.
pub fn honest_feeds_take_what_is_next<M>()
    ensures enough { HonestInputsHaveEnough M }
    ensures block { HonestFeedsTakeTheFirst M }
    ensures others { HonestFeedsLeaveTheOthers M }
{}

/// The law that a refused line leaves all instances, channels and places as they were. A feed that is refused as short uses up what is left
/// of its input. The call does nothing.
pub fn refused_lines_change_nothing<M>()
    ensures { RefusedLinesChangeNothing M }
{
    channel_spec::refused_calls_change_nothing::<M>();
}

/// The law that only a creation is refused for want of room; and that the creation of a kind that is lawful, or that declares its
/// memory, is refused so exactly where nothing else is wanting (its numbers are in range, no instance has its number, and the kind takes
/// its parameters) and, of the blocks that it needs beyond those that it shares, one has no free place. The call does nothing.
pub fn creations_alone_lack_room<M>()
    ensures only { OnlyCreationsLackRoom M }
    ensures exactly { CreationsLackRoomExactly M }
{
    host_spec::only_creations_lack_room::<M>();
}
