//! The headline.
ghost use Rattle.console_spec.specs.MainLaw.{FirstLinesHaveTheHeadline, InstancesAgree, RunsHaveTheHeadline};
ghost use Rattle.console_spec.specs.SoundLaws.{AnswersHaveSounds, FeedsSoundAlike, LinesSoundAlike, SilenceIsNoAnswer, SoundsAreOne};

use crate::runs::{creations_alone_lack_room, refused_lines_change_nothing};

/// The headline. Over any list of commands, each living instance's output is its difference equation applied to its own granted
/// controls and samples since its creation, whatever its scratch memory held, wherever its records were moved and whatever other
/// instances did, even ones that break IALG's laws; only creation is refused for space, exactly where no place is free, and a refused
/// command changes no instance, channel or place. A feed that is refused as short uses up what is left of its input.
///
/// What a feed is given are the first samples that are left of its channel's input, where that input is honest, whatever the others are. Of
/// one that isn't each feed may be given any samples, or be refused as short.
///
/// So it is of each instance that was ever created, as long as it lived, and up to each line: the first lines have the headline by
/// themselves (`first`).
///
/// And of two runs: instances of one kind and the same parameters that were given the same since their creation give and answer the
/// same, whatever else differs. The call does nothing: its contract is the law.
pub fn headline<M>()
    ensures run { RunsHaveTheHeadline M }
    ensures first { FirstLinesHaveTheHeadline M }
    ensures two { InstancesAgree M }
{
    creations_alone_lack_room::<M>();
    refused_lines_change_nothing::<M>();
    channel_spec::refused_calls_change_nothing::<M>();
}

/// The law that what a console answers to lines, a console without memory may answer too: so it has sounds. The call does nothing.
pub fn answers_have_sounds<M>()
    ensures { AnswersHaveSounds M }
{}

/// The law that sounds are one where all kinds are lawful: from one state, a line asks one thing and leads to one state, but for the
/// numbers of commands about memory, where the same creations lack room; and a block gives one output. The call does nothing.
pub fn sounds_are_one<M>()
    ensures runs { SoundsAreOne M }
    ensures silence { SilenceIsNoAnswer M }
    ensures lines { LinesSoundAlike M }
    ensures feeds { FeedsSoundAlike M }
{}
