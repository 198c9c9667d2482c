//! The headline of a run.
ghost use Rattle.console_spec.specs.MainLaw.{InstancesOfTwoRunsAgree};
ghost use Rattle.dsp_console.specs.HeadlineLaws.{FirstLinesOfRunsHaveIt, RunsHaveTheirSounds, StoppedHaveTheHeadline, WellEndedHaveTheHeadline};

use ialg::{Ialg, Named};

/// The headline of `run`. Over any list of commands, each living instance's output is its difference equation applied to its own granted
/// controls and samples since its creation, whatever its scratch memory held, wherever its records were moved and whatever other
/// instances did, even ones that break IALG's laws; only creation is refused for space, exactly where no place is free, and a refused
/// command changes no instance, channel or place. A feed that is refused as short uses up what is left of its input.
///
/// Each input is asked by itself whether it is honest: what a feed is given are the first samples that are left of its channel's input,
/// where that input is honest, whatever the others are. Of one that isn't each feed may be given any samples, or be refused as short.
///
/// So it is where a run ends well (`ok`), and, of the lines that were served, where a script or an input fails (`read`). It holds up to
/// each line of the script, by the first lines alone (`first`). Its sounds hold by themselves (`sounds`): no block, no place and no size of
/// a space occurs in what they say. And in two runs instances of one kind and the same parameters that were given the same since their
/// creation gave and answered the same (`two`). The call does nothing: its contract is the law.
pub fn headline<M: Ialg + Named>()
    ensures ok { WellEndedHaveTheHeadline M.law.meaning M.named }
    ensures read { StoppedHaveTheHeadline M.law.meaning M.named }
    ensures sounds { RunsHaveTheirSounds M.law.meaning M.named }
    ensures first { FirstLinesOfRunsHaveIt M.law.meaning M.named }
    ensures two { InstancesOfTwoRunsAgree M.law.meaning M.named }
{
    console_spec::headline::<M>();
    console_spec::answers_have_sounds::<M>();
}
