//! The same samples given to channels of two runs.
ghost use Rattle.std.specs.Prelude.{◌≡◌, ◌≤◌, ◌++◌, true, [], length};
ghost use Rattle.channel_spec.specs.Channels.{Channels as State, members_at, is_chained};
ghost use Rattle.channel_spec.specs.Cuts.{MembersAreLawful};
ghost use Rattle.channel_spec.specs.Agreement.{MembersAgree};
ghost use Rattle.channel_spec.specs.Calls.Call.{Feed};
ghost use Rattle.voice_channel.specs.Channels.{ChannelsRefine, ChannelsCallRefines};
ghost use Rattle.test_hosts.specs.TwoFeeds.{ServesBoth};

use crate::cut_feeds::fed;
use channel_spec::channels_agree;
use ialg::{BLOCK_SAMPLES, Block, Ialg};
use voice_channel::Channels;

/// What a channel gave for samples that were cut in two, and what a channel of another run gave for them at once.
#[derive(Drop)]
pub struct Outputs {
    pub early: Block,
    pub late: Block,
    pub whole: Block,
}

/// Gives a channel two blocks of samples, and a channel of another run both of them as one. They give the same where their members are
/// lawful, of the same kinds and parameters, and were given the same before: whatever the sizes and the poison words of the two hosts
/// are, and whatever else lives and moves in them.
pub fn feed_both<M: Ialg>(
    one: &mut Channels<M>,
    c: u8,
    first: &[i16],
    second: &[i16],
    other: &mut Channels<M>,
    d: u8,
    whole: &[i16],
) -> Outputs
    requires ready { is_chained (members_at one.old.chained c) ≡ true }
    requires other_ready { is_chained (members_at other.old.chained d) ≡ true }
    requires first { 1 ≤ length first.now }
    requires second { 1 ≤ length second.now }
    requires joined { first.now ++ second.now ≡ whole.now }
    requires within { length whole.now ≤ BLOCK_SAMPLES }
    ensures both { ServesBoth M.law c first.now result.early.items second.now result.late.items one.old one.new }
    ensures other { ChannelsCallRefines M.law (Feed d whole.now result.whole.items) other.old other.new }
    ensures agree { (before other_before : State M) → ChannelsRefine M.law one.old before
        → ChannelsRefine M.law other.old other_before
        → MembersAreLawful M.law.meaning before c → MembersAreLawful M.law.meaning other_before d → MembersAgree before c other_before d
        → result.early.items ++ result.late.items ≡ result.whole.items }
{
    channels_agree::<M>();
    let early = fed(one, c, first);
    let late = fed(one, c, second);
    let whole = fed(other, d, whole);
    Outputs { early, late, whole }
}
