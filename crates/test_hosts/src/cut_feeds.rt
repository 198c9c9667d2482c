//! Samples given to a channel in two blocks.
ghost use Rattle.std.specs.Prelude.{◌≡◌, ◌≤◌, ◌++◌, ℤ, true, [], List, length};
ghost use Rattle.channel_spec.specs.Channels.{Channels as State, members_at, is_chained};
ghost use Rattle.channel_spec.specs.Cuts.{Feeds, MembersAreLawful};
ghost use Rattle.channel_spec.specs.Calls.Call.{Feed};
ghost use Rattle.voice_channel.specs.Channels.{ChannelsRefine, ChannelsCallRefines};
ghost use Rattle.test_hosts.specs.TwoFeeds.{ServesBoth};

use channel_spec::cuts_do_not_show;
use ialg::{BLOCK_SAMPLES, Block, Ialg};
use voice_channel::Channels;

/// What a channel gives for a block of samples.
pub(crate) fn fed<M: Ialg>(channels: &mut Channels<M>, c: u8, input: &[i16]) -> Block
    requires ready { is_chained (members_at channels.old.chained c) ≡ true }
    requires some { 1 ≤ length input.now }
    requires within { length input.now ≤ BLOCK_SAMPLES }
    ensures chained { channels.new.chained ≡ channels.old.chained }
    ensures machine { ChannelsCallRefines M.law (Feed c input.now result.items) channels.old channels.new }
{
    let mut out = Block::new();
    channels.feed(c, input, &mut out);
    out
}

/// Gives a channel of lawful members two blocks of samples. Joined, what it gives for them is what it would have given for both as one.
pub fn feed_in_two<M: Ialg>(
    channels: &mut Channels<M>,
    c: u8,
    first: &[i16],
    second: &[i16],
    early: &mut Block,
    late: &mut Block,
)
    requires ready { is_chained (members_at channels.old.chained c) ≡ true }
    requires first { 1 ≤ length first.now }
    requires second { 1 ≤ length second.now }
    requires first_within { length first.now ≤ BLOCK_SAMPLES }
    requires second_within { length second.now ≤ BLOCK_SAMPLES }
    requires early_empty { early.old.items ≡ [] }
    requires late_empty { late.old.items ≡ [] }
    ensures both { ServesBoth M.law c first.now early.new.items second.now late.new.items channels.old channels.new }
    ensures joined { (before after : State M) (out : List ℤ) → ChannelsRefine M.law channels.old before
        → MembersAreLawful M.law.meaning before c → Feeds M.law.meaning before c (first.now ++ second.now) out after
        → early.new.items ++ late.new.items ≡ out }
{
    cuts_do_not_show::<M>();
    let first_out = fed(channels, c, first);
    let second_out = fed(channels, c, second);
    *early = first_out;
    *late = second_out;
}
