//! How blocks of samples pass through channels.
ghost use Rattle.std.specs.Prelude.{◌≡◌, ◌≤◌, ◌<◌, true, ◌∷◌, [], length, map, IfNone, IfSome};
ghost use Rattle.channel_spec.specs.Channels.{members_at, is_chained};
ghost use Rattle.channel_spec.specs.Calls.Call.{Feed};
ghost use Rattle.voice_channel.specs.Channels.{PassesThrough, ChannelsCallRefines};

use crate::{Channels, Members};
use alg_host::Host;
use ialg::{BLOCK_SAMPLES, Block, Ialg};

/// What members give one another stands in two blocks by turns. They are made once, since the words of a new block are cleared.
#[derive(Drop)]
pub(crate) struct Between {
    one: Block,
    other: Block,
}

impl Between {
    /// Two empty blocks.
    pub(crate) fn new() -> Between {
        Between {
            one: Block::new(),
            other: Block::new(),
        }
    }
}

/// The members of a channel.
fn members_of(channels: &[Members], c: u8) -> &[u8]
    requires { c < length channels.now }
    ensures { result.now ≡ members_at (map (λ m. m.items) channels.now) c }
{
    channels[c as usize].as_slice()
}

/// Gives the block out as it is.
fn give_out(block: &[i16], out: &mut Block)
    requires within { length block.now ≤ BLOCK_SAMPLES }
    requires empty { out.old.items ≡ [] }
    ensures { out.new.items ≡ block.now }
{
    out.extend_from_slice(block);
}

/// Gives a member the block, unless that is empty: what the member gives takes the place of what `given` held.
#[inline(never)]
fn run<M: Ialg>(host: &mut Host<M>, member: u8, block: &[i16], given: &mut Block)
    requires within { length block.now ≤ BLOCK_SAMPLES }
    ensures bounded { length given.new.items ≤ length block.now }
    ensures passes { PassesThrough M.law (member ∷ []) block.now given.new.items host.old host.new }
{
    given.clear();
    // Members live in every state that the channels refine, so the second is always so.
    if !block.is_empty() && host.living(member) {
        host.process(member, block, given);
    }
}

/// Gives the one member of a channel a sample: some sample is what it told, without being run. None: what it gave takes the place of what
/// `given` held.
#[inline(always)]
fn run_sample<M: Ialg>(host: &mut Host<M>, member: u8, x: i16, given: &mut Block) -> Option<i16>
    ensures bounded { length given.new.items ≤ 1 }
    ensures told { IfSome result (λ y. PassesThrough M.law (member ∷ []) (x ∷ []) (y ∷ []) host.old host.new) }
    ensures passes { IfNone result (PassesThrough M.law (member ∷ []) (x ∷ []) given.new.items host.old host.new) }
{
    given.clear();
    match host.process_sample(member, x) {
        Some(told) => Some(told),
        None => {
            run(host, member, &[x], given);
            None
        }
    }
}

/// Passes the block that stands in `from` through a member and those behind it. They fill the two blocks by turns, but for the last, which
/// gives to `out`.
fn pass_on<M: Ialg>(
    host: &mut Host<M>,
    member: u8,
    further: &[u8],
    from: &mut Block,
    to: &mut Block,
    out: &mut Block,
)
    ensures bounded { length out.new.items ≤ length from.old.items }
    ensures passes { PassesThrough M.law (member ∷ further.now) from.old.items out.new.items host.old host.new }
{
    match further {
        [] => run(host, member, from.as_slice(), out),
        [next, behind @ ..] => {
            run(host, member, from.as_slice(), to);
            pass_on(host, *next, behind, to, from, out);
        }
    }
}

/// Passes a block through members in order: each takes what the one before it gave. What the last gives takes the place of what `out` held.
///
/// Inlined, with the way of a channel of one member.
#[inline(always)]
fn pass<M: Ialg>(
    host: &mut Host<M>,
    members: &[u8],
    block: &[i16],
    between: &mut Between,
    out: &mut Block,
)
    requires within { length block.now ≤ BLOCK_SAMPLES }
    ensures bounded { length out.new.items ≤ length block.now }
    ensures passes { PassesThrough M.law members.now block.now out.new.items host.old host.new }
{
    match members {
        [] => {
            out.clear();
            give_out(block, out);
        }
        [member] => run(host, *member, block, out),
        [member, next, behind @ ..] => {
            run(host, *member, block, &mut between.one);
            pass_on(
                host,
                *next,
                behind,
                &mut between.one,
                &mut between.other,
                out,
            );
        }
    }
}

impl<M: Ialg> Channels<M> {
    /// Gives the one sample `x` to a channel, as [`feed`](Channels::feed) does. Some sample is what the channel gave, and `out` tells
    /// nothing then. None: what it gave, one sample or none, takes the place of what `out` held.
    ///
    /// A channel whose one member tells its output by reading its records alone, as an active decoder does, has no block to fill.
    #[inline(always)]
    pub fn feed_sample(&mut self, c: u8, x: i16, out: &mut Block) -> Option<i16>
        requires ready { is_chained (members_at self.old.chained c) ≡ true }
        ensures chained { self.new.chained ≡ self.old.chained }
        ensures bounded { length out.new.items ≤ 1 }
        ensures told { IfSome result (λ y. ChannelsCallRefines M.law (Feed c (x ∷ []) (y ∷ [])) self.old self.new) }
        ensures machine { IfNone result (ChannelsCallRefines M.law (Feed c (x ∷ []) out.new.items) self.old self.new) }
    {
        match members_of(&self.channels, c) {
            [member] => run_sample(&mut self.host, *member, x, out),
            members => {
                pass(&mut self.host, members, &[x], &mut self.between, out);
                None
            }
        }
    }

    /// Gives a block of samples to a channel: it passes through the members in order, each taking what the one before it gave, and what
    /// the last gave takes the place of what `out` held. Where a member gives nothing, those behind it are neither activated nor run.
    #[inline(always)]
    pub fn feed(&mut self, c: u8, input: &[i16], out: &mut Block)
        requires ready { is_chained (members_at self.old.chained c) ≡ true }
        requires some { 1 ≤ length input.now }
        requires within { length input.now ≤ BLOCK_SAMPLES }
        ensures chained { self.new.chained ≡ self.old.chained }
        ensures bounded { length out.new.items ≤ length input.now }
        ensures machine { ChannelsCallRefines M.law (Feed c input.now out.new.items) self.old self.new }
    {
        pass(
            &mut self.host,
            members_of(&self.channels, c),
            input,
            &mut self.between,
            out,
        );
    }
}
