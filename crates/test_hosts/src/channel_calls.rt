//! A test of channels as a list: each call, and what it is to answer.

use crate::host_calls::{Outcome, parameters, told};
use ialg::{BLOCK_SAMPLES, Block, Ctl, Ialg, Refusal, Status};
use std::process::Abort;
use voice_channel::{Channels, MEMBERS};

/// A call of channels, and last what it is to answer.
#[derive(Drop)]
pub(crate) enum Call<'a, M> {
    /// A new instance of this number and kind, in this group and with these parameters.
    Create(u8, M, u8, &'a [i16], Outcome),
    /// These instances become the members of a channel.
    Chain(u8, &'a [u8], Outcome),
    /// A block of samples for a channel, and what it gives for them.
    Feed(u8, &'a [i16], &'a [i16]),
    /// A sample for a channel, and what it tells for it; where it tells nothing, what it gives.
    FeedSample(u8, i16, Option<i16>, &'a [i16]),
    /// An instance is asked for its words.
    Get(u8, &'a [i16]),
    Release(u8, Result<bool, Refusal>),
    /// The active member of a group, and how many activations there were.
    Stat(u8, Result<(Option<u8>, u32), Refusal>),
}

impl<M: Ialg> Call<'_, M> {
    /// Makes the call, and says whether it is answered so.
    fn holds(&self, channels: &mut Channels<M>) -> bool {
        match self {
            Call::Create(i, kind, group, p, answer) => match parameters(p) {
                Some(p) => channels.create(*i, *kind, *group, &p) == *answer,
                None => false,
            },
            Call::Chain(c, members, answer) => {
                (1..=MEMBERS).contains(&members.len()) && channels.chain(*c, members) == *answer
            }
            Call::Feed(c, input, output) => gives(channels, *c, input, output),
            Call::FeedSample(c, x, told, output) => gives_sample(channels, *c, *x, *told, output),
            Call::Get(i, words) => match channels.control(*i, &Ctl::Get) {
                Ok(Status::Words(answer)) => answer.as_slice() == *words,
                _ => false,
            },
            Call::Release(group, answer) => channels.release(*group) == *answer,
            Call::Stat(group, answer) => channels.stat(*group) == told(*answer),
        }
    }
}

/// Whether a channel can be fed, and gives this for a block of samples.
fn gives<M: Ialg>(channels: &mut Channels<M>, c: u8, input: &[i16], output: &[i16]) -> bool {
    if channels.ready(c).is_err() || input.is_empty() || input.len() > BLOCK_SAMPLES {
        return false;
    }
    let mut given = Block::new();
    channels.feed(c, input, &mut given);
    given.as_slice() == output
}

/// Whether a channel can be fed, and tells this for a sample, or gives this.
fn gives_sample<M: Ialg>(
    channels: &mut Channels<M>,
    c: u8,
    x: i16,
    told: Option<i16>,
    output: &[i16],
) -> bool {
    if channels.ready(c).is_err() {
        return false;
    }
    let mut given = Block::new();
    let answer = channels.feed_sample(c, x, &mut given);
    answer == told && (answer.is_some() || given.as_slice() == output)
}

/// Makes the calls one after the other: each is to be answered as it says.
pub(crate) fn make<M: Ialg>(rt: &impl Abort, channels: &mut Channels<M>, calls: &[Call<'_, M>]) {
    for (number, call) in calls.iter().enumerate() {
        assert!(rt; call.holds(channels), "call {number}");
    }
}
