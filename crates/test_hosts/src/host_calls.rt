//! A test of a host as a list: each call, and what it is to answer.

use alg_host::{Host, Stat};
use host_map::{Placed, Sizes};
use ialg::{BLOCK_SAMPLES, Block, Ctl, Ialg, PARAMETER_WORDS, Params, Refusal, Status, copied};
use mem_rec::Space;
use std::alloc::Global;
use std::process::Abort;

/// What comes of a call that answers nothing more.
pub(crate) type Outcome = Result<(), Refusal>;

/// A call of a host, and last what it is to answer.
#[derive(Drop)]
pub(crate) enum Call<'a, M> {
    /// A new instance of this number and kind, in this group and with these parameters.
    Create(u8, M, u8, &'a [i16], Outcome),
    Delete(u8, Outcome),
    Living(u8, bool),
    /// A block of samples for an instance, and what it gives for them.
    Process(u8, &'a [i16], &'a [i16]),
    /// An instance is asked for its words.
    Get(u8, &'a [i16]),
    /// An instance is given words, and refuses them.
    SetRefused(u8, &'a [i16], Refusal),
    Release(u8, Result<bool, Refusal>),
    /// The active member of a group, and how many activations there were.
    Stat(u8, Result<(Option<u8>, u32), Refusal>),
    Step(Space, bool),
    Compact(Space, u32),
    Copied(u64),
    Map(Space, &'a [Placed]),
}

/// The parameters of a test, of which there is never too many.
pub(crate) fn parameters(p: &[i16]) -> Option<Params> {
    if p.len() <= PARAMETER_WORDS {
        Some(copied(p))
    } else {
        None
    }
}

/// What a group is to tell.
pub(crate) fn told(answer: Result<(Option<u8>, u32), Refusal>) -> Result<Stat, Refusal> {
    let (active, activations) = answer?;
    Ok(Stat {
        active,
        activations,
    })
}

impl<M: Ialg> Call<'_, M> {
    /// Makes the call, and says whether it is answered so.
    fn holds(&self, host: &mut Host<M>) -> bool {
        match self {
            Call::Create(i, kind, group, p, answer) => {
                let instance = (*i, *kind, *group);
                creates(host, instance, p, *answer)
            }
            Call::Delete(i, answer) => host.delete(*i) == *answer,
            Call::Living(i, answer) => host.living(*i) == *answer,
            Call::Process(i, input, output) => gives(host, *i, input, output),
            Call::Get(i, words) => tells(host, *i, words),
            Call::SetRefused(i, words, why) => refuses(host, *i, words, *why),
            _ => self.holds_of_memory(host),
        }
    }

    /// The same of a call that is about groups or spaces.
    fn holds_of_memory(&self, host: &mut Host<M>) -> bool {
        match self {
            Call::Release(group, answer) => host.release(*group) == *answer,
            Call::Stat(group, answer) => host.stat(*group) == told(*answer),
            Call::Step(space, answer) => host.step(*space) == *answer,
            Call::Compact(space, moves) => host.compact(*space) == *moves,
            Call::Copied(words) => host.copied() == *words,
            Call::Map(space, blocks) => host.map(*space).as_slice() == *blocks,
            _ => false,
        }
    }
}

/// Whether a creation is answered so: of an instance of this number and kind in this group.
fn creates<M: Ialg>(host: &mut Host<M>, instance: (u8, M, u8), p: &[i16], answer: Outcome) -> bool {
    let (i, kind, group) = instance;
    match parameters(p) {
        Some(p) => host.create(i, kind, group, &p) == answer,
        None => false,
    }
}

/// Whether an instance that is asked for its words tells these.
fn tells<M: Ialg>(host: &mut Host<M>, i: u8, words: &[i16]) -> bool {
    match host.control(i, &Ctl::Get) {
        Ok(Status::Words(answer)) => answer.as_slice() == words,
        _ => false,
    }
}

/// Whether an instance refuses these words.
fn refuses<M: Ialg>(host: &mut Host<M>, i: u8, words: &[i16], why: Refusal) -> bool {
    match parameters(words) {
        Some(words) => host.control(i, &Ctl::Set(words)) == Err(why),
        None => false,
    }
}

/// Whether an instance lives and gives this for a block of samples.
fn gives<M: Ialg>(host: &mut Host<M>, i: u8, input: &[i16], output: &[i16]) -> bool {
    if !host.living(i) || input.is_empty() || input.len() > BLOCK_SAMPLES {
        return false;
    }
    let mut given = Block::new();
    host.process(i, input, &mut given);
    given.as_slice() == output
}

/// Makes the calls one after the other in a new host: each is to be answered as it says.
pub(crate) fn make<M: Ialg>(
    rt: &impl Abort,
    alloc: Global,
    sizes: Sizes,
    poison: Option<i16>,
    calls: &[Call<'_, M>],
) {
    let mut host = Host::new(alloc, sizes, poison).expect(rt, "memory");
    for (number, call) in calls.iter().enumerate() {
        assert!(rt; call.holds(&mut host), "call {number}");
    }
    host.close();
}
