//! The calls of a list, one after the other.
ghost use Rattle.std.specs.Prelude.{◌≡◌, map, length};
ghost use Rattle.alg_host.specs.Requests.{made, all_made, asked, HostCallsRefine, EachGrows, LivesAgree};

use crate::Request;
use crate::host::Host;
use host_spec::{lives_agree, lives_go_by_their_histories};
use ialg::{Block, Ialg};

/// Gives an instance a block, if there is an instance of the number, and a sample.
fn give<M: Ialg>(host: &mut Host<M>, i: u8, input: &Block) -> Option<Block>
    ensures { HostCallsRefine M.law (made (Request.Process i input.now result)) host.old host.new }
{
    if !host.living(i) || input.is_empty() {
        return None;
    }
    let mut output = Block::new();
    host.process(i, input.as_slice(), &mut output);
    Some(output)
}

/// Makes a call, and writes down what is answered.
pub fn make<M: Ialg>(host: &mut Host<M>, request: &mut Request<M>)
    ensures same { asked request.new ≡ asked request.old }
    ensures served { HostCallsRefine M.law (made request.new) host.old host.new }
{
    match request {
        Request::Create {
            instance,
            kind,
            group,
            parameters,
            answer,
        } => *answer = host.create(*instance, *kind, *group, parameters),
        Request::Control {
            instance,
            control,
            answer,
        } => *answer = host.control(*instance, control),
        Request::Process {
            instance,
            input,
            output,
        } => *output = give(host, *instance, input),
        Request::Delete { instance, answer } => *answer = host.delete(*instance),
        Request::Release { group, answer } => *answer = host.release(*group),
        Request::Step { space, answer } => *answer = host.step(*space),
        Request::Compact { space, answer } => *answer = host.compact(*space),
    }
}

/// Makes the calls, one after the other, and writes down what is answered: each lawful instance gives the outputs of its own history,
/// whatever is asked of the others, and whatever they do.
pub fn make_all<M: Ialg>(host: &mut Host<M>, requests: &mut [Request<M>])
    ensures same { map asked requests.new ≡ map asked requests.old }
    ensures served { HostCallsRefine M.law (all_made requests.new) host.old host.new }
    ensures grows { EachGrows M.law (all_made requests.new) host.old }
{
    lives_go_by_their_histories::<M>();
    for k in 0..requests.len() {
        make(host, &mut requests[k]);
    }
}

/// Makes the calls of two lists, each of its own host. A lawful instance of the one and a lawful one of the other, of one kind and the
/// same parameters, that were given the same, give and answer the same: whatever the sizes of the hosts and their poison words are,
/// whatever their numbers, groups and neighbours, what moves, and how their samples are cut into blocks.
pub fn make_both<M: Ialg>(
    one: &mut Host<M>,
    requests: &mut [Request<M>],
    other: &mut Host<M>,
    others: &mut [Request<M>],
)
    ensures same { (map asked requests.new ≡ map asked requests.old) × (map asked others.new ≡ map asked others.old) }
    ensures served { HostCallsRefine M.law (all_made requests.new) one.old one.new }
    ensures other_served { HostCallsRefine M.law (all_made others.new) other.old other.new }
    ensures grows { EachGrows M.law (all_made requests.new) one.old }
    ensures other_grows { EachGrows M.law (all_made others.new) other.old }
    ensures agree { LivesAgree M.law (all_made requests.new) (all_made others.new) one.old other.old }
{
    lives_agree::<M>();
    make_all(one, requests);
    make_all(other, others);
}
