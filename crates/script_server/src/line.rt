//! Serves one line.
ghost use Rattle.std.specs.Prelude.{◌≡◌, ◌<◌, ◌≤◌, [], true, false, map, length, Ok, All, IsOk, IsErrOf};
ghost use Rattle.std.specs.Result.{is_err};
ghost use Rattle.octet_ports.specs.Ports.{Sink, Gives, Holds, Takes, TakesFirst, HasPassedAll, EndsWithin};
ghost use Rattle.voice_script.specs.Asks.{IsReady};
ghost use Rattle.voice_script.specs.Widths.{octet_count};
ghost use Rattle.voice_script.specs.Replies.{reply_text};
ghost use Rattle.voice_script.specs.ReplyViews.{reply_of};
ghost use Rattle.script_server.specs.Runs.{Writes, NothingPassed, OneFailed, Ready, FailsWithin, InAscendingOrder};
ghost use Rattle.script_server.specs.LineRuns.{AllReadyIn, AllReadyOut, AnyFailedIn, AnyFailedOut, FeedIsCut, FeedIsServed, InputSteps, LineIsCut, LineIsServed, LineIsUnfed, NothingWritten, OutputSteps, OverLine};

use crate::serving::PortsFault;
use host_map::Map;
use ialg::{Params, Refusal, Words};
use octet_ports::{PortFault, PortIn, PortOut, read_octets, write_octets};
use voice_script::{
    Ask, BLOCK_OCTETS, FeedSamples, LINE_OCTETS, LineMachine, Reply, ReplyText, line_of,
};

/// Room for the words of a line, for a map and for words that are told of, and the buffers of replies and feeds. To make them clears
/// thousands of octets, so a run has one of each.
#[derive(Drop)]
pub(crate) struct Desk {
    pub(crate) parameters: Params,
    pub(crate) map: Map,
    pub(crate) words: Words,
    pub(crate) buffers: Buffers,
}

/// Room for a reply's line, and for the octets of a feed, those that are read and then those that are given.
#[derive(Drop)]
pub(crate) struct Buffers {
    pub(crate) text: ReplyText,
    pub(crate) block: [u8; BLOCK_OCTETS],
}

/// Reads from the input of this number.
fn read_from<I: PortIn>(
    inputs: &mut Vec<I>,
    channel: usize,
    octets: &mut [u8],
) -> Result<bool, PortFault>
    requires there { channel < length inputs.old.items }
    requires ready { AllReadyIn I.source inputs.old }
    ensures filled { result ≡ Ok true → InputSteps I.source (Gives octets.new) channel inputs.old inputs.new }
    ensures short { result ≡ Ok false → InputSteps I.source (EndsWithin (length octets.old)) channel inputs.old inputs.new }
    ensures count { length inputs.new.items ≡ length inputs.old.items }
    ensures ready { IsOk result → AllReadyIn I.source inputs.new }
    ensures fault { is_err result ≡ true → InputSteps I.source (FailsWithin (length octets.old)) channel inputs.old inputs.new }
    ensures failed { is_err result ≡ true → AnyFailedIn I.source inputs.new }
{
    read_octets(&mut inputs[channel], octets)
}

/// Writes to the output of this number.
fn write_to<O: PortOut>(
    outputs: &mut Vec<O>,
    channel: usize,
    octets: &[u8],
) -> Result<(), PortFault>
    requires there { channel < length outputs.old.items }
    requires ready { AllReadyOut O.sink outputs.old }
    ensures ok { IsOk result → OutputSteps O.sink (Takes octets.now) channel outputs.old outputs.new }
    ensures fault { is_err result ≡ true → OutputSteps O.sink (TakesFirst octets.now) channel outputs.old outputs.new }
    ensures count { length outputs.new.items ≡ length outputs.old.items }
    ensures ready { IsOk result → AllReadyOut O.sink outputs.new }
    ensures failed { is_err result ≡ true → AnyFailedOut O.sink outputs.new }
{
    write_octets(&mut outputs[channel], octets)
}

/// Writes the reply.
fn tell<P: PortOut>(
    replies: &mut P,
    reply: &Reply<'_>,
    text: &mut ReplyText,
) -> Result<(), PortsFault>
    requires { (P.sink replies.old).failed ≡ false }
    ensures ok { IsOk result → Takes (reply_text (reply_of reply.now)) (P.sink replies.old) (P.sink replies.new) }
    ensures fault { is_err result ≡ true → TakesFirst (reply_text (reply_of reply.now)) (P.sink replies.old) (P.sink replies.new) }
    ensures failed { (P.sink replies.new).failed ≡ is_err result }
    ensures write { is_err result ≡ true → IsErrOf result PortsFault.Write }
{
    if write_octets(replies, line_of(reply, text)).is_err() {
        return Err(PortsFault::Write);
    }
    Ok(())
}

/// Serves a feed of a channel that is ready: reads its samples, writes what the channel gives, then the reply. It answers
/// whether it was refused.
fn serve_feed<T: LineMachine, I: PortIn, O: PortOut, P: PortOut>(
    machine: &mut T,
    channel: u8,
    samples: FeedSamples,
    buffers: &mut Buffers,
    inputs: &mut Vec<I>,
    outputs: &mut Vec<O>,
    replies: &mut P,
) -> Result<bool, PortsFault>
    requires channel { IsReady T.takes_feeds T.channels machine.old channel }
    requires one { length inputs.old.items ≡ T.channels machine.old }
    requires pairs { length outputs.old.items ≡ T.channels machine.old }
    requires ready { Ready I.source O.sink P.sink inputs.old outputs.old replies.old }
    ensures widths { T.widths machine.new ≡ T.widths machine.old }
    ensures inputs { IsOk result → length inputs.new.items ≡ T.channels machine.new }
    ensures outputs { IsOk result → length outputs.new.items ≡ T.channels machine.new }
    ensures ready { IsOk result → Ready I.source O.sink P.sink inputs.new outputs.new replies.new }
    ensures read { IsErrOf result PortsFault.Read → AnyFailedIn I.source inputs.new }
    ensures write { IsErrOf result PortsFault.Write → OneFailed O.sink P.sink outputs.new replies.new }
    ensures waits { NothingPassed O.sink P.sink outputs.old outputs.new replies.old replies.new }
    ensures served { OverLine I.source O.sink P.sink (FeedIsServed T.machine (T.widths machine.old) (T.refines machine.old) (T.refines machine.new)
        channel samples.number result)
        inputs.old inputs.new outputs.old outputs.new replies.old replies.new }
    ensures cut { OverLine I.source O.sink P.sink (FeedIsCut T.machine (T.widths machine.old) (T.refines machine.old) channel samples.number result)
        inputs.old inputs.new outputs.old outputs.new replies.old replies.new }
    ensures unread { IsErrOf result PortsFault.Read
        → InputSteps I.source (FailsWithin (octet_count ((T.widths machine.old).input channel) samples.number)) channel inputs.old inputs.new }
    ensures unfed { IsErrOf result PortsFault.Read
        → OverLine I.source O.sink P.sink NothingWritten inputs.old inputs.new outputs.old outputs.new replies.old replies.new }
{
    let c = usize::from(channel);
    let octets = machine
        .input_width(channel)
        .octets_of(usize::from(samples.number()));
    let output_width = machine.output_width(channel);
    let whole = match read_from(inputs, c, &mut buffers.block[..octets]) {
        Ok(whole) => whole,
        Err(_) => return Err(PortsFault::Read),
    };
    if !whole {
        return match tell(replies, &Reply::No(Refusal::Short), &mut buffers.text) {
            Ok(()) => Ok(true),
            Err(fault) => Err(fault),
        };
    }
    let count = machine.feed(channel, samples, &mut buffers.block);
    if write_to(outputs, c, &buffers.block[..output_width.octets_of(count)]).is_err() {
        return Err(PortsFault::Write);
    }
    let told = tell(replies, &Reply::Count(count as u32), &mut buffers.text);
    match told {
        Ok(()) => Ok(false),
        Err(fault) => Err(fault),
    }
}

/// Serves a line, and answers whether it was refused.
pub(crate) fn serve_line<T: LineMachine, I: PortIn, O: PortOut, P: PortOut>(
    machine: &mut T,
    line: &[u8],
    long: bool,
    desk: &mut Desk,
    inputs: &mut Vec<I>,
    outputs: &mut Vec<O>,
    replies: &mut P,
) -> Result<bool, PortsFault>
    requires short { length line.now ≤ LINE_OCTETS }
    requires one { length inputs.old.items ≡ T.channels machine.old }
    requires pairs { length outputs.old.items ≡ T.channels machine.old }
    requires ready { Ready I.source O.sink P.sink inputs.old outputs.old replies.old }
    ensures widths { T.widths machine.new ≡ T.widths machine.old }
    ensures inputs { IsOk result → length inputs.new.items ≡ T.channels machine.new }
    ensures outputs { IsOk result → length outputs.new.items ≡ T.channels machine.new }
    ensures ready { IsOk result → Ready I.source O.sink P.sink inputs.new outputs.new replies.new }
    ensures read { IsErrOf result PortsFault.Read → AnyFailedIn I.source inputs.new }
    ensures write { IsErrOf result PortsFault.Write → OneFailed O.sink P.sink outputs.new replies.new }
    ensures waits { NothingPassed O.sink P.sink outputs.old outputs.new replies.old replies.new }
    ensures served { OverLine I.source O.sink P.sink (LineIsServed T.machine (T.widths machine.old) (T.refines machine.old) (T.refines machine.new)
        line.now long result)
        inputs.old inputs.new outputs.old outputs.new replies.old replies.new }
    ensures cut { OverLine I.source O.sink P.sink (LineIsCut T.machine (T.widths machine.old) (T.refines machine.old) line.now long result)
        inputs.old inputs.new outputs.old outputs.new replies.old replies.new }
    ensures unfed { OverLine I.source O.sink P.sink (LineIsUnfed T.machine (T.widths machine.old) (T.refines machine.old) line.now long result)
        inputs.old inputs.new outputs.old outputs.new replies.old replies.new }
{
    if long {
        return match tell(replies, &Reply::No(Refusal::Long), &mut desk.buffers.text) {
            Ok(()) => Ok(true),
            Err(fault) => Err(fault),
        };
    }
    match machine.ask(line, &mut desk.parameters, &mut desk.map, &mut desk.words) {
        Ask::Nothing => Ok(false),
        Ask::Tell(reply) => {
            let refused = reply.is_refusal();
            match tell(replies, &reply, &mut desk.buffers.text) {
                Ok(()) => Ok(refused),
                Err(fault) => Err(fault),
            }
        }
        Ask::Feed { channel, samples } => {
            serve_feed(
                machine,
                channel,
                samples,
                &mut desk.buffers,
                inputs,
                outputs,
                replies,
            )
        }
    }
}

/// Passes on what the output of this number holds back.
fn flush_at<O: PortOut>(outputs: &mut Vec<O>, channel: usize) -> Result<(), PortFault>
    requires there { channel < length outputs.old.items }
    requires ready { AllReadyOut O.sink outputs.old }
    ensures holds { OutputSteps O.sink (Holds []) channel outputs.old outputs.new }
    ensures passed { IsOk result → OutputSteps O.sink (λ _ new. HasPassedAll new) channel outputs.old outputs.new }
    ensures count { length outputs.new.items ≡ length outputs.old.items }
    ensures ready { IsOk result → AllReadyOut O.sink outputs.new }
    ensures failed { is_err result ≡ true → AnyFailedOut O.sink outputs.new }
{
    outputs[channel].flush()
}

/// Passes on what the outputs hold back, in ascending number.
pub(crate) fn flush_outputs<O: PortOut>(outputs: &mut Vec<O>) -> Result<(), PortFault>
    requires ready { AllReadyOut O.sink outputs.old }
    ensures holds { (replies : Sink) → Writes [] (map O.sink outputs.old.items) (map O.sink outputs.new.items) replies replies }
    ensures passed { IsOk result → All HasPassedAll (map O.sink outputs.new.items) }
    ensures order { InAscendingOrder (map O.sink outputs.old.items) (map O.sink outputs.new.items) }
    ensures ready { IsOk result → AllReadyOut O.sink outputs.new }
    ensures failed { is_err result ≡ true → AnyFailedOut O.sink outputs.new }
{
    for channel in 0..outputs.len() {
        if flush_at(outputs, channel).is_err() {
            return Err(PortFault);
        }
    }
    Ok(())
}
