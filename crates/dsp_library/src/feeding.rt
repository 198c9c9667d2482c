//! Blocks of samples.
ghost use Rattle.std.specs.Prelude.{◌≡◌, ◌≢◌, ◌≤◌, [], ◌∷◌, length, take, drop};
ghost use Rattle.ialg.specs.declared.TheConstants.{BLOCK_SAMPLES};
ghost use Rattle.dsp_library.specs.declared.TheConstants.{DONE};
ghost use Rattle.channel_spec.specs.Calls.Call.{Ready};
ghost use Rattle.dsp_library.specs.Calls.{IsHandle, CanBeFed, FeedEnds, RefusesClosed, RefusesUnless, Takes, TakesFeed};

use crate::codes::code;
use crate::handle::Handle;
use crate::machine::Machine;
use crate::{BAD_LENGTH, CLOSED, DONE, MARK};
use ialg::BLOCK_SAMPLES;
use std::alloc::Global;
use std::slice;

/// Writes the samples to the first places.
pub(crate) fn write_first(samples: &[i16], out: &mut [i16])
    requires room { length samples.now ≤ length out.old }
    ensures given { take (length samples.now) out.new ≡ samples.now }
    ensures rest { drop (length samples.now) out.new ≡ drop (length samples.now) out.old }
{
    match samples {
        // one sample needs no call that copies
        [sample] => out[0] = *sample,
        _ => out[..samples.len()].copy_from_slice(samples),
    }
}

/// Whether a channel can be fed: `DONE`, or as [`rokdaum_proved_feed`] would refuse.
#[unsafe(no_mangle)]
pub extern "C" fn rokdaum_proved_ready(alloc: Global, handle: &mut Handle, channel: u8) -> i32
    requires handle { IsHandle handle.old }
    ensures handle { IsHandle handle.new }
    ensures mark { handle.new.mark ≡ handle.old.mark }
    ensures closed { RefusesClosed handle.old handle.new result }
    ensures machine { Takes handle.old handle.new result (Ready channel) }
{
    if handle.mark != MARK {
        return CLOSED;
    }
    let machine = handle.take(alloc);
    let answer = machine.channels.ready(channel);
    handle.put(machine);
    code(&answer)
}

/// Gives a block of 1 to 1,024 samples to a channel, and writes what the channel gives: no more samples than it got, from the first place
/// of `out` on, and their count.
#[unsafe(no_mangle)]
pub extern "C" fn rokdaum_proved_feed(
    alloc: Global,
    handle: &mut Handle,
    channel: u8,
    input: &[i16],
    out: &mut [i16],
    count: &mut u32,
) -> i32
    requires handle { IsHandle handle.old }
    ensures handle { IsHandle handle.new }
    ensures mark { handle.new.mark ≡ handle.old.mark }
    ensures refused { result ≢ DONE → (out.new ≡ out.old) × (count.new ≡ count.old) }
    ensures closed { RefusesClosed handle.old handle.new result }
    ensures length { RefusesUnless handle.old handle.new result (CanBeFed input.now out.old) }
    ensures machine { TakesFeed handle.old handle.new result channel input.now out.old out.new count.new }
{
    if handle.mark != MARK {
        return CLOSED;
    }
    if input.is_empty() || input.len() > BLOCK_SAMPLES || out.len() < input.len() {
        return BAD_LENGTH;
    }
    let mut machine = handle.take(alloc);
    let answer = feed(&mut machine, channel, input, out, count);
    handle.put(machine);
    answer
}

/// Gives one sample to a channel, and writes what the channel gives, one sample or none, and their count: as [`rokdaum_proved_feed`] does
/// with a block of one. It is a call of its own, since a sample is passed with fewer instructions than a block.
#[unsafe(no_mangle)]
pub extern "C" fn rokdaum_proved_feed_sample(
    alloc: Global,
    handle: &mut Handle,
    channel: u8,
    sample: i16,
    out: &mut i16,
    count: &mut u32,
) -> i32
    requires handle { IsHandle handle.old }
    ensures handle { IsHandle handle.new }
    ensures mark { handle.new.mark ≡ handle.old.mark }
    ensures refused { result ≢ DONE → (out.new ≡ out.old) × (count.new ≡ count.old) }
    ensures closed { RefusesClosed handle.old handle.new result }
    ensures machine { TakesFeed handle.old handle.new result channel (sample ∷ []) (out.old ∷ []) (out.new ∷ []) count.new }
{
    if handle.mark != MARK {
        return CLOSED;
    }
    let mut machine = handle.take(alloc);
    let answer = feed_sample(&mut machine, channel, sample, out, count);
    handle.put(machine);
    answer
}

/// Gives one sample to a channel. One that tells what it gives has no block to fill.
#[inline(always)]
fn feed_sample(
    machine: &mut Machine,
    channel: u8,
    sample: i16,
    out: &mut i16,
    count: &mut u32,
) -> i32
    ensures refused { result ≢ DONE → (out.new ≡ out.old) × (count.new ≡ count.old) }
    ensures ends { FeedEnds channel (sample ∷ []) machine.old machine.new result (out.old ∷ []) (out.new ∷ []) count.new }
{
    if let Err(why) = machine.channels.ready(channel) {
        return code::<()>(&Err(why));
    }
    match machine
        .channels
        .feed_sample(channel, sample, &mut machine.given)
    {
        Some(told) => {
            *out = told;
            *count = 1;
            DONE
        }
        None => {
            let given = machine.given.as_slice();
            write_first(given, slice::from_mut(out));
            *count = given.len() as u32;
            DONE
        }
    }
}

/// Feeds a channel, and says how many samples it gives; as many of them as fit are written to `out`.
#[inline(always)]
fn feed(machine: &mut Machine, channel: u8, input: &[i16], out: &mut [i16], count: &mut u32) -> i32
    requires some { 1 ≤ length input.now }
    requires within { length input.now ≤ BLOCK_SAMPLES }
    requires room { length input.now ≤ length out.old }
    ensures refused { result ≢ DONE → (out.new ≡ out.old) × (count.new ≡ count.old) }
    ensures ends { FeedEnds channel input.now machine.old machine.new result out.old out.new count.new }
{
    if let Err(refusal) = machine.channels.ready(channel) {
        return code::<()>(&Err(refusal));
    }
    machine.channels.feed(channel, input, &mut machine.given);
    write_first(machine.given.as_slice(), out);
    *count = machine.given.len() as u32;
    DONE
}
