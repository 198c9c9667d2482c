//! The calls that pass no samples.
ghost use Rattle.std.specs.Prelude.{◌≡◌, ◌≢◌, length};
ghost use Rattle.channel_spec.specs.Calls.Call.{Unchain, Remove};
ghost use Rattle.dsp_library.specs.Calls.{IsHandle, FitsChannel, RefusesClosed, RefusesKind, RefusesParameters, RefusesUnless, Takes, TakesChain, TakesCreation};
ghost use Rattle.dsp_library.specs.Codes.{room_code};

use crate::codes::{code, kind_by, tell_space};
use crate::handle::Handle;
use crate::{BAD_KIND, BAD_LENGTH, CLOSED, MARK};
use ialg::{PARAMETER_WORDS, copied};
use std::alloc::Global;
use voice_channel::MEMBERS;

/// Creates instance `i` of the kind of this number in the group, by these parameters. Where a space has no room, its number is written to
/// `full`, and nowhere else is it written.
#[unsafe(no_mangle)]
pub extern "C" fn rokdaum_proved_create(
    alloc: Global,
    handle: &mut Handle,
    i: u8,
    kind: u32,
    group: u8,
    parameters: &[i16],
    full: &mut u32,
) -> i32
    requires handle { IsHandle handle.old }
    ensures handle { IsHandle handle.new }
    ensures mark { handle.new.mark ≡ handle.old.mark }
    ensures refused { result ≢ room_code → full.new ≡ full.old }
    ensures closed { RefusesClosed handle.old handle.new result }
    ensures kind { RefusesKind handle.old handle.new result kind }
    ensures length { RefusesParameters handle.old handle.new result kind parameters.now }
    ensures machine { TakesCreation handle.old handle.new result i kind group parameters.now full.old full.new }
{
    if handle.mark != MARK {
        return CLOSED;
    }
    let Some(kind) = kind_by(kind) else {
        return BAD_KIND;
    };
    if parameters.len() > PARAMETER_WORDS {
        return BAD_LENGTH;
    }
    let parameters = copied(parameters);
    let mut machine = handle.take(alloc);
    let answer = machine.channels.create(i, kind, group, &parameters);
    handle.put(machine);
    tell_space(answer, full);
    code(&answer)
}

/// Gives a channel members: instances that live, each in no other channel.
#[unsafe(no_mangle)]
pub extern "C" fn rokdaum_proved_chain(
    alloc: Global,
    handle: &mut Handle,
    channel: u8,
    members: &[u8],
) -> i32
    requires handle { IsHandle handle.old }
    ensures handle { IsHandle handle.new }
    ensures mark { handle.new.mark ≡ handle.old.mark }
    ensures closed { RefusesClosed handle.old handle.new result }
    ensures length { RefusesUnless handle.old handle.new result (FitsChannel members.now) }
    ensures machine { TakesChain handle.old handle.new result channel members.now }
{
    if handle.mark != MARK {
        return CLOSED;
    }
    if members.is_empty() || members.len() > MEMBERS {
        return BAD_LENGTH;
    }
    let mut machine = handle.take(alloc);
    let answer = machine.channels.chain(channel, members);
    handle.put(machine);
    code(&answer)
}

/// Takes its members from a channel. They live on.
#[unsafe(no_mangle)]
pub extern "C" fn rokdaum_proved_unchain(alloc: Global, handle: &mut Handle, channel: u8) -> i32
    requires handle { IsHandle handle.old }
    ensures handle { IsHandle handle.new }
    ensures mark { handle.new.mark ≡ handle.old.mark }
    ensures closed { RefusesClosed handle.old handle.new result }
    ensures machine { Takes handle.old handle.new result (Unchain channel) }
{
    if handle.mark != MARK {
        return CLOSED;
    }
    let mut machine = handle.take(alloc);
    let answer = machine.channels.unchain(channel);
    handle.put(machine);
    code(&answer)
}

/// Deletes instance `i`, which is in no channel.
#[unsafe(no_mangle)]
pub extern "C" fn rokdaum_proved_delete(alloc: Global, handle: &mut Handle, i: u8) -> i32
    requires handle { IsHandle handle.old }
    ensures handle { IsHandle handle.new }
    ensures mark { handle.new.mark ≡ handle.old.mark }
    ensures closed { RefusesClosed handle.old handle.new result }
    ensures machine { Takes handle.old handle.new result (Remove i) }
{
    if handle.mark != MARK {
        return CLOSED;
    }
    let mut machine = handle.take(alloc);
    let answer = machine.channels.delete(i);
    handle.put(machine);
    code(&answer)
}
