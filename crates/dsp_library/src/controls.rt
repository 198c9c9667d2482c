//! Controls.
ghost use Rattle.std.specs.Prelude.{◌≡◌, ◌≢◌, ◌≤◌, length, IfOk};
ghost use Rattle.ialg.specs.History.Ctl.{Reset};
ghost use Rattle.ialg.specs.Views.{answer_of};
ghost use Rattle.ialg.specs.declared.TheConstants.{PARAMETER_WORDS};
ghost use Rattle.channel_spec.specs.Calls.Call.{OfHost};
ghost use Rattle.host_spec.specs.Calls.Call.{Control};
ghost use Rattle.dsp_library.specs.declared.TheConstants.{DONE};
ghost use Rattle.dsp_library.specs.Calls.{IsHandle, AreTold, FitsParameters, HoldsParameters, RefusesClosed, RefusesUnless, Takes, TakesGet, TakesSet};
ghost use Rattle.dsp_library.specs.Codes.{code_of};

use crate::codes::code;
use crate::feeding::write_first;
use crate::handle::Handle;
use crate::{BAD_LENGTH, CLOSED, DONE, MARK};
use ialg::{Ctl, PARAMETER_WORDS, Refusal, Status, copied};
use std::alloc::Global;

/// Puts these words of instance `i` into force.
#[unsafe(no_mangle)]
pub extern "C" fn rokdaum_proved_set(
    alloc: Global,
    handle: &mut Handle,
    i: u8,
    words: &[i16],
) -> i32
    requires handle { IsHandle handle.old }
    ensures handle { IsHandle handle.new }
    ensures mark { handle.new.mark ≡ handle.old.mark }
    ensures closed { RefusesClosed handle.old handle.new result }
    ensures length { RefusesUnless handle.old handle.new result (FitsParameters words.now) }
    ensures machine { TakesSet handle.old handle.new result i words.now }
{
    if handle.mark != MARK {
        return CLOSED;
    }
    if words.len() > PARAMETER_WORDS {
        return BAD_LENGTH;
    }
    let control = Ctl::Set(copied(words));
    let mut machine = handle.take(alloc);
    let answer = machine.channels.control(i, &control);
    handle.put(machine);
    code(&answer)
}

/// Makes instance `i` forget its past samples.
#[unsafe(no_mangle)]
pub extern "C" fn rokdaum_proved_reset(alloc: Global, handle: &mut Handle, i: u8) -> i32
    requires handle { IsHandle handle.old }
    ensures handle { IsHandle handle.new }
    ensures mark { handle.new.mark ≡ handle.old.mark }
    ensures closed { RefusesClosed handle.old handle.new result }
    ensures machine { Takes handle.old handle.new result (λ answer. OfHost (Control i Reset answer)) }
{
    if handle.mark != MARK {
        return CLOSED;
    }
    let mut machine = handle.take(alloc);
    let answer = machine.channels.control(i, &Ctl::Reset);
    handle.put(machine);
    code(&answer)
}

/// Writes the words that instance `i` answers to `get` from the first place of `words` on, and their count. There is room for 72 words.
#[unsafe(no_mangle)]
pub extern "C" fn rokdaum_proved_get(
    alloc: Global,
    handle: &mut Handle,
    i: u8,
    words: &mut [i16],
    count: &mut u32,
) -> i32
    requires handle { IsHandle handle.old }
    ensures handle { IsHandle handle.new }
    ensures mark { handle.new.mark ≡ handle.old.mark }
    ensures refused { result ≢ DONE → (words.new ≡ words.old) × (count.new ≡ count.old) }
    ensures closed { RefusesClosed handle.old handle.new result }
    ensures length { RefusesUnless handle.old handle.new result (HoldsParameters words.old) }
    ensures machine { TakesGet handle.old handle.new result i words.old words.new count.new }
{
    if handle.mark != MARK {
        return CLOSED;
    }
    if words.len() < PARAMETER_WORDS {
        return BAD_LENGTH;
    }
    let mut machine = handle.take(alloc);
    let answer = machine.channels.control(i, &Ctl::Get);
    handle.put(machine);
    tell_words(answer, words, count)
}

/// Writes the words of a status, and their count.
fn tell_words(answer: Result<Status, Refusal>, words: &mut [i16], count: &mut u32) -> i32
    requires room { PARAMETER_WORDS ≤ length words.old }
    ensures refused { result ≢ DONE → (words.new ≡ words.old) × (count.new ≡ count.old) }
    ensures code { result ≡ code_of answer }
    ensures told { IfOk answer (λ status. AreTold (answer_of status) words.old words.new count.new) }
{
    match answer {
        Ok(Status::Done) => {
            *count = 0;
            DONE
        }
        Ok(Status::Words(told)) => {
            write_first(told.as_slice(), words);
            *count = told.len() as u32;
            DONE
        }
        Err(refusal) => i32::from(refusal.number()),
    }
}
