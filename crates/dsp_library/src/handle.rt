//! The handle that a caller keeps, and how it is opened and closed.
ghost use Rattle.std.specs.Prelude.{◌≡◌, ◌≢◌, ◌≤◌, true, Some, None, is_some, IfOk, IfErr, IsErrOf};
ghost use Rattle.host_map.specs.MemoryMap.{AreSizes};
ghost use Rattle.host_spec.specs.State.{new_state};
ghost use Rattle.dsp_library.specs.declared.TheConstants.{DONE, BAD_SIZE, NO_MEMORY, OPEN, MARK};
ghost use Rattle.dsp_library.specs.Calls.{IsHandle, IsOpenedWith, IsShut, LibraryRefines, RefusesClosed};
ghost use Rattle.dsp_library.specs.Codes.{CanBeOpened};
ghost use Rattle.channel_spec.specs.Channels.{unchained};

use crate::held::Held;
use crate::machine::Machine;
use crate::{BAD_SIZE, CLOSED, DONE, MARK, NO_MEMORY, OPEN};
use gateway_kinds::GatewayKind;
use ialg::Block;
use std::alloc::Global;
use std::mem;
use voice_channel::{CHANNELS, Channels, Host, Sizes, StartError};

/// A handle. A caller sets all of it to zero, and then passes it to these functions alone. It can't be copied.
#[repr(C)]
pub struct Handle {
    pub(crate) mark: u64,
    pub(crate) held: Held,
}

impl Handle {
    /// The machine of an open handle is taken out. It has to be put back.
    pub(crate) fn take(&mut self, alloc: Global) -> Box<Machine>
        requires { is_some self.old.held.machine ≡ true }
        ensures machine { self.old.held.machine ≡ Some result.value }
        ensures none { self.new.held.machine ≡ None }
        ensures mark { self.new.mark ≡ self.old.mark }
    {
        mem::replace(&mut self.held, Held::nothing(alloc)).into_box()
    }

    /// The machine is put back.
    pub(crate) fn put(&mut self, machine: Box<Machine>)
        ensures machine { self.new.held.machine ≡ Some machine.value }
        ensures mark { self.new.mark ≡ self.old.mark }
    {
        self.held = Held::of(machine);
    }
}

/// A machine without instances.
fn new_machine(
    alloc: Global,
    sizes: Sizes,
    poison: Option<i16>,
    channels: u8,
) -> Result<Box<Machine>, i32>
    requires least { 1 ≤ channels }
    requires most { channels ≤ CHANNELS }
    ensures size { ¬ AreSizes sizes → IsErrOf result BAD_SIZE }
    ensures memory { AreSizes sizes → IfErr result (λ e. e ≡ NO_MEMORY) }
    ensures refines { IfOk result (λ m. LibraryRefines m.value.channels (unchained (new_state sizes poison) channels)) }
{
    let host: Host<GatewayKind> = match Host::new(alloc, sizes, poison) {
        Ok(host) => host,
        Err(StartError::BadSize) => return Err(BAD_SIZE),
        Err(StartError::Memory) => return Err(NO_MEMORY),
    };
    let channels = Channels::new(host, channels);
    let given = Block::new();
    let machine = Machine { channels, given };
    match Box::new(alloc, machine) {
        Ok(machine) => Ok(machine),
        Err(_refused) => Err(NO_MEMORY),
    }
}

/// What a handle is opened with: so many channels over spaces of so many words each. Where `poisoned` isn't 0, new blocks hold the
/// poison word.
#[repr(C)]
#[derive(Clone, Copy, Drop)]
pub struct Options {
    pub daram: u32,
    pub saram: u32,
    pub external: u32,
    pub channels: u8,
    pub poisoned: u8,
    pub poison: i16,
}

/// Opens a handle: its channels, over a host without instances.
#[unsafe(no_mangle)]
pub extern "C" fn rokdaum_proved_open(alloc: Global, handle: &mut Handle, options: &Options) -> i32
    requires handle { IsHandle handle.old }
    ensures handle { IsHandle handle.new }
    ensures open { handle.old.mark ≡ MARK → result ≡ OPEN }
    ensures size { handle.old.mark ≢ MARK → ¬ CanBeOpened options.now → result ≡ BAD_SIZE }
    ensures memory { handle.old.mark ≢ MARK → CanBeOpened options.now → result ≢ DONE → result ≡ NO_MEMORY }
    ensures refused { result ≢ DONE → handle.new ≡ handle.old }
    ensures opened { result ≡ DONE → IsOpenedWith options.now handle.new }
{
    if handle.mark == MARK {
        return OPEN;
    }
    if options.channels < 1 || usize::from(options.channels) > CHANNELS {
        return BAD_SIZE;
    }
    let sizes = Sizes {
        daram: options.daram,
        saram: options.saram,
        external: options.external,
    };
    let poison = if options.poisoned == 0 {
        None
    } else {
        Some(options.poison)
    };
    match new_machine(alloc, sizes, poison, options.channels) {
        Ok(machine) => {
            handle.put(machine);
            handle.mark = MARK;
            DONE
        }
        Err(code) => code,
    }
}

/// Closes a handle: every instance is deleted, in ascending number, and all memory goes back.
#[unsafe(no_mangle)]
pub extern "C" fn rokdaum_proved_close(alloc: Global, handle: &mut Handle) -> i32
    requires handle { IsHandle handle.old }
    ensures handle { IsHandle handle.new }
    ensures closed { RefusesClosed handle.old handle.new result }
    ensures done { handle.old.mark ≡ MARK → (result ≡ DONE) × IsShut handle.new }
{
    if handle.mark != MARK {
        return CLOSED;
    }
    handle.mark = 0;
    drop(handle.take(alloc));
    DONE
}
