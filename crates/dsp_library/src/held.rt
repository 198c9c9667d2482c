//! A machine on the heap, or none, as C holds it: by a pointer.
ghost use Rattle.std.specs.Prelude.{◌≡◌, true, Option, Some, None, is_some};
ghost use denote.RawPtr.{null_ptr};
ghost use Rattle.dsp_library.specs.declared.machine.Machine.{Machine as Value};
ghost use Rattle.dsp_library.specs.Held.{machine_coded, held_owns};

mod apart;

use crate::machine::Machine;
use apart::Apart;
use std::alloc::Global;
use std::marker::Model;
use std::ptr::null_mut;

// A pointer. It owns nothing.
#[derive(Drop)]
struct Base {
    at: *mut u8,
}

/// An address at which nothing stands.
fn nowhere() -> Base
    ensures { result.at ≡ null_ptr }
{
    Base { at: null_mut() }
}

/// It owns the machine, if there is one.
#[repr(C)]
#[derive(Drop)]
pub struct Held {
    at: *mut u8,
    alloc: Global,
    pub ghost machine: { Option Value } by { machine_coded },
}

impl Model for Held {
    ghost also_owns = { λ h. held_owns h.alloc h.at h.machine };
}

impl Held {
    /// What is held, of its two parts.
    fn join(parts: Apart<Machine>) -> Held
        ensures { result.machine ≡ Some parts.value }
    {
        let Apart { at, alloc } = parts;
        Held {
            at: at as *mut u8,
            alloc,
        }
    }

    /// What is held at this address.
    fn at_base(base: Base, alloc: Global) -> Held
        requires { base.at ≡ null_ptr }
        ensures { result.machine ≡ None }
    {
        Held { at: base.at, alloc }
    }

    /// It owns this machine.
    pub fn of(machine: Box<Machine>) -> Held
        ensures { result.machine ≡ Some machine.value }
    {
        Held::join(Apart::of(machine))
    }

    /// It owns no machine.
    pub fn nothing(alloc: Global) -> Held
        ensures { result.machine ≡ None }
    {
        Held::at_base(nowhere(), alloc)
    }

    /// The machine is taken out.
    pub fn into_box(self) -> Box<Machine>
        requires { is_some self.machine ≡ true }
        ensures { self.machine ≡ Some result.value }
    {
        let Held { at, alloc } = self;
        unsafe { Box::from_raw(alloc, at as *mut Machine) }
    }
}
