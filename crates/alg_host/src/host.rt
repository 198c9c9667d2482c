//! The host: how it is made.
ghost use Rattle.std.specs.Prelude.{◌≡◌, ℕ, false, IfOk, IfErr, IsErrOf};
ghost use Rattle.host_map.specs.MemoryMap.{AreSizes};
ghost use Rattle.host_spec.specs.State.{new_state};
ghost use Rattle.alg_host.specs.Hosts.{HostRefines, lives};

use host_instances::HostMemory;
use host_map::Sizes;
use host_spaces::{Spaces, StartError};
use host_table::Tables;
use ialg::Ialg;
use std::alloc::Global;
use std::marker::Model;

/// A host of instances of the kinds `M`. It can't be copied, and must be given back by [`close`](Host::close).
pub struct Host<M> {
    pub(crate) tables: Tables<M>,
    pub(crate) spaces: Spaces,
    pub(crate) poison: Option<i16>,
}

impl<M> Model for Host<M> {
    ghost use Rattle.alg_host.specs.Hosts.{HostState, IsHost};

    ghost Value = { HostState M };

    ghost view = { λ h. record { tables = h.tables; spaces = h.spaces; poison = h.poison } };

    ghost invariant = { λ h. IsHost (record { tables = h.tables; spaces = h.spaces; poison = h.poison }) };
}

impl<M: Ialg> Host<M> {
    /// A host without instances over three spaces of these sizes, in words of 16 bits: in a new [`HostMemory`], and no later call asks for
    /// memory. Where there is a poison word, each block holds it when it is placed, and a group's blocks hold it wherever no member is
    /// active.
    ///
    /// # Errors
    ///
    /// `BadSize` where a size isn't a multiple of 4 up to 65,536, and otherwise `Memory` where a request for memory was refused. Nothing
    /// is held then.
    pub fn new(alloc: Global, sizes: Sizes, poison: Option<i16>) -> Result<Host<M>, StartError>
        ensures bad_size { ¬ AreSizes sizes → IsErrOf result StartError.BadSize }
        ensures memory { AreSizes sizes → IfErr result (λ e. e ≡ StartError.Memory) }
        ensures empty { IfOk result (λ h. (i : ℕ) → lives h i ≡ false) }
        ensures host { IfOk result (λ h. HostRefines M.law h (new_state sizes poison)) }
    {
        let memory = HostMemory::new(alloc, sizes)?;
        Ok(Host::in_memory(memory, poison))
    }

    /// A host without instances in this memory, which it asked for before. Where there is a poison word, each block holds it when it is
    /// placed, and a group's blocks hold it wherever no member is active.
    pub fn in_memory(memory: HostMemory<M>, poison: Option<i16>) -> Host<M>
        ensures empty { (i : ℕ) → lives result i ≡ false }
        ensures host { HostRefines M.law result (new_state memory.spaces.sizes poison) }
    {
        let (tables, spaces) = memory.open();
        Host {
            tables,
            spaces,
            poison,
        }
    }
}
