//! The memory of a host: what it asks for.
ghost use Rattle.std.specs.Prelude.{◌≡◌, ℤ, Option, IfOk, IfErr, IsErrOf};
ghost use Rattle.host_map.specs.MemoryMap.{AreSizes};
ghost use Rattle.host_table.specs.Table.{ArePoisoned, NoneLives};
ghost use Rattle.host_table.specs.Steps.{AreConsistent};
ghost use Rattle.host_moves.specs.Standing.{MapAgrees};
ghost use Rattle.host_moves.specs.Hosts.{TablesAndSpacesRefine};
ghost use Rattle.host_spec.specs.State.{new_state};

use host_map::Sizes;
use host_spaces::{EmptySpaces, Spaces, StartError};
use host_table::{EmptyTables, Tables};
use ialg::Ialg;
use std::alloc::{Allocator, Global};

/// The memory of a host without instances, of the allocator `A`, the system's by default: its spaces and its tables. A host asks for it and
/// for no other. It can't be copied, and must be given back by `close`.
pub struct HostMemory<M, A: Allocator = Global> {
    spaces: EmptySpaces<A>,
    tables: EmptyTables<M, A>,
}

impl<M: Ialg, A: Allocator + Copy> HostMemory<M, A> {
    /// The memory of a host with spaces of these sizes: nine requests, two of each space, for its words and its blocks, and one of each
    /// table.
    ///
    /// # Errors
    ///
    /// `BadSize` where a size isn't a multiple of 4 up to 65,536, and otherwise `Memory` where a request was refused. Nothing is held then.
    pub fn new(alloc: A, sizes: Sizes) -> Result<HostMemory<M, A>, StartError>
        ensures bad_size { ¬ AreSizes sizes → IsErrOf result StartError.BadSize }
        ensures memory { AreSizes sizes → IfErr result (λ e. e ≡ StartError.Memory) }
        ensures sizes { IfOk result (λ m. m.spaces.sizes ≡ sizes) }
    {
        let spaces = EmptySpaces::new(alloc, sizes)?;
        match EmptyTables::new(alloc) {
            Ok(tables) => Ok(HostMemory { spaces, tables }),
            Err(_refused) => {
                spaces.close();
                Err(StartError::Memory)
            }
        }
    }
}

impl<M: Ialg, A: Allocator> HostMemory<M, A> {
    /// The memory goes back to the allocator.
    pub fn close(self) {
        let HostMemory { spaces, tables } = self;
        tables.close();
        spaces.close();
    }
}

impl<M: Ialg> HostMemory<M> {
    /// The tables and the spaces of a host in which no instance lives and no block is placed.
    pub fn open(self) -> (Tables<M>, Spaces)
        ensures ok { AreConsistent result.0 }
        ensures standing { MapAgrees result.0 result.1 }
        ensures poisoned { (w : Option ℤ) → ArePoisoned w result.0.groups }
        ensures empty { NoneLives result.0.instances }
        ensures machine { (w : Option ℤ) → TablesAndSpacesRefine M.law result.0 result.1 (new_state self.spaces.sizes w) }
    {
        let HostMemory { spaces, tables } = self;
        let tables = tables.into_tables();
        let spaces = Spaces::of(spaces);
        (tables, spaces)
    }
}
