//! How the spaces are asked for.
ghost use Rattle.std.specs.Prelude.{◌≡◌, [], IfOk, IfErr, IsErrOf};
ghost use Rattle.host_map.specs.MemoryMap.{AreSizes};

use crate::blocks::SpaceBlocks;
use host_map::Sizes;
use relocate::is_space_size;
use space_heap::HeapError;
use std::alloc::{Allocator, Global};
use thiserror::Error;

/// Why the spaces aren't made. Nothing is held then.
#[derive(Clone, Copy, PartialEq, Eq, Debug, Error)]
pub enum StartError {
    /// The size of a space isn't a multiple of 4 up to 65,536.
    #[error("a space is 0 to 65536 words, a multiple of 4")]
    BadSize,
    /// A request for memory was refused.
    #[error("out of memory")]
    Memory,
}

/// Three spaces without blocks, of the allocator `A`, the system's by default. They can't be copied, and must be given back by `close`.
pub struct EmptySpaces<A: Allocator = Global> {
    pub(crate) sizes: Sizes,
    pub(crate) daram: SpaceBlocks<A>,
    pub(crate) saram: SpaceBlocks<A>,
    pub(crate) external: SpaceBlocks<A>,
    ghost daram_empty: { (daram.region.size ≡ sizes.daram) × (daram.slid ≡ 0) × (daram.blocks ≡ []) },
    ghost saram_empty: { (saram.region.size ≡ sizes.saram) × (saram.slid ≡ 0) × (saram.blocks ≡ []) },
    ghost external_empty: { (external.region.size ≡ sizes.external) × (external.slid ≡ 0) × (external.blocks ≡ []) },
}

/// What it means to a host that a space isn't made.
fn start_error(refusal: HeapError) -> StartError
    ensures bad_size { refusal ≡ HeapError.BadSize → result ≡ StartError.BadSize }
    ensures memory { refusal ≡ HeapError.Memory → result ≡ StartError.Memory }
{
    match refusal {
        HeapError::BadSize => StartError::BadSize,
        HeapError::Memory => StartError::Memory,
    }
}

impl<A: Allocator + Copy> EmptySpaces<A> {
    /// Spaces of these sizes. Each asks for memory once.
    pub fn new(alloc: A, sizes: Sizes) -> Result<EmptySpaces<A>, StartError>
        ensures bad_size { ¬ AreSizes sizes → IsErrOf result StartError.BadSize }
        ensures memory { AreSizes sizes → IfErr result (λ e. e ≡ StartError.Memory) }
        ensures spaces { IfOk result (λ s. s.sizes ≡ sizes) }
    {
        if !is_space_size(sizes.daram)
            || !is_space_size(sizes.saram)
            || !is_space_size(sizes.external)
        {
            return Err(StartError::BadSize);
        }
        let daram = SpaceBlocks::new(alloc, sizes.daram).map_err(start_error)?;
        let saram = match SpaceBlocks::new(alloc, sizes.saram) {
            Ok(saram) => saram,
            Err(refusal) => {
                daram.close();
                return Err(start_error(refusal));
            }
        };
        match SpaceBlocks::new(alloc, sizes.external) {
            Ok(external) => Ok(EmptySpaces {
                sizes,
                daram,
                saram,
                external,
            }),
            Err(refusal) => {
                saram.close();
                daram.close();
                Err(start_error(refusal))
            }
        }
    }
}

impl<A: Allocator> EmptySpaces<A> {
    /// The spaces go back to the allocator.
    pub fn close(self) {
        let EmptySpaces {
            sizes: _,
            daram,
            saram,
            external,
        } = self;
        daram.close();
        saram.close();
        external.close();
    }
}
