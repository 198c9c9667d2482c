//! A call of a host, with its answer.

use ialg::{Block, Ctl, Params, Refusal, Status};
use mem_rec::Space;

/// A call of a host, and what was answered to it.
#[derive(Drop)]
pub enum Request<M> {
    /// A new instance.
    Create {
        instance: u8,
        kind: M,
        group: u8,
        parameters: Params,
        answer: Result<(), Refusal>,
    },
    /// A control of an instance.
    Control {
        instance: u8,
        control: Ctl,
        answer: Result<Status, Refusal>,
    },
    /// A block of samples for an instance, and what it gives. `None` where no instance has the number, and where the block is empty:
    /// then nothing is called.
    Process {
        instance: u8,
        input: Block,
        output: Option<Block>,
    },
    /// The end of an instance.
    Delete {
        instance: u8,
        answer: Result<(), Refusal>,
    },
    /// The active member of a group is put to rest.
    Release {
        group: u8,
        answer: Result<bool, Refusal>,
    },
    /// One move in a space.
    Step {
        space: Space,
        answer: bool,
    },
    /// All moves in a space.
    Compact {
        space: Space,
        answer: u32,
    },
}
