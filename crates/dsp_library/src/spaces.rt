//! Memory: moves, groups and maps.
ghost use Rattle.std.specs.Prelude.{◌≡◌, ◌≢◌, ◌≤◌, length};
ghost use Rattle.dsp_library.specs.declared.TheConstants.{DONE, CLOSED, MARK};
ghost use Rattle.dsp_library.specs.Calls.{IsHandle, RefusesClosed, RefusesMap, RefusesSpace, TakesCompaction, TakesRelease, TakesStep, TellsCopied, TellsMap, TellsStat};
ghost use Rattle.dsp_library.specs.Codes.{block_of, AreShown, StayBehind};

use crate::codes::space_by;
use crate::handle::Handle;
use crate::{BAD_LENGTH, BAD_SPACE, CLOSED, DONE, MARK};
use host_map::{MAP_BLOCKS, Owner, Placed};
use std::alloc::Global;

/// A block of a map: record `record` of instance `number`, or, where `scratch` isn't 0, the scratch of group `number`.
#[repr(C)]
#[derive(Clone, Copy, Drop)]
pub struct BlockShown {
    pub scratch: u32,
    pub number: u32,
    pub record: u32,
    pub place: u32,
    pub size: u32,
    pub align: u32,
}

/// Moves the first block of the space that can be moved down, and writes 1 where one moved and else 0.
#[unsafe(no_mangle)]
pub extern "C" fn rokdaum_proved_step(
    alloc: Global,
    handle: &mut Handle,
    space: u32,
    moved: &mut u32,
) -> i32
    requires handle { IsHandle handle.old }
    ensures handle { IsHandle handle.new }
    ensures mark { handle.new.mark ≡ handle.old.mark }
    ensures refused { result ≢ DONE → (handle.new ≡ handle.old) × (moved.new ≡ moved.old) }
    ensures closed { handle.old.mark ≢ MARK → result ≡ CLOSED }
    ensures space { RefusesSpace handle.old space result }
    ensures machine { TakesStep handle.old handle.new result space moved.new }
{
    if handle.mark != MARK {
        return CLOSED;
    }
    let Some(space) = space_by(space) else {
        return BAD_SPACE;
    };
    let mut machine = handle.take(alloc);
    let answer = machine.channels.step(space);
    handle.put(machine);
    *moved = u32::from(answer);
    DONE
}

/// Steps until no block of the space moves, and writes how many blocks moved.
#[unsafe(no_mangle)]
pub extern "C" fn rokdaum_proved_compact(
    alloc: Global,
    handle: &mut Handle,
    space: u32,
    moved: &mut u32,
) -> i32
    requires handle { IsHandle handle.old }
    ensures handle { IsHandle handle.new }
    ensures mark { handle.new.mark ≡ handle.old.mark }
    ensures refused { result ≢ DONE → (handle.new ≡ handle.old) × (moved.new ≡ moved.old) }
    ensures closed { handle.old.mark ≢ MARK → result ≡ CLOSED }
    ensures space { RefusesSpace handle.old space result }
    ensures machine { TakesCompaction handle.old handle.new result space moved.new }
{
    if handle.mark != MARK {
        return CLOSED;
    }
    let Some(space) = space_by(space) else {
        return BAD_SPACE;
    };
    let mut machine = handle.take(alloc);
    let answer = machine.channels.compact(space);
    handle.put(machine);
    *moved = answer;
    DONE
}

/// Writes the words that moves have copied.
#[unsafe(no_mangle)]
pub extern "C" fn rokdaum_proved_copied(alloc: Global, handle: &mut Handle, words: &mut u64) -> i32
    requires handle { IsHandle handle.old }
    ensures handle { IsHandle handle.new }
    ensures mark { handle.new.mark ≡ handle.old.mark }
    ensures closed { handle.old.mark ≢ MARK → (result ≡ CLOSED) × (handle.new ≡ handle.old) × (words.new ≡ words.old) }
    ensures machine { TellsCopied handle.old handle.new result words.new }
{
    if handle.mark != MARK {
        return CLOSED;
    }
    let machine = handle.take(alloc);
    *words = machine.channels.copied();
    handle.put(machine);
    DONE
}

/// Deactivates the active member of the group, and writes 1 where there was one and else 0.
#[unsafe(no_mangle)]
pub extern "C" fn rokdaum_proved_release(
    alloc: Global,
    handle: &mut Handle,
    group: u8,
    released: &mut u32,
) -> i32
    requires handle { IsHandle handle.old }
    ensures handle { IsHandle handle.new }
    ensures mark { handle.new.mark ≡ handle.old.mark }
    ensures refused { result ≢ DONE → released.new ≡ released.old }
    ensures closed { RefusesClosed handle.old handle.new result }
    ensures machine { TakesRelease handle.old handle.new result group released.new }
{
    if handle.mark != MARK {
        return CLOSED;
    }
    let mut machine = handle.take(alloc);
    let answer = machine.channels.release(group);
    handle.put(machine);
    match answer {
        Ok(was_active) => {
            *released = u32::from(was_active);
            DONE
        }
        Err(refusal) => i32::from(refusal.number()),
    }
}

/// Writes the number of the group's active member, or -1 where none is active, and how often one was activated.
#[unsafe(no_mangle)]
pub extern "C" fn rokdaum_proved_stat(
    alloc: Global,
    handle: &mut Handle,
    group: u8,
    active: &mut i32,
    activations: &mut u32,
) -> i32
    requires handle { IsHandle handle.old }
    ensures handle { IsHandle handle.new }
    ensures mark { handle.new.mark ≡ handle.old.mark }
    ensures refused { result ≢ DONE → (active.new ≡ active.old) × (activations.new ≡ activations.old) }
    ensures closed { RefusesClosed handle.old handle.new result }
    ensures machine { TellsStat handle.old handle.new result group active.new activations.new }
{
    if handle.mark != MARK {
        return CLOSED;
    }
    let machine = handle.take(alloc);
    let answer = machine.channels.stat(group);
    handle.put(machine);
    match answer {
        Ok(stat) => {
            *active = match stat.active {
                Some(i) => i32::from(i),
                None => -1,
            };
            *activations = stat.activations;
            DONE
        }
        Err(refusal) => i32::from(refusal.number()),
    }
}

/// A block as C sees it.
fn shown(block: &Placed) -> BlockShown
    ensures { result ≡ block_of block.now }
{
    let (scratch, number, record) = match block.owner {
        Owner::Record(i, k) => (0, u32::from(i), u32::from(k)),
        Owner::Scratch(group) => (1, u32::from(group), 0),
    };
    BlockShown {
        scratch,
        number,
        record,
        place: block.place,
        size: block.size,
        align: block.align,
    }
}

/// Writes the blocks to the first places.
fn show(map: &[Placed], blocks: &mut [BlockShown])
    requires { length map.now ≤ length blocks.old }
    ensures shown { AreShown map.now blocks.new }
    ensures rest { StayBehind (length map.now) blocks.old blocks.new }
{
    for k in 0..map.len() {
        blocks[k] = shown(&map[k]);
    }
}

/// Writes the blocks of the space in place order, from the first place of `blocks` on, and their count. There is room for 264 blocks.
#[unsafe(no_mangle)]
pub extern "C" fn rokdaum_proved_map(
    alloc: Global,
    handle: &mut Handle,
    space: u32,
    blocks: &mut [BlockShown],
    count: &mut u32,
) -> i32
    requires handle { IsHandle handle.old }
    ensures handle { IsHandle handle.new }
    ensures mark { handle.new.mark ≡ handle.old.mark }
    ensures refused { result ≢ DONE → (handle.new ≡ handle.old) × (blocks.new ≡ blocks.old) × (count.new ≡ count.old) }
    ensures closed { handle.old.mark ≢ MARK → result ≡ CLOSED }
    ensures space { RefusesSpace handle.old space result }
    ensures length { RefusesMap handle.old space blocks.old result }
    ensures machine { TellsMap handle.old handle.new result space blocks.old blocks.new count.new }
{
    if handle.mark != MARK {
        return CLOSED;
    }
    let Some(space) = space_by(space) else {
        return BAD_SPACE;
    };
    if blocks.len() < MAP_BLOCKS {
        return BAD_LENGTH;
    }
    let machine = handle.take(alloc);
    let map = machine.channels.map(space);
    handle.put(machine);
    show(map.as_slice(), blocks);
    *count = map.len() as u32;
    DONE
}
