//! Steps of a heap. Each prints the block's place, the free words and the words that were moved; at most 64 blocks are held at one time.
//! The line ends in `differs` where the heap's earlier body shows other numbers.

use crate::desk::{Both, Desk};
use crate::step::Step;
use std::alloc::Global;
use std::{io, mem};

/// Prints what the heap gave, and whether the vector of holes gives the same.
fn print(rt: &impl Print, seen: Option<Both>) -> io::Result<()> {
    let Some(Both { heap, vector }) = seen else {
        return println!(rt; "no heap");
    };
    let note = if heap == vector { "" } else { " differs" };
    match heap.place {
        Some(place) => println!(rt; "{place} {} {}{note}", heap.free, heap.slid),
        None => println!(rt; "- {} {}{note}", heap.free, heap.slid),
    }
}

/// The step over an open heap.
fn act(desk: &mut Desk, step: Step) -> Both {
    match step {
        Step::New(_words) => desk.seen(),
        Step::Take(words, align) => desk.take(words, align),
        Step::Give(block) => desk.give(block as usize),
        Step::Lower(block, align) => desk.lower(block as usize, align),
    }
}

/// Closes the heaps, if they are open.
pub fn close(desk: Option<Desk>) {
    match desk {
        Some(desk) => desk.close(),
        None => {}
    }
}

/// Takes a step, and prints what the heap shows then.
pub fn take_step(
    rt: &impl Print,
    alloc: Global,
    desk: &mut Option<Desk>,
    step: Step,
) -> io::Result<()> {
    if let Step::New(words) = step {
        close(mem::replace(desk, Desk::open(alloc, words)));
    }
    let seen = match desk {
        Some(open) => Some(act(open, step)),
        None => None,
    };
    print(rt, seen)
}
