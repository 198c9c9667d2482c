// SPDX-License-Identifier: Apache-2.0
//! A test program: a trace over heaps of several sizes. Each line that is read is a step, and for each it prints what the heap shows then.
//! The stored answers are those of a model that was written apart from this code, in another language.
#![tactic(auto)]

mod desk;
mod heaps;
mod step;
mod vector_heap;

use std::io;

fn main(rt: HostRuntime) -> io::Result<()> {
    let mut desk = None;
    let mut outcome = Ok(());
    for line in rt.lines(rt.alloc()) {
        // a line that can't be read, or an answer that can't be printed, ends the run, and the heap is closed all the same
        outcome = match line {
            Ok(line) => match step::parse(line.as_str()) {
                Some(step) => heaps::take_step(&rt, rt.alloc(), &mut desk, step),
                None => println!(rt; "no step"),
            },
            Err(error) => Err(error),
        };
        if outcome.is_err() {
            break;
        }
    }
    heaps::close(desk);
    outcome
}
