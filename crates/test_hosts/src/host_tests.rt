//! Hosts of trial kinds, by numbers.

use crate::host_calls::Call::{
    Compact, Copied, Create, Delete, Living, Map, Process, Release, Stat, Step,
};
use crate::host_calls::make;
use host_map::{Owner, Placed, Sizes};
use ialg::Refusal;
use mem_rec::Space;
use test_doubles::{Or, SCRIBBLER, Trial};
use voice_set::Voice;

const FIR: Trial = Trial {
    kind: Or::First(Voice::Fir),
};

// The mean of a sample and the one before it.
const MEAN: [i16; 2] = [16_384, 16_384];

const AMPLE: Sizes = Sizes {
    daram: 4_096,
    saram: 1_024,
    external: 1_024,
};

#[test]
fn a_block_is_replaced_for_its_alignment_alone(rt: HostRuntime) {
    let calls = [
        Create(0, SCRIBBLER, 0, &[0, 100, 4], Ok(())),
        Process(0, &[7, 8], &[7, 8]),
        Map(
            Space::Daram,
            &[Placed {
                owner: Owner::Scratch(0),
                place: 0,
                size: 100,
                align: 4,
            }],
        ),
        Create(1, SCRIBBLER, 0, &[0, 100, 64], Ok(())),
        Map(
            Space::Daram,
            &[Placed {
                owner: Owner::Scratch(0),
                place: 128,
                size: 100,
                align: 64,
            }],
        ),
        Stat(0, Ok((None, 1))),
        Compact(Space::Daram, 1),
        Map(
            Space::Daram,
            &[Placed {
                owner: Owner::Scratch(0),
                place: 0,
                size: 100,
                align: 64,
            }],
        ),
        Copied(100),
    ];
    make(&rt, rt.alloc(), AMPLE, None, &calls);
}

#[test]
fn a_first_block_deactivates_nobody(rt: HostRuntime) {
    let calls = [
        Create(0, FIR, 3, &MEAN, Ok(())),
        Process(0, &[2], &[1]),
        Create(1, SCRIBBLER, 3, &[1, 60, 16], Ok(())),
        Stat(3, Ok((Some(0), 1))),
        Process(0, &[4], &[3]),
        // a first block in one space beside a replaced one in another
        Create(2, SCRIBBLER, 3, &[0, 1_032, 4, 2, 12, 4], Ok(())),
        Stat(3, Ok((None, 1))),
        Map(
            Space::Daram,
            &[Placed {
                owner: Owner::Scratch(3),
                place: 1_040,
                size: 1_032,
                align: 16,
            }],
        ),
        Process(2, &[-1], &[-1]),
        Process(0, &[6], &[5]),
        Stat(3, Ok((Some(0), 3))),
    ];
    make(&rt, rt.alloc(), AMPLE, None, &calls);
}

/// A filter beside a kind that writes over all that it may, in hosts of three poison words and of none.
#[test]
fn a_scribbler_spoils_no_neighbour(rt: HostRuntime) {
    let calls = [
        Create(0, FIR, 0, &MEAN, Ok(())),
        Create(1, SCRIBBLER, 0, &[0, 1_028, 16], Ok(())),
        Process(0, &[2], &[1]),
        Process(1, &[10], &[10]),
        Process(0, &[4], &[3]),
        Process(1, &[20, -20], &[20, -20]),
        Stat(0, Ok((Some(1), 4))),
        Delete(1, Ok(())),
        Stat(0, Ok((None, 4))),
        Create(1, SCRIBBLER, 0, &[0, 1_300, 16], Ok(())),
        Process(1, &[30], &[30]),
        Compact(Space::Daram, 1),
        Release(0, Ok(true)),
        Process(0, &[6], &[5]),
    ];
    for poison in [None, Some(0), Some(21_845), Some(-1)] {
        make(&rt, rt.alloc(), AMPLE, poison, &calls);
    }
}

#[test]
fn refusals_come_in_their_order(rt: HostRuntime) {
    let sizes = Sizes {
        daram: 1_028,
        saram: 64,
        external: 64,
    };
    let calls = [
        Create(63, FIR, 0, &MEAN, Ok(())),
        Create(64, FIR, 0, &[], Err(Refusal::Range)),
        Create(63, FIR, 0, &[], Err(Refusal::Taken)),
        Create(0, FIR, 0, &[], Err(Refusal::Params)),
        Create(
            0,
            SCRIBBLER,
            0,
            &[0, 1_032, 4],
            Err(Refusal::Room(Space::Daram)),
        ),
        Create(0, SCRIBBLER, 0, &[0, 1_032, 3], Err(Refusal::Params)),
        Delete(64, Err(Refusal::Range)),
        Delete(0, Err(Refusal::Missing)),
        Living(63, true),
        Living(0, false),
        Release(8, Err(Refusal::Range)),
        Stat(8, Err(Refusal::Range)),
        Stat(0, Ok((None, 0))),
    ];
    make(&rt, rt.alloc(), sizes, Some(5), &calls);
}
