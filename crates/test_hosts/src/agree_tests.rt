//! Two hosts in which a filter is given the same: of other sizes and poison words, under another number, in another group, beside a kind
//! that keeps no law, with moves, and with its samples cut otherwise.

use alg_host::{Host, Request, make_both};
use host_map::Sizes;
use ialg::{BLOCK_SAMPLES, Block, Ctl, PARAMETER_WORDS, Refusal, Status, copied};
use mem_rec::Space;
use std::process::Abort;
use test_doubles::{Or, SCRIBBLER, Trial};
use voice_set::Voice;

const FIR: Trial = Trial {
    kind: Or::First(Voice::Fir),
};

/// A host of these sizes.
fn sizes(daram: u32, saram: u32, external: u32) -> Sizes {
    Sizes {
        daram,
        saram,
        external,
    }
}

/// A creation.
fn create(rt: &impl Abort, instance: u8, kind: Trial, group: u8, p: &[i16]) -> Request<Trial> {
    assert!(rt; p.len() <= PARAMETER_WORDS);
    Request::Create {
        instance,
        kind,
        group,
        parameters: copied(p),
        answer: Err(Refusal::Range),
    }
}

/// A control.
fn control(instance: u8, control: Ctl) -> Request<Trial> {
    Request::Control {
        instance,
        control,
        answer: Err(Refusal::Range),
    }
}

/// A block of samples.
fn process(rt: &impl Abort, instance: u8, samples: &[i16]) -> Request<Trial> {
    assert!(rt; samples.len() <= BLOCK_SAMPLES);
    let mut input = Block::new();
    input.extend_from_slice(samples);
    Request::Process {
        instance,
        input,
        output: None,
    }
}

/// What the instance gave for the request was this.
fn gave(request: &Request<Trial>, samples: &[i16]) -> bool {
    match request {
        Request::Process {
            output: Some(output),
            ..
        } => output.as_slice() == samples,
        _ => false,
    }
}

/// What it answered to a control.
fn answered(request: &Request<Trial>) -> Option<&Result<Status, Refusal>> {
    match request {
        Request::Control { answer, .. } => Some(answer),
        _ => None,
    }
}

/// The life of a filter that is alone in its host.
fn alone(rt: &impl Abort) -> [Request<Trial>; 5] {
    [
        create(rt, 0, FIR, 0, &[16_384, 16_384]),
        process(rt, 0, &[2, 4, 6]),
        control(0, Ctl::Get),
        control(0, Ctl::Reset),
        process(rt, 0, &[8, 10]),
    ]
}

/// The life of such a filter beside a kind that keeps no law.
fn beside_a_scribbler(rt: &impl Abort) -> [Request<Trial>; 12] {
    [
        create(rt, 7, SCRIBBLER, 3, &[0, 1_028, 16]),
        create(rt, 5, FIR, 3, &[16_384, 16_384]),
        process(rt, 5, &[2]),
        process(rt, 7, &[30, -30]),
        process(rt, 5, &[4, 6]),
        Request::Delete {
            instance: 7,
            answer: Err(Refusal::Range),
        },
        Request::Compact {
            space: Space::Daram,
            answer: 0,
        },
        control(5, Ctl::Get),
        control(5, Ctl::Reset),
        process(rt, 5, &[8]),
        Request::Release {
            group: 3,
            answer: Err(Refusal::Range),
        },
        process(rt, 5, &[10]),
    ]
}

/// Looks at what the filters of the two lives gave.
fn look_at_outputs(rt: &impl Abort, one: &[Request<Trial>; 5], other: &[Request<Trial>; 12]) {
    assert!(rt; gave(&one[1], &[1, 3, 5]) && gave(&one[4], &[4, 9]));
    assert!(rt; gave(&other[2], &[1]) && gave(&other[4], &[3, 5]));
    assert!(rt; gave(&other[9], &[4]) && gave(&other[11], &[9]));
}

/// Looks at what they answered to the controls.
fn look_at_answers(rt: &impl Abort, one: &[Request<Trial>; 5], other: &[Request<Trial>; 12]) {
    let done = Some(&Ok(Status::Done));
    assert!(rt;
        answered(&one[2]) == answered(&other[7])
            && answered(&one[3]) == done
            && answered(&other[8]) == done
    );
}

#[test]
fn lives_that_are_given_the_same_agree(rt: HostRuntime) {
    let mut one = Host::new(rt.alloc(), sizes(4_096, 1_024, 1_024), None).expect(&rt, "memory");
    let mut other = Host::new(rt.alloc(), sizes(4_096, 2_048, 64), Some(-1)).expect(&rt, "memory");
    let mut requests = alone(&rt);
    let mut others = beside_a_scribbler(&rt);
    make_both(&mut one, &mut requests, &mut other, &mut others);
    look_at_outputs(&rt, &requests, &others);
    look_at_answers(&rt, &requests, &others);
    one.close();
    other.close();
}
