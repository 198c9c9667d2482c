//! Runs over devices that fail, and how runs end.
use crate::engine::FULL;
use crate::ports::NEVER;
use crate::shaky::{HELD_OCTETS, Shaky};
use arrayvec::ArrayVec;
use dsp_console::{Config, Fault, Summary, outcome, run};
use octet_ports::{PortIn, PortOut, Reading, Writing};
use std::alloc::{AllocError, Global};
use std::process::Abort;
use std::test::Fail;
use voice_set::Voice;

/// The calls of the four devices that fail, each counted from 0.
#[derive(Clone, Copy)]
struct Fuses {
    script: u64,
    input: u64,
    output: u64,
    replies: u64,
}

const UNBROKEN: Fuses = Fuses {
    script: NEVER,
    input: NEVER,
    output: NEVER,
    replies: NEVER,
};

/// What a run answers, and what it wrote.
#[derive(Drop)]
struct Wanted<'a> {
    answer: Result<Summary, Fault>,
    output: &'a [u8],
    replies: &'a [u8],
}

/// A script with refused lines before and behind its feed, what it reads, and what it writes.
const SCRIPT: &[u8] = b"create 0 fir 0 16384\nflute\nchain 0 0\nfeed 0 2\nfeed 0 9\n";

const INPUT: &[u8] = b"\x01\x00\xff\xff";

const OUTPUT: &[u8] = b"\x01\x00\x00\x00";

const REPLIES: &[u8] = b"ok\nno 2 syntax\nok\nok 2\nno 10 short\n";

/// What a run of that script is to answer and to write: so many octets of the output and of the replies.
fn wanted_first<R: Abort>(
    rt: &R,
    answer: Result<Summary, Fault>,
    outputs: usize,
    replies: usize,
) -> Wanted<'static> {
    assert!(rt; outputs <= OUTPUT.len() && replies <= REPLIES.len());
    Wanted {
        answer,
        output: &OUTPUT[..outputs],
        replies: &REPLIES[..replies],
    }
}

#[test]
fn ends_runs(rt: HostRuntime) {
    let cases = [
        (Ok(Summary { refused: 0 }), 0, ""),
        (Ok(Summary { refused: 1 }), 1, ""),
        (Ok(Summary { refused: u64::MAX }), 1, ""),
        (
            Err(Fault::Size),
            2,
            "dsp_console: a space is 0 to 65536 words, a multiple of 4",
        ),
        (Err(Fault::Read), 3, "dsp_console: read failed"),
        (Err(Fault::Write), 4, "dsp_console: write failed"),
        (Err(Fault::Memory), 5, "dsp_console: out of memory"),
    ];
    for (answer, status, line) in cases {
        let (given_status, given_line) = outcome(&answer);
        assert!(rt; given_status == status);
        assert!(rt; given_line == line);
    }
}

/// What is seen of a run over shaky devices: the script's, the input's, the output's and the replies'.
#[derive(Drop)]
struct Seen {
    answer: Result<Summary, Fault>,
    failed: (bool, bool, bool, bool),
    written: ArrayVec<u8, HELD_OCTETS>,
    told: ArrayVec<u8, HELD_OCTETS>,
    /// How often the output and the replies were flushed, and how much they held at the last time.
    flushes: (u32, u32),
    flushed: (u64, u64),
}

/// Runs that script over shaky devices, each with its fuse.
fn run_shaky(alloc: Global, fuses: Fuses) -> Result<Option<Seen>, AllocError> {
    let mut script = Reading::new(Shaky::new(SCRIPT, 1, fuses.script));
    let mut inputs = vec![in alloc; Reading::new(Shaky::new(INPUT, 1, fuses.input))]?;
    let mut outputs = vec![in alloc; Writing::new(Shaky::new(b"", 1, fuses.output))]?;
    let mut replies = Writing::new(Shaky::new(b"", 1, fuses.replies));
    let config = Config {
        sizes: FULL,
        poison: None,
        in8: 0,
        out8: 0,
    };
    let answer = run::<Voice, _, _, _, _>(
        alloc,
        config,
        &mut script,
        &mut inputs,
        &mut outputs,
        &mut replies,
    );
    let (Some(input), Some(output)) = (inputs.pop(), outputs.pop()) else {
        return Ok(None);
    };
    let failed = (
        script.failed(),
        input.failed(),
        output.failed(),
        replies.failed(),
    );
    let (output, replies) = (output.into_inner(), replies.into_inner());
    Ok(Some(Seen {
        answer,
        failed,
        written: output.held,
        told: replies.held,
        flushes: (output.flushes, replies.flushes),
        flushed: (output.flushed, replies.flushed),
    }))
}

/// Compares such a run. The device whose fuse broke stays failed, and no other.
fn compare_shaky<R: Abort + AllocGlobal>(
    rt: &R,
    fuses: Fuses,
    wanted: &Wanted<'_>,
) -> Result<(), Fail> {
    let seen = run_shaky(rt.alloc(), fuses)?;
    assert!(rt; seen.is_some());
    let Some(seen) = seen else {
        return Ok(());
    };
    let broken = (
        fuses.script < NEVER,
        fuses.input < NEVER,
        fuses.output < NEVER,
        fuses.replies < NEVER,
    );
    assert!(rt; seen.answer == wanted.answer);
    assert!(rt; seen.failed == broken);
    assert!(rt; seen.written.as_slice() == wanted.output);
    assert!(rt; seen.told.as_slice() == wanted.replies);
    if seen.answer.is_ok() {
        assert!(rt; seen.flushes == (1, 1));
        let all = (wanted.output.len() as u64, wanted.replies.len() as u64);
        assert!(rt; seen.flushed == all);
    } else {
        assert!(rt; seen.flushes.1 == 0);
    }
    Ok(())
}

#[test]
fn a_device_that_fails_stays_failed(rt: HostRuntime) -> Result<(), Fail> {
    let all = Ok(Summary { refused: 2 });
    compare_shaky(&rt, UNBROKEN, &wanted_first(&rt, all, 4, 35))?;
    let (read, write) = (Err(Fault::Read), Err(Fault::Write));
    for (script, outputs, replies) in [(0, 0, 0), (30, 0, 15), (54, 4, 23)] {
        let fuses = Fuses { script, ..UNBROKEN };
        compare_shaky(&rt, fuses, &wanted_first(&rt, read, outputs, replies))?;
    }
    for (input, outputs, replies) in [(0, 0, 18), (3, 0, 18), (4, 4, 23)] {
        let fuses = Fuses { input, ..UNBROKEN };
        compare_shaky(&rt, fuses, &wanted_first(&rt, read, outputs, replies))?;
    }
    for (output, outputs, replies) in [(0, 0, 18), (3, 3, 18), (4, 4, 35)] {
        let fuses = Fuses { output, ..UNBROKEN };
        compare_shaky(&rt, fuses, &wanted_first(&rt, write, outputs, replies))?;
    }
    for (replies, outputs) in [(0, 0), (17, 0), (20, 4), (35, 4)] {
        let fuses = Fuses {
            replies,
            ..UNBROKEN
        };
        let wanted = wanted_first(&rt, write, outputs, replies as usize);
        compare_shaky(&rt, fuses, &wanted)?;
    }
    Ok(())
}
