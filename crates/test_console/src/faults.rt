//! Each call of each device fails in turn: the ports together hold the first octets of what the script writes. The script comes in pieces:
//! they hold all of it.
use crate::ports::NEVER;
use crate::scripts::{A_SLIDE, BY_TURNS, ONE_FEED, PORTS, Port, REFUSED_LINES, Row};
use dsp_console::{Config, Fault, Summary, run};
use octet_ports::{TapeIn, TapeOut};
use std::process::Abort;
use std::test::Fail;
use voice_set::Voice;

/// More octets than a tape is asked for at a time.
const WIDE: u32 = 4096;

/// More calls than any port is used by.
const MOST_CALLS: u64 = 400;

/// The call of a port that fails, counted from 0.
#[derive(Clone, Copy)]
struct Broken {
    port: Port,
    call: u64,
}

impl Broken {
    /// How many calls of this port go well.
    fn fuse(self, port: Port) -> u64 {
        if self.port == port { self.call } else { NEVER }
    }
}

/// No port breaks.
const UNBROKEN: Broken = Broken {
    port: Port::Script,
    call: NEVER,
};

/// What the ports that are written hold and hasn't been found in the order yet.
#[derive(Clone, Copy)]
struct Held<'a> {
    first: &'a [u8],
    second: &'a [u8],
    replies: &'a [u8],
}

impl<'a> Held<'a> {
    /// Without the first octet of this port, if it is that one.
    fn without(self, port: Port, octet: u8) -> Option<Held<'a>> {
        match port {
            Port::FirstOutput => Some(Held {
                first: self.first.strip_prefix(&[octet])?,
                ..self
            }),
            Port::SecondOutput => Some(Held {
                second: self.second.strip_prefix(&[octet])?,
                ..self
            }),
            _ => Some(Held {
                replies: self.replies.strip_prefix(&[octet])?,
                ..self
            }),
        }
    }

    /// Whether nothing was written.
    fn is_empty(self) -> bool {
        self.first.is_empty() && self.second.is_empty() && self.replies.is_empty()
    }
}

/// What is held without the octets that a port is written at one place of the order, and whether all of these are held.
fn without_all<'a>(held: Held<'a>, port: Port, octets: &[u8]) -> (Held<'a>, bool) {
    let mut held = held;
    for octet in octets {
        match held.without(port, *octet) {
            Some(less) => held = less,
            None => return (held, false),
        }
    }
    (held, true)
}

/// Whether the ports together hold the first octets of these, and nothing else.
fn are_first(written: &[(Port, &[u8])], held: Held<'_>) -> bool {
    let mut held = held;
    for (port, octets) in written {
        let (less, all) = without_all(held, *port, octets);
        held = less;
        if !all {
            return held.is_empty();
        }
    }
    held.is_empty()
}

/// Whether the ports together hold all of these octets, and nothing else.
fn are_all(written: &[(Port, &[u8])], held: Held<'_>) -> bool {
    let mut held = held;
    for (port, octets) in written {
        let (less, all) = without_all(held, *port, octets);
        held = less;
        if !all {
            return false;
        }
    }
    held.is_empty()
}

/// How a run ended, and what it has written.
#[derive(Drop)]
struct Ran {
    ended: Result<Summary, Fault>,
    first: TapeOut,
    second: TapeOut,
    replies: TapeOut,
}

impl Ran {
    /// What a run wrote.
    fn held(&self) -> Held<'_> {
        Held {
            first: self.first.held(),
            second: self.second.held(),
            replies: self.replies.held(),
        }
    }
}

/// Runs the script over tapes of which one breaks. So many octets are given a call of the script, and at most so many are given or taken a
/// call of the other ports.
fn run_over<R: Abort + AllocGlobal>(
    rt: &R,
    row: &Row,
    script_step: u32,
    step: u32,
    broken: Broken,
) -> Result<Ran, Fail> {
    assert!(rt; 0 < step && 0 < script_step);
    let mut script = TapeIn::new(row.script, script_step, broken.fuse(Port::Script));
    let [first, second] = row.inputs;
    let mut inputs = vec![in rt.alloc();
        TapeIn::new(first, step, broken.fuse(Port::FirstInput)),
        TapeIn::new(second, step, broken.fuse(Port::SecondInput)),
    ]?;
    let mut outputs = vec![in rt.alloc();
        TapeOut::new(step, broken.fuse(Port::FirstOutput)),
        TapeOut::new(step, broken.fuse(Port::SecondOutput)),
    ]?;
    let mut replies = TapeOut::new(step, broken.fuse(Port::Replies));
    let config = Config {
        sizes: row.sizes,
        poison: Some(-1),
        in8: 0,
        out8: 0,
    };
    let ended = run::<Voice, _, _, _, _>(
        rt.alloc(),
        config,
        &mut script,
        &mut inputs,
        &mut outputs,
        &mut replies,
    );
    let (Some(second), Some(first)) = (outputs.pop(), outputs.pop()) else {
        return Err("a run has lost an output".into());
    };
    Ok(Ran {
        ended,
        first,
        second,
        replies,
    })
}

/// Breaks each call of the port in turn: the run ends with the fault, until it has no such call.
fn each_call_breaks<R: Abort + AllocGlobal>(
    rt: &R,
    row: &Row,
    step: u32,
    port: Port,
) -> Result<(), Fail> {
    for call in 0..MOST_CALLS {
        let ran = run_over(rt, row, step, step, Broken { port, call })?;
        if ran.ended == Ok(row.summary) {
            assert!(rt; call > 0 && are_all(row.written, ran.held()));
            return Ok(());
        }
        // After a fault no reply is passed on.
        let faulted = ran.ended == Err(port.fault()) && ran.replies.passed() == 0;
        assert!(rt; faulted && are_first(row.written, ran.held()));
    }
    Err("a port is used without end".into())
}

/// Breaks each call of each port, by calls of one octet and by wide calls.
fn every_call_breaks<R: Abort + AllocGlobal>(rt: &R, row: &Row) -> Result<(), Fail> {
    for step in [1, WIDE] {
        for port in PORTS {
            each_call_breaks(rt, row, step, port)?;
        }
    }
    Ok(())
}

#[test]
fn members_by_turns_over_ports_that_break(rt: HostRuntime) -> Result<(), Fail> {
    every_call_breaks(&rt, &BY_TURNS)
}

#[test]
fn refused_lines_over_ports_that_break(rt: HostRuntime) -> Result<(), Fail> {
    every_call_breaks(&rt, &REFUSED_LINES)
}

#[test]
fn a_slide_over_ports_that_break(rt: HostRuntime) -> Result<(), Fail> {
    every_call_breaks(&rt, &A_SLIDE)
}

/// How many lines the bytes have.
fn line_feeds(octets: &[u8]) -> usize {
    octets.iter().filter(|octet| **octet == b'\n').count()
}

/// Each call gives one octet, and the one behind them tells the end: a line is answered where its end came before the call that fails, and
/// only there.
#[test]
fn what_came_before_a_failed_read_is_answered(rt: HostRuntime) -> Result<(), Fail> {
    let script = BY_TURNS.script;
    for call in 0..=script.len() {
        let broken = Broken {
            port: Port::Script,
            call: call as u64,
        };
        let ran = run_over(&rt, &BY_TURNS, 1, 1, broken)?;
        let held = ran.held();
        assert!(rt; ran.ended == Err(Fault::Read) && are_first(BY_TURNS.written, held));
        assert!(rt; line_feeds(held.replies) == line_feeds(&script[..call]));
    }
    Ok(())
}

/// One call gives all of it, a second one tells that it has ended, and there is no third.
#[test]
fn a_short_script_takes_two_calls(rt: HostRuntime) -> Result<(), Fail> {
    let third = Broken {
        port: Port::Script,
        call: 2,
    };
    let ran = run_over(&rt, &ONE_FEED, WIDE, WIDE, third)?;
    assert!(rt; ran.ended == Ok(ONE_FEED.summary) && are_all(ONE_FEED.written, ran.held()));
    Ok(())
}

/// Runs the script, of which so many octets are given a call: all is written. The other ports give and take whatever they are asked for,
/// and none breaks.
fn writes_all<R: Abort + AllocGlobal>(rt: &R, row: &Row, script_step: u32) -> Result<(), Fail> {
    let ran = run_over(rt, row, script_step, WIDE, UNBROKEN)?;
    let ended_well = ran.ended == Ok(row.summary);
    assert!(rt; ended_well && are_all(row.written, ran.held()));
    Ok(())
}

/// Runs the script at once and in pieces: each run writes the same.
fn pieces_change_nothing<R: Abort + AllocGlobal>(rt: &R, row: &Row) -> Result<(), Fail> {
    for step in 1..=40 {
        writes_all(rt, row, step)?;
    }
    writes_all(rt, row, WIDE)
}

#[test]
fn the_pieces_of_a_script_change_no_octet(rt: HostRuntime) -> Result<(), Fail> {
    pieces_change_nothing(&rt, &BY_TURNS)?;
    pieces_change_nothing(&rt, &A_SLIDE)?;
    pieces_change_nothing(&rt, &REFUSED_LINES)
}
