//! Lines that come in whatever pieces, up to the limit, over two buffers and past one.
use crate::ports::NEVER;
use arrayvec::ArrayVec;
use octet_ports::{BUFFER_OCTETS, LINE_FEED, LineFault, LineReader, PortIn, ReadLine, TapeIn};
use std::process::Abort;

/// A script: how many of its octets a call gives at most, the call that fails, and how many octets of it may come.
#[derive(Clone, Copy)]
struct Script<'a> {
    octets: &'a [u8],
    step: u32,
    fuse: u64,
    most: u32,
}

/// How a line of at most four octets comes.
#[derive(Clone, Copy)]
enum Line {
    /// A line feed ends it.
    Whole(&'static [u8]),
    /// It has too many octets.
    Long,
    /// The script's end ends it.
    Last(&'static [u8]),
    Fails(LineFault),
}

impl Line {
    /// Whether a line was read so. The text of a long one isn't kept.
    fn is(self, answer: Result<ReadLine, LineFault>, text: &[u8]) -> bool {
        let of_line = |long, last| answer == Ok(ReadLine { long, last });
        match self {
            Line::Whole(octets) => of_line(false, false) && text == octets,
            Line::Long => of_line(true, false),
            Line::Last(octets) => of_line(false, true) && text == octets,
            Line::Fails(fault) => answer == Err(fault),
        }
    }
}

/// Whether the script's lines come so, one after the other.
fn come(script: Script<'_>, lines: &[Line]) -> bool {
    if script.step == 0 {
        return false;
    }
    let mut tape = TapeIn::new(script.octets, script.step, script.fuse);
    let mut reader = LineReader::new(script.most);
    let mut text: ArrayVec<u8, 4> = ArrayVec::new();
    for line in lines {
        if tape.failed() {
            return false;
        }
        text.clear();
        let answer = reader.read_line(&mut tape, &mut text);
        if !line.is(answer, text.as_slice()) {
            return false;
        }
    }
    true
}

#[test]
fn lines_come_in_whatever_pieces(rt: HostRuntime) {
    let lines = [
        Line::Whole(b"full"),
        Line::Long,
        Line::Whole(b""),
        Line::Last(b"rest"),
    ];
    for step in 1..=17 {
        let script = Script {
            octets: b"full\nlonger\n\nrest",
            step,
            fuse: NEVER,
            most: 17,
        };
        assert!(rt; come(script, &lines));
    }
}

/// One octet more than may come is asked for, and tells that there are more.
#[test]
fn lines_within_the_limit_come_first(rt: HostRuntime) {
    let lines = [
        Line::Whole(b"full"),
        Line::Long,
        Line::Fails(LineFault::Limit),
    ];
    for step in [1, 5, 4096] {
        for most in 12..=16 {
            let script = Script {
                octets: b"full\nlonger\nrested",
                step,
                fuse: NEVER,
                most,
            };
            assert!(rt; come(script, &lines));
        }
    }
}

/// The second call of the tape fails: it is made only once the lines of the first have come.
#[test]
fn lines_that_are_ahead_come_before_the_script_is_asked(rt: HostRuntime) {
    let script = Script {
        octets: b"full\nrest\nx",
        step: 4096,
        fuse: 1,
        most: 100,
    };
    let lines = [
        Line::Whole(b"full"),
        Line::Whole(b"rest"),
        Line::Fails(LineFault::Port),
    ];
    assert!(rt; come(script, &lines));
}

/// As many line feeds as leave two octets of the buffer to the line behind them.
const FEEDS: usize = BUFFER_OCTETS - 2;

#[test]
fn a_line_spans_two_buffers(rt: HostRuntime) {
    let mut octets = [LINE_FEED; FEEDS + 6];
    octets[FEEDS..FEEDS + 4].copy_from_slice(b"wxyz");
    let script = Script {
        octets: &octets,
        step: 4096,
        fuse: NEVER,
        most: 5000,
    };
    let mut lines = [Line::Whole(b""); FEEDS + 1];
    lines[FEEDS] = Line::Whole(b"wxyz");
    assert!(rt; come(script, &lines));
}

#[test]
fn a_line_is_longer_than_the_buffer(rt: HostRuntime) {
    let mut octets = [b'x'; BUFFER_OCTETS + 3];
    octets[BUFFER_OCTETS] = LINE_FEED;
    let script = Script {
        octets: &octets,
        step: 4096,
        fuse: NEVER,
        most: 5000,
    };
    assert!(rt; come(script, &[Line::Long, Line::Last(b"xx")]));
}
