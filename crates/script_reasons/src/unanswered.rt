//! The lines of a script that were read and not answered yet.
use arrayvec::ArrayVec;
use voice_script::LINE_OCTETS;

/// The most octets of a line that are kept: one more than a line of a script may have.
const KEPT_OCTETS: usize = LINE_OCTETS + 1;

/// Room for what is read ahead of a script behind an unfinished line.
const ROOM: usize = 8192;

const LINE_FEED: u8 = b'\n';

/// A line of a script: its number, from 1, and what is kept of its octets, its line feed not among them.
#[derive(Clone, Copy, PartialEq, Eq, Debug)]
pub struct Line<'a> {
    pub number: u64,
    pub octets: &'a [u8],
}

/// The lines that were read and not answered yet. Whoever serves the script asks for more only where no whole line is left that isn't
/// answered, so that at most an unfinished line is left then.
#[derive(Drop)]
pub struct Unanswered {
    octets: ArrayVec<u8, ROOM>,
    /// Where the first line that isn't answered begins.
    start: usize,
    /// The number of that line, from 1.
    number: u64,
    /// How many octets of the last line, the unfinished one, are kept.
    last: usize,
}

/// Whether a line gets no reply: one carriage return at its end is no blank.
fn is_blank(line: &[u8]) -> bool {
    if line.len() >= KEPT_OCTETS {
        return false;
    }
    let words = match line.split_last() {
        Some((b'\r', words)) => words,
        _ => line,
    };
    words.iter().all(|octet| *octet == b' ' || *octet == b'\t')
}

impl Unanswered {
    /// Nothing was read yet.
    pub fn new() -> Self {
        Unanswered {
            octets: ArrayVec::new(),
            start: 0,
            number: 1,
            last: 0,
        }
    }

    /// Lets go of the whole lines: what isn't answered of them is blank.
    fn forget_whole_lines(&mut self) {
        let held = self.octets.len();
        let start = held - self.last.min(held);
        let first = self.start.min(start);
        let mut ended: u64 = 0;
        for octet in &self.octets.as_slice()[first..start] {
            if *octet == LINE_FEED {
                ended = ended.saturating_add(1);
            }
        }
        let mut rest: ArrayVec<u8, ROOM> = ArrayVec::new();
        let _fits = rest.try_extend_from_slice(&self.octets.as_slice()[start..]);
        self.octets = rest;
        self.start = 0;
        self.number = self.number.saturating_add(ended);
    }

    /// Takes octets of the script that were read.
    pub fn read(&mut self, octets: &[u8]) {
        self.forget_whole_lines();
        for octet in octets {
            if *octet == LINE_FEED {
                self.last = 0;
                let _fits = self.octets.try_push(LINE_FEED);
            } else if self.last < KEPT_OCTETS {
                self.last += 1;
                let _fits = self.octets.try_push(*octet);
            }
        }
    }

    /// The next line that gets a reply, if one is left: it counts as answered then.
    pub fn next(&mut self) -> Option<Line<'_>> {
        for _ in 0..ROOM {
            let (start, number) = (self.start, self.number);
            let rest = self.octets.as_slice().get(start..).unwrap_or(&[]);
            if rest.is_empty() {
                return None;
            }
            let end = rest.iter().position(|octet| *octet == LINE_FEED);
            let count = end.unwrap_or(rest.len());
            let is_passed_over = is_blank(rest.get(..count).unwrap_or(&[]));
            self.start = start.saturating_add(count).saturating_add(1);
            self.number = number.saturating_add(1);
            if !is_passed_over {
                let line = self.octets.as_slice().get(start..).unwrap_or(&[]);
                let octets = line.get(..count).unwrap_or(&[]);
                return Some(Line { number, octets });
            }
        }
        None
    }
}
