//! The lines of a script, which is read ahead.
ghost use Rattle.std.specs.Prelude.{MatchOption, ◌≡◌, ◌+◌, ◌<◌, ◌≤◌, ◌==◌, true, false, [], ◌∷◌, length, Ok, None, All, IfOk, IfErr, IfSome, IsOk};
ghost use Rattle.std.specs.Result.{is_err};
ghost use Rattle.octet_ports.specs.Ports.{Gives};
ghost use Rattle.octet_ports.specs.Lines.{FailsToRead, IsNoFeed, ReadsLine};
ghost use Rattle.octet_ports.specs.declared.reader.TheConstants.{BUFFER_OCTETS};
ghost use Rattle.octet_ports.specs.Readers.{BeginsWith, LineTaken, OctetCame, EndCame, RefusesOctet};

use crate::LINE_FEED;
use crate::port::PortIn;
use arrayvec::ArrayVec;
use memchr::memchr;
use std::marker::Model;

/// How a line was read.
#[derive(Clone, Copy, PartialEq, Eq, Debug)]
pub struct ReadLine {
    /// It has more octets than there is room for: its text isn't kept.
    pub long: bool,
    /// The script's end ended it.
    pub last: bool,
}

/// Why a line wasn't read.
#[derive(Clone, Copy, PartialEq, Eq, Debug)]
pub enum LineFault {
    /// The device failed.
    Port,
    /// The script goes on after its limit.
    Limit,
}

/// The most octets of a script that are asked for at a time.
pub const BUFFER_OCTETS: usize = 4096;

// The limit that a reader is told, said once more: no slip of one passes.
const _: () = prove!(BUFFER_OCTETS == 4 * 1024);

/// Reads a script by lines, over a buffer of its own. What was read of the script and not yet taken by a line is ahead.
#[derive(Drop)]
pub struct LineReader {
    buffer: [u8; BUFFER_OCTETS],
    /// The octets of the buffer from `at` to `end` are ahead.
    at: usize,
    end: usize,
    /// How many octets lines may still have, those that are ahead among them.
    left: u32,
}

impl Model for LineReader {
    ghost use Rattle.octet_ports.specs.Lines.{Ahead, IsWindow, ahead_of};

    ghost Value = { Ahead };

    ghost view = { λ r. ahead_of r.buffer r.at r.end r.left };

    ghost invariant = { λ r. IsWindow r.at r.end r.left };
}

impl LineReader {
    /// Nothing is ahead. The lines of the script may have `most` octets together, with their line feeds.
    pub fn new(most: u32) -> Self
        ensures none { result.octets ≡ [] }
        ensures left { result.left ≡ most }
    {
        LineReader {
            buffer: [0; BUFFER_OCTETS],
            at: 0,
            end: 0,
            left: most,
        }
    }

    /// Reads a line, to its line feed or the script's end. A line of more than `MOST` octets is long. The script is asked only
    /// where no line feed is ahead, and for no octet past the limit but one that tells that there are more. No more than
    /// [`BUFFER_OCTETS`] are ahead then.
    pub fn read_line<S: PortIn, const MOST: usize>(
        &mut self,
        script: &mut S,
        text: &mut ArrayVec<u8, MOST>,
    ) -> Result<ReadLine, LineFault>
        requires ready { (S.source script.old).failed ≡ false }
        requires empty { text.old.items ≡ [] }
        ensures ok { ReadsLine S.source MOST result text.new.items self.old self.new script.old script.new }
        ensures last { IfOk result (λ line. line.last ≡ true → self.new.octets ≡ []) }
        ensures err { FailsToRead S.source result self.old script.old script.new }
        ensures gone { is_err result ≡ true → self.new.octets ≡ [] }
        ensures within { length self.new.octets ≤ self.new.left }
        ensures few { length self.new.octets ≤ BUFFER_OCTETS }
        ensures waits { (¬ All IsNoFeed self.old.octets) → script.new ≡ script.old }
        ensures ready { IsOk result → (S.source script.new).failed ≡ false }
    {
        if self.take_line(text) {
            return Ok(ReadLine {
                long: false,
                last: false,
            });
        }
        self.read_octets_of_line(script, text)
    }

    /// Takes the line whose line feed is ahead, if it is ahead and the text has room for the line: most lines are read so.
    fn take_line<const MOST: usize>(&mut self, text: &mut ArrayVec<u8, MOST>) -> bool
        requires empty { text.old.items ≡ [] }
        ensures taken { result ≡ true → LineTaken MOST text.new.items self.old self.new }
        ensures nothing { result ≡ false → (self.new ≡ self.old) × (text.new ≡ text.old) }
        ensures within { length self.new.octets ≤ self.new.left }
        ensures few { length self.new.octets ≤ BUFFER_OCTETS }
    {
        let Some(line) = first_line(&self.buffer[self.at..self.end]) else {
            return false;
        };
        let count = line.len() + 1;
        if text.try_extend_from_slice(line).is_err() {
            return false;
        }
        self.at += count;
        self.left -= count as u32;
        true
    }

    /// Reads a line as [`read_line`](Self::read_line) does, an octet at a time.
    fn read_octets_of_line<S: PortIn, const MOST: usize>(
        &mut self,
        script: &mut S,
        text: &mut ArrayVec<u8, MOST>,
    ) -> Result<ReadLine, LineFault>
        requires ready { (S.source script.old).failed ≡ false }
        requires empty { text.old.items ≡ [] }
        ensures ok { ReadsLine S.source MOST result text.new.items self.old self.new script.old script.new }
        ensures last { IfOk result (λ line. line.last ≡ true → self.new.octets ≡ []) }
        ensures err { FailsToRead S.source result self.old script.old script.new }
        ensures gone { is_err result ≡ true → self.new.octets ≡ [] }
        ensures within { length self.new.octets ≤ self.new.left }
        ensures few { length self.new.octets ≤ BUFFER_OCTETS }
        ensures waits { (¬ All IsNoFeed self.old.octets) → script.new ≡ script.old }
        ensures ready { IsOk result → (S.source script.new).failed ≡ false }
    {
        let mut long = false;
        'octets: loop {
            let octet = match self.next_octet(script) {
                Ok(Some(octet)) => octet,
                Ok(None) => return Ok(ReadLine { long, last: true }),
                Err(fault) => return Err(fault),
            };
            if octet == LINE_FEED {
                return Ok(ReadLine { long, last: false });
            }
            if text.is_full() {
                long = true;
            } else {
                text.push(octet);
            }
        }
    }

    /// Takes the next octet, or answers None at the script's end.
    #[inline]
    fn next_octet<S: PortIn>(&mut self, script: &mut S) -> Result<Option<u8>, LineFault>
        requires ready { (S.source script.old).failed ≡ false }
        ensures some { IfOk result (λ answer. IfSome answer (λ octet. OctetCame octet self.old self.new (S.source script.old) (S.source script.new))) }
        ensures none { result ≡ Ok None → EndCame self.old self.new (S.source script.old) (S.source script.new) }
        ensures err { IfErr result (λ e. RefusesOctet S.source e self.old self.new script.old script.new) }
        ensures within { length self.new.octets ≤ self.new.left }
        ensures few { length self.new.octets ≤ BUFFER_OCTETS }
        ensures waits { 0 < length self.old.octets → script.new ≡ script.old }
        ensures ready { IsOk result → (S.source script.new).failed ≡ false }
    {
        if self.is_empty() {
            match self.refill(script) {
                Ok(true) => {}
                Ok(false) => return Ok(None),
                Err(fault) => return Err(fault),
            }
        }
        Ok(Some(self.take_one()))
    }

    /// Whether nothing is ahead.
    fn is_empty(&self) -> bool
        ensures { result ≡ (length self.now.octets == 0) }
    {
        self.at == self.end
    }

    /// Takes the first of the octets that are ahead.
    fn take_one(&mut self) -> u8
        requires some { 0 < length self.old.octets }
        ensures front { self.old.octets ≡ result ∷ self.new.octets }
        ensures left { self.old.left ≡ self.new.left + 1 }
        ensures within { length self.new.octets ≤ self.new.left }
        ensures few { length self.new.octets ≤ BUFFER_OCTETS }
    {
        let octet = self.buffer[self.at];
        self.at += 1;
        self.left -= 1;
        octet
    }

    /// Reads some octets of the script where none is ahead, and answers whether there were any.
    fn refill<S: PortIn>(&mut self, script: &mut S) -> Result<bool, LineFault>
        requires ready { (S.source script.old).failed ≡ false }
        requires none { self.old.octets ≡ [] }
        ensures some { result ≡ Ok true → (0 < length self.new.octets) × Gives self.new.octets (S.source script.old) (S.source script.new) }
        ensures left { self.new.left ≡ self.old.left }
        ensures end { result ≡ Ok false → EndCame self.old self.new (S.source script.old) (S.source script.new) }
        ensures err { IfErr result (λ e. RefusesOctet S.source e self.old self.new script.old script.new) }
        ensures ready { IsOk result → (S.source script.new).failed ≡ false }
    {
        // Behind the last octet that lines may have one is asked for that tells whether the script goes on.
        let most = (self.left as usize).max(1).min(BUFFER_OCTETS);
        self.at = 0;
        self.end = 0;
        match script.get(&mut self.buffer[..most]) {
            Err(_) => Err(LineFault::Port),
            Ok(0) => Ok(false),
            Ok(_) if self.left == 0 => Err(LineFault::Limit),
            Ok(count) => {
                self.end = count;
                Ok(true)
            }
        }
    }
}

/// What stands before the first line feed of these octets.
fn first_line(octets: &[u8]) -> Option<&[u8]>
    ensures { MatchOption result (All IsNoFeed octets.now) (λ line. BeginsWith line.now octets.now) }
{
    let end = memchr(LINE_FEED, octets)?;
    Some(&octets[..end])
}
