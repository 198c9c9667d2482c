//! Outputs and replies that are passed on together.
ghost use Rattle.std.specs.Prelude.{◌≡◌, ◌<◌, ◌≤◌, ◌++◌, ◌∷◌, ◌⊎◌, ◌↔◌, [], true, false, length, take, All, IfOk, IsOk, IsTrue};
ghost use Rattle.std.specs.Result.{is_err};
ghost use Rattle.octet_ports.specs.Passing.{EachDoes, EndsLine, Gets, GetsAt, HasNothing, HasRoom, HasRoomAt, LosesNothing, NothingIsLost, PassesOn, TakesAll, WaitsLast, WaitsLastAt};
ghost use Rattle.octet_ports.specs.Marks.{IsMarked, MarksOneMore, Remembers, TellsTruth};
ghost use Rattle.octet_ports.specs.declared.waiting.Waiting.{Waiting};

use crate::marks::{MARKS, Mark, Marks, true_octets};
use crate::waiting::{Waiting, forget_outputs, pass_outputs};
use crate::{LINE_FEED, PortFault};
use std::alloc::{AllocError, Global};
use std::io::Write;

/// When a journal passes on what waits, beside when a buffer is full and at a flush.
#[derive(Clone, Copy, PartialEq, Eq, Debug)]
pub enum Passing {
    /// At no other time.
    WhereFull,
    /// Behind the line of each reply.
    EachLine,
}

/// What waits for the outputs of a run and for its replies. No reply is passed on before the samples that it tells of, and none
/// whose samples an output didn't take. Once a device has failed a journal takes nothing more.
#[derive(Drop)]
pub struct Journal<W, R> {
    outputs: Vec<Waiting<W>>,
    replies: Waiting<R>,
    marks: Marks,
    passing: Passing,
    failed: bool,
}

/// Whether a line's end is the last of these octets.
fn ends_line(octets: &[u8]) -> bool
    ensures { IsTrue result ↔ EndsLine octets.now }
{
    octets.last() == Some(&LINE_FEED)
}

impl<W: Write, R: Write> Journal<W, R> {
    /// Nothing waits, and there is no output yet. Of the marks there are none.
    pub fn new(alloc: Global, marks: Marks, replies: R, passing: Passing) -> Self
        requires none { marks.items ≡ [] }
        ensures none { result.outputs.items ≡ [] }
        ensures nothing { HasNothing result.replies × (result.marks.items ≡ []) }
        ensures replies { result.replies.writer ≡ replies }
        ensures passing { result.passing ≡ passing }
        ensures failed { result.failed ≡ false }
    {
        Journal {
            outputs: Vec::new(alloc),
            replies: Waiting::new(replies),
            marks,
            passing,
            failed: false,
        }
    }

    /// Adds an output behind the others: its number is the count before. Where memory is refused it lets go of the writer, and stays as it
    /// was.
    pub fn push_output(&mut self, writer: W) -> Result<(), AllocError>
    where
        W: Drop,
        ensures last { IsOk result → (added : Waiting W) × (self.new.outputs.items ≡ self.old.outputs.items ++ added ∷ [])
            × (added.writer ≡ writer) × HasNothing added }
        ensures err { is_err result ≡ true → self.new.outputs.items ≡ self.old.outputs.items }
        ensures stays { (self.new.replies ≡ self.old.replies) × (self.new.marks ≡ self.old.marks)
            × (self.new.passing ≡ self.old.passing) × (self.new.failed ≡ self.old.failed) }
    {
        self.outputs.push(Waiting::new(writer))?;
        Ok(())
    }

    /// How many outputs there are.
    pub fn outputs(&self) -> usize
        ensures { result ≡ length self.now.outputs.items }
    {
        self.outputs.len()
    }

    /// Whether a device has failed.
    pub fn failed(&self) -> bool
        ensures { result ≡ self.now.failed }
    {
        self.failed
    }

    /// Passes on all that waits: for each output in ascending number, and then the replies, but of these only what tells of no
    /// samples that an output didn't take. Each device is tried, whatever another did. Nothing waits then, also after a fault:
    /// what a device didn't take is lost.
    pub fn pass_on(&mut self) -> Result<(), PortFault>
        ensures outputs { EachDoes (PassesOn W.contents) self.old.outputs.items self.new.outputs.items }
        ensures replies { TellsTruth R.contents self.old.marks.items self.new.outputs.items self.old.replies self.new.replies }
        ensures all { IsOk result → EachDoes TakesAll self.old.outputs.items self.new.outputs.items × TakesAll self.old.replies self.new.replies }
        ensures kept { IsOk result → NothingIsLost W.contents R.contents self.old self.new }
        ensures nothing { All HasNothing self.new.outputs.items × HasNothing self.new.replies × (self.new.marks.items ≡ []) }
        ensures failed { self.new.failed ≡ is_err result }
        ensures lasts { self.old.failed ≡ true → self.new.failed ≡ true }
        ensures passing { self.new.passing ≡ self.old.passing }
    {
        let all = pass_outputs(&mut self.outputs);
        let waiting = self.replies.len();
        let count = true_octets(self.marks.as_slice(), &self.outputs, waiting);
        let told = self.replies.pass_first(count).is_ok() && count == waiting;
        forget_outputs(&mut self.outputs);
        self.replies.forget();
        self.marks.clear();
        if self.failed || !all || !told {
            self.failed = true;
            return Err(PortFault);
        }
        Ok(())
    }

    /// Passes on where there is no room for an octet of the output of this number, or for a mark.
    fn make_room_at(&mut self, number: usize) -> Result<(), PortFault>
        requires there { number < length self.old.outputs.items }
        requires ready { self.old.failed ≡ false }
        ensures room { IsOk result → HasRoomAt number self.new.outputs.items }
        ensures marks { IsOk result → length self.new.marks.items < MARKS }
        ensures remembers { IsOk result → Remembers self.old self.new }
        ensures passing { self.new.passing ≡ self.old.passing }
        ensures count { length self.new.outputs.items ≡ length self.old.outputs.items }
        ensures kept { IsOk result → NothingIsLost W.contents R.contents self.old self.new }
        ensures failed { self.new.failed ≡ is_err result }
    {
        if self.outputs[number].is_full() || self.marks.is_full() {
            return self.pass_on();
        }
        Ok(())
    }

    /// Passes on where there is no room for an octet of a reply.
    fn make_room_for_reply(&mut self) -> Result<(), PortFault>
        requires { self.old.failed ≡ false }
        ensures room { IsOk result → HasRoom self.new.replies }
        ensures remembers { IsOk result → Remembers self.old self.new }
        ensures kept { IsOk result → NothingIsLost W.contents R.contents self.old self.new }
        ensures passing { self.new.passing ≡ self.old.passing }
        ensures failed { self.new.failed ≡ is_err result }
    {
        if self.replies.is_full() {
            return self.pass_on();
        }
        Ok(())
    }

    /// Takes some of the samples' octets for the output of this number, from the first on: none only where there are none. It
    /// passes on first where there is no room. The replies behind them tell of them.
    pub fn put_output(&mut self, number: usize, octets: &[u8]) -> Result<usize, PortFault>
        requires { number < length self.old.outputs.items }
        ensures count { IfOk result (λ n. n ≤ length octets.now) }
        ensures some { IfOk result (λ n. 0 < length octets.now → 0 < n) }
        ensures waits { IfOk result (λ n. WaitsLastAt number (take n octets.now) self.new.outputs.items) }
        ensures gets { IfOk result (λ n. GetsAt W.contents number (take n octets.now) self.old.outputs.items self.new.outputs.items) }
        ensures replies { IsOk result → LosesNothing R.contents self.old.replies self.new.replies }
        ensures marked { IsOk result → IsMarked number self.new.outputs.items self.new.replies self.new.marks.items }
        ensures remembers { IsOk result → MarksOneMore number self.old.marks.items self.new.marks.items self.new.outputs.items }
        ensures passing { self.new.passing ≡ self.old.passing }
        ensures failed { self.new.failed ≡ is_err result }
        ensures lasts { self.old.failed ≡ true → self.new.failed ≡ true }
    {
        if self.failed {
            return Err(PortFault);
        }
        self.make_room_at(number)?;
        let count = self.outputs[number].take_some(octets);
        let least = self.outputs[number].len();
        let before = self.replies.len();
        self.marks.push(Mark {
            output: number,
            least,
            before,
        });
        Ok(count)
    }

    /// Takes some of a reply's octets, from the first on: none only where there are none. It passes on first where there is no
    /// room, and behind the reply's line where each line is passed on.
    pub fn put_reply(&mut self, octets: &[u8]) -> Result<usize, PortFault>
        ensures count { IfOk result (λ n. n ≤ length octets.now) }
        ensures some { IfOk result (λ n. 0 < length octets.now → 0 < n) }
        ensures gets { IfOk result (λ n. Gets R.contents (take n octets.now) self.old.replies self.new.replies) }
        ensures outputs { IsOk result → EachDoes (LosesNothing W.contents) self.old.outputs.items self.new.outputs.items }
        ensures waits { self.old.passing ≡ Passing.WhereFull → IfOk result (λ n. WaitsLast (take n octets.now) self.new.replies) }
        ensures passed { self.old.passing ≡ Passing.EachLine → IfOk result (λ n. EndsLine (take n octets.now) → HasNothing self.new.replies) }
        ensures remembers { IsOk result → Remembers self.old self.new }
        ensures passing { self.new.passing ≡ self.old.passing }
        ensures failed { self.new.failed ≡ is_err result }
        ensures lasts { self.old.failed ≡ true → self.new.failed ≡ true }
    {
        if self.failed {
            return Err(PortFault);
        }
        self.make_room_for_reply()?;
        let count = self.replies.take_some(octets);
        if self.passing == Passing::EachLine && ends_line(&octets[..count]) {
            self.pass_on()?;
        }
        Ok(count)
    }
}
