//! The ports of a run over one journal.
//!
//! A clause knows nothing of what a cell holds, so these ports are not honest: what is proved is what the journal does, and what
//! the ports do with it is tested.
ghost use Rattle.std.specs.Prelude.{◌≡◌, ◌<◌, ◌≤◌, false, [], length, IfOk};
ghost use Rattle.std.specs.Result.{is_err};
ghost use Rattle.octet_ports.specs.Ports.{Sink};
ghost use Rattle.octet_ports.specs.Handles.{handle_sink};

use crate::journal::Journal;
use crate::{PortFault, PortOut};
use std::cell::RefCell;
use std::io::Write;

/// Passes on all that waits in the journal. It fails where a device does, or did, and where the journal is lent out.
pub fn pass_on_all<W: Write, R: Write>(journal: &RefCell<Journal<W, R>>) -> Result<(), PortFault> {
    match journal.try_borrow_mut() {
        Ok(mut journal) => journal.pass_on(),
        Err(_) => Err(PortFault),
    }
}

/// An output of a journal. A flush passes on all that waits in the journal.
#[derive(Drop)]
pub struct JournalOutput<'a, W, R> {
    journal: &'a RefCell<Journal<W, R>>,
    number: usize,
    failed: bool,
}

impl<'a, W: Write, R: Write> JournalOutput<'a, W, R> {
    /// The journal's output of this number. Where there is none it fails at the first octets.
    pub fn new(journal: &'a RefCell<Journal<W, R>>, number: usize) -> Self
        ensures { (⟦<JournalOutput<'a, W, R> as PortOut>⟧.sink result).failed ≡ false }
    {
        JournalOutput {
            journal,
            number,
            failed: false,
        }
    }
}

/// Takes some of the octets for the output of this number.
fn put_output<W: Write, R: Write>(
    journal: &RefCell<Journal<W, R>>,
    number: usize,
    octets: &[u8],
) -> Result<usize, PortFault>
    ensures count { IfOk result (λ n. n ≤ length octets.now) }
    ensures some { IfOk result (λ n. 0 < length octets.now → 0 < n) }
{
    match journal.try_borrow_mut() {
        Ok(mut journal) if number < journal.outputs() => journal.put_output(number, octets),
        _ => Err(PortFault),
    }
}

impl<W: Write, R: Write> PortOut for JournalOutput<'_, W, R> {
    ghost sink = { λ port. handle_sink port.failed };

    fn put(&mut self, octets: &[u8]) -> Result<usize, PortFault> {
        let answer = put_output(self.journal, self.number, octets);
        self.failed = answer.is_err();
        answer
    }

    fn flush(&mut self) -> Result<(), PortFault> {
        let answer = pass_on_all(self.journal);
        self.failed = answer.is_err();
        answer
    }

    fn failed(&self) -> bool {
        self.failed
    }
}

/// The replies of a journal. A flush passes on all that waits in the journal.
#[derive(Drop)]
pub struct JournalReplies<'a, W, R> {
    journal: &'a RefCell<Journal<W, R>>,
    failed: bool,
}

impl<'a, W: Write, R: Write> JournalReplies<'a, W, R> {
    /// The journal's replies.
    pub fn new(journal: &'a RefCell<Journal<W, R>>) -> Self
        ensures { (⟦<JournalReplies<'a, W, R> as PortOut>⟧.sink result).failed ≡ false }
    {
        JournalReplies {
            journal,
            failed: false,
        }
    }
}

/// Takes some of a reply's octets.
fn put_reply<W: Write, R: Write>(
    journal: &RefCell<Journal<W, R>>,
    octets: &[u8],
) -> Result<usize, PortFault>
    ensures count { IfOk result (λ n. n ≤ length octets.now) }
    ensures some { IfOk result (λ n. 0 < length octets.now → 0 < n) }
{
    match journal.try_borrow_mut() {
        Ok(mut journal) => journal.put_reply(octets),
        Err(_) => Err(PortFault),
    }
}

impl<W: Write, R: Write> PortOut for JournalReplies<'_, W, R> {
    ghost sink = { λ port. handle_sink port.failed };

    fn put(&mut self, octets: &[u8]) -> Result<usize, PortFault> {
        let answer = put_reply(self.journal, octets);
        self.failed = answer.is_err();
        answer
    }

    fn flush(&mut self) -> Result<(), PortFault> {
        let answer = pass_on_all(self.journal);
        self.failed = answer.is_err();
        answer
    }

    fn failed(&self) -> bool {
        self.failed
    }
}
