//! What reaches devices that fail, and in which order.
use crate::shaky::Shaky;
use octet_ports::{
    Journal, JournalOutput, JournalReplies, Marks, Passing, PortOut, pass_on_all, write_octets,
};
use std::cell::RefCell;
use std::io;
use std::io::{ErrorKind, Write};
use std::process::Abort;
use std::test::Fail;

/// More than a test writes.
const WIDE: usize = 1_000_000;

/// What devices wrote, in their order.
type Page = RefCell<Vec<u8>>;

/// A device that takes so many octets, and writes them to a page to which others write too.
#[derive(Drop)]
struct Scribe<'a> {
    page: &'a Page,
    room: usize,
}

impl Write for Scribe<'_> {
    fn write(&mut self, buf: &[u8]) -> io::Result<usize> {
        let count = buf.len().min(self.room);
        if count == 0 {
            return Err(io::Error::from(ErrorKind::StorageFull));
        }
        self.room -= count;
        match self.page.try_borrow_mut() {
            Ok(mut page) => page.extend_from_slice(&buf[..count])?,
            Err(_) => return Err(io::Error::from(ErrorKind::ResourceBusy)),
        }
        Ok(count)
    }

    fn flush(&mut self) -> io::Result<()> {
        Ok(())
    }
}

type Scribes<'a> = RefCell<Journal<Scribe<'a>, Scribe<'a>>>;

/// A journal of two outputs, the first of so much room.
fn two_outputs<'a>(rt: &HostRuntime, page: &'a Page, room: usize) -> Result<Scribes<'a>, Fail> {
    let marks = Marks::new(rt.alloc())?;
    let mut journal = Journal::new(
        rt.alloc(),
        marks,
        Scribe { page, room: WIDE },
        Passing::WhereFull,
    );
    journal.push_output(Scribe { page, room })?;
    journal.push_output(Scribe { page, room: WIDE })?;
    Ok(RefCell::new(journal))
}

/// Puts the octets to a port that hasn't failed: it takes them.
fn put<P: PortOut>(rt: &impl Abort, port: &mut P, octets: &[u8]) {
    assert!(rt; !port.failed());
    let answer = write_octets(port, octets);
    assert!(rt; answer.is_ok());
}

/// The port takes nothing, and has failed.
fn put_fails<P: PortOut>(rt: &impl Abort, port: &mut P) {
    assert!(rt; !port.failed());
    let answer = port.put(b"x");
    assert!(rt; answer.is_err());
    assert!(rt; port.failed());
}

/// The devices wrote this since the last look.
fn compare(rt: &impl Abort, page: &Page, wanted: &[u8]) {
    let is_it = match page.try_borrow_mut() {
        Ok(mut page) => {
            let same = page.as_slice() == wanted;
            page.clear();
            same
        }
        Err(_) => false,
    };
    assert!(rt; is_it);
}

#[test]
fn outputs_come_before_replies(rt: HostRuntime) -> Result<(), Fail> {
    let page = RefCell::new(Vec::new(rt.alloc()));
    let journal = two_outputs(&rt, &page, WIDE)?;
    let mut first = JournalOutput::new(&journal, 0);
    let mut second = JournalOutput::new(&journal, 1);
    let mut replies = JournalReplies::new(&journal);
    put(&rt, &mut second, b"bb");
    put(&rt, &mut replies, b"ok 1\n");
    put(&rt, &mut first, b"aa");
    put(&rt, &mut replies, b"ok 2\n");
    compare(&rt, &page, b"");
    assert!(rt; !first.failed());
    assert!(rt; first.flush().is_ok());
    compare(&rt, &page, b"aabbok 1\nok 2\n");
    Ok(())
}

#[test]
fn a_full_output_leaves_no_reply_of_lost_samples(rt: HostRuntime) -> Result<(), Fail> {
    let page = RefCell::new(Vec::new(rt.alloc()));
    let journal = two_outputs(&rt, &page, 5)?;
    let mut first = JournalOutput::new(&journal, 0);
    let mut second = JournalOutput::new(&journal, 1);
    let mut replies = JournalReplies::new(&journal);
    put(&rt, &mut first, b"aaaa");
    put(&rt, &mut replies, b"ok 2\n");
    put(&rt, &mut replies, b"ok\n");
    put(&rt, &mut first, b"bb");
    put(&rt, &mut replies, b"ok 1\n");
    put(&rt, &mut second, b"cc");
    put(&rt, &mut replies, b"ok 3\n");
    assert!(rt; pass_on_all(&journal).is_err());
    compare(&rt, &page, b"aaaabccok 2\nok\n");
    // It has failed: nothing more is taken, and nothing passed on.
    put_fails(&rt, &mut first);
    put_fails(&rt, &mut second);
    put_fails(&rt, &mut replies);
    assert!(rt; pass_on_all(&journal).is_err());
    compare(&rt, &page, b"");
    Ok(())
}

/// The output takes what is written, and then fails to flush.
#[test]
fn a_failed_flush_leaves_no_reply(rt: HostRuntime) -> Result<(), Fail> {
    let page = RefCell::new(Vec::new(rt.alloc()));
    let replies = Scribe {
        page: &page,
        room: WIDE,
    };
    let marks = Marks::new(rt.alloc())?;
    let mut journal = Journal::new(rt.alloc(), marks, replies, Passing::WhereFull);
    journal.push_output(Shaky::new(b"", WIDE, 1))?;
    let journal = RefCell::new(journal);
    let mut first = JournalOutput::new(&journal, 0);
    let mut replies = JournalReplies::new(&journal);
    put(&rt, &mut replies, b"ok\n");
    put(&rt, &mut first, b"aa");
    put(&rt, &mut replies, b"ok 1\n");
    assert!(rt; pass_on_all(&journal).is_err());
    compare(&rt, &page, b"ok\n");
    Ok(())
}

#[test]
fn an_output_that_is_not_there_fails(rt: HostRuntime) -> Result<(), Fail> {
    let page = RefCell::new(Vec::new(rt.alloc()));
    let journal = two_outputs(&rt, &page, WIDE)?;
    let mut third = JournalOutput::new(&journal, 2);
    put_fails(&rt, &mut third);
    Ok(())
}
