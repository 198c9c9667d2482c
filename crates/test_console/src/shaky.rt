//! A device that fails at a call of a given number. No clause of a reader or a writer says when it fails: that is
//! shown by the tests that use it.

ghost use Rattle.std.specs.Prelude.{◌≡◌, ◌==◌, []};
ghost use Rattle.std.specs.Result.{is_err};

use arrayvec::ArrayVec;
use std::io;
use std::io::{ErrorKind, Read, Write};

/// How many of the octets that were written a device holds: the first ones.
pub(crate) const HELD_OCTETS: usize = 2_048;

/// A reader and a writer of so many octets a call. The call of the number `fuse`, from 0, is interrupted, and the next would go on.
#[derive(Drop)]
pub(crate) struct Shaky<'a> {
    /// What there is to read yet.
    pub rest: &'a [u8],
    /// The most octets of a call.
    pub most: usize,
    pub fuse: u64,
    /// The first octets that were written.
    pub held: ArrayVec<u8, HELD_OCTETS>,
    /// How many octets were written, how often it was flushed, and how many had been written at the last time.
    pub written: u64,
    pub flushes: u32,
    pub flushed: u64,
}

impl<'a> Shaky<'a> {
    /// A device that has these octets to read, and to which nothing was written.
    pub fn new(rest: &'a [u8], most: usize, fuse: u64) -> Self
        ensures rest { result.rest.now ≡ rest.now }
        ensures most { result.most ≡ most }
        ensures fuse { result.fuse ≡ fuse }
        ensures nothing { (result.held.items ≡ []) × (result.written ≡ 0) }
        ensures unflushed { (result.flushes ≡ 0) × (result.flushed ≡ 0) }
    {
        Shaky {
            rest,
            most,
            fuse,
            held: ArrayVec::new(),
            written: 0,
            flushes: 0,
            flushed: 0,
        }
    }

    /// Counts a call, which fails where it is the fuse's.
    fn step(&mut self) -> io::Result<()>
        ensures { is_err result ≡ (self.old.fuse == 0) }
    {
        let breaks = self.fuse == 0;
        self.fuse = self.fuse.wrapping_sub(1);
        if breaks {
            return Err(io::Error::from(ErrorKind::Interrupted));
        }
        Ok(())
    }
}

impl Read for Shaky<'_> {
    fn read(&mut self, buf: &mut [u8]) -> io::Result<usize> {
        self.step()?;
        let count = buf.len().min(self.rest.len()).min(self.most);
        let (given, rest) = self.rest.split_at(count);
        buf[..count].copy_from_slice(given);
        self.rest = rest;
        Ok(count)
    }
}

impl Write for Shaky<'_> {
    fn write(&mut self, buf: &[u8]) -> io::Result<usize> {
        self.step()?;
        let count = buf.len().min(self.most);
        let room = self.held.remaining_capacity().min(count);
        let _fits = self.held.try_extend_from_slice(&buf[..room]);
        self.written = self.written.saturating_add(count as u64);
        Ok(count)
    }

    fn flush(&mut self) -> io::Result<()> {
        self.step()?;
        self.flushes = self.flushes.saturating_add(1);
        self.flushed = self.written;
        Ok(())
    }
}
