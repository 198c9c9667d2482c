//! Ports over std's readers and writers. What these are known to give and to hold is what the ports give and hold.
ghost use Rattle.std.specs.Prelude.{◌≡◌, false};
ghost use Rattle.octet_ports.specs.Ports.{Source, Sink, source_of, sink_of, known_to_hold};

use crate::port::{PortFault, PortIn, PortOut};
use std::io::{Read, Write};

/// An input over a reader: each error is a failure.
#[derive(Drop)]
pub struct Reading<R> {
    reader: R,
    failed: bool,
}

impl<R: Read> Reading<R> {
    /// Reads from here on.
    pub fn new(reader: R) -> Self
        ensures { ⟦<Reading<R> as PortIn>⟧.source result ≡ source_of (R.remaining reader) false }
    {
        Reading {
            reader,
            failed: false,
        }
    }
}

impl<R: Read> PortIn for Reading<R> {
    ghost source = { λ port. source_of (R.remaining port.reader) port.failed };

    #[inline]
    fn get(&mut self, buffer: &mut [u8]) -> Result<usize, PortFault> {
        match self.reader.read(buffer) {
            Ok(count) => Ok(count),
            Err(_) => {
                self.failed = true;
                Err(PortFault)
            }
        }
    }

    fn failed(&self) -> bool {
        self.failed
    }
}

/// An output over a writer: each error is a failure, and so is a write that takes nothing.
#[derive(Drop)]
pub struct Writing<W> {
    writer: W,
    /// How many octets were written since the last flush, or since the beginning.
    waiting: u64,
    failed: bool,
}

impl<W: Write> Writing<W> {
    /// Writes from here on. What the writer holds already counts as passed on.
    pub fn new(writer: W) -> Self
        ensures { ⟦<Writing<W> as PortOut>⟧.sink result ≡ sink_of (W.contents writer) 0 false }
    {
        Writing {
            writer,
            waiting: 0,
            failed: false,
        }
    }

    /// The writer, with what it holds.
    pub fn into_inner(self) -> W
        ensures { W.contents result ≡ known_to_hold (⟦<Writing<W> as PortOut>⟧.sink self) }
    {
        self.writer
    }
}

impl<W: Write> PortOut for Writing<W> {
    ghost sink = { λ port. sink_of (W.contents port.writer) port.waiting port.failed };

    fn put(&mut self, octets: &[u8]) -> Result<usize, PortFault> {
        // A count that passes the greatest u64 fails before anything is written.
        if self.waiting.checked_add(octets.len() as u64).is_none() {
            self.failed = true;
            return Err(PortFault);
        }
        match self.writer.write(octets) {
            Ok(count) if count > 0 || octets.is_empty() => {
                self.waiting += count as u64;
                Ok(count)
            }
            _ => {
                self.failed = true;
                Err(PortFault)
            }
        }
    }

    fn flush(&mut self) -> Result<(), PortFault> {
        match self.writer.flush() {
            Ok(()) => {
                self.waiting = 0;
                Ok(())
            }
            Err(_) => {
                self.failed = true;
                Err(PortFault)
            }
        }
    }

    fn failed(&self) -> bool {
        self.failed
    }
}
