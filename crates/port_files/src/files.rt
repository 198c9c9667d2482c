//! The open files of a run. Each notes its first error.
ghost use Rattle.std.specs.Io.{WritesAtMost};

use crate::roll::Role;
use crate::trouble::{Troubles, Watch};
use std::cell::RefCell;
use std::fs::OpenFile;
use std::io::{self, Read, Write};

/// SCRIPT or an IN.
#[derive(Drop)]
pub struct InFile<'t, F> {
    pub(crate) file: F,
    pub(crate) watch: Watch<'t>,
}

impl<F: Read> Read for InFile<'_, F> {
    fn read(&mut self, buf: &mut [u8]) -> io::Result<usize> {
        match self.file.read(buf) {
            Ok(count) => Ok(count),
            Err(error) => Err(self.watch.noted(error)),
        }
    }
}

/// An OUT. What it held before goes at its first write or flush: till then the file is as it was.
#[derive(Drop)]
pub struct OutFile<'t, F> {
    pub(crate) file: F,
    /// Whether it holds what it held before.
    pub(crate) is_old: bool,
    pub(crate) watch: Watch<'t>,
}

impl<F: OpenFile + Write> OutFile<'_, F> {
    /// Empties the file, the first time.
    fn make_anew(&mut self) -> io::Result<()> {
        if self.is_old {
            self.file.set_len(0)?;
            self.is_old = false;
        }
        Ok(())
    }

    /// Writes to a file that is made anew by its first write.
    fn write_anew(&mut self, buf: &[u8]) -> io::Result<usize>
        ensures { WritesAtMost result buf.now }
    {
        self.make_anew()?;
        self.file.write(buf)
    }

    /// Flushes such a file, which is there afterwards even if nothing was written.
    fn flush_anew(&mut self) -> io::Result<()> {
        self.make_anew()?;
        self.file.flush()
    }
}

impl<F: OpenFile + Write> Write for OutFile<'_, F> {
    fn write(&mut self, buf: &[u8]) -> io::Result<usize> {
        let answer = self.write_anew(buf);
        self.watch.counted(answer, buf)
    }

    fn flush(&mut self) -> io::Result<()> {
        self.flush_anew().map_err(|error| self.watch.noted(error))
    }
}

/// What the replies are written to.
#[derive(Drop)]
pub struct ReplyFile<'t, W> {
    writer: W,
    watch: Watch<'t>,
}

impl<'t, W: Write> ReplyFile<'t, W> {
    /// The replies go to the writer; its first error is noted.
    pub fn new(writer: W, troubles: &'t RefCell<Troubles>) -> Self {
        let watch = Watch {
            role: Role::Replies,
            troubles,
        };
        ReplyFile { writer, watch }
    }
}

impl<W: Write> Write for ReplyFile<'_, W> {
    fn write(&mut self, buf: &[u8]) -> io::Result<usize> {
        let answer = self.writer.write(buf);
        self.watch.counted(answer, buf)
    }

    fn flush(&mut self) -> io::Result<()> {
        self.writer.flush().map_err(|error| self.watch.noted(error))
    }
}
