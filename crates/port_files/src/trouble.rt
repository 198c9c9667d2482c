//! What went wrong with the files of a run.
ghost use Rattle.std.specs.Io.{WritesAtMost};

use crate::roll::Role;
use std::cell::RefCell;
use std::fmt::{self, Display, Formatter};
use std::io::{self, ErrorKind};

/// Why a file can't be opened, read or written.
#[derive(Drop)]
pub enum Why {
    /// The system says so.
    Error(io::Error),
    /// It is one file with this one, and would be written over.
    Same(Role),
}

impl Display for Why {
    fn fmt<W: fmt::Write>(&self, f: &mut Formatter<W>) -> fmt::Result {
        match self {
            Why::Error(error) => write!(f, "{error}"),
            Why::Same(role) => write!(f, "it is {role} too"),
        }
    }
}

/// A file that can't be opened, read or written, and why.
#[derive(Drop)]
pub struct Trouble {
    pub role: Role,
    pub why: Why,
}

/// The first file that couldn't be read, and the first that couldn't be written.
#[derive(Drop, Default)]
pub struct Troubles {
    pub read: Option<Trouble>,
    pub written: Option<Trouble>,
}

impl Troubles {
    /// Notes what went wrong, if it is the first of its sort.
    pub fn note(&mut self, role: Role, why: Why) {
        let first = if role.is_written() {
            &mut self.written
        } else {
            &mut self.read
        };
        if first.is_none() {
            *first = Some(Trouble { role, why });
        }
    }
}

/// The file that a device is, and where its errors are noted.
#[derive(Clone, Copy)]
pub(crate) struct Watch<'t> {
    pub(crate) role: Role,
    pub(crate) troubles: &'t RefCell<Troubles>,
}

impl Watch<'_> {
    /// Notes why the device failed.
    pub(crate) fn note(&self, why: Why) {
        if let Ok(mut troubles) = self.troubles.try_borrow_mut() {
            troubles.note(self.role, why);
        }
    }

    /// Notes an error of the device, and gives it back.
    pub(crate) fn noted(&self, error: io::Error) -> io::Error {
        let copy = match error.raw_os_error() {
            Some(code) => io::Error::from_raw_os_error(code),
            None => io::Error::from(error.kind()),
        };
        self.note(Why::Error(copy));
        error
    }

    /// Notes what is wrong with a write of these octets, if anything: one that takes nothing is an error too.
    pub(crate) fn counted(&self, answer: io::Result<usize>, octets: &[u8]) -> io::Result<usize>
        requires { WritesAtMost answer octets.now }
        ensures { WritesAtMost result octets.now }
    {
        match answer {
            Ok(0) if !octets.is_empty() => {
                self.note(Why::Error(io::Error::from(ErrorKind::WriteZero)));
                Ok(0)
            }
            Ok(count) => Ok(count),
            Err(error) => Err(self.noted(error)),
        }
    }
}
