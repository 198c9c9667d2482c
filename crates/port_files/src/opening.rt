//! How the files of a run are opened.
use crate::files::{InFile, OutFile};
use crate::roll::{RegularFile, Role, Roll, RollFault};
use crate::trouble::{Troubles, Watch, Why};
use std::alloc::Global;
use std::cell::RefCell;
use std::fs::{self, File, Files, Metadata, OpenFile, OpenOptions};
use std::io;
use std::os::unix::fs::MetadataExt;

/// Why a file isn't opened. Which file it is, and what of it, stands in the troubles.
#[derive(Clone, Copy)]
pub enum OpenFault {
    /// A file can't be read.
    Read,
    /// A file can't be written, or would be written over though it is read or written already.
    Write,
    /// A request for memory was refused.
    Memory,
}

/// The name of the standard output as a file.
const STANDARD_OUTPUT: &str = "/dev/stdout";
/// The bits of a mode that say what a file is, and what they are of a pipe, as `sys/stat.h` has them.
const FORMAT: u32 = 0o170000;

const PIPE: u32 = 0o010000;

/// A pipe, by its device and its inode.
#[derive(Clone, Copy)]
struct Pipe {
    device: u64,
    inode: u64,
}

impl Pipe {
    /// The pipe that a file is, if it is one.
    fn of(metadata: &Metadata) -> Option<Pipe> {
        if metadata.mode() & FORMAT != PIPE {
            return None;
        }
        Some(Pipe {
            device: metadata.dev(),
            inode: metadata.ino(),
        })
    }

    /// Whether both are one pipe.
    fn is(self, other: Pipe) -> bool {
        self.device == other.device && self.inode == other.inode
    }
}

/// The files of a run while they are opened. An OUT that is the same file as SCRIPT, an IN, another OUT or the standard output isn't
/// opened, whatever their names: pipes, terminals and devices may be opened as often as one likes, but for an OUT that is the pipe
/// to which the replies go, where nobody could tell samples from replies.
#[derive(Drop)]
pub struct RunFiles<'t, 'p, R> {
    rt: &'t R,
    roll: Roll,
    /// The pipe to which the replies go, if it is one.
    replies: Option<Pipe>,
    /// The paths of the OUTs that weren't there before.
    made: Vec<&'p str>,
    troubles: &'t RefCell<Troubles>,
}

impl<'t, 'p, R: Files + AllocGlobal> RunFiles<'t, 'p, R> {
    /// The standard output alone is open.
    pub fn new(rt: &'t R, troubles: &'t RefCell<Troubles>) -> Result<Self, OpenFault> {
        let mut files = RunFiles {
            rt,
            roll: Roll::new(rt.alloc()),
            replies: None,
            made: Vec::new(rt.alloc()),
            troubles,
        };
        // Where it has no name, nothing is known of it.
        if let Ok(metadata) = fs::metadata(rt, STANDARD_OUTPUT) {
            files.replies = Pipe::of(&metadata);
            files.enter(&metadata, Role::Replies)?;
        }
        Ok(files)
    }

    /// The allocator of the runtime.
    pub fn alloc(&self) -> Global {
        self.rt.alloc()
    }

    /// Where what goes wrong with the files is noted.
    pub fn troubles(&self) -> &'t RefCell<Troubles> {
        self.troubles
    }

    /// Notes the troubles of a port in this role.
    fn watch(&self, role: Role) -> Watch<'t> {
        Watch {
            role,
            troubles: self.troubles,
        }
    }

    /// Notes why a file can't be opened.
    fn refuse(&self, role: Role, why: Why) -> OpenFault {
        self.watch(role).note(why);
        if role.is_written() {
            OpenFault::Write
        } else {
            OpenFault::Read
        }
    }

    /// Enters an open file, if it is a regular one.
    fn enter(&mut self, metadata: &Metadata, role: Role) -> Result<(), OpenFault> {
        if !metadata.is_file() {
            return Ok(());
        }
        let file = RegularFile {
            device: metadata.dev(),
            inode: metadata.ino(),
            role,
        };
        match self.roll.add(file) {
            Ok(()) => Ok(()),
            Err(RollFault::Memory) => Err(OpenFault::Memory),
            // It is the file that is written that can't be had.
            Err(RollFault::Clash(other)) if role.is_written() => {
                Err(self.refuse(role, Why::Same(other)))
            }
            Err(RollFault::Clash(other)) => Err(self.refuse(other, Why::Same(role))),
        }
    }

    /// Refuses an OUT that is the pipe to which the replies go.
    fn keep_apart(&self, metadata: &Metadata, role: Role) -> Result<(), OpenFault> {
        match (self.replies, Pipe::of(metadata)) {
            (Some(replies), Some(pipe)) if pipe.is(replies) => {
                Err(self.refuse(role, Why::Same(Role::Replies)))
            }
            _ => Ok(()),
        }
    }

    /// Opens SCRIPT or an IN, and says whether it is a regular file.
    pub fn open_in(
        &mut self,
        path: &str,
        role: Role,
    ) -> Result<(InFile<'t, R::File>, bool), OpenFault> {
        let opened = File::open(self.rt, path).and_then(|file| Ok((file.metadata()?, file)));
        match opened {
            Ok((metadata, file)) => {
                self.enter(&metadata, role)?;
                let watch = self.watch(role);
                Ok((InFile { file, watch }, metadata.is_file()))
            }
            Err(error) => Err(self.refuse(role, Why::Error(error))),
        }
    }

    /// Opens a file to write, and makes it where it isn't there. What it holds stays.
    fn open_to_write(&mut self, path: &'p str) -> io::Result<R::File> {
        let mut options = OpenOptions::new();
        let made = options.write(true).create_new(true).open(self.rt, path);
        if let Ok(file) = made {
            if self.made.push(path).is_err() {
                let _ = fs::remove_file(self.rt, path);
                return Err(io::Error::from(io::ErrorKind::OutOfMemory));
            }
            return Ok(file);
        }
        options.create_new(false).create(true).open(self.rt, path)
    }

    /// Opens an OUT, and makes it where it isn't there. What it holds stays till its first write or flush.
    pub fn open_out(
        &mut self,
        path: &'p str,
        role: Role,
    ) -> Result<OutFile<'t, R::File>, OpenFault> {
        let opened = self
            .open_to_write(path)
            .and_then(|file| Ok((file.metadata()?, file)));
        match opened {
            Ok((metadata, file)) => {
                self.keep_apart(&metadata, role)?;
                self.enter(&metadata, role)?;
                let watch = self.watch(role);
                let is_old = metadata.is_file();
                Ok(OutFile {
                    file,
                    is_old,
                    watch,
                })
            }
            Err(error) if error.kind() == io::ErrorKind::OutOfMemory => Err(OpenFault::Memory),
            Err(error) => Err(self.refuse(role, Why::Error(error))),
        }
    }

    /// Takes the OUTs away again that weren't there before and are empty still: for a run that didn't begin.
    pub fn take_back(&self) {
        for path in &self.made {
            match fs::metadata(self.rt, *path) {
                Ok(metadata) if metadata.is_file() && metadata.len() == 0 => {
                    let _ = fs::remove_file(self.rt, *path);
                }
                _ => {}
            }
        }
    }
}
