//! Which regular files a run has open.
ghost use Rattle.std.specs.Prelude.{◌≡◌, ◌++◌, ◌∷◌, [], true, Err, None, IfErr, IfSome, IsOk};
ghost use Rattle.std.specs.List.{find};
ghost use Rattle.std.specs.Option.{option_map};
ghost use Rattle.std.specs.Result.{is_err};
ghost use Rattle.port_files.specs.Clashes.{clashes, is_written};

use std::alloc::Global;
use std::fmt::{self, Display, Formatter};

/// What a file is to a run. Pairs of files are counted from 0, as channels are.
#[derive(Clone, Copy)]
pub enum Role {
    /// The script.
    Script,
    /// The input of a pair.
    In(u8),
    /// The output of a pair.
    Out(u8),
    /// What the replies are written to.
    Replies,
}

impl Role {
    /// Whether the run writes the file.
    pub fn is_written(self) -> bool
        ensures { result ≡ is_written self }
    {
        match self {
            Role::Script | Role::In(_) => false,
            Role::Out(_) | Role::Replies => true,
        }
    }
}

impl Display for Role {
    fn fmt<W: fmt::Write>(&self, f: &mut Formatter<W>) -> fmt::Result {
        match self {
            Role::Script => f.write_str("SCRIPT"),
            Role::In(pair) => write!(f, "the IN of channel {pair}"),
            Role::Out(pair) => write!(f, "the OUT of channel {pair}"),
            Role::Replies => f.write_str("the standard output"),
        }
    }
}

/// A regular file that is open. Files of the same device and inode are one file, whatever their names.
#[derive(Clone, Copy)]
pub struct RegularFile {
    pub device: u64,
    pub inode: u64,
    pub role: Role,
}

impl RegularFile {
    /// Whether both are one file, and one of them at least is written.
    pub fn clashes(self, other: RegularFile) -> bool
        ensures { result ≡ clashes self other }
    {
        self.device == other.device
            && self.inode == other.inode
            && (self.role.is_written() || other.role.is_written())
    }
}

/// Why a file isn't added to a roll.
#[derive(Clone, Copy)]
pub enum RollFault {
    /// The file is open already, as this one, and one of the two is written.
    Clash(Role),
    /// A request for memory was refused.
    Memory,
}

/// The regular files that a run has open. A file that stands there twice is read alone.
#[derive(Drop)]
pub struct Roll {
    files: Vec<RegularFile>,
}

impl Roll {
    /// None is open.
    pub fn new(alloc: Global) -> Roll
        ensures { result.files.items ≡ [] }
    {
        Roll {
            files: Vec::new(alloc),
        }
    }

    /// What the file is open as already, if that clashes.
    fn clash(&self, file: RegularFile) -> Option<Role>
        ensures { result ≡ option_map (λ other. other.role) (find (λ other. clashes other file) self.now.files.items) }
    {
        self.files
            .iter()
            .find(|open| open.clashes(file))
            .map(|open| open.role)
    }

    /// Adds a file that was opened. Where it clashes with one that is open, or memory is refused, the roll stays as it was.
    pub fn add(&mut self, file: RegularFile) -> Result<(), RollFault>
        ensures added { IsOk result → self.new.files.items ≡ self.old.files.items ++ file ∷ [] }
        ensures clash { IfSome (find (λ other. clashes other file) self.old.files.items) (λ other. result ≡ Err (RollFault.Clash other.role)) }
        ensures memory { find (λ other. clashes other file) self.old.files.items ≡ None → IfErr result (λ fault. fault ≡ RollFault.Memory) }
        ensures stays { is_err result ≡ true → self.new.files.items ≡ self.old.files.items }
    {
        if let Some(role) = self.clash(file) {
            return Err(RollFault::Clash(role));
        }
        self.files.push(file).map_err(|_| RollFault::Memory)
    }
}
