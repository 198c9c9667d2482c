//! Where the words of an instance's records lie.
ghost use Rattle.std.specs.Prelude.{◌≡◌};
ghost use Rattle.record_loans.specs.Cuts.{start_of};

/// Where the words of a record lie.
#[derive(Clone, Copy)]
pub enum Source {
    /// The record isn't lent.
    Absent,
    /// In the instance's own piece of this record.
    Own,
    /// In the piece of this record that is lent to the instance.
    Shared,
    /// In the block in `daram`.
    InDaram,
    /// In the block in `saram`.
    InSaram,
    /// In the block in `external`.
    InExternal,
}

/// How a record is cut out of its source.
#[derive(Clone, Copy)]
pub struct Cut {
    pub source: Source,
    /// In a block, the words that are left out behind what was cut there before. A piece is cut from its start on.
    pub gap: usize,
    /// The words of the record.
    pub size: usize,
}

impl Cut {
    /// Where the record begins in the words that are taken for it: behind the gap in a block, else at the start.
    pub(crate) fn start(&self) -> usize
        ensures { result ≡ start_of self.now.source self.now.gap }
    {
        match self.source {
            Source::Absent | Source::Own | Source::Shared => 0,
            Source::InDaram | Source::InSaram | Source::InExternal => self.gap,
        }
    }
}

/// How the records of an instance are cut, in table order.
#[derive(Clone, Copy)]
pub struct Plan {
    /// The words of record 0, which are cut out of its own piece.
    pub object: usize,
    pub first: Cut,
    pub second: Cut,
    pub third: Cut,
}

/// How many words each record of a filter has: the object, the kept words, and the running words in the block in `daram`.
#[derive(Clone, Copy)]
pub struct FilterSizes {
    pub object: usize,
    pub kept: usize,
    pub running: usize,
}

/// The number of the write-once record of a reader, behind the object.
pub const ONCE: usize = 1;

/// The number of the write-once record of a filter that shares its constants.
pub const CONSTANTS: usize = 2;

/// How many words each record of a filter that shares its constants has: those of a filter, and the write-once constants between the kept
/// words and the running ones.
#[derive(Clone, Copy)]
pub struct SharingSizes {
    pub object: usize,
    pub kept: usize,
    pub constants: usize,
    pub running: usize,
}

/// How many words each record of a reader has: the object, and the write-once words behind it, none where it has no second record.
#[derive(Clone, Copy)]
pub struct ReaderSizes {
    pub object: usize,
    pub once: usize,
}
