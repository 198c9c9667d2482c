// SPDX-License-Identifier: Apache-2.0
//! Records of memory, tables of them, and the layout of a table's scratch records.
//!
//! An algorithm describes the memory that it wants by records (SPRU360, `IALG_MemRec`): size, alignment, space and
//! attribute. The framework finds the places and writes them into the records as bases. Sizes, alignments, offsets and
//! bases are counted in words of 16 bits, and bases from the start of the record's space.
#![tactic(auto)]

ghost use Rattle.std.specs.Prelude.{◌≡◌, ◌<◌, ◌&&◌, length, slice_index_or, is_some, IfSome, IsTrue};
ghost use Rattle.std.specs.List.{list_all};
ghost use Rattle.mem_rec.specs.Records.{is_record, is_scratch, is_table, same_space, with_base};

mod layout;

use arrayvec::ArrayVec;
pub use layout::{Layout, scratch_layout};
use std::marker::Model;

/// Instances of a host have the numbers below this.
pub const INSTANCES: usize = 64;

/// Scratch groups of a host have the numbers below this.
pub const GROUPS: u8 = 8;

/// The most records of a table.
pub const TABLE_RECORDS: usize = 4;

/// The most scratch records of a table: its first record is persistent.
pub const SCRATCH_RECORDS: usize = 3;

/// The most words of a record.
pub const RECORD_WORDS: u32 = 65_536;

/// The least alignment. It divides each other one, each placed size and each space's size.
pub const LEAST_ALIGNMENT: u32 = 4;

/// The greatest alignment.
pub const GREATEST_ALIGNMENT: u32 = 1_024;

/// The alignments that a record may ask for.
pub const ALIGNMENTS: [u32; 9] = [
    LEAST_ALIGNMENT,
    8,
    16,
    32,
    64,
    128,
    256,
    512,
    GREATEST_ALIGNMENT,
];

/// The spaces of memory (SPRU360, `IALG_MemSpace`), in the order in which the framework serves them.
///
/// Here and below the default only fills the unused places of a vector of fixed capacity, and means nothing.
#[derive(Clone, Copy, PartialEq, Eq, Debug, Default)]
pub enum Space {
    /// On the chip, with two accesses a cycle.
    #[default]
    Daram,
    /// On the chip, with one access a cycle.
    Saram,
    /// Off the chip.
    External,
}

/// How long the words of a record last (SPRU360, `IALG_MemAttrs`).
#[derive(Clone, Copy, PartialEq, Eq, Debug, Default)]
pub enum Attr {
    /// From an activation to the next deactivation.
    #[default]
    Scratch,
    /// As long as the instance lives.
    Persist,
    /// As long as the instance lives; written in its initialization alone.
    WriteOnce,
}

/// A record of memory.
#[derive(Clone, Copy, PartialEq, Eq, Debug, Default)]
pub struct MemRec {
    /// How many words, 1 to [`RECORD_WORDS`].
    pub size: u32,
    /// What the base is to be a multiple of, one of [`ALIGNMENTS`].
    pub align: u32,
    pub space: Space,
    pub attr: Attr,
    /// The word of the space at which the record begins: 0 until it is placed.
    pub base: u16,
}

impl MemRec {
    /// Whether the size and the alignment are within the limits.
    pub fn is_valid(&self) -> bool
        ensures { result ≡ is_record self.now }
    {
        (1..=RECORD_WORDS).contains(&self.size) && ALIGNMENTS.contains(&self.align)
    }

    /// Whether this is a scratch record of `space`.
    pub fn is_scratch_of(&self, space: Space) -> bool
        ensures { result ≡ (is_scratch self.now.attr && same_space self.now.space space) }
    {
        self.attr == Attr::Scratch && self.space == space
    }
}

/// Whether each of these records is valid.
fn are_valid(records: &[MemRec]) -> bool
    ensures { result ≡ list_all is_record records.now }
{
    records.iter().all(|r| r.is_valid())
}

/// A table of 1 to [`TABLE_RECORDS`] valid records, the first of which is persistent: it is the instance object
/// (SPRU360, `algAlloc`). A contract sees the list of the records.
#[derive(Drop)]
pub struct MemTab {
    records: ArrayVec<MemRec, TABLE_RECORDS>,
}

impl Model for MemTab {
    ghost use Rattle.std.specs.Prelude.{List, IsTrue};
    ghost use Rattle.mem_rec.specs.declared.MemRec.{MemRec};
    ghost use Rattle.mem_rec.specs.Records.{is_table};

    ghost Value = { List MemRec };

    ghost view = { λ t. t.records.items };

    ghost invariant = { λ t. IsTrue (is_table t.records.items) };
}

impl MemTab {
    /// The table of `records`; None where they form none: there are none or too many of them, the first isn't
    /// persistent, or one isn't valid.
    pub fn make(records: &[MemRec]) -> Option<MemTab>
        ensures exact { is_some result ≡ is_table records.now }
        ensures value { IfSome result (λ t. t ≡ records.now) }
    {
        let [first, ..] = records else {
            return None;
        };
        if first.attr != Attr::Persist {
            return None;
        }
        let kept = ArrayVec::try_from(records).ok()?;
        if !are_valid(records) {
            return None;
        }
        Some(MemTab { records: kept })
    }

    /// The number of records, which is never 0.
    pub fn len(&self) -> usize
        ensures value { result ≡ length self.now }
        ensures some { 0 < length self.now }
    {
        self.records.len()
    }

    /// Record `k`.
    pub fn get(&self, k: usize) -> MemRec
        requires { k < length self.now }
        ensures { result ≡ slice_index_or self.now k result }
    {
        self.records()[k]
    }

    /// All records.
    pub fn records(&self) -> &[MemRec]
        ensures value { result.now ≡ self.now }
        ensures table { IsTrue (is_table self.now) }
    {
        self.records.as_slice()
    }

    /// The same table.
    pub fn copied(&self) -> MemTab
        ensures { result ≡ self.now }
    {
        let mut records = ArrayVec::new();
        let _fits = records.try_extend_from_slice(self.records());
        MemTab { records }
    }

    /// Record `k` is at `base` from now on.
    pub fn set_base(&mut self, k: usize, base: u16)
        requires { k < length self.old }
        ensures { self.new ≡ with_base self.old k base }
    {
        self.records.as_mut_slice()[k].base = base;
    }

    /// The table with record `k` at `base`.
    pub fn with_base(self, k: usize, base: u16) -> MemTab
        requires { k < length self }
        ensures { result ≡ with_base self k base }
    {
        let mut table = self;
        table.set_base(k, base);
        table
    }
}
