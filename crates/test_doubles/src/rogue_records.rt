//! What the rogues have in common: their records, how these are written over, and how samples are given as they came.
ghost use Rattle.std.specs.Prelude.{◌≡◌, ◌≤◌, [], length, MatchOption};
ghost use Rattle.std.specs.List.{All};
ghost use Rattle.ialg.specs.declared.TheConstants.{BLOCK_SAMPLES};
ghost use Rattle.ialg.specs.Loans.{SameLoans};
ghost use Rattle.ialg.specs.Records.{record_at};
ghost use Rattle.test_doubles.specs.Rogues.{rogue_table};
ghost use Rattle.test_doubles.specs.Writing.{FillsAt, KeepsFilled};

use ialg::{Block, Lent, Record, object_record};
use mem_rec::{Attr, LEAST_ALIGNMENT, MemRec, MemTab, Space};

/// The records of a rogue: the object, the kept words and the scratch words.
pub(crate) const ROGUE_RECORDS: usize = 3;

/// The number of the object's record.
pub const OBJECT: usize = 0;

/// The number of the kept words' record.
pub const KEPT: usize = 1;

/// The number of the scratch words' record.
pub const SCRATCH: usize = 2;

/// The words that a rogue keeps.
pub const KEPT_WORDS: u32 = 8;

/// The scratch words of a rogue.
pub const SCRATCH_WORDS: u32 = 260;

/// What the base of a rogue's scratch words is a multiple of.
pub const SCRATCH_ALIGNMENT: u32 = 16;

/// The records that a rogue asks for, without bases. It takes no parameters: None where there are any.
pub(crate) fn asked_records(p: &[i16]) -> Option<MemTab>
    ensures { result ≡ rogue_table p.now }
{
    if !p.is_empty() {
        return None;
    }
    let kept = MemRec {
        size: KEPT_WORDS,
        align: LEAST_ALIGNMENT,
        space: Space::Saram,
        attr: Attr::Persist,
        base: 0,
    };
    let scratch = MemRec {
        size: SCRATCH_WORDS,
        align: SCRATCH_ALIGNMENT,
        space: Space::Daram,
        attr: Attr::Scratch,
        base: 0,
    };
    MemTab::make(&[object_record(), kept, scratch])
}

/// Record `k` of a table, None past its end.
pub fn record_of(table: &MemTab, k: usize) -> Option<MemRec>
    ensures { MatchOption result (length table.now ≤ k) (λ r. r ≡ record_at table.now k) }
{
    if k < table.len() {
        Some(table.get(k))
    } else {
        None
    }
}

/// Makes each word this one.
fn flood(words: &mut [i16], word: i16)
    ensures { All (λ x. x ≡ word) words.new }
{
    words.fill(word);
}

/// Writes `word` over the record that begins at `base` of `space`, where there is one that may be written.
pub(crate) fn fill_record(mem: &mut Lent<'_>, space: Space, base: u16, word: i16)
    ensures loans { SameLoans mem.old mem.new }
    ensures filled { FillsAt word space base mem.old mem.new }
    ensures kept { KeepsFilled word mem.old mem.new }
{
    let Some(taken) = mem.take(space, base) else {
        return;
    };
    let Record { k, words } = taken;
    flood(words, word);
    mem.put(k, words);
}

/// Gives samples as they came.
pub(crate) fn echo(samples: &[i16], out: &mut Block)
    requires empty { out.old.items ≡ [] }
    requires within { length samples.now ≤ BLOCK_SAMPLES }
    ensures { out.new.items ≡ samples.now }
{
    out.extend_from_slice(samples);
}
