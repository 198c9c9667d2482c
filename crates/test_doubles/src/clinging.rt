//! The rogue that reads what stands in its scratch words, and leaves a sample there.
ghost use Rattle.std.specs.Prelude.{◌≡◌, ◌≤◌, ◌∷◌, [], length, take};
ghost use Rattle.ialg.specs.declared.TheConstants.{BLOCK_SAMPLES};
ghost use Rattle.ialg.specs.History.{word_at};
ghost use Rattle.ialg.specs.Loans.{SameLoans};

use crate::rogue_records::{SCRATCH, record_of};
use ialg::{Block, Lent, Record};

/// Gives for each sample what stands in `place`, and then puts the sample there.
fn exchange(place: &mut i16, input: &[i16], out: &mut Block)
    requires empty { out.old.items ≡ [] }
    requires within { length input.now ≤ BLOCK_SAMPLES }
    ensures given { out.new.items ≡ take (length input.now) (place.old ∷ input.now) }
    ensures left { place.new ≡ word_at (place.old ∷ input.now) (length input.now) }
{
    for sample in input {
        out.push(*place);
        *place = *sample;
    }
}

/// Gives for each sample the first of the words, and then writes the sample there.
fn exchange_first(words: &mut [i16], input: &[i16], out: &mut Block)
    requires empty { out.old.items ≡ [] }
    requires within { length input.now ≤ BLOCK_SAMPLES }
    ensures { length out.new.items ≤ length input.now }
{
    if let Some(place) = words.first_mut() {
        exchange(place, input, out);
    }
}

/// Gives for each sample the first scratch word, and then writes the sample there. Nothing else is read or written.
pub(crate) fn cling(mem: &mut Lent<'_>, input: &[i16], out: &mut Block)
    requires empty { out.old.items ≡ [] }
    requires within { length input.now ≤ BLOCK_SAMPLES }
    ensures loans { SameLoans mem.old mem.new }
    ensures bounded { length out.new.items ≤ length input.now }
{
    let Some(scratch) = record_of(mem.table(), SCRATCH) else {
        return;
    };
    let Some(Record { k, words }) = mem.take(scratch.space, scratch.base) else {
        return;
    };
    exchange_first(words, input, out);
    mem.put(k, words);
}
