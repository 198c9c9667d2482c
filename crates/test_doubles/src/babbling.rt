//! The rogue that gives as many samples as it likes, up to as many as it took.
ghost use Rattle.std.specs.Prelude.{◌≡◌, ◌≤◌, ◌%◌, ◌+◌, [], length};
ghost use Rattle.std.specs.Int.{w16, cast_unsigned};
ghost use Rattle.ialg.specs.declared.TheConstants.{BLOCK_SAMPLES};
ghost use Rattle.ialg.specs.History.{word_at};
ghost use Rattle.ialg.specs.Loans.{SameLoans};
ghost use Rattle.test_doubles.specs.Writing.{BeginsToCount, CountsABlock, CountsOnFirst, GivesByCount, TellsCount};

use crate::rogue_records::{KEPT, echo, fill_record, record_of};
use ialg::{Block, Lent, Record};

/// How many samples are given at the block of this count, which has so many. Over successive counts each number from 0 to all of them
/// comes in turn.
fn given_samples(count: i16, samples: usize) -> usize
    requires { samples ≤ BLOCK_SAMPLES }
    ensures given { result ≡ cast_unsigned w16 count % (samples + 1) }
    ensures bounded { result ≤ samples }
{
    usize::from(count.cast_unsigned()) % (samples + 1)
}

/// Counts on in the first of the words, from 0 up to 65,535 and then anew: the count before.
fn count_on(words: &mut [i16]) -> i16
    ensures count { result ≡ word_at words.old 0 }
    ensures counted { CountsOnFirst words.old words.new }
{
    match words.first_mut() {
        Some(place) => {
            let count = *place;
            *place = count.wrapping_add(1);
            count
        }
        None => 0,
    }
}

/// Counts a block in the kept words: the count before.
fn count_block(mem: &mut Lent<'_>) -> i16
    ensures loans { SameLoans mem.old mem.new }
    ensures count { TellsCount mem.old result }
    ensures counted { CountsABlock mem.old mem.new }
{
    let Some(kept) = record_of(mem.table(), KEPT) else {
        return 0;
    };
    let Some(Record { k, words }) = mem.take(kept.space, kept.base) else {
        return 0;
    };
    let count = count_on(words);
    mem.put(k, words);
    count
}

/// Starts to count at 0.
pub(crate) fn begin_to_babble(mem: &mut Lent<'_>)
    ensures loans { SameLoans mem.old mem.new }
    ensures begun { BeginsToCount mem.old mem.new }
{
    let Some(kept) = record_of(mem.table(), KEPT) else {
        return;
    };
    fill_record(mem, kept.space, kept.base, 0);
}

/// Gives the first samples of the input, so many as the count of blocks says.
pub(crate) fn babble(mem: &mut Lent<'_>, input: &[i16], out: &mut Block)
    requires empty { out.old.items ≡ [] }
    requires within { length input.now ≤ BLOCK_SAMPLES }
    ensures loans { SameLoans mem.old mem.new }
    ensures bounded { length out.new.items ≤ length input.now }
    ensures given { GivesByCount mem.old input.now out.new.items }
    ensures counted { CountsABlock mem.old mem.new }
{
    let given = given_samples(count_block(mem), input.len());
    echo(&input[..given], out);
}
