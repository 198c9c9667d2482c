//! Two instances of one table by turns.
ghost use Rattle.std.specs.Prelude.{◌≡◌, ◌≢◌, ◌≤◌, [], length, IsSome};
ghost use Rattle.host_table.specs.Table.{slot_at};
ghost use Rattle.host_table.specs.Steps.{ActivatesAndFeeds, GivesOut, Ready, Stays};
ghost use Rattle.test_lives.specs.Blocks.{AreBlocks};
ghost use Rattle.test_lives.specs.Turns.{GivesBothIn};

use host_table::Tables;
use ialg::{BLOCK_SAMPLES, Block, Ialg};

/// What an instance gives for a block of samples.
fn turn<M: Ialg>(tables: &mut Tables<M>, poison: Option<i16>, i: u8, input: &[i16]) -> Block
    requires living { IsSome (slot_at tables.old.instances i) }
    requires ready { Ready poison tables.old }
    requires some { 1 ≤ length input.now }
    requires within { length input.now ≤ BLOCK_SAMPLES }
    ensures step { ActivatesAndFeeds M.law poison i input.now tables.old tables.new }
    ensures output { GivesOut M.law poison tables.old i input.now result.items }
{
    let mut out = Block::new();
    tables.process(poison, i, input, &mut out);
    out
}

/// The first instance is given two blocks, and between them the second is given one. What the first gives are the outputs of its own
/// two blocks, under each poison word and under none.
pub fn take_turns<M: Ialg>(
    tables: &mut Tables<M>,
    poison: Option<i16>,
    first: u8,
    second: u8,
    before: &[i16],
    between: &[i16],
    after: &[i16],
    out: &mut Block,
    other: &mut Block,
    more: &mut Block,
)
    requires living { IsSome (slot_at tables.old.instances first) × IsSome (slot_at tables.old.instances second) }
    requires apart { first ≢ second }
    requires ready { Ready poison tables.old }
    requires empty { (out.old.items ≡ []) × (other.old.items ≡ []) × (more.old.items ≡ []) }
    requires some { (1 ≤ length before.now) × (1 ≤ length between.now) × (1 ≤ length after.now) }
    requires within { AreBlocks before.now between.now after.now }
    ensures stays { Stays poison tables.old tables.new }
    ensures output { GivesBothIn M.law poison tables.old first before.now after.now out.new.items more.new.items }
{
    let first_out = turn(tables, poison, first, before);
    let second_out = turn(tables, poison, second, between);
    let first_more = turn(tables, poison, first, after);
    *out = first_out;
    *other = second_out;
    *more = first_more;
}
