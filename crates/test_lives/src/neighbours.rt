//! Two instances of one group by turns.
ghost use Rattle.std.specs.Prelude.{◌≡◌, ◌≤◌, [], length};
ghost use Rattle.host_shared.specs.Locations.{shared_at};
ghost use Rattle.lifecycle.specs.States.{SameInstance};
ghost use Rattle.lifecycle.specs.Keeping.{BecomesActiveAndGives};
ghost use Rattle.lifecycle.specs.Turns.{CanBeLent};
ghost use Rattle.test_lives.specs.Blocks.{AreBlocks, SameBlocks};
ghost use Rattle.test_lives.specs.Turns.{GivesBlock, GivesBoth, TakesBlock};

use host_shared::Locations;
use ialg::{BLOCK_SAMPLES, Block, Ialg};
use lifecycle::Idle;
use scratch_group::Group;

/// An idle instance, of number 0 among those of its table, is active for one block.
pub fn feed<M: Ialg>(
    member: Idle<M>,
    sharing: &mut Vec<Locations>,
    group: &mut Group,
    input: &[i16],
    out: &mut Block,
) -> Idle<M>
    requires lent { CanBeLent member.instance sharing.old.items 0 group.old }
    requires empty { out.old.items ≡ [] }
    requires some { 1 ≤ length input.now }
    requires within { length input.now ≤ BLOCK_SAMPLES }
    ensures same { SameInstance member.instance result.instance }
    ensures blocks { SameBlocks group.old group.new }
    ensures lent { CanBeLent result.instance sharing.new.items 0 group.new }
    ensures keeps { TakesBlock M.law member.instance (shared_at sharing.old.items 0) group.old input.now result.instance (shared_at sharing.new.items 0) }
    ensures output { BecomesActiveAndGives M.law member.instance (shared_at sharing.old.items 0) group.old input.now out.new.items }
{
    let mut member = member;
    member.activate(sharing, 0, group);
    let mut active = member.into_active();
    active.run(sharing, 0, group, input, out);
    active.deactivate(sharing, 0, group, None);
    active.into_idle()
}

/// The first instance is given two blocks, and between them the second is given one, in a host of no poison word. What each gives are
/// the outputs of its own blocks.
pub fn interleave<M: Ialg, N: Ialg>(
    first: Idle<M>,
    second: Idle<N>,
    sharing: &mut Vec<Locations>,
    others: &mut Vec<Locations>,
    group: &mut Group,
    before: &[i16],
    between: &[i16],
    after: &[i16],
    out: &mut Block,
    other: &mut Block,
    more: &mut Block,
) -> (Idle<M>, Idle<N>)
    requires first { CanBeLent first.instance sharing.old.items 0 group.old }
    requires second { CanBeLent second.instance others.old.items 0 group.old }
    requires empty { (out.old.items ≡ []) × (other.old.items ≡ []) × (more.old.items ≡ []) }
    requires some { (1 ≤ length before.now) × (1 ≤ length between.now) × (1 ≤ length after.now) }
    requires within { AreBlocks before.now between.now after.now }
    ensures output { GivesBoth M.law first.instance (shared_at sharing.old.items 0) before.now after.now out.new.items more.new.items }
    ensures output_between { GivesBlock N.law second.instance (shared_at others.old.items 0) between.now other.new.items }
{
    let waiting = feed(first, sharing, group, before, out);
    let second = feed(second, others, group, between, other);
    let first = feed(waiting, sharing, group, after, more);
    (first, second)
}
