//! Tables without instances: how they are made and ended.
ghost use Rattle.std.specs.Prelude.{◌≡◌, ℕ, ℤ, Option, None, length, IfOk};
ghost use Rattle.mem_rec.specs.declared.Space.{Space};
ghost use Rattle.scratch_group.specs.Blocks.{block_in};
ghost use Rattle.mem_rec.specs.declared.TheConstants.{INSTANCES, GROUPS};
ghost use Rattle.record_loans.specs.Pieces.{no_pieces};
ghost use Rattle.host_shared.specs.Locations.{no_locations, locations_at, shared_at};
ghost use Rattle.host_table.specs.Table.{slot_at, group_at, activity_at, ArePoisoned, NoGroupHasBlocks, NoneLives, NoneWasActive};
ghost use Rattle.host_map.specs.Activity.{never_activated};
ghost use Rattle.host_table.specs.Steps.{AreConsistent, KeepsAnyHistories};

use crate::{Member, Tables};
use host_shared::{Locations, empty_sharing, end_sharing};
use ialg::Ialg;
use mem_rec::{GROUPS, INSTANCES};
use scratch_group::Group;
use std::alloc::{AllocError, Allocator, Global};

/// A slot for each instance number, each of them empty. This table and the one below stand over any allocator, and ask it once each.
fn empty_instances<M: Ialg, A: Allocator>(alloc: A) -> Result<Vec<Option<Member<M>>, A>, AllocError>
    ensures count { IfOk result (λ v. length v.items ≡ INSTANCES) }
    ensures empty { IfOk result (λ v. NoneLives v.items) }
{
    let mut instances = Vec::with_capacity(alloc, INSTANCES)?;
    for _ in 0..INSTANCES {
        instances.push_reserved(None);
    }
    Ok(instances)
}

/// Groups without blocks and members.
fn empty_groups<A: Allocator>(alloc: A) -> Result<Vec<Group, A>, AllocError>
    ensures count { IfOk result (λ v. length v.items ≡ GROUPS) }
    ensures blocks { IfOk result (λ v. NoGroupHasBlocks v.items) }
    ensures activity { IfOk result (λ v. NoneWasActive v.items) }
{
    let mut groups = Vec::with_capacity(alloc, GROUPS as usize)?;
    for _ in 0..GROUPS {
        groups.push_reserved(Group::new());
    }
    Ok(groups)
}

/// Ends a table of empty slots.
fn end_instances<M: Ialg, A: Allocator>(instances: Vec<Option<Member<M>>, A>)
    requires { NoneLives instances.items }
{
    let mut instances = instances;
    while let Some(slot) = instances.pop() {
        match slot {
            Some(_member) => unreachable!(),
            None => {}
        }
    }
    instances.destroy_empty();
}

/// Ends groups whose blocks were all taken out.
fn end_groups<A: Allocator>(groups: Vec<Group, A>)
    requires { NoGroupHasBlocks groups.items }
{
    let mut groups = groups;
    while let Some(group) = groups.pop() {
        group.end();
    }
    groups.destroy_empty();
}

/// The tables of a host without instances, of the allocator `A`, the system's by default. They can't be copied, and must be given back by
/// `close`.
pub struct EmptyTables<M, A: Allocator = Global> {
    instances: Vec<Option<Member<M>>, A>,
    sharing: Vec<Locations, A>,
    groups: Vec<Group, A>,
    ghost slot_count: { length instances.items ≡ INSTANCES },
    ghost sharing_count: { length sharing.items ≡ INSTANCES },
    ghost group_count: { length groups.items ≡ GROUPS },
    ghost empty: { (i : ℕ) → slot_at instances.items i ≡ None },
    ghost no_sharing: { (i : ℕ) → shared_at sharing.items i ≡ no_pieces },
    ghost bare: { (i : ℕ) → locations_at sharing.items i ≡ no_locations },
    ghost no_blocks: { (g : ℕ) (space : Space) → block_in (group_at groups.items g) space ≡ None },
    ghost no_activity: { (g : ℕ) → activity_at groups.items g ≡ never_activated },
}

impl<M: Ialg, A: Allocator + Copy> EmptyTables<M, A> {
    /// Each table asks for memory once. Nothing is held where one is refused.
    pub fn new(alloc: A) -> Result<EmptyTables<M, A>, AllocError> {
        let instances = empty_instances(alloc)?;
        let sharing = match empty_sharing(alloc) {
            Ok(sharing) => sharing,
            Err(refused) => {
                end_instances(instances);
                return Err(refused);
            }
        };
        match empty_groups(alloc) {
            Ok(groups) => Ok(EmptyTables {
                instances,
                sharing,
                groups,
            }),
            Err(refused) => {
                end_sharing(sharing);
                end_instances(instances);
                Err(refused)
            }
        }
    }
}

impl<M: Ialg, A: Allocator> EmptyTables<M, A> {
    /// The memory goes back to the allocator.
    pub fn close(self) {
        let EmptyTables {
            instances,
            sharing,
            groups,
        } = self;
        end_groups(groups);
        end_sharing(sharing);
        end_instances(instances);
    }
}

impl<M: Ialg> EmptyTables<M> {
    /// The tables of a host in which no instance lives, no group has a block, and none was ever active.
    pub fn into_tables(self) -> Tables<M>
        ensures ok { AreConsistent result }
        ensures poisoned { (w : Option ℤ) → ArePoisoned w result.groups }
        ensures keeps { KeepsAnyHistories M.law result }
        ensures empty { NoneLives result.instances }
        ensures bare { (i : ℕ) → locations_at result.sharing i ≡ no_locations }
        ensures blocks { NoGroupHasBlocks result.groups }
        ensures activity { NoneWasActive result.groups }
    {
        let EmptyTables {
            instances,
            sharing,
            groups,
        } = self;
        Tables {
            instances,
            sharing,
            groups,
        }
    }
}

/// Ends tables in which no instance lives and no group has a block. It answers nothing and leaves nothing behind, so that there is no more
/// to say.
pub fn end_tables<M: Ialg>(tables: Tables<M>)
    requires empty { NoneLives tables.instances }
    requires none { (i : ℕ) → shared_at tables.sharing i ≡ no_pieces }
    requires blocks { NoGroupHasBlocks tables.groups }
{
    let Tables {
        instances,
        sharing,
        groups,
    } = tables;
    end_groups(groups);
    end_sharing(sharing);
    end_instances(instances);
}
