//! Which instances share the write-once records of one that is to be created.
ghost use Rattle.std.specs.Prelude.{◌≡◌, ◌<◌, length, Some};
ghost use Rattle.ialg.specs.Records.{record_at, unplaced};
ghost use Rattle.mem_rec.specs.declared.TheConstants.{INSTANCES};
ghost use Rattle.host_table.specs.Table.{slot_at};
ghost use Rattle.host_map.specs.Sharers.{asked, is_once, is_same_once, is_sharer};
ghost use Rattle.host_table.specs.Sharers.{as_asked, asked_by, sharer_in, AreLeastSharers};

use crate::Member;
use host_shared::Sharers;
use ialg::{Ialg, Params};
use lifecycle::{Inst, Instance};
use mem_rec::{Attr, INSTANCES, MemRec, MemTab, Space};

/// Record `k` of a table, blank past its end.
fn record_of(table: &MemTab, k: usize) -> MemRec
    ensures { result ≡ record_at table.now k }
{
    match table.records().get(k) {
        Some(r) => *r,
        None => MemRec {
            size: 0,
            align: 0,
            space: Space::Daram,
            attr: Attr::Scratch,
            base: 0,
        },
    }
}

/// Whether record `k` of a table is write-once. Others have no sharers.
fn is_once(table: &MemTab, k: usize) -> bool
    ensures { result ≡ is_once (record_at table.now k).attr }
{
    record_of(table, k).attr == Attr::WriteOnce
}

/// Whether both are write-once records, of one size, alignment and space.
fn are_same_once(r: &MemRec, s: &MemRec) -> bool
    ensures { result ≡ is_same_once r.now s.now }
{
    r.attr == Attr::WriteOnce
        && s.attr == Attr::WriteOnce
        && r.size == s.size
        && r.align == s.align
        && r.space == s.space
}

/// Whether both tables have the same write-once record `k`, wherever it lies.
fn have_same(table: &MemTab, other: &MemTab, k: usize) -> bool
    ensures { result ≡ is_same_once (record_at (unplaced table.now) k) (record_at (unplaced other.now) k) }
{
    let record = record_of(table, k);
    let others = record_of(other, k);
    are_same_once(&record, &others)
}

/// Whether both kinds are one.
fn are_one<M: Ialg>(a: M, b: M) -> bool
    ensures { result ≡ M.law.meaning.same a b }
{
    a == b
}

/// Whether an instance shares record `k` with one of this kind, with these parameters and this table.
fn is_sharer<M: Ialg>(
    instance: &Instance<M>,
    kind: M,
    params: &Params,
    table: &MemTab,
    k: usize,
) -> bool
    ensures { result ≡ is_sharer M.law.meaning.same (asked kind params.now.items table.now) k (Some (as_asked instance.now)) }
{
    are_one(kind, instance.kind)
        && params.as_slice() == instance.params.as_slice()
        && have_same(table, instance.table.table(), k)
}

/// Whether the instance of the number, if there is one, shares record `k`.
fn shares<M: Ialg>(
    instances: &Vec<Option<Member<M>>>,
    i: usize,
    kind: M,
    params: &Params,
    table: &MemTab,
    k: usize,
) -> bool
    requires { i < length instances.now.items }
    ensures { result ≡ is_sharer M.law.meaning.same (asked kind params.now.items table.now) k (asked_by (slot_at instances.now.items i)) }
{
    match &instances[i] {
        Some(member) => match &member.inst {
            Inst::Idling(idle) => is_sharer(&idle.instance, kind, params, table, k),
            Inst::Running(active) => is_sharer(&active.instance, kind, params, table, k),
        },
        None => false,
    }
}

/// Looks through all instances for the least number of one that shares record `k`, which is write-once.
#[inline(never)]
fn find_once_sharer<M: Ialg>(
    instances: &Vec<Option<Member<M>>>,
    kind: M,
    params: &Params,
    table: &MemTab,
    k: usize,
) -> Option<u8>
    requires { length instances.now.items ≡ INSTANCES }
    ensures { result ≡ sharer_in M.law instances.now.items (asked kind params.now.items table.now) k }
{
    for j in 0..INSTANCES {
        if shares(instances, j, kind, params, table, k) {
            return Some(j as u8);
        }
    }
    None
}

/// The least number of an instance that shares record `k`. Most records are not write-once, and have none.
#[inline(always)]
fn find_sharer<M: Ialg>(
    instances: &Vec<Option<Member<M>>>,
    kind: M,
    params: &Params,
    table: &MemTab,
    k: usize,
) -> Option<u8>
    requires { length instances.now.items ≡ INSTANCES }
    ensures { result ≡ sharer_in M.law instances.now.items (asked kind params.now.items table.now) k }
{
    if !is_once(table, k) {
        return None;
    }
    find_once_sharer(instances, kind, params, table, k)
}

/// For each record the least number of an instance that shares it with one of this kind, with these parameters and this table.
pub fn find_sharers<M: Ialg>(
    instances: &Vec<Option<Member<M>>>,
    kind: M,
    params: &Params,
    table: &MemTab,
) -> Sharers
    requires { length instances.now.items ≡ INSTANCES }
    ensures { AreLeastSharers M.law.meaning.same instances.now.items (asked kind params.now.items table.now) result }
{
    let _records = table.records();
    let t0 = find_sharer(instances, kind, params, table, 0);
    let t1 = find_sharer(instances, kind, params, table, 1);
    let t2 = find_sharer(instances, kind, params, table, 2);
    let t3 = find_sharer(instances, kind, params, table, 3);
    Sharers { t0, t1, t2, t3 }
}
