//! How the records of a table are cut out of an instance's pieces and its group's blocks.
ghost use Rattle.std.specs.Prelude.{◌≡◌, ◌≤◌, ◌<◌, ◌+◌, ◌-◌, ◌*◌, ℕ, drop, take, length, MatchOption, IsTrue};
ghost use Rattle.mem_rec.specs.Records.{is_table};
ghost use Rattle.ialg.specs.Records.{record_at};
ghost use Rattle.scratch_group.specs.Words.{scratch_end, scratch_offset};
ghost use Rattle.scratch_group.specs.Plans.{cut_of, idle_cut_of, active_plan_of, idle_plan_of, IsWithinLimits};
ghost use Rattle.scratch_group.specs.Filters.{IsOfFilter, IsOfNoFilter};
ghost use Rattle.scratch_group.specs.Readers.{IsOfNoReader, IsOfReader};
ghost use Rattle.scratch_group.specs.Loans.{IsLoan};
ghost use Rattle.scratch_group.specs.Sharing.{IsOfNoSharingFilter, IsOfSharingFilter};

use ialg::FILTER_RECORDS;
use mem_rec::{Attr, GREATEST_ALIGNMENT, MemRec, MemTab, RECORD_WORDS, Space};
use record_loans::{Cut, FilterSizes, Plan, ReaderSizes, SharingSizes, Source};

/// The most words by which a record moves the end of those before it: the greatest record, behind the greatest gap.
pub(crate) const GREATEST_STEP: u32 = RECORD_WORDS + GREATEST_ALIGNMENT;

/// The most records of a reader: the object, and write-once words behind it.
pub(crate) const READER_RECORDS: usize = 2;

/// The records of a filter that shares its constants: the object, the kept words, the constants and the running words.
pub(crate) const SHARING_RECORDS: usize = 4;

/// Record `k` of a table.
pub(crate) fn record(table: &MemTab, k: usize) -> MemRec
    requires { k < length table.now }
    ensures value { result ≡ record_at table.now k }
    ensures limits { IsWithinLimits result }
{
    // a table's records are valid, as its list of records says
    let _records = table.records();
    table.get(k)
}

/// Where the scratch records of a space end, of the first `k` records.
pub(crate) fn end_before(table: &MemTab, k: usize, space: Space) -> u32
    requires long { k ≤ length table.now }
    requires few { k ≤ 3 }
    ensures value { result ≡ scratch_end table.now k space }
    ensures most { result ≤ GREATEST_STEP * k }
{
    let mut end: u32 = 0;
    for i in 0..k {
        let r = record(table, i);
        if r.is_scratch_of(space) {
            end = end.next_multiple_of(r.align) + r.size;
        }
    }
    end
}

/// The offset of record `k`, where those before it end at `end`.
pub(crate) fn offset_behind(table: &MemTab, k: usize, end: u32) -> u32
    requires number { k < length table.now }
    requires few { k ≤ 3 }
    requires end { end ≡ scratch_end table.now k (record_at table.now k).space }
    requires most { end ≤ GREATEST_STEP * k }
    ensures value { result ≡ scratch_offset table.now k }
    ensures behind { end ≤ result }
{
    end.next_multiple_of(record(table, k).align)
}

/// How record `k` of an active instance is cut.
fn active_cut(table: &MemTab, k: usize) -> Cut
    requires { k ≤ 3 }
    ensures { result ≡ cut_of table.now k }
{
    if k >= table.len() {
        return Cut {
            source: Source::InDaram,
            gap: 0,
            size: 0,
        };
    }
    let r = record(table, k);
    let size = r.size as usize;
    match r.attr {
        Attr::Persist => Cut {
            source: Source::Own,
            gap: 0,
            size,
        },
        Attr::WriteOnce => Cut {
            source: Source::Shared,
            gap: 0,
            size,
        },
        Attr::Scratch => {
            let end = end_before(table, k, r.space);
            Cut {
                source: block_source(r.space),
                gap: (offset_behind(table, k, end) - end) as usize,
                size,
            }
        }
    }
}

/// The block that the scratch records of a space are cut out of.
fn block_source(space: Space) -> Source
    ensures { result ≡ Rattle.scratch_group.specs.Plans.block_source space }
{
    match space {
        Space::Daram => Source::InDaram,
        Space::Saram => Source::InSaram,
        Space::External => Source::InExternal,
    }
}

/// The plan by which an active instance is lent its records.
pub(crate) fn active_plan(table: &MemTab) -> Plan
    ensures value { result ≡ active_plan_of table.now }
    ensures table { IsTrue (is_table table.now) }
{
    let _records = table.records();
    Plan {
        object: object_size(table),
        first: active_cut(table, 1),
        second: active_cut(table, 2),
        third: active_cut(table, 3),
    }
}

/// The words of record 0.
fn object_size(table: &MemTab) -> usize
    ensures { result ≡ (record_at table.now 0).size }
{
    // a table has a first record, as its length says
    let _len = table.len();
    record(table, 0).size as usize
}

/// How record `k` of an idle instance is cut.
fn idle_cut(table: &MemTab, k: usize) -> Cut
    ensures { result ≡ idle_cut_of table.now k }
{
    let absent = Cut {
        source: Source::Absent,
        gap: 0,
        size: 0,
    };
    if k >= table.len() {
        return absent;
    }
    let r = record(table, k);
    let size = r.size as usize;
    match r.attr {
        Attr::Persist => Cut {
            source: Source::Own,
            gap: 0,
            size,
        },
        Attr::WriteOnce => Cut {
            source: Source::Shared,
            gap: 0,
            size,
        },
        Attr::Scratch => absent,
    }
}

/// The plan by which an idle instance is lent its records.
pub(crate) fn idle_plan(table: &MemTab) -> Plan
    ensures value { result ≡ idle_plan_of table.now }
    ensures table { IsTrue (is_table table.now) }
{
    let _records = table.records();
    Plan {
        object: object_size(table),
        first: idle_cut(table, 1),
        second: idle_cut(table, 2),
        third: idle_cut(table, 3),
    }
}

/// The sizes of a filter's records, where the table is one of a filter: behind the object one persistent record, and one scratch record in
/// `daram`. None for every other table.
fn filter_sizes(table: &MemTab) -> Option<FilterSizes>
    ensures sizes { MatchOption result (IsOfNoFilter table.now) (IsOfFilter table.now) }
    ensures table { IsTrue (is_table table.now) }
{
    let _records = table.records();
    if table.len() != FILTER_RECORDS {
        return None;
    }
    let kept = record(table, 1);
    let running = record(table, 2);
    if kept.attr != Attr::Persist || !running.is_scratch_of(Space::Daram) {
        return None;
    }
    Some(FilterSizes {
        object: object_size(table),
        kept: kept.size as usize,
        running: running.size as usize,
    })
}

/// The sizes of a reader's records, where the table is one of a reader: the object, and behind it one write-once record or nothing. None
/// for every other table.
fn reader_sizes(table: &MemTab) -> Option<ReaderSizes>
    ensures sizes { MatchOption result (IsOfNoReader table.now) (IsOfReader table.now) }
    ensures table { IsTrue (is_table table.now) }
{
    let _records = table.records();
    let object = object_size(table);
    if table.len() == 1 {
        return Some(ReaderSizes { object, once: 0 });
    }
    if table.len() != READER_RECORDS {
        return None;
    }
    let once = record(table, 1);
    if once.attr != Attr::WriteOnce {
        return None;
    }
    Some(ReaderSizes {
        object,
        once: once.size as usize,
    })
}

/// The sizes of the records of a filter that shares its constants, where the table is one of such: behind the object one persistent record,
/// one write-once record and one scratch record in `daram`. None for every other table.
fn sharing_sizes(table: &MemTab) -> Option<SharingSizes>
    ensures sizes { MatchOption result (IsOfNoSharingFilter table.now) (IsOfSharingFilter table.now) }
    ensures table { IsTrue (is_table table.now) }
{
    let _records = table.records();
    if table.len() != SHARING_RECORDS {
        return None;
    }
    let kept = record(table, 1);
    let constants = record(table, 2);
    let running = record(table, 3);
    if kept.attr != Attr::Persist
        || constants.attr != Attr::WriteOnce
        || !running.is_scratch_of(Space::Daram)
    {
        return None;
    }
    Some(SharingSizes {
        object: object_size(table),
        kept: kept.size as usize,
        constants: constants.size as usize,
        running: running.size as usize,
    })
}

/// How the records of a table are lent: its sizes and attributes say it once and for all.
#[derive(Clone, Copy)]
pub enum Loan {
    /// As those of a filter.
    Filter(FilterSizes),
    /// As those of a reader.
    Reader(ReaderSizes),
    /// As those of a filter that shares its constants.
    Sharing(SharingSizes),
    /// By a plan, as those of any table can be.
    Planned,
}

/// How the records of the table are lent: without a plan where it is one of a filter, of a reader or of a filter that shares its constants.
pub(crate) fn loan_of(table: &MemTab) -> Loan
    ensures { IsLoan table.now result }
{
    if let Some(sizes) = reader_sizes(table) {
        return Loan::Reader(sizes);
    }
    if let Some(sizes) = filter_sizes(table) {
        return Loan::Filter(sizes);
    }
    match sharing_sizes(table) {
        Some(sizes) => Loan::Sharing(sizes),
        None => Loan::Planned,
    }
}
