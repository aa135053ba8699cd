//! Disk rowsets as a compaction reads them: each change is one of the table, and those of a row are in their order.
ghost use Rattle.std.specs.Prelude.{◌≡◌, ◌^◌, ◌↔◌, length, map, min, nat_le, nat_lt, IsTrue, IfOk, OnOk};
ghost use Rattle.std.specs.Bool.{OnTrue};
ghost use Rattle.std.specs.List.{AllByRecursion, count_by, sum_by};
ghost use Rattle.kt_history.specs.AsBytes.{change_with};
ghost use Rattle.kt_baseset.specs.Rows.{AreShapes};
ghost use Rattle.kt_diskrowset.specs.Data.{store_in};
ghost use Rattle.kt_diskrowset.specs.Files.{lists_of};
ghost use Rattle.kt_joblaws.specs.Apart.{IsOfTable};
ghost use Rattle.kt_joblaws.specs.Compacts.{AreRecordsOf, IsOfColumns, TellsTable};
ghost use Rattle.kt_merge.specs.Merge.{IsReadable, changes_in};
ghost use Rattle.kt_merge.specs.Minor.{held_records};
ghost use Rattle.kt_tablet.specs.Jobs.{entries_in};

use crate::fitting::are_of_table;
use kt_base::{Cell, NoMemory};
use kt_baseset::{ColumnShape, Schema1};
use kt_diskrowset::{FileHeld, RowSetData};
use kt_history::{Change, Delta, Kindly, RowRef};
use kt_joblaws::laws::telling_law;
use kt_merge::folded_whole;
use std::alloc::Global;

/// So many rows and changes together are too many for a job.
const MANY_CHANGES: u64 = 1 << 31;

// For cells that are not those of a change of the table there is no memory.
fn check_cells<'v>(
    columns: &[ColumnShape],
    kind: Kindly,
    cells: &'v [(u16, Cell)],
    row: &mut RowRef<'v>,
) -> Result<(), NoMemory>
    ensures { OnOk result (IsOfTable columns.now (change_with kind cells.now)) }
{
    row.assign(cells)?;
    if are_of_table(columns, kind, row.as_slice()) {
        Ok(())
    } else {
        Err(NoMemory)
    }
}

// And for a record whose change is not.
fn check_record<'v>(
    columns: &[ColumnShape],
    record: &'v Delta,
    row: &mut RowRef<'v>,
) -> Result<(), NoMemory>
    ensures { OnOk result (IsOfTable columns.now record.now.change) }
{
    match &record.change {
        Change::Ins(cells) => check_cells(columns, Kindly::Ins, cells.as_slice(), row),
        Change::Upd(cells) => check_cells(columns, Kindly::Upd, cells.as_slice(), row),
        Change::Del => Ok(()),
    }
}

// And for one of several.
fn check_records(alloc: Global, columns: &[ColumnShape], records: &[Delta]) -> Result<(), NoMemory>
    ensures { OnOk result (AreRecordsOf columns.now records.now) }
{
    let mut row = RowRef::new(alloc);
    'records: for record in records {
        check_record(columns, record, &mut row)?;
    }
    Ok(())
}

// And for one of some files.
fn check_files(alloc: Global, columns: &[ColumnShape], files: &[FileHeld]) -> Result<(), NoMemory>
    ensures { OnOk result (AllByRecursion (AreRecordsOf columns.now) (lists_of files.now)) }
{
    'files: for file in files {
        check_records(alloc, columns, file.deltas.list().as_slice())?;
    }
    Ok(())
}

// Whether two columns are the same.
fn is_same(one: ColumnShape, other: ColumnShape) -> bool
    ensures { IsTrue result ↔ (one ≡ other) }
{
    one.id == other.id && one.kind == other.kind && one.nullable == other.nullable
}

// Whether columns are those of another list, in its order.
#[tactic(auto, using(crate::proofs::Entries::take_same))]
fn are_same(one: &[ColumnShape], other: &[ColumnShape]) -> bool
    ensures { OnTrue result (one.now ≡ other.now) }
{
    if one.len() != other.len() {
        return false;
    }
    'columns: for at in 0..one.len() {
        if !is_same(one[at], other[at]) {
            return false;
        }
    }
    true
}

// And for a disk rowset that has others than these columns, or a record that is not of the table.
fn check_rowset(alloc: Global, columns: &Schema1, rowset: &RowSetData) -> Result<(), NoMemory>
    ensures { OnOk result (IsOfColumns columns.now rowset.now) }
{
    let own = rowset.base.set.schema(alloc)?;
    // Its base rows are of its own columns.
    rowset.base.set.rows();
    if !are_same(own.as_slice(), columns.as_slice()) {
        return Err(NoMemory);
    }
    check_files(alloc, columns.as_slice(), rowset.undo.as_slice())?;
    check_files(alloc, columns.as_slice(), rowset.redo.as_slice())?;
    check_records(alloc, columns.as_slice(), rowset.fresh.as_slice())
}

// A disk rowset with all its changes folded into its base rows. For one that has others than these columns, or a change that is not of the table, there is no memory.
fn told(alloc: Global, columns: &Schema1, rowset: RowSetData) -> Result<RowSetData, NoMemory>
    requires { AreShapes columns.now }
    ensures store { IfOk result (λ d. store_in d ≡ store_in rowset) }
    ensures table { IfOk result (TellsTable columns.now) }
    ensures readable { IsReadable rowset → IfOk result IsReadable }
{
    telling_law();
    let folded = folded_whole(alloc, rowset)?;
    check_rowset(alloc, columns, &folded)?;
    Ok(folded)
}

/// Disk rowsets with all their changes folded into their base rows. Where one has others than these columns, or a change that is not of the table or not in its order, as
/// none has that a tablet took, there is no memory.
pub(crate) fn all_told(
    alloc: Global,
    columns: &Schema1,
    rowsets: Vec<RowSetData>,
) -> Result<Vec<RowSetData>, NoMemory>
    requires shapes { AreShapes columns.now }
    requires readable { AllByRecursion IsReadable rowsets.items }
    ensures stores { IfOk result (λ list. map store_in list.items ≡ map store_in rowsets.items) }
    ensures table { IfOk result (λ list. AllByRecursion (TellsTable columns.now) list.items) }
    ensures readable { IfOk result (λ list. AllByRecursion IsReadable list.items) }
{
    let mut list = Vec::with_capacity(alloc, rowsets.len())?;
    let mut rest = rowsets.into_iter();
    'rest: while let Some(rowset) = rest.next() {
        let one = told(alloc, columns, rowset)?;
        list.push_reserved(one);
    }
    Ok(list)
}

// A count up to what is too many for a job.
fn capped(count: u64) -> u64
    ensures { result ≡ min count (2 ^ 31) }
{
    count.min(MANY_CHANGES)
}

// How many records files have, up to what is too many for a job.
#[tactic(auto, using(std::proofs::lemmas::List::Sums::sum_by_more))]
fn records_in(files: &[FileHeld]) -> u64
    ensures { result ≡ min (length (held_records files.now)) (2 ^ 31) }
{
    let mut count: u64 = 0;
    'files: for file in files {
        count = capped(count + capped(file.deltas.list().len() as u64));
    }
    count
}

/// Whether disk rowsets have too many rows and changes together for a job.
pub(crate) fn have_many(rowsets: &[RowSetData]) -> bool
    ensures { result ≡ nat_le (2 ^ 31) (sum_by changes_in rowsets.now) }
{
    let mut count: u64 = 0;
    'rowsets: for rowset in rowsets {
        let files = records_in(rowset.undo.as_slice()) + records_in(rowset.redo.as_slice());
        let rows = u64::from(rowset.base.rows()) + capped(rowset.fresh.len() as u64);
        count = capped(count + rows + files);
    }
    count >= MANY_CHANGES
}

// How many records are of so many rows, up to what is too many for a job.
fn told_in(records: &[Delta], rows: u32) -> u64
    ensures { result ≡ min (count_by (λ d. nat_lt d.ordinal rows) records.now) (2 ^ 31) }
{
    let mut count: u64 = 0;
    'records: for record in records {
        if record.ordinal < rows {
            count = capped(count + 1);
        }
    }
    count
}

// And of files.
fn told_in_files(files: &[FileHeld], rows: u32) -> u64
    ensures { result ≡ min (sum_by (λ f. count_by (λ d. nat_lt d.ordinal rows) f.deltas.value.list) files.now) (2 ^ 31) }
{
    let mut count: u64 = 0;
    'files: for file in files {
        count = capped(count + told_in(file.deltas.list().as_slice(), rows));
    }
    count
}

/// Whether disk rowsets tell too many rows and changes together for a job.
pub(crate) fn tell_many(rowsets: &[RowSetData]) -> bool
    ensures { result ≡ nat_le (2 ^ 31) (entries_in (map store_in rowsets.now)) }
{
    let mut count: u64 = 0;
    'rowsets: for rowset in rowsets {
        let rows = rowset.base.rows();
        let undo = told_in_files(rowset.undo.as_slice(), rows);
        let redo = told_in_files(rowset.redo.as_slice(), rows);
        let fresh = told_in(rowset.fresh.as_slice(), rows);
        count = capped(count + u64::from(rows) + undo + redo + fresh);
    }
    count >= MANY_CHANGES
}
