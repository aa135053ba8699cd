//! Rows in files.
ghost use Rattle.std.specs.Prelude.{◌≡◌, IfOk, OnOk, Option, Some, ℕ, true};
ghost use Rattle.kt_history.specs.Rows.{Row};
ghost use Rattle.kt_histlaws.specs.Disks.{back, before_all, disk_row_at};
ghost use Rattle.kt_rowfiles.specs.Files.{records_for, records_in, rising, falling};
ghost use Rattle.kt_rowfiles.specs.Reading.{steps_in};
ghost use Rattle.kt_diskrowset.specs.Files.{lists_of, row_with_files};

use crate::files::{FileHeld, FileLists};
use kt_base::{Cells, NoMemory};
use kt_deltafile::DeltaFile;
use kt_history::Delta;
use kt_rowfiles::RowRecords;
use std::alloc::Global;

/// The records of a row in one file.
pub(crate) fn records_of(file: &DeltaFile, ordinal: u32) -> &[Delta]
    ensures { steps_in result.now ≡ records_for ordinal file.now.list }
{
    let (start, end) = file.of_row(ordinal);
    &file.list().as_slice()[start as usize..end as usize]
}

/// The records of a row in UNDO files, from the newest.
pub(crate) fn undos_of(
    alloc: Global,
    files: &[FileHeld],
    ordinal: u32,
) -> Result<RowRecords<'_>, NoMemory>
    ensures { IfOk result (λ records. records ≡ falling (records_in ordinal (lists_of files.now))) }
{
    let mut records = RowRecords::new(alloc);
    let mut at = files.len();
    'files: while at > 0 {
        at -= 1;
        records.put_undos(records_of(&files[at].deltas, ordinal))?;
    }
    Ok(records)
}

/// The records of a row in REDO files, from the oldest.
pub(crate) fn redos_of(
    alloc: Global,
    files: &[FileHeld],
    ordinal: u32,
) -> Result<RowRecords<'_>, NoMemory>
    ensures { IfOk result (λ records. records ≡ rising (records_in ordinal (lists_of files.now))) }
{
    let mut records = RowRecords::new(alloc);
    let mut at = files.len();
    'files: while at > 0 {
        at -= 1;
        records.put_redos(records_of(&files[at].deltas, ordinal))?;
    }
    Ok(records)
}

// Whether no record in these files is above a time.
fn are_before(files: &[FileHeld], t: u64) -> bool
    ensures { result ≡ true → (n : ℕ) (row : Option Row) → back t (falling (records_in n (lists_of files.now))) row ≡ row }
{
    'files: for file in files {
        if file.deltas.newest() > t {
            return false;
        }
    }
    true
}

// Takes back the UNDO records of a row above a time. No record is looked for where no file has one above it.
fn go_back(
    alloc: Global,
    files: &[FileHeld],
    ordinal: u32,
    t: u64,
    row: &mut Option<Cells>,
) -> Result<(), NoMemory>
    ensures { OnOk result (row.new ≡ back t (falling (records_in ordinal (lists_of files.now))) row.old) }
{
    if are_before(files, t) {
        return Ok(());
    }
    undos_of(alloc, files, ordinal)?.go_back(t, row)
}

/// The row with this ordinal at a time, told its base row.
pub fn row_at(
    alloc: Global,
    undo: &FileLists,
    redo: &FileLists,
    ordinal: u32,
    base: Cells,
    t: u64,
) -> Result<Option<Cells>, NoMemory>
    ensures { IfOk result (λ row. row ≡ disk_row_at t (row_with_files undo.now redo.now ordinal base)) }
{
    let mut row = Some(base);
    go_back(alloc, undo.as_slice(), ordinal, t, &mut row)?;
    redos_of(alloc, redo.as_slice(), ordinal)?.go_on(t, &mut row)?;
    Ok(row)
}

/// The row with this ordinal before all its changes, told its base row.
pub(crate) fn first_row(
    alloc: Global,
    undo: &FileLists,
    ordinal: u32,
    base: Cells,
) -> Result<Option<Cells>, NoMemory>
    ensures { IfOk result (λ row. row ≡ before_all (falling (records_in ordinal (lists_of undo.now))) (Some base)) }
{
    let mut row = Some(base);
    undos_of(alloc, undo.as_slice(), ordinal)?.go_first(&mut row)?;
    Ok(row)
}
