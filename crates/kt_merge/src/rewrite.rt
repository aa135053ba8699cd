//! One disk rowset whose files are written anew, so that they tell exactly what it told.
ghost use Rattle.std.specs.Prelude.{◌≡◌, ◌∷◌, ◌++◌, [], IfOk};
ghost use Rattle.std.specs.Bool.{OnTrue};
ghost use Rattle.kt_history.specs.Stores.{Under};
ghost use Rattle.kt_rowfiles.specs.Files.{records_for, records_in};
ghost use Rattle.kt_rowfiles.specs.Reading.{steps_in};
ghost use Rattle.kt_deltafile.specs.declared.file.Way.TheVariants.{Redo};
ghost use Rattle.kt_deltafile.specs.Rules.{FileFits, Follows};
ghost use Rattle.kt_diskrowset.specs.Data.{held_in, files_in};
ghost use Rattle.kt_diskrowset.specs.Files.{lists_of, as_file, as_files};
ghost use Rattle.kt_merge.specs.Rewriting.{IsRewritten, HasAtMostOneRedo, AddsRedo, MergesRedos, AreAbove};

use crate::fitting::fits_redo;
use crate::redo::{comes_behind, merge_all};
use kt_base::NoMemory;
use kt_deltafile::{DeltaFile, Way};
use kt_diskrowset::{FileHeld, FileLists, RowSetData};
use kt_history::{Delta, DeltaList};
use std::alloc::Global;
use std::sync::Arc;

// Whether a record may stand behind others in a REDO file over so many rows.
fn may_stand(front: &[Delta], record: &Delta, rows: u32) -> bool
    ensures { OnTrue result (Follows Redo rows front.now record.now) }
{
    if record.ordinal >= rows {
        return false;
    }
    if !comes_behind(front, record) {
        return false;
    }
    fits_redo(record)
}

/// Whether records are those of a REDO file over so many rows.
pub(crate) fn are_redos(records: &[Delta], rows: u32) -> bool
    ensures { OnTrue result (FileFits Redo rows records.now) }
{
    if records.len() > u32::MAX as usize {
        return false;
    }
    'records: for at in 0..records.len() {
        if !may_stand(&records[..at], &records[at], rows) {
            return false;
        }
    }
    true
}

// The records of a row in a file.
fn row_of(file: &DeltaFile, ordinal: u32) -> &[Delta]
    ensures { steps_in result.now ≡ records_for ordinal file.now.list }
{
    let (start, end) = file.of_row(ordinal);
    &file.list().as_slice()[start as usize..end as usize]
}

// Whether records lie below a time.
fn are_below(records: &[Delta], ts: u64) -> bool
    ensures { OnTrue result (Under ts (steps_in records.now)) }
{
    'records: for record in records {
        if record.ts >= ts {
            return false;
        }
    }
    true
}

// Whether a file's records of a row do.
fn is_older(file: &FileHeld, ordinal: u32, ts: u64) -> bool
    ensures { OnTrue result (Under ts (records_for ordinal file.now.deltas.value.list)) }
{
    are_below(row_of(&file.deltas, ordinal), ts)
}

/// Whether the records of a row in files lie below a time.
pub(crate) fn are_older(files: &[FileHeld], ordinal: u32, ts: u64) -> bool
    ensures { OnTrue result (Under ts (records_in ordinal (lists_of files.now))) }
{
    'files: for file in files {
        if !is_older(file, ordinal, ts) {
            return false;
        }
    }
    true
}

// Whether a record lies above those of its row in files.
fn is_above(files: &[FileHeld], record: &Delta) -> bool
    ensures { OnTrue result (Under record.now.ts (records_in record.now.ordinal (lists_of files.now))) }
{
    are_older(files, record.ordinal, record.ts)
}

/// Whether each of these records does.
pub(crate) fn are_above(files: &[FileHeld], records: &[Delta]) -> bool
    ensures { OnTrue result (AreAbove files.now records.now) }
{
    'records: for record in records {
        if !is_above(files, record) {
            return false;
        }
    }
    true
}

/// A file that is not written yet.
pub(crate) fn new_file(alloc: Global, deltas: DeltaFile) -> Result<FileHeld, NoMemory>
    ensures deltas { IfOk result (λ f. f.deltas.value ≡ deltas) }
    ensures number { IfOk result (λ f. f.file ≡ 0) }
{
    Ok(FileHeld {
        file: 0,
        len: 0,
        deltas: Arc::new(alloc, deltas)?,
    })
}

/// Other owners of files, and one more behind them.
pub(crate) fn with_file(
    alloc: Global,
    files: &FileLists,
    file: FileHeld,
) -> Result<FileLists, NoMemory>
    ensures lists { IfOk result (λ all. lists_of all ≡ lists_of files.now ++ file.deltas.value.list ∷ []) }
    ensures files { IfOk result (λ all. as_files all ≡ as_files files.now ++ as_file file ∷ []) }
{
    let mut all = Vec::new(alloc);
    'files: for held in files.as_slice() {
        all.push(held.copy()?)?;
    }
    all.push(file)?;
    Ok(FileLists::of(all))
}

/// The rowset with its changes in memory as one REDO file more, which is not written yet, if it has some. Where they cannot be one,
/// or one does not lie above the REDO records of its row, which is so of none that a tablet took, it is as for want of memory.
pub fn with_deltas(alloc: Global, rowset: RowSetData) -> Result<RowSetData, NoMemory>
    ensures same { IfOk result (IsRewritten rowset) }
    ensures files { IfOk result (λ d. AddsRedo (held_in rowset) (held_in d)) }
{
    if rowset.fresh.is_empty() {
        return Ok(rowset);
    }
    let records = rowset.fresh.as_slice();
    if !are_redos(records, rowset.base.rows()) {
        return Err(NoMemory);
    }
    if !are_above(rowset.redo.as_slice(), records) {
        return Err(NoMemory);
    }
    let file = new_file(alloc, DeltaFile::of(rowset.fresh, Way::Redo))?;
    let redo = with_file(alloc, &rowset.redo, file)?;
    Ok(RowSetData {
        number: rowset.number,
        base: rowset.base,
        undo: rowset.undo,
        redo,
        fresh: DeltaList::of(Vec::new(alloc)),
    })
}

/// The rowset with its REDO files as one, which is not written yet. Where two of their records have one ordinal and one timestamp,
/// or they are too many for a file, it is as for want of memory.
pub fn with_one_redo(alloc: Global, rowset: RowSetData) -> Result<RowSetData, NoMemory>
    requires none { rowset.fresh ≡ [] }
    ensures same { IfOk result (IsRewritten rowset) }
    ensures one { IfOk result (λ d. HasAtMostOneRedo (files_in d)) }
    ensures files { IfOk result (λ d. MergesRedos (held_in rowset) (held_in d)) }
{
    let merged = merge_all(alloc, &rowset.redo)?;
    let file = new_file(alloc, merged)?;
    let mut files = Vec::new(alloc);
    files.push(file)?;
    Ok(RowSetData {
        number: rowset.number,
        base: rowset.base,
        undo: rowset.undo,
        redo: FileLists::of(files),
        fresh: rowset.fresh,
    })
}
