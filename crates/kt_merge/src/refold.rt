//! One disk rowset whose REDO records are folded into its base rows, so that it tells exactly what it told.
ghost use Rattle.std.specs.Prelude.{◌≡◌, ◌<◌, ◌≤◌, ◌++◌, [], ℕ, length, IfOk};
ghost use Rattle.std.specs.Bool.{OnTrue};
ghost use Rattle.std.specs.List.{AllByRecursion};
ghost use Rattle.kt_histlaws.specs.Fitting.{Rises};
ghost use Rattle.kt_baseset.specs.Tables.{cells_in};
ghost use Rattle.kt_rowfiles.specs.Files.{records_for, records_in};
ghost use Rattle.kt_rowfiles.specs.Reading.{steps_in};
ghost use Rattle.kt_diskrowset.specs.Data.{held_in, files_in};
ghost use Rattle.kt_diskrowset.specs.Files.{lists_of, as_files};
ghost use Rattle.kt_merge.specs.Major.{records_of, redos_at, IsHeld};
ghost use Rattle.kt_merge.specs.Rewriting.{IsRewritten, TellsInOrder, HasDeletesOnly, AreDeletes, AddsFile, IsOneFile, FoldsRedos, LieBelow, FoldsTo, Folds, AllFold, IsFoldedWhole};
ghost use Rattle.kt_merge.specs.Rows.{disk_row_of};

use crate::fitting::fits_files;
use crate::folding::{Folded, major};
use crate::redo::may_fold;
use crate::rewrite::{are_older, new_file, with_file};
use crate::row::{RowWritten, fold_row};
use crate::undoing::are_undone;
use kt_base::{Cells, NoMemory};
use kt_baseset::{BaseSet, Schema1};
use kt_deltafile::DeltaFile;
use kt_diskrowset::{BaseHeld, FileHeld, FileLists, RowSetData};
use kt_history::Delta;
use std::alloc::Global;
use std::sync::Arc;

// Whether timestamps rise, above 0.
fn are_rising(records: &[Delta]) -> bool
    ensures { OnTrue result (Rises 0 (steps_in records.now)) }
{
    let mut low = 0;
    'records: for record in records {
        if record.ts <= low {
            return false;
        }
        low = record.ts;
    }
    true
}

// Whether the records of a row in files lie below the first of others.
fn lie_below(files: &[FileHeld], ordinal: u32, redos: &[Delta]) -> bool
    ensures { OnTrue result (LieBelow (records_in ordinal (lists_of files.now)) (steps_in redos.now)) }
{
    match redos {
        [] => true,
        [first, ..] => are_older(files, ordinal, first.ts),
    }
}

// Whether files can hold a row.
fn is_held(columns: &Schema1, row: &RowWritten) -> bool
    ensures { OnTrue result (IsHeld columns.now (disk_row_of row.now)) }
{
    fits_files(columns.as_slice(), &[], row)
}

// Whether REDO records fold into a row, to one that files can hold.
fn fold_into(
    alloc: Global,
    columns: &Schema1,
    ordinal: u32,
    row: Cells,
    redos: &[Delta],
) -> Result<bool, NoMemory>
    ensures { IfOk result (λ folds. OnTrue folds (FoldsTo columns.now row (steps_in redos.now))) }
{
    match fold_row(alloc, 0, ordinal, row, redos)? {
        Some(folded) => Ok(is_held(columns, &folded)),
        None => Ok(false),
    }
}

// Whether the row at a place tells the same once these REDO records are folded in.
fn folds(
    alloc: Global,
    base: &BaseSet,
    columns: &Schema1,
    undo: &[FileHeld],
    ordinal: u32,
    redos: &[Delta],
) -> Result<bool, NoMemory>
    requires inside { ordinal < length base.now.rows }
    ensures { IfOk result (λ folds. OnTrue folds (Folds columns.now (records_in ordinal (lists_of undo.now)) (steps_in redos.now) (cells_in base.now.rows ordinal))) }
{
    if !are_rising(redos) {
        return Ok(false);
    }
    if !lie_below(undo, ordinal, redos) {
        return Ok(false);
    }
    let row = base.row(alloc, ordinal)?;
    let undone = are_undone(redos, row)?;
    if !undone {
        return Ok(false);
    }
    let row = base.row(alloc, ordinal)?;
    fold_into(alloc, columns, ordinal, row, redos)
}

// Whether it does once its own are.
fn row_folds(
    alloc: Global,
    base: &BaseSet,
    columns: &Schema1,
    undo: &FileLists,
    redo: &FileLists,
    ordinal: u32,
    redos: &mut Vec<Delta>,
) -> Result<bool, NoMemory>
    requires inside { ordinal < length base.now.rows }
    ensures { IfOk result (λ folds. OnTrue folds (Folds columns.now (records_in ordinal (lists_of undo.now)) (redos_at ordinal redo.now) (cells_in base.now.rows ordinal))) }
{
    redos.clear();
    redo.push_redos(alloc, ordinal, redos)?;
    folds(alloc, base, columns, undo.as_slice(), ordinal, redos)
}

// Whether each row does.
fn all_fold(
    alloc: Global,
    base: &BaseSet,
    undo: &FileLists,
    redo: &FileLists,
) -> Result<bool, NoMemory>
    ensures { IfOk result (λ fold. OnTrue fold (AllFold base.now undo.now redo.now)) }
{
    let columns = base.schema(alloc)?;
    let mut redos = Vec::new(alloc);
    'rows: for ordinal in 0..base.rows() {
        let folds = row_folds(alloc, base, &columns, undo, redo, ordinal, &mut redos)?;
        if !folds {
            return Ok(false);
        }
    }
    Ok(true)
}

// UNDO files with one more behind them, if there is one.
fn with_undo(
    alloc: Global,
    files: FileLists,
    undo: Option<DeltaFile>,
) -> Result<FileLists, NoMemory>
    ensures rows { IfOk result (λ all. (n : ℕ) → records_in n (lists_of all) ≡ records_in n (lists_of files) ++ records_for n (records_of undo)) }
    ensures files { IfOk result (λ all. AddsFile (as_files files) (as_files all)) }
{
    match undo {
        Some(file) => with_file(alloc, &files, new_file(alloc, file)?),
        None => Ok(files),
    }
}

// A REDO file alone, if there is one.
fn redo_alone(alloc: Global, redo: Option<DeltaFile>) -> Result<FileLists, NoMemory>
    ensures rows { IfOk result (λ all. (n : ℕ) → records_in n (lists_of all) ≡ records_for n (records_of redo)) }
    ensures one { IfOk result (λ all. length (lists_of all) ≤ 1) }
    ensures own { IfOk result (λ all. AllByRecursion (λ list. list ≡ records_of redo) (lists_of all)) }
    ensures files { IfOk result (λ all. IsOneFile (as_files all)) }
{
    let mut files = Vec::new(alloc);
    if let Some(file) = redo {
        files.push(new_file(alloc, file)?)?;
    }
    Ok(FileLists::of(files))
}

// A base file that is not written yet.
fn new_base(alloc: Global, set: BaseSet) -> Result<BaseHeld, NoMemory>
    ensures set { IfOk result (λ base. base.set.value ≡ set) }
    ensures number { IfOk result (λ base. base.file ≡ 0) }
{
    Ok(BaseHeld {
        file: 0,
        len: 0,
        set: Arc::new(alloc, set)?,
    })
}

// What a rowset's base file and REDO files are folded to, if each row tells the same then.
fn fold_whole(
    alloc: Global,
    base: &BaseSet,
    undo: &FileLists,
    redo: &FileLists,
) -> Result<Folded, NoMemory>
    ensures whole { IfOk result (IsFoldedWhole base.now undo.now redo.now) }
    ensures deletes { IfOk result (λ folded. AreDeletes (records_of folded.redo)) }
{
    let may = may_fold(alloc, redo, base.rows())?;
    if !may {
        return Err(NoMemory);
    }
    let fold = all_fold(alloc, base, undo, redo)?;
    if !fold {
        return Err(NoMemory);
    }
    major(alloc, base, redo, 0)
}

/// The rowset with its REDO records folded into its base rows: a new base file, an UNDO file more, and a REDO file of the deletes of
/// rows that end deleted, none of them written yet. Where a row would not tell the same or files could not hold it, which is so of
/// none whose changes a tablet took, it is as for want of memory.
pub fn with_folded(alloc: Global, rowset: RowSetData) -> Result<RowSetData, NoMemory>
    requires none { rowset.fresh ≡ [] }
    ensures same { IfOk result (IsRewritten rowset) }
    ensures folded { IfOk result (λ d. HasDeletesOnly (files_in d)) }
    ensures order { IfOk result TellsInOrder }
    ensures files { IfOk result (λ d. FoldsRedos (held_in rowset) (held_in d)) }
{
    let folded = fold_whole(alloc, &rowset.base.set, &rowset.undo, &rowset.redo)?;
    let base = new_base(alloc, folded.base)?;
    let undo = with_undo(alloc, rowset.undo, folded.undo)?;
    let redo = redo_alone(alloc, folded.redo)?;
    let rewritten = RowSetData {
        number: rowset.number,
        base,
        undo,
        redo,
        fresh: rowset.fresh,
    };
    let fit = rewritten.undos_fit(alloc)?;
    if !fit {
        return Err(NoMemory);
    }
    Ok(rewritten)
}
