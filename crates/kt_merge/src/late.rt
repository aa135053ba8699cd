//! An output of a job with what the job's inputs took in memory since they were read.
ghost use Rattle.std.specs.Prelude.{◌≡◌, ◌<◌, [], ℕ, List, length, Some, IfOk};
ghost use Rattle.std.specs.List.{flat_map};
ghost use Rattle.std.specs.Option.{option_map, option_to_list};
ghost use Rattle.kt_history.specs.Rows.{Row};
ghost use Rattle.kt_baseset.specs.Tables.{key_at};
ghost use Rattle.kt_rowfiles.specs.Files.{row_under, records_for, records_in};
ghost use Rattle.kt_diskrowset.specs.Data.{files_in, held_in};
ghost use Rattle.kt_diskrowset.specs.Files.{lists_of};
ghost use Rattle.kt_diskrowset.specs.Rows.{rows_of, UndosLeadBack};
ghost use Rattle.kt_merge.specs.Late.{moved_of, fresh_above, fresh_in_all, TellsLate};
ghost use Rattle.kt_deltafile.specs.declared.file.Way.TheVariants.{Redo};
ghost use Rattle.kt_merge.specs.Rewriting.{IsRewritten, AddsRedo};

use crate::redo::merge_all;
use crate::rewrite::{are_above, are_redos, new_file, with_file};
use kt_base::NoMemory;
use kt_deltafile::{DeltaFile, Way};
use kt_diskrowset::{BaseHeld, FileHeld, FileLists, RowSetData};
use kt_history::{Delta, DeltaList};
use kt_rowfiles::copy_of;
use std::alloc::Global;

// The place that the key of a row has among other rows, if it is one of theirs.
fn place_in(
    alloc: Global,
    base: &BaseHeld,
    others: &BaseHeld,
    ordinal: u32,
) -> Result<Option<u32>, NoMemory>
    requires inside { ordinal < length base.now.set.value.rows }
    ensures { IfOk result (λ place. place ≡ option_map (λ (found : ℕ × Row). found.0) (row_under (key_at base.now.set.value.rows ordinal) 0 (rows_of others.now.set.value.rows))) }
{
    let key = base.key(alloc, ordinal)?;
    Ok(others.ordinal(key.as_slice()))
}

// A change above a bound of a row that an output has too, with its place there.
fn moved_one(
    alloc: Global,
    output: &BaseHeld,
    input: &RowSetData,
    record: &Delta,
    bound: u64,
) -> Result<Option<Delta>, NoMemory>
    ensures { IfOk result (λ moved. option_to_list moved ≡ moved_of bound input.now.base.set.value.rows (rows_of output.now.set.value.rows) record.now) }
{
    if record.ts <= bound || record.ordinal >= input.base.rows() {
        return Ok(None);
    }
    match place_in(alloc, &input.base, output, record.ordinal)? {
        Some(ordinal) => Ok(Some(Delta {
            ordinal,
            ts: record.ts,
            change: copy_of(&record.change)?,
        })),
        None => Ok(None),
    }
}

// The changes that an input has in memory above a bound, of rows that an output has too, with their places there.
fn moved(
    alloc: Global,
    output: &BaseHeld,
    input: &RowSetData,
    bound: u64,
) -> Result<Vec<Delta>, NoMemory>
    ensures { IfOk result (λ list. list.items ≡ flat_map (moved_of bound input.now.base.set.value.rows (rows_of output.now.set.value.rows)) input.now.fresh) }
{
    let mut list = Vec::new(alloc);
    'records: for record in input.fresh.as_slice() {
        if let Some(moved) = moved_one(alloc, output, input, record, bound)? {
            list.push(moved)?;
        }
    }
    Ok(list)
}

// The same as a REDO file of the output. Where they are none, which is so of none that a tablet took, it is as for want of memory.
fn late_file(
    alloc: Global,
    output: &BaseHeld,
    input: &RowSetData,
    bound: u64,
) -> Result<FileHeld, NoMemory>
    ensures { IfOk result (λ file. (q : List ℕ) (found : ℕ × Row) → row_under q 0 (rows_of output.now.set.value.rows) ≡ Some found → records_for found.0 file.deltas.value.list ≡ fresh_above bound q input.now) }
{
    output.standing();
    input.base.standing();
    let list = moved(alloc, output, input, bound)?;
    if !are_redos(&list, output.rows()) {
        return Err(NoMemory);
    }
    new_file(alloc, DeltaFile::of(DeltaList::of(list), Way::Redo))
}

// One for each input.
fn late_files(
    alloc: Global,
    output: &BaseHeld,
    inputs: &[RowSetData],
    bound: u64,
) -> Result<FileLists, NoMemory>
    ensures { IfOk result (λ files. (q : List ℕ) (found : ℕ × Row) → row_under q 0 (rows_of output.now.set.value.rows) ≡ Some found → records_in found.0 (lists_of files) ≡ fresh_in_all bound q inputs.now) }
{
    let mut files = Vec::with_capacity(alloc, inputs.len())?;
    'inputs: for input in inputs {
        files.push_reserved(late_file(alloc, output, input, bound)?);
    }
    Ok(FileLists::of(files))
}

/// A disk rowset without a change in memory, with one REDO file more, which is not written yet, if that has records. Where one of them does
/// not lie above the REDO records of its row it is as for want of memory.
pub(crate) fn with_redo(
    alloc: Global,
    rowset: RowSetData,
    file: DeltaFile,
) -> Result<RowSetData, NoMemory>
    requires redo { file.way ≡ Redo }
    requires none { rowset.fresh ≡ [] }
    ensures same { IfOk result (IsRewritten (record rowset { fresh = file.list })) }
    ensures files { IfOk result (λ d. AddsRedo (held_in rowset) (held_in d)) }
{
    let records = file.list().as_slice();
    if records.is_empty() {
        return Ok(rowset);
    }
    if !are_above(rowset.redo.as_slice(), records) {
        return Err(NoMemory);
    }
    let redo = with_file(alloc, &rowset.redo, new_file(alloc, file)?)?;
    Ok(RowSetData {
        number: rowset.number,
        base: rowset.base,
        undo: rowset.undo,
        redo,
        fresh: rowset.fresh,
    })
}

/// An output of a job with the changes that the inputs have in memory above a bound: those of its own rows, as one REDO file more, which
/// is not written yet, if there are some. Where they cannot be one, or one does not lie above the output's own REDO records, which is so
/// of none that a tablet took, it is as for want of memory.
pub fn with_late(
    alloc: Global,
    output: RowSetData,
    inputs: &[RowSetData],
    bound: u64,
) -> Result<RowSetData, NoMemory>
    requires fresh { output.fresh ≡ [] }
    ensures tells { IfOk result (TellsLate bound inputs.now output) }
    ensures number { IfOk result (λ d. d.number ≡ output.number) }
    ensures fresh { IfOk result (λ d. d.fresh ≡ []) }
    ensures lead { IfOk result (λ d. UndosLeadBack (files_in output) → UndosLeadBack (files_in d)) }
    ensures files { IfOk result (λ d. AddsRedo (held_in output) (held_in d)) }
{
    let files = late_files(alloc, &output.base, inputs, bound)?;
    let late = merge_all(alloc, &files)?;
    with_redo(alloc, output, late)
}
