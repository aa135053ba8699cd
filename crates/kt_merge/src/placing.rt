//! An output of a job with what the MemRowSets that it was made of took since they were read.
ghost use Rattle.std.specs.Prelude.{◌≡◌, ◌<◌, [], ℕ, List, length, map, slice_get, Some, IfOk};
ghost use Rattle.std.specs.List.{flat_map};
ghost use Rattle.std.specs.Option.{option_to_list};
ghost use Rattle.kt_history.specs.declared.changes.KeyChange.{KeyChange};
ghost use Rattle.kt_history.specs.Rows.{Row};
ghost use Rattle.kt_histlaws.specs.Fitting.{steps_above};
ghost use Rattle.kt_rowfiles.specs.Files.{row_under, records_for, records_in};
ghost use Rattle.kt_rowfiles.specs.Merging.{all_above};
ghost use Rattle.kt_diskrowset.specs.Data.{files_in, held_in};
ghost use Rattle.kt_diskrowset.specs.Files.{lists_of};
ghost use Rattle.kt_diskrowset.specs.Rows.{rows_of, UndosLeadBack};
ghost use Rattle.kt_merge.specs.Changes.{steps_of, hist_in_changes};
ghost use Rattle.kt_merge.specs.Late.{placed_of, TellsChanges};
ghost use Rattle.kt_merge.specs.Rewriting.{AddsRedo};

use crate::changes::delta_of;
use crate::late::with_redo;
use crate::redo::merge_all;
use crate::rewrite::{are_redos, new_file};
use kt_base::NoMemory;
use kt_deltafile::{DeltaFile, Way};
use kt_diskrowset::{BaseHeld, FileHeld, FileLists, RowSetData};
use kt_history::{ChangeList, Delta, DeltaList};
use std::alloc::Global;

// The change at a place as a record of a row of an output, if it lies above a bound and the output has its key.
fn placed(
    alloc: Global,
    output: &BaseHeld,
    changes: &ChangeList,
    at: usize,
    bound: u64,
) -> Result<Option<Delta>, NoMemory>
    requires { at < length changes.now }
    ensures { IfOk result (λ placed. (c : KeyChange) → slice_get changes.now at ≡ Some c → option_to_list placed ≡ placed_of bound (rows_of output.now.set.value.rows) c) }
{
    let change = changes.at(at);
    if change.ts <= bound {
        return Ok(None);
    }
    let Some(key) = changes.key(at) else {
        return Ok(None);
    };
    let Some(ordinal) = output.ordinal(key) else {
        return Ok(None);
    };
    let delta = delta_of(alloc, change)?;
    Ok(Some(Delta {
        ordinal,
        ts: delta.ts,
        change: delta.change,
    }))
}

// Those of a list that are.
fn all_placed(
    alloc: Global,
    output: &BaseHeld,
    changes: &ChangeList,
    bound: u64,
) -> Result<Vec<Delta>, NoMemory>
    ensures { IfOk result (λ list. list.items ≡ flat_map (placed_of bound (rows_of output.now.set.value.rows)) changes.now) }
{
    let mut list = Vec::new(alloc);
    'changes: for at in 0..changes.len() {
        if let Some(record) = placed(alloc, output, changes, at, bound)? {
            list.push(record)?;
        }
    }
    Ok(list)
}

// They as a REDO file of the output. Where they are none, which is so of none that a tablet took, it is as for want of memory.
fn file_of(
    alloc: Global,
    output: &BaseHeld,
    changes: &ChangeList,
    bound: u64,
) -> Result<FileHeld, NoMemory>
    ensures { IfOk result (λ file. (q : List ℕ) (found : ℕ × Row) → row_under q 0 (rows_of output.now.set.value.rows) ≡ Some found → records_for found.0 file.deltas.value.list ≡ steps_above bound (steps_of q changes.now)) }
{
    let list = all_placed(alloc, output, changes, bound)?;
    if !are_redos(&list, output.rows()) {
        return Err(NoMemory);
    }
    new_file(alloc, DeltaFile::of(DeltaList::of(list), Way::Redo))
}

// One for each list.
fn files_of(
    alloc: Global,
    output: &BaseHeld,
    lists: &[ChangeList],
    bound: u64,
) -> Result<FileLists, NoMemory>
    ensures { IfOk result (λ files. (q : List ℕ) (found : ℕ × Row) → row_under q 0 (rows_of output.now.set.value.rows) ≡ Some found → records_in found.0 (lists_of files) ≡ all_above bound (map (hist_in_changes q) lists.now)) }
{
    let mut files = Vec::with_capacity(alloc, lists.len())?;
    'lists: for changes in lists {
        files.push_reserved(file_of(alloc, output, changes, bound)?);
    }
    Ok(FileLists::of(files))
}

/// An output of a job with the changes that lists have above a bound: those of its own rows, as one REDO file more, which is not
/// written yet, if there are some. Where they cannot be one, or one does not lie above the output's own REDO records, which is so of
/// none that a tablet took, it is as for want of memory.
pub fn with_changes(
    alloc: Global,
    output: RowSetData,
    lists: &[ChangeList],
    bound: u64,
) -> Result<RowSetData, NoMemory>
    requires fresh { output.fresh ≡ [] }
    ensures tells { IfOk result (TellsChanges bound lists.now output) }
    ensures number { IfOk result (λ d. d.number ≡ output.number) }
    ensures fresh { IfOk result (λ d. d.fresh ≡ []) }
    ensures lead { IfOk result (λ d. UndosLeadBack (files_in output) → UndosLeadBack (files_in d)) }
    ensures files { IfOk result (λ d. AddsRedo (held_in output) (held_in d)) }
{
    let files = files_of(alloc, &output.base, lists, bound)?;
    let late = merge_all(alloc, &files)?;
    with_redo(alloc, output, late)
}
