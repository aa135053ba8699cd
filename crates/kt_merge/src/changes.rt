//! The changes of a MemRowSet, key by key.
ghost use Rattle.std.specs.Prelude.{◌≡◌, ◌∷◌, ◌++◌, ◌<◌, [], true, length, slice_get, Some, IfOk, OnOk};
ghost use Rattle.std.specs.Option.{option_copied};
ghost use Rattle.kt_cells.specs.Borrowed.{cells_in_ref};
ghost use Rattle.kt_history.specs.declared.changes.KeyChange.{KeyChange};
ghost use Rattle.kt_history.specs.AsBytes.{change_with, step_in as step_read, step_of};
ghost use Rattle.kt_history.specs.Stores.{row_of, after_steps};
ghost use Rattle.kt_history.specs.Views.{key_above};
ghost use Rattle.kt_rowfiles.specs.Reading.{step_in, steps_in};
ghost use Rattle.kt_rowfiles.specs.Taking.{spanned};
ghost use Rattle.kt_merge.specs.Changes.{rises, keys_in, hist_in_changes};

use kt_base::{Cells, NoMemory};
use kt_cells::CellsRef;
use kt_history::{Change, ChangeList, ChangeRef, Delta, Kindly};
use kt_rowfiles::{Span, take_change};
use std::alloc::Global;

/// The least key above another, or the least of all, where it lies.
pub fn key_after<'c>(changes: &'c ChangeList, after: Option<&[u8]>) -> Option<&'c [u8]>
    requires { rises changes.now ≡ true }
    ensures { option_copied result ≡ key_above (option_copied after.entry) (keys_in changes.now) }
{
    match after {
        None => changes.key(0),
        Some(after) => changes.key(changes.count_not_above(after)),
    }
}

// A copy of cells that are read where they lie.
fn cells_of(alloc: Global, cells: CellsRef<'_>) -> Result<Cells, NoMemory>
    ensures { IfOk result (λ copy. copy ≡ cells_in_ref cells.entry) }
{
    let mut copies = Vec::new(alloc);
    let mut rest = cells;
    'cells: while let Some(((id, cell), behind)) = rest.split_first() {
        copies.push((id, cell.to_cell(alloc)?))?;
        rest = behind;
    }
    Ok(Cells::of(copies))
}

// A change of this kind with these cells.
fn change_of(alloc: Global, kind: Kindly, cells: CellsRef<'_>) -> Result<Change, NoMemory>
    ensures { IfOk result (λ change. change ≡ change_with kind (cells_in_ref cells.entry)) }
{
    match kind {
        Kindly::Ins => Ok(Change::Ins(cells_of(alloc, cells)?)),
        Kindly::Upd => Ok(Change::Upd(cells_of(alloc, cells)?)),
        Kindly::Del => Ok(Change::Del),
    }
}

/// A copy of a change that is read where it lies, as a record of no row.
pub(crate) fn delta_of(alloc: Global, change: ChangeRef<'_>) -> Result<Delta, NoMemory>
    ensures { IfOk result (λ delta. step_in delta ≡ step_read change.entry) }
{
    Ok(Delta {
        ordinal: 0,
        ts: change.ts,
        change: change_of(alloc, change.kind, change.cells)?,
    })
}

// Takes the change at a place: up to the mark it is done to the row, and one in the span is added to others.
fn take_at(
    alloc: Global,
    changes: &ChangeList,
    at: usize,
    span: Span,
    row: &mut Option<Cells>,
    steps: &mut Vec<Delta>,
) -> Result<(), NoMemory>
    requires { at < length changes.now }
    ensures row { OnOk result ((c : KeyChange) → slice_get changes.now at ≡ Some c → row.new ≡ after_steps span.mark (step_of c ∷ []) row.old) }
    ensures steps { OnOk result ((c : KeyChange) → slice_get changes.now at ≡ Some c → steps_in steps.new.items ≡ steps_in steps.old.items ++ spanned span (step_of c ∷ [])) }
{
    let Some(change) = changes.get(at) else {
        return Ok(());
    };
    let delta = delta_of(alloc, change)?;
    take_change(span, delta, row, steps)
}

/// The row of a key at the mark, where it has one then. Copies of its changes in the span are added to others, from the oldest.
pub fn take_key(
    alloc: Global,
    changes: &ChangeList,
    key: &[u8],
    span: Span,
    steps: &mut Vec<Delta>,
) -> Result<Option<Cells>, NoMemory>
    requires { rises changes.now ≡ true }
    ensures row { IfOk result (λ row. row ≡ row_of span.mark (hist_in_changes key.now changes.now)) }
    ensures steps { IfOk result (λ _. steps_in steps.new.items ≡ steps_in steps.old.items ++ spanned span (hist_in_changes key.now changes.now).steps) }
{
    let start = changes.count_below(key);
    let end = changes.count_not_above(key);
    let mut row = None;
    'changes: for at in start..end {
        take_at(alloc, changes, at, span, &mut row, steps)?;
    }
    Ok(row)
}
