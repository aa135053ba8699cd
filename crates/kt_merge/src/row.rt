//! The row that is written of one history.
ghost use Rattle.std.specs.Prelude.{◌≡◌, [], ◌∷◌, OnOk, IfOk, IfSome, reverse, nat_lt, if◌then◌else◌};
ghost use Rattle.std.specs.List.{All};
ghost use Rattle.std.specs.Option.{option_map};
ghost use Rattle.kt_history.specs.Rows.{apply, undo};
ghost use Rattle.kt_rowfiles.specs.Reading.{steps_in};
ghost use Rattle.kt_rowfiles.specs.Flushing.{after_all, undone};
ghost use Rattle.kt_merge.specs.Folding.{row_folded};
ghost use Rattle.kt_merge.specs.Rows.{deleted_at, but_last, redos_of, row_written, disk_row_of};

use kt_base::{Cells, NoMemory};
use kt_history::{Change, Delta, apply};
use kt_rowfiles::back_over;
use std::alloc::Global;

/// What is written of a row: its base row, its UNDO records from the newest on, and the timestamp of a last change that
/// deletes it, if there is one.
#[derive(Drop)]
pub struct RowWritten {
    pub base: Cells,
    pub undos: Vec<Delta>,
    pub deleted: Option<u64>,
}

// Does a change to a row, and adds an UNDO record with this ordinal if it lies above the mark.
fn go_over(
    alloc: Global,
    mark: u64,
    ordinal: u32,
    step: &Delta,
    row: &mut Option<Cells>,
    undos: &mut Vec<Delta>,
) -> Result<(), NoMemory>
    ensures row { OnOk result (row.new ≡ apply step.now.change row.old) }
    ensures undos { OnOk result (reverse (steps_in undos.new.items) ≡ (if nat_lt mark step.now.ts then (step.now.ts, undo step.now.change row.old) ∷ reverse (steps_in undos.old.items) else reverse (steps_in undos.old.items))) }
    ensures ordinals { All (λ d. d.ordinal ≡ ordinal) undos.old.items → OnOk result (All (λ d. d.ordinal ≡ ordinal) undos.new.items) }
{
    if step.ts > mark {
        undos.push(Delta {
            ordinal,
            ts: step.ts,
            change: back_over(alloc, &step.change, row)?,
        })?;
    }
    apply(&step.change, row)
}

// Goes over changes from a row on.
fn go_over_all(
    alloc: Global,
    mark: u64,
    ordinal: u32,
    steps: &[Delta],
    row: &mut Option<Cells>,
    undos: &mut Vec<Delta>,
) -> Result<(), NoMemory>
    ensures row { OnOk result (row.new ≡ after_all (steps_in steps.now) row.old) }
    ensures undos { OnOk result (reverse (steps_in undos.new.items) ≡ undone mark (steps_in steps.now) row.old (reverse (steps_in undos.old.items))) }
    ensures ordinals { All (λ d. d.ordinal ≡ ordinal) undos.old.items → OnOk result (All (λ d. d.ordinal ≡ ordinal) undos.new.items) }
{
    'steps: for step in steps {
        go_over(alloc, mark, ordinal, step, row, undos)?;
    }
    Ok(())
}

// The timestamp of the last change, where that deletes the row.
fn deleted_at(steps: &[Delta]) -> Option<u64>
    ensures { result ≡ deleted_at (steps_in steps.now) }
{
    match steps {
        [] => None,
        [.., last] => match last.change {
            Change::Del => Some(last.ts),
            _ => None,
        },
    }
}

// All changes but the last.
fn but_last(steps: &[Delta]) -> &[Delta]
    ensures { steps_in result.now ≡ but_last (steps_in steps.now) }
{
    &steps[..steps.len().saturating_sub(1)]
}

// A row that is there after changes, with its UNDO records.
fn row_of(
    alloc: Global,
    mark: u64,
    ordinal: u32,
    first: Option<Cells>,
    steps: &[Delta],
    deleted: Option<u64>,
) -> Result<Option<RowWritten>, NoMemory>
    ensures row { IfOk result (λ written. option_map disk_row_of written ≡ option_map (λ base. record { base = base; undos = undone mark (steps_in steps.now) first []; redos = redos_of deleted }) (after_all (steps_in steps.now) first)) }
    ensures ordinals { IfOk result (λ written. IfSome written (λ w. All (λ d. d.ordinal ≡ ordinal) w.undos.items)) }
{
    let mut row = first;
    let mut undos = Vec::new(alloc);
    go_over_all(alloc, mark, ordinal, steps, &mut row, &mut undos)?;
    undos.reverse();
    match row {
        Some(base) => Ok(Some(RowWritten {
            base,
            undos,
            deleted,
        })),
        None => Ok(None),
    }
}

/// What is written as of a mark of a row, told by what it was before its changes and these, as the row with this ordinal:
/// nothing where there is no row from the mark on. A row that a last change above the mark deletes is written with its last
/// cells.
pub fn write_row(
    alloc: Global,
    mark: u64,
    ordinal: u32,
    first: Option<Cells>,
    steps: &[Delta],
) -> Result<Option<RowWritten>, NoMemory>
    ensures row { IfOk result (λ written. option_map disk_row_of written ≡ row_written mark (record { first = first; steps = steps_in steps.now })) }
    // Its UNDO records name it.
    ensures ordinals { IfOk result (λ written. IfSome written (λ w. All (λ d. d.ordinal ≡ ordinal) w.undos.items)) }
{
    match deleted_at(steps) {
        None => row_of(alloc, mark, ordinal, first, steps, None),
        Some(ts) if ts > mark => { row_of(alloc, mark, ordinal, first, but_last(steps), Some(ts)) }
        Some(_) => Ok(None),
    }
}

/// What a base row and its REDO records are folded to as of a mark, as the row with this ordinal: nothing where the changes
/// leave no row, which none do that fit. A row that a last change deletes stays with its last cells, wherever that change lies.
pub fn fold_row(
    alloc: Global,
    mark: u64,
    ordinal: u32,
    base: Cells,
    redos: &[Delta],
) -> Result<Option<RowWritten>, NoMemory>
    ensures row { IfOk result (λ folded. option_map disk_row_of folded ≡ row_folded mark base (steps_in redos.now)) }
    // Its UNDO records name it.
    ensures ordinals { IfOk result (λ folded. IfSome folded (λ w. All (λ d. d.ordinal ≡ ordinal) w.undos.items)) }
{
    match deleted_at(redos) {
        None => row_of(alloc, mark, ordinal, Some(base), redos, None),
        Some(ts) => row_of(alloc, mark, ordinal, Some(base), but_last(redos), Some(ts)),
    }
}
