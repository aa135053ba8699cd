//! Whether changes can be undone.
ghost use Rattle.std.specs.Prelude.{IfOk, Some};
ghost use Rattle.std.specs.Bool.{OnTrue};
ghost use Rattle.std.specs.Option.{option_copied};
ghost use Rattle.kt_rowfiles.specs.Flushing.{IsChange, IsUndone, AllUndone};
ghost use Rattle.kt_rowfiles.specs.Reading.{steps_in};

use kt_base::{Cells, NoMemory};
use kt_history::{Change, Delta, apply};
use kt_rowfiles::undo_fit::{fits, has_columns, is_rising, is_row};

// Whether the cells of an update stand by rising id.
fn is_change(change: &Change) -> bool
    ensures { OnTrue result (IsChange change.now) }
{
    match change {
        Change::Upd(cells) => is_rising(cells.as_slice()),
        Change::Ins(_) | Change::Del => true,
    }
}

// Whether a change leads back over a row that is there, or is not.
fn is_undone(change: &Change, row: Option<&Cells>) -> bool
    ensures { OnTrue result (IsUndone change.now (option_copied row.entry)) }
{
    if !is_row(row) {
        return false;
    }
    if !fits(change, row.is_some()) {
        return false;
    }
    if !has_columns(change, row) {
        return false;
    }
    is_change(change)
}

/// Whether each of these changes can be undone, from a row on.
pub(crate) fn are_undone(records: &[Delta], base: Cells) -> Result<bool, NoMemory>
    ensures { IfOk result (λ can. OnTrue can (AllUndone (steps_in records.now) (Some base))) }
{
    let mut row = Some(base);
    'records: for record in records {
        if !is_undone(&record.change, row.as_ref()) {
            return Ok(false);
        }
        apply(&record.change, &mut row)?;
    }
    Ok(true)
}
