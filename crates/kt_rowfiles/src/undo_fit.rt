//! Whether the UNDO records of a row fit the rows from which they lead back.
ghost use Rattle.std.specs.Prelude.{◌≡◌, ◌^◌, IfOk, nat_lt, is_some, unwrap_or, Option, Some};
ghost use Rattle.std.specs.Option.{option_copied};
ghost use Rattle.std.specs.List.{list_all, list_any};
ghost use Rattle.std.specs.FinMap.Entries.{is_sorted};
ghost use Rattle.std.specs.Ordering.{is_eq, nat_cmp};
ghost use Rattle.kt_history.specs.Rows.{Row, fits, has_columns};
ghost use Rattle.kt_rowfiles.specs.Reading.{step_in};
ghost use Rattle.kt_rowfiles.specs.Records.{steps_at};
ghost use Rattle.kt_rowfiles.specs.Fitting.{is_row, step_fits, steps_fit};

use kt_base::{Cell, Cells, NoMemory};
use kt_history::{Change, Delta, apply};

/// Whether the ids of cells rise.
pub fn is_rising(cells: &[(u16, Cell)]) -> bool
    ensures { result ≡ is_sorted nat_cmp cells.now }
{
    let mut at = 1;
    'cells: while at < cells.len() {
        if cells[at].0 <= cells[at - 1].0 {
            return false;
        }
        at += 1;
    }
    true
}

/// Whether each column stands in a row once, by rising id; no row is one.
pub fn is_row(row: Option<&Cells>) -> bool
    ensures { result ≡ is_row (option_copied row.entry) }
{
    match row {
        Some(cells) => is_rising(cells.as_slice()),
        None => true,
    }
}

// Whether a row has a column.
fn has_id(cells: &[(u16, Cell)], id: u16) -> bool
    ensures { result ≡ list_any (λ c. is_eq (nat_cmp id c.0)) cells.now }
{
    cells.iter().any(|cell| id.cmp(&cell.0).is_eq())
}

// Whether a row has the columns of all these cells.
fn has_all(row: &[(u16, Cell)], cells: &[(u16, Cell)]) -> bool
    ensures { result ≡ list_all (λ c. list_any (λ d. is_eq (nat_cmp c.0 d.0)) row.now) cells.now }
{
    cells.iter().all(|cell| has_id(row, cell.0))
}

/// Whether an update is of columns that a row has; any other change, and one of no row, is.
pub fn has_columns(change: &Change, row: Option<&Cells>) -> bool
    ensures { result ≡ has_columns change.now (option_copied row.entry) }
{
    let (Change::Upd(cells), Some(old)) = (change, row) else {
        return true;
    };
    has_all(old.as_slice(), cells.as_slice())
}

/// Whether a change fits a row that is there, or is not: an insert where none is, the others where one is.
pub fn fits(change: &Change, there: bool) -> bool
    ensures { (row : Option Row) → is_some row ≡ there → result ≡ fits change.now row }
{
    match change {
        Change::Ins(_) => !there,
        Change::Upd(_) | Change::Del => there,
    }
}

// Whether a timestamp lies below another one, if there is one.
fn is_below(ts: u64, top: Option<u64>) -> bool
    ensures { result ≡ nat_lt ts (unwrap_or top (2 ^ 64)) }
{
    match top {
        Some(top) => ts < top,
        None => true,
    }
}

// Whether an UNDO record below a time, or below none, fits the row from which it leads back.
fn step_fits(record: &Delta, top: Option<u64>, row: Option<&Cells>) -> bool
    ensures { result ≡ step_fits (unwrap_or top (2 ^ 64)) (step_in record.now) (option_copied row.entry) }
{
    if !is_below(record.ts, top) {
        return false;
    }
    if !is_row(row) {
        return false;
    }
    if !fits(&record.change, row.is_some()) {
        return false;
    }
    has_columns(&record.change, row)
}

/// Whether UNDO records fit the rows from which they lead back, from this one on.
pub(crate) fn steps_fit(records: &[&Delta], base: Cells) -> Result<bool, NoMemory>
    ensures { IfOk result (λ fit. fit ≡ steps_fit (2 ^ 64) (steps_at records.now) (Some base)) }
{
    let mut row = Some(base);
    let mut top = None;
    'records: for record in records {
        if !step_fits(record, top, row.as_ref()) {
            return Ok(false);
        }
        apply(&record.change, &mut row)?;
        top = Some(record.ts);
    }
    Ok(true)
}
