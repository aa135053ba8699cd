//! The tests of a scan, and its selection.
ghost use Rattle.std.specs.Prelude.{◌≡◌, ◌++◌, Some, None, IfOk, OnOk, map, if◌then◌else◌};
ghost use Rattle.kt_base.specs.Borrowed.{cell_in};
ghost use Rattle.kt_cells.specs.Borrowed.{cells_in};
ghost use Rattle.kt_history.specs.Replies.{cell_cmp, is_null, passes, kept, selected, cell_of};
ghost use Rattle.kt_scan.specs.Encoded.{ids_with};
ghost use Rattle.kt_scan.specs.Lines.{cut};
ghost use Rattle.kt_scan.specs.Whole.{whole_in};

use crate::cells::add;
use crate::row::WholeRow;
use kt_base::{Cell, CellRef, NoMemory};
use kt_history::{ColumnIds, Pred, Scan, Test};
use kt_schema::Column;
use std::cmp::Ordering;

// How two cells of one kind compare. Null compares with nothing.
fn cell_cmp(cell: CellRef<'_>, other: &Cell) -> Option<Ordering>
    ensures { result ≡ cell_cmp (cell_in cell.entry) other.now }
{
    match (cell, other) {
        (CellRef::Int(number), Cell::Int(other)) => Some(number.cmp(other)),
        (CellRef::Bool(truth), Cell::Bool(other)) => Some(truth.cmp(other)),
        (CellRef::Bytes(bytes), Cell::Bytes(other)) => Some(bytes.cmp(&other.as_slice())),
        _ => None,
    }
}

fn is_null(cell: CellRef<'_>) -> bool
    ensures { result ≡ is_null (cell_in cell.entry) }
{
    matches!(cell, CellRef::Null)
}

fn passes(test: &Test, cell: CellRef<'_>) -> bool
    ensures { result ≡ passes test.now (cell_in cell.entry) }
{
    match test {
        Test::Eq(wanted) => cell_cmp(cell, wanted).is_some_and(Ordering::is_eq),
        Test::Lt(wanted) => cell_cmp(cell, wanted).is_some_and(Ordering::is_lt),
        Test::Le(wanted) => cell_cmp(cell, wanted).is_some_and(Ordering::is_le),
        Test::Gt(wanted) => cell_cmp(cell, wanted).is_some_and(Ordering::is_gt),
        Test::Ge(wanted) => cell_cmp(cell, wanted).is_some_and(Ordering::is_ge),
        Test::IsNull => is_null(cell),
        Test::NotNull => !is_null(cell),
    }
}

/// Whether a whole row passes all tests.
pub fn kept(preds: &[Pred], columns: &[Column], row: &WholeRow<'_>) -> bool
    ensures { result ≡ kept preds.now (whole_in columns.now row.now) }
{
    for pred in preds {
        if !passes(&pred.test, row.cell(columns, pred.column)) {
            return false;
        }
    }
    true
}

// Adds the cells of a key that stand under its columns.
fn push_key<'v>(
    columns: &[Column],
    key: &[CellRef<'v>],
    cells: &mut Vec<CellRef<'v>>,
) -> Result<(), NoMemory>
    ensures { OnOk result (map cell_in cells.new.items ≡ map cell_in cells.old.items ++ map (λ c. c.1) (ids_with columns.now (map cell_in key.now))) }
{
    let mut rest = columns;
    for cell in key {
        let Some((_, behind)) = rest.split_first() else {
            return Ok(());
        };
        add(cells, *cell)?;
        rest = behind;
    }
    Ok(())
}

// Adds the other cells of a row.
fn push_others<'v>(
    others: &[(u16, CellRef<'v>)],
    cells: &mut Vec<CellRef<'v>>,
) -> Result<(), NoMemory>
    ensures { OnOk result (map cell_in cells.new.items ≡ map cell_in cells.old.items ++ map (λ c. c.1) (cells_in others.now)) }
{
    for cell in others {
        add(cells, cell.1)?;
    }
    Ok(())
}

// Adds the cells of these columns.
fn push_under<'v>(
    ids: &[u16],
    columns: &[Column],
    row: &WholeRow<'v>,
    cells: &mut Vec<CellRef<'v>>,
) -> Result<(), NoMemory>
    ensures { OnOk result (map cell_in cells.new.items ≡ map cell_in cells.old.items ++ map (cell_of (whole_in columns.now row.now)) ids.now) }
{
    for id in ids {
        add(cells, row.cell(columns, *id))?;
    }
    Ok(())
}

// The selected cells of a whole row, in the order of the selection, in place of the cells before.
fn select<'v>(
    selection: &Option<ColumnIds>,
    columns: &[Column],
    row: &WholeRow<'v>,
    cells: &mut Vec<CellRef<'v>>,
) -> Result<(), NoMemory>
    ensures { OnOk result (map cell_in cells.new.items ≡ selected selection.now (whole_in columns.now row.now)) }
{
    cells.clear();
    match selection {
        None => {
            push_key(columns, &row.key, cells)?;
            push_others(row.others.as_slice(), cells)
        }
        Some(ids) => push_under(ids.as_slice(), columns, row, cells),
    }
}

/// What a scan shows of a whole row, in place of the cells before. Tells whether the row passes the tests.
pub fn cut<'v>(
    scan: &Scan,
    columns: &[Column],
    row: &WholeRow<'v>,
    cells: &mut Vec<CellRef<'v>>,
) -> Result<bool, NoMemory>
    ensures { IfOk result (λ kept. (if kept then Some (map cell_in cells.new.items) else None) ≡ cut scan.now (whole_in columns.now row.now)) }
{
    if !kept(scan.preds.as_slice(), columns, row) {
        return Ok(false);
    }
    select(&scan.columns, columns, row, cells)?;
    Ok(true)
}
