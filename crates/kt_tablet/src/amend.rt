//! Rows that are filled: what an insert leaves out is of the fill.
ghost use Rattle.std.specs.Prelude.{◌≡◌, true, IfOk, OnOk};
ghost use Rattle.kt_cells.specs.Borrowed.{cells_in_ref};
ghost use Rattle.kt_history.specs.Rows.{with_cells, AgreeIn};

use kt_base::{Cell, CellRef, NoMemory};
use kt_cells::CellsRef;
use kt_history::RowRef;

// Makes the row of a fill with these cells in place of its own, in one go over both. Tells whether it did: it stops where the
// columns do not rise, and passes over the cells from the first one on that the fill has not.
fn fill_rising<'v>(
    row: &mut RowRef<'v>,
    fill: &'v [(u16, Cell)],
    cells: CellsRef<'v>,
) -> Result<bool, NoMemory>
    ensures { IfOk result (λ all. all ≡ true → row.new ≡ with_cells (cells_in_ref cells.entry) fill.now) }
{
    row.clear();
    let mut next = cells.split_first();
    let mut least = 0;
    'fill: for own in fill {
        let id = u32::from(own.0);
        if id < least {
            return Ok(false);
        }
        least = id + 1;
        if let Some((cell, others)) = next {
            if cell.0 == own.0 {
                row.push(own.0, cell.1)?;
                next = others.split_first();
                continue 'fill;
            }
        }
        row.push(own.0, CellRef::of(&own.1))?;
    }
    Ok(next.is_none())
}

// Makes the row of a fill with these cells in place of its own.
fn fill_with<'v>(
    row: &mut RowRef<'v>,
    fill: &'v [(u16, Cell)],
    cells: CellsRef<'v>,
) -> Result<(), NoMemory>
    ensures { OnOk result (row.new ≡ with_cells (cells_in_ref cells.entry) fill.now) }
{
    if fill_rising(row, fill, cells)? {
        return Ok(());
    }
    row.assign(fill)?;
    row.set_read(cells)
}

/// Lays a row over that of a fill with these cells in place of its own.
pub fn fill_under<'v>(
    row: &mut RowRef<'v>,
    fill: &'v [(u16, Cell)],
    cells: CellsRef<'v>,
) -> Result<(), NoMemory>
    ensures { OnOk result (row.new ≡ with_cells row.old (with_cells (cells_in_ref cells.entry) fill.now)) }
{
    if row.as_slice().is_empty() {
        fill_with(row, fill, cells)?;
        return Ok(());
    }
    row.set_under(cells)?;
    row.lay_over(fill)?;
    Ok(())
}

/// As `fill_under`, of the columns alone that are asked for.
pub fn fill_asked<'v>(
    row: &mut RowRef<'v>,
    ids: &[u16],
    fill: &'v [(u16, Cell)],
    cells: CellsRef<'v>,
) -> Result<(), NoMemory>
    ensures { OnOk result (AgreeIn ids.now row.new (with_cells row.old (with_cells (cells_in_ref cells.entry) fill.now))) }
{
    let all = row.set_asked(ids, cells)?;
    if all {
        return Ok(());
    }
    row.set_asked_last(ids, fill)?;
    Ok(())
}
