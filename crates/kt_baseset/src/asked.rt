//! The cells of a row in some columns alone.
ghost use Rattle.std.specs.Prelude.{◌≡◌, ◌++◌, All, IfOk, OnOk};
ghost use Rattle.kt_baseset.specs.Asked.{cell_asked, cells_asked};
ghost use Rattle.kt_baseset.specs.Tables.{row_at, HasCells};

use crate::held::HeldColumn;
use kt_base::{Cell, NoMemory};
use std::alloc::Global;

/// The cell of a row in a column, and the one that is named with it where there is no such column.
fn asked_of(
    alloc: Global,
    columns: &[HeldColumn],
    i: u32,
    asked: &(u16, Cell),
) -> Result<Cell, NoMemory>
    requires { All (HasCells i) columns.now }
    ensures { IfOk result (λ cell. cell ≡ cell_asked (row_at columns.now i) asked.now) }
{
    'columns: for held in columns {
        if held.shape.id == asked.0 {
            return held.column.cell(alloc, i);
        }
    }
    asked.1.copy()
}

/// Appends the cells of a row in some columns.
pub fn push_asked(
    alloc: Global,
    columns: &[HeldColumn],
    i: u32,
    asked: &[(u16, Cell)],
    cells: &mut Vec<Cell>,
) -> Result<(), NoMemory>
    requires { All (HasCells i) columns.now }
    ensures { OnOk result (cells.new.items ≡ cells.old.items ++ cells_asked asked.now (row_at columns.now i)) }
{
    'asked: for column in asked {
        cells.push(asked_of(alloc, columns, i, column)?)?;
    }
    Ok(())
}
