//! A whole row: the cells of its key, and its other cells.
ghost use Rattle.std.specs.Prelude.{◌≡◌, ◌++◌, [], map, Some, IfOk, OnOk, false};
ghost use Rattle.std.specs.Option.{option_map};
ghost use Rattle.std.specs.Ordering.{nat_cmp};
ghost use Rattle.std.specs.FinMap.Entries.{find};
ghost use Rattle.kt_base.specs.Borrowed.{cell_in};
ghost use Rattle.kt_cells.specs.Borrowed.{cells_in};
ghost use Rattle.kt_history.specs.Replies.{cell_of};
ghost use Rattle.kt_scan.specs.Encoded.{ids_with};
ghost use Rattle.kt_scan.specs.Whole.{whole_in};

use kt_base::CellRef;
use kt_history::RowRef;
use kt_schema::Column;
use std::alloc::Global;

/// A whole row where its cells lie, used again for each key. The cells of its key stand under the key columns, in order.
#[derive(Drop)]
pub struct WholeRow<'v> {
    pub key: Vec<CellRef<'v>>,
    pub others: RowRef<'v>,
}

// The cell of a key column, if this column is one.
fn key_cell<'v>(columns: &[Column], key: &[CellRef<'v>], id: u16) -> Option<CellRef<'v>>
    ensures { option_map cell_in result ≡ find nat_cmp id (ids_with columns.now (map cell_in key.now)) }
{
    let mut rest = columns;
    for cell in key {
        let Some((column, behind)) = rest.split_first() else {
            return None;
        };
        if column.id == id {
            return Some(*cell);
        }
        rest = behind;
    }
    None
}

// The cell of another column, if the row has one.
fn other_cell<'v>(cells: &[(u16, CellRef<'v>)], id: u16) -> Option<CellRef<'v>>
    ensures { option_map cell_in result ≡ find nat_cmp id (cells_in cells.now) }
{
    for cell in cells {
        if cell.0 == id {
            return Some(cell.1);
        }
    }
    None
}

impl<'v> WholeRow<'v> {
    /// No cells.
    pub fn new(alloc: Global) -> WholeRow<'v>
        ensures { result.key.items ≡ [] }
    {
        WholeRow {
            key: Vec::new(alloc),
            others: RowRef::new(alloc),
        }
    }

    /// The cell of a column, and null where the row has none.
    pub fn cell(&self, columns: &[Column], id: u16) -> CellRef<'v>
        ensures { cell_in result ≡ cell_of (whole_in columns.now self.now) id }
    {
        match key_cell(columns, &self.key, id) {
            Some(cell) => cell,
            None => other_cell(self.others.as_slice(), id).unwrap_or(CellRef::Null),
        }
    }
}
