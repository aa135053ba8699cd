//! A list of cells.

ghost use Rattle.std.specs.Prelude.{◌≡◌, ◌==◌, length};

use kt_base::Cell;
use std::marker::Model;

/// The cells of one column, row by row. Contracts see them as a list.
#[derive(Drop)]
pub struct Cells1 {
    cells: Vec<Cell>,
}

impl Model for Cells1 {
    ghost use Rattle.std.specs.Prelude.{List};
    ghost use Rattle.kt_base.specs.declared.cell.Cell.{Cell};

    ghost Value = { List Cell };

    ghost view = { λ c. c.cells.items };
}

impl Cells1 {
    /// The cells of a vector, which takes no memory.
    pub fn of(cells: Vec<Cell>) -> Cells1
        ensures { result ≡ cells.items }
    {
        Cells1 { cells }
    }

    /// The cells as a vector, which takes no memory.
    pub fn into_vec(self) -> Vec<Cell>
        ensures { result.items ≡ self }
    {
        self.cells
    }

    pub fn len(&self) -> usize
        ensures { result ≡ length self.now }
    {
        self.cells.len()
    }

    pub fn is_empty(&self) -> bool
        ensures { result ≡ (length self.now == 0) }
    {
        self.cells.is_empty()
    }

    pub fn as_slice(&self) -> &[Cell]
        ensures { result.now ≡ self.now }
    {
        &self.cells
    }
}
