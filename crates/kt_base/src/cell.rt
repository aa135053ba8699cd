//! Cells, and lists of them.
ghost use Rattle.std.specs.Prelude.{◌≡◌, ◌==◌, IfOk, length};

use crate::{NoMemory, Octets};
use std::marker::Model;

/// The kinds of a column.
#[derive(Clone, Copy, Debug, PartialEq, Eq)]
pub enum Kind {
    Bool,
    Int8,
    Int16,
    Int32,
    Int64,
    String,
    Binary,
}

/// What stands in a row under one column.
#[derive(Clone, Drop)]
pub enum Cell {
    Null,
    Int(i64),
    Bool(bool),
    Bytes(Octets),
}

/// Cells by rising column id. Contracts see them as a list of ids and cells.
#[derive(Clone, Drop)]
pub struct Cells {
    cells: Vec<(u16, Cell)>,
}

impl Model for Cells {
    ghost use Rattle.std.specs.Prelude.{List, ℕ};
    ghost use Rattle.kt_base.specs.declared.cell.Cell.{Cell};

    ghost Value = { List (ℕ × Cell) };

    ghost view = { λ c. c.cells.items };
}

/// The cells of a line of rows, or of a key. Contracts see them as a list.
#[derive(Clone, Drop)]
pub struct Row {
    cells: Vec<Cell>,
}

impl Model for Row {
    ghost use Rattle.std.specs.Prelude.{List};
    ghost use Rattle.kt_base.specs.declared.cell.Cell.{Cell};

    ghost Value = { List Cell };

    ghost view = { λ r. r.cells.items };
}

impl Cell {
    pub fn copy(&self) -> Result<Cell, NoMemory>
        ensures { IfOk result (λ copy. copy ≡ self.now) }
    {
        Ok(self.clone()?)
    }
}

impl Cells {
    /// The cells of a vector, which takes no memory.
    pub fn of(cells: Vec<(u16, Cell)>) -> Cells
        ensures { result ≡ cells.items }
    {
        Cells { cells }
    }

    /// The cells as a vector, which takes no memory.
    pub fn into_vec(self) -> Vec<(u16, Cell)>
        ensures { result.items ≡ self }
    {
        self.cells
    }

    pub fn len(&self) -> usize
        ensures { result ≡ length self.now }
    {
        self.cells.len()
    }

    pub fn is_empty(&self) -> bool
        ensures { result ≡ (length self.now == 0) }
    {
        self.cells.is_empty()
    }

    pub fn as_slice(&self) -> &[(u16, Cell)]
        ensures { result.now ≡ self.now }
    {
        &self.cells
    }

    pub fn copy(&self) -> Result<Cells, NoMemory>
        ensures { IfOk result (λ copy. copy ≡ self.now) }
    {
        Ok(self.clone()?)
    }
}

impl Row {
    /// The cells of a vector, which takes no memory.
    pub fn of(cells: Vec<Cell>) -> Row
        ensures { result ≡ cells.items }
    {
        Row { cells }
    }

    /// The cells as a vector, which takes no memory.
    pub fn into_vec(self) -> Vec<Cell>
        ensures { result.items ≡ self }
    {
        self.cells
    }

    pub fn len(&self) -> usize
        ensures { result ≡ length self.now }
    {
        self.cells.len()
    }

    pub fn is_empty(&self) -> bool
        ensures { result ≡ (length self.now == 0) }
    {
        self.cells.is_empty()
    }

    pub fn as_slice(&self) -> &[Cell]
        ensures { result.now ≡ self.now }
    {
        &self.cells
    }

    pub fn copy(&self) -> Result<Row, NoMemory>
        ensures { IfOk result (λ copy. copy ≡ self.now) }
    {
        Ok(self.clone()?)
    }
}
