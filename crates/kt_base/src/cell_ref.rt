//! A cell that borrows its text.
ghost use Rattle.std.specs.Prelude.{◌≡◌, IfOk};
ghost use Rattle.kt_base.specs.Borrowed.{cell_in};

use crate::{Cell, NoMemory, Octets};
use std::alloc::Global;

/// A cell that borrows its text, so that it is read without a copy.
#[derive(Clone, Copy)]
pub enum CellRef<'v> {
    Null,
    Int(i64),
    Bool(bool),
    Bytes(&'v [u8]),
}

impl<'v> CellRef<'v> {
    /// The same cell, borrowed.
    pub fn of(cell: &'v Cell) -> CellRef<'v>
        ensures { cell_in result ≡ cell.now }
    {
        match cell {
            Cell::Null => CellRef::Null,
            Cell::Int(number) => CellRef::Int(*number),
            Cell::Bool(truth) => CellRef::Bool(*truth),
            Cell::Bytes(bytes) => CellRef::Bytes(bytes.as_slice()),
        }
    }

    /// The same cell, with a text of its own.
    pub fn to_cell(self, alloc: Global) -> Result<Cell, NoMemory>
        ensures { IfOk result (λ cell. cell ≡ cell_in self.entry) }
    {
        Ok(match self {
            CellRef::Null => Cell::Null,
            CellRef::Int(number) => Cell::Int(number),
            CellRef::Bool(truth) => Cell::Bool(truth),
            CellRef::Bytes(bytes) => Cell::Bytes(Octets::from_slice(alloc, bytes)?),
        })
    }
}
