//! The check of a row.
ghost use Rattle.std.specs.Prelude.{◌≡◌, ◌&&◌, not, Some, None};
ghost use Rattle.std.specs.Result.{result_err};
ghost use Rattle.kt_key.specs.Fit.{has_kind};
ghost use Rattle.kt_schema.specs.Columns.{columns_no, key_kinds};
ghost use Rattle.kt_schema.specs.Rows.{is_null, is_unlike, is_forbidden, is_long, unlike_cell, forbidden_null, long_cell, row_no};

use crate::{Column, Schema};
use kt_base::limits::{CELL_LEN, KEY_LEN};
use kt_base::{Cell, Kind, Row};
use kt_key::{has_kind, key_len};
use thiserror::Error;

/// Why a schema does not take a row. A place is the number of a cell, from 0.
#[derive(Clone, Copy, Debug, PartialEq, Eq, Error)]
pub enum RowNo {
    /// A cell of another kind, or out of its range; or a cell or a column too much.
    #[error("cell {at} is not of its column's kind, or one too many")]
    S6 { at: usize },
    /// Null under a column that takes no null.
    #[error("cell {at} is null in a column that is not nullable")]
    S7 { at: usize },
    /// A cell of more than 65,536 bytes.
    #[error("cell {at} has more than 65,536 bytes")]
    S8 { at: usize },
    /// An encoded key of more than 16,384 bytes.
    #[error("the encoded key has {length} bytes, more than 16,384")]
    S9 { length: usize },
}

fn is_null(cell: &Cell) -> bool
    ensures { result ≡ is_null cell.now }
{
    matches!(cell, Cell::Null)
}

fn is_unlike(column: &Column, cell: &Cell) -> bool
    ensures { result ≡ is_unlike (Some column.now) (Some cell.now) }
{
    !is_null(cell) && !has_kind(column.kind, cell)
}

// The first cell of another kind than its column's, or the first place at which only one of both stands.
fn unlike_cell(columns: &[Column], cells: &[Cell]) -> Option<usize>
    ensures { result ≡ unlike_cell columns.now cells.now }
{
    let both = columns.len().min(cells.len());
    for at in 0..both {
        if is_unlike(&columns[at], &cells[at]) {
            return Some(at);
        }
    }
    if columns.len() == cells.len() {
        None
    } else {
        Some(both)
    }
}

fn is_forbidden(column: &Column, cell: &Cell) -> bool
    ensures { result ≡ is_forbidden (Some column.now) (Some cell.now) }
{
    is_null(cell) && !column.nullable
}

fn forbidden_null(columns: &[Column], cells: &[Cell]) -> Option<usize>
    ensures { result ≡ forbidden_null columns.now cells.now }
{
    let both = columns.len().min(cells.len());
    for at in 0..both {
        if is_forbidden(&columns[at], &cells[at]) {
            return Some(at);
        }
    }
    None
}

fn is_long(cell: &Cell) -> bool
    ensures { result ≡ is_long cell.now }
{
    match cell {
        Cell::Bytes(bytes) => bytes.len() > CELL_LEN,
        _ => false,
    }
}

fn long_cell(cells: &[Cell]) -> Option<usize>
    ensures { result ≡ long_cell cells.now }
{
    for (at, cell) in cells.iter().enumerate() {
        if is_long(cell) {
            return Some(at);
        }
    }
    None
}

// Why columns of a schema do not take the cells of a row.
fn row_no(columns: &[Column], kinds: &[Kind], cells: &[Cell]) -> Option<RowNo>
    requires fit { columns_no columns.now ≡ None }
    requires keys { kinds.now ≡ key_kinds columns.now }
    ensures { result ≡ row_no columns.now cells.now }
{
    if let Some(at) = unlike_cell(columns, cells) {
        return Some(RowNo::S6 { at });
    }
    if let Some(at) = forbidden_null(columns, cells) {
        return Some(RowNo::S7 { at });
    }
    if let Some(at) = long_cell(cells) {
        return Some(RowNo::S8 { at });
    }
    let length = key_len(kinds, &cells[..kinds.len()]);
    if length > KEY_LEN {
        Some(RowNo::S9 { length })
    } else {
        None
    }
}

impl Schema {
    /// Whether the schema takes the row, which is one of all columns.
    pub fn check_row(&self, row: &Row) -> Result<(), RowNo>
        ensures { result_err result ≡ row_no self.now row.now }
    {
        match row_no(self.columns(), self.key_kinds(), row.as_slice()) {
            Some(no) => Err(no),
            None => Ok(()),
        }
    }
}
