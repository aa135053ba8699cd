//! The columns of a script, held against those of a superblock.
ghost use Rattle.std.specs.Prelude.{◌≡◌, ◌≤◌, ◌↔◌, IsTrue, length, MatchOption};
ghost use Rattle.kt_reopen.specs.Tables.{AreLike, AllAreLike, DifferFirst};

use kt_base::Cell;
use kt_schema::Column;

// Whether two cells are the same.
fn same_cell(one: &Cell, other: &Cell) -> bool
    ensures { IsTrue result ↔ (one.now ≡ other.now) }
{
    match (one, other) {
        (Cell::Null, Cell::Null) => true,
        (Cell::Int(one), Cell::Int(other)) => one == other,
        (Cell::Bool(one), Cell::Bool(other)) => one == other,
        (Cell::Bytes(one), Cell::Bytes(other)) => one.as_slice() == other.as_slice(),
        _ => false,
    }
}

// Whether two defaults are the same, or both are missing.
fn same_default(one: &Option<Cell>, other: &Option<Cell>) -> bool
    ensures { IsTrue result ↔ (one.now ≡ other.now) }
{
    match (one, other) {
        (None, None) => true,
        (Some(one), Some(other)) => same_cell(one, other),
        _ => false,
    }
}

// Whether two columns differ in their ids at most.
fn are_like(one: &Column, other: &Column) -> bool
    ensures { IsTrue result ↔ AreLike one.now other.now }
{
    one.name.as_slice() == other.name.as_slice()
        && one.kind == other.kind
        && one.key == other.key
        && one.nullable == other.nullable
        && same_default(&one.default, &other.default)
}

/// The first column, counted from 1, in which two tables differ, or that only one of them has.
pub fn first_other(columns: &[Column], others: &[Column]) -> Option<u32>
    requires few { length columns.now ≤ 300 }
    ensures { MatchOption result (AllAreLike columns.now others.now) (λ at. DifferFirst columns.now others.now at) }
{
    let both = columns.len().min(others.len());
    'columns: for at in 0..both {
        if !are_like(&columns[at], &others[at]) {
            return Some(at as u32 + 1);
        }
    }
    if columns.len() == others.len() {
        None
    } else {
        Some(both as u32 + 1)
    }
}
