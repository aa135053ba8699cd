//! Spelling cells behind other bytes.
ghost use Rattle.std.specs.Prelude.{◌≡◌, ◌<◌, ◌^◌, ◌++◌, ◌∷◌, [], length, OnOk};
ghost use Rattle.std.specs.List.{flat_map};
ghost use Rattle.std.specs.Int.{w16, w32, w64, to_le_bytes, cast_unsigned};
ghost use Rattle.kt_base.specs.Borrowed.{cell_in};
ghost use Rattle.kt_cells.specs.Spelling.{flag, listed_cell, cell_list};
ghost use Rattle.kt_cells.specs.Rules.{EachAfter, CellFits, FollowingCell};

use crate::tail::Tail;
use kt_base::{Cell, CellRef, Cells, NoMemory};

// A column's id, and what its cell is, which has no value.
fn listed_null(id: u16) -> [u8; 3]
    ensures { result ≡ to_le_bytes w16 id ++ 0 ∷ [] }
{
    let mut listed = [0; 3];
    listed[..2].copy_from_slice(&id.to_le_bytes());
    listed
}

// The same of a truth value, and that.
fn listed_bool(id: u16, value: bool) -> [u8; 4]
    ensures { result ≡ to_le_bytes w16 id ++ 1 ∷ flag value ∷ [] }
{
    let mut listed = [1; 4];
    listed[..2].copy_from_slice(&id.to_le_bytes());
    listed[3] = u8::from(value);
    listed
}

// The same of a number, and that.
fn listed_int(id: u16, number: i64) -> [u8; 11]
    ensures { result ≡ to_le_bytes w16 id ++ 2 ∷ to_le_bytes w64 (cast_unsigned w64 number) }
{
    let mut listed = [2; 11];
    listed[..2].copy_from_slice(&id.to_le_bytes());
    listed[3..].copy_from_slice(&number.to_le_bytes());
    listed
}

// The same of a byte string, and its length.
fn listed_bytes(id: u16, len: u32) -> [u8; 7]
    ensures { result ≡ to_le_bytes w16 id ++ 3 ∷ to_le_bytes w32 len }
{
    let mut listed = [3; 7];
    listed[..2].copy_from_slice(&id.to_le_bytes());
    listed[3..].copy_from_slice(&len.to_le_bytes());
    listed
}

/// Adds a column's id and its cell. Without memory a part of them may be added.
pub fn put_listed_cell(out: &mut Tail, id: u16, cell: CellRef<'_>) -> Result<(), NoMemory>
    requires { CellFits (cell_in cell) }
    ensures front { out.new.front ≡ out.old.front }
    ensures ok { OnOk result (out.new.added ≡ out.old.added ++ listed_cell (id, cell_in cell.entry)) }
{
    match cell {
        CellRef::Null => out.extend(&listed_null(id)),
        CellRef::Bool(value) => out.extend(&listed_bool(id, value)),
        CellRef::Int(number) => out.extend(&listed_int(id, number)),
        CellRef::Bytes(bytes) => {
            out.extend(&listed_bytes(id, bytes.len() as u32))?;
            out.extend(bytes)
        }
    }
}

fn put_cells(out: &mut Tail, cells: &[(u16, Cell)]) -> Result<(), NoMemory>
    requires { EachAfter FollowingCell [] cells.now }
    ensures front { out.new.front ≡ out.old.front }
    ensures ok { OnOk result (out.new.added ≡ out.old.added ++ flat_map listed_cell cells.now) }
{
    'cells: for listed in cells {
        put_listed_cell(out, listed.0, CellRef::of(&listed.1))?;
    }
    Ok(())
}

/// Adds the count of the cells, and the cells.
pub fn put_cell_list(out: &mut Tail, cells: &Cells) -> Result<(), NoMemory>
    requires count { length cells.now < 2 ^ 16 }
    requires cells { EachAfter FollowingCell [] cells.now }
    ensures front { out.new.front ≡ out.old.front }
    ensures ok { OnOk result (out.new.added ≡ out.old.added ++ cell_list cells.now) }
{
    out.extend(&(cells.len() as u16).to_le_bytes())?;
    put_cells(out, cells.as_slice())
}
