//! A cell, read from the front of some bytes.
//!
//! Each function gives the field and the bytes after it, or `Stop::Left` with how many bytes stand from the fault to the
//! end: none where bytes are missing, and all from the field's first byte on where the field is wrong.
ghost use Rattle.std.specs.Prelude.{◌≡◌};
ghost use Rattle.std.specs.Int.{w32};
ghost use Rattle.kt_bytes.specs.Reading.{Gives, counted_at};
ghost use Rattle.kt_base.specs.Borrowed.{cell_in};
ghost use Rattle.kt_cells.specs.Reading.{flag_at, cell_at};

use kt_base::{Cell, CellRef};
use kt_bytes::Stop;
use kt_bytes::fields::{front_of, u32_at, u64_at};
use std::alloc::Global;

fn text_of(bytes: &[u8]) -> Result<(&[u8], &[u8]), Stop>
    ensures { Gives (λ x. (x.0.now, x.1.now)) result (counted_at w32 bytes.now) }
{
    let (len, rest) = u32_at(bytes)?;
    front_of(rest, len as usize)
}

/// A byte that says no or yes.
#[tactic(auto, unfolding(crate::specs::Reading::flag_at))]
pub fn flag_of(bytes: &[u8]) -> Result<(bool, &[u8]), Stop>
    ensures { Gives (λ x. (x.0, x.1.now)) result (flag_at bytes.now) }
{
    match bytes {
        [] => Err(Stop::Left(0)),
        [0, rest @ ..] => Ok((false, rest)),
        [1, rest @ ..] => Ok((true, rest)),
        [_, ..] => Err(Stop::Left(bytes.len())),
    }
}

/// A cell that borrows its text from the bytes: the byte of its kind, and its value.
#[tactic(auto, unfolding(crate::specs::Reading::cell_at))]
pub fn cell_ref_of(bytes: &[u8]) -> Result<(CellRef<'_>, &[u8]), Stop>
    ensures { Gives (λ x. (cell_in x.0, x.1.now)) result (cell_at bytes.now) }
{
    match bytes {
        [] => Err(Stop::Left(0)),
        [0, rest @ ..] => Ok((CellRef::Null, rest)),
        [1, rest @ ..] => {
            let (flag, rest) = flag_of(rest)?;
            Ok((CellRef::Bool(flag), rest))
        }
        [2, rest @ ..] => {
            let (number, rest) = u64_at(rest)?;
            Ok((CellRef::Int(number.cast_signed()), rest))
        }
        [3, rest @ ..] => {
            let (text, rest) = text_of(rest)?;
            Ok((CellRef::Bytes(text), rest))
        }
        [_, ..] => Err(Stop::Left(bytes.len())),
    }
}

/// A cell with a text of its own.
pub fn cell_of(alloc: Global, bytes: &[u8]) -> Result<(Cell, &[u8]), Stop>
    ensures { Gives (λ x. (x.0, x.1.now)) result (cell_at bytes.now) }
{
    let (cell, rest) = cell_ref_of(bytes)?;
    Ok((cell.to_cell(alloc)?, rest))
}
