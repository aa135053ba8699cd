//! The column of keys that rise.

ghost use Rattle.std.specs.Prelude.{◌≡◌, ◌++◌, ℕ, List, length, IfOk, IfErr, MatchOption, MatchResult};
ghost use Rattle.std.specs.Option.{option_map};
ghost use Rattle.kt_base.specs.declared.cell.Cell.{Cell};
ghost use Rattle.kt_column.specs.Columns.{IsColumnFound, SpellsColumn};
ghost use Rattle.kt_column.specs.Keys as spec;
ghost use Rattle.kt_column.specs.Keys.{AreKeys, AreRising, IsKeyFall, NoKeyFalls, IsRisingRefusal};

use crate::column::ColumnData;
use crate::column_decoding::behind;
use crate::decoding::decode_block;
use crate::errors::CodecNo;
use crate::form::Form;
use crate::parts::read_head;
use kt_base::{Cell, NoMemory, Octets};
use kt_front::first_fall;
use std::alloc::Global;

/// The last key, or none where there is no key.
fn last_key(alloc: Global, column: &ColumnData) -> Result<Option<Octets>, NoMemory>
    requires { AreKeys column.now.cells }
    ensures { IfOk result (λ last. last ≡ spec.last_key column.now.cells) }
{
    let count = column.len();
    if count == 0 {
        return Ok(None);
    }
    match column.cell(alloc, count - 1)? {
        Cell::Bytes(key) => Ok(Some(key)),
        _ => unreachable!(),
    }
}

/// Where a key's cell begins that is not above the one before it, in the block at the front.
fn fall_in(
    alloc: Global,
    n: u32,
    before: Option<&[u8]>,
    bytes: &[u8],
) -> Result<Option<usize>, NoMemory>
    ensures { IfOk result (λ found. MatchOption found (NoKeyFalls n (option_map (λ b. b.now) before.entry) bytes.now) (IsKeyFall n (option_map (λ b. b.now) before.entry) bytes.now)) }
{
    let head = match read_head(Form::Keys, bytes) {
        Ok(head) => head,
        Err(_) => return Ok(None),
    };
    match first_fall(alloc, head.rest, n, Form::Keys.limit(), before)? {
        Some(at) => Ok(Some(5 + at)),
        None => Ok(None),
    }
}

/// The same behind the keys of a column.
fn fall_behind(
    alloc: Global,
    n: u32,
    column: &ColumnData,
    bytes: &[u8],
) -> Result<Option<usize>, NoMemory>
    requires { AreKeys column.now.cells }
    ensures { IfOk result (λ found. MatchOption found (NoKeyFalls n (spec.last_key column.now.cells) bytes.now) (IsKeyFall n (spec.last_key column.now.cells) bytes.now)) }
{
    match last_key(alloc, column)? {
        Some(key) => fall_in(alloc, n, Some(key.as_slice()), bytes),
        None => fall_in(alloc, n, None, bytes),
    }
}

/// The column of encoded keys that the bytes begin with, each above the one before it, and how many bytes it takes. A key
/// that is not is at fault where its cell begins, before what is wrong behind it.
pub fn decode_rising(alloc: Global, bytes: &[u8], rows: u32) -> Result<(ColumnData, usize), CodecNo>
    // What is read is spelled so, and rises.
    ensures found { IfOk result (λ found. (found.0.form ≡ Form.Keys) × IsColumnFound Form.Keys rows bytes.now found.0.cells found.1 × AreRising found.0.cells) }
    // What is spelled so is read, unless memory runs out.
    ensures only { (cs : List Cell) (front rest : List ℕ) → SpellsColumn Form.Keys cs front → length cs ≡ rows → AreRising cs → bytes.now ≡ front ++ rest → MatchResult result (λ found. (found.0 ≡ record { form = Form.Keys; cells = cs }) × (found.1 ≡ length front)) (λ e. e ≡ CodecNo.Memory) }
    // Where the first fault is.
    ensures refused { IfErr result (IsRisingRefusal rows bytes.now) }
{
    let mut column = ColumnData::new(alloc, Form::Keys);
    let mut used = 0;
    'parts: while column.len() < rows {
        let n = (rows - column.len()).min(8192);
        let part = &bytes[used..];
        if let Some(at) = fall_behind(alloc, n, &column, part)? {
            return Err(CodecNo::Place {
                offset: (used + at) as u64,
            });
        }
        match decode_block(alloc, Form::Keys, n, part) {
            Ok(found) => {
                column.push(found.block)?;
                used += found.len;
            }
            Err(no) => return Err(behind(used, no)),
        }
    }
    Ok((column, used))
}
