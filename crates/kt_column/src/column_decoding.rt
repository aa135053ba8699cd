//! From the bytes of a column to its cells.

ghost use Rattle.std.specs.Prelude.{◌≡◌, ◌<◌, ◌+◌, ◌++◌, ℕ, List, length, IfOk, IfErr, MatchResult};
ghost use Rattle.kt_base.specs.declared.cell.Cell.{Cell};
ghost use Rattle.kt_column.specs.Columns as spec;
ghost use Rattle.kt_column.specs.Columns.{IsColumnFound, IsColumnRefusal, SpellsColumn};

use crate::column::ColumnData;
use crate::decoding::decode_block;
use crate::errors::CodecNo;
use crate::form::Form;
use kt_base::{Kind, NoMemory};
use std::alloc::Global;

/// A refusal behind so many bytes.
pub(crate) fn behind(used: usize, no: CodecNo) -> CodecNo
    requires { spec.IsShiftable used no }
    ensures { result ≡ spec.shifted used no }
{
    match no {
        CodecNo::Place { offset } => CodecNo::Place {
            offset: used as u64 + offset,
        },
        CodecNo::Memory => CodecNo::Memory,
    }
}

/// The column of so many rows at the front of the bytes, and how many bytes it takes.
fn read_column(
    alloc: Global,
    form: Form,
    rows: u32,
    bytes: &[u8],
) -> Result<(ColumnData, usize), CodecNo>
    ensures form { IfOk result (λ found. found.0.form ≡ form) }
    ensures found { IfOk result (λ found. IsColumnFound form rows bytes.now found.0.cells found.1) }
    ensures only { (cs : List Cell) (front rest : List ℕ) → SpellsColumn form cs front → length cs ≡ rows → bytes.now ≡ front ++ rest → MatchResult result (λ found. (found.0 ≡ record { form = form; cells = cs }) × (found.1 ≡ length front)) (λ e. e ≡ CodecNo.Memory) }
    ensures refused { IfErr result (IsColumnRefusal form rows bytes.now) }
{
    let mut column = ColumnData::new(alloc, form);
    let mut used = 0;
    'parts: while column.len() < rows {
        let n = (rows - column.len()).min(8192);
        match decode_block(alloc, form, n, &bytes[used..]) {
            Ok(found) => {
                column.push(found.block)?;
                used += found.len;
            }
            Err(no) => return Err(behind(used, no)),
        }
    }
    Ok((column, used))
}

/// The column of a kind that the bytes begin with, and how many bytes it takes.
pub fn decode(
    alloc: Global,
    bytes: &[u8],
    rows: u32,
    kind: Kind,
    nullable: bool,
) -> Result<(ColumnData, usize), CodecNo>
    // What is read is spelled so.
    ensures found { IfOk result (λ found. (found.0.form ≡ Form.Cells kind nullable) × IsColumnFound (Form.Cells kind nullable) rows bytes.now found.0.cells found.1) }
    // What is spelled so is read, unless memory runs out.
    ensures only { (cs : List Cell) (front rest : List ℕ) → SpellsColumn (Form.Cells kind nullable) cs front → length cs ≡ rows → bytes.now ≡ front ++ rest → MatchResult result (λ found. (found.0 ≡ record { form = Form.Cells kind nullable; cells = cs }) × (found.1 ≡ length front)) (λ e. e ≡ CodecNo.Memory) }
    // Where the first fault is.
    ensures refused { IfErr result (IsColumnRefusal (Form.Cells kind nullable) rows bytes.now) }
{
    read_column(alloc, Form::Cells { kind, nullable }, rows, bytes)
}

/// The column of encoded keys that the bytes begin with, and how many bytes it takes.
pub fn decode_keys(alloc: Global, bytes: &[u8], rows: u32) -> Result<(ColumnData, usize), CodecNo>
    ensures found { IfOk result (λ found. (found.0.form ≡ Form.Keys) × IsColumnFound Form.Keys rows bytes.now found.0.cells found.1) }
    ensures only { (cs : List Cell) (front rest : List ℕ) → SpellsColumn Form.Keys cs front → length cs ≡ rows → bytes.now ≡ front ++ rest → MatchResult result (λ found. (found.0 ≡ record { form = Form.Keys; cells = cs }) × (found.1 ≡ length front)) (λ e. e ≡ CodecNo.Memory) }
    ensures refused { IfErr result (IsColumnRefusal Form.Keys rows bytes.now) }
{
    read_column(alloc, Form::Keys, rows, bytes)
}
