//! The columns of a base file that are not the key's: made of rows, and read.
ghost use Rattle.std.specs.Prelude.{◌≡◌, ◌<◌, ◌^◌, ◌+◌, ◌++◌, ℕ, List, All, length, IfOk, IfErr, MatchResult};
ghost use Rattle.kt_base.specs.declared.cell.Cell.{Cell};
ghost use Rattle.kt_bytes.specs.declared.fault.Stop.TheVariants as stops;
ghost use Rattle.kt_column.specs.Blocks.{IsCell};
ghost use Rattle.kt_column.specs.Columns.{IsColumnFound, SpellsColumn};
ghost use Rattle.kt_baseset.specs.declared.held.HeldColumn.{HeldColumn};
ghost use Rattle.kt_baseset.specs.Rows.{AllFit, HaveIds, form_of};
ghost use Rattle.kt_baseset.specs.Tables as tables;
ghost use Rattle.kt_baseset.specs.Tables.{HasPlace};
ghost use Rattle.kt_baseset.specs.Reading.{IsRefusedAt, IsOneFault, IsEachFault, IsColumnsFault, ReadsOne, ReadsEach, ReadsColumns, Stops};

use crate::fields::{after, shape_of};
use crate::held::HeldColumn;
use crate::rows::KeyedRow;
use crate::schema::ColumnShape;
use kt_base::NoMemory;
use kt_bytes::Stop;
use kt_bytes::fields::u16_at;
use kt_column::{Cells1, CodecNo, ColumnData, build, decode};
use std::alloc::Global;

/// The cells at a place of each row.
fn cells_at(alloc: Global, rows: &[KeyedRow], j: usize) -> Result<Cells1, NoMemory>
    requires { All (HasPlace j) rows.now }
    ensures { IfOk result (λ cells. cells ≡ tables.cells_at j rows.now) }
{
    let mut cells = Vec::new(alloc);
    'rows: for row in rows {
        let listed = &row.cells.as_slice()[j];
        cells.push(listed.1.copy()?)?;
    }
    Ok(Cells1::of(cells))
}

/// The column whose cells stand at a place of each row.
fn column_at(
    alloc: Global,
    rows: &[KeyedRow],
    shape: ColumnShape,
    j: usize,
) -> Result<HeldColumn, NoMemory>
    requires places { All (HasPlace j) rows.now }
    requires fit { All (IsCell (form_of shape)) (tables.cells_at j rows.now) }
    requires few { length rows.now < 2 ^ 32 }
    ensures made { IfOk result (λ c. c ≡ tables.column_at shape j rows.now) }
    ensures id { shape.id < 2 ^ 16 }
{
    let cells = cells_at(alloc, rows, j)?;
    let column = build(alloc, &cells, shape.kind, shape.nullable)?;
    Ok(HeldColumn { shape, column })
}

/// The columns of rows.
pub fn columns_of(
    alloc: Global,
    rows: &[KeyedRow],
    schema: &[ColumnShape],
) -> Result<Vec<HeldColumn>, NoMemory>
    requires fit { AllFit schema.now rows.now }
    requires few { length rows.now < 2 ^ 32 }
    ensures columns { IfOk result (λ columns. columns.items ≡ tables.columns_of schema.now rows.now) }
    ensures ids { IfOk result (λ _. HaveIds schema.now) }
{
    let mut columns = Vec::new(alloc);
    'columns: for j in 0..schema.len() {
        let shape = schema[j];
        columns.push(column_at(alloc, rows, shape, j)?)?;
    }
    Ok(columns)
}

/// The blocks of a column of so many rows, and how many bytes they take.
fn blocks_at(
    alloc: Global,
    rows: u32,
    shape: ColumnShape,
    bytes: &[u8],
) -> Result<(ColumnData, usize), Stop>
    ensures found { IfOk result (λ found. (found.0.form ≡ form_of shape) × IsColumnFound (form_of shape) rows bytes.now found.0.cells found.1) }
    ensures only { (cs : List Cell) (front rest : List ℕ) → SpellsColumn (form_of shape) cs front → length cs ≡ rows → bytes.now ≡ front ++ rest → MatchResult result (λ found. (found.0 ≡ record { form = form_of shape; cells = cs }) × (found.1 ≡ length front)) (λ e. e ≡ stops.Memory) }
    ensures stop { IfErr result (Stops (IsRefusedAt (form_of shape) rows bytes.now)) }
{
    match decode(alloc, bytes, rows, shape.kind, shape.nullable) {
        Ok(found) => Ok(found),
        Err(CodecNo::Memory) => Err(Stop::Memory),
        Err(CodecNo::Place { offset }) => {
            Err(Stop::Left(bytes.len().saturating_sub(offset as usize)))
        }
    }
}

/// The column at the front of the bytes and what stands behind it. Its id is not below the least one, and leaves ids for
/// so many columns more.
fn read_one(
    alloc: Global,
    rows: u32,
    least: u32,
    more: u16,
    bytes: &[u8],
) -> Result<(HeldColumn, &[u8]), Stop>
    ensures found { IfOk result (λ x. ReadsOne rows least bytes.now x.0 x.1.now) }
    ensures room { IfOk result (λ x. x.0.shape.id + more < 2 ^ 16) }
    ensures only { (c : HeldColumn) (rest : List ℕ) → ReadsOne rows least bytes.now c rest → c.shape.id + more < 2 ^ 16 → MatchResult result (λ x. (x.0 ≡ c) × (x.1.now ≡ rest)) (λ e. e ≡ stops.Memory) }
    ensures stop { IfErr result (Stops (IsOneFault rows least more bytes.now)) }
{
    let (shape, behind) = match shape_of(least, more, bytes) {
        Ok(read) => read,
        Err(stop) => return Err(stop),
    };
    match blocks_at(alloc, rows, shape, behind) {
        Ok((column, used)) => Ok((HeldColumn { shape, column }, after(behind, used))),
        Err(stop) => Err(stop),
    }
}

/// So many columns of so many rows, and what stands behind them.
fn read_each(
    alloc: Global,
    rows: u32,
    n: u16,
    bytes: &[u8],
) -> Result<(Vec<HeldColumn>, &[u8]), Stop>
    ensures found { IfOk result (λ x. ReadsEach rows n bytes.now x.0.items x.1.now) }
    ensures only { (columns : List HeldColumn) (rest : List ℕ) → ReadsEach rows n bytes.now columns rest → MatchResult result (λ x. (x.0.items ≡ columns) × (x.1.now ≡ rest)) (λ e. e ≡ stops.Memory) }
    ensures stop { IfErr result (Stops (IsEachFault rows n bytes.now)) }
{
    let mut columns = Vec::new(alloc);
    let mut least = 0;
    let mut rest = bytes;
    'columns: for i in 0..n {
        let more = n - i - 1;
        let (column, behind) = match read_one(alloc, rows, least, more, rest) {
            Ok(read) => read,
            Err(stop) => return Err(stop),
        };
        least = u32::from(column.shape.id) + 1;
        columns.push(column)?;
        rest = behind;
    }
    Ok((columns, rest))
}

/// The columns of so many rows behind their count, and what stands behind them.
pub fn read_columns(
    alloc: Global,
    rows: u32,
    bytes: &[u8],
) -> Result<(Vec<HeldColumn>, &[u8]), Stop>
    ensures found { IfOk result (λ x. ReadsColumns rows bytes.now x.0.items x.1.now) }
    ensures only { (columns : List HeldColumn) (rest : List ℕ) → ReadsColumns rows bytes.now columns rest → MatchResult result (λ x. (x.0.items ≡ columns) × (x.1.now ≡ rest)) (λ e. e ≡ stops.Memory) }
    ensures stop { IfErr result (Stops (IsColumnsFault rows bytes.now)) }
{
    let (n, behind) = match u16_at(bytes) {
        Ok(read) => read,
        Err(stop) => return Err(stop),
    };
    match read_each(alloc, rows, n, behind) {
        Ok(read) => Ok(read),
        Err(stop) => Err(stop),
    }
}
