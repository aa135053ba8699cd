//! The keys of a base file: as a column, and as a list.
ghost use Rattle.std.specs.Prelude.{◌≡◌, ◌<◌, ◌+◌, ◌++◌, [], ℕ, List, length, IfOk, IfErr, MatchResult};
ghost use Rattle.kt_base.specs.declared.cell.Cell.{Cell};
ghost use Rattle.kt_bytes.specs.declared.fault.Stop.TheVariants as stops;
ghost use Rattle.kt_column.specs.declared.form.Form.TheVariants as forms;
ghost use Rattle.kt_column.specs.Columns.{IsColumnFound, SpellsColumn};
ghost use Rattle.kt_column.specs.Keys.{AreRising};
ghost use Rattle.kt_baseset.specs.Rows.{AreKeys, keys_in};
ghost use Rattle.kt_baseset.specs.Tables.{bytes_of, keys_of, key_cells, AreTexts};
ghost use Rattle.kt_baseset.specs.Reading.{AreRefusedAt, IsKeysFault, ReadsKeys, Stops};

use crate::fields::{after, rows_of};
use crate::rows::KeyedRow;
use kt_base::{Cell, NoMemory};
use kt_bytes::Stop;
use kt_column::{Cells1, CodecNo, ColumnData, build_keys, decode_rising};
use kt_lookup::KeyList;
use std::alloc::Global;

/// The keys as cells.
fn cells_of(alloc: Global, rows: &[KeyedRow]) -> Result<Cells1, NoMemory>
    ensures { IfOk result (λ cells. cells ≡ key_cells (keys_in rows.now)) }
{
    let mut cells = Vec::new(alloc);
    'rows: for row in rows {
        cells.push(Cell::Bytes(row.key.copy()?))?;
    }
    Ok(Cells1::of(cells))
}

/// The keys as a column.
pub fn column_of(alloc: Global, rows: &[KeyedRow]) -> Result<ColumnData, NoMemory>
    requires { AreKeys (keys_in rows.now) }
    ensures { IfOk result (λ column. column ≡ record { form = forms.Keys; cells = key_cells (keys_in rows.now) }) }
{
    let cells = cells_of(alloc, rows)?;
    build_keys(alloc, &cells)
}

/// The bytes of a key's cell.
fn key_of(cell: &Cell) -> &[u8]
    ensures { result.now ≡ bytes_of cell.now }
{
    match cell {
        Cell::Bytes(bytes) => bytes.as_slice(),
        _ => &[],
    }
}

/// How many bytes the keys of a column have together.
fn keys_len(alloc: Global, column: &ColumnData) -> Result<usize, NoMemory> {
    let mut len: usize = 0;
    for i in 0..column.len() {
        let cell = column.cell(alloc, i)?;
        len = len.saturating_add(key_of(&cell).len());
    }
    Ok(len)
}

/// Adds the keys of a column to a list, read in one go.
fn push_keys(column: &ColumnData, mut list: KeyList) -> Result<KeyList, NoMemory>
    requires texts { AreTexts column.now }
    requires none { list ≡ [] }
    ensures { IfOk result (λ list. list ≡ keys_of column.now.cells) }
{
    column.push_texts(&mut list)?;
    Ok(list)
}

/// The keys of a column as a list.
pub fn all_of(alloc: Global, column: &ColumnData) -> Result<KeyList, NoMemory>
    requires { AreTexts column.now }
    ensures { IfOk result (λ list. list ≡ keys_of column.now.cells) }
{
    push_keys(column, KeyList::new(alloc))
}

/// As `all_of`, of a list whose room is taken once: a buffer that grows would be there twice.
pub fn list_of(alloc: Global, column: &ColumnData) -> Result<KeyList, NoMemory>
    requires { AreTexts column.now }
    ensures { IfOk result (λ list. list ≡ keys_of column.now.cells) }
{
    let bytes = Vec::with_capacity(alloc, keys_len(alloc, column)?)?;
    let ends = Vec::with_capacity(alloc, column.len() as usize)?;
    push_keys(column, KeyList::cut(bytes, ends))
}

/// The key column of so many rows, whose keys rise, and how many bytes it takes.
fn keys_at(alloc: Global, rows: u32, bytes: &[u8]) -> Result<(ColumnData, usize), Stop>
    ensures found { IfOk result (λ found. (found.0.form ≡ forms.Keys) × IsColumnFound forms.Keys rows bytes.now found.0.cells found.1 × AreRising found.0.cells) }
    ensures only { (cs : List Cell) (front rest : List ℕ) → SpellsColumn forms.Keys cs front → length cs ≡ rows → AreRising cs → bytes.now ≡ front ++ rest → MatchResult result (λ found. (found.0 ≡ record { form = forms.Keys; cells = cs }) × (found.1 ≡ length front)) (λ e. e ≡ stops.Memory) }
    ensures stop { IfErr result (Stops (AreRefusedAt rows bytes.now)) }
{
    match decode_rising(alloc, bytes, rows) {
        Ok(found) => Ok(found),
        Err(CodecNo::Memory) => Err(Stop::Memory),
        Err(CodecNo::Place { offset }) => {
            Err(Stop::Left(bytes.len().saturating_sub(offset as usize)))
        }
    }
}

/// The keys of a base file, and what stands behind them.
#[derive(Drop)]
pub struct Front<'a> {
    pub column: ColumnData,
    pub list: KeyList,
    pub rest: &'a [u8],
}

/// The letters, the number of rows and the keys.
pub fn front_of(alloc: Global, bytes: &[u8]) -> Result<Front<'_>, Stop>
    ensures column { IfOk result (λ front. front.column ≡ record { form = forms.Keys; cells = key_cells front.list }) }
    ensures found { IfOk result (λ front. ReadsKeys bytes.now front.list front.rest.now) }
    ensures only { (keys : List (List ℕ)) (rest : List ℕ) → ReadsKeys bytes.now keys rest → MatchResult result (λ front. (front.list ≡ keys) × (front.rest.now ≡ rest)) (λ e. e ≡ stops.Memory) }
    ensures stop { IfErr result (Stops (IsKeysFault bytes.now)) }
{
    let (rows, behind) = match rows_of(bytes) {
        Ok(read) => read,
        Err(stop) => return Err(stop),
    };
    let (column, used) = match keys_at(alloc, rows, behind) {
        Ok(read) => read,
        Err(stop) => return Err(stop),
    };
    let Ok(list) = list_of(alloc, &column) else {
        return Err(Stop::Memory);
    };
    Ok(Front {
        column,
        list,
        rest: after(behind, used),
    })
}
