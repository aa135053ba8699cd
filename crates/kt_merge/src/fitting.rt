//! Whether files can hold a row. They hold each row of inputs that are sound; those that are not may have others.
ghost use Rattle.std.specs.Prelude.{◌≡◌, ◌≢◌, ◌≤◌, ◌<◌, ◌^◌, None};
ghost use Rattle.std.specs.Bool.{OnTrue, OnFalse};
ghost use Rattle.kt_cells.specs.Rules.{CellFits};
ghost use Rattle.kt_column.specs.Blocks.{IsCell};
ghost use Rattle.kt_column.specs.Forms.{IsInWidth};
ghost use Rattle.kt_baseset.specs.Rows.{RowFits};
ghost use Rattle.kt_deltafile.specs.declared.file.Way.TheVariants.{Redo, Undo};
ghost use Rattle.kt_deltafile.specs.Rules.{CellsFit, ChangeFits};
ghost use Rattle.kt_merge.specs.Fitting.{StandsUnder, IsUnder, AreFalling, FitsFiles};

use crate::row::RowWritten;
use kt_base::Cell;
use kt_baseset::ColumnShape;
use kt_column::Form;
use kt_history::{Change, Delta};
use kt_plain::{NumberWidth, Width};

/// The most bytes that a key has.
const KEY_BYTES: usize = 16_384;

// Whether the number is one of a width of several bits.
fn has_width(width: Width, number: i64) -> bool
    ensures yes { OnTrue result ((width ≢ Width.Numbers NumberWidth.Bit) × IsInWidth width number) }
    ensures no { OnFalse result (¬ ((width ≢ Width.Numbers NumberWidth.Bit) × IsInWidth width number)) }
{
    match width {
        Width::Numbers(NumberWidth::One) => i8::try_from(number).is_ok(),
        Width::Numbers(NumberWidth::Two) => i16::try_from(number).is_ok(),
        Width::Numbers(NumberWidth::Four) => i32::try_from(number).is_ok(),
        Width::Numbers(NumberWidth::Eight) => true,
        Width::Numbers(NumberWidth::Bit) | Width::Bytes => false,
    }
}

// Whether a column may hold the cell.
fn admits(form: Form, cell: &Cell) -> bool
    ensures yes { OnTrue result (IsCell form cell.now) }
    ensures no { OnFalse result (¬ IsCell form cell.now) }
{
    let width = form.width();
    match cell {
        Cell::Null => form.is_nullable(),
        Cell::Bool(_) => matches!(width, Width::Numbers(NumberWidth::Bit)),
        Cell::Bytes(bytes) => {
            matches!(width, Width::Bytes) && bytes.as_slice().len() <= form.limit() as usize
        }
        Cell::Int(number) => has_width(width, *number),
    }
}

// Whether a cell stands under the id of a column that may hold it.
fn stands_under(column: ColumnShape, cell: &(u16, Cell)) -> bool
    ensures yes { OnTrue result (StandsUnder column cell.now) }
    ensures no { OnFalse result (¬ StandsUnder column cell.now) }
{
    let form = Form::Cells {
        kind: column.kind,
        nullable: column.nullable,
    };
    cell.0 == column.id && admits(form, &cell.1)
}

// Whether a row has a cell under each of these columns and no others.
fn has_columns(columns: &[ColumnShape], row: &[(u16, Cell)]) -> bool
    ensures yes { OnTrue result (RowFits columns.now row.now) }
    ensures no { OnFalse result (¬ RowFits columns.now row.now) }
{
    if columns.len() != row.len() {
        return false;
    }
    'columns: for at in 0..columns.len() {
        if !stands_under(columns[at], &row[at]) {
            return false;
        }
    }
    true
}

// Whether a cell's value has a spelling.
fn is_spelled(cell: &Cell) -> bool
    ensures yes { OnTrue result (CellFits cell.now) }
    ensures no { OnFalse result (¬ CellFits cell.now) }
{
    match cell {
        Cell::Int(number) => {
            let _range = *number;
            true
        }
        Cell::Bytes(bytes) => bytes.len() <= u32::MAX as usize,
        Cell::Null | Cell::Bool(_) => true,
    }
}

// A column's id as a wider number.
fn wide(id: u16) -> u32
    ensures same { result ≡ id }
    ensures range { id < 2 ^ 16 }
{
    u32::from(id)
}

// Whether a cell may stand behind those of lesser ids.
fn may_stand(least: u32, cell: &(u16, Cell)) -> bool
    ensures yes { OnTrue result ((least ≤ cell.now.0) × CellFits cell.now.1) }
    ensures no { OnFalse result (¬ ((least ≤ cell.now.0) × CellFits cell.now.1)) }
{
    least <= wide(cell.0) && is_spelled(&cell.1)
}

// Whether cells stand by rising id, fewer than a count can say, each with a spelling.
fn cells_fit(cells: &[(u16, Cell)]) -> bool
    ensures yes { OnTrue result (CellsFit cells.now) }
    ensures no { OnFalse result (¬ CellsFit cells.now) }
{
    if cells.len() > u16::MAX as usize {
        return false;
    }
    let mut least: u32 = 0;
    'cells: for cell in cells {
        if !may_stand(least, cell) {
            return false;
        }
        least = wide(cell.0) + 1;
    }
    true
}

// Whether an UNDO file can hold a change.
fn change_fits(change: &Change) -> bool
    ensures yes { OnTrue result (ChangeFits Undo change.now) }
    ensures no { OnFalse result (¬ ChangeFits Undo change.now) }
{
    match change {
        Change::Ins(cells) | Change::Upd(cells) => cells_fit(cells.as_slice()),
        Change::Del => true,
    }
}

// Whether a timestamp is below another one, or below none.
fn is_under(top: Option<u64>, ts: u64) -> bool
    ensures range { ts < 2 ^ 64 }
    ensures yes { OnTrue result (IsUnder top ts) }
    ensures no { OnFalse result (¬ IsUnder top ts) }
{
    match top {
        Some(top) => ts < top,
        None => true,
    }
}

// Whether a record may stand behind the one before it.
fn may_follow(top: Option<u64>, undo: &Delta) -> bool
    ensures range { undo.now.ts < 2 ^ 64 }
    ensures yes { OnTrue result (IsUnder top undo.now.ts × ChangeFits Undo undo.now.change) }
    ensures no { OnFalse result (¬ (IsUnder top undo.now.ts × ChangeFits Undo undo.now.change)) }
{
    is_under(top, undo.ts) && change_fits(&undo.change)
}

// Whether records of one row may stand in an UNDO file.
fn are_falling(undos: &[Delta]) -> bool
    ensures yes { OnTrue result (AreFalling None undos.now) }
    ensures no { OnFalse result (¬ AreFalling None undos.now) }
{
    let mut top = None;
    'undos: for undo in undos {
        if !may_follow(top, undo) {
            return false;
        }
        top = Some(undo.ts);
    }
    true
}

/// Whether files can hold the row under a key.
pub fn fits_files(columns: &[ColumnShape], key: &[u8], row: &RowWritten) -> bool
    ensures yes { OnTrue result (FitsFiles columns.now key.now row.now) }
    ensures no { OnFalse result (¬ FitsFiles columns.now key.now row.now) }
{
    key.len() <= KEY_BYTES && has_columns(columns, row.base.as_slice()) && are_falling(&row.undos)
}

/// Whether a REDO file can hold the change of a record.
pub(crate) fn fits_redo(record: &Delta) -> bool
    ensures range { record.now.ts < 2 ^ 64 }
    ensures yes { OnTrue result (ChangeFits Redo record.now.change) }
{
    let _time = record.ts;
    match &record.change {
        Change::Upd(cells) => cells_fit(cells.as_slice()),
        Change::Del => true,
        Change::Ins(_) => false,
    }
}
