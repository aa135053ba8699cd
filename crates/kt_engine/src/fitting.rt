//! Whether columns are those that files hold, and cells those of columns.
ghost use Rattle.std.specs.Prelude.{◌≡◌, ◌≢◌, ◌≤◌, ◌<◌, ◌+◌, ◌^◌, ◌∷◌, List, drop, length};
ghost use Rattle.std.specs.Bool.{OnTrue};
ghost use Rattle.kt_base.specs.Borrowed.{cell_in};
ghost use Rattle.kt_cells.specs.Borrowed.{cells_in};
ghost use Rattle.kt_column.specs.Blocks.{IsCell};
ghost use Rattle.kt_column.specs.Forms.{IsInWidth};
ghost use Rattle.kt_history.specs.AsBytes.{change_with};
ghost use Rattle.kt_baseset.specs.declared.schema.ColumnShape.{ColumnShape as ShapeSpec};
ghost use Rattle.kt_baseset.specs.Rows.{AreShapes};
ghost use Rattle.kt_merge.specs.Fitting.{StandsUnder};
ghost use Rattle.kt_joblaws.specs.Apart.{ArePart, IsOfTable};

use kt_base::CellRef;
use kt_baseset::ColumnShape;
use kt_column::Form;
use kt_history::Kindly;
use kt_plain::{NumberWidth, Width};

// A column's id as a wider number.
fn wide(id: u16) -> u32
    ensures same { result ≡ id }
    ensures range { id < 2 ^ 16 }
{
    u32::from(id)
}

/// Whether columns stand by rising id, fewer than a count can say.
pub(crate) fn are_shapes(columns: &[ColumnShape]) -> bool
    ensures { OnTrue result (AreShapes columns.now) }
{
    if columns.len() > u16::MAX as usize {
        return false;
    }
    let mut least: u32 = 0;
    'columns: for column in columns {
        let id = wide(column.id);
        if id < least {
            return false;
        }
        least = id + 1;
    }
    true
}

// Whether the number is one of a width of several bits.
fn has_width(width: Width, number: i64) -> bool
    ensures { OnTrue result ((width ≢ Width.Numbers NumberWidth.Bit) × IsInWidth width number) }
{
    match width {
        Width::Numbers(NumberWidth::One) => i8::try_from(number).is_ok(),
        Width::Numbers(NumberWidth::Two) => i16::try_from(number).is_ok(),
        Width::Numbers(NumberWidth::Four) => i32::try_from(number).is_ok(),
        Width::Numbers(NumberWidth::Eight) => true,
        Width::Numbers(NumberWidth::Bit) | Width::Bytes => false,
    }
}

// Whether a column may hold the cell.
fn admits(form: Form, cell: CellRef<'_>) -> bool
    ensures { OnTrue result (IsCell form (cell_in cell.entry)) }
{
    let width = form.width();
    match cell {
        CellRef::Null => form.is_nullable(),
        CellRef::Bool(_) => matches!(width, Width::Numbers(NumberWidth::Bit)),
        CellRef::Bytes(bytes) => {
            matches!(width, Width::Bytes) && bytes.len() <= form.limit() as usize
        }
        CellRef::Int(number) => has_width(width, number),
    }
}

// Whether a cell stands under the id of a column that may hold it.
fn stands_under(column: ColumnShape, id: u16, cell: CellRef<'_>) -> bool
    ensures { OnTrue result (StandsUnder column (id, cell_in cell.entry)) }
{
    let form = Form::Cells {
        kind: column.kind,
        nullable: column.nullable,
    };
    id == column.id && admits(form, cell)
}

// Where the cells go on behind a column.
fn behind(column: ColumnShape, cells: &[(u16, CellRef<'_>)], at: usize) -> usize
    requires { at ≤ length cells.now }
    ensures inside { result ≤ length cells.now }
    ensures part { (columns : List ShapeSpec) → ArePart columns (drop result (cells_in cells.now)) → ArePart (column ∷ columns) (drop at (cells_in cells.now)) }
{
    if at == cells.len() {
        return at;
    }
    let (id, cell) = cells[at];
    if stands_under(column, id, cell) {
        at + 1
    } else {
        at
    }
}

// Whether cells are those of some of these columns, in their order.
fn are_part(columns: &[ColumnShape], cells: &[(u16, CellRef<'_>)]) -> bool
    ensures { OnTrue result (ArePart columns.now (cells_in cells.now)) }
{
    let mut at: usize = 0;
    'columns: for column in columns {
        at = behind(*column, cells, at);
    }
    at == cells.len()
}

/// Whether a change of these cells is one of a table: an insert has a cell of each column, and an update of some.
pub(crate) fn are_of_table(
    columns: &[ColumnShape],
    kind: Kindly,
    cells: &[(u16, CellRef<'_>)],
) -> bool
    ensures part { OnTrue result (ArePart columns.now (cells_in cells.now)) }
    ensures table { OnTrue result (IsOfTable columns.now (change_with kind (cells_in cells.now))) }
{
    match kind {
        Kindly::Ins => cells.len() == columns.len() && are_part(columns, cells),
        Kindly::Upd | Kindly::Del => are_part(columns, cells),
    }
}
