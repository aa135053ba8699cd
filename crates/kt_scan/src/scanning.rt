//! A scan over several views.
ghost use Rattle.std.specs.Prelude.{◌≡◌, ◌≤◌, ◌++◌, map, true, Some, None, IfOk, OnOk, if◌then◌else◌};
ghost use Rattle.std.specs.List.{All};
ghost use Rattle.std.specs.Option.{option_to_list};
ghost use Rattle.kt_schema.specs.Columns.{key_columns};
ghost use Rattle.kt_base.specs.Borrowed.{cell_in};
ghost use Rattle.kt_history.specs.Rows.{Row};
ghost use Rattle.kt_history.specs.Replies.{shown};
ghost use Rattle.kt_scan.specs.Encoded.{keys_of, ids_with};
ghost use Rattle.kt_scan.specs.Live.{row_in, live_rows};
ghost use Rattle.kt_scan.specs.Lines.{line_of, cut};
ghost use Rattle.kt_scan.specs.Whole.{whole_in};

use crate::asked::{Asked, asked_ids, tested_ids};
use crate::key_cells::{read_key, read_plain};
use crate::keys::{Hints, columns_into, next_key, row_into};
use crate::row::WholeRow;
use crate::tested::{cut, kept};
use kt_base::{Cell, CellRef, NoMemory};
use kt_history::{RowList, RowRef, Scan, View};
use kt_schema::Schema;
use std::alloc::Global;

// Adds what a scan shows of a whole row, if that passes the tests.
fn push_cut<'v>(
    asked: &Asked<'_>,
    row: &WholeRow<'v>,
    line: &mut Vec<CellRef<'v>>,
    rows: &mut RowList,
) -> Result<(), NoMemory>
    ensures { OnOk result (rows.new ≡ rows.old ++ option_to_list (cut asked.now.scan.now (whole_in (key_columns asked.now.schema.now) row.now))) }
{
    if !cut(asked.scan, asked.schema.key_columns(), row, line)? {
        return Ok(());
    }
    rows.make_room(line.len());
    rows.push(line)
}

// Reads the cells of a key where they lie, if the scan shows or tests any of them. Tells whether all of them lie there.
fn read_for<'v>(
    asked: &Asked<'_>,
    key: &'v [u8],
    cells: &mut Vec<CellRef<'v>>,
) -> Result<bool, NoMemory>
    ensures { IfOk result (λ read. read ≡ true → (others : Row)
        → cut asked.now.scan.now (ids_with (key_columns asked.now.schema.now) (map cell_in cells.new.items) ++ others) ≡ line_of (keys_of asked.now.schema.now) asked.now.scan.now key.now (Some others)) }
{
    if !asked.with_key {
        return Ok(true);
    }
    let lie = read_plain(asked.schema.key_kinds(), key, cells)?;
    Ok(lie)
}

// Adds the same cells, borrowed.
fn push_borrowed<'v>(cells: &'v [Cell], refs: &mut Vec<CellRef<'v>>) -> Result<(), NoMemory>
    ensures { OnOk result (map cell_in refs.new.items ≡ map cell_in refs.old.items ++ cells.now) }
{
    for cell in cells {
        refs.push(CellRef::of(cell))?;
    }
    Ok(())
}

// As `push_line`, of any key. The cells of the key are read into texts of their own, and the row once more.
fn push_copied<V: View>(
    alloc: Global,
    views: &[V],
    t: u64,
    asked: &Asked<'_>,
    key: &[u8],
    hints: &mut Hints,
    rows: &mut RowList,
) -> Result<(), NoMemory>
    requires { All (λ v. V.mark v ≤ t) views.now }
    ensures { OnOk result (rows.new ≡ rows.old ++ option_to_list (line_of (keys_of asked.now.schema.now) asked.now.scan.now key.now (row_in V.row_of views.now key.now t))) }
{
    let mut cells = Vec::new(alloc);
    read_key(alloc, asked.schema.key_kinds(), key, &mut cells)?;
    let mut row = WholeRow::new(alloc);
    push_borrowed(&cells, &mut row.key)?;
    if !row_into(&*views, key, t, hints, &mut row.others)? {
        return Ok(());
    }
    let mut line = Vec::new(alloc);
    push_cut(asked, &row, &mut line, rows)
}

// Reads the row of a key, or of that what the scan asks for. Tells whether there is one.
fn row_for<'v, V: View>(
    views: &'v [V],
    t: u64,
    asked: &Asked<'_>,
    key: &[u8],
    hints: &mut Hints,
    row: &mut RowRef<'v>,
) -> Result<bool, NoMemory>
    requires { All (λ v. V.mark v ≤ t) views.now }
    ensures { IfOk result (λ found. line_of (keys_of asked.now.schema.now) asked.now.scan.now key.now (row_in V.row_of views.now key.now t) ≡ line_of (keys_of asked.now.schema.now) asked.now.scan.now key.now (if found then Some row.new else None)) }
{
    match &asked.scan.columns {
        Some(_) => {
            let found = columns_into(views, asked.ids, key, t, hints, row)?;
            Ok(found)
        }
        None => {
            let found = row_into(views, key, t, hints, row)?;
            Ok(found)
        }
    }
}

// Whether a key has no row that passes the tests, as the tested columns alone tell. They are read where few rows have passed so far,
// and the hints are as before where the row may pass.
fn fails<'v, V: View>(
    views: &'v [V],
    t: u64,
    asked: &Asked<'_>,
    key: &[u8],
    few: bool,
    hints: &mut Hints,
    row: &mut WholeRow<'v>,
) -> Result<bool, NoMemory>
    requires { All (λ v. V.mark v ≤ t) views.now }
    ensures { IfOk result (λ fails. fails ≡ true → line_of (keys_of asked.now.schema.now) asked.now.scan.now key.now (row_in V.row_of views.now key.now t) ≡ None) }
{
    if !few {
        return Ok(false);
    }
    if !asked.may_test_first() {
        return Ok(false);
    }
    hints.keep();
    let found = columns_into(views, asked.tested, key, t, hints, &mut row.others)?;
    if !found {
        return Ok(true);
    }
    let preds = asked.scan.preds.as_slice();
    let columns = asked.schema.key_columns();
    if !kept(preds, columns, row) {
        return Ok(true);
    }
    hints.go_back();
    Ok(false)
}

// Adds what a scan shows of one key, if that has a row that passes the tests.
fn push_line<'v, V: View>(
    alloc: Global,
    views: &'v [V],
    t: u64,
    asked: &Asked<'_>,
    key: &'v [u8],
    few: bool,
    hints: &mut Hints,
    row: &mut WholeRow<'v>,
    line: &mut Vec<CellRef<'v>>,
    rows: &mut RowList,
) -> Result<(), NoMemory>
    requires { All (λ v. V.mark v ≤ t) views.now }
    ensures { OnOk result (rows.new ≡ rows.old ++ option_to_list (line_of (keys_of asked.now.schema.now) asked.now.scan.now key.now (row_in V.row_of views.now key.now t))) }
{
    if fails(views, t, asked, key, few, hints, row)? {
        return Ok(());
    }
    if !row_for(views, t, asked, key, hints, &mut row.others)? {
        return Ok(());
    }
    if !read_for(asked, key, &mut row.key)? {
        return push_copied(alloc, views, t, asked, key, hints, rows);
    }
    push_cut(asked, row, line, rows)
}

/// The rows at a time that pass the tests of a scan, cut to its selection, by rising key. The views tell their rows
/// from `a` on.
pub fn run<V: View>(
    alloc: Global,
    views: &[V],
    t: u64,
    scan: &Scan,
    schema: &Schema,
    a: u64,
) -> Result<RowList, NoMemory>
    requires since { a ≤ t }
    requires told { All (λ v. V.mark v ≤ a) views.now }
    ensures { IfOk result (λ rows. rows ≡ shown (keys_of schema.now) scan.now (live_rows V.keys V.row_of views.now t)) }
{
    let tested = tested_ids(alloc, schema.key_columns(), scan)?;
    let ids = asked_ids(alloc, schema.key_columns(), scan)?;
    let asked = Asked::of(scan, schema, &tested, &ids);
    let mut hints = Hints::new(alloc, views.len())?;
    let mut row = WholeRow::new(alloc);
    let mut line = Vec::new(alloc);
    let mut rows = RowList::new(alloc);
    let mut after = None;
    let mut seen: usize = 0;
    while let Some(key) = next_key(views, after, &mut hints) {
        let few = rows.len() < seen / 2;
        push_line(
            alloc, views, t, &asked, key, few, &mut hints, &mut row, &mut line, &mut rows,
        )?;
        after = Some(key);
        seen = seen.saturating_add(1);
    }
    Ok(rows)
}
