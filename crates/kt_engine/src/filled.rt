//! The changes of a store in memory as a flush reads them: each insert is filled, and all are of the table.
ghost use Rattle.std.specs.Prelude.{◌≡◌, ◌≤◌, ◌<◌, ◌^◌, ◌++◌, ◌+◌, map, take, drop, length, IfOk, OnOk};
ghost use Rattle.std.specs.Bool.{OnTrue};
ghost use Rattle.std.specs.List.{AllByRecursion};
ghost use Rattle.kt_cells.specs.Borrowed.{cells_in, cells_in_ref};
ghost use Rattle.kt_cells.specs.Reading.{cells_behind};
ghost use Rattle.kt_cells.specs.Rules.{CellListFits};
ghost use Rattle.kt_cells.specs.Spelling.{cell_list};
ghost use Rattle.kt_history.specs.AsBytes.{change_with};
ghost use Rattle.kt_baseset.specs.Rows.{AreShapes};
ghost use Rattle.kt_joblaws.specs.Apart.{AreInTime, AreOfTable, IsOfTable};
ghost use Rattle.kt_tablet.specs.Filling.{filled_change};
ghost use Rattle.kt_tablet.specs.Jobs.{filled_of};
ghost use Rattle.kt_engine.specs.Columns.{FitsTable};

use crate::fitting::are_of_table;
use kt_base::{CellRef, Cells, NoMemory, Octets};
use kt_baseset::ColumnShape;
use kt_cells::writing::put_listed_cell;
use kt_cells::{CellsRef, Tail};
use kt_history::{ChangeList, ChangeRef, Kindly, RowRef};
use std::alloc::Global;

/// The most bytes that a key has.
const KEY_BYTES: usize = 16_384;

// Spells cells behind their count.
fn spell(cells: &[(u16, CellRef<'_>)], bytes: &mut Tail) -> Result<(), NoMemory>
    requires { CellListFits (cells_in cells.now) }
    ensures { OnOk result (bytes.new.added ≡ cell_list (cells_in cells.now)) }
{
    bytes.clear();
    bytes.extend(&(cells.len() as u16).to_le_bytes())?;
    'cells: for cell in cells {
        put_listed_cell(bytes, cell.0, cell.1)?;
    }
    Ok(())
}

// Reads cells where they lie, in the order in which they stand.
fn read_cells<'v>(cells: CellsRef<'v>, row: &mut RowRef<'v>) -> Result<(), NoMemory>
    ensures { OnOk result (row.new ≡ cells_in_ref cells.entry) }
{
    row.clear();
    let mut rest = cells;
    'cells: while let Some((cell, others)) = rest.split_first() {
        row.push(cell.0, cell.1)?;
        rest = others;
    }
    Ok(())
}

// The cells of a change, those of an insert over each other column's default.
fn set_cells<'v>(
    fill: &'v Cells,
    change: ChangeRef<'v>,
    row: &mut RowRef<'v>,
) -> Result<(), NoMemory>
    ensures { OnOk result (change_with change.entry.kind row.new ≡ filled_change fill.now (change_with change.entry.kind (cells_in_ref change.entry.cells))) }
{
    match change.kind {
        Kindly::Ins => {
            row.assign(fill.as_slice())?;
            row.set_read(change.cells)
        }
        Kindly::Upd => read_cells(change.cells, row),
        Kindly::Del => {
            row.clear();
            Ok(())
        }
    }
}

// Spells the cells of a change, filled if it is an insert. For one that is not of the table there is no memory.
fn spell_change<'v>(
    columns: &[ColumnShape],
    fill: &'v Cells,
    change: ChangeRef<'v>,
    row: &mut RowRef<'v>,
    bytes: &mut Tail,
) -> Result<(), NoMemory>
    requires { AreShapes columns.now }
    ensures filled { OnOk result (change_with change.entry.kind (cells_behind bytes.new.added) ≡ filled_change fill.now (change_with change.entry.kind (cells_in_ref change.entry.cells))) }
    ensures table { OnOk result (IsOfTable columns.now (change_with change.entry.kind (cells_behind bytes.new.added))) }
{
    set_cells(fill, change, row)?;
    if !are_of_table(columns, change.kind, row.as_slice()) {
        return Err(NoMemory);
    }
    spell(row.as_slice(), bytes)
}

// Adds the change at a place to another list, filled if it is an insert.
fn push_filled<'v>(
    columns: &[ColumnShape],
    fill: &'v Cells,
    changes: &'v ChangeList,
    at: usize,
    row: &mut RowRef<'v>,
    bytes: &mut Tail,
    out: &mut ChangeList,
) -> Result<(), NoMemory>
    requires shapes { AreShapes columns.now }
    requires inside { at < length changes.now }
    ensures filled { OnOk result (out.new ≡ out.old ++ map (filled_of fill.now) (take 1 (drop at changes.now))) }
    ensures table { AllByRecursion (FitsTable columns.now) out.old → OnOk result (AllByRecursion (FitsTable columns.now) out.new) }
{
    let change = changes.at(at);
    spell_change(columns, fill, change, row, bytes)?;
    match changes.key(at) {
        Some(key) if key.len() <= KEY_BYTES => out.push(key, change.ts, change.kind, bytes.added()),
        _ => Err(NoMemory),
    }
}

// Each change, filled if it is an insert.
fn fill_all(
    alloc: Global,
    columns: &[ColumnShape],
    fill: &Cells,
    changes: &ChangeList,
) -> Result<ChangeList, NoMemory>
    requires { AreShapes columns.now }
    ensures filled { IfOk result (λ list. list ≡ map (filled_of fill.now) changes.now) }
    ensures table { IfOk result (λ list. AllByRecursion (FitsTable columns.now) list) }
{
    let mut out = ChangeList::new(alloc);
    let mut row = RowRef::new(alloc);
    let mut bytes = Tail::of(Octets::new(alloc));
    'changes: for at in 0..changes.len() {
        push_filled(columns, fill, changes, at, &mut row, &mut bytes, &mut out)?;
    }
    Ok(out)
}

// Whether the change behind one, if it is of the same key, comes after it.
fn goes_up(changes: &ChangeList, at: usize) -> bool
    requires inside { at < length changes.now }
    requires small { length changes.now < 2 ^ 64 }
    ensures { OnTrue result (AreInTime (drop (at + 1) changes.now) → AreInTime (drop at changes.now)) }
{
    if !changes.goes_on(at) {
        return true;
    }
    changes.at(at).ts < changes.at(at + 1).ts
}

// Whether of one key each change comes after the one before it.
fn are_in_time(changes: &ChangeList) -> bool
    ensures { OnTrue result (AreInTime changes.now) }
{
    'changes: for at in 0..changes.len() {
        if !goes_up(changes, at) {
            return false;
        }
    }
    true
}

/// The changes with each insert filled: its own cells over each other column's default, or null. For changes that are not of the table, or do not come in
/// time, there is no memory.
pub(crate) fn filled(
    alloc: Global,
    columns: &[ColumnShape],
    fill: &Cells,
    changes: &ChangeList,
) -> Result<ChangeList, NoMemory>
    requires { AreShapes columns.now }
    ensures filled { IfOk result (λ list. list ≡ map (filled_of fill.now) changes.now) }
    ensures table { IfOk result (λ list. AreOfTable columns.now list) }
{
    let list = fill_all(alloc, columns, fill, changes)?;
    if are_in_time(&list) {
        Ok(list)
    } else {
        Err(NoMemory)
    }
}
