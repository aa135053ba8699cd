//! Writes that are done to a table.
ghost use Rattle.std.specs.Prelude.{◌≡◌, ◌<◌, ◌-◌, ◌∷◌, [], ℕ, Option, is_some, IfOk, OnOk};
ghost use Rattle.std.specs.Option.{option_copied};
ghost use Rattle.kt_history.specs.Rows.{Row, Rows, with_cells};
ghost use Rattle.kt_history.specs.Operations.{effect, changes_on};
ghost use Rattle.kt_judge.specs.Machine.{ops_in};
ghost use Rattle.kt_judge.specs.Tables.{IsTable, IsTableUpTo, Shows, with_changes};

use crate::table::{has_row_at, put_change};
use crate::versions::Versions;
use kt_base::{Cells, NoMemory, Octets};
use kt_history::{Change, OpKind, OpList, OpRef, put_cell};
use std::alloc::Global;

/// Changes of different keys at one timestamp, at or above all before.
pub(crate) fn put_changes(
    alloc: Global,
    entries: &mut Vec<(Octets, Versions)>,
    ts: u64,
    changes: &[(Octets, Change)],
) -> Result<(), NoMemory>
    requires table { IsTable entries.old.items }
    requires later { IsTableUpTo ts entries.old.items }
    ensures table { OnOk result (IsTable entries.new.items) }
    ensures up_to { OnOk result (IsTableUpTo ts entries.new.items) }
    ensures rows { OnOk result ((rows : ℕ → Rows) → Shows entries.old.items rows → Shows entries.new.items (with_changes ts changes.now rows)) }
{
    for (key, change) in changes {
        put_change(alloc, entries, key.as_slice(), ts, change)?;
    }
    Ok(())
}

// The cells of an operation, with texts of their own.
fn cells_of(alloc: Global, op: &OpRef<'_>) -> Result<Cells, NoMemory>
    ensures { IfOk result (λ cells. cells ≡ op.now.cells) }
{
    let mut cells = Vec::new(alloc);
    let mut rest = op.cells();
    'cells: while let Some((cell, others)) = rest.split_first() {
        cells.push((cell.0, cell.1.to_cell(alloc)?))?;
        rest = others;
    }
    Ok(Cells::of(cells))
}

// The row with these cells, in place of its own where it has them.
fn with_cells(row: Cells, cells: Cells) -> Result<Cells, NoMemory>
    ensures { IfOk result (λ new. new ≡ with_cells cells row) }
{
    let mut new = row.into_vec();
    let mut left = cells.into_vec();
    'cells: while let Some((id, cell)) = left.pop() {
        put_cell(&mut new, id, cell)?;
    }
    Ok(Cells::of(new))
}

// The change of an operation, if it makes one, where its key has a row, or none.
fn change_of(
    alloc: Global,
    fill: &Cells,
    op: &OpRef<'_>,
    present: bool,
) -> Result<Option<Change>, NoMemory>
    ensures { IfOk result (λ change. (row : Option Row) → is_some row ≡ present → change ≡ (effect fill.now op.now.kind op.now.cells row).0) }
{
    match (op.kind(), present) {
        (OpKind::Insert | OpKind::Upsert | OpKind::InsertIgnore, false) => Ok(Some(Change::Ins(
            with_cells(fill.copy()?, cells_of(alloc, op)?)?,
        ))),
        (OpKind::Upsert | OpKind::Update | OpKind::UpdateIgnore, true) => {
            Ok(Some(Change::Upd(cells_of(alloc, op)?)))
        }
        (OpKind::Delete | OpKind::DeleteIgnore, true) => Ok(Some(Change::Del)),
        _ => Ok(None),
    }
}

// What an operation does to the row of its key at a timestamp, if the row was there just before it, or was not.
fn put_op(
    alloc: Global,
    entries: &mut Vec<(Octets, Versions)>,
    fill: &Cells,
    ts: u64,
    op: &OpRef<'_>,
) -> Result<(), NoMemory>
    requires table { IsTable entries.old.items }
    requires later { IsTableUpTo ts entries.old.items }
    ensures table { OnOk result (IsTable entries.new.items) }
    ensures up_to { OnOk result (IsTableUpTo ts entries.new.items) }
    ensures rows { OnOk result ((rows : ℕ → Rows) → Shows entries.old.items rows → Shows entries.new.items (with_changes ts (changes_on fill.now (rows (ts - 1)) (op.now ∷ [])) rows)) }
{
    let key = op.key();
    let present = has_row_at(entries, key, ts.saturating_sub(1));
    if let Some(change) = change_of(alloc, fill, op, present)? {
        put_change(alloc, entries, key, ts, &change)?;
    }
    Ok(())
}

// What operations of different keys do at a timestamp, which is above all before.
fn put_ops(
    alloc: Global,
    entries: &mut Vec<(Octets, Versions)>,
    fill: &Cells,
    ts: u64,
    ops: &OpList,
) -> Result<(), NoMemory>
    requires table { IsTable entries.old.items }
    requires later { IsTableUpTo ts entries.old.items }
    requires some { 0 < ts }
    ensures table { OnOk result (IsTable entries.new.items) }
    ensures up_to { OnOk result (IsTableUpTo ts entries.new.items) }
    ensures rows { OnOk result ((rows : ℕ → Rows) → Shows entries.old.items rows → Shows entries.new.items (with_changes ts (changes_on fill.now (rows (ts - 1)) ops.now) rows)) }
{
    'ops: for at in 0..ops.len() {
        let op = ops.at(at);
        put_op(alloc, entries, fill, ts, &op)?;
    }
    Ok(())
}

/// What a write, if there is one, does at its timestamp, which is above all before. A column that an insert leaves out has
/// its default.
pub(crate) fn put_write(
    alloc: Global,
    entries: &mut Vec<(Octets, Versions)>,
    fill: &Cells,
    ts: u64,
    ops: Option<&OpList>,
) -> Result<(), NoMemory>
    requires table { IsTable entries.old.items }
    requires later { IsTableUpTo ts entries.old.items }
    requires some { 0 < ts }
    ensures table { OnOk result (IsTable entries.new.items) }
    ensures up_to { OnOk result (IsTableUpTo ts entries.new.items) }
    ensures rows { OnOk result ((rows : ℕ → Rows) → Shows entries.old.items rows → Shows entries.new.items (with_changes ts (changes_on fill.now (rows (ts - 1)) (ops_in (option_copied ops.entry))) rows)) }
{
    match ops {
        Some(ops) => put_ops(alloc, entries, fill, ts, ops),
        None => Ok(()),
    }
}
