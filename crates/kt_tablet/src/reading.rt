//! Keys and rows that are read from the changes of a store, looked for at a place first.
ghost use Rattle.std.specs.Prelude.{◌≡◌, ◌↔◌, [], ℕ, ◌+◌, ◌<◌, ◌≤◌, true, IsTrue, false, not, nat_le, Some, None, IfOk, OnOk, slice_get, length, if◌then◌else◌};
ghost use Rattle.std.specs.List.Sorted.{IsPartitionPoint};
ghost use Rattle.std.specs.Option.{option_copied, option_map};
ghost use Rattle.std.specs.Ordering.{is_lt};
ghost use Rattle.kt_cells.specs.Borrowed.{cells_in_ref};
ghost use Rattle.kt_history.specs.Rows.{Row, key_cmp, with_cells, AgreeIn, AgreeOn};
ghost use Rattle.kt_history.specs.Views.{key_above};
ghost use Rattle.kt_tablet.specs.Bases.{row_by, base_by, IsBase, RestsOn};
ghost use Rattle.kt_tablet.specs.Snaps.{rises, row_in, keys_in, is_above_at, is_reached_at};

use crate::amend::{fill_asked, fill_under};
use kt_base::{Cells, NoMemory};
use kt_cells::CellsRef;
use kt_history::{ChangeList, ChangeRef, Kindly, RowRef};

// Whether the change at a place, if there is one, is of a key above another.
fn above_at(changes: &ChangeList, key: &[u8], at: usize) -> bool
    ensures { result ≡ is_above_at key.now (option_map (λ c. c.key) (slice_get changes.now at)) }
{
    match changes.key(at) {
        Some(other) => key.cmp(&other).is_lt(),
        None => true,
    }
}

// Whether the change at a place, if there is one, is of a key that is not below another.
fn reached_at(changes: &ChangeList, key: &[u8], at: usize) -> bool
    ensures { result ≡ is_reached_at key.now (option_map (λ c. c.key) (slice_get changes.now at)) }
{
    match changes.key(at) {
        Some(other) => !other.cmp(&key).is_lt(),
        None => true,
    }
}

// Whether the changes above a key begin at a place.
fn begin_above(changes: &ChangeList, key: &[u8], at: usize) -> bool
    ensures bound { result ≡ true → at ≤ length changes.now }
    ensures here { result ≡ true → is_above_at key.now (option_map (λ c. c.key) (slice_get changes.now at)) ≡ true }
    ensures before { result ≡ true → (k : ℕ) → at ≡ k + 1 → is_above_at key.now (option_map (λ c. c.key) (slice_get changes.now k)) ≡ false }
{
    if at > changes.len() || !above_at(changes, key, at) {
        return false;
    }
    at == 0 || !above_at(changes, key, at - 1)
}

// Whether the changes of a key and of those above it begin at a place.
fn begin_at(changes: &ChangeList, key: &[u8], at: usize) -> bool
    ensures bound { result ≡ true → at ≤ length changes.now }
    ensures here { result ≡ true → is_reached_at key.now (option_map (λ c. c.key) (slice_get changes.now at)) ≡ true }
    ensures before { result ≡ true → (k : ℕ) → at ≡ k + 1 → is_reached_at key.now (option_map (λ c. c.key) (slice_get changes.now k)) ≡ false }
{
    if at > changes.len() || !reached_at(changes, key, at) {
        return false;
    }
    at == 0 || !reached_at(changes, key, at - 1)
}

// Whether the changes of a key end at a place. Those above it then begin there.
fn end_at(changes: &ChangeList, key: &[u8], at: usize) -> bool
    requires { rises changes.now ≡ true }
    ensures bound { result ≡ true → at ≤ length changes.now }
    ensures here { result ≡ true → is_above_at key.now (option_map (λ c. c.key) (slice_get changes.now at)) ≡ true }
    ensures before { result ≡ true → (k : ℕ) → at ≡ k + 1 → is_above_at key.now (option_map (λ c. c.key) (slice_get changes.now k)) ≡ false }
{
    if at == 0 || !changes.is_key(at - 1, key) {
        return false;
    }
    !changes.goes_on(at - 1)
}

// Whether there is a change of a key at a place, and none before it.
fn start_at(changes: &ChangeList, key: &[u8], at: usize) -> bool
    requires { rises changes.now ≡ true }
    ensures bound { result ≡ true → at ≤ length changes.now }
    ensures here { result ≡ true → is_reached_at key.now (option_map (λ c. c.key) (slice_get changes.now at)) ≡ true }
    ensures before { result ≡ true → (k : ℕ) → at ≡ k + 1 → is_reached_at key.now (option_map (λ c. c.key) (slice_get changes.now k)) ≡ false }
    ensures is_key { result ≡ true → option_map (λ c. c.key) (slice_get changes.now at) ≡ Some key.now }
{
    if !changes.is_key(at, key) {
        return false;
    }
    at == 0 || !changes.goes_on(at - 1)
}

// Where the changes above a key begin.
fn place_above(changes: &ChangeList, key: &[u8], hint: usize) -> usize
    requires { rises changes.now ≡ true }
    ensures bound { result ≤ length changes.now }
    ensures parts { IsPartitionPoint (λ c. not (is_lt (key_cmp key.now c.key)) ≡ true) (λ c. not (is_lt (key_cmp key.now c.key)) ≡ false) changes.now result }
{
    if end_at(changes, key, hint) {
        return hint;
    }
    if begin_above(changes, key, hint) {
        hint
    } else {
        changes.count_not_above(key)
    }
}

// Where the changes of a key, and of those above it, begin.
fn place_of(changes: &ChangeList, key: &[u8], hint: usize) -> usize
    requires { rises changes.now ≡ true }
    ensures bound { result ≤ length changes.now }
    ensures parts { IsPartitionPoint (λ c. is_lt (key_cmp c.key key.now) ≡ true) (λ c. is_lt (key_cmp c.key key.now) ≡ false) changes.now result }
{
    if begin_at(changes, key, hint) {
        hint
    } else {
        changes.count_below(key)
    }
}

// Where the least key above another stands, or the first of all.
fn place_after(changes: &ChangeList, after: Option<&[u8]>, hint: usize) -> usize
    requires { rises changes.now ≡ true }
    ensures { option_map (λ c. c.key) (slice_get changes.now result) ≡ key_above (option_copied after.entry) (keys_in changes.now) }
{
    match after {
        None => 0,
        Some(after) => place_above(changes, after, hint),
    }
}

/// The least key above another, or the first of all. The hint then is its place.
pub fn next_key<'v>(
    changes: &'v ChangeList,
    after: Option<&[u8]>,
    hint: &mut usize,
) -> Option<&'v [u8]>
    requires { rises changes.now ≡ true }
    ensures { option_copied result ≡ key_above (option_copied after.entry) (keys_in changes.now) }
{
    *hint = place_after(changes, after, *hint);
    changes.key(*hint)
}

// Whether a change is not later than a time.
fn is_done(change: ChangeRef<'_>, t: u64) -> bool
    ensures { result ≡ nat_le change.entry.ts t }
{
    change.ts <= t
}

// The place of the insert that a row rests on after one change more, which stands at a place, if that is not later than the time.
fn base_after(base: Option<usize>, at: usize, change: ChangeRef<'_>, t: u64) -> Option<usize>
    ensures { result ≡ (if nat_le change.entry.ts t then base_by change.entry.kind at base else base) }
{
    if !is_done(change, t) {
        return base;
    }
    match change.kind {
        Kindly::Ins => Some(base.unwrap_or(at)),
        Kindly::Upd => base,
        Kindly::Del => None,
    }
}

// Whether what a change says is of the column of the row's first cell alone, and so does not show under it, as its first bytes tell.
fn is_hidden(row: &RowRef<'_>, cells: CellsRef<'_>) -> bool
    ensures { result ≡ true → (old : Row) → with_cells row.now (with_cells (cells_in_ref cells.entry) old) ≡ with_cells row.now old }
{
    let Some(id) = cells.only_column() else {
        return false;
    };
    let own = row.as_slice();
    if 0 < own.len() {
        let first = own[0].0;
        if first == id {
            return true;
        }
    }
    false
}

// Lays a row over what an update says, if that is not later than the time.
fn update_under<'v>(row: &mut RowRef<'v>, change: ChangeRef<'v>, t: u64) -> Result<(), NoMemory>
    ensures late { OnOk result (nat_le change.entry.ts t ≡ false → row.new ≡ row.old) }
    ensures other { OnOk result ((change.entry.kind ≡ Kindly.Upd → ⊥) → row.new ≡ row.old) }
    ensures update { OnOk result (nat_le change.entry.ts t ≡ true → change.entry.kind ≡ Kindly.Upd → (old : Row) → with_cells row.new old ≡ with_cells row.old (with_cells (cells_in_ref change.entry.cells) old)) }
{
    if !is_done(change, t) {
        return Ok(());
    }
    match change.kind {
        Kindly::Upd => {
            if is_hidden(row, change.cells) {
                return Ok(());
            }
            row.set_under(change.cells)?;
            Ok(())
        }
        Kindly::Ins | Kindly::Del => Ok(()),
    }
}

// Lays a row over what the changes behind an insert say, from the last one back, so that each column is set once.
fn updates_under<'v>(
    fill: &Cells,
    changes: &'v ChangeList,
    key: &[u8],
    t: u64,
    base: usize,
    end: usize,
    row: &mut RowRef<'v>,
) -> Result<(), NoMemory>
    requires inside { base < end }
    requires rests { IsBase fill.now changes.now key.now t base end }
    requires none { row.old ≡ [] }
    ensures { OnOk result (row_by fill.now changes.now key.now t end ≡ option_map (with_cells row.new) (row_by fill.now changes.now key.now t (base + 1))) }
{
    let mut at = end;
    'changes: while at > base + 1 {
        at -= 1;
        let change = changes.at(at);
        update_under(row, change, t)?;
    }
    Ok(())
}

// The row that rests on the insert at a place, after the changes behind it up to another.
fn row_upon<'v>(
    fill: &'v Cells,
    changes: &'v ChangeList,
    key: &[u8],
    t: u64,
    base: usize,
    end: usize,
    row: &mut RowRef<'v>,
) -> Result<(), NoMemory>
    requires { IsBase fill.now changes.now key.now t base end }
    ensures { OnOk result (Some row.new ≡ row_by fill.now changes.now key.now t end) }
{
    row.clear();
    updates_under(fill, changes, key, t, base, end, row)?;
    let insert = changes.at(base);
    fill_under(row, fill.as_slice(), insert.cells)?;
    Ok(())
}

// As `update_under`, of the columns alone that are asked for. Tells at times that all of them are there then.
fn column_under<'v>(
    row: &mut RowRef<'v>,
    ids: &[u16],
    change: ChangeRef<'v>,
    t: u64,
) -> Result<bool, NoMemory>
    ensures late { IfOk result (λ all. nat_le change.entry.ts t ≡ false → row.new ≡ row.old) }
    ensures other { IfOk result (λ all. (change.entry.kind ≡ Kindly.Upd → ⊥) → row.new ≡ row.old) }
    ensures update { IfOk result (λ all. nat_le change.entry.ts t ≡ true → change.entry.kind ≡ Kindly.Upd → (old : Row) → AgreeIn ids.now (with_cells row.new old) (with_cells row.old (with_cells (cells_in_ref change.entry.cells) old))) }
    ensures done { IfOk result (λ all. all ≡ true → nat_le change.entry.ts t ≡ true) }
    ensures kind { IfOk result (λ all. all ≡ true → change.entry.kind ≡ Kindly.Upd) }
    ensures all { IfOk result (λ all. all ≡ true → (old : Row) → AgreeIn ids.now row.new (with_cells row.old (with_cells (cells_in_ref change.entry.cells) old))) }
{
    if !is_done(change, t) {
        return Ok(false);
    }
    match change.kind {
        Kindly::Upd => {
            let all = row.set_asked(ids, change.cells)?;
            Ok(all)
        }
        Kindly::Ins | Kindly::Del => Ok(false),
    }
}

// As `row_upon`, of the columns alone that are asked for. It stops at the change that tells the last of them.
fn columns_upon<'v>(
    fill: &'v Cells,
    changes: &'v ChangeList,
    ids: &[u16],
    key: &[u8],
    t: u64,
    base: usize,
    end: usize,
    row: &mut RowRef<'v>,
) -> Result<(), NoMemory>
    requires inside { base < end }
    requires rests { IsBase fill.now changes.now key.now t base end }
    ensures { OnOk result (AgreeOn ids.now (row_by fill.now changes.now key.now t end) (Some row.new)) }
{
    row.clear();
    let mut at = end;
    'changes: while at > base + 1 {
        at -= 1;
        let change = changes.at(at);
        let all = column_under(row, ids, change, t)?;
        if all {
            return Ok(());
        }
    }
    let insert = changes.at(base);
    fill_asked(row, ids, fill.as_slice(), insert.cells)?;
    Ok(())
}

// On which insert the row of a key rests whose changes begin at a place, told whether there are any. The place then is behind them.
fn base_from(
    fill: &Cells,
    changes: &ChangeList,
    key: &[u8],
    t: u64,
    any: bool,
    place: &mut usize,
) -> Option<usize>
    requires rising { rises changes.now ≡ true }
    requires bound { place.old ≤ length changes.now }
    requires parts { IsPartitionPoint (λ c. is_lt (key_cmp c.key key.now) ≡ true) (λ c. is_lt (key_cmp c.key key.now) ≡ false) changes.now place.old }
    requires any { IsTrue any ↔ (option_map (λ c. c.key) (slice_get changes.now place.old) ≡ Some key.now) }
    ensures rests { RestsOn fill.now changes.now key.now t result place.new }
    ensures whole { row_by fill.now changes.now key.now t place.new ≡ row_in fill.now changes.now key.now t }
{
    let mut base = None;
    let mut at = *place;
    let mut more = any;
    let end = changes.len();
    'changes: while more {
        let change = changes.at(at);
        base = base_after(base, at, change, t);
        more = changes.goes_on(at);
        prove!(at < end);
        at += 1;
    }
    *place = at;
    base
}

// On which insert the row of a key rests. The hint then is behind its changes.
fn base_of(
    fill: &Cells,
    changes: &ChangeList,
    key: &[u8],
    t: u64,
    hint: &mut usize,
) -> Option<usize>
    requires { rises changes.now ≡ true }
    ensures rests { RestsOn fill.now changes.now key.now t result hint.new }
    ensures whole { row_by fill.now changes.now key.now t hint.new ≡ row_in fill.now changes.now key.now t }
{
    if start_at(changes, key, *hint) {
        return base_from(fill, changes, key, t, true, hint);
    }
    *hint = place_of(changes, key, *hint);
    let any = changes.is_key(*hint, key);
    base_from(fill, changes, key, t, any, hint)
}

/// The row of a key. Tells whether there is one. The hint then is behind its changes.
pub fn row_into<'v>(
    fill: &'v Cells,
    changes: &'v ChangeList,
    key: &[u8],
    t: u64,
    hint: &mut usize,
    row: &mut RowRef<'v>,
) -> Result<bool, NoMemory>
    requires { rises changes.now ≡ true }
    ensures { IfOk result (λ is. (if is then Some row.new else None) ≡ row_in fill.now changes.now key.now t) }
{
    match base_of(fill, changes, key, t, hint) {
        Some(base) => {
            row_upon(fill, changes, key, t, base, *hint, row)?;
            Ok(true)
        }
        None => Ok(false),
    }
}

/// As `row_into`, of the columns alone that are asked for.
pub fn columns_into<'v>(
    fill: &'v Cells,
    changes: &'v ChangeList,
    ids: &[u16],
    key: &[u8],
    t: u64,
    hint: &mut usize,
    row: &mut RowRef<'v>,
) -> Result<bool, NoMemory>
    requires { rises changes.now ≡ true }
    ensures { IfOk result (λ is. AgreeOn ids.now (row_in fill.now changes.now key.now t) (if is then Some row.new else None)) }
{
    match base_of(fill, changes, key, t, hint) {
        Some(base) => {
            columns_upon(fill, changes, ids, key, t, base, *hint, row)?;
            Ok(true)
        }
        None => Ok(false),
    }
}
