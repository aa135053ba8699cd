//! The changes of one store up to the time of a scan, as a view.
ghost use Rattle.std.specs.Prelude.{◌≡◌, true, Some, None, IfOk};
ghost use Rattle.std.specs.Option.{option_copied};
ghost use Rattle.kt_cells.specs.Borrowed.{cells_in};
ghost use Rattle.kt_history.specs.Views.{key_above};
ghost use Rattle.kt_tablet.specs.Snaps.{rises, row_in, keys_in};
ghost use Rattle.kt_tablet.specs.SnapLaws.{keys_in_rise, row_in_has_key};

use crate::reading::{columns_into, next_key, row_into};
use kt_base::{CellRef, Cells, NoMemory, Octets};
use kt_history::{ChangeList, RowRef, View};
use std::alloc::Global;

/// The changes of one store up to the time of a scan, by rising key. It tells rows from its mark on.
#[derive(Drop)]
pub struct SnapView {
    since: u64,
    changes: ChangeList,
    fill: Cells,
    ghost rising: { rises changes ≡ true },
}

// A row with texts of its own.
fn owned(alloc: Global, row: &[(u16, CellRef<'_>)]) -> Result<Cells, NoMemory>
    ensures { IfOk result (λ cells. cells ≡ cells_in row.now) }
{
    let mut cells = Vec::with_capacity(alloc, row.len())?;
    for cell in row {
        cells.push((cell.0, cell.1.to_cell(alloc)?))?;
    }
    Ok(Cells::of(cells))
}

// The row of a key, with texts of its own.
fn row_of(
    alloc: Global,
    fill: &Cells,
    changes: &ChangeList,
    key: &[u8],
    t: u64,
) -> Result<Option<Cells>, NoMemory>
    requires { rises changes.now ≡ true }
    ensures { IfOk result (λ row. row ≡ row_in fill.now changes.now key.now t) }
{
    let mut row = RowRef::new(alloc);
    let mut hint = changes.len();
    if row_into(fill, changes, key, t, &mut hint, &mut row)? {
        Ok(Some(owned(alloc, row.as_slice())?))
    } else {
        Ok(None)
    }
}

// A key with bytes of its own.
fn copied(alloc: Global, key: Option<&[u8]>) -> Result<Option<Octets>, NoMemory>
    ensures { IfOk result (λ copy. copy ≡ option_copied key.entry) }
{
    match key {
        Some(key) => Ok(Some(Octets::from_slice(alloc, key)?)),
        None => Ok(None),
    }
}

// The least key above another, or the first of all, with bytes of its own.
fn least_above(
    alloc: Global,
    changes: &ChangeList,
    after: Option<&[u8]>,
) -> Result<Option<Octets>, NoMemory>
    requires { rises changes.now ≡ true }
    ensures { IfOk result (λ found. found ≡ key_above (option_copied after.entry) (keys_in changes.now)) }
{
    let mut hint = changes.len();
    Ok(copied(alloc, next_key(changes, after, &mut hint))?)
}

impl SnapView {
    /// The changes of a store, and what its inserts leave out.
    pub fn of(since: u64, changes: ChangeList, fill: Cells) -> SnapView
        requires { rises changes ≡ true }
        ensures { (result.since ≡ since) × (result.changes ≡ changes) × (result.fill ≡ fill) }
    {
        SnapView {
            since,
            changes,
            fill,
        }
    }
}

impl View for SnapView {
    ghost mark = { λ v. v.since };

    ghost keys = { λ v. keys_in v.changes };

    ghost row_of = { λ v key t. row_in v.fill v.changes key t };

    ghost keys_rise = { λ v. keys_in_rise v.changes v.rising };

    ghost rows_have_keys = { λ v key t told some. row_in_has_key v.fill v.changes key t some };

    fn row_at(&self, alloc: Global, key: &[u8], t: u64) -> Result<Option<Cells>, NoMemory> {
        row_of(alloc, &self.fill, &self.changes, key, t)
    }

    fn key_after(&self, alloc: Global, after: Option<&[u8]>) -> Result<Option<Octets>, NoMemory> {
        least_above(alloc, &self.changes, after)
    }

    fn next_key(&self, after: Option<&[u8]>, hint: &mut usize) -> Option<&[u8]> {
        next_key(&self.changes, after, hint)
    }

    fn row_into<'v>(
        &'v self,
        key: &[u8],
        t: u64,
        hint: &mut usize,
        row: &mut RowRef<'v>,
    ) -> Result<bool, NoMemory> {
        row_into(&self.fill, &self.changes, key, t, hint, row)
    }

    fn columns_into<'v>(
        &'v self,
        ids: &[u16],
        key: &[u8],
        t: u64,
        hint: &mut usize,
        row: &mut RowRef<'v>,
    ) -> Result<bool, NoMemory> {
        columns_into(&self.fill, &self.changes, ids, key, t, hint, row)
    }
}
