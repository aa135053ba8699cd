//! A table as a scan reads it.
ghost use Rattle.std.specs.Prelude.{◌≡◌, ◌≤◌, not, length, slice_get, is_some, true, false, IfOk};
ghost use Rattle.std.specs.List.Sorted.{IsPartitionPoint};
ghost use Rattle.std.specs.Option.{option_copied, option_map};
ghost use Rattle.std.specs.Ordering.{is_lt};
ghost use Rattle.std.proofs.Props.{props};
ghost use Rattle.kt_history.specs.Rows.{key_cmp};
ghost use Rattle.kt_history.specs.Views.{key_above};
ghost use Rattle.kt_judge.specs.Tables.{IsTable, keys_in, row_of};
ghost use Rattle.kt_judge.specs.TableLaws.{keys_rise, has_key};

use crate::table::{entry_at, has_row_at, is_at, row_at, row_into};
use crate::versions::Versions;
use kt_base::{Cells, NoMemory, Octets};
use kt_history::{RowRef, View};
use std::alloc::Global;

/// The rows of a table at each time.
#[derive(Drop)]
pub(crate) struct Table {
    entries: Vec<(Octets, Versions)>,
    ghost table: { IsTable entries.items } by { Prim.hlevel props },
}

// How many keys are not above another.
fn count_not_above(entries: &[(Octets, Versions)], key: &[u8]) -> usize
    requires { IsTable entries.now }
    ensures bound { result ≤ length entries.now }
    ensures parts { IsPartitionPoint (λ e. not (is_lt (key_cmp key.now e.0)) ≡ true) (λ e. not (is_lt (key_cmp key.now e.0)) ≡ false) entries.now result }
{
    entries.partition_point(|entry| !key.cmp(&entry.0.as_slice()).is_lt())
}

// The key at a place, if there is one.
fn key_at(entries: &[(Octets, Versions)], at: usize) -> Result<Option<Octets>, NoMemory>
    ensures { IfOk result (λ key. key ≡ option_map (λ e. e.0) (slice_get entries.now at)) }
{
    match entry_at(entries, at) {
        Some((key, _)) => Ok(Some(key.copy()?)),
        None => Ok(None),
    }
}

// The least key above another, or the first of all.
fn least_above(
    entries: &[(Octets, Versions)],
    after: Option<&[u8]>,
) -> Result<Option<Octets>, NoMemory>
    requires { IsTable entries.now }
    ensures { IfOk result (λ found. found ≡ key_above (option_copied after.entry) (keys_in entries.now)) }
{
    match after {
        None => Ok(key_at(entries, 0)?),
        Some(after) => Ok(key_at(entries, count_not_above(entries, after))?),
    }
}

// The key at a place, borrowed, if there is one.
fn borrowed_at(entries: &[(Octets, Versions)], at: usize) -> Option<&[u8]>
    ensures { option_copied result ≡ option_map (λ e. e.0) (slice_get entries.now at) }
{
    match entry_at(entries, at) {
        Some((key, _)) => Some(key.as_slice()),
        None => None,
    }
}

// As `count_not_above`. The hint is a place that is looked at first for the key.
fn count_from(entries: &[(Octets, Versions)], key: &[u8], hint: usize) -> usize
    requires { IsTable entries.now }
    ensures bound { result ≤ length entries.now }
    ensures parts { IsPartitionPoint (λ e. not (is_lt (key_cmp key.now e.0)) ≡ true) (λ e. not (is_lt (key_cmp key.now e.0)) ≡ false) entries.now result }
{
    if is_at(entries, key, hint) {
        return hint + 1;
    }
    count_not_above(entries, key)
}

// Where the least key above another stands, or the first of all.
fn place_after(entries: &[(Octets, Versions)], after: Option<&[u8]>, hint: usize) -> usize
    requires { IsTable entries.now }
    ensures { option_map (λ e. e.0) (slice_get entries.now result) ≡ key_above (option_copied after.entry) (keys_in entries.now) }
{
    match after {
        None => 0,
        Some(after) => count_from(entries, after, hint),
    }
}

impl Table {
    /// The rows that these entries tell.
    pub(crate) fn of(entries: Vec<(Octets, Versions)>) -> Table
        requires { IsTable entries.items }
        ensures { result.entries.items ≡ entries.items }
    {
        Table { entries }
    }

    /// Whether a key has a row at a time.
    pub(crate) fn has_row_at(&self, key: &[u8], t: u64) -> bool
        ensures { result ≡ is_some (row_of self.now.entries.items key.now t) }
    {
        has_row_at(&self.entries, key, t)
    }
}

impl View for Table {
    ghost mark = { λ _. 0 };

    ghost keys = { λ v. keys_in v.entries.items };

    ghost row_of = { λ v key t. row_of v.entries.items key t };

    ghost keys_rise = { λ v. keys_rise v.entries.items v.table.rising };

    ghost rows_have_keys = { λ v key t _ some. has_key v.entries.items key t some };

    fn row_at(&self, _alloc: Global, key: &[u8], t: u64) -> Result<Option<Cells>, NoMemory> {
        row_at(&self.entries, key, t)
    }

    fn key_after(&self, _alloc: Global, after: Option<&[u8]>) -> Result<Option<Octets>, NoMemory> {
        least_above(&self.entries, after)
    }

    fn next_key(&self, after: Option<&[u8]>, hint: &mut usize) -> Option<&[u8]> {
        *hint = place_after(&self.entries, after, *hint);
        borrowed_at(&self.entries, *hint)
    }

    fn row_into<'v>(
        &'v self,
        key: &[u8],
        t: u64,
        hint: &mut usize,
        row: &mut RowRef<'v>,
    ) -> Result<bool, NoMemory> {
        row_into(&self.entries, key, t, *hint, row)
    }

    fn columns_into<'v>(
        &'v self,
        ids: &[u16],
        key: &[u8],
        t: u64,
        hint: &mut usize,
        row: &mut RowRef<'v>,
    ) -> Result<bool, NoMemory> {
        let found = row_into(&self.entries, key, t, *hint, row)?;
        Ok(found)
    }
}
