//! The rows of a table at each time: its keys by rising bytes, each with what became of its row.
ghost use Rattle.std.specs.Prelude.{◌≡◌, ◌≤◌, length, slice_get, is_some, true, false, Some, None, IfOk, OnOk, if◌then◌else◌};
ghost use Rattle.std.specs.List.Sorted.{IsPartitionPoint};
ghost use Rattle.std.specs.Option.{option_copied};
ghost use Rattle.std.specs.Ordering.{is_lt};
ghost use Rattle.std.specs.FinMap.Entries.{find, is_sorted};
ghost use Rattle.kt_history.specs.Places.{place_of};
ghost use Rattle.kt_history.specs.Rows.{key_cmp};
ghost use Rattle.kt_judge.specs.Tables.{row_of, is_of_key, IsTable, IsTableUpTo, IsPut};

use crate::versions::Versions;
use kt_base::{Cells, NoMemory, Octets};
use kt_history::{Change, RowRef};
use std::alloc::Global;

// How many keys are below another.
fn count_below(entries: &[(Octets, Versions)], key: &[u8]) -> usize
    requires { is_sorted key_cmp entries.now ≡ true }
    ensures bound { result ≤ length entries.now }
    ensures parts { IsPartitionPoint (λ e. is_lt (key_cmp e.0 key.now) ≡ true) (λ e. is_lt (key_cmp e.0 key.now) ≡ false) entries.now result }
{
    entries.partition_point(|entry| entry.0.as_slice().cmp(&key).is_lt())
}

// Where a key stands, or would stand.
fn place(entries: &[(Octets, Versions)], key: &[u8]) -> Result<usize, usize>
    requires { is_sorted key_cmp entries.now ≡ true }
    ensures { result ≡ place_of key_cmp key.now entries.now }
{
    let at = count_below(entries, key);
    if at == entries.len() {
        return Err(at);
    }
    if key.cmp(&entries[at].0.as_slice()).is_eq() {
        Ok(at)
    } else {
        Err(at)
    }
}

/// The entry at a place, if there is one.
pub(crate) fn entry_at(entries: &[(Octets, Versions)], at: usize) -> Option<&(Octets, Versions)>
    ensures { option_copied result ≡ slice_get entries.now at }
{
    entries.get(at)
}

/// Whether the entry at a place, if there is one, is that of a key.
pub(crate) fn is_at(entries: &[(Octets, Versions)], key: &[u8], at: usize) -> bool
    ensures { result ≡ is_of_key key.now (slice_get entries.now at) }
{
    match entry_at(entries, at) {
        Some((other, _)) => key.cmp(&other.as_slice()).is_eq(),
        None => false,
    }
}

// As `place`. The hint is a place that is looked at first.
fn place_from(entries: &[(Octets, Versions)], key: &[u8], hint: usize) -> Result<usize, usize>
    requires { is_sorted key_cmp entries.now ≡ true }
    ensures { result ≡ place_of key_cmp key.now entries.now }
{
    if is_at(entries, key, hint) {
        return Ok(hint);
    }
    place(entries, key)
}

// What became of the row of a key, if anything did. The hint is a place that is looked at first.
fn versions_of<'a>(
    entries: &'a [(Octets, Versions)],
    key: &[u8],
    hint: usize,
) -> Option<&'a Versions>
    requires { is_sorted key_cmp entries.now ≡ true }
    ensures { option_copied result ≡ find key_cmp key.now entries.now }
{
    match place_from(entries, key, hint) {
        Ok(at) => match entry_at(entries, at) {
            Some((_, versions)) => Some(versions),
            None => None,
        },
        Err(_) => None,
    }
}

/// The row of a key at a time.
pub(crate) fn row_at(
    entries: &[(Octets, Versions)],
    key: &[u8],
    t: u64,
) -> Result<Option<Cells>, NoMemory>
    requires { IsTable entries.now }
    ensures { IfOk result (λ row. row ≡ row_of entries.now key.now t) }
{
    match versions_of(entries, key, entries.len()) {
        Some(versions) => versions.row_at(t),
        None => Ok(None),
    }
}

/// As `row_at`, in a row that borrows. Tells whether there is a row. The hint is a place that is looked at first.
pub(crate) fn row_into<'v>(
    entries: &'v [(Octets, Versions)],
    key: &[u8],
    t: u64,
    hint: usize,
    row: &mut RowRef<'v>,
) -> Result<bool, NoMemory>
    requires { IsTable entries.now }
    ensures { IfOk result (λ is. (if is then Some row.new else None) ≡ row_of entries.now key.now t) }
{
    match versions_of(entries, key, hint) {
        Some(versions) => versions.row_into(t, row),
        None => Ok(false),
    }
}

/// Whether a key has a row at a time.
pub(crate) fn has_row_at(entries: &[(Octets, Versions)], key: &[u8], t: u64) -> bool
    requires { IsTable entries.now }
    ensures { result ≡ is_some (row_of entries.now key.now t) }
{
    match versions_of(entries, key, entries.len()) {
        Some(versions) => versions.has_row_at(t),
        None => false,
    }
}

/// A change of the row of a key at a timestamp, at or above all before.
pub(crate) fn put_change(
    alloc: Global,
    entries: &mut Vec<(Octets, Versions)>,
    key: &[u8],
    ts: u64,
    change: &Change,
) -> Result<(), NoMemory>
    requires table { IsTable entries.old.items }
    requires later { IsTableUpTo ts entries.old.items }
    ensures { OnOk result (IsPut ts change.now key.now entries.old.items entries.new.items) }
{
    match place(entries, key) {
        Ok(at) => {
            entries[at].1.put(ts, change)?;
            Ok(())
        }
        Err(at) => {
            let mut versions = Versions::new(alloc);
            versions.put(ts, change)?;
            entries.insert(at, (Octets::from_slice(alloc, key)?, versions))?;
            Ok(())
        }
    }
}
