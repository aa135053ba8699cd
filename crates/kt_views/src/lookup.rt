//! Rows by rising key: where a key stands, its row, and the key behind it.
ghost use Rattle.std.specs.Prelude.{◌≡◌, ◌≤◌, not, length, slice_get, true, false, Some, None, IfOk, if◌then◌else◌};
ghost use Rattle.std.specs.List.Sorted.{IsPartitionPoint};
ghost use Rattle.std.specs.Option.{option_copied, option_map};
ghost use Rattle.std.specs.Ordering.{is_lt};
ghost use Rattle.std.specs.FinMap.Entries.{find, is_sorted};
ghost use Rattle.kt_history.specs.Places.{place_of};
ghost use Rattle.kt_history.specs.Rows.{key_cmp};
ghost use Rattle.kt_history.specs.Views.{key_above};
ghost use Rattle.kt_views.specs.Keys.{keys_under, is_of_key, is_below, is_above, IsGap};

use kt_base::{Cells, NoMemory, Octets};
use kt_history::RowRef;
use std::alloc::Global;

// How many keys are below another.
fn count_below(rows: &[(Octets, Cells)], key: &[u8]) -> usize
    requires { is_sorted key_cmp rows.now ≡ true }
    ensures bound { result ≤ length rows.now }
    ensures parts { IsPartitionPoint (λ r. is_lt (key_cmp r.0 key.now) ≡ true) (λ r. is_lt (key_cmp r.0 key.now) ≡ false) rows.now result }
{
    rows.partition_point(|row| row.0.as_slice().cmp(&key).is_lt())
}

// How many keys are not above another.
fn count_not_above(rows: &[(Octets, Cells)], key: &[u8]) -> usize
    requires { is_sorted key_cmp rows.now ≡ true }
    ensures bound { result ≤ length rows.now }
    ensures parts { IsPartitionPoint (λ r. not (is_lt (key_cmp key.now r.0)) ≡ true) (λ r. not (is_lt (key_cmp key.now r.0)) ≡ false) rows.now result }
{
    rows.partition_point(|row| !key.cmp(&row.0.as_slice()).is_lt())
}

// The row at a place, if there is one.
fn entry_at(rows: &[(Octets, Cells)], at: usize) -> Option<&(Octets, Cells)>
    ensures { option_copied result ≡ slice_get rows.now at }
{
    rows.get(at)
}

// Whether the row at a place, if there is one, is that of a key.
fn is_at(rows: &[(Octets, Cells)], key: &[u8], at: usize) -> bool
    ensures { result ≡ is_of_key key.now (slice_get rows.now at) }
{
    match entry_at(rows, at) {
        Some((other, _)) => key.cmp(&other.as_slice()).is_eq(),
        None => false,
    }
}

// Where a key stands, or would stand.
fn place(rows: &[(Octets, Cells)], key: &[u8]) -> Result<usize, usize>
    requires { is_sorted key_cmp rows.now ≡ true }
    ensures { result ≡ place_of key_cmp key.now rows.now }
{
    let at = count_below(rows, key);
    if at == rows.len() {
        return Err(at);
    }
    if key.cmp(&rows[at].0.as_slice()).is_eq() {
        Ok(at)
    } else {
        Err(at)
    }
}

// Whether a key is below that of the row at a place, if there is one.
fn is_below(rows: &[(Octets, Cells)], key: &[u8], at: usize) -> bool
    ensures { result ≡ is_below key.now (slice_get rows.now at) }
{
    match entry_at(rows, at) {
        Some((other, _)) => key.cmp(&other.as_slice()).is_lt(),
        None => true,
    }
}

// Whether there is a row at a place, and a key is above that of it.
fn is_above(rows: &[(Octets, Cells)], key: &[u8], at: usize) -> bool
    ensures { result ≡ is_above key.now (slice_get rows.now at) }
{
    match entry_at(rows, at) {
        Some((other, _)) => key.cmp(&other.as_slice()).is_gt(),
        None => false,
    }
}

// Whether a key would stand at a place, where none stands, as far as the rows beside it tell.
fn is_gap(rows: &[(Octets, Cells)], key: &[u8], at: usize) -> bool
    requires { is_sorted key_cmp rows.now ≡ true }
    ensures { result ≡ true → IsGap key.now rows.now at }
{
    if !is_below(rows, key, at) {
        return false;
    }
    if at == 0 {
        return true;
    }
    is_above(rows, key, at - 1)
}

// As `place`. The hint is a place that is looked at first.
fn place_from(rows: &[(Octets, Cells)], key: &[u8], hint: usize) -> Result<usize, usize>
    requires { is_sorted key_cmp rows.now ≡ true }
    ensures { result ≡ place_of key_cmp key.now rows.now }
{
    if is_at(rows, key, hint) {
        return Ok(hint);
    }
    if is_gap(rows, key, hint) {
        return Err(hint);
    }
    place(rows, key)
}

// The row of a key, if it has one. The hint is a place that is looked at first.
fn cells_of<'v>(rows: &'v [(Octets, Cells)], key: &[u8], hint: usize) -> Option<&'v Cells>
    requires { is_sorted key_cmp rows.now ≡ true }
    ensures { option_copied result ≡ find key_cmp key.now rows.now }
{
    match place_from(rows, key, hint) {
        Ok(at) => match entry_at(rows, at) {
            Some((_, cells)) => Some(cells),
            None => None,
        },
        Err(_) => None,
    }
}

/// The row of a key, with texts of its own.
pub(crate) fn row_of(rows: &[(Octets, Cells)], key: &[u8]) -> Result<Option<Cells>, NoMemory>
    requires { is_sorted key_cmp rows.now ≡ true }
    ensures { IfOk result (λ row. row ≡ find key_cmp key.now rows.now) }
{
    match cells_of(rows, key, rows.len()) {
        Some(cells) => Ok(Some(cells.copy()?)),
        None => Ok(None),
    }
}

/// As `row_of`, into a row that borrows. Tells whether there is a row. The hint is a place that is looked at first.
pub(crate) fn row_in<'v>(
    rows: &'v [(Octets, Cells)],
    key: &[u8],
    hint: usize,
    row: &mut RowRef<'v>,
) -> Result<bool, NoMemory>
    requires { is_sorted key_cmp rows.now ≡ true }
    ensures { IfOk result (λ is. find key_cmp key.now rows.now ≡ (if is then Some row.new else None)) }
{
    match cells_of(rows, key, hint) {
        Some(cells) => {
            row.assign(cells.as_slice())?;
            Ok(true)
        }
        None => Ok(false),
    }
}

// As `count_not_above`. The hint is a place that is looked at first for the key.
fn count_from(rows: &[(Octets, Cells)], key: &[u8], hint: usize) -> usize
    requires { is_sorted key_cmp rows.now ≡ true }
    ensures bound { result ≤ length rows.now }
    ensures parts { IsPartitionPoint (λ r. not (is_lt (key_cmp key.now r.0)) ≡ true) (λ r. not (is_lt (key_cmp key.now r.0)) ≡ false) rows.now result }
{
    if is_at(rows, key, hint) {
        return hint + 1;
    }
    if is_gap(rows, key, hint) {
        return hint;
    }
    count_not_above(rows, key)
}

/// Where the least key above another stands, or the first of all.
pub(crate) fn place_after(rows: &[(Octets, Cells)], after: Option<&[u8]>, hint: usize) -> usize
    requires { is_sorted key_cmp rows.now ≡ true }
    ensures { option_map (λ r. r.0) (slice_get rows.now result) ≡ key_above (option_copied after.entry) (keys_under rows.now) }
{
    match after {
        None => 0,
        Some(after) => count_from(rows, after, hint),
    }
}

/// The key at a place, if there is one.
pub(crate) fn key_at(rows: &[(Octets, Cells)], at: usize) -> Option<&[u8]>
    ensures { option_copied result ≡ option_map (λ r. r.0) (slice_get rows.now at) }
{
    match entry_at(rows, at) {
        Some((key, _)) => Some(key.as_slice()),
        None => None,
    }
}

// A key with bytes of its own.
fn copied(alloc: Global, key: Option<&[u8]>) -> Result<Option<Octets>, NoMemory>
    ensures { IfOk result (λ copy. copy ≡ option_copied key.entry) }
{
    match key {
        Some(key) => Ok(Some(Octets::from_slice(alloc, key)?)),
        None => Ok(None),
    }
}

/// The least key above another, or the first of all, with bytes of its own.
pub(crate) fn least_above(
    alloc: Global,
    rows: &[(Octets, Cells)],
    after: Option<&[u8]>,
) -> Result<Option<Octets>, NoMemory>
    requires { is_sorted key_cmp rows.now ≡ true }
    ensures { IfOk result (λ found. found ≡ key_above (option_copied after.entry) (keys_under rows.now)) }
{
    let at = place_after(rows, after, rows.len());
    Ok(copied(alloc, key_at(rows, at))?)
}
