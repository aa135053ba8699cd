//! What became of the row of one key, by time.
ghost use Rattle.std.specs.Prelude.{◌≡◌, ◌≤◌, ◌++◌, ◌∷◌, [], ℕ, length, take, nat_le, is_some, true, false, Some, None, IfOk, OnOk, if◌then◌else◌};
ghost use Rattle.std.specs.List.Sorted.{IsPartitionPoint};
ghost use Rattle.std.specs.Option.{option_copied};
ghost use Rattle.kt_history.specs.Rows.{apply};
ghost use Rattle.kt_judge.specs.Tables.{stepped, row_after_all, row_from, AreOrdered, AreUpTo};

use kt_base::{Cell, Cells, NoMemory};
use kt_history::{Change, RowRef, apply, with_cells};
use std::alloc::Global;
use std::marker::Model;

/// What became of a row.
#[derive(Drop)]
pub(crate) enum Version {
    /// This is the row, or there is none.
    Whole(Option<Cells>),
    /// The row has these cells in place of its own.
    Update(Cells),
}

/// What became of the row of one key, by time. A long row with short updates is whole only now and then, as soon as the
/// updates since are as long as it: so all of it is about as long as the changes, and no row is far from a whole one.
/// Contracts see it as a list.
#[derive(Drop)]
pub(crate) struct Versions {
    list: Vec<(u64, Version)>,
    /// How many bytes of updates may still follow the last whole row.
    spare: usize,
}

impl Model for Versions {
    ghost use Rattle.std.specs.Prelude.{List, ℕ};
    ghost use Rattle.kt_judge.specs.declared.versions.Version.{Version};

    ghost Value = { List (ℕ × Version) };

    ghost view = { λ v. v.list.items };
}

// The last whole row, or that there is none, and how many versions it stands for.
#[derive(Clone, Copy)]
struct Base<'a> {
    row: Option<&'a Cells>,
    count: usize,
}

// About how many bytes some cells take.
fn weight(cells: &[(u16, Cell)]) -> usize {
    let mut bytes: usize = 0;
    for (_, cell) in cells {
        let long = match cell {
            Cell::Bytes(text) => text.len(),
            _ => 0,
        };
        bytes = bytes.saturating_add(32).saturating_add(long);
    }
    bytes
}

// How many versions are at or below a time.
fn count_up_to(list: &[(u64, Version)], t: u64) -> usize
    requires { AreOrdered list.now }
    ensures bound { result ≤ length list.now }
    ensures parts { IsPartitionPoint (λ v. nat_le v.0 t ≡ true) (λ v. nat_le v.0 t ≡ false) list.now result }
{
    list.partition_point(|version| version.0 <= t)
}

// The last whole row among some versions.
fn base_of(list: &[(u64, Version)]) -> Base<'_>
    ensures bound { result.count ≤ length list.now }
    ensures row { option_copied result.row ≡ row_after_all None (take result.count list.now) }
    ensures there { is_some result.row ≡ is_some (row_after_all None list.now) }
{
    let mut at = list.len();
    'versions: while at > 0 {
        at -= 1;
        match &list[at].1 {
            Version::Whole(row) => {
                return Base {
                    row: row.as_ref(),
                    count: at + 1,
                };
            }
            Version::Update(_) => {}
        }
    }
    Base {
        row: None,
        count: 0,
    }
}

// The row after a version.
fn after(version: &Version, row: Option<Cells>) -> Result<Option<Cells>, NoMemory>
    ensures { IfOk result (λ after. after ≡ stepped version.now row) }
{
    match (version, row) {
        (Version::Whole(None), _) => Ok(None),
        (Version::Whole(Some(row)), _) => Ok(Some(row.copy()?)),
        (Version::Update(cells), Some(row)) => Ok(Some(with_cells(row, cells.as_slice())?)),
        (Version::Update(_), None) => Ok(None),
    }
}

fn copied(row: Option<&Cells>) -> Result<Option<Cells>, NoMemory>
    ensures { IfOk result (λ copy. copy ≡ option_copied row.entry) }
{
    match row {
        Some(row) => Ok(Some(row.copy()?)),
        None => Ok(None),
    }
}

// The row after all of these versions.
fn last_row(list: &[(u64, Version)]) -> Result<Option<Cells>, NoMemory>
    ensures { IfOk result (λ row. row ≡ row_after_all None list.now) }
{
    let base = base_of(list);
    let mut row = copied(base.row)?;
    for at in base.count..list.len() {
        row = after(&list[at].1, row)?;
    }
    Ok(row)
}

// The row that is borrowed, if there is one, in a row that is used again.
fn base_in<'v>(row: &mut RowRef<'v>, base: Option<&'v Cells>) -> Result<bool, NoMemory>
    ensures { IfOk result (λ is. (if is then Some row.new else None) ≡ option_copied base.entry) }
{
    match base {
        Some(base) => {
            row.assign(base.as_slice())?;
            Ok(true)
        }
        None => Ok(false),
    }
}

// As `after`, in a row that borrows. Told whether there is a row, it tells whether there is one then.
fn after_in<'v>(version: &'v Version, row: &mut RowRef<'v>, there: bool) -> Result<bool, NoMemory>
    ensures { IfOk result (λ is. (if is then Some row.new else None) ≡ stepped version.now (if there then Some row.old else None)) }
{
    match (version, there) {
        (Version::Whole(whole), _) => base_in(row, whole.as_ref()),
        (Version::Update(cells), true) => {
            row.set_all(cells.as_slice())?;
            Ok(true)
        }
        (Version::Update(_), false) => Ok(false),
    }
}

// As `last_row`, in a row that borrows.
fn last_row_in<'v>(list: &'v [(u64, Version)], row: &mut RowRef<'v>) -> Result<bool, NoMemory>
    ensures { IfOk result (λ is. (if is then Some row.new else None) ≡ row_after_all None list.now) }
{
    let base = base_of(list);
    let mut there = base_in(row, base.row)?;
    for at in base.count..list.len() {
        there = after_in(&list[at].1, row, there)?;
    }
    Ok(there)
}

impl Versions {
    /// No version yet.
    pub(crate) fn new(alloc: Global) -> Versions
        ensures { result ≡ [] }
    {
        Versions {
            list: Vec::new(alloc),
            spare: 0,
        }
    }

    // The versions at or below a time.
    fn up_to(&self, t: u64) -> &[(u64, Version)]
        requires { AreOrdered self.now }
        ensures { row_after_all None result.now ≡ row_from None t self.now }
    {
        &self.list[..count_up_to(&self.list, t)]
    }

    /// The row at a time.
    pub(crate) fn row_at(&self, t: u64) -> Result<Option<Cells>, NoMemory>
        requires { AreOrdered self.now }
        ensures { IfOk result (λ row. row ≡ row_from None t self.now) }
    {
        last_row(self.up_to(t))
    }

    /// As `row_at`, in a row that borrows. Tells whether there is a row.
    pub(crate) fn row_into<'v>(&'v self, t: u64, row: &mut RowRef<'v>) -> Result<bool, NoMemory>
        requires { AreOrdered self.now }
        ensures { IfOk result (λ is. (if is then Some row.new else None) ≡ row_from None t self.now) }
    {
        last_row_in(self.up_to(t), row)
    }

    /// Whether there is a row at a time.
    pub(crate) fn has_row_at(&self, t: u64) -> bool
        requires { AreOrdered self.now }
        ensures { result ≡ is_some (row_from None t self.now) }
    {
        base_of(self.up_to(t)).row.is_some()
    }

    // A whole row from a timestamp on.
    fn put_whole(&mut self, ts: u64, row: Option<Cells>) -> Result<(), NoMemory>
        ensures { OnOk result (self.new ≡ self.old ++ (ts, Version.Whole row) ∷ []) }
    {
        self.spare = match &row {
            Some(row) => weight(row.as_slice()),
            None => 0,
        };
        self.list.push((ts, Version::Whole(row)))?;
        Ok(())
    }

    /// A change of the row at a timestamp, at or above all before.
    pub(crate) fn put(&mut self, ts: u64, change: &Change) -> Result<(), NoMemory>
        requires ordered { AreOrdered self.old }
        requires later { AreUpTo ts self.old }
        ensures ordered { OnOk result (AreOrdered self.new) }
        ensures up_to { OnOk result (AreUpTo ts self.new) }
        ensures rows { OnOk result ((t : ℕ) → row_from None t self.new ≡ (if nat_le ts t then apply change.now (row_from None t self.old) else row_from None t self.old)) }
    {
        if let Change::Upd(cells) = change {
            let bytes = weight(cells.as_slice());
            if bytes <= self.spare {
                self.spare -= bytes;
                self.list.push((ts, Version::Update(cells.copy()?)))?;
                return Ok(());
            }
        }
        let mut row = self.row_at(ts)?;
        apply(change, &mut row)?;
        self.put_whole(ts, row)?;
        Ok(())
    }
}
