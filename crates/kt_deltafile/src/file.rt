//! The value of a delta file, and a row's records in it.
ghost use Rattle.std.specs.Prelude.{◌≡◌, ◌<◌, ◌≤◌, ℕ, true, length};
ghost use Rattle.kt_deltafile.specs.Order.{ordinal_at, AreUpTo};
ghost use Rattle.kt_deltafile.specs.Rules.{IsFile};

use kt_history::{Delta, DeltaList};
use std::marker::Model;

/// Which way the records of a file lead: forward from the base file's rows, or backward.
#[derive(Clone, Copy, PartialEq, Eq)]
pub enum Way {
    /// By rising timestamp. No record is an insert.
    Redo,
    /// By falling timestamp.
    Undo,
}

/// The records of a delta file, by ordinal, and those of a row in the order of the way.
#[derive(Drop)]
pub struct DeltaFile {
    way: Way,
    list: DeltaList,
    // No record is above this timestamp.
    newest: u64,
}

impl Model for DeltaFile {
    ghost use Rattle.kt_deltafile.specs.File.{FileView};
    ghost use Rattle.kt_deltafile.specs.Order.{AreUpTo};
    ghost use Rattle.kt_deltafile.specs.Rules.{IsFile};

    ghost Value = { FileView };

    ghost view = { λ f. record { way = f.way; list = f.list } };

    ghost invariant = { λ f. IsFile f.way f.list × AreUpTo f.newest f.list };
}

impl DeltaFile {
    /// The file of a list that has the order and the form of the way.
    pub fn of(list: DeltaList, way: Way) -> DeltaFile
        requires { IsFile way list }
        ensures way { result.way ≡ way }
        ensures list { result.list ≡ list }
    {
        let newest = newest_of(list.as_slice());
        DeltaFile { way, list, newest }
    }

    pub fn way(&self) -> Way
        ensures { result ≡ self.now.way }
    {
        self.way
    }

    pub fn list(&self) -> &DeltaList
        ensures list { result.now ≡ self.now.list }
        // It has the order and the form of the way.
        ensures form { IsFile self.now.way self.now.list }
    {
        &self.list
    }

    /// A timestamp that no record is above.
    pub fn newest(&self) -> u64
        ensures { AreUpTo result self.now.list }
    {
        self.newest
    }

    /// Where the records of a row begin, and where they end.
    pub fn of_row(&self, ordinal: u32) -> (u32, u32)
        ensures within { (result.0 ≤ result.1) × (result.1 ≤ length self.now.list) }
        ensures before { (i : ℕ) → i < result.0 → ordinal_at self.now.list i < ordinal }
        ensures here { (i : ℕ) → result.0 ≤ i → i < result.1 → ordinal_at self.now.list i ≡ ordinal }
        ensures behind { (i : ℕ) → result.1 ≤ i → i < length self.now.list → ordinal < ordinal_at self.now.list i }
    {
        let records = self.list.as_slice();
        let start = first_near(records, ordinal as usize, u64::from(ordinal));
        let end = first_near(records, start, u64::from(ordinal) + 1);
        (start as u32, end as u32)
    }
}

/// The greatest timestamp of these records, or 0.
fn newest_of(records: &[Delta]) -> u64
    ensures { AreUpTo result records.now }
{
    let mut newest: u64 = 0;
    'records: for record in records {
        newest = newest.max(record.ts);
    }
    newest
}

/// Whether the first record of this ordinal or a greater one stands at a place.
fn is_first(records: &[Delta], at: usize, ordinal: u64) -> bool
    requires { (i j : ℕ) → i ≤ j → j < length records.now → ordinal_at records.now i ≤ ordinal_at records.now j }
    ensures within { result ≡ true → at < length records.now }
    ensures before { result ≡ true → (i : ℕ) → i < at → ordinal_at records.now i < ordinal }
    ensures behind { result ≡ true → (i : ℕ) → at ≤ i → i < length records.now → ordinal ≤ ordinal_at records.now i }
{
    if at >= records.len() {
        return false;
    }
    if u64::from(records[at].ordinal) < ordinal {
        return false;
    }
    if at == 0 {
        return true;
    }
    u64::from(records[at - 1].ordinal) < ordinal
}

/// As `first_from`. A place and the one behind it are looked at first.
fn first_near(records: &[Delta], near: usize, ordinal: u64) -> usize
    requires { (i j : ℕ) → i ≤ j → j < length records.now → ordinal_at records.now i ≤ ordinal_at records.now j }
    ensures within { result ≤ length records.now }
    ensures before { (i : ℕ) → i < result → ordinal_at records.now i < ordinal }
    ensures behind { (i : ℕ) → result ≤ i → i < length records.now → ordinal ≤ ordinal_at records.now i }
{
    if is_first(records, near, ordinal) {
        return near;
    }
    let next = near.saturating_add(1);
    if is_first(records, next, ordinal) {
        return next;
    }
    first_from(records, ordinal)
}

/// The place of the first record of this ordinal or a greater one.
fn first_from(records: &[Delta], ordinal: u64) -> usize
    requires { (i j : ℕ) → i ≤ j → j < length records.now → ordinal_at records.now i ≤ ordinal_at records.now j }
    ensures within { result ≤ length records.now }
    ensures before { (i : ℕ) → i < result → ordinal_at records.now i < ordinal }
    ensures behind { (i : ℕ) → result ≤ i → i < length records.now → ordinal ≤ ordinal_at records.now i }
{
    let mut low = 0;
    let mut high = records.len();
    while low < high {
        let mid = low + (high - low) / 2;
        if u64::from(records[mid].ordinal) < ordinal {
            low = mid + 1;
        } else {
            high = mid;
        }
    }
    low
}
