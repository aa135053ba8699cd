//! A base file that several owners share.
ghost use Rattle.std.specs.Prelude.{◌≡◌, ◌<◌, ◌≤◌, ◌++◌, drop, length, slice_get, None, Some, IfOk, OnOk, MatchOption};
ghost use Rattle.std.specs.List.{filter};
ghost use Rattle.std.specs.Option.{option_copied};
ghost use Rattle.kt_history.specs.Views.{is_above, key_above, AreRising};
ghost use Rattle.kt_baseset.specs.Asked.{cells_asked};
ghost use Rattle.kt_baseset.specs.Rows.{keys_in};
ghost use Rattle.kt_baseset.specs.Tables.{key_at, cells_in};
ghost use Rattle.kt_rowfiles.specs.Files.{row_under};
ghost use Rattle.kt_diskrowset.specs.Rows.{rows_of};

use kt_base::{Cell, Cells, NoMemory, Octets};
use kt_baseset::BaseSet;
use kt_bytes::Texts;
use std::alloc::Global;
use std::sync::Arc;

/// A base file: its number, how many bytes it has, and its rows. One that is not written yet has the number 0.
#[derive(Drop)]
pub struct BaseHeld {
    pub file: u64,
    pub len: u64,
    pub set: Arc<BaseSet>,
}

// The place of a key's row: the filter is asked first, then the index, and then keys are compared.
fn place_of(set: &BaseSet, key: &[u8]) -> Option<u32>
    ensures rise { AreRising (keys_in set.now.rows) }
    ensures row { MatchOption result (row_under key.now 0 (rows_of set.now.rows) ≡ None) (λ i. (i < length set.now.rows) × (row_under key.now 0 (rows_of set.now.rows) ≡ Some (i, cells_in set.now.rows i))) }
{
    let _rows = set.rows();
    set.ordinal(key)
}

// The place of the first key above another, or of the first of all. It is the number of rows where there is none.
fn place_above(set: &BaseSet, after: Option<&[u8]>) -> u32
    ensures rise { AreRising (keys_in set.now.rows) }
    ensures within { result ≤ length set.now.rows }
    ensures behind { drop result (keys_in set.now.rows) ≡ filter (is_above (option_copied after.entry)) (keys_in set.now.rows) }
    ensures first { slice_get (keys_in set.now.rows) result ≡ key_above (option_copied after.entry) (keys_in set.now.rows) }
{
    let _rows = set.rows();
    match after {
        Some(key) => set.first_above(key),
        None => 0,
    }
}

// The keys of the rows rise.
fn keys_rise(set: &BaseSet)
    ensures { AreRising (keys_in set.now.rows) }
{
    let _rows = set.rows();
}

// The least key above another, or the least of all.
fn key_above_in(
    alloc: Global,
    set: &BaseSet,
    after: Option<&[u8]>,
) -> Result<Option<Octets>, NoMemory>
    ensures rise { AreRising (keys_in set.now.rows) }
    ensures found { IfOk result (λ found. found ≡ key_above (option_copied after.entry) (keys_in set.now.rows)) }
{
    let at = place_above(set, after);
    if at >= set.rows() {
        return Ok(None);
    }
    Ok(Some(set.key(alloc, at)?))
}

impl BaseHeld {
    /// Another owner of the same file.
    pub fn copy(&self) -> Result<BaseHeld, NoMemory>
        ensures { IfOk result (λ copy. (copy.file ≡ self.now.file) × (copy.len ≡ self.now.len) × (copy.set.value ≡ self.now.set.value)) }
    {
        match Arc::try_clone(&self.set) {
            Ok(set) => Ok(BaseHeld {
                file: self.file,
                len: self.len,
                set,
            }),
            Err(_) => Err(NoMemory),
        }
    }

    /// The place of a key's row, if it has one. The keys of the rows rise.
    pub fn ordinal(&self, key: &[u8]) -> Option<u32>
        ensures rise { AreRising (keys_in self.now.set.value.rows) }
        ensures row { MatchOption result (row_under key.now 0 (rows_of self.now.set.value.rows) ≡ None) (λ i. (i < length self.now.set.value.rows) × (row_under key.now 0 (rows_of self.now.set.value.rows) ≡ Some (i, cells_in self.now.set.value.rows i))) }
    {
        place_of(&self.set, key)
    }

    /// The place of the first key above another, or of the first of all. It is the number of rows where there is none. The keys of
    /// the rows rise.
    pub fn place_above(&self, after: Option<&[u8]>) -> u32
        ensures rise { AreRising (keys_in self.now.set.value.rows) }
        ensures within { result ≤ length self.now.set.value.rows }
        ensures behind { drop result (keys_in self.now.set.value.rows) ≡ filter (is_above (option_copied after.entry)) (keys_in self.now.set.value.rows) }
    {
        place_above(&self.set, after)
    }

    /// The least key above another, or the least of all. The keys of the rows rise.
    pub fn key_after(&self, alloc: Global, after: Option<&[u8]>) -> Result<Option<Octets>, NoMemory>
        ensures rise { AreRising (keys_in self.now.set.value.rows) }
        ensures found { IfOk result (λ found. found ≡ key_above (option_copied after.entry) (keys_in self.now.set.value.rows)) }
    {
        key_above_in(alloc, &self.set, after)
    }

    /// What always holds of it: the keys of its rows rise.
    pub fn standing(&self)
        ensures { AreRising (keys_in self.now.set.value.rows) }
    {
        keys_rise(&self.set);
    }

    /// How many rows there are.
    pub fn rows(&self) -> u32
        ensures { result ≡ length self.now.set.value.rows }
    {
        self.set.rows()
    }

    /// The key of the row at a place.
    pub fn key(&self, alloc: Global, ordinal: u32) -> Result<Octets, NoMemory>
        requires { ordinal < length self.now.set.value.rows }
        ensures { IfOk result (λ key. key ≡ key_at self.now.set.value.rows ordinal) }
    {
        self.set.key(alloc, ordinal)
    }

    /// The keys of all rows, read in one go.
    pub fn keys(&self, alloc: Global) -> Result<Texts, NoMemory>
        ensures { IfOk result (λ keys. keys ≡ keys_in self.now.set.value.rows) }
    {
        self.set.keys(alloc)
    }

    /// Appends the cells of the row at a place in these columns, in their order, and decodes no others. With each column stands
    /// the cell that is taken where the row has none.
    pub fn push_asked(
        &self,
        alloc: Global,
        ordinal: u32,
        columns: &[(u16, Cell)],
        cells: &mut Vec<Cell>,
    ) -> Result<(), NoMemory>
        requires { ordinal < length self.now.set.value.rows }
        ensures { OnOk result (cells.new.items ≡ cells.old.items ++ cells_asked columns.now (cells_in self.now.set.value.rows ordinal)) }
    {
        self.set.push_asked(alloc, ordinal, columns, cells)
    }

    /// The row at a place.
    pub fn row(&self, alloc: Global, ordinal: u32) -> Result<Cells, NoMemory>
        requires { ordinal < length self.now.set.value.rows }
        ensures { IfOk result (λ row. row ≡ cells_in self.now.set.value.rows ordinal) }
    {
        self.set.row(alloc, ordinal)
    }
}
