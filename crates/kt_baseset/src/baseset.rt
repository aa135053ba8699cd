//! A base set: keys, columns, filter and index as one value.
ghost use Rattle.std.specs.Prelude.{◌≡◌, ◌≢◌, ◌<◌, ◌≤◌, ◌^◌, ◌+◌, ◌*◌, ◌-◌, ◌++◌, [], ℕ, All, length, IfOk, OnOk, IfSome, IfNone, slice_index_or};
ghost use Rattle.kt_lookup.specs.Index.{IsBelow, Rises};
ghost use Rattle.kt_lookup.specs.Tables.{Tables};
ghost use Rattle.kt_baseset.specs.Asked.{cells_asked};
ghost use Rattle.kt_baseset.specs.Rows.{AreKeys, AllFit, IdsRise, IsBase, keys_in};
ghost use Rattle.kt_baseset.specs.Tables as tables;
ghost use Rattle.kt_baseset.specs.Tables.{BaseValue, bytes_of, key_at, cells_in, keys_of, HasCells};
ghost use Rattle.kt_baseset.specs.Spelling.{SpellsBase};

use crate::asked::push_asked;
use crate::columns::columns_of;
use crate::held::HeldColumn;
use crate::keys::{all_of, column_of, list_of};
use crate::rows::KeyedRows;
use crate::schema::{ColumnShape, Schema1};
use crate::spelling::{put_columns, put_lookup, spell_keys};
use kt_base::{Cell, Cells, NoMemory, Octets};
use kt_column::ColumnData;
use kt_lookup::{KeyList, Lookup, Steps};
use std::alloc::Global;
use std::cmp::Ordering;
use std::marker::{Brand, Model};
use std::sync::ledger::{Blank, Ledger};

/// The base file of a disk rowset. Contracts see its columns, and its rows by rising key.
#[derive(Drop)]
pub struct BaseSet {
    keys: ColumnData,
    columns: Vec<HeldColumn>,
    lookup: Lookup,
}

impl Model for BaseSet {
    ghost use Rattle.kt_baseset.specs.Tables.{BaseValue, IsHeld, shapes_of, rows_of, keys_of};

    ghost Value = { BaseValue };

    ghost view = { λ s. record { schema = shapes_of s.columns.items; rows = rows_of (keys_of s.keys.cells) s.columns.items } };

    ghost invariant = { λ s. IsHeld s.keys s.columns.items s.lookup };
}

/// The filter and the index of keys.
pub fn lookup_of(alloc: Global, list: &KeyList) -> Result<Lookup, NoMemory>
    requires { AreKeys list.now }
    ensures { IfOk result (tables.IsLookup list.now) }
{
    match kt_lookup::build(alloc, list) {
        Ok(lookup) => Ok(lookup),
        Err(_) => Err(NoMemory),
    }
}

/// The base set of rows.
pub fn build(alloc: Global, rows: &KeyedRows, schema: &Schema1) -> Result<BaseSet, NoMemory>
    requires keys { AreKeys (keys_in rows.now) }
    requires columns { length schema.now < 2 ^ 16 }
    requires ids { IdsRise 0 schema.now }
    requires cells { AllFit schema.now rows.now }
    ensures { IfOk result (λ set. set ≡ record { schema = schema.now; rows = rows.now }) }
{
    let keys = column_of(alloc, rows.as_slice())?;
    let list = list_of(alloc, &keys)?;
    let lookup = lookup_of(alloc, &list)?;
    let columns = columns_of(alloc, rows.as_slice(), schema.as_slice())?;
    Ok(BaseSet {
        keys,
        columns,
        lookup,
    })
}

/// What the columns are.
fn shapes_of(alloc: Global, columns: &[HeldColumn]) -> Result<Vec<ColumnShape>, NoMemory>
    ensures { IfOk result (λ shapes. shapes.items ≡ tables.shapes_of columns.now) }
{
    let mut shapes = Vec::new(alloc);
    'columns: for held in columns {
        shapes.push(held.shape)?;
    }
    Ok(shapes)
}

/// The cells of a row.
fn row_of(alloc: Global, columns: &[HeldColumn], i: u32) -> Result<Cells, NoMemory>
    requires { All (HasCells i) columns.now }
    ensures { IfOk result (λ row. row ≡ tables.row_at columns.now i) }
{
    let mut row = Vec::with_capacity(alloc, columns.len())?;
    'columns: for held in columns {
        row.push((held.shape.id, held.column.cell(alloc, i)?))?;
    }
    Ok(Cells::of(row))
}

/// The bytes of a key's cell.
fn bytes_in(alloc: Global, cell: Cell) -> Octets
    ensures { result ≡ bytes_of cell }
{
    match cell {
        Cell::Bytes(bytes) => bytes,
        _ => Octets::new(alloc),
    }
}

/// The place among the index's entries of the first one at or after a key, or their count.
fn entry_by<L: Ledger>(lookup: &Lookup, key: &[u8], blank: Blank) -> u32
    requires name { blank.name ≡ L.name }
    requires parts { blank.parts ≡ L.parts }
    requires some { 0 < L.parts }
    ensures within { result ≤ length lookup.now.index }
    ensures before { (j : ℕ) → j < result → IsBelow (slice_index_or lookup.now.index j []) key.now }
    ensures at { result < length lookup.now.index → ¬ IsBelow (slice_index_or lookup.now.index result []) key.now }
{
    let mut steps = Steps::<L>::start(blank);
    lookup.first_at_or_after(key, &mut steps)
}

fn entry_of(lookup: &Lookup, key: &[u8]) -> u32
    ensures within { result ≤ length lookup.now.index }
    ensures before { (j : ℕ) → j < result → IsBelow (slice_index_or lookup.now.index j []) key.now }
    ensures at { result < length lookup.now.index → ¬ IsBelow (slice_index_or lookup.now.index result []) key.now }
{
    entry_by::<Brand>(lookup, key, Blank::new(1))
}

/// The places of the keys behind the entry before this one, up to this one's own.
fn stretch(entry: u32, rows: u32) -> (u32, u32)
    requires entry { 16 * entry ≤ rows + 15 }
    requires rows { rows ≤ 3435973836 }
    ensures start { result.0 ≡ tables.stretch_start entry }
    ensures end { result.1 ≡ tables.stretch_end entry rows }
{
    let start = if entry == 0 { 0 } else { 16 * (entry - 1) + 1 };
    (start, rows.min(16 * entry + 1))
}

/// The place of the key between two places, where it stands there. The first greater key ends the search.
fn find(keys: &ColumnData, start: u32, end: u32, key: &[u8]) -> Option<u32>
    requires within { end ≤ length keys.now.cells }
    requires texts { tables.AreTexts keys.now }
    requires rise { Rises (keys_of keys.now.cells) }
    ensures found { IfSome result (λ i. (i < end) × (slice_index_or (keys_of keys.now.cells) i [] ≡ key.now)) }
    ensures none { IfNone result ((i : ℕ) → start ≤ i → i < end → slice_index_or (keys_of keys.now.cells) i [] ≢ key.now) }
{
    'keys: for i in start..end {
        match keys.compare(i, key) {
            Ordering::Less => {}
            Ordering::Equal => return Some(i),
            Ordering::Greater => return None,
        }
    }
    None
}

/// The place of a key: a search of the index, and then of the keys between two of its entries.
fn search(keys: &ColumnData, lookup: &Lookup, key: &[u8]) -> Option<u32>
    requires texts { tables.AreTexts keys.now }
    requires are { AreKeys (keys_of keys.now.cells) }
    requires of { tables.IsLookup (keys_of keys.now.cells) lookup.now }
    ensures found { IfSome result (λ i. (i < length keys.now.cells) × (slice_index_or (keys_of keys.now.cells) i [] ≡ key.now)) }
    ensures none { IfNone result ((i : ℕ) → i < length keys.now.cells → slice_index_or (keys_of keys.now.cells) i [] ≢ key.now) }
{
    if !lookup.may_have(key) {
        return None;
    }
    let (start, end) = stretch(entry_of(lookup, key), keys.len());
    find(keys, start, end, key)
}

/// The place of the first key above another, or the count of the keys.
fn first_above(keys: &ColumnData, key: &[u8]) -> u32
    requires texts { tables.AreTexts keys.now }
    requires rise { Rises (keys_of keys.now.cells) }
    ensures within { result ≤ length keys.now.cells }
    ensures before { (i : ℕ) → i < result → ¬ IsBelow key.now (slice_index_or (keys_of keys.now.cells) i []) }
    ensures above { (i : ℕ) → result ≤ i → i < length keys.now.cells → IsBelow key.now (slice_index_or (keys_of keys.now.cells) i []) }
{
    let mut low = 0;
    let mut high = keys.len();
    'halves: while low < high {
        let mid = low + (high - low) / 2;
        if keys.compare(mid, key).is_gt() {
            high = mid;
        } else {
            low = mid + 1;
        }
    }
    low
}

impl BaseSet {
    /// The base set of what was read.
    pub(crate) fn of(keys: ColumnData, columns: Vec<HeldColumn>, lookup: Lookup) -> BaseSet
        requires { tables.IsHeld keys columns.items lookup }
        ensures schema { result.schema ≡ tables.shapes_of columns.items }
        ensures rows { result.rows ≡ tables.rows_of (keys_of keys.cells) columns.items }
    {
        BaseSet {
            keys,
            columns,
            lookup,
        }
    }

    /// How many rows there are.
    pub fn rows(&self) -> u32
        ensures count { result ≡ length self.now.rows }
        // They are rows that a base file can hold.
        ensures base { IsBase self.now.schema self.now.rows }
    {
        self.keys.len()
    }

    /// What the columns are.
    pub fn schema(&self, alloc: Global) -> Result<Schema1, NoMemory>
        ensures { IfOk result (λ schema. schema ≡ self.now.schema) }
    {
        Ok(Schema1::of(shapes_of(alloc, &self.columns)?))
    }

    /// The place of a key among the rows. The filter is asked first, then the index, and then keys are compared
    /// in order, at most 16 and up to the first that is not below.
    pub fn ordinal(&self, key: &[u8]) -> Option<u32>
        ensures found { IfSome result (λ i. (i < length self.now.rows) × (key_at self.now.rows i ≡ key.now)) }
        ensures none { IfNone result ((i : ℕ) → i < length self.now.rows → key_at self.now.rows i ≢ key.now) }
    {
        search(&self.keys, &self.lookup, key)
    }

    /// The place of the first key above another, or how many rows there are. Half of the keys that are left is passed by each
    /// comparison.
    pub fn first_above(&self, key: &[u8]) -> u32
        ensures within { result ≤ length self.now.rows }
        ensures before { (i : ℕ) → i < result → ¬ IsBelow key.now (key_at self.now.rows i) }
        ensures above { (i : ℕ) → result ≤ i → i < length self.now.rows → IsBelow key.now (key_at self.now.rows i) }
    {
        first_above(&self.keys, key)
    }

    /// The cells of a row.
    pub fn row(&self, alloc: Global, ordinal: u32) -> Result<Cells, NoMemory>
        requires { ordinal < length self.now.rows }
        ensures { IfOk result (λ row. row ≡ cells_in self.now.rows ordinal) }
    {
        row_of(alloc, &self.columns, ordinal)
    }

    /// Appends the cells of a row in these columns, in their order, and decodes no others. With each column stands the cell that is
    /// taken where the row has none.
    pub fn push_asked(
        &self,
        alloc: Global,
        ordinal: u32,
        columns: &[(u16, Cell)],
        cells: &mut Vec<Cell>,
    ) -> Result<(), NoMemory>
        requires { ordinal < length self.now.rows }
        ensures { OnOk result (cells.new.items ≡ cells.old.items ++ cells_asked columns.now (cells_in self.now.rows ordinal)) }
    {
        push_asked(alloc, &self.columns, ordinal, columns, cells)
    }

    /// The key of a row.
    pub fn key(&self, alloc: Global, ordinal: u32) -> Result<Octets, NoMemory>
        requires { ordinal < length self.now.rows }
        ensures { IfOk result (λ key. key ≡ key_at self.now.rows ordinal) }
    {
        Ok(bytes_in(alloc, self.keys.cell(alloc, ordinal)?))
    }

    /// The keys of all rows, read in one go.
    pub fn keys(&self, alloc: Global) -> Result<KeyList, NoMemory>
        ensures { IfOk result (λ keys. keys ≡ keys_in self.now.rows) }
    {
        all_of(alloc, &self.keys)
    }

    /// The bytes of the base file.
    pub fn spell(&self, alloc: Global) -> Result<Octets, NoMemory>
        ensures { IfOk result (SpellsBase self.now.schema self.now.rows) }
    {
        let mut out = spell_keys(alloc, &self.keys)?;
        put_columns(alloc, &mut out, &self.columns)?;
        put_lookup(alloc, &mut out, &self.lookup)?;
        Ok(out)
    }
}
