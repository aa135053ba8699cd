//! Disk rowsets on their way to be written, row by row.
ghost use Rattle.std.specs.Prelude.{◌≡◌, ◌<◌, ◌≤◌, ◌+◌, ◌-◌, ◌++◌, ◌∷◌, ◌^◌, [], List, length, min, IfOk, OnOk};
ghost use Rattle.std.specs.Bool.{OnTrue, OnFalse};
ghost use Rattle.std.specs.List.{All, AllByRecursion, sum_by};
ghost use Rattle.kt_history.specs.Operations.{cell_len};
ghost use Rattle.kt_history.specs.declared.change.Change.TheVariants.{Del};
ghost use Rattle.kt_history.specs.Rows.{key_cmp};
ghost use Rattle.std.specs.declared.cmp.Ordering.TheVariants.{Less};
ghost use Rattle.kt_baseset.specs.declared.schema.ColumnShape.{ColumnShape};
ghost use Rattle.kt_baseset.specs.Rows.{IdsRise, keys_in};
ghost use Rattle.kt_deltafile.specs.declared.file.Way.TheVariants.{Redo, Undo};
ghost use Rattle.kt_deltafile.specs.Rules.{FileFits, IsFile};
ghost use Rattle.kt_merge.specs.Fitting.{FitsFiles};
ghost use Rattle.kt_merge.specs.Minor.{held_records};
ghost use Rattle.kt_merge.specs.Rows.{disk_row_of};
ghost use Rattle.kt_merge.specs.Told.{insert_len, is_full, told_in, told_so_far, rows_in, deletes_of, AreNewFiles, AreOfRows, IsOutput, Grown, Grows};

use crate::fitting::fits_files;
use crate::row::RowWritten;
use kt_base::{Cell, NoMemory, Octets};
use kt_baseset::{BaseSet, KeyedRow, KeyedRows, Schema1, build};
use kt_deltafile::{DeltaFile, Way};
use kt_diskrowset::{BaseHeld, FileHeld, FileLists, RowSetData};
use kt_history::{Change, Delta, DeltaList};
use std::alloc::Global;
use std::mem;
use std::sync::Arc;

/// How many rows fill a disk rowset.
const ROWS: usize = 65_536;

/// How many bytes as inserts fill it.
const BYTES: u64 = 33_554_432;

/// The most records of a delta file.
const RECORDS: usize = u32::MAX as usize;

/// A disk rowset that takes rows: these, their UNDO records, the deletes of those that are deleted, and how many bytes the rows take
/// as inserts, as far as they count.
#[derive(Drop)]
pub struct Growing {
    pub(crate) rows: Vec<KeyedRow>,
    pub(crate) undos: Vec<Delta>,
    pub(crate) redos: Vec<Delta>,
    pub(crate) bytes: u64,
}

// How many bytes a cell takes in an insert, as far as they count.
fn cell_len(cell: &Cell) -> u64
    ensures counts { min result 33554432 ≡ min (cell_len cell.now) 33554432 }
    ensures few { result ≤ 33554437 }
{
    match cell {
        Cell::Null => 1,
        Cell::Bool(_) => 2,
        Cell::Int(_) => 9,
        Cell::Bytes(bytes) => 5 + (bytes.len() as u64).min(BYTES),
    }
}

// How many bytes cells take in an insert, each with its column, and no more than fill a disk rowset.
#[tactic(auto, using(std::proofs::lemmas::List::Sums::sum_by_more))]
fn cells_len(cells: &[(u16, Cell)]) -> u64
    ensures { result ≡ min (sum_by (λ c. 2 + cell_len c.1) cells.now) 33554432 }
{
    let mut len: u64 = 0;
    'cells: for at in 0..cells.len() {
        len = (len + 2 + cell_len(&cells[at].1)).min(BYTES);
    }
    len
}

// How many bytes a row takes as an insert, as far as they count: no more than fill a disk rowset.
fn row_len(key: &[u8], cells: &[(u16, Cell)]) -> u64
    ensures { result ≡ min (insert_len (record { key = key.now; cells = cells.now })) 33554432 }
{
    (5 + (key.len() as u64).min(BYTES) + cells_len(cells)).min(BYTES)
}

// The delete of a row.
fn delete_of(ordinal: u32, ts: u64) -> Delta
    ensures is { result ≡ record { ordinal = ordinal; ts = ts; change = Del } }
    ensures range { ts < 2 ^ 64 }
{
    Delta {
        ordinal,
        ts,
        change: Change::Del,
    }
}

// The file of records that are not written yet, if there are any.
fn new_file(alloc: Global, way: Way, records: Vec<Delta>) -> Result<FileLists, NoMemory>
    requires { IsFile way records.items }
    ensures records { IfOk result (λ files. held_records files ≡ records.items) }
    ensures new { IfOk result AreNewFiles }
    ensures way { IfOk result (λ files. AllByRecursion (λ f. f.deltas.value.way ≡ way) files) }
{
    let mut files = Vec::new(alloc);
    if !records.is_empty() {
        let deltas = DeltaFile::of(DeltaList::of(records), way);
        files.push(FileHeld {
            file: 0,
            len: 0,
            deltas: Arc::new(alloc, deltas)?,
        })?;
    }
    Ok(FileLists::of(files))
}

// The base file of rows that is not written yet.
fn new_base(alloc: Global, set: BaseSet) -> Result<BaseHeld, NoMemory>
    ensures set { IfOk result (λ base. base.set.value ≡ set) }
    ensures new { IfOk result (λ base. (base.file ≡ 0) × (base.len ≡ 0)) }
{
    Ok(BaseHeld {
        file: 0,
        len: 0,
        set: Arc::new(alloc, set)?,
    })
}

// A disk rowset of rows and of records of them, whose number and files are still to be given.
fn new_rowset(
    alloc: Global,
    set: BaseSet,
    undos: Vec<Delta>,
    redos: Vec<Delta>,
) -> Result<RowSetData, NoMemory>
    requires undos { FileFits Undo (length set.rows) undos.items }
    requires redos { FileFits Redo (length set.rows) redos.items }
    ensures output { IfOk result (IsOutput set.schema) }
    ensures rows { IfOk result (λ d. rows_in d ≡ set.rows) }
    ensures undos { IfOk result (λ d. held_records d.undo ≡ undos.items) }
    ensures redos { IfOk result (λ d. held_records d.redo ≡ redos.items) }
{
    let base = new_base(alloc, set)?;
    let undo = new_file(alloc, Way::Undo, undos)?;
    let redo = new_file(alloc, Way::Redo, redos)?;
    Ok(RowSetData {
        number: 0,
        base,
        undo,
        redo,
        fresh: DeltaList::of(Vec::new(alloc)),
    })
}

impl Growing {
    /// No rows.
    pub fn new(alloc: Global) -> Growing
        ensures grows { (columns : List ColumnShape) → Grows columns result }
        ensures told { told_so_far result ≡ [] }
        ensures none { (result.rows.items ≡ []) × (result.undos.items ≡ []) × (result.redos.items ≡ []) }
    {
        Growing {
            rows: Vec::new(alloc),
            undos: Vec::new(alloc),
            redos: Vec::new(alloc),
            bytes: 0,
        }
    }

    /// The place of the next row.
    pub fn next(&self) -> u32
        requires { length self.now.rows.items < 2 ^ 32 }
        ensures { result ≡ length self.now.rows.items }
    {
        self.rows.len() as u32
    }

    /// Whether its rows fill a disk rowset.
    pub fn is_full(&self) -> bool
        requires { self.now.bytes ≡ min (sum_by insert_len self.now.rows.items) 33554432 }
        ensures { result ≡ is_full self.now.rows.items }
    {
        self.rows.len() >= ROWS || self.bytes >= BYTES
    }

    // Whether there is room for so many UNDO records.
    fn has_room(&self, more: usize) -> bool
        ensures yes { OnTrue result (length self.now.undos.items + more < 2 ^ 32) }
        ensures no { OnFalse result (¬ (length self.now.undos.items + more < 2 ^ 32)) }
    {
        more <= RECORDS && self.undos.len() <= RECORDS - more
    }

    /// Whether files can hold a row under a key, and there is room for its UNDO records.
    pub fn can_hold(&self, columns: &Schema1, key: &[u8], row: &RowWritten) -> bool
        ensures yes { OnTrue result (FitsFiles columns.now key.now row.now × (length self.now.undos.items + length row.now.undos.items < 2 ^ 32)) }
        ensures no { OnFalse result (¬ (FitsFiles columns.now key.now row.now × (length self.now.undos.items + length row.now.undos.items < 2 ^ 32))) }
    {
        fits_files(columns.as_slice(), key, row) && self.has_room(row.undos.len())
    }

    // Adds the delete of a row that is deleted.
    fn push_delete(&mut self, ordinal: u32, deleted: Option<u64>) -> Result<(), NoMemory>
        requires file { IsFile Redo self.old.redos.items }
        requires count { length self.old.redos.items ≤ ordinal }
        requires ordinal { AreOfRows ordinal self.old.redos.items }
        requires few { ordinal < 2 ^ 32 - 1 }
        ensures file { OnOk result (IsFile Redo self.new.redos.items) }
        ensures put { OnOk result (self.new.redos.items ≡ self.old.redos.items ++ deletes_of ordinal deleted) }
        ensures rest { (self.new.rows.items ≡ self.old.rows.items) × (self.new.undos.items ≡ self.old.undos.items) × (self.new.bytes ≡ self.old.bytes) }
    {
        match deleted {
            Some(ts) => {
                self.redos.push(delete_of(ordinal, ts))?;
                Ok(())
            }
            None => Ok(()),
        }
    }

    /// Adds a row, which files can hold, under a key above those of the other rows. Its UNDO records name it.
    pub fn push(&mut self, columns: &Schema1, key: Octets, row: RowWritten) -> Result<(), NoMemory>
        requires grown { Grown columns.now self.old }
        requires few { length self.old.rows.items < 2 ^ 32 - 1 }
        requires fits { FitsFiles columns.now key row }
        requires above { AllByRecursion (λ k. key_cmp k key ≡ Less) (keys_in self.old.rows.items) }
        requires room { length self.old.undos.items + length row.undos.items < 2 ^ 32 }
        requires ordinals { All (λ d. d.ordinal ≡ length self.old.rows.items) row.undos.items }
        ensures grown { OnOk result (Grown columns.now self.new) }
        ensures undos { OnOk result (self.new.undos.items ≡ self.old.undos.items ++ row.undos.items) }
        ensures redos { OnOk result (self.new.redos.items ≡ self.old.redos.items ++ deletes_of (length self.old.rows.items) row.deleted) }
        ensures rows { OnOk result (self.new.rows.items ≡ self.old.rows.items ++ (record { key = key; cells = row.base }) ∷ []) }
        ensures told { OnOk result (told_so_far self.new ≡ told_so_far self.old ++ (key, disk_row_of row) ∷ []) }
    {
        let RowWritten {
            base,
            mut undos,
            deleted,
        } = row;
        let ordinal = self.rows.len() as u32;
        self.push_delete(ordinal, deleted)?;
        self.undos.append(&mut undos)?;
        let len = row_len(key.as_slice(), base.as_slice());
        self.bytes = (self.bytes + len).min(BYTES);
        self.rows.push(KeyedRow { key, cells: base })?;
        Ok(())
    }

    /// The base file of its rows, of which there are some, and the files of their UNDO records and of the deletes.
    pub fn files(
        self,
        alloc: Global,
        columns: &Schema1,
    ) -> Result<(BaseSet, Vec<Delta>, Vec<Delta>), NoMemory>
        requires grown { Grown columns.now self }
        requires some { 0 < length self.rows.items }
        requires most { length self.rows.items ≤ 3435973836 }
        requires ids { IdsRise 0 columns.now }
        requires few { length columns.now < 2 ^ 16 }
        ensures base { IfOk result (λ files. files.0 ≡ record { schema = columns.now; rows = self.rows.items }) }
        ensures undos { IfOk result (λ files. files.1.items ≡ self.undos.items) }
        ensures redos { IfOk result (λ files. files.2.items ≡ self.redos.items) }
        ensures undone { IfOk result (λ files. FileFits Undo (length files.0.rows) files.1.items) }
        ensures redone { IfOk result (λ files. FileFits Redo (length files.0.rows) files.2.items) }
    {
        let Growing {
            rows,
            undos,
            redos,
            bytes: _,
        } = self;
        let set = build(alloc, &KeyedRows::of(rows), columns)?;
        Ok((set, undos, redos))
    }

    /// The disk rowset of its rows, of which there are some. None are left.
    pub fn cut(&mut self, alloc: Global, columns: &Schema1) -> Result<RowSetData, NoMemory>
        requires grown { Grown columns.now self.old }
        requires some { 0 < length self.old.rows.items }
        requires most { length self.old.rows.items ≤ 3435973836 }
        requires ids { IdsRise 0 columns.now }
        requires few { length columns.now < 2 ^ 16 }
        ensures output { IfOk result (IsOutput columns.now) }
        ensures rows { IfOk result (λ d. rows_in d ≡ self.old.rows.items) }
        ensures told { IfOk result (λ d. told_in d ≡ told_so_far self.old) }
        ensures left { OnOk result ((Grows columns.now self.new) × (self.new.rows.items ≡ []) × (self.new.undos.items ≡ [])) }
    {
        let full = mem::replace(self, Growing::new(alloc));
        let (set, undos, redos) = full.files(alloc, columns)?;
        let rowset = new_rowset(alloc, set, undos, redos)?;
        Ok(rowset)
    }
}
