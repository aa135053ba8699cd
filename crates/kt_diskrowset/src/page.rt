//! Pages of a disk rowset: its rows at a time, for some keys in turn, cut to the columns that are wanted.
ghost use Rattle.std.specs.Prelude.{◌≡◌, ◌<◌, ◌≤◌, ◌-◌, ◌∷◌, ◌++◌, [], ℕ, true, false, Some, length, map, IfOk, OnOk};
ghost use Rattle.std.specs.List.{between};
ghost use Rattle.std.specs.List.Sorted.{IsNonDecreasingBy};
ghost use Rattle.std.specs.Option.{option_copied};
ghost use Rattle.kt_base.specs.Borrowed.{cell_in};
ghost use Rattle.kt_history.specs.Rows.{Row, Rows};
ghost use Rattle.kt_history.specs.Stores.{after_steps};
ghost use Rattle.kt_history.specs.Views.{AreRising};
ghost use Rattle.kt_histlaws.specs.Disks.{disk_row_at};
ghost use Rattle.kt_rowfiles.specs.Files.{records_in};
ghost use Rattle.kt_baseset.specs.Asked.{cell_asked, cells_asked};
ghost use Rattle.kt_baseset.specs.Tables.{key_at, cells_in};
ghost use Rattle.kt_diskrowset.specs.Files.{lists_of, row_with_files};
ghost use Rattle.kt_diskrowset.specs.Rows.{UndosLeadBack};
ghost use Rattle.kt_diskrowset.specs.Page.{told_at, rows_under, IsPage};
ghost use Rattle.kt_diskrowset.specs.Gathered.{Holds, pieces_of, HasPieces};

use crate::base::BaseHeld;
use crate::data::RowSetData;
use crate::files::FileHeld;
use crate::fresh::changes_of;
use crate::rows::records_of;
use kt_base::{Cell, CellRef, NoMemory, Octets};
use kt_bytes::Texts;
use kt_history::RowList;
use std::alloc::Global;

/// How many keys a page goes over at most.
const MOST: u32 = 1024;

/// Rows of a disk rowset, by rising key, and how to go on behind them.
#[derive(Drop)]
pub struct Page {
    /// The keys of the rows.
    pub keys: Texts,
    /// The cells of each row, in the order of the columns that were asked for.
    pub rows: RowList,
    /// The last key that the page has gone over, where keys are left. It may have no row.
    pub last: Octets,
    /// Whether keys are left behind it.
    pub more: bool,
}

/// Rows on their way into a page: their keys, and the cells of all of them, one row behind the other.
#[derive(Drop)]
struct Gathered {
    keys: Texts,
    cells: Vec<Cell>,
}

// The cell of a row in a column, and the one that is named with the column where the row has none.
fn asked_of<'r>(row: &'r [(u16, Cell)], column: &'r (u16, Cell)) -> &'r Cell
    ensures { result.now ≡ cell_asked row.now column.now }
{
    'cells: for cell in row {
        if cell.0 == column.0 {
            return &cell.1;
        }
    }
    &column.1
}

// Appends copies of the cells of a row in these columns.
fn push_copies(
    row: &[(u16, Cell)],
    columns: &[(u16, Cell)],
    cells: &mut Vec<Cell>,
) -> Result<(), NoMemory>
    ensures { OnOk result (cells.new.items ≡ cells.old.items ++ cells_asked columns.now row.now) }
{
    'columns: for column in columns {
        cells.push(asked_of(row, column).copy()?)?;
    }
    Ok(())
}

// These cells, where they lie, in place of those that are there.
fn put_refs<'c>(line: &mut Vec<CellRef<'c>>, cells: &'c [Cell]) -> Result<(), NoMemory>
    ensures { OnOk result (map cell_in line.new.items ≡ cells.now) }
{
    line.clear();
    'cells: for cell in cells {
        line.push(CellRef::of(cell))?;
    }
    Ok(())
}

// So many rows of one width, whose cells stand one row behind the other.
fn lines_of(alloc: Global, count: usize, width: usize, cells: &[Cell]) -> Result<RowList, NoMemory>
    requires { HasPieces width count cells.now }
    ensures { IfOk result (λ rows. rows ≡ pieces_of width count cells.now) }
{
    let mut rows = RowList::new(alloc);
    let mut line = Vec::with_capacity(alloc, width)?;
    let mut rest = cells;
    let mut left = count;
    'lines: while left > 0 {
        let (front, behind) = rest.split_at(width);
        put_refs(&mut line, front)?;
        rows.push(&line)?;
        rest = behind;
        left -= 1;
    }
    Ok(rows)
}

// Whether a row has a record in one of these files.
fn has_records(files: &[FileHeld], ordinal: u32) -> bool
    ensures { result ≡ false → records_in ordinal (lists_of files.now) ≡ [] }
{
    'files: for file in files {
        if !records_of(&file.deltas, ordinal).is_empty() {
            return true;
        }
    }
    false
}

impl Gathered {
    // No rows.
    fn new(alloc: Global) -> Gathered
        ensures { (result.keys ≡ []) × (result.cells.items ≡ []) }
    {
        Gathered {
            keys: Texts::new(alloc),
            cells: Vec::new(alloc),
        }
    }

    // Adds a row under the key of a place.
    fn push(
        &mut self,
        alloc: Global,
        base: &BaseHeld,
        ordinal: u32,
        row: &[(u16, Cell)],
        columns: &[(u16, Cell)],
    ) -> Result<(), NoMemory>
        requires { ordinal < length base.now.set.value.rows }
        ensures { OnOk result ((rows : Rows) → Holds columns.now rows self.old → Holds columns.now (rows ++ (key_at base.now.set.value.rows ordinal, row.now) ∷ []) self.new) }
    {
        let key = base.key(alloc, ordinal)?;
        self.keys.push(key.as_slice())?;
        push_copies(row, columns, &mut self.cells)
    }

    // Adds the base row of a place, of which no other columns are decoded.
    fn push_base(
        &mut self,
        alloc: Global,
        base: &BaseHeld,
        ordinal: u32,
        columns: &[(u16, Cell)],
    ) -> Result<(), NoMemory>
        requires { ordinal < length base.now.set.value.rows }
        ensures { OnOk result ((rows : Rows) → Holds columns.now rows self.old → Holds columns.now (rows ++ (key_at base.now.set.value.rows ordinal, cells_in base.now.set.value.rows ordinal) ∷ []) self.new) }
    {
        let key = base.key(alloc, ordinal)?;
        self.keys.push(key.as_slice())?;
        base.push_asked(alloc, ordinal, columns, &mut self.cells)
    }
}

impl RowSetData {
    ghost use Rattle.kt_diskrowset.specs.Data.{files_in, fresh_in, keys_of};

    // Whether the row at a place is its base row at every time.
    fn is_untouched(&self, ordinal: u32) -> bool
        requires { IsNonDecreasingBy (λ d. d.ordinal) self.now.fresh }
        ensures { result ≡ true → (t : ℕ) (base : Row) → after_steps t (fresh_in self.now ordinal) (disk_row_at t (row_with_files self.now.undo self.now.redo ordinal base)) ≡ Some base }
    {
        if has_records(self.undo.as_slice(), ordinal)
            || has_records(self.redo.as_slice(), ordinal)
        {
            return false;
        }
        changes_of(self.fresh.as_slice(), ordinal).is_empty()
    }

    // Adds the row at a place at a time, if it is there.
    fn push_row(
        &self,
        alloc: Global,
        ordinal: u32,
        t: u64,
        columns: &[(u16, Cell)],
        gathered: &mut Gathered,
    ) -> Result<(), NoMemory>
        requires lead { UndosLeadBack (files_in self.now) }
        requires order { IsNonDecreasingBy (λ d. d.ordinal) self.now.fresh }
        requires rise { AreRising (keys_of self.now) }
        requires inside { ordinal < length self.now.base.set.value.rows }
        ensures { OnOk result ((rows : Rows) → Holds columns.now rows gathered.old → Holds columns.now (rows ++ rows_under (told_at t self.now) (key_at self.now.base.set.value.rows ordinal ∷ [])) gathered.new) }
    {
        if self.is_untouched(ordinal) {
            return gathered.push_base(alloc, &self.base, ordinal, columns);
        }
        match self.row(alloc, ordinal, t)? {
            Some(row) => gathered.push(alloc, &self.base, ordinal, row.as_slice(), columns),
            None => Ok(()),
        }
    }

    // The rows between two places.
    fn rows_between(
        &self,
        alloc: Global,
        start: u32,
        end: u32,
        t: u64,
        columns: &[(u16, Cell)],
    ) -> Result<Gathered, NoMemory>
        requires lead { UndosLeadBack (files_in self.now) }
        requires order { IsNonDecreasingBy (λ d. d.ordinal) self.now.fresh }
        requires rise { AreRising (keys_of self.now) }
        requires upto { start ≤ end }
        requires inside { end ≤ length self.now.base.set.value.rows }
        ensures { IfOk result (Holds columns.now (rows_under (told_at t self.now) (between start end (keys_of self.now)))) }
    {
        let mut gathered = Gathered::new(alloc);
        'rows: for ordinal in start..end {
            self.push_row(alloc, ordinal, t, columns, &mut gathered)?;
        }
        Ok(gathered)
    }

    // The last key before a place, if it is wanted.
    fn last_before(&self, alloc: Global, end: u32, wanted: bool) -> Result<Octets, NoMemory>
        requires inside { end ≤ length self.now.base.set.value.rows }
        requires some { wanted ≡ true → 0 < end }
        ensures { IfOk result (λ last. wanted ≡ true → last ≡ key_at self.now.base.set.value.rows (end - 1)) }
    {
        if wanted {
            self.base.key(alloc, end - 1)
        } else {
            Ok(Octets::new(alloc))
        }
    }

    /// The rows at a time of the next keys above one, or of the first keys, cut to some columns. With each column stands the cell
    /// that is shown of a row that has none there. It goes over 1,024 keys at most.
    pub fn page(
        &self,
        alloc: Global,
        after: Option<&[u8]>,
        t: u64,
        columns: &[(u16, Cell)],
    ) -> Result<Page, NoMemory>
        requires lead { UndosLeadBack (files_in self.now) }
        requires order { IsNonDecreasingBy (λ d. d.ordinal) self.now.fresh }
        ensures { IfOk result (IsPage (told_at t self.now) (keys_of self.now) (option_copied after.entry) columns.now) }
    {
        let start = self.base.place_above(after);
        let count = self.base.rows();
        let end = start + MOST.min(count - start);
        let more = end < count;
        let gathered = self.rows_between(alloc, start, end, t, columns)?;
        let rows = lines_of(alloc, gathered.keys.len(), columns.len(), &gathered.cells)?;
        let last = self.last_before(alloc, end, more)?;
        Ok(Page {
            keys: gathered.keys,
            rows,
            last,
            more,
        })
    }
}
