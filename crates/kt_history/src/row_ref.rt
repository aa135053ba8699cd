//! A row that borrows its texts, so that it is read without a copy.
ghost use Rattle.std.specs.Prelude.{◌≡◌, ◌+◌, ◌<◌, ◌≤◌, ◌∷◌, ◌++◌, [], true, length, IfOk, OnOk};
ghost use Rattle.std.specs.List.{insert, list_all, list_any};
ghost use Rattle.std.specs.Ordering.{nat_cmp, is_eq};
ghost use Rattle.std.specs.FinMap.Entries.{put};
ghost use Rattle.kt_base.specs.Borrowed.{cell_in};
ghost use Rattle.kt_cells.specs.Borrowed.{cells_in, cells_in_ref};
ghost use Rattle.kt_history.specs.Places.{AreBelow};
ghost use Rattle.kt_history.specs.Rows.{Row, with_cells, is_among, AgreeIn};

use crate::effect::place_behind;
use kt_base::{Cell, CellRef, NoMemory};
use kt_cells::CellsRef;
use std::alloc::Global;
use std::marker::Model;

/// A row that borrows its texts, and may be used again for another. Contracts see it as a list of ids and cells.
#[derive(Drop)]
pub struct RowRef<'v> {
    cells: Vec<(u16, CellRef<'v>)>,
    // Cells that are used once: those of a change whose columns do not rise, read before they are put in, and those of the row
    // before others are laid under it.
    read: Vec<(u16, CellRef<'v>)>,
}

impl<'v> Model for RowRef<'v> {
    ghost use Rattle.std.specs.Prelude.{List, ℕ};
    ghost use Rattle.kt_base.specs.declared.cell.Cell.{Cell};
    ghost use Rattle.kt_cells.specs.Borrowed.{cells_in};

    ghost Value = { List (ℕ × Cell) };

    ghost view = { λ r. cells_in r.cells.items };
}

impl<'v> RowRef<'v> {
    /// No cells.
    pub fn new(alloc: Global) -> RowRef<'v>
        ensures { result ≡ [] }
    {
        RowRef {
            cells: Vec::new(alloc),
            read: Vec::new(alloc),
        }
    }

    /// No cells are left.
    pub fn clear(&mut self)
        ensures { self.new ≡ [] }
    {
        self.cells.clear();
    }

    pub fn as_slice(&self) -> &[(u16, CellRef<'v>)]
        ensures { cells_in result.now ≡ self.now }
    {
        &self.cells
    }

    /// Appends a cell.
    #[tactic(auto, using(crate::proofs::Borrowed::append_in))]
    pub fn push(&mut self, id: u16, cell: CellRef<'v>) -> Result<(), NoMemory>
        ensures { OnOk result (self.new ≡ self.old ++ (id, cell_in cell.entry) ∷ []) }
    {
        self.cells.reserve(1)?;
        self.cells.push_reserved((id, cell));
        Ok(())
    }

    /// Sets the cell of a column, in its place among cells by rising id.
    #[tactic(auto, using(crate::proofs::Borrowed::put_in))]
    pub fn set(&mut self, id: u16, cell: CellRef<'v>) -> Result<(), NoMemory>
        ensures { OnOk result (self.new ≡ put nat_cmp id (cell_in cell.entry) self.old) }
    {
        put_ref(&mut self.cells, id, cell)
    }

    /// Sets these cells, in place of the row's own where it has them.
    pub fn set_all(&mut self, cells: &'v [(u16, Cell)]) -> Result<(), NoMemory>
        ensures { OnOk result (self.new ≡ with_cells cells.now self.old) }
    {
        let mut at = cells.len();
        'cells: while at > 0 {
            at -= 1;
            self.set(cells[at].0, CellRef::of(&cells[at].1))?;
        }
        Ok(())
    }

    /// As `set_all`, of cells that are read where they lie.
    pub fn set_read(&mut self, cells: CellsRef<'v>) -> Result<(), NoMemory>
        ensures { OnOk result (self.new ≡ with_cells (cells_in_ref cells.entry) self.old) }
    {
        put_read(&mut self.cells, &mut self.read, cells)
    }

    /// Sets those of these cells whose columns the row has not yet, so that over any other row it is as if these had been set
    /// before its own.
    pub fn set_under(&mut self, cells: CellsRef<'v>) -> Result<(), NoMemory>
        ensures { OnOk result ((row : Row) → with_cells self.new row ≡ with_cells self.old (with_cells (cells_in_ref cells.entry) row)) }
    {
        put_read_under(&mut self.cells, &mut self.read, cells)?;
        Ok(())
    }

    /// As `set_under`, of the columns alone that are asked for. Where it tells so, the row has all of them, and what lies under it
    /// does not matter any more.
    pub fn set_asked(&mut self, ids: &[u16], cells: CellsRef<'v>) -> Result<bool, NoMemory>
        ensures under { IfOk result (λ all. (row : Row) → AgreeIn ids.now (with_cells self.new row) (with_cells self.old (with_cells (cells_in_ref cells.entry) row))) }
        ensures all { IfOk result (λ all. all ≡ true → (row : Row) → AgreeIn ids.now self.new (with_cells self.old (with_cells (cells_in_ref cells.entry) row))) }
    {
        let all = put_asked(&mut self.cells, ids, cells)?;
        Ok(all)
    }

    /// As `set_asked`, of the last cells, which nothing lies under.
    pub fn set_asked_last(&mut self, ids: &[u16], cells: &'v [(u16, Cell)]) -> Result<(), NoMemory>
        ensures { OnOk result (AgreeIn ids.now self.new (with_cells self.old cells.now)) }
    {
        put_asked_last(&mut self.cells, ids, cells)?;
        Ok(())
    }

    /// Lays the row over these cells: it has them, and its own in place of theirs.
    pub fn lay_over(&mut self, cells: &'v [(u16, Cell)]) -> Result<(), NoMemory>
        ensures { OnOk result (self.new ≡ with_cells self.old cells.now) }
    {
        std::mem::swap(&mut self.cells, &mut self.read);
        lay(cells, &self.read, &mut self.cells)
    }

    /// These cells alone.
    pub fn assign(&mut self, cells: &'v [(u16, Cell)]) -> Result<(), NoMemory>
        ensures { OnOk result (self.new ≡ cells.now) }
    {
        borrow_all(cells, &mut self.cells)
    }
}

// These cells alone, each borrowed.
#[tactic(auto, using(crate::proofs::Borrowed::append_in))]
fn borrow_all<'v>(
    cells: &'v [(u16, Cell)],
    into: &mut Vec<(u16, CellRef<'v>)>,
) -> Result<(), NoMemory>
    ensures { OnOk result (cells_in into.new.items ≡ cells.now) }
{
    into.clear();
    for cell in cells {
        into.push((cell.0, CellRef::of(&cell.1)))?;
    }
    Ok(())
}

// These cells, with others in place of their own, in one go over both. Tells whether it did: it stops where the columns do not
// rise, and passes over the others from the first one on whose column is not among them.
fn lay_rising<'v>(
    cells: &'v [(u16, Cell)],
    over: &[(u16, CellRef<'v>)],
    into: &mut Vec<(u16, CellRef<'v>)>,
) -> Result<bool, NoMemory>
    ensures { IfOk result (λ all. all ≡ true → cells_in into.new.items ≡ with_cells (cells_in over.now) cells.now) }
{
    into.clear();
    let mut at = 0;
    let mut least = 0;
    'cells: for own in cells {
        let id = u32::from(own.0);
        if id < least {
            return Ok(false);
        }
        least = id + 1;
        if at < over.len() {
            let first = over[at];
            if first.0 == own.0 {
                into.push((own.0, first.1))?;
                at += 1;
                continue 'cells;
            }
        }
        into.push((own.0, CellRef::of(&own.1)))?;
    }
    Ok(at == over.len())
}

// These cells, with others in place of their own.
fn lay<'v>(
    cells: &'v [(u16, Cell)],
    over: &[(u16, CellRef<'v>)],
    into: &mut Vec<(u16, CellRef<'v>)>,
) -> Result<(), NoMemory>
    ensures { OnOk result (cells_in into.new.items ≡ with_cells (cells_in over.now) cells.now) }
{
    if lay_rising(cells, over, into)? {
        return Ok(());
    }
    borrow_all(cells, into)?;
    put_all(into, over)?;
    Ok(())
}

// Whether cells have one of a column.
fn has_column(cells: &[(u16, CellRef<'_>)], id: u16) -> bool
    ensures { result ≡ list_any (λ c. is_eq (nat_cmp id c.0)) cells.now }
{
    cells.iter().any(|cell| id.cmp(&cell.0).is_eq())
}

// As `has_column`, looked for at a place first.
fn has_column_near(cells: &[(u16, CellRef<'_>)], place: usize, id: u16) -> bool
    ensures { result ≡ list_any (λ c. is_eq (nat_cmp id c.0)) cells.now }
{
    if place < cells.len() {
        let here = cells[place].0;
        if here == id {
            return true;
        }
    }
    has_column(cells, id)
}

// Whether there is one more cell at most, of a column that these have, as its first bytes tell.
fn has_only(cells: &[(u16, CellRef<'_>)], more: CellsRef<'_>) -> bool
    ensures { result ≡ true → (row : Row) → with_cells (cells_in cells.now) (with_cells (cells_in_ref more.entry) row) ≡ with_cells (cells_in cells.now) row }
{
    match more.only_column() {
        Some(id) => has_column(cells, id),
        None => false,
    }
}

// Sets the cell of a column, unless there is one, which is looked for at a place first.
fn put_unless<'v>(
    cells: &mut Vec<(u16, CellRef<'v>)>,
    place: usize,
    id: u16,
    cell: CellRef<'v>,
) -> Result<(), NoMemory>
    ensures { OnOk result ((row : Row) → with_cells (cells_in cells.new.items) row ≡ with_cells (cells_in cells.old.items) (put nat_cmp id (cell_in cell.entry) row)) }
{
    if has_column_near(cells, place, id) {
        return Ok(());
    }
    put_ref(cells, id, cell)?;
    Ok(())
}

// Sets those of more cells whose columns these have not. Cells that name the same columns in the same order are found at once.
fn put_under<'v>(cells: &mut Vec<(u16, CellRef<'v>)>, more: CellsRef<'v>) -> Result<(), NoMemory>
    ensures { OnOk result ((row : Row) → with_cells (cells_in cells.new.items) row ≡ with_cells (cells_in cells.old.items) (with_cells (cells_in_ref more.entry) row)) }
{
    let mut rest = more;
    let mut place: usize = 0;
    'cells: while let Some((cell, others)) = rest.split_first() {
        put_unless(cells, place, cell.0, cell.1)?;
        place = place.saturating_add(1);
        rest = others;
    }
    Ok(())
}

// Sets the cell of a column, in its place among cells by rising id.
fn put_ref<'v>(
    cells: &mut Vec<(u16, CellRef<'v>)>,
    id: u16,
    cell: CellRef<'v>,
) -> Result<(), NoMemory>
    ensures { OnOk result (cells.new.items ≡ put nat_cmp id cell.entry cells.old.items) }
{
    put_behind(cells, 0, id, cell)?;
    Ok(())
}

// Puts a cell in at a place. Behind the last one it is pushed, which moves nothing.
fn insert_at<'v>(
    cells: &mut Vec<(u16, CellRef<'v>)>,
    at: usize,
    id: u16,
    cell: CellRef<'v>,
) -> Result<(), NoMemory>
    requires { at ≤ length cells.old.items }
    ensures { OnOk result (cells.new.items ≡ insert cells.old.items at (id, cell.entry)) }
{
    if at == cells.len() {
        cells.reserve(1)?;
        cells.push_reserved((id, cell));
        return Ok(());
    }
    cells.insert(at, (id, cell))?;
    Ok(())
}

// Sets the cell of a column that is above those before `from`, and tells its place.
fn put_behind<'v>(
    cells: &mut Vec<(u16, CellRef<'v>)>,
    from: usize,
    id: u16,
    cell: CellRef<'v>,
) -> Result<usize, NoMemory>
    requires bound { from ≤ length cells.old.items }
    requires below { AreBelow from id cells.old.items }
    ensures put { OnOk result (cells.new.items ≡ put nat_cmp id cell.entry cells.old.items) }
    ensures bound { IfOk result (λ at. at < length cells.new.items) }
    ensures below { IfOk result (λ at. AreBelow (at + 1) (id + 1) cells.new.items) }
{
    match place_behind(cells, from, id) {
        Ok(at) => {
            cells[at].1 = cell;
            Ok(at)
        }
        Err(at) => {
            insert_at(cells, at, id, cell)?;
            Ok(at)
        }
    }
}

// Sets cells that are read where they lie, as far as their columns rise. Tells whether these were all.
fn put_rising<'v>(cells: &mut Vec<(u16, CellRef<'v>)>, more: CellsRef<'v>) -> Result<bool, NoMemory>
    ensures all { IfOk result (λ all. all ≡ true → cells_in cells.new.items ≡ with_cells (cells_in_ref more.entry) (cells_in cells.old.items)) }
    ensures some { OnOk result (with_cells (cells_in_ref more.entry) (cells_in cells.new.items) ≡ with_cells (cells_in_ref more.entry) (cells_in cells.old.items)) }
{
    let mut rest = more;
    let mut from = 0;
    let mut least = 0;
    'cells: while let Some((cell, others)) = rest.split_first() {
        let id = u32::from(cell.0);
        if id < least {
            return Ok(false);
        }
        let at = put_behind(cells, from, cell.0, cell.1)?;
        from = at + 1;
        least = id + 1;
        rest = others;
    }
    Ok(true)
}

// Reads cells where they lie, one by one.
#[tactic(auto, using(crate::proofs::Borrowed::append_in))]
fn read_all<'v>(cells: CellsRef<'v>, into: &mut Vec<(u16, CellRef<'v>)>) -> Result<(), NoMemory>
    ensures { OnOk result (cells_in into.new.items ≡ cells_in_ref cells.entry) }
{
    into.clear();
    let mut rest = cells;
    'cells: while let Some((cell, others)) = rest.split_first() {
        into.push(cell)?;
        rest = others;
    }
    Ok(())
}

// Sets cells, in place of those of their columns.
#[tactic(auto, using(crate::proofs::Borrowed::put_in))]
fn put_all<'v>(
    cells: &mut Vec<(u16, CellRef<'v>)>,
    more: &[(u16, CellRef<'v>)],
) -> Result<(), NoMemory>
    ensures { OnOk result (cells_in cells.new.items ≡ with_cells (cells_in more.now) (cells_in cells.old.items)) }
{
    let mut at = more.len();
    'cells: while at > 0 {
        at -= 1;
        put_ref(cells, more[at].0, more[at].1)?;
    }
    Ok(())
}

// Sets cells that are read where they lie, in place of those of their columns. Those that do not rise are read first.
fn put_read<'v>(
    cells: &mut Vec<(u16, CellRef<'v>)>,
    read: &mut Vec<(u16, CellRef<'v>)>,
    more: CellsRef<'v>,
) -> Result<(), NoMemory>
    ensures { OnOk result (cells_in cells.new.items ≡ with_cells (cells_in_ref more.entry) (cells_in cells.old.items)) }
{
    if put_rising(cells, more)? {
        return Ok(());
    }
    read_all(more, read)?;
    put_all(cells, read)
}

// As `put_under`, of cells that may be the first, and with no look at one whose column is there.
fn put_read_under<'v>(
    cells: &mut Vec<(u16, CellRef<'v>)>,
    read: &mut Vec<(u16, CellRef<'v>)>,
    more: CellsRef<'v>,
) -> Result<(), NoMemory>
    ensures { OnOk result ((row : Row) → with_cells (cells_in cells.new.items) row ≡ with_cells (cells_in cells.old.items) (with_cells (cells_in_ref more.entry) row)) }
{
    if cells.as_slice().is_empty() {
        put_read(cells, read, more)?;
        return Ok(());
    }
    if has_only(cells, more) {
        return Ok(());
    }
    put_under(cells, more)?;
    Ok(())
}

// Whether a column is one of these.
fn is_among(ids: &[u16], id: u16) -> bool
    ensures { result ≡ is_among ids.now id }
{
    ids.iter().any(|other| *other == id)
}

// Whether cells have each of these columns, as far as it tells.
fn have_all(cells: &[(u16, CellRef<'_>)], ids: &[u16]) -> bool
    ensures { result ≡ true → list_all (λ id. list_any (λ c. is_eq (nat_cmp id c.0)) cells.now) ids.now ≡ true }
{
    if cells.len() < ids.len() {
        return false;
    }
    for id in ids {
        if !has_column(cells, *id) {
            return false;
        }
    }
    true
}

// Sets the cell of a column that is asked for, unless there is one.
fn put_if_asked<'v>(
    cells: &mut Vec<(u16, CellRef<'v>)>,
    ids: &[u16],
    id: u16,
    cell: CellRef<'v>,
) -> Result<(), NoMemory>
    ensures { OnOk result ((row : Row) → AgreeIn ids.now (with_cells (cells_in cells.new.items) row) (with_cells (cells_in cells.old.items) (put nat_cmp id (cell_in cell.entry) row))) }
{
    if !is_among(ids, id) {
        return Ok(());
    }
    put_unless(cells, 0, id, cell)?;
    Ok(())
}

// As `put_under`, of the columns alone that are asked for. It stops where it tells that all of them are there.
fn put_asked<'v>(
    cells: &mut Vec<(u16, CellRef<'v>)>,
    ids: &[u16],
    more: CellsRef<'v>,
) -> Result<bool, NoMemory>
    ensures under { IfOk result (λ all. (row : Row) → AgreeIn ids.now (with_cells (cells_in cells.new.items) row) (with_cells (cells_in cells.old.items) (with_cells (cells_in_ref more.entry) row))) }
    ensures all { IfOk result (λ all. all ≡ true → (row : Row) → AgreeIn ids.now (cells_in cells.new.items) (with_cells (cells_in cells.old.items) (with_cells (cells_in_ref more.entry) row))) }
{
    let mut rest = more;
    'cells: while let Some((cell, others)) = rest.split_first() {
        put_if_asked(cells, ids, cell.0, cell.1)?;
        if have_all(cells, ids) {
            return Ok(true);
        }
        rest = others;
    }
    Ok(false)
}

// As `put_asked`, of the last cells, which nothing lies under.
fn put_asked_last<'v>(
    cells: &mut Vec<(u16, CellRef<'v>)>,
    ids: &[u16],
    more: &'v [(u16, Cell)],
) -> Result<(), NoMemory>
    ensures { OnOk result (AgreeIn ids.now (cells_in cells.new.items) (with_cells (cells_in cells.old.items) more.now)) }
{
    'cells: for own in more {
        put_if_asked(cells, ids, own.0, CellRef::of(&own.1))?;
    }
    Ok(())
}
