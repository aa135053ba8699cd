//! The rows that a scan answers, held flat.
ghost use Rattle.std.specs.Prelude.{◌≡◌, ◌≤◌, ◌==◌, ◌<◌, ◌∷◌, ◌++◌, [], List, length, take, map, get_or, IfOk, OnOk, OnErr};
ghost use Rattle.std.specs.List.{between};
ghost use Rattle.kt_base.specs.declared.cell.Cell.{Cell};
ghost use Rattle.kt_base.specs.Borrowed.{cell_in};
ghost use Rattle.kt_history.specs.declared.row_list.Flat.{Flat};
ghost use Rattle.kt_history.specs.Flat.{cell_among, IsAmong, AreFlat};

use kt_base::{CellRef, NoMemory};
use kt_bytes::{Texts, start_at};
use std::alloc::Global;
use std::marker::Model;

/// A cell of a list: a text is named by its place among the list's texts.
#[derive(Clone, Copy)]
pub enum Flat {
    Null,
    Int(i64),
    Bool(bool),
    Bytes(usize),
}

/// The rows that a scan answers: all cells in one list, all texts in another. Contracts see them as a list of lists of
/// cells.
#[derive(Drop)]
pub struct RowList {
    cells: Vec<Flat>,
    ends: Vec<usize>,
    texts: Texts,
}

impl Model for RowList {
    ghost use Rattle.std.specs.Prelude.{List, length, map};
    ghost use Rattle.std.specs.List.{All};
    ghost use Rattle.kt_base.specs.declared.cell.Cell.{Cell};
    ghost use Rattle.kt_bytes.specs.Cuts.{pieces, IsCut};
    ghost use Rattle.kt_history.specs.Flat.{cell_among, IsAmong};

    ghost Value = { List (List Cell) };

    ghost view = { λ l. pieces 0 l.ends.items (map (cell_among l.texts) l.cells.items) };

    ghost invariant = { λ l. IsCut 0 l.ends.items (length l.cells.items) × All (IsAmong l.texts) l.cells.items };
}

/// A row of a list, read where it lies. Contracts see it as a list of cells.
#[derive(Drop)]
pub struct RowCells<'l> {
    cells: &'l [Flat],
    texts: &'l Texts,
}

impl<'l> Model for RowCells<'l> {
    ghost use Rattle.std.specs.Prelude.{List, map};
    ghost use Rattle.std.specs.List.{All};
    ghost use Rattle.kt_base.specs.declared.cell.Cell.{Cell};
    ghost use Rattle.kt_history.specs.Flat.{cell_among, IsAmong};

    ghost Value = { List Cell };

    ghost view = { λ r. map (cell_among r.texts.now) r.cells.now };

    ghost invariant = { λ r. All (IsAmong r.texts.now) r.cells.now };
}

// A cell whose text, if it has one, is added to the texts.
fn flat_of(texts: &mut Texts, cell: CellRef<'_>) -> Result<Flat, NoMemory>
    ensures flat { IfOk result (λ flat. IsAmong texts.new flat × (cell_among texts.new flat ≡ cell_in cell.entry)) }
    ensures kept { (flats : List Flat) (row : List Cell) → AreFlat texts.old flats row → AreFlat texts.new flats row }
{
    match cell {
        CellRef::Null => Ok(Flat::Null),
        CellRef::Int(number) => Ok(Flat::Int(number)),
        CellRef::Bool(truth) => Ok(Flat::Bool(truth)),
        CellRef::Bytes(text) => {
            let at = texts.len();
            texts.push(text)?;
            Ok(Flat::Bytes(at))
        }
    }
}

// The cell that a flat one stands for.
fn cell_of(texts: &Texts, flat: Flat) -> CellRef<'_>
    requires { IsAmong texts.now flat }
    ensures { cell_in result ≡ cell_among texts.now flat }
{
    match flat {
        Flat::Null => CellRef::Null,
        Flat::Int(number) => CellRef::Int(number),
        Flat::Bool(truth) => CellRef::Bool(truth),
        Flat::Bytes(at) => CellRef::Bytes(texts.get(at)),
    }
}

fn part(cells: &[Flat], start: usize, end: usize) -> &[Flat]
    requires in_order { start ≤ end }
    requires inside { end ≤ length cells.now }
    ensures { result.now ≡ between start end cells.now }
{
    &cells[start..end]
}

// Makes room for so many more, and where there was none for seven times as many as there are. Where there is no memory for that the
// room stays as it is.
fn widen<X>(items: &mut Vec<X>, more: usize)
    ensures { items.new.items ≡ items.old.items }
{
    if items.capacity() - items.len() >= more {
        return;
    }
    let many = items.len().saturating_mul(7).max(more);
    let _ = items.reserve(many);
}

// Adds a cell, and its text. Without memory no cell is added.
fn push_flat(cells: &mut Vec<Flat>, texts: &mut Texts, cell: CellRef<'_>) -> Result<(), NoMemory>
    ensures ok { OnOk result ((row : List Cell) → AreFlat texts.old cells.old.items row → AreFlat texts.new cells.new.items (row ++ cell_in cell.entry ∷ [])) }
    ensures err { OnErr result ((row : List Cell) → AreFlat texts.old cells.old.items row → AreFlat texts.new cells.new.items row) }
{
    cells.reserve(1)?;
    let flat = flat_of(texts, cell)?;
    cells.push_reserved(flat);
    Ok(())
}

// Adds cells, and their texts. Without memory no cell is added.
fn push_flats(
    cells: &mut Vec<Flat>,
    texts: &mut Texts,
    more: &[CellRef<'_>],
) -> Result<(), NoMemory>
    ensures ok { OnOk result ((row : List Cell) → AreFlat texts.old cells.old.items row → AreFlat texts.new cells.new.items (row ++ map cell_in more.now)) }
    ensures err { OnErr result ((row : List Cell) → AreFlat texts.old cells.old.items row → AreFlat texts.new cells.new.items row) }
{
    let was = cells.len();
    'cells: for cell in more {
        if let Err(e) = push_flat(cells, texts, *cell) {
            cells.truncate(was);
            return Err(e);
        }
    }
    Ok(())
}

impl RowList {
    /// No rows.
    pub fn new(alloc: Global) -> RowList
        ensures { result ≡ [] }
    {
        RowList {
            cells: Vec::new(alloc),
            ends: Vec::new(alloc),
            texts: Texts::new(alloc),
        }
    }

    pub fn len(&self) -> usize
        ensures { result ≡ length self.now }
    {
        self.ends.len()
    }

    pub fn is_empty(&self) -> bool
        ensures { result ≡ (length self.now == 0) }
    {
        self.ends.is_empty()
    }

    /// The row at a place.
    pub fn at(&self, at: usize) -> RowCells<'_>
        requires { at < length self.now }
        ensures { result ≡ get_or self.now at result }
    {
        let start = start_at(&self.ends, at);
        let cells = part(&self.cells, start, self.ends[at]);
        let texts = &self.texts;
        RowCells { cells, texts }
    }

    /// Makes room for a row of so many cells, and for many rows where that is more than there was, so that a list that grows row by row
    /// is seldom moved. It fails nowhere.
    pub fn make_room(&mut self, cells: usize)
        ensures { self.new ≡ self.old }
    {
        widen(&mut self.ends, 1);
        widen(&mut self.cells, cells);
    }

    /// Adds a row of these cells. Without memory nothing is added.
    pub fn push(&mut self, row: &[CellRef<'_>]) -> Result<(), NoMemory>
        ensures ok { OnOk result (self.new ≡ self.old ++ map cell_in row.now ∷ []) }
        ensures err { OnErr result (self.new ≡ self.old) }
    {
        self.ends.reserve(1)?;
        push_flats(&mut self.cells, &mut self.texts, row)?;
        let end = self.cells.len();
        self.ends.push(end)?;
        Ok(())
    }
}

impl<'l> RowCells<'l> {
    pub fn len(&self) -> usize
        ensures { result ≡ length self.now }
    {
        self.cells.len()
    }

    pub fn is_empty(&self) -> bool
        ensures { result ≡ (length self.now == 0) }
    {
        self.cells.is_empty()
    }

    /// The cell at a place.
    pub fn at(&self, at: usize) -> CellRef<'l>
        requires { at < length self.now }
        ensures { cell_in result ≡ get_or self.now at (cell_in result) }
    {
        cell_of(self.texts, self.cells[at])
    }
}
