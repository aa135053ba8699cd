//! The least reason that was found in a line so far.

ghost use Rattle.std.specs.Prelude.{◌≡◌, ◌<◌, ◌↔◌, ◌++◌, min, IfOk, OnOk, IsTrue};
ghost use Rattle.kt_cells.specs.Spelling.{listed_cell};
ghost use Rattle.kt_script.specs.Reasons.{sound, no_of, cell_reason, cell_no, cell_value, form_no};

use kt_base::literal::{LiteralNo, plain_literal, read_literal};
use kt_base::{Cell, CellRef, Kind, NoMemory};
use kt_cells::Tail;
use kt_cells::writing::put_listed_cell;
use kt_schema::Column;
use std::alloc::Global;
use std::marker::Model;

/// The least reason so far, if one holds. Contracts see its number, and `sound` where none holds.
#[derive(Drop)]
pub struct Least {
    reason: Option<u8>,
}

impl Model for Least {
    ghost use Rattle.std.specs.Prelude.{ℕ, ◌≤◌};
    ghost use Rattle.kt_script.specs.Reasons.{sound, no_of};

    ghost Value = { ℕ };

    ghost view = { λ l. no_of l.reason };

    ghost invariant = { λ l. no_of l.reason ≤ sound };
}

impl Least {
    pub fn none() -> Least
        ensures { result ≡ sound }
    {
        Least { reason: None }
    }

    /// Notes a reason, if one holds.
    pub fn note(&mut self, reason: Option<u8>)
        ensures { self.new ≡ min self.old (no_of reason) }
    {
        if let Some(reason) = reason {
            self.reason = Some(least_of(reason, self.reason));
        }
    }

    pub fn reason(&self) -> Option<u8>
        ensures { no_of result ≡ self.now }
    {
        self.reason
    }

    /// Whether no reason up to this one holds.
    pub fn is_above(&self, reason: u8) -> bool
        ensures { IsTrue result ↔ (reason < self.now) }
    {
        match self.reason {
            Some(least) => reason < least,
            None => true,
        }
    }
}

/// The lesser of a reason and another, if there is one.
pub fn least_of(reason: u8, other: Option<u8>) -> u8
    ensures { result ≡ min reason (no_of other) }
{
    match other {
        Some(other) => reason.min(other),
        None => reason,
    }
}

fn cell_reason(nullable: bool, read: &Result<Cell, LiteralNo>) -> Option<u8>
    ensures { no_of result ≡ cell_reason nullable read.now }
{
    match read {
        Ok(_) => None,
        Err(LiteralNo::Form) => Some(12),
        Err(LiteralNo::Null) => { if nullable { None } else { Some(15) } }
        Err(LiteralNo::Kind) => Some(14),
        Err(LiteralNo::Long) => Some(16),
        Err(LiteralNo::Memory) => None,
    }
}

/// The cell of a literal under a column, or null in place of one that is refused.
pub fn read_cell(
    alloc: Global,
    column: &Column,
    text: &[u8],
    no: &mut Least,
) -> Result<Cell, NoMemory>
    ensures cell { IfOk result (λ cell. cell ≡ cell_value column.now.kind text.now) }
    ensures least { OnOk result (no.new ≡ min no.old (cell_no column.now text.now)) }
{
    let read = read_literal(alloc, text, column.kind);
    no.note(cell_reason(column.nullable, &read));
    match read {
        Ok(cell) => Ok(cell),
        Err(LiteralNo::Memory) => Err(NoMemory),
        Err(LiteralNo::Form | LiteralNo::Null | LiteralNo::Kind | LiteralNo::Long) => Ok(
            Cell::Null,
        ),
    }
}

/// Adds the cell of a literal under a column, behind the column's id, or null in place of one that is refused.
pub fn put_cell_read(
    alloc: Global,
    column: &Column,
    text: &[u8],
    out: &mut Tail,
    no: &mut Least,
) -> Result<(), NoMemory>
    ensures cell { OnOk result (out.new.added ≡ out.old.added ++ listed_cell (column.now.id, cell_value column.now.kind text.now)) }
    ensures least { OnOk result (no.new ≡ min no.old (cell_no column.now text.now)) }
{
    if let Some(cell) = plain_literal(text, column.kind) {
        no.note(None);
        return put_listed_cell(out, column.id, cell);
    }
    let cell = read_cell(alloc, column, text, no)?;
    put_listed_cell(out, column.id, CellRef::of(&cell))
}

/// Notes a text that is no literal of any kind.
pub fn note_form(alloc: Global, text: &[u8], no: &mut Least) -> Result<(), NoMemory>
    ensures { OnOk result (no.new ≡ min no.old (form_no text.now)) }
{
    match read_literal(alloc, text, Kind::Bool) {
        Err(LiteralNo::Memory) => return Err(NoMemory),
        Err(LiteralNo::Form) => no.note(Some(12)),
        _ => no.note(None),
    }
    Ok(())
}
