//! What operations and changes do to a row.
ghost use Rattle.std.specs.Prelude.{◌≡◌, ◌≤◌, ◌∷◌, ◌++◌, [], length, IsTrue, IfOk, OnOk, OnErr, MatchResult};
ghost use Rattle.std.specs.Ordering.{nat_cmp, is_eq};
ghost use Rattle.std.specs.List.{list_any};
ghost use Rattle.std.specs.FinMap.Entries.{put};
ghost use Rattle.kt_history.specs.Operations.{outcome_of};
ghost use Rattle.kt_history.specs.Places.{place_of, AreBelow, HasNumber};
ghost use Rattle.kt_history.specs.Rows.{with_cells, cells_under, apply, undo, fits};

use crate::{Change, OpKind, Outcome};
use kt_base::{Cell, Cells, NoMemory};
use std::alloc::Global;

/// What becomes of an operation, by whether its key is present.
pub fn outcome(kind: OpKind, present: bool) -> Outcome
    ensures { result ≡ outcome_of kind present }
{
    match (kind, present) {
        (OpKind::Insert, true) => Outcome::Present,
        (OpKind::Update, false) | (OpKind::Delete, false) => Outcome::Absent,
        (OpKind::InsertIgnore, true) => Outcome::Ignored,
        (OpKind::UpdateIgnore, false) | (OpKind::DeleteIgnore, false) => Outcome::Ignored,
        _ => Outcome::Done,
    }
}

/// The place of a column among entries by rising id, or the place where a new one goes. The entries before `from` are of columns
/// below it, and are not looked at.
pub(crate) fn place_behind<X>(cells: &[(u16, X)], from: usize, id: u16) -> Result<usize, usize>
    requires bound { from ≤ length cells.now }
    requires below { AreBelow from id cells.now }
    ensures place { result ≡ place_of nat_cmp id cells.now }
    ensures below { MatchResult result (λ at. AreBelow at id cells.now) (λ at. AreBelow at id cells.now) }
    ensures found { IfOk result (λ at. HasNumber at id cells.now) }
{
    let mut at = from;
    'places: while at < cells.len() {
        let here = cells[at].0;
        if here >= id {
            return if here == id { Ok(at) } else { Err(at) };
        }
        at += 1;
    }
    Err(at)
}

// The place of a column among entries by rising id, or the place where a new one goes.
fn place_of_id<X>(cells: &[(u16, X)], id: u16) -> Result<usize, usize>
    ensures { result ≡ place_of nat_cmp id cells.now }
{
    place_behind(cells, 0, id)
}

/// Sets the cell of a column, in its place among cells by rising id. It can fail only for want of memory, and the cells are as before then.
pub fn put_cell(cells: &mut Vec<(u16, Cell)>, id: u16, cell: Cell) -> Result<(), NoMemory>
    ensures { OnOk result (cells.new.items ≡ put nat_cmp id cell cells.old.items) }
{
    match place_of_id(cells, id) {
        Ok(at) => {
            cells[at].1 = cell;
            Ok(())
        }
        Err(at) => {
            cells.insert(at, (id, cell))?;
            Ok(())
        }
    }
}

/// The row with these cells, in place of its own where it has them.
pub fn with_cells(row: Cells, cells: &[(u16, Cell)]) -> Result<Cells, NoMemory>
    ensures { IfOk result (λ new. new ≡ with_cells cells.now row) }
{
    let mut new = row.into_vec();
    let mut at = cells.len();
    'cells: while at > 0 {
        at -= 1;
        put_cell(&mut new, cells[at].0, cells[at].1.copy()?)?;
    }
    Ok(Cells::of(new))
}

/// Does a change to a row. One that does not fit leaves the row as it is, and so does want of memory.
pub fn apply(change: &Change, row: &mut Option<Cells>) -> Result<(), NoMemory>
    ensures ok { OnOk result (row.new ≡ apply change.now row.old) }
    ensures err { OnErr result (row.new ≡ row.old) }
{
    let next = match (change, &*row) {
        (Change::Ins(cells), None) => Some(cells.copy()?),
        (Change::Upd(cells), Some(old)) => Some(with_cells(old.copy()?, cells.as_slice())?),
        (Change::Del, _) => None,
        _ => return Ok(()),
    };
    *row = next;
    Ok(())
}

fn has_column(cells: &[(u16, Cell)], id: u16) -> bool
    ensures { result ≡ list_any (λ c. is_eq (nat_cmp id c.0)) cells.now }
{
    cells.iter().any(|cell| id.cmp(&cell.0).is_eq())
}

// Appends a cell, if it is of one of these columns.
#[tactic(auto, using(crate::proofs::Effects::found_by_any))]
fn push_under(
    under: &mut Vec<(u16, Cell)>,
    columns: &[(u16, Cell)],
    cell: &(u16, Cell),
) -> Result<(), NoMemory>
    ensures { OnOk result (under.new.items ≡ under.old.items ++ cells_under columns.now (cell.now ∷ [])) }
{
    if has_column(columns, cell.0) {
        under.push((cell.0, cell.1.copy()?))?;
        return Ok(());
    }
    Ok(())
}

// The row's cells in these columns.
fn cells_under(
    alloc: Global,
    columns: &[(u16, Cell)],
    row: &[(u16, Cell)],
) -> Result<Cells, NoMemory>
    ensures { IfOk result (λ cells. cells ≡ cells_under columns.now row.now) }
{
    let mut under = Vec::new(alloc);
    for cell in row {
        push_under(&mut under, columns, cell)?;
    }
    Ok(Cells::of(under))
}

/// The change that leads back over another one, from the row before that.
pub fn undo_of(alloc: Global, change: &Change, before: &Option<Cells>) -> Result<Change, NoMemory>
    requires { IsTrue (fits change.now before.now) }
    ensures { IfOk result (λ back. back ≡ undo change.now before.now) }
{
    match (change, before) {
        (Change::Upd(cells), Some(old)) => {
            Ok(Change::Upd(cells_under(alloc, cells.as_slice(), old.as_slice())?))
        }
        (Change::Del, Some(old)) => Ok(Change::Ins(old.copy()?)),
        _ => Ok(Change::Del),
    }
}
