//! Lists of cells, read from the front of some bytes.
ghost use Rattle.std.specs.Prelude.{◌≡◌, [], IfOk};
ghost use Rattle.std.specs.Int.{w16};
ghost use Rattle.kt_base.specs.Borrowed.{cell_in};
ghost use Rattle.kt_cells.specs.Rules.{next_id};
ghost use Rattle.kt_bytes.specs.Reading.{Gives, checked_at, many_at};
ghost use Rattle.kt_cells.specs.Reading.{is_id, id_cell_at, listed_cell_at, cells_at, rest_of, cells_behind};
ghost use Rattle.kt_cells.specs.Spelled.{SpellsCells};

use crate::fields::cell_ref_of;
use kt_base::{Cell, CellRef, Cells};
use kt_bytes::Stop;
use kt_bytes::fields::{fault_at, u16_at};
use std::alloc::Global;

/// How many ids there are.
const IDS: u32 = 1 << 16;

/// An id that is not below `least`, and leaves ids for `left` cells from its own on.
fn is_id(left: u16, least: u32, id: u16) -> bool
    ensures { result ≡ is_id left least id }
{
    least <= u32::from(id) && u32::from(id) + u32::from(left) <= IDS
}

fn id_of(left: u16, least: u32, bytes: &[u8]) -> Result<(u16, &[u8]), Stop>
    ensures { Gives (λ x. (x.0, x.1.now)) result (checked_at w16 (is_id left least) bytes.now) }
{
    let (id, rest) = u16_at(bytes)?;
    if is_id(left, least, id) {
        Ok((id, rest))
    } else {
        fault_at(bytes)
    }
}

/// Such an id, and its cell.
#[tactic(auto, unfolding(crate::specs::Reading::id_cell_at))]
fn id_cell_of(left: u16, least: u32, bytes: &[u8]) -> Result<((u16, CellRef<'_>), &[u8]), Stop>
    ensures { Gives (λ x. ((x.0.0, cell_in x.0.1), x.1.now)) result (id_cell_at left least bytes.now) }
{
    let (id, rest) = id_of(left, least, bytes)?;
    let (cell, rest) = cell_ref_of(rest)?;
    Ok(((id, cell), rest))
}

fn least_id(cells: &[(u16, Cell)]) -> u32
    ensures { result ≡ next_id cells.now }
{
    match cells {
        [] => 0,
        [.., (id, _)] => u32::from(*id) + 1,
    }
}

/// A cell of a list of `count`, whose id is above those of the cells before it.
#[tactic(auto, unfolding(crate::specs::Reading::id_cell_at, crate::specs::Reading::listed_cell_at))]
fn listed_cell_of<'a>(
    alloc: Global,
    count: u16,
    front: &[(u16, Cell)],
    bytes: &'a [u8],
) -> Result<((u16, Cell), &'a [u8]), Stop>
    ensures { Gives (λ x. ((x.0.0, x.0.1), x.1.now)) result (listed_cell_at count front.now bytes.now) }
{
    let left = usize::from(count).saturating_sub(front.len()) as u16;
    let ((id, cell), rest) = id_cell_of(left, least_id(front), bytes)?;
    Ok(((id, cell.to_cell(alloc)?), rest))
}

/// So many cells by rising id.
fn counted_cells_of(
    alloc: Global,
    count: u16,
    bytes: &[u8],
) -> Result<(Vec<(u16, Cell)>, &[u8]), Stop>
    ensures { Gives (λ x. (x.0.items, x.1.now)) result (many_at (listed_cell_at count) count [] bytes.now) }
{
    let mut cells = Vec::with_capacity(alloc, usize::from(count).min(bytes.len() / 3))?;
    let mut rest = bytes;
    'cells: for _ in 0..count {
        let (cell, after) = listed_cell_of(alloc, count, &cells, rest)?;
        cells.push(cell)?;
        rest = after;
    }
    Ok((cells, rest))
}

/// Cells by rising id behind their count.
#[tactic(auto, unfolding(crate::specs::Reading::cells_at))]
pub fn cells_of(alloc: Global, bytes: &[u8]) -> Result<(Cells, &[u8]), Stop>
    ensures { Gives (λ x. (x.0, x.1.now)) result (cells_at bytes.now) }
{
    let (count, rest) = u16_at(bytes)?;
    let (cells, rest) = counted_cells_of(alloc, count, rest)?;
    Ok((Cells::of(cells), rest))
}

/// The bytes behind so many cells by rising id.
fn behind_cells(count: u16, bytes: &[u8]) -> Result<&[u8], Stop>
    ensures { Gives (λ rest. rest.now) result (rest_of (many_at (listed_cell_at count) count [] bytes.now)) }
{
    let mut least = 0;
    let mut rest = bytes;
    'cells: for at in 0..count {
        let (listed, after) = id_cell_of(count - at, least, rest)?;
        least = u32::from(listed.0) + 1;
        rest = after;
    }
    Ok(rest)
}

/// The bytes of cells by rising id behind their count, which are not copied.
pub fn spelled_cells_of(bytes: &[u8]) -> Result<(&[u8], &[u8]), Stop>
    ensures cells { Gives (λ x. (cells_behind x.0.now, x.1.now)) result (cells_at bytes.now) }
    ensures spelled { IfOk result (λ x. SpellsCells x.0.now) }
{
    let (count, rest) = u16_at(bytes)?;
    let rest = behind_cells(count, rest)?;
    Ok(bytes.split_at(bytes.len() - rest.len()))
}
