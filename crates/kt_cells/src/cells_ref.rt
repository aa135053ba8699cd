//! Cells where they lie.
ghost use Rattle.std.specs.Prelude.{◌≡◌, ◌∷◌, [], List, ℕ, Ok, IsNone, IfSome};
ghost use Rattle.std.specs.List.{AllByRecursion};
ghost use Rattle.std.specs.Int.{w16, w32, w64};
ghost use Rattle.std.specs.Option.{option_map};
ghost use Rattle.kt_base.specs.declared.cell.Cell.{Cell as CellSpec};
ghost use Rattle.kt_bytes.specs.Reading.{number_at, bytes_at, counted_at};
ghost use Rattle.kt_base.specs.Borrowed.{cell_in};
ghost use Rattle.kt_cells.specs.Borrowed.{cells_in_ref};
ghost use Rattle.kt_cells.specs.Reading.{if_read, cell_at, next_cell_at, cells_at, cells_behind};

use byteorder::{ByteOrder, LittleEndian};
use kt_base::CellRef;

/// Cells as bytes spell them, read where they lie: as many as are left, from the front of the bytes on.
#[derive(Clone, Copy)]
pub struct CellsRef<'v> {
    left: u16,
    bytes: &'v [u8],
}

fn front_of(bytes: &[u8], len: usize) -> Option<(&[u8], &[u8])>
    ensures { option_map (λ x. (x.0.now, x.1.now)) result ≡ if_read (bytes_at len bytes.now) }
{
    if bytes.len() < len {
        return None;
    }
    Some(bytes.split_at(len))
}

fn id_of(bytes: &[u8]) -> Option<(u16, &[u8])>
    ensures { option_map (λ x. (x.0, x.1.now)) result ≡ if_read (number_at w16 bytes.now) }
{
    let (front, rest) = front_of(bytes, 2)?;
    Some((LittleEndian::read_u16(front), rest))
}

fn number_of(bytes: &[u8]) -> Option<(u64, &[u8])>
    ensures { option_map (λ x. (x.0, x.1.now)) result ≡ if_read (number_at w64 bytes.now) }
{
    let (front, rest) = front_of(bytes, 8)?;
    Some((LittleEndian::read_u64(front), rest))
}

fn text_of(bytes: &[u8]) -> Option<(&[u8], &[u8])>
    ensures { option_map (λ x. (x.0.now, x.1.now)) result ≡ if_read (counted_at w32 bytes.now) }
{
    let (front, rest) = front_of(bytes, 4)?;
    front_of(rest, LittleEndian::read_u32(front) as usize)
}

#[tactic(auto, unfolding(crate::specs::Reading::cell_at, crate::specs::Reading::flag_at))]
fn cell_of(bytes: &[u8]) -> Option<(CellRef<'_>, &[u8])>
    ensures { option_map (λ x. (cell_in x.0, x.1.now)) result ≡ if_read (cell_at bytes.now) }
{
    match bytes {
        [0, rest @ ..] => Some((CellRef::Null, rest)),
        [1, 0, rest @ ..] => Some((CellRef::Bool(false), rest)),
        [1, 1, rest @ ..] => Some((CellRef::Bool(true), rest)),
        [2, rest @ ..] => {
            let (number, rest) = number_of(rest)?;
            Some((CellRef::Int(number.cast_signed()), rest))
        }
        [3, rest @ ..] => {
            let (text, rest) = text_of(rest)?;
            Some((CellRef::Bytes(text), rest))
        }
        _ => None,
    }
}

#[tactic(auto, unfolding(crate::specs::Reading::next_cell_at))]
fn next_cell_of(bytes: &[u8]) -> Option<((u16, CellRef<'_>), &[u8])>
    ensures { option_map (λ x. ((x.0.0, cell_in x.0.1), x.1.now)) result ≡ if_read (next_cell_at bytes.now) }
{
    let (id, rest) = id_of(bytes)?;
    let (cell, rest) = cell_of(rest)?;
    Some(((id, cell), rest))
}

impl<'v> CellsRef<'v> {
    /// The cells behind their count.
    pub fn of(bytes: &'v [u8]) -> CellsRef<'v>
        ensures { cells_in_ref result ≡ cells_behind bytes.now }
    {
        match id_of(bytes) {
            Some((left, bytes)) => CellsRef { left, bytes },
            None => CellsRef { left: 0, bytes },
        }
    }

    /// The first cell under its column, and the others.
    #[tactic(auto, unfolding(crate::specs::Reading::cells_from))]
    pub fn split_first(self) -> Option<((u16, CellRef<'v>), CellsRef<'v>)>
        ensures none { IsNone result → cells_in_ref self.entry ≡ [] }
        ensures some { IfSome result (λ c. cells_in_ref self.entry ≡ (c.0.0, cell_in c.0.1) ∷ cells_in_ref c.1) }
    {
        if self.left == 0 {
            return None;
        }
        let (first, bytes) = next_cell_of(self.bytes)?;
        let left = self.left - 1;
        Some((first, CellsRef { left, bytes }))
    }

    /// The column of the only cell, where no more than one is left. Its cell is not read, and may be missing.
    #[tactic(auto, using(crate::proofs::Only::only_one))]
    pub fn only_column(self) -> Option<u16>
        ensures { IfSome result (λ id. AllByRecursion (λ c. c.0 ≡ id) (cells_in_ref self.entry)) }
    {
        if self.left != 1 {
            return None;
        }
        let (id, _) = id_of(self.bytes)?;
        Some(id)
    }
}
