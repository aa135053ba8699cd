//! Cells that are added one by one.
ghost use Rattle.std.specs.Prelude.{◌≡◌, ◌++◌, ◌∷◌, [], OnOk};

use kt_base::{CellRef, NoMemory};

/// Adds a cell. It is made in its place, where `Vec::push` would hand it on.
#[inline(always)]
pub(crate) fn add<'v>(cells: &mut Vec<CellRef<'v>>, cell: CellRef<'v>) -> Result<(), NoMemory>
    ensures { OnOk result (cells.new.items ≡ cells.old.items ++ cell.entry ∷ []) }
{
    cells.reserve(1)?;
    cells.push_reserved(cell);
    Ok(())
}
