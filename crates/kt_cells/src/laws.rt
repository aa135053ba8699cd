//! Laws of the definitions, each the contract of a function that does nothing.
ghost use Rattle.std.specs.Prelude.{◌≡◌, ℕ, List, Ok};
ghost use Rattle.kt_base.specs.declared.cell.Cell.{Cell};
ghost use Rattle.kt_cells.specs.Spelling.{cell_list};
ghost use Rattle.kt_cells.specs.Rules.{CellListFits};
ghost use Rattle.kt_cells.specs.Reading.{cells_at, cells_behind};
ghost use Rattle.kt_cells.specs.Spelled.{SpellsCells};

/// A list that is read whole is the one that is read where it lies.
pub fn in_place_law()
    ensures { (bytes : List ℕ) (cells : List (ℕ × Cell)) (rest : List ℕ) → cells_at bytes ≡ Ok (cells, rest) → cells ≡ cells_behind bytes }
{}

/// What is spelled is read back where it lies.
pub fn spelled_law()
    ensures again { (cells : List (ℕ × Cell)) → CellListFits cells → cells_behind (cell_list cells) ≡ cells }
    ensures spells { (cells : List (ℕ × Cell)) → CellListFits cells → SpellsCells (cell_list cells) }
{}
