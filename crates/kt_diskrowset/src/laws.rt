//! Laws of the definitions.
ghost use Rattle.kt_diskrowset.specs.Laws.{rowsets_stay, rowsets_own_no_vacant_cell, rows_are_of_keys};

/// A rowset stands as it was where no place of its own has changed.
pub fn frame_law()
    ensures { rowsets_stay }
{}

/// It owns no vacant cell.
pub fn placed_law()
    ensures { rowsets_own_no_vacant_cell }
{}

/// A key that no row of the base file has is not there.
pub fn keys_law()
    ensures { rows_are_of_keys }
{}
