//! Laws of the definitions.
ghost use Rattle.kt_memrowset.specs.Laws.{stores_stay, places_stand, stores_are_grown, shares_suffice};

/// A store stands as it was where no place of its own has changed.
pub fn frame_law()
    ensures { stores_stay }
{}

/// At each cell that a store owns a place stands.
pub fn placed_law()
    ensures { places_stand }
{}

/// Its keys rise, and all that a store has of a row are its changes.
pub fn grown_law()
    ensures { stores_are_grown }
{}

/// A key and a change of it take at most half of what a write of the operation needs.
pub fn share_law()
    ensures { shares_suffice }
{}
