//! Laws of the definitions.
ghost use Rattle.kt_dms.specs.Laws.{stores_stay, changes_are_sorted, changes_join_their_rows, shares_suffice};

/// A store stands as it was where no place of its own has changed.
pub fn frame_law()
    ensures { stores_stay }
{}

/// The changes of a store stand by ordinal, then timestamp, and no two of a row at one timestamp.
pub fn order_law()
    ensures { changes_are_sorted }
{}

/// Where all changes of its row lie below it, a change that joins comes behind them, and other rows have theirs as before.
pub fn row_law()
    ensures { changes_join_their_rows }
{}

/// A change takes at most half of what a write of the operation needs.
pub fn share_law()
    ensures { shares_suffice }
{}
