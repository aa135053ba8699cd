//! Laws of what a job writes of a row.
ghost use Rattle.kt_rowfiles.specs.Flushing.{a_change_that_fits_is_undone, a_written_row_keeps_its_changes, a_deleted_row_keeps_its_changes, a_written_row_leads_back, a_cut_history_is_alike, a_dropped_row_is_alike};
ghost use Rattle.kt_rowfiles.specs.Merging.{a_joined_history_is_alike};

/// A change that fits is undone, and its undo led back over.
pub fn undone_law()
    ensures { a_change_that_fits_is_undone }
{}

/// A row that is written has the changes above the mark and no others, on the row at the mark.
pub fn written_law()
    ensures { a_written_row_keeps_its_changes }
{}

/// And so has one that a last change deletes.
pub fn deleted_law()
    ensures { a_deleted_row_keeps_its_changes }
{}

/// Its UNDO records lead back, and their timestamps fall.
pub fn leading_law()
    ensures { a_written_row_leads_back }
{}

/// It is alike from the mark on.
pub fn cut_law()
    ensures { a_cut_history_is_alike }
{}

/// A row that is not there at the mark and does not change after it may be left out.
pub fn dropped_law()
    ensures { a_dropped_row_is_alike }
{}

/// The histories of one key in several stores, joined to one, are alike to them.
pub fn joined_law()
    ensures { a_joined_history_is_alike }
{}
