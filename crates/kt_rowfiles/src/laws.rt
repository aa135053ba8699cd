//! Laws of the definitions.
ghost use Rattle.kt_rowfiles.specs.Fitting.{undos_fit_by_row};
ghost use Rattle.kt_rowfiles.specs.Laws.{rows_are_read_from_histories, undos_that_fit_lead_back, records_of_files_rise, records_of_files_fall, records_stand_together, rows_are_found, rows_are_missed};

/// What is read at a time is what the history of the key shows, where each of its UNDO records leads back.
pub fn history_law()
    ensures { rows_are_read_from_histories }
{}

/// UNDO records that fit whole rows lead back.
pub fn undo_law()
    ensures { undos_that_fit_lead_back }
{}

/// Where the UNDO records of a rowset fit, those of each row do.
pub fn fitting_law()
    ensures { undos_fit_by_row }
{}

/// The records of several files are put in order one file after the other.
pub fn order_law()
    ensures rise { records_of_files_rise }
    ensures fall { records_of_files_fall }
{}

/// The records of a row that stand together in a file are all that it has there.
pub fn together_law()
    ensures { records_stand_together }
{}

/// The row of a key is the one at its place, and a key that no row has has none.
pub fn place_law()
    ensures found { rows_are_found }
    ensures missed { rows_are_missed }
{}
