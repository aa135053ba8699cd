//! Laws of the definitions.
ghost use Rattle.kt_merge.specs.Minor.{merged_files_tell_the_same};
ghost use Rattle.kt_merge.specs.Folding.{a_row_folded_is_alike, a_row_folded_whole_is_the_same, a_row_folded_whole_leads_back, changes_that_fit_leave_a_row};
ghost use Rattle.kt_merge.specs.Major.{a_folded_rowset_tells_the_same};
ghost use Rattle.kt_merge.specs.Late.{late_changes_are_in_memory};
ghost use Rattle.kt_merge.specs.Merge.{outputs_are_alike, outputs_are_sound, outputs_lead_back};
ghost use Rattle.kt_merge.specs.OneKey.{a_key_written_is_alike, a_key_written_is_sound, a_key_written_leads_back, a_key_written_fits_files};
ghost use Rattle.kt_merge.specs.Laws.{a_row_written_is_the_history, a_row_written_leads_back, a_row_not_written_is_not_there};

/// A row that is written has the row at the mark and the changes above it, and its UNDO records lead back. Where none is
/// written there is neither.
pub fn row_law()
    ensures kept { a_row_written_is_the_history }
    ensures led { a_row_written_leads_back }
    ensures dropped { a_row_not_written_is_not_there }
{}

/// A row that is folded has the same row at each time from the mark on and the same changes above it, with its older UNDO
/// records too where all its REDO records lie above the mark. Changes that fit leave one.
pub fn fold_law()
    ensures alike { a_row_folded_is_alike }
    ensures whole { a_row_folded_whole_is_the_same }
    ensures led { a_row_folded_whole_leads_back }
    ensures left { changes_that_fit_leave_a_row }
{}

/// A file that has for each row its records of all REDO files tells the same history of each key.
pub fn merge_law()
    ensures { merged_files_tell_the_same }
{}

/// The histories of one key in several stores, written as one row, are told the same from the mark on. Its changes fit, its UNDO
/// records lead back, and files can hold it.
pub fn key_law()
    ensures alike { a_key_written_is_alike }
    ensures sound { a_key_written_is_sound }
    ensures led { a_key_written_leads_back }
    ensures held { a_key_written_fits_files }
{}

/// A rowset whose REDO records all lie above the mark tells the same history of each key once they are folded in, with its older
/// UNDO files beside the new one.
pub fn folded_law()
    ensures { a_folded_rowset_tells_the_same }
{}

/// Disk rowsets that have of each key what is written of it are told the same from the mark on as the inputs. Their changes fit, and
/// their UNDO records lead back.
pub fn outputs_law()
    ensures alike { outputs_are_alike }
    ensures sound { outputs_are_sound }
    ensures led { outputs_lead_back }
{}

/// What disk rowsets have above a bound is in memory, where none of their records lies above it.
pub fn late_law()
    ensures { late_changes_are_in_memory }
{}
