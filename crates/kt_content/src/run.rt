//! Laws of a run: what flies, what is told, and numbers that are fresh.
ghost use Rattle.kt_content.specs.RunEvents.{a_write_that_begins_is_not_done, a_row_that_is_applied_is_done, names_stay_true_at_a_begin, names_stay_true_at_an_end, a_name_more_is_true, true_names_are_told, what_is_told_is_true, a_fresh_number_is_needed_where_it_stands};

/// A write that begins is pending.
pub fn begin_pending_law()
    ensures { a_write_that_begins_is_not_done }
{}

/// A row that is applied is done.
pub fn applied_done_law()
    ensures { a_row_that_is_applied_is_done }
{}

/// Names stay true at a begin.
pub fn names_begin_law()
    ensures { names_stay_true_at_a_begin }
{}

/// Names stay true at an end.
pub fn names_end_law()
    ensures { names_stay_true_at_an_end }
{}

/// One row more is applied.
pub fn name_more_law()
    ensures { a_name_more_is_true }
{}

/// True names are told.
pub fn names_told_law()
    ensures { true_names_are_told }
{}

/// What is told is true in the content of all records.
pub fn told_true_law()
    ensures { what_is_told_is_true }
{}

/// A fresh number is needed where its store stands.
pub fn fresh_number_law()
    ensures { a_fresh_number_is_needed_where_it_stands }
{}
