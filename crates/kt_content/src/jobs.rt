//! Laws of a job: its missed changes, and what keeps it over the events beside it.
ghost use Rattle.kt_content.specs.JobEvents.{left_names_are_apart, taken_names_are_covered, names_of_both_are_doubled, other_stores_leave_a_job, an_operation_more_keeps_a_job, an_operation_apart_keeps_a_job, a_change_joins_one_of_the_groups, a_row_of_both_keeps_a_job, another_superblock_leaves_a_job};
ghost use Rattle.kt_content.specs.MissedChanges.{missed_changes_are_put_in, a_swap_makes_a_job_that_duplicates, a_change_leaves_what_is_missed, a_file_has_the_missed_changes};
ghost use Rattle.kt_content.specs.DeltaJobs.{a_delta_job_goes_over};

/// Names of stores that a job leaves are apart.
pub fn left_names_law()
    ensures { left_names_are_apart }
{}

/// Names of inputs alone are covered.
pub fn taken_names_law()
    ensures { taken_names_are_covered }
{}

/// Names of an input and an output are doubled.
pub fn both_names_law()
    ensures { names_of_both_are_doubled }
{}

/// Stores elsewhere leave a job as it is.
pub fn job_others_law()
    ensures { other_stores_leave_a_job }
{}

/// A row that both sides take keeps a job.
pub fn job_operation_law()
    ensures { an_operation_more_keeps_a_job }
{}

/// A row of a store that a job leaves keeps it.
pub fn job_apart_law()
    ensures { an_operation_apart_keeps_a_job }
{}

/// A change joins one of the groups.
pub fn job_group_law()
    ensures { a_change_joins_one_of_the_groups }
{}

/// A row that goes to input and output keeps a job.
pub fn job_both_law()
    ensures { a_row_of_both_keeps_a_job }
{}

/// Another superblock leaves a job.
pub fn job_super_law()
    ensures { another_superblock_leaves_a_job }
{}

/// Outputs with the missed changes are alike to the inputs, and sound.
pub fn missed_law()
    ensures { missed_changes_are_put_in }
{}

/// So from the swap on a job duplicates, with its outputs as they are once they have these.
pub fn swap_law()
    ensures { a_swap_makes_a_job_that_duplicates }
{}

/// Until then they lie between what was written first and what was duplicated.
pub fn between_law()
    ensures { a_change_leaves_what_is_missed }
{}

/// A REDO file puts them into the history that the files have.
pub fn missed_file_law()
    ensures { a_file_has_the_missed_changes }
{}

/// A job on the deltas of one rowset goes over.
pub fn delta_law()
    ensures { a_delta_job_goes_over }
{}
