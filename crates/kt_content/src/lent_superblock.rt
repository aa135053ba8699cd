//! Laws of a superblock that is lent for publishing.
ghost use Rattle.kt_content.specs.Lending.{a_key_goes_over, a_needed_store_tells, names_that_a_job_leaves_tell, a_name_stays_true, a_key_may_be_lent, a_job_may_be_lent, a_job_that_duplicates_goes_over, a_fate_goes_on, a_job_keeps_changes_above_the_files};
ghost use Rattle.kt_content.specs.KnownCommits.{a_commit_is_known, a_run_that_goes_on_is_not_early};
ghost use Rattle.kt_content.specs.LaterMark.{a_later_mark_stands};

/// A key goes over to the superblock that a job publishes.
pub fn over_law()
    ensures { a_key_goes_over }
{}

/// Names that make one store needed tell what became of an operation that fits.
pub fn needed_law()
    ensures { a_needed_store_tells }
{}

/// Names of stores that a job leaves tell the same under both superblocks.
pub fn leaves_law()
    ensures { names_that_a_job_leaves_tell }
{}

/// Names of an operation that is known stay true.
pub fn stays_true_law()
    ensures { a_name_stays_true }
{}

/// A key may be lent.
pub fn key_lent_law()
    ensures { a_key_may_be_lent }
{}

/// A job may be lent.
pub fn job_lent_law()
    ensures { a_job_may_be_lent }
{}

/// A job that duplicates goes over.
pub fn duplicates_law()
    ensures { a_job_that_duplicates_goes_over }
{}

/// Names of an operation on a rowset go on.
pub fn fate_on_law()
    ensures { a_fate_goes_on }
{}

/// A job keeps each change of a DeltaMemStore above the REDO files.
pub fn job_above_law()
    ensures { a_job_keeps_changes_above_the_files }
{}

/// A COMMIT among the records is known of each of its keys.
pub fn known_law()
    ensures { a_commit_is_known }
{}

/// So where the names of each COMMIT of a run go on, the outputs rest on none of them.
pub fn not_early_law()
    ensures { a_run_that_goes_on_is_not_early }
{}

/// A superblock that names what the one before it named, and is told from a later mark on, stands.
pub fn later_mark_law()
    ensures { a_later_mark_stands }
{}
