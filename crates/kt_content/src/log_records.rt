//! Laws of a record more, and of the last one taken off.
ghost use Rattle.kt_content.specs.MoreOps.{an_operation_more_is_shown, one_store_is_live_above_the_mark, one_store_is_live_before_an_operation_without_commit, true_names_change_nothing, names_of_the_live_store_tell};
ghost use Rattle.kt_content.specs.Records.{a_replicate_adds_its_write, a_commit_changes_nothing, a_run_goes_on, each_front_holds_its_writes};
ghost use Rattle.kt_content.specs.FewerRecords.{an_operation_less_is_shown, a_replicate_less_takes_its_write, a_commit_less_changes_nothing};

/// An operation above all that is there adds to the stores what it adds to the history that they show.
pub fn operation_law()
    ensures { an_operation_more_is_shown }
{}

/// Above the mark from which stores show a history one at most has the key live.
pub fn one_live_law()
    ensures { one_store_is_live_above_the_mark }
{}

/// And so just before each operation without a COMMIT of a content.
pub fn untold_live_law()
    ensures { one_store_is_live_before_an_operation_without_commit }
{}

/// Names that tell what became of an operation change nothing.
pub fn names_law()
    ensures { true_names_change_nothing }
{}

/// The names of the store that has the key live tell what became of an operation.
pub fn live_names_law()
    ensures { names_of_the_live_store_tell }
{}

/// A REPLICATE more adds its write to the content.
pub fn replicate_law()
    ensures { a_replicate_adds_its_write }
{}

/// A COMMIT more that tells what became of its write changes nothing.
pub fn commit_law()
    ensures { a_commit_changes_nothing }
{}

/// Records that are told go on from a content.
pub fn run_law()
    ensures { a_run_goes_on }
{}

/// And so does each front of them.
pub fn front_law()
    ensures { each_front_holds_its_writes }
{}

/// Stores that show a history with an operation above all else have shown it without.
pub fn operation_less_law()
    ensures { an_operation_less_is_shown }
{}

/// Without the REPLICATE of the last write the content is without that write.
pub fn replicate_less_law()
    ensures { a_replicate_less_takes_its_write }
{}

/// Without a COMMIT that tells what became of its write the content is the same.
pub fn commit_less_law()
    ensures { a_commit_less_changes_nothing }
{}
