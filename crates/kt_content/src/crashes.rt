//! Laws of the fronts of a log that a crash may leave.
ghost use Rattle.kt_content.specs.Recovering.{a_content_is_recovered, each_front_is_recovered, a_replicate_more_is_recovered, a_commit_more_is_recovered, records_become_durable, a_superblock_that_holds_the_same_is_recovered, a_lent_superblock_is_recovered, a_superblock_published_at_once_is_recovered};

/// Where all records hold a past, each front holds it with its writes.
pub fn recovered_law()
    ensures { a_content_is_recovered }
{}

/// Each front of the log is recovered.
pub fn each_front_law()
    ensures { each_front_is_recovered }
{}

/// A REPLICATE more is queued.
pub fn replicate_recovered_law()
    ensures { a_replicate_more_is_recovered }
{}

/// A COMMIT more is queued.
pub fn commit_recovered_law()
    ensures { a_commit_more_is_recovered }
{}

/// Records become durable.
pub fn durable_law()
    ensures { records_become_durable }
{}

/// A superblock that holds the same over all records is recovered from each front.
pub fn holds_law()
    ensures { a_superblock_that_holds_the_same_is_recovered }
{}

/// A superblock that is lent is recovered.
pub fn lent_law()
    ensures { a_lent_superblock_is_recovered }
{}

/// And so is one that a job in one step publishes.
pub fn at_once_law()
    ensures { a_superblock_published_at_once_is_recovered }
{}
