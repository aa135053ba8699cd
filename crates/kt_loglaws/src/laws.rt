//! Laws of what a log holds, each the contract of a function that does nothing.
ghost use Rattle.kt_loglaws.specs.Laws.{a_replicate_adds_its_write, a_commit_changes_nothing};
ghost use Rattle.kt_loglaws.specs.Fronts.{a_replicate_more_is_told, a_commit_more_is_told, a_run_goes_on_from_the_opened_past, each_front_holds_its_writes, a_crash_leaves_the_past_up_to_a_time};
ghost use Rattle.kt_loglaws.specs.Side.{a_crash_keeps_each_durable_write};

use kt_disk::Disk;

/// A REPLICATE at the end of a log adds its write.
pub fn replicate_law()
    ensures { a_replicate_adds_its_write }
{}

/// A COMMIT anywhere behind its REPLICATE that tells what became of its write changes nothing.
pub fn commit_law()
    ensures { a_commit_changes_nothing }
{}

/// Records of which each COMMIT tells what became of its write, and a REPLICATE more.
pub fn replicate_told_law()
    ensures { a_replicate_more_is_told }
{}

/// The same records, and a COMMIT more that tells what became of its write.
pub fn commit_told_law()
    ensures { a_commit_more_is_told }
{}

/// An opened log and the records of a run hold the opened past and the writes of the run.
pub fn run_law()
    ensures { a_run_goes_on_from_the_opened_past }
{}

/// Each front of them holds that past up to the greatest timestamp of the front.
pub fn front_law()
    ensures { each_front_holds_its_writes }
{}

/// A crash while a batch is out, or after its append failed, leaves the opened past with the writes up to some
/// timestamp, each durable write among them.
pub fn crash_law()
    ensures { a_crash_leaves_the_past_up_to_a_time }
{}

/// The same of the log of an engine while a pass has it out, or after its append failed.
pub fn side_law<L: Disk>()
    ensures { a_crash_keeps_each_durable_write L L.seen }
{}
