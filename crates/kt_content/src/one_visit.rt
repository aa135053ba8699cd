//! Laws of a job while nothing flies and every record is durable.
ghost use Rattle.kt_content.specs.DeltaFlushes.{a_delta_flush_publishes_at_rest};
ghost use Rattle.kt_content.specs.Flushes.{a_flush_publishes_at_rest, a_flush_stands};
ghost use Rattle.kt_content.specs.WrittenRows.{a_written_row_passes};
ghost use Rattle.kt_content.specs.OneVisit.{operations_that_go_on_carry_over, each_operation_goes_on, what_goes_on_stays_above_the_files, a_superblock_published_at_rest_stands};

/// Operations whose names go on carry over.
pub fn going_law()
    ensures { operations_that_go_on_carry_over }
{}

/// And so they do where each name is of a store that the job leaves, or is needed no more.
pub fn going_names_law()
    ensures { each_operation_goes_on }
{}

/// Their changes stay above the REDO files.
pub fn going_above_law()
    ensures { what_goes_on_stays_above_the_files }
{}

/// The superblock that is published then stands.
pub fn at_rest_law()
    ensures { a_superblock_published_at_rest_stands }
{}

/// What is written of a history that passes does too.
pub fn written_law()
    ensures { a_written_row_passes }
{}

/// What a flush publishes.
pub fn flush_law()
    ensures publishes { a_flush_publishes_at_rest }
    ensures stands { a_flush_stands }
{}

/// What a delta flush publishes.
pub fn delta_flush_law()
    ensures { a_delta_flush_publishes_at_rest }
{}
