//! Laws of the definitions.

ghost use Rattle.kt_records.specs.Laws.{spelling_is_read, operation_has_its_length, first_faults_are_told};

/// What is spelled is read again, so no two records have one spelling.
pub fn spelling_law()
    ensures { spelling_is_read }
{}

/// An operation's spelling is as long as the operation counts in the log.
pub fn length_law()
    ensures { operation_has_its_length }
{}

/// The place that `record_of` tells is the first fault by the spellings alone, and each first fault is told.
pub fn place_law()
    ensures { first_faults_are_told }
{}
