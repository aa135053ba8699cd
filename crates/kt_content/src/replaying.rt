//! Laws of opening.
ghost use Rattle.kt_content.specs.Opening.{opened_stores_are_the_content, an_opening_that_stops_has_no_content, the_writes_of_a_log_have_rows};

/// Opened stores have of each key what its content says.
pub fn opening_law()
    ensures { opened_stores_are_the_content }
{}

/// An opening that stops has no content.
pub fn opening_stops_law()
    ensures { an_opening_that_stops_has_no_content }
{}

/// The writes of a log are on different keys, and their COMMITs have a row for each operation.
pub fn writes_law()
    ensures { the_writes_of_a_log_have_rows }
{}
