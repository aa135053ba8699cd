//! Laws of the definitions, each the contract of a function that does nothing.
ghost use Rattle.kt_dup.specs.Laws.{what_is_written_is_split, a_change_to_the_input_is_missed, a_change_to_both_keeps_the_split, a_split_tells_what_is_missed, what_is_put_in_is_missed_no_more, where_nothing_is_missed_both_are_alike};

/// Outputs are split from their inputs once they are written.
pub fn written_law()
    ensures { what_is_written_is_split }
{}

/// A change to the input alone is missed.
pub fn input_law()
    ensures { a_change_to_the_input_is_missed }
{}

/// A change to both sides keeps the split.
pub fn both_law()
    ensures { a_change_to_both_keeps_the_split }
{}

/// The split tells what is missed.
pub fn missed_law()
    ensures { a_split_tells_what_is_missed }
{}

/// What is put in is missed no more.
pub fn put_in_law()
    ensures { what_is_put_in_is_missed_no_more }
{}

/// Where nothing is missed, the outputs are alike to the inputs.
pub fn alike_law()
    ensures { where_nothing_is_missed_both_are_alike }
{}
