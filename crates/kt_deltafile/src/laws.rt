//! Laws of the definitions.

ghost use Rattle.kt_deltafile.specs.Laws.{spelling_is_read, files_are_sorted};

/// What is spelled is read again, so no two files have one spelling.
pub fn spelling_law()
    ensures { spelling_is_read }
{}

/// The records of a file are strictly sorted by ordinal, and those of a row by timestamp, in the order of its way.
pub fn order_law()
    ensures { files_are_sorted }
{}
