//! Laws of opening, each the contract of a function that does nothing.
ghost use Rattle.kt_reopen.specs.Laws.{files_are_the_first_stores, superblocks_that_name_the_same_open_the_same, a_content_is_opened, what_both_hold_is_found, owed_commits_are_told, a_log_goes_on_with_what_it_owes, opened_numbers_are_fresh};

/// Where UNDO records fit, stores begin with what the content of each key begins with.
pub fn first_law()
    ensures { files_are_the_first_stores }
{}

/// Superblocks that name the same open the same.
pub fn names_law()
    ensures { superblocks_that_name_the_same_open_the_same }
{}

/// A superblock and a log that hold a past make stores which show it.
pub fn content_law()
    ensures { a_content_is_opened }
{}

/// What two images hold is found.
pub fn found_law()
    ensures { what_both_hold_is_found }
{}

/// The COMMITs that a log owes tell what became of their writes.
pub fn owed_law()
    ensures { owed_commits_are_told }
{}

/// A log goes on with what it owes.
pub fn order_law()
    ensures { a_log_goes_on_with_what_it_owes }
{}

/// The numbers of opened stores are fresh.
pub fn numbers_law()
    ensures { opened_numbers_are_fresh }
{}
