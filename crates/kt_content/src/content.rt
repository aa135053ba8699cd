//! Laws of content: what the stores of an opening make of a log, key by key.
ghost use Rattle.kt_content.specs.Content.{a_fresh_tablet_is_empty, what_stores_have_passes, same_histories_show_the_same, contents_show_the_same};
ghost use Rattle.kt_content.specs.Rules.{rows_of_a_history_pass};
ghost use Rattle.kt_content.specs.BareLog.{the_bare_log_is_the_empty_superblock, the_empty_superblock_is_the_bare_log};
ghost use Rattle.kt_content.specs.Agreement.{moves_that_agree_are_played, what_is_played_agrees};

/// A fresh tablet holds the empty past.
pub fn fresh_law()
    ensures { a_fresh_tablet_is_empty }
{}

/// What the replay of a log alone makes of an empty table is its content under the superblock of a fresh tablet.
pub fn bare_log_law()
    ensures { the_bare_log_is_the_empty_superblock }
{}

/// And a log with a content under it is replayed alone, to a past of which each key has the same history.
pub fn log_alone_law()
    ensures { the_empty_superblock_is_the_bare_log }
{}

/// Moves that agree with the stores which they make are what the log makes of them.
pub fn agree_law()
    ensures { moves_that_agree_are_played }
{}

/// And what the log makes of them is made by moves that agree with it.
pub fn played_law()
    ensures { what_is_played_agrees }
{}

/// What each store of a content has of a key the rules of the table take.
pub fn passes_law()
    ensures { what_stores_have_passes }
{}

/// And so they take its row at each time, also without some of its changes.
pub fn rows_pass_law()
    ensures { rows_of_a_history_pass }
{}

/// Pasts of which each key has the same history show the same, so that no run tells them apart.
pub fn same_law()
    ensures { same_histories_show_the_same }
{}

/// And so do all pasts that a superblock and records hold: there is one content at most.
pub fn one_content_law()
    ensures { contents_show_the_same }
{}
