//! Laws of the definitions, each the contract of a function that does nothing.

ghost use Rattle.kt_histlaws.specs.Laws.{begin_keeps_standing, look_keeps_standing, apply_keeps_standing, end_keeps_standing, rows_keep_standing, ancient_keeps_standing, busy_keeps_standing, mark_keeps_standing, chore_keeps_standing, large_keeps_standing, stop_keeps_standing, opened_stands, outcomes_are_the_runs, snapshots_show_the_run, changes_lie_in_order, one_is_live_at_most, no_other_is_live, other_parts_stay, finish_shows_the_same, missed_makes_alike, both_stay_alike, missed_stay_between, any_may_come_first, disk_rows_are_histories, stores_show_one_past, stores_show_one_change};

/// A write that begins keeps the engine standing for its run.
pub fn begin_law()
    ensures { begin_keeps_standing }
{}

/// A scan of the present that draws its time keeps it.
pub fn look_law()
    ensures { look_keeps_standing }
{}

/// A row that is applied keeps it, in a store beside which none has the key live.
pub fn apply_law()
    ensures { apply_keeps_standing }
{}

/// A write that ends, all its rows applied, keeps it.
pub fn end_law()
    ensures { end_keeps_standing }
{}

/// A scan that is answered keeps it.
pub fn rows_law()
    ensures { rows_keep_standing }
{}

/// A scan below the mark keeps it.
pub fn ancient_law()
    ensures { ancient_keeps_standing }
{}

/// A scan that a flying write stands in the way of keeps it.
pub fn busy_law()
    ensures { busy_keeps_standing }
{}

/// A mark that rises keeps it.
pub fn mark_law()
    ensures { mark_keeps_standing }
{}

/// A maintenance command that is answered keeps it.
pub fn chore_law()
    ensures { chore_keeps_standing }
{}

/// A write that is too large keeps it.
pub fn large_law()
    ensures { large_keeps_standing }
{}

/// The stop keeps it.
pub fn stop_law()
    ensures { stop_keeps_standing }
{}

/// An engine stands once it is opened.
pub fn opening_law()
    ensures { opened_stands }
{}

/// What becomes of a row in the stores is what the run says.
pub fn outcome_law()
    ensures { outcomes_are_the_runs }
{}

/// What the stores show is the run.
pub fn snapshot_law()
    ensures { snapshots_show_the_run }
{}

/// What is still to be applied comes after all that its key has.
pub fn waiting_law()
    ensures { changes_lie_in_order }
{}

/// A key is live in one store at most.
pub fn live_law()
    ensures { one_is_live_at_most }
{}

/// Beside a store that has it live, none has.
pub fn target_law()
    ensures { no_other_is_live }
{}

/// An event changes the part of its own session alone.
pub fn part_law()
    ensures { other_parts_stay }
{}

/// A finished job never shows.
pub fn finish_law()
    ensures { finish_shows_the_same }
{}

/// The missed changes make the outputs of a job like its inputs.
pub fn swap_law()
    ensures { missed_makes_alike }
{}

/// A change to both sides keeps them alike.
pub fn both_law()
    ensures { both_stay_alike }
{}

/// The missed changes stay between the written and the duplicated ones.
pub fn between_law()
    ensures { missed_stay_between }
{}

/// The order of the stores shows nothing.
pub fn order_law()
    ensures { any_may_come_first }
{}

/// A disk row is its history.
pub fn disk_law()
    ensures { disk_rows_are_histories }
{}

/// Stores show one past.
pub fn content_law()
    ensures { stores_show_one_past }
{}

/// And one change of each key at each time.
pub fn change_law()
    ensures { stores_show_one_change }
{}
