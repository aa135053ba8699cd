//! Laws of a job's outputs that take the place of its inputs.
ghost use Rattle.kt_content.specs.Publishing.{a_job_in_one_step_carries_over, outputs_show_what_inputs_showed, a_job_in_two_phases_carries_over};
ghost use Rattle.kt_content.specs.Replacing.{a_raised_past_is_shown, a_raised_past_is_one, records_and_marks_change_places, a_job_in_one_step_publishes_the_same, a_job_in_two_phases_publishes_the_same, each_key_held_is_a_content, a_flying_operation_is_held_too};
ghost use Rattle.kt_content.specs.TwoPhases.{ways_replace_a_key};
ghost use Rattle.kt_content.specs.Successors.{other_rowsets_are_the_same, other_stores_are_needed_as_before, each_operation_carries_over, changes_stay_above_the_files};

/// A job in one step carries over.
pub fn one_step_law()
    ensures { a_job_in_one_step_carries_over }
{}

/// Outputs alike to the inputs show what these showed.
pub fn outputs_law()
    ensures { outputs_show_what_inputs_showed }
{}

/// A job in two phases carries over.
pub fn two_phase_law()
    ensures { a_job_in_two_phases_carries_over }
{}

/// What stores show from a later mark on they show of the past told from there on.
pub fn raised_shown_law()
    ensures { a_raised_past_is_shown }
{}

/// A past told from a later mark on is one.
pub fn raised_law()
    ensures { a_raised_past_is_one }
{}

/// Records more and a later mark come in either order.
pub fn marks_law()
    ensures { records_and_marks_change_places }
{}

/// A job in one step publishes a superblock that holds the same.
pub fn publish_once_law()
    ensures { a_job_in_one_step_publishes_the_same }
{}

/// And so does a job in two phases.
pub fn publish_law()
    ensures { a_job_in_two_phases_publishes_the_same }
{}

/// What each COMMIT names is enough for that.
pub fn ways_law()
    ensures { ways_replace_a_key }
{}

/// A superblock that holds each key holds the past.
pub fn each_key_law()
    ensures { each_key_held_is_a_content }
{}

/// And an operation that flies too.
pub fn flying_law()
    ensures { a_flying_operation_is_held_too }
{}

/// The files of other rowsets are the same under both superblocks.
pub fn rest_law()
    ensures { other_rowsets_are_the_same }
{}

/// Other stores are needed as before.
pub fn needs_law()
    ensures { other_stores_are_needed_as_before }
{}

/// So each operation carries over.
pub fn carry_law()
    ensures { each_operation_carries_over }
{}

/// And each change of a DeltaMemStore lies above the REDO files as before.
pub fn above_law()
    ensures { changes_stay_above_the_files }
{}
