//! Laws of a flush and of a compaction that change over, and of a job that writes one disk rowset again.
ghost use Rattle.kt_joblaws.specs.ChangesOver.{a_flush_changes_over};
ghost use Rattle.kt_joblaws.specs.Compacts.{a_compaction_changes_over, a_rowset_of_columns_tells, a_compaction_reads_no_fault, what_is_taken_passes};
ghost use Rattle.kt_joblaws.specs.Written.{written_rowsets_are_the_same, written_rowsets_pass, named_rowsets_tell};
ghost use Rattle.kt_joblaws.specs.Outputs.{outputs_pass, lists_tell_all, lists_rise, marks_may_rise};
ghost use Rattle.kt_joblaws.specs.Apart.{stores_that_stand_are_apart, some_are_apart, those_are_apart, a_joined_history_is_shown, a_flush_reads_no_fault};
ghost use Rattle.kt_joblaws.specs.InMemory.{what_memory_has_passes};
ghost use Rattle.kt_joblaws.specs.Late.{what_was_read_has_nothing_later, a_change_comes_later, late_changes_are_apart, late_changes_make_alike, late_changes_pass, late_outputs_are_alike, a_late_output_passes, outputs_have_a_key_once};
ghost use Rattle.kt_joblaws.specs.Beside.{alike_beside, alike_in_turn, sound_beside, numbers_differ_beside, passing_beside, each_part_is_apart, each_part_passes};
ghost use Rattle.kt_joblaws.specs.DeltaJobs.{a_rewritten_rowset_stands, a_rowset_of_passing_histories_passes, histories_of_passing_rowsets_pass};

/// The superblock of a flush stands over the stores with its outputs.
pub fn change_over_law()
    ensures { a_flush_changes_over }
{}

/// What is written of histories that pass the rules of a table passes them.
pub fn outputs_pass_law()
    ensures { outputs_pass }
{}

/// What is listed of stores in memory is all that they have.
pub fn lists_law()
    ensures { lists_tell_all }
{}

/// What is alike or sound from a mark on is so from a later one on.
pub fn rise_law()
    ensures { marks_may_rise }
{}

/// Once their files are written, merged disk rowsets have the same histories and pass the rules of the table as they did, and a superblock with
/// their files tells them.
pub fn written_law()
    ensures same { written_rowsets_are_the_same }
    ensures pass { written_rowsets_pass }
    ensures told { named_rowsets_tell }
{}

/// What is listed stands by rising key.
pub fn rising_law()
    ensures { lists_rise }
{}

/// The stores of an engine that stands are apart, and have no change above its last timestamp.
pub fn apart_law()
    ensures { stores_that_stand_are_apart }
{}

/// Stores that are apart show one history of a key, the joined one; and some of them are apart.
pub fn joined_law()
    ensures shown { a_joined_history_is_shown }
    ensures some { some_are_apart }
    ensures those { those_are_apart }
{}

/// What a flush reads of stores that are apart, changes of its table, has no fault.
pub fn read_law()
    ensures { a_flush_reads_no_fault }
{}

/// And where a superblock and a log hold a past by the rules of the table, it passes them.
pub fn memory_law()
    ensures { what_memory_has_passes }
{}

/// The superblock of a job that writes the files of one disk rowset again stands over the same stores.
pub fn rewrite_law()
    ensures { a_rewritten_rowset_stands }
{}

/// A disk rowset passes the rules of a table where each of its histories does, and the other way round.
pub fn passing_law()
    ensures passes { a_rowset_of_passing_histories_passes }
    ensures back { histories_of_passing_rowsets_pass }
{}

/// The superblock of a compaction stands over the stores with its outputs in the place of the disk rowsets that it took.
pub fn compact_law()
    ensures { a_compaction_changes_over }
{}

/// A disk rowset of the columns of a table, whose changes stand in order, tells the table.
pub fn telling_law()
    ensures { a_rowset_of_columns_tells }
{}

/// What a compaction reads of disk rowsets that are apart, changes of its table in their order, has no fault.
pub fn merge_law()
    ensures { a_compaction_reads_no_fault }
{}

/// And where a superblock and a log hold a past by the rules of the table, it passes them.
pub fn taken_law()
    ensures { what_is_taken_passes }
{}

/// Outputs that were written of what was read show with the changes that came later what the stores show now.
pub fn late_law()
    ensures read { what_was_read_has_nothing_later }
    ensures more { a_change_comes_later }
    ensures apart { late_changes_are_apart }
    ensures alike { late_changes_make_alike }
    ensures pass { late_changes_pass }
    ensures outputs { late_outputs_are_alike }
    ensures passes { a_late_output_passes }
    ensures once { outputs_have_a_key_once }
{}

/// Outputs that were written of two parts of what a job takes are, side by side, outputs of both; and of inputs that are apart each part is,
/// and passes the rules of the table where both do.
pub fn beside_law()
    ensures alike { alike_beside }
    ensures turned { alike_in_turn }
    ensures sound { sound_beside }
    ensures differ { numbers_differ_beside }
    ensures pass { passing_beside }
    ensures apart { each_part_is_apart }
    ensures parts { each_part_passes }
{}
