//! Laws of the stores in memory beside those of an opening.
ghost use Rattle.kt_content.specs.InMemory.{live_stores_stand_for_live_places, both_sides_mirror, an_unnamed_store_mirrors, inputs_in_memory_are_those_of_the_content, alike_to_one_are_alike, another_superblock_mirrors};
ghost use Rattle.kt_content.specs.Applying.{an_applied_change_mirrors, an_operation_without_a_change_mirrors};
ghost use Rattle.kt_content.specs.StoreChanges.{a_store_is_its_files_and_its_changes, a_duplicated_change_fits, the_live_store_has_the_change, other_stores_end_the_same, a_move_stands};

/// The store in memory that has a key live stands for the place that has it live.
pub fn live_law()
    ensures { live_stores_stand_for_live_places }
{}

/// A change of a store and of the place that it stands for keeps both alike.
pub fn both_law()
    ensures { both_sides_mirror }
{}

/// And so does one of a store that stands for none.
pub fn unnamed_law()
    ensures { an_unnamed_store_mirrors }
{}

/// A row of a flying write is applied, and the stores in memory mirror the content with it.
pub fn applied_law()
    ensures { an_applied_change_mirrors }
{}

/// So they do where it makes no change.
pub fn unchanged_law()
    ensures { an_operation_without_a_change_mirrors }
{}

/// What a job reads in memory is what the content has of its inputs.
pub fn inputs_law()
    ensures { inputs_in_memory_are_those_of_the_content }
{}

/// Two lists that are alike to one are alike.
pub fn alike_law()
    ensures { alike_to_one_are_alike }
{}

/// Another superblock, and other stores in memory.
pub fn mirror_law()
    ensures { another_superblock_mirrors }
{}

/// The content of a store is its files and the changes that go to it.
pub fn files_law()
    ensures { a_store_is_its_files_and_its_changes }
{}

/// A duplicated change fits an output that has it.
pub fn duplicated_law()
    ensures { a_duplicated_change_fits }
{}

/// The store that has an operation's change is the one to which it goes without a COMMIT.
pub fn live_change_law()
    ensures { the_live_store_has_the_change }
{}

/// The stores that a job leaves end the same.
pub fn others_law()
    ensures { other_stores_end_the_same }
{}

/// A change that goes to a store whose changes rise stands there.
pub fn stands_law()
    ensures { a_move_stands }
{}
