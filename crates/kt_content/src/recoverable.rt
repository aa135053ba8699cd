//! Laws of what can be recovered: each event of an engine keeps it, under each superblock.
ghost use Rattle.kt_content.specs.Keeping.{a_fresh_tablet_stands, opened_stores_mirror, an_opened_tablet_stands, a_begin_keeps_a_superblock, a_look_keeps_a_superblock, an_applied_row_keeps_a_superblock, a_row_without_a_change_keeps_a_superblock, an_end_keeps_a_superblock, durable_records_keep_a_superblock, alike_stores_keep_a_superblock, other_stores_keep_a_superblock, a_store_that_stands_for_none_is_in_no_group, a_freeze_keeps_a_superblock, a_frozen_memrowset_keeps_numbers_fresh, a_frozen_deltamemstore_keeps_numbers_fresh, outputs_keep_numbers_fresh, stores_that_go_keep_numbers_fresh, a_job_keeps_numbers_fresh, what_stands_goes_over, a_lent_superblock_stands, a_lent_superblock_is_recoverable, a_superblock_that_comes_home_is_recoverable, what_keeps_each_superblock_keeps_all};

/// What a fresh tablet has can be recovered.
pub fn fresh_law()
    ensures { a_fresh_tablet_stands }
{}

/// Opened stores mirror what the opening has of a key.
pub fn opened_mirror_law()
    ensures { opened_stores_mirror }
{}

/// And what a tablet that is opened has can be recovered.
pub fn opened_law()
    ensures { an_opened_tablet_stands }
{}

/// A write begins.
pub fn begin_law()
    ensures { a_begin_keeps_a_superblock }
{}

/// A scan takes a timestamp.
pub fn look_law()
    ensures { a_look_keeps_a_superblock }
{}

/// A row of a flying write is applied.
pub fn row_law()
    ensures { an_applied_row_keeps_a_superblock }
{}

/// So it is where it makes no change.
pub fn unchanged_row_law()
    ensures { a_row_without_a_change_keeps_a_superblock }
{}

/// A write ends, and its COMMIT is queued.
pub fn end_law()
    ensures { an_end_keeps_a_superblock }
{}

/// Records come home durable.
pub fn durable_law()
    ensures { durable_records_keep_a_superblock }
{}

/// Stores that show the same take the place of others.
pub fn alike_law()
    ensures { alike_stores_keep_a_superblock }
{}

/// Stores that stand for no place come, change and go.
pub fn others_law()
    ensures { other_stores_keep_a_superblock }
{}

/// Such a store is in no group.
pub fn no_group_law()
    ensures { a_store_that_stands_for_none_is_in_no_group }
{}

/// A store comes that has nothing.
pub fn freeze_law()
    ensures { a_freeze_keeps_a_superblock }
{}

/// Numbers stay fresh as stores freeze, come and go, and under the superblock that a job would publish.
pub fn numbers_law()
    ensures memrowset { a_frozen_memrowset_keeps_numbers_fresh }
    ensures deltamemstore { a_frozen_deltamemstore_keeps_numbers_fresh }
    ensures outputs { outputs_keep_numbers_fresh }
    ensures gone { stores_that_go_keep_numbers_fresh }
    ensures job { a_job_keeps_numbers_fresh }
{}

/// What stands of a key and a job's own of it are what a job that may be lent asks for.
pub fn over_law()
    ensures { what_stands_goes_over }
{}

/// A superblock is lent for publishing.
pub fn lent_law()
    ensures { a_lent_superblock_stands }
{}

/// Then there are two.
pub fn both_law()
    ensures { a_lent_superblock_is_recoverable }
{}

/// The device comes home, and there is one again.
pub fn home_law()
    ensures { a_superblock_that_comes_home_is_recoverable }
{}

/// What keeps each superblock keeps all that can be recovered.
pub fn all_law()
    ensures { what_keeps_each_superblock_keeps_all }
{}
