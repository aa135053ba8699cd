//! Laws of the definitions.
ghost use Rattle.kt_files.specs.Laws.{rowsets_tell_their_files, files_hold_one, same_files_hold_the_same};

/// What a superblock and its files say of a rowset is what these files tell, behind the last DeltaMemStore that they hold.
pub fn content_law()
    ensures { rowsets_tell_their_files }
{}

/// The files that a superblock names hold one thing.
pub fn holding_law()
    ensures { files_hold_one }
{}

/// What they hold depends on no other file.
pub fn same_law()
    ensures { same_files_hold_the_same }
{}
