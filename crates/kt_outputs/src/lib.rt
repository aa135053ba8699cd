//! The files of new disk rowsets: writing them, and naming them as a superblock does.
//!
//! For the layers above: `write_outputs` gives each rowset and each of its files the next number, and `write_rewritten` each file of a
//! rowset that has none yet, `write_again` of several. The files then hold the rowset,
//! as the disk reads and in whatever a crash leaves, and no other file has changed. It stands on kt_files for a file that no crash
//! takes back, and on kt_diskrowset for disk rowsets as plain data.
#![tactic(auto)]

pub mod again;
pub mod laws;
pub mod missed;
pub mod outputs;
pub mod rewriting;
pub mod whole;

pub use again::write_again;
pub use missed::MissedFiles;
pub use outputs::{NextNumbers, WriteNo, named_rowset, write_outputs};
pub use rewriting::write_rewritten;
pub use whole::is_whole;
