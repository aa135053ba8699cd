//! The data files of a store: reading those that a superblock names, writing a new one, and removing the others.
//!
//! For the layers above: `read_rowsets` tells the disk rowsets that a superblock's files hold, or the first file at fault and its
//! first fault. `write_file` makes a new file that no crash takes back, and `remove_others` removes each file that is not
//! named. A crash at any moment of each call leaves all other files as they were. It stands on kt_disk for the files, on
//! kt_super for what a superblock names, and on kt_baseset and kt_deltafile for what the files say.
#![tactic(auto)]

// What `?` gives where the error stays as it is, with no conversion to be proved.
macro_rules! tri {
    ($result:expr) => {
        match $result {
            Ok(value) => value,
            Err(error) => return Err(error),
        }
    };
}

mod bases;
mod bytes;
mod deltas;
pub mod laws;
pub mod refusal;
mod removing;
pub mod rowsets;
mod writing;

pub use refusal::{FilesNo, RemoveNo};
pub use removing::remove_others;
pub use rowsets::{RowSets, read_rowsets};
pub use writing::write_file;
