//! What the log and the store of a tablet hold together, and the stores that they make.
//!
//! For the layer above, which makes an engine of them: `open_devices` reads the slots, the log and the data files, and does the
//! writes of the log again on a MemRowSet and the disk rowsets of the superblock; or it tells why both devices are refused. `laws`
//! say what the stores are, and that they show the past which both devices hold. It stands on the log (kt_journal), the
//! superblock (kt_super), the data files (kt_files), the stores (kt_stores), and on what content is (kt_content).
#![tactic(auto)]

pub mod commits;
pub mod devices;
pub mod first;
pub mod laws;
pub mod needed;
pub mod numbers;
pub mod opened;
pub mod records;
mod replaying;
mod stores;
pub mod superblock;
pub mod tables;
pub mod why;

pub use opened::{Opened, open_devices};
pub use superblock::Superblock;
pub use why::Why;
