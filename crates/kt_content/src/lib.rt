//! What a superblock and the records of a log hold together, as laws over lists.
//!
//! For the layers above: disk rowsets, replay, content, and what becomes of it where a record joins the log, where it is opened, and where a
//! job's outputs take the place of its inputs. Each key is looked at by itself. It stands on kt_histlaws and kt_loglaws.
#![tactic(auto)]

pub mod content;
pub mod crashes;
pub mod jobs;
pub mod lent_superblock;
pub mod log_records;
pub mod memory;
pub mod new_superblock;
pub mod one_visit;
pub mod recoverable;
pub mod replaying;
pub mod run;
pub mod writing;
