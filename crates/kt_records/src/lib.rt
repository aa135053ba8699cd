//! The two records of the log as bytes: a REPLICATE, which has a write's timestamp and operations, and a COMMIT,
//! which says what became of each operation and which stores it changed.
//!
//! For the layers above: `spell` appends the one spelling of a record, and `read_record` answers a record exactly
//! where its bytes are that spelling, or the place of the first fault. `LogRecords` are records that were read, which share
//! their lists. It stands on kt_bytes, kt_base, kt_cells and kt_history.
#![tactic(auto)]

pub mod entry;
pub mod fields;
pub mod front;
pub mod laws;
mod lists;
pub mod log_records;
mod reading;
mod writing;

pub use entry::{CommitRow, CommitRows, Entry, RecordList, TargetList};
pub use kt_bytes::CodecNo;
pub use log_records::{LogRecords, OpsRef, RecordRef};
pub use reading::read_record;
pub use writing::{put_entry_behind, spell};
