//! The log of a tablet: records in frames, each behind a gate byte that is opened once the frame is durable.
//!
//! For the layers above: an append makes its records durable with two syncs, and a crash at any moment of it leaves
//! the old records, or the old and the new. Opening gives the records of the log, or the place of its first fault.
//! `Waiting` are the writes of a log that wait for their COMMIT, for those who go through its records.
//! It stands on kt_disk and kt_records.
#![tactic(auto)]

mod append;
mod journal;
mod opening;
mod order;
mod reading;
mod refusal;
mod spell;
mod waiting;

// The log is file 1.
const LOG: u64 = 1;

pub use journal::{Journal, open_journal};
pub use refusal::{AppendNo, JournalNo};
pub use waiting::Waiting;
