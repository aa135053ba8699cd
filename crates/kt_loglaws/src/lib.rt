//! What the log of an engine holds, as laws over lists of records.
//!
//! For the layers above: while several writes fly, their COMMITs come late and in any order. Whatever front of the
//! records a crash leaves, the log holds the past up to a timestamp. It stands on kt_journal.
#![tactic(auto)]

pub mod laws;
mod side;

pub use side::{Batch, LogNo, LogSide};
