//! What a background worker does next: the first of five rules that applies to the stores of a tablet. In the manner of
//! Kudu's maintenance manager: what frees memory comes first, then what makes reading cheaper.
//!
//! For the layer above: `pick` gives the first rule that applies, and nothing exactly where none does. It stands on
//! `kt_bytes`, and on `kt_policy` for lists of rowset numbers.
#![tactic(auto)]

pub mod rules;
pub mod stats;

pub use rules::{Want, pick};
pub use stats::{RowSetStat, StatList, Stats};
