//! Scans: the rows at a time, of several views at once, by rising key, filtered and cut to the selected columns.
//!
//! For the layers above: `run` shows what the tablet machine's reply shows of the rows that live in the views. It
//! stands on the views of `kt_history`, the keys of `kt_key` and the columns of `kt_schema`.
#![tactic(auto)]

mod asked;
mod cells;
mod key_cells;
mod keys;
mod kinds;
pub mod laws;
mod row;
mod scanning;
mod tested;

pub use kinds::kinds_shown;
pub use scanning::run;
