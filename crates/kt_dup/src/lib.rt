//! What stands in place of a job's inputs from its swap to its end: each change of one of their rows goes to the input that has
//! it and to the output that has it, so that either side may be the one that stays.
//!
//! For the layer above: `Dup`, one input beside one output, and the split that it keeps, for each key and each mark at or below
//! the bound. Once the missed changes are put in, the outputs show from the mark on what the inputs show; what the outputs' files
//! have lies up to the bound, the missed changes above it, and the changes of both sides above those; and no insert comes.
//!
//! A job of several inputs and outputs takes a pair for each change. One input at most has the row, since no two stores of a
//! tablet have a key live at one time, and the output is the one whose range of keys holds it, since the keys rise from output to
//! output: so `apply_to_both` is handed these two, and the law of the split says what that does to all of them. What was
//! missed is asked of each input, with the outputs as one store that looks for a key in the output of its range.
//!
//! It stands on histories of rows and on what a store of rows is, and on the stores of a job, the MemRowSet and the disk rowset.
#![tactic(auto)]

pub mod both;
pub mod dup;
pub mod laws;
pub mod missed;
mod stores;

pub use both::apply_to_both;
pub use dup::Dup;
pub use missed::{FirstAbove, ListsAbove, MissedChanges, missed_changes};
