//! The judge of one run: whether an output is that of a run of a script from a listed opening, and else where it first
//! is not.
//!
//! For the layers above: `judge` gives the verdict on an output, exactly by `IsVerdict`: it is that of a run, or the first
//! line of its history that is not allowed, the first reply that is not the run's, or that its last line is not. `first_fault`
//! tells the first of these alone. It stands on the machine of kt_history, the scripts of kt_script and the scans of
//! kt_scan, and on nothing of the engine.
#![tactic(auto)]

mod end;
mod follow;
mod grown;
pub mod history;
pub mod judging;
mod keys;
mod lists;
mod machine;
pub mod opening;
mod replies;
mod rows;
mod table;
mod turn;
pub mod verdict;
mod versions;
mod view;
mod walk;
mod writes;
mod wrong;

pub use history::first_fault;
pub use judging::judge;
pub use opening::{Opening, OpeningWrite};
pub use verdict::Verdict;
