//! The clock of writes: timestamps, the writes that fly, the keys that they hold, and the ancient history mark.
//!
//! For the layers above: timestamps, marks and waits are those of the tablet machine in `kt_history`, and after
//! `reserve` a write that need not wait begins. It stands on the words of `kt_base` and the definitions of `kt_history`.
#![tactic(auto)]

pub mod flier;
pub mod flight;
mod held;

pub use flier::{Flier, KeyList};
pub use flight::{Flight, MvccNo};
