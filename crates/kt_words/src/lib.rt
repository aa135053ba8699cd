//! The words of the command line.
//!
//! For the layers above: `read_words` says what the words of a run set, or that they are not in the form; `number_said` reads a
//! number of one word. It stands on `clap`.
#![tactic(auto)]

pub mod laws;
pub mod number;
pub mod run;

pub use number::number_said;
pub use run::{Settings, WordsNo, read_words};
