//! The checker of one run: it reads a script, an opening and an output, and says whether the output is that of a run of the
//! script from the opening.
//!
//! For the layers above: `check_main` takes the words of its command line, reads a source and writes its answer, whose status
//! it returns. It stands on the judge of kt_judge, the openings of kt_opening and the scripts of kt_script.
#![tactic(auto)]

pub mod answer;
pub mod check;
mod pool;
mod source;

pub use answer::Answer;
pub use check::{answer_to, check_main};
