//! The top call: it reads a script, runs its commands and prints what came of them.
//!
//! Its contract is what a user relies on: the printed history is a run of the tablet machine from what both devices held,
//! each reply is that run's, and whatever a crash leaves of both holds every acknowledged write. Of a script that loads the same is true of the run, and its
//! summary is printed in place of the replies and the history. It stands on kt_words, kt_boot, kt_serve, kt_engine, kt_script and kt_loadlaws.
#![tactic(auto)]

mod chores;
mod kinds;
pub mod laws;
mod load;
pub mod run;
pub mod text;
pub mod top;

pub use top::tablet_main;
