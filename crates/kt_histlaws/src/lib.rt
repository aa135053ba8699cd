//! What an engine keeps of the run that it stands for, as laws over histories alone.
//!
//! The definitions are in `specs/`, and each law of `laws` is the contract of a function that does nothing. It stands on kt_base and
//! kt_history.
#![tactic(auto)]

pub mod laws;
