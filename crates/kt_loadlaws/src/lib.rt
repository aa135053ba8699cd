//! What a load comes to, as a law: its sessions write different keys, so every run of it ends with the same rows and the same outcomes.
//!
//! For the layer above, which prints a summary in place of what was answered. It stands on kt_script.
#![tactic(auto)]

pub mod laws;
