//! The locked value of a tablet: its rows, its clock and the writes that fly, beside the log and what waits for it.
//!
//! For the layers above: each event adds exactly its line to the history and keeps that the engine stands for a run, and
//! that a crash leaves the run's writes up to a time, each acknowledged one among them.
#![tactic(auto)]

pub mod again;
mod away;
pub mod delta_job;
pub mod engine;
mod filled;
mod fitting;
mod images;
pub mod job;
mod job_meta;
pub mod laws;
pub mod log;
pub mod now;
pub mod outputs;
pub mod round;
mod running;
pub mod scan;
pub mod session;
pub mod shared;
pub mod stats;
pub mod store;
mod telling;
pub mod upkeep;
pub mod write;

pub use again::MemsNow;
pub use engine::{Engine, Found, Parts};
pub use job::{JobInput, JobNo, JobWait, MaintNo, Returned};
pub use kt_pick::{Stats, Want};
pub use kt_reopen::Superblock;
pub use kt_tablet::{BeginNo, Copied, LookNo, ReadView, Snap, SnapNo, Stopped};
pub use log::{Broken, LogNo};
pub use round::WantList;
pub use shared::Part;
pub use stats::Pulse;
pub use store::{Purpose, StoreNo};
pub use write::{Draft, WriteDone};
