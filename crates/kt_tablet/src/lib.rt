//! The tablet as one value: its stores of rows and their pool, its clock, the writes that fly, its history and where each
//! session stands.
//!
//! For the layers above: a tablet is the engine of `kt_histlaws`, which stands for a run of its workload. Each event
//! adds exactly its line and keeps that it stands.
#![tactic(auto)]

mod amend;
pub mod need;
pub mod new_write;
mod reading;
pub mod snap;
pub mod snap_view;
pub mod tablet;
mod turns;

pub use new_write::NewWrite;
pub use snap::{Copied, ReadView, Snap, SnapList};
pub use snap_view::SnapView;
pub use tablet::rows::WriteEnd;
pub use tablet::scan::SnapNo;
pub use tablet::write::BeginNo;
pub use tablet::{LookNo, Stopped, Tablet};
