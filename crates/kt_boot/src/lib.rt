//! Opening a tablet on both its devices: what a crash has left, made into an engine again.
//!
//! For the layers above: `open_tablet` makes an engine of the log's device and the store's, which goes on from each past that
//! both hold together, or tells why they are refused. It stands on kt_reopen, which makes the stores of both, on kt_tablet and on
//! kt_engine.
#![tactic(auto)]

mod tablet;

pub use kt_reopen::Why;
pub use tablet::{Closed, open_tablet};
