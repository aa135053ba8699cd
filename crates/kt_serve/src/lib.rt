//! Sessions over one tablet in a seat lock: each command by visits of its own pass.
#![tactic(auto)]

mod chores;
mod close;
mod home;
mod log;
mod places;
mod replies;
mod rows;
mod run;
mod scan;
mod session;
mod shown;
mod tablet;
mod visits;

pub use chores::Chores;
pub use close::{Closing, End};
pub use log::Halt;
pub use replies::SessionReplies;
pub use run::{Ran, run_sessions};
pub use session::{SessionEnd, run_session};
pub use tablet::SharedTablet;
