//! Which rowsets to compact together under a budget. A set gains the ranks that its members span one by one, less those
//! that they span together; a best set gains most among the sets that the budget pays for.
//!
//! For the layer above: `best` gives a best set with the table of sums that it was found by, and `accepts` says of any
//! set and table whether they are right. It stands on kt_base, and on `arrayvec` for lists that need no memory.
#![tactic(auto)]

pub mod candidate;
mod checking;
mod choosing;
mod filling;
pub mod laws;
mod order;
pub mod picking;
pub mod table;

pub use candidate::{Candidate, CandidateList, IdList};
pub use picking::{Picked, accepts, best};
pub use table::{Part, Sums, Table};
