//! The words that every layer speaks: cells and byte strings, the two refusals that any call may meet,
//! the limits, and the outside world as traits. It stands on kt_bytes.
//!
//! For the layers above: a call on the outside answers `Failed` only where the outside's count of faults rose.
#![tactic(auto)]

pub mod cell;
pub mod cell_ref;
pub mod chore;
pub mod clock;
pub mod key;
pub mod limits;
pub mod lists;
pub mod literal;
pub mod memory;
pub mod outside;
mod plain;
pub mod refusal;

pub use cell::{Cell, Cells, Kind, Row};
pub use cell_ref::CellRef;
pub use chore::Chore;
pub use clock::MemClock;
pub use kt_bytes::{NoMemory, Octets};
pub use lists::{CallList, ReadingList};
pub use memory::{MemSink, MemSource};
pub use outside::{Clock, Sink, Source};
pub use refusal::Failed;
