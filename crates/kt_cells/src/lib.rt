//! Cells and lists of cells as the log, the pool and the files spell them: read in place or as copies, and written behind
//! other bytes.
//!
//! For the layers above: the one spelling of a list of cells, by its definitions in `specs/`, and `CellsRef`, which reads
//! it where it lies. It stands on kt_bytes and kt_base.
#![tactic(auto)]

mod cells_ref;
pub mod fields;
pub mod laws;
pub mod lists;
mod tail;
pub mod writing;

pub use cells_ref::CellsRef;
pub use tail::Tail;
