//! What the files of a disk rowset have of each row: its base row, and its records in UNDO and REDO files, put in order
//! whatever file they stand in; and what of a history is written to them.
//!
//! For the layers above: the definitions in `specs/` with their laws, and `RowRecords`, which gathers the records of one row where
//! they lie, does them to a row and takes those that a job wants. It stands on the definitions of changes and of histories.
#![tactic(auto)]

pub mod laws;
pub mod records;
pub mod taking;
pub mod undo_fit;
pub mod writing;

pub use records::RowRecords;
pub use taking::{Span, back_over, copy_of, take_change, take_record, take_records};
