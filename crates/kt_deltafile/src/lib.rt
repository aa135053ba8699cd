//! Delta files: the REDO or the UNDO records of a base file's rows, as bytes. They are in the order of the rows'
//! ordinals, and each row's records are in the order in which they are applied: by rising timestamp in a REDO
//! file, by falling timestamp in an UNDO file.
//!
//! For the layers above: `spell` gives the one spelling of a list of changes, `decode` answers a file exactly where
//! the bytes are that spelling, or the place of the first fault, and `of_row` finds a row's records. It stands on
//! kt_base, kt_cells and kt_history.
#![tactic(auto)]

mod file;
pub mod laws;
mod order;
mod reading;
mod writing;

pub use file::{DeltaFile, Way};
pub use kt_bytes::CodecNo;
pub use reading::decode;
pub use writing::spell;
