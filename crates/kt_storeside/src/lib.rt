//! The store of an engine: its device, at home or lent to a pass, with the superblock that is published and the numbers that are given next.
//!
//! For the layers above: each image of the device has the published superblock, or after a fault that or the one that was lent, with the data files
//! that it names as they stood. A file that stood with its bytes stands so after each turn that does not name its number. It stands on kt_base,
//! kt_disk, kt_schema, kt_super and kt_files.
#![tactic(auto)]

pub mod copies;
mod next;
mod publishing;
pub mod side;

pub use publishing::publish;
pub use side::{Lent, StoreSide};
