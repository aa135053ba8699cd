//! The superblock in its two slots: reading it, preparing the next one, and opening its gate.
//!
//! For the layers above: `load` tells the superblock of the disk and makes both slots stable. A crash at any moment of
//! `prepare` leaves the old superblock, at any moment of `open_gate` the old one or the new, and each leaves all files
//! but the slot as they were. It stands on kt_bytes, kt_disk and kt_schema.
#![tactic(auto)]

// What `?` gives where the error stays as it is, with no conversion to be proved.
macro_rules! tri {
    ($result:expr) => {
        match $result {
            Ok(value) => value,
            Err(error) => return Err(error),
        }
    };
}

mod body;
mod columns;
mod gate;
pub mod laws;
mod loading;
pub mod meta;
mod preparing;
pub mod refusal;
mod rowsets;
mod slot;
mod spell;
mod taken;

pub use gate::open_gate;
pub use loading::load;
pub use meta::{FileRef, FileRefs, Meta, MetaRowset, MetaRowsets, Prepared};
pub use preparing::prepare;
pub use refusal::{Place, PrepareNo, SuperNo};
