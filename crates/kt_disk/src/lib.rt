//! A disk as the engine sees it: files named by numbers, what a read gives, and what a crash may leave.
//!
//! For the layers above: the trait `Disk`, each of whose calls moves one file alone, and says at each moment of the
//! disk's own clock which images a crash then may leave. It stands on `kt_base`.
#![tactic(auto)]

mod behind;
mod calls;
mod crash;
mod disk;
mod event;
mod fault;
mod gate;
mod held;
mod lists;
mod memory;

pub use behind::HeldDisk;
pub use disk::{Disk, DiskNo};
pub use event::{Change, Event};
pub use fault::FaultDisk;
pub use gate::{Gate, PassGate, Point};
pub use lists::{Fail, FailList, FileBytes, FileBytesList, FileList};
pub use memory::MemDisk;
