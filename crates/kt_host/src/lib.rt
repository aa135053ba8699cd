//! The machine that the program runs on, as the top call sees it: a folder as a disk, standard streams as a source and a
//! sink, and clocks. What they stand for is trusted; that they count their failures and are safe is proved. A disk on the
//! heap is what the disk is, and a disk in memory keeps the contract of a disk. It stands on kt_base and kt_disk.
#![tactic(auto)]

pub mod boxed;
pub mod dir;
pub mod edges;
pub mod ram;

pub use boxed::BoxedDisk;
pub use dir::{DirDisk, Taken};
pub use edges::{MachineClock, Stdin, Stdout, Ticks};
pub use ram::RamDisk;
