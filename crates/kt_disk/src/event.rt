//! The calls that a disk in memory keeps.
use kt_base::Octets;

/// What a call did to its file.
#[derive(Drop)]
pub enum Change {
    Write(u64, Octets),
    Cut(u64),
    Sync,
    Remove,
    /// It was only looked at.
    Look,
}

/// A call on a file.
#[derive(Drop)]
pub struct Event {
    pub file: u64,
    pub change: Change,
}
