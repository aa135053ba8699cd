//! The stores that a change goes to.

/// The store that a change went to.
#[derive(Clone, Copy, Debug, PartialEq, Eq)]
pub enum Target {
    /// A MemRowSet, by its number.
    Mem(u64),
    /// A DeltaMemStore of a disk rowset, by their numbers.
    Delta { rowset: u64, dms: u64 },
}

/// The kind of a change, whose cells stand in its operation.
#[derive(Clone, Copy, Debug, PartialEq, Eq)]
pub enum Kindly {
    Ins,
    Upd,
    Del,
}
