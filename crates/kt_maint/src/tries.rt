//! How a try for a job ends that does not go outside.

/// How a try for a job in one visit ended, where none goes on outside the lock.
#[derive(Clone, Copy, PartialEq, Eq)]
pub enum Turn {
    /// There was nothing to do.
    Nothing,
    /// Something is under way that another pass has.
    Wait,
    /// The tablet has stopped.
    Stopped,
    /// There was no memory.
    Memory,
}
