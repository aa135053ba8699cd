//! What is said of an output.

/// Whether an output is that of a run of a script from an opening, and else the first of what it is not. Contracts say what
/// each verdict means by `IsVerdict`.
#[derive(Clone, Copy, PartialEq, Eq)]
pub enum Verdict {
    /// It is.
    Yes,
    /// The number of the first line of the history that is not allowed, from 1.
    NoEvent { number: u64 },
    /// The first reply that is not the run's, by session and command, from 1. The index is 0 for a session that only the
    /// script or only the output has.
    NoReply { session: u64, index: u64 },
    /// The last line is not the run's.
    NoEnd,
}
