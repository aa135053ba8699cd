//! The kinds of maintenance.

/// What a maintenance command asks for.
#[derive(Clone, Copy, Debug, PartialEq, Eq)]
pub enum Chore {
    /// Write the rows in memory as disk rowsets.
    Flush,
    /// Write the changes of disk rowsets in memory as delta files.
    FlushDeltas,
    /// Merge the redo files of each disk rowset into one.
    Minor,
    /// Fold the redo files of each disk rowset into new base data.
    Major,
    /// Merge all disk rowsets.
    Compact,
}
