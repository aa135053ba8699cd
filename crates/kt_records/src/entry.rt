//! The records of the log, and lists of them.
ghost use Rattle.std.specs.Prelude.{◌≡◌, ◌==◌, length, [], ◌∷◌};

use kt_history::{OpList, Outcome, Target};
use std::marker::Model;

/// A record of the log.
#[derive(Drop)]
pub enum Entry {
    /// A write, before any of its operations is applied.
    Replicate { ts: u64, ops: OpList },
    /// What became of the operations of the write of this timestamp, in their order.
    Commit { ts: u64, rows: CommitRows },
}

/// What became of an operation, and the stores that it changed.
#[derive(Drop)]
pub struct CommitRow {
    pub outcome: Outcome,
    pub targets: TargetList,
}

/// The stores that an operation changed, two at most, kept in place. Contracts see them as a list.
#[derive(Drop)]
pub struct TargetList {
    len: usize,
    targets: [Target; 2],
}

impl Model for TargetList {
    ghost use Rattle.std.specs.Prelude.{List, take, ◌≤◌};
    ghost use Rattle.kt_history.specs.declared.target.Target.{Target};

    ghost Value = { List Target };

    ghost view = { λ l. take l.len l.targets };

    ghost invariant = { λ l. l.len ≤ 2 };
}

impl TargetList {
    /// No store.
    pub fn none() -> TargetList
        ensures { result ≡ [] }
    {
        TargetList {
            len: 0,
            targets: [Target::Mem(0), Target::Mem(0)],
        }
    }

    /// One store.
    pub fn one(target: Target) -> TargetList
        ensures { result ≡ target ∷ [] }
    {
        TargetList {
            len: 1,
            targets: [target, Target::Mem(0)],
        }
    }

    /// Two stores.
    pub fn two(first: Target, second: Target) -> TargetList
        ensures { result ≡ first ∷ second ∷ [] }
    {
        TargetList {
            len: 2,
            targets: [first, second],
        }
    }

    pub fn len(&self) -> usize
        ensures { result ≡ length self.now }
    {
        self.as_slice().len()
    }

    pub fn is_empty(&self) -> bool
        ensures { result ≡ (length self.now == 0) }
    {
        self.as_slice().is_empty()
    }

    pub fn as_slice(&self) -> &[Target]
        ensures { result.now ≡ self.now }
    {
        &self.targets[..self.len]
    }
}

/// The rows of a COMMIT. Contracts see them as a list.
#[derive(Drop)]
pub struct CommitRows {
    rows: Vec<CommitRow>,
}

impl Model for CommitRows {
    ghost use Rattle.std.specs.Prelude.{List};
    ghost use Rattle.kt_records.specs.declared.entry.CommitRow.{CommitRow};

    ghost Value = { List CommitRow };

    ghost view = { λ l. l.rows.items };
}

impl CommitRows {
    /// The rows of a vector, which takes no memory.
    pub fn of(rows: Vec<CommitRow>) -> CommitRows
        ensures { result ≡ rows.items }
    {
        CommitRows { rows }
    }

    /// The rows as a vector, which takes no memory.
    pub fn into_vec(self) -> Vec<CommitRow>
        ensures { result.items ≡ self }
    {
        self.rows
    }

    pub fn len(&self) -> usize
        ensures { result ≡ length self.now }
    {
        self.rows.len()
    }

    pub fn is_empty(&self) -> bool
        ensures { result ≡ (length self.now == 0) }
    {
        self.rows.is_empty()
    }

    pub fn as_slice(&self) -> &[CommitRow]
        ensures { result.now ≡ self.now }
    {
        &self.rows
    }
}

/// Records in the order of the log. Contracts see them as a list.
#[derive(Drop)]
pub struct RecordList {
    records: Vec<Entry>,
}

impl Model for RecordList {
    ghost use Rattle.std.specs.Prelude.{List};
    ghost use Rattle.kt_records.specs.declared.entry.Entry.{Entry};

    ghost Value = { List Entry };

    ghost view = { λ l. l.records.items };
}

impl RecordList {
    /// The records of a vector, which takes no memory.
    pub fn of(records: Vec<Entry>) -> RecordList
        ensures { result ≡ records.items }
    {
        RecordList { records }
    }

    /// The records as a vector, which takes no memory.
    pub fn into_vec(self) -> Vec<Entry>
        ensures { result.items ≡ self }
    {
        self.records
    }

    pub fn len(&self) -> usize
        ensures { result ≡ length self.now }
    {
        self.records.len()
    }

    pub fn is_empty(&self) -> bool
        ensures { result ≡ (length self.now == 0) }
    {
        self.records.is_empty()
    }

    pub fn as_slice(&self) -> &[Entry]
        ensures { result.now ≡ self.now }
    {
        &self.records
    }
}
