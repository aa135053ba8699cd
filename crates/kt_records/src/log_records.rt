//! The records of a log that was read. They share one list of operations and one of rows of COMMITs, so that no record
//! takes memory of its own.
ghost use Rattle.std.specs.Prelude.{◌≡◌, ◌+◌, ◌<◌, ◌≤◌, ◌==◌, ◌^◌, [], length, get_or, drop};
ghost use Rattle.std.specs.List.{between};

use crate::entry::CommitRow;
use kt_history::{OpList, OpRef};
use std::alloc::Global;
use std::marker::Model;

/// The operations of a REPLICATE where they lie. Contracts see them as a list.
#[derive(Drop)]
pub struct OpsRef<'v> {
    ops: &'v OpList,
    first: usize,
    len: usize,
}

impl<'v> Model for OpsRef<'v> {
    ghost use Rattle.std.specs.Prelude.{List, ◌+◌, ◌≤◌, ◌<◌, ◌^◌, length};
    ghost use Rattle.std.specs.List.{between};
    ghost use Rattle.kt_history.specs.declared.operation.RowOp.{RowOp};

    ghost Value = { List RowOp };

    ghost view = { λ o. between o.first (o.first + o.len) o.ops.now };

    ghost invariant = { λ o. (o.first + o.len ≤ length o.ops.now) × (o.first + o.len < 2 ^ 64) };
}

impl<'v> OpsRef<'v> {
    /// So many of these operations, from a place on.
    pub fn of(ops: &'v OpList, first: usize, len: usize) -> OpsRef<'v>
        requires within { first + len ≤ length ops.now }
        requires fits { first + len < 2 ^ 64 }
        ensures { result ≡ between first (first + len) ops.now }
    {
        OpsRef { ops, first, len }
    }

    /// All of these operations from a place on.
    pub fn behind(ops: &'v OpList, first: usize) -> OpsRef<'v>
        requires { first ≤ length ops.now }
        ensures { result ≡ drop first ops.now }
    {
        let len = ops.len() - first;
        OpsRef { ops, first, len }
    }

    pub fn len(&self) -> usize
        ensures { result ≡ length self.now }
    {
        self.len
    }

    pub fn is_empty(&self) -> bool
        ensures { result ≡ (length self.now == 0) }
    {
        self.len == 0
    }

    /// The operation at a place.
    pub fn at(&self, at: usize) -> OpRef<'v>
        requires { at < length self.now }
        ensures { result ≡ get_or self.now at result }
    {
        self.ops.at(self.first + at)
    }
}

/// A record of a log where it lies.
#[derive(Drop)]
pub enum RecordRef<'v> {
    /// A write, before any of its operations is applied.
    Replicate { ts: u64, ops: OpsRef<'v> },
    /// What became of the operations of the write of this timestamp, in their order.
    Commit { ts: u64, rows: &'v [CommitRow] },
}

// A record: which it is, its timestamp, and which of all operations or of all rows are its own.
#[derive(Clone, Copy)]
pub(crate) enum Head {
    Replicate { ts: u64, first: usize, count: usize },
    Commit { ts: u64, first: usize, count: usize },
}

// A record, and how long its spelling is.
#[derive(Clone, Copy)]
pub(crate) struct Kept {
    pub(crate) head: Head,
    pub(crate) len: usize,
}

/// The records of a log in their order. Contracts see them as a list.
#[derive(Drop)]
pub struct LogRecords {
    pub(crate) kept: Vec<Kept>,
    pub(crate) ops: OpList,
    pub(crate) rows: Vec<CommitRow>,
}

impl Model for LogRecords {
    ghost use Rattle.std.specs.Prelude.{List, map};
    ghost use Rattle.std.specs.List.{All};
    ghost use Rattle.kt_records.specs.declared.entry.Entry.{Entry};

    ghost Value = { List Entry };

    ghost use Rattle.kt_records.specs.Shared.{entry_kept, IsKept};

    ghost view = { λ l. map (entry_kept l.ops l.rows.items) l.kept.items };

    ghost invariant = { λ l. All (IsKept l.ops l.rows.items) l.kept.items };
}

impl LogRecords {
    ghost use Rattle.kt_records.specs.declared.entry.Entry.{Entry};
    ghost use Rattle.kt_records.specs.Spelling.{spelling};
    ghost use Rattle.kt_records.specs.Shared.{entry_of};

    /// No records.
    pub fn new(alloc: Global) -> LogRecords
        ensures { result ≡ [] }
    {
        LogRecords {
            kept: Vec::new(alloc),
            ops: OpList::new(alloc),
            rows: Vec::new(alloc),
        }
    }

    pub fn len(&self) -> usize
        ensures { result ≡ length self.now }
    {
        self.kept.len()
    }

    pub fn is_empty(&self) -> bool
        ensures { result ≡ (length self.now == 0) }
    {
        self.kept.is_empty()
    }

    /// The record at a place, which is not copied.
    pub fn at(&self, at: usize) -> RecordRef<'_>
        requires { at < length self.now }
        ensures { entry_of result ≡ get_or self.now at (entry_of result) }
    {
        match self.kept[at].head {
            Head::Replicate { ts, first, count } => RecordRef::Replicate {
                ts,
                ops: OpsRef::of(&self.ops, first, count),
            },
            Head::Commit { ts, first, count } => RecordRef::Commit {
                ts,
                rows: &self.rows[first..first + count],
            },
        }
    }

    /// How long the spelling of the record at a place is.
    pub fn spelled_len(&self, at: usize) -> usize
        requires { at < length self.now }
        ensures { (entry : Entry) → entry ≡ get_or self.now at entry → result ≡ length (spelling entry) }
    {
        self.kept[at].len
    }
}
