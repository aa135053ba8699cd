//! What the stores of a tablet hold, as far as a worker asks.
ghost use Rattle.std.specs.Prelude.{◌≡◌};

use kt_bytes::Octets;
use kt_policy::IdList;
use std::marker::Model;

/// A disk rowset.
#[derive(Drop)]
pub struct RowSetStat {
    /// Its number.
    pub rowset: u64,
    /// How many rows its base file has.
    pub rows: u32,
    /// How many of its changes are in memory.
    pub fresh: u64,
    /// How many REDO files it has.
    pub redo_files: u32,
    /// How many REDO records they hold that are no deletes.
    pub redo_changes: u64,
    /// The length of its base file, in bytes.
    pub base_len: u64,
    /// Its least key.
    pub least: Octets,
    /// Its greatest key.
    pub greatest: Octets,
    /// Whether a job holds it.
    pub held: bool,
}

/// Disk rowsets, by number. Contracts see them as a list.
#[derive(Drop)]
pub struct StatList {
    stats: Vec<RowSetStat>,
}

impl Model for StatList {
    ghost use Rattle.std.specs.Prelude.{List};
    ghost use Rattle.kt_pick.specs.declared.stats.RowSetStat.{RowSetStat};

    ghost Value = { List RowSetStat };

    ghost view = { λ l. l.stats.items };
}

impl StatList {
    /// The rowsets of a vector, which takes no memory.
    pub fn of(stats: Vec<RowSetStat>) -> StatList
        ensures { result ≡ stats.items }
    {
        StatList { stats }
    }

    pub fn as_slice(&self) -> &[RowSetStat]
        ensures { result.now ≡ self.now }
    {
        &self.stats
    }
}

/// The stores of a tablet.
#[derive(Drop)]
pub struct Stats {
    /// How many rows the active MemRowSet has.
    pub mem_rows: u32,
    /// How many rows the frozen MemRowSets have.
    pub frozen_rows: u32,
    /// How many cells the pool has.
    pub cells: u32,
    /// How many of them are neither used nor reserved.
    pub free: u32,
    /// The disk rowsets, by number.
    pub rowsets: StatList,
    /// The rowsets that hold the least key lying in the most ranges of keys. None where there is no rowset.
    pub stack: IdList,
}
