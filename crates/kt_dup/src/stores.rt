//! The stores of a job: MemRowSets and disk rowsets.
ghost use Rattle.std.specs.Prelude.{⊤};
ghost use Rattle.kt_diskrowset.specs.First.{FilesAreUpTo};

use crate::missed::{FirstAbove, ListsAbove};
use kt_base::NoMemory;
use kt_diskrowset::DiskRowSet;
use kt_diskrowset::rowset::first::memory_law;
use kt_history::ChangeList;
use kt_memrowset::MemRowSet;
use kt_pool::Pool;
use std::alloc::Global;

impl ListsAbove for MemRowSet {
    ghost settled = { λ s above. ⊤ };

    fn changes_above(
        &self,
        alloc: Global,
        pool: &Pool,
        above: u64,
    ) -> Result<ChangeList, NoMemory> {
        MemRowSet::changes_above(self, alloc, pool, above)
    }
}

impl ListsAbove for DiskRowSet {
    ghost settled = { FilesAreUpTo };

    fn changes_above(
        &self,
        alloc: Global,
        pool: &Pool,
        above: u64,
    ) -> Result<ChangeList, NoMemory> {
        memory_law();
        DiskRowSet::changes_above(self, alloc, pool, above)
    }
}

impl FirstAbove for DiskRowSet {
    ghost settled = { FilesAreUpTo };

    fn first_above(&self, pool: &Pool, key: &[u8], above: u64) -> Option<u64> {
        DiskRowSet::first_above(self, pool, key, above)
    }
}
