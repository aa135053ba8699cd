//! What a maintenance policy asks of the stores.
ghost use Rattle.std.specs.Prelude.{◌≡◌, ◌-◌, ◌^◌, suc, length, drop, take, min, IfOk};
ghost use Rattle.std.specs.List.{sum_by};
ghost use Rattle.kt_history.specs.Beside.{AllStand};
ghost use Rattle.kt_memrowset.specs.Stores.{IsStore, store_of};
ghost use Rattle.kt_stores.specs.Shelf.{rows_in_first, stores_of};
ghost use Rattle.kt_stores.specs.Stats.{TellStats};

use super::Stores;
use kt_base::NoMemory;
use kt_diskrowset::DiskRowSet;
use kt_memrowset::MemRowSet;
use kt_pick::RowSetStat;
use kt_pool::Pool;
use std::alloc::Global;

// A count of rows up to the most that are told.
fn capped(rows: u64) -> u64
    ensures { result ≡ min rows (2 ^ 32 - 1) }
{
    rows.min(u64::from(u32::MAX))
}

// How many rows MemRowSets have, up to 2^32 - 1.
fn rows_in(pool: &Pool, stores: &[MemRowSet]) -> u32
    requires { AllStand IsStore pool.now stores.now }
    ensures { result ≡ min (sum_by (λ s. length (store_of s pool.now)) stores.now) (2 ^ 32 - 1) }
{
    let mut rows: u64 = 0;
    'stores: for store in stores {
        rows = capped(rows + u64::from(store.rows()));
    }
    rows as u32
}

impl Stores<DiskRowSet> {
    /// How many rows the MemRowSet has that takes inserts, those of deleted ones too.
    pub fn active_rows(&self) -> u32
        ensures { result ≡ length (rows_in_first self.now.shelf) }
    {
        self.active.rows()
    }

    /// How many rows the frozen ones have, up to 2^32 - 1.
    pub fn frozen_rows(&self) -> u32
        ensures { result ≡ min (sum_by length (take self.now.frozen (drop 1 (stores_of self.now)))) (2 ^ 32 - 1) }
    {
        rows_in(&self.pool, &self.frozen)
    }

    /// What a maintenance policy asks of each disk rowset, in the order in which they stand.
    pub fn stats(&self, alloc: Global) -> Result<Vec<RowSetStat>, NoMemory>
        ensures { IfOk result (λ stats. TellStats self.now.files (drop (suc self.now.frozen) (stores_of self.now)) stats.items) }
    {
        let mut stats = Vec::with_capacity(alloc, self.rowsets.len())?;
        'rowsets: for rowset in &self.rowsets {
            stats.push(rowset.stat(alloc, &self.pool)?)?;
        }
        Ok(stats)
    }
}
