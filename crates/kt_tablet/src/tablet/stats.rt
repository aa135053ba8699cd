//! What a maintenance policy asks of a tablet.
ghost use Rattle.std.specs.Prelude.{◌≡◌, ◌-◌, ◌^◌, suc, length, drop, min, IfOk};
ghost use Rattle.std.specs.List.{sum_by};
ghost use Rattle.kt_pool.specs.Contents.{free};
ghost use Rattle.kt_stores.specs.Stats.{TellStats};
ghost use Rattle.kt_tablet.specs.Jobs.{frozen_stores, rows_in_first};

use super::Tablet;
use kt_base::{Clock, NoMemory};
use kt_diskrowset::DiskRowSet;
use kt_pick::RowSetStat;
use std::alloc::Global;

impl<C: Clock> Tablet<DiskRowSet, C> {
    /// How many rows the MemRowSet has that takes inserts, those of deleted ones too.
    pub fn active_rows(&self) -> u32
        ensures { result ≡ length (rows_in_first self.now.core.stores) }
    {
        self.stores.active_rows()
    }

    /// How many rows the frozen ones have, up to 2^32 - 1.
    pub fn frozen_rows(&self) -> u32
        ensures { result ≡ min (sum_by length (frozen_stores self.now)) (2 ^ 32 - 1) }
    {
        self.stores.frozen_rows()
    }

    /// How many cells the pool has.
    pub fn cells(&self) -> u32
        ensures { result ≡ length self.now.pool.places }
    {
        self.stores.size()
    }

    /// How many of them are neither used nor reserved.
    pub fn spare(&self) -> u32
        ensures { result ≡ free self.now.pool - self.now.pool.reserved }
    {
        self.stores.free() - self.stores.reserved()
    }

    /// What a maintenance policy asks of each disk rowset, in the order in which they stand.
    pub fn stats(&self, alloc: Global) -> Result<Vec<RowSetStat>, NoMemory>
        ensures { IfOk result (λ stats. TellStats self.now.files (drop (suc self.now.frozen) self.now.core.stores) stats.items) }
    {
        self.stores.stats(alloc)
    }
}
