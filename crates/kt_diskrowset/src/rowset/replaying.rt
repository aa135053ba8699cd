//! Changes of a log, taken again when a tablet is opened.
ghost use Rattle.std.specs.Prelude.{◌≡◌, ◌≢◌, ◌+◌, ◌≤◌, ℕ, is_some, IfOk};
ghost use Rattle.kt_pool.specs.Contents.{Contents};
ghost use Rattle.kt_history.specs.Stores.{hist_in, row_of, never, share};
ghost use Rattle.kt_diskrowset.specs.Rowset.{store_of, IsStore, name_of};
ghost use Rattle.kt_diskrowset.specs.Joining.{KeyUnder, Rejoined};

use super::DiskRowSet;
use crate::rows::first_row;
use kt_base::{Cells, NoMemory};
use kt_history::{Kindly, OpRef, Target};
use kt_pool::Pool;
use std::alloc::Global;

impl DiskRowSet {
    // The row of a key before all its changes.
    fn first(&self, alloc: Global, key: &[u8]) -> Result<Option<Cells>, NoMemory>
        ensures { IfOk result (λ row. (pool : Contents) → row ≡ (hist_in key.now (store_of self.now pool)).first) }
    {
        let Some(ordinal) = self.base.ordinal(key) else {
            return Ok(None);
        };
        let base = self.base.row(alloc, ordinal)?;
        first_row(alloc, &self.undo, ordinal, base)
    }

    /// Whether the row of a key is there just before a time. Before 0 stands the row before all its changes.
    pub fn had(&self, alloc: Global, pool: &Pool, key: &[u8], ts: u64) -> Result<bool, NoMemory>
        requires { IsStore self.now pool.now }
        ensures first { ts ≡ 0 → IfOk result (λ had. had ≡ is_some (hist_in key.now (store_of self.now pool.now)).first) }
        ensures later { (t : ℕ) → ts ≡ t + 1 → IfOk result (λ had. had ≡ is_some (row_of t (hist_in key.now (store_of self.now pool.now)))) }
    {
        let row = match ts.checked_sub(1) {
            Some(t) => self.at(alloc, pool, key, t)?,
            None => self.first(alloc, key)?,
        };
        Ok(row.is_some())
    }

    /// Takes the change of an operation again, on a row that its base file has, in reserved cells: half of what a write of the
    /// operation needs suffices. All that it has in memory of the row lies below the change. What its files have may not: the
    /// change comes behind that all the same.
    pub fn rejoin(&mut self, pool: &mut Pool, ts: u64, op: &OpRef<'_>, change: Kindly) -> Target
        requires stands { IsStore self.old pool.old }
        requires reserved { share op.now ≤ pool.old.reserved }
        requires there { hist_in op.now.key (store_of self.old pool.old) ≢ never }
        requires under { KeyUnder ts op.now.key self.old pool.old }
        ensures joined { Rejoined self.old self.new pool.old pool.new ts op.now change }
        ensures named { result ≡ name_of self.old }
    {
        let Some(ordinal) = self.base.ordinal(op.key()) else {
            unreachable!();
        };
        self.join(pool, ordinal, ts, op, change);
        self.target()
    }
}
