//! The stores of a tablet that is opened, one change at a time.
ghost use Rattle.std.specs.Prelude.{◌≡◌, ◌+◌, ◌<◌, ◌≤◌, length, slice_get, Some, false, IfOk};
ghost use Rattle.kt_history.specs.Rows.{Row};
ghost use Rattle.kt_history.specs.Stores.{share};
ghost use Rattle.kt_memrowset.specs.Stores.{is_frozen};
ghost use Rattle.kt_reopen.specs.Standing.{placed, names_in, AreKeptIn, KeyUnderAt, JoinsAt};
ghost use Rattle.kt_reopen.specs.Steps.{had_at, MayJoin};
ghost use Rattle.kt_reopen.specs.Walks.{FitsAt};

use kt_base::NoMemory;
use kt_diskrowset::DiskRowSet;
use kt_history::{Kindly, OpRef, Target};
use kt_memrowset::MemRowSet;
use kt_pool::Pool;
use std::alloc::Global;

/// The stores of a tablet that is opened, and their pool: its one MemRowSet, and its disk rowsets in the order of the superblock.
/// They are counted in this order, from 0.
#[derive(Drop)]
pub struct Opening {
    pub(crate) mem: MemRowSet,
    pub(crate) rowsets: Vec<DiskRowSet>,
    pub(crate) pool: Pool,
}

impl Opening {
    /// Whether the row of a key is there just before a time, in the store at a place.
    pub(crate) fn had(
        &self,
        alloc: Global,
        at: usize,
        key: &[u8],
        ts: u64,
    ) -> Result<bool, NoMemory>
        requires kept { AreKeptIn self.now }
        requires under { KeyUnderAt ts key.now at self.now }
        requires there { at < 1 + length self.now.rowsets.items }
        ensures { IfOk result (λ had. (fill : Row) → had_at ts key.now at (placed fill self.now) ≡ Some had) }
    {
        if at == 0 {
            return Ok(self.mem.live(&self.pool, key));
        }
        self.rowsets[at - 1].had(alloc, &self.pool, key, ts)
    }

    /// Does an operation on the row that the MemRowSet has, and tells whether that makes a change, which it takes in reserved cells:
    /// half of what a write of the operation needs suffices. It looks for the row once.
    pub(crate) fn take_in_mem(&mut self, ts: u64, op: &OpRef<'_>) -> bool
        requires kept { AreKeptIn self.old }
        requires under { KeyUnderAt ts op.now.key 0 self.old }
        requires thawed { is_frozen self.old.mem ≡ false }
        requires reserved { share op.now ≤ self.old.pool.reserved }
        ensures { FitsAt self.old self.new 0 ts op.now result }
    {
        self.mem.take(&mut self.pool, ts, op).target.is_some()
    }

    /// The store at a place takes the change of an operation, which it may take, in reserved cells: half of what a write of the
    /// operation needs suffices.
    pub(crate) fn join(&mut self, at: usize, ts: u64, op: &OpRef<'_>, kind: Kindly) -> Target
        requires kept { AreKeptIn self.old }
        requires under { KeyUnderAt ts op.now.key at self.old }
        requires thawed { is_frozen self.old.mem ≡ false }
        requires there { at < 1 + length self.old.rowsets.items }
        requires may { (fill : Row) → MayJoin ts op.now.key at kind (placed fill self.old) }
        requires reserved { share op.now ≤ self.old.pool.reserved }
        ensures joins { JoinsAt self.old self.new at ts op.now kind (share op.now) }
        ensures named { slice_get (names_in self.old) at ≡ Some result }
    {
        if at == 0 {
            return self.mem.apply_reserved(&mut self.pool, ts, op, kind);
        }
        self.rowsets[at - 1].rejoin(&mut self.pool, ts, op, kind)
    }
}
