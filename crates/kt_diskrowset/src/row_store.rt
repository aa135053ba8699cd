//! A disk rowset as a store of rows, which a scan reads.
ghost use Rattle.std.specs.Prelude.{true};
ghost use Rattle.kt_diskrowset.specs.Rowset.{IsStore, store_of, Owns, cells_had, name_of};

use crate::laws;
use crate::rowset::DiskRowSet;
use crate::view::RowSetView;
use kt_base::NoMemory;
use kt_history::{Kindly, OpRef, RowStore, Taken, Target};
use kt_pool::Pool;
use kt_views::ViewStore;
use std::alloc::Global;

impl RowStore for DiskRowSet {
    ghost stands = { IsStore };

    ghost store = { store_of };

    ghost owns = { Owns };

    ghost cells = { cells_had };

    ghost is_closed = { λ s. true };

    ghost target = { name_of };

    fn live(&self, pool: &Pool, key: &[u8]) -> bool {
        DiskRowSet::live(self, pool, key)
    }

    fn apply_reserved(
        &mut self,
        pool: &mut Pool,
        ts: u64,
        op: &OpRef<'_>,
        change: Kindly,
    ) -> Target {
        DiskRowSet::apply_reserved(self, pool, ts, op, change)
    }

    fn take(&mut self, pool: &mut Pool, ts: u64, op: &OpRef<'_>) -> Taken {
        DiskRowSet::take(self, pool, ts, op)
    }

    fn frame_law() {
        laws::frame_law();
    }

    fn placed_law() {
        laws::placed_law();
    }
}

impl ViewStore for DiskRowSet {
    type Read = RowSetView;

    fn read(&self, alloc: Global, pool: &Pool, upto: u64) -> Result<RowSetView, NoMemory> {
        DiskRowSet::read(self, alloc, pool, upto)
    }
}
