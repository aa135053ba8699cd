//! A MemRowSet as a store of rows, of which each is nothing but its changes.
ghost use Rattle.kt_history.specs.declared.target.Target.TheVariants.{Mem};
ghost use Rattle.kt_memrowset.specs.Stores.{IsStore, store_of, number_of, is_frozen, Owns, cells_had};

use crate::laws;
use crate::store::MemRowSet;
use kt_base::NoMemory;
use kt_history::{ChangeList, ChangeStore, Kindly, OpRef, RowStore, Taken, Target};
use kt_pool::Pool;
use std::alloc::Global;

impl RowStore for MemRowSet {
    ghost stands = { IsStore };

    ghost store = { store_of };

    ghost owns = { Owns };

    ghost cells = { cells_had };

    ghost is_closed = { is_frozen };

    ghost target = { λ s. Mem (number_of s) };

    fn live(&self, pool: &Pool, key: &[u8]) -> bool {
        MemRowSet::live(self, pool, key)
    }

    fn apply_reserved(
        &mut self,
        pool: &mut Pool,
        ts: u64,
        op: &OpRef<'_>,
        change: Kindly,
    ) -> Target {
        MemRowSet::apply_reserved(self, pool, ts, op, change)
    }

    fn take(&mut self, pool: &mut Pool, ts: u64, op: &OpRef<'_>) -> Taken {
        MemRowSet::take(self, pool, ts, op)
    }

    fn frame_law() {
        laws::frame_law();
    }

    fn placed_law() {
        laws::placed_law();
    }
}

impl ChangeStore for MemRowSet {
    fn changes(&self, alloc: Global, pool: &Pool, upto: u64) -> Result<ChangeList, NoMemory> {
        MemRowSet::changes(self, alloc, pool, upto)
    }

    fn grown_law() {
        laws::grown_law();
    }
}
