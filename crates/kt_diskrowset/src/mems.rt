//! Rows after the changes that lie in memory.
ghost use Rattle.std.specs.Prelude.{◌≡◌, Option, is_some, IfOk};
ghost use Rattle.kt_history.specs.Rows.{Row};
ghost use Rattle.kt_history.specs.Stores.{after_steps, apply_all};
ghost use Rattle.kt_diskrowset.specs.Mems.{AllStand, steps_in_mems};

use kt_base::{Cells, NoMemory};
use kt_dms::DeltaMem;
use kt_pool::Pool;
use std::alloc::Global;

/// The row with this ordinal at a time, told the row before the changes of these stores, the oldest first.
pub fn row_after(
    alloc: Global,
    pool: &Pool,
    mems: &[DeltaMem],
    ordinal: u32,
    before: Option<Cells>,
    t: u64,
) -> Result<Option<Cells>, NoMemory>
    requires { AllStand pool.now mems.now }
    ensures { IfOk result (λ row. row ≡ after_steps t (steps_in_mems pool.now ordinal mems.now) before) }
{
    let mut row = before;
    'mems: for mem in mems {
        row = mem.at(alloc, pool, ordinal, row, t)?;
    }
    Ok(row)
}

/// Whether the row with this ordinal is there after all changes of these stores, told whether it was before them.
pub fn is_live_after(pool: &Pool, mems: &[DeltaMem], ordinal: u32, before: bool) -> bool
    requires { AllStand pool.now mems.now }
    ensures { (row : Option Row) → is_some row ≡ before → result ≡ is_some (apply_all (steps_in_mems pool.now ordinal mems.now) row) }
{
    let mut live = before;
    'mems: for mem in mems {
        live = mem.live(pool, ordinal, live);
    }
    live
}
