//! What a scan reads of a disk rowset in a visit: no row of its files.
ghost use Rattle.std.specs.Prelude.{◌≡◌, ◌++◌, ℕ, IfOk, OnOk};
ghost use Rattle.std.specs.List.Sorted.{IsNonDecreasingBy};
ghost use Rattle.kt_rowfiles.specs.Files.{records_for};
ghost use Rattle.kt_views.specs.Told.{TellsUpTo};
ghost use Rattle.kt_diskrowset.specs.Jobs.{steps_upto};
ghost use Rattle.kt_diskrowset.specs.Mems.{AllStand, steps_in_mems};
ghost use Rattle.kt_diskrowset.specs.Page.{row_told};

use super::DiskRowSet;
use super::jobs::in_order;
use crate::data::RowSetData;
use crate::view::RowSetView;
use kt_base::NoMemory;
use kt_dms::DeltaMem;
use kt_history::{Delta, DeltaList};
use kt_pool::Pool;
use std::alloc::Global;

// Lists the changes of these DeltaMemStores at or below a time behind others, those of the first one first.
fn list_all(
    alloc: Global,
    pool: &Pool,
    mems: &[DeltaMem],
    upto: u64,
    list: &mut Vec<Delta>,
) -> Result<(), NoMemory>
    requires { AllStand pool.now mems.now }
    ensures { OnOk result ((n : ℕ) → records_for n list.new.items ≡ records_for n list.old.items ++ steps_upto upto (steps_in_mems pool.now n mems.now)) }
{
    'mems: for mem in mems {
        mem.list_changes(alloc, pool, upto, list)?;
    }
    Ok(())
}

impl DiskRowSet {
    ghost use Rattle.kt_diskrowset.specs.Rowset.{IsStore, fresh_of, store_of};

    // The changes in memory at or below a time, in the order of their rows.
    fn all_fresh(&self, alloc: Global, pool: &Pool, upto: u64) -> Result<DeltaList, NoMemory>
        requires { IsStore self.now pool.now }
        ensures rows { IfOk result (λ list. (n : ℕ) → records_for n list ≡ steps_upto upto (fresh_of self.now pool.now n)) }
        ensures order { IfOk result (IsNonDecreasingBy (λ d. d.ordinal)) }
    {
        let mut list = Vec::new(alloc);
        list_all(alloc, pool, &self.frozen, upto, &mut list)?;
        self.active.list_changes(alloc, pool, upto, &mut list)?;
        in_order(list)
    }

    /// What tells its rows up to a time: its files, of which it has another owner then, and its changes in memory at or below the
    /// time.
    pub fn read(&self, alloc: Global, pool: &Pool, upto: u64) -> Result<RowSetView, NoMemory>
        requires { IsStore self.now pool.now }
        ensures { IfOk result (λ view. TellsUpTo row_told upto (store_of self.now pool.now) view) }
    {
        let base = self.base.copy()?;
        let undo = self.undo.copy(alloc)?;
        let redo = self.redo.copy(alloc)?;
        let fresh = self.all_fresh(alloc, pool, upto)?;
        Ok(RowSetView::of(RowSetData {
            number: self.number,
            base,
            undo,
            redo,
            fresh,
        }))
    }
}
