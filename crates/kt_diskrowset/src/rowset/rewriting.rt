//! A disk rowset that a job rewrites: what is read of it, and the files that come in place of all that it has.
ghost use Rattle.std.specs.Prelude.{◌≡◌, ◌++◌, [], ℕ, false, IfOk, OnOk};
ghost use Rattle.std.specs.Bool.{OnTrue};
ghost use Rattle.std.specs.List.Sorted.{IsNonDecreasingBy};
ghost use Rattle.kt_rowfiles.specs.Files.{records_for};
ghost use Rattle.kt_dms.specs.Stores.{deltas_of};
ghost use Rattle.kt_dms.specs.Stores as dms_specs;
ghost use Rattle.kt_diskrowset.specs.Jobs.{AreEmptied};
ghost use Rattle.kt_diskrowset.specs.Mems.{AllStand, AreApart, steps_in_mems};

use super::DiskRowSet;
use super::jobs::in_order;
use crate::data::RowSetData;
use kt_base::NoMemory;
use kt_dms::DeltaMem;
use kt_history::{Delta, DeltaList};
use kt_pool::Pool;
use std::alloc::Global;

// Lists all changes of a DeltaMemStore behind others.
fn list_whole(
    alloc: Global,
    pool: &Pool,
    mem: &DeltaMem,
    list: &mut Vec<Delta>,
) -> Result<(), NoMemory>
    requires { dms_specs.IsStore mem.now pool.now }
    ensures { OnOk result (list.new.items ≡ list.old.items ++ deltas_of mem.now pool.now) }
{
    let before = list.len();
    mem.list_changes(alloc, pool, u64::MAX, list)?;
    // No timestamp is greater, so that none is left out.
    if list.len() - before != mem.len() as usize {
        return Err(NoMemory);
    }
    Ok(())
}

// Lists those of several, the first ones first.
fn list_wholes(
    alloc: Global,
    pool: &Pool,
    mems: &[DeltaMem],
    list: &mut Vec<Delta>,
) -> Result<(), NoMemory>
    requires { AllStand pool.now mems.now }
    ensures { OnOk result ((n : ℕ) → records_for n list.new.items ≡ records_for n list.old.items ++ steps_in_mems pool.now n mems.now) }
{
    'mems: for mem in mems {
        list_whole(alloc, pool, mem, list)?;
    }
    Ok(())
}

// Whether these DeltaMemStores have no change.
fn are_vacant(pool: &Pool, mems: &[DeltaMem]) -> bool
    requires { AllStand pool.now mems.now }
    ensures { OnTrue result ((n : ℕ) → steps_in_mems pool.now n mems.now ≡ []) }
{
    'mems: for mem in mems {
        if mem.len() != 0 {
            return false;
        }
    }
    true
}

/// DeltaMemStores that stand apart give their cells back.
pub(crate) fn empty_all(mems: &mut Vec<DeltaMem>, pool: &mut Pool)
    requires stand { AllStand pool.old mems.old.items }
    requires apart { AreApart pool.old mems.old.items }
    ensures none { mems.new.items ≡ [] }
    ensures emptied { AreEmptied mems.old.items [] pool.old pool.new }
{
    'mems: while let Some(mut mem) = mems.pop() {
        mem.empty_into(pool);
    }
}

impl DiskRowSet {
    ghost use Rattle.kt_history.specs.declared.target.Target.TheVariants.{Delta as DeltaName};
    ghost use Rattle.kt_diskrowset.specs.Rows.{UndosLeadBack};
    ghost use Rattle.kt_diskrowset.specs.Rowset.{IsStore, held_of, fresh_of, store_of, name_of};
    ghost use Rattle.kt_diskrowset.specs.Data.{held_in, files_in, store_in};
    ghost use Rattle.kt_diskrowset.specs.Held.{store_told};
    ghost use Rattle.kt_diskrowset.specs.Rewriting.{IsSettled};

    // All changes in memory, in the order of their rows.
    fn whole_fresh(&self, alloc: Global, pool: &Pool) -> Result<DeltaList, NoMemory>
        requires { IsStore self.now pool.now }
        ensures rows { IfOk result (λ list. (n : ℕ) → records_for n list ≡ fresh_of self.now pool.now n) }
        ensures order { IfOk result (IsNonDecreasingBy (λ d. d.ordinal)) }
    {
        let mut list = Vec::new(alloc);
        list_wholes(alloc, pool, &self.frozen, &mut list)?;
        list_whole(alloc, pool, &self.active, &mut list)?;
        in_order(list)
    }

    /// Whether it has a change in memory.
    pub fn has_deltas(&self, pool: &Pool) -> bool
        requires { IsStore self.now pool.now }
        ensures none { result ≡ false → (n : ℕ) → fresh_of self.now pool.now n ≡ [] }
        ensures told { result ≡ false → store_of self.now pool.now ≡ store_told (held_of self.now) }
    {
        if self.active.len() != 0 {
            return true;
        }
        !are_vacant(pool, &self.frozen)
    }

    /// The rowset as plain data: its files, of which it has another owner then, and all its changes in memory, in the order of
    /// their rows. Those of one row stand as they were made.
    pub fn whole(&self, alloc: Global, pool: &Pool) -> Result<RowSetData, NoMemory>
        requires { IsStore self.now pool.now }
        ensures held { IfOk result (λ d. held_in d ≡ held_of self.now) }
        ensures store { IfOk result (λ d. store_in d ≡ store_of self.now pool.now) }
        ensures lead { IfOk result (λ d. UndosLeadBack (files_in d)) }
        ensures order { IfOk result (λ d. IsNonDecreasingBy (λ c. c.ordinal) d.fresh) }
    {
        let base = self.base.copy()?;
        let undo = self.undo.copy(alloc)?;
        let redo = self.redo.copy(alloc)?;
        let fresh = self.whole_fresh(alloc, pool)?;
        Ok(RowSetData {
            number: self.number,
            base,
            undo,
            redo,
            fresh,
        })
    }

    /// Files that tell all that it has take the place of its own, and its DeltaMemStores give their cells back. The one that takes
    /// changes stays, with none.
    pub fn settle(&mut self, pool: &mut Pool, rowset: RowSetData)
        requires stands { IsStore self.old pool.old }
        requires lead { UndosLeadBack (files_in rowset) }
        requires none { rowset.fresh ≡ [] }
        requires number { (n : ℕ) × (name_of self.old ≡ DeltaName rowset.number n) }
        requires store { store_in rowset ≡ store_of self.old pool.old }
        ensures settled { IsSettled self.old self.new pool.old pool.new }
        ensures held { held_of self.new ≡ held_in rowset }
    {
        empty_all(&mut self.frozen, pool);
        self.active.empty_into(pool);
        self.number = rowset.number;
        self.base = rowset.base;
        self.undo = rowset.undo;
        self.redo = rowset.redo;
    }
}
