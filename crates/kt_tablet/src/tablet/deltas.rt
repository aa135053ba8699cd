//! What a job does to one disk rowset, named by its number: it freezes the DeltaMemStore that takes its changes, reads all that it
//! has, and puts files in its place that tell the same.
ghost use Rattle.std.specs.Prelude.{◌≡◌, ◌<◌, ◌+◌, ◌^◌, [], ℕ, false, Some, IfOk, OnOk, OnErr};
ghost use Rattle.kt_history.specs.declared.target.Target.TheVariants.{Delta};
ghost use Rattle.std.specs.List.Sorted.{IsNonDecreasingBy};
ghost use Rattle.kt_diskrowset.specs.Data.{held_in, files_in, store_in};
ghost use Rattle.kt_diskrowset.specs.Held.{store_told};
ghost use Rattle.kt_diskrowset.specs.Rows.{UndosLeadBack};
ghost use Rattle.kt_diskrowset.specs.Rowset.{HeldFiles};
ghost use Rattle.kt_tablet.specs.Jobs.{dms_in, store_in_names, next_dms, files_of, with_files};

use super::Tablet;
use kt_base::{Clock, NoMemory};
use kt_diskrowset::{DiskRowSet, RowSetData};
use kt_history::Target;
use std::alloc::Global;

// The number of the DeltaMemStore that a name has, if it has one.
fn dms_named(name: Target) -> Option<u64>
    ensures { (number dms : ℕ) → name ≡ Delta number dms → result ≡ Some dms }
{
    match name {
        Target::Delta { dms, .. } => Some(dms),
        Target::Mem(_) => None,
    }
}

impl<C: Clock> Tablet<DiskRowSet, C> {
    /// The number of the DeltaMemStore that takes the changes of a disk rowset, if that is there.
    pub fn dms_of(&self, number: u64) -> Option<u64>
        ensures { result ≡ dms_in number self.now.names }
    {
        match self.stores.rowset_place(number) {
            Some(at) => dms_named(self.stores.target_at(at)),
            None => None,
        }
    }

    /// Whether a disk rowset is there and has a change in memory. One that has none is what its files tell.
    pub fn has_deltas(&self, number: u64) -> bool
        ensures { result ≡ false → (dms : ℕ) → dms_in number self.now.names ≡ Some dms → (h : HeldFiles) × (files_of number self.now.files ≡ Some h) × (store_in_names number self.now.names self.now.core.stores ≡ store_told h) }
    {
        match self.stores.rowset_place(number) {
            Some(at) => self.stores.has_deltas(at),
            None => false,
        }
    }

    /// All that a disk rowset has, which is there, as plain data: its files, of which it has another owner then, and its changes in
    /// memory, in the order of their rows.
    pub fn read_rowset(&self, alloc: Global, number: u64) -> Result<RowSetData, NoMemory>
        requires there { (dms : ℕ) × (dms_in number self.now.names ≡ Some dms) }
        ensures number { IfOk result (λ d. d.number ≡ number) }
        ensures store { IfOk result (λ d. store_in d ≡ store_in_names number self.now.names self.now.core.stores) }
        ensures lead { IfOk result (λ d. UndosLeadBack (files_in d)) }
        ensures order { IfOk result (λ d. IsNonDecreasingBy (λ c. c.ordinal) d.fresh) }
        ensures held { IfOk result (λ d. files_of number self.now.files ≡ Some (held_in d)) }
    {
        match self.stores.rowset_place(number) {
            Some(at) => self.stores.read_rowset(alloc, at),
            None => Err(NoMemory),
        }
    }

    /// Freezes the DeltaMemStore that takes the changes of a disk rowset, while nothing flies. One of the next number, with no
    /// change, takes them from now on. Where no number is left there is no memory for one.
    pub fn freeze_deltas(&mut self, number: u64) -> Result<(), NoMemory>
        requires calm { self.old.core.aloft ≡ [] }
        ensures frozen { OnOk result (self.new ≡ record self.old { names = next_dms number self.old.names }) }
        ensures there { OnOk result ((dms : ℕ) × (dms_in number self.old.names ≡ Some dms) × (dms + 1 < 2 ^ 64)) }
        ensures same { OnErr result (self.new ≡ self.old) }
    {
        let Some(at) = self.stores.rowset_place(number) else {
            return Err(NoMemory);
        };
        let Some(dms) = dms_named(self.stores.target_at(at)) else {
            return Err(NoMemory);
        };
        if dms == u64::MAX {
            return Err(NoMemory);
        }
        self.stores.freeze_deltas(at, dms + 1)?;
        Ok(())
    }

    /// Files that tell all that a disk rowset has take the place of its own, and its DeltaMemStores give their cells back. The one that
    /// takes changes stays, with none. It takes no memory.
    pub fn put_files(&mut self, rowset: RowSetData)
        requires lead { UndosLeadBack (files_in rowset) }
        requires none { rowset.fresh ≡ [] }
        requires there { (n : ℕ) × (dms_in rowset.number self.old.names ≡ Some n) }
        requires store { store_in rowset ≡ store_in_names rowset.number self.old.names self.old.core.stores }
        ensures { self.new ≡ record self.old { pool = self.new.pool; files = with_files (held_in rowset) self.old.files } }
    {
        if let Some(at) = self.stores.rowset_place(rowset.number) {
            self.stores.settle(at, rowset);
        }
    }
}
