//! Disk rowsets that a job rewrites, one at a time: where one stands, what is read of it, and the files that come in place of what it has.
ghost use Rattle.std.specs.Prelude.{◌≡◌, ◌<◌, ◌-◌, ◌==◌, [], ℕ, false, length, slice_get, Some, IfSome, IfOk, OnOk, OnErr};
ghost use Rattle.std.specs.List.{position};
ghost use Rattle.std.specs.Option.{option_map};
ghost use Rattle.std.specs.List.Sorted.{IsNonDecreasingBy};
ghost use Rattle.kt_history.specs.declared.target.Target.TheVariants.{Delta};
ghost use Rattle.kt_histlaws.specs.Histories.{on_nth};
ghost use Rattle.kt_diskrowset.specs.Data.{held_in, files_in, store_in};
ghost use Rattle.kt_diskrowset.specs.Held.{store_told};
ghost use Rattle.kt_diskrowset.specs.Rows.{UndosLeadBack};
ghost use Rattle.kt_diskrowset.specs.Rowset.{HeldFiles, name_of};
ghost use Rattle.kt_stores.specs.Shelf.{is_rowset, name_at, names_of, stores_of, renamed};

use super::Stores;
use kt_base::NoMemory;
use kt_diskrowset::{DiskRowSet, RowSetData, laws};
use kt_history::Target;
use std::alloc::Global;

// Whether a rowset has this number.
fn has_number(rowset: &DiskRowSet, number: u64) -> bool
    ensures { result ≡ is_rowset number (name_of rowset.now) }
{
    match rowset.target() {
        Target::Delta { rowset, .. } => rowset == number,
        Target::Mem(_) => false,
    }
}

// The place of the first rowset of a number.
fn first_numbered(rowsets: &[DiskRowSet], number: u64) -> Option<usize>
    ensures { result ≡ position (λ r. is_rowset number (name_of r)) rowsets.now }
{
    for (at, rowset) in rowsets.iter().enumerate() {
        if has_number(rowset, number) {
            return Some(at);
        }
    }
    None
}

impl Stores<DiskRowSet> {
    /// The place of the first disk rowset of a number, if there is one.
    pub fn rowset_place(&self, number: u64) -> Option<usize>
        ensures place { result ≡ position (λ s. is_rowset number s.name) self.now.shelf }
        ensures behind { IfSome result (λ at. self.now.frozen < at) }
        ensures within { IfSome result (λ at. at < length self.now.shelf) }
        ensures files { position (λ h. h.number == number) self.now.files ≡ option_map (λ at. at - 1 - self.now.frozen) result }
    {
        match first_numbered(&self.rowsets, number) {
            Some(at) => Some(1 + self.frozen.len() + at),
            None => None,
        }
    }

    /// The name of the disk rowset at a place.
    pub fn target_at(&self, at: usize) -> Target
        requires behind { self.now.frozen < at }
        requires within { at < length self.now.shelf }
        ensures { name_at at self.now.shelf ≡ Some result }
    {
        let memory = self.frozen();
        self.rowsets[at - 1 - memory].target()
    }

    /// Whether the disk rowset at a place has a change in memory. One that has none is what its files tell.
    pub fn has_deltas(&self, at: usize) -> bool
        requires behind { self.now.frozen < at }
        requires within { at < length self.now.shelf }
        ensures { result ≡ false → (h : HeldFiles) → slice_get self.now.files (at - 1 - self.now.frozen) ≡ Some h → slice_get (stores_of self.now) at ≡ Some (store_told h) }
    {
        let memory = self.frozen();
        self.rowsets[at - 1 - memory].has_deltas(&self.pool)
    }

    /// All that the disk rowset at a place has, as plain data: its files, of which it has another owner then, and its changes in
    /// memory, in the order of their rows.
    pub fn read_rowset(&self, alloc: Global, at: usize) -> Result<RowSetData, NoMemory>
        requires behind { self.now.frozen < at }
        requires within { at < length self.now.shelf }
        ensures store { IfOk result (λ d. slice_get (stores_of self.now) at ≡ Some (store_in d)) }
        ensures number { IfOk result (λ d. (number dms : ℕ) → name_at at self.now.shelf ≡ Some (Delta number dms) → d.number ≡ number) }
        ensures lead { IfOk result (λ d. UndosLeadBack (files_in d)) }
        ensures order { IfOk result (λ d. IsNonDecreasingBy (λ c. c.ordinal) d.fresh) }
        ensures held { IfOk result (λ d. slice_get self.now.files (at - 1 - self.now.frozen) ≡ Some (held_in d)) }
    {
        let memory = self.frozen();
        self.rowsets[at - 1 - memory].whole(alloc, &self.pool)
    }

    /// Freezes the DeltaMemStore that takes the changes of the disk rowset at a place. One of this number, with no change, takes
    /// them from now on. Without memory nothing changes.
    pub fn freeze_deltas(&mut self, at: usize, dms: u64) -> Result<(), NoMemory>
        requires behind { self.old.frozen < at }
        requires within { at < length self.old.shelf }
        ensures ok { OnOk result (self.new ≡ record self.old { shelf = on_nth at (renamed dms) self.old.shelf }) }
        ensures err { OnErr result (self.new ≡ self.old) }
    {
        let memory = self.frozen();
        self.rowsets[at - 1 - memory].freeze(dms)?;
        Ok(())
    }

    /// Files that tell all that the disk rowset at a place has take the place of its own, and its DeltaMemStores give their cells
    /// back. The one that takes changes stays, with none. It takes no memory.
    pub fn settle(&mut self, at: usize, rowset: RowSetData)
        requires behind { self.old.frozen < at }
        requires within { at < length self.old.shelf }
        requires lead { UndosLeadBack (files_in rowset) }
        requires none { rowset.fresh ≡ [] }
        requires number { (n : ℕ) × (name_at at self.old.shelf ≡ Some (Delta rowset.number n)) }
        requires store { slice_get (stores_of self.old) at ≡ Some (store_in rowset) }
        ensures stores { stores_of self.new ≡ stores_of self.old }
        ensures names { names_of self.new.shelf ≡ names_of self.old.shelf }
        ensures files { self.new.files ≡ on_nth (at - 1 - self.old.frozen) (λ _. held_in rowset) self.old.files }
        ensures frozen { self.new.frozen ≡ self.old.frozen }
        ensures reserved { self.new.pool.reserved ≡ self.old.pool.reserved }
        ensures size { length self.new.pool.places ≡ length self.old.pool.places }
    {
        laws::frame_law();
        laws::placed_law();
        let memory = self.frozen();
        self.rowsets[at - 1 - memory].settle(&mut self.pool, rowset);
    }
}
