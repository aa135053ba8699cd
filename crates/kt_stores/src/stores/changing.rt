//! What a job does in its end: the stores that it took leave with their cells, and its outputs come behind the others.
ghost use Rattle.std.specs.Prelude.{◌≡◌, ◌==◌, ◌≤◌, ◌<◌, ◌^◌, ◌+◌, ◌++◌, [], List, true, suc, length, map, take, drop, vec_capacity, IfOk};
ghost use Rattle.std.specs.List.{AllByRecursion, filter, list_any};
ghost use Rattle.std.specs.List.Sorted.{IsNonDecreasingBy};
ghost use Rattle.kt_pool.specs.Contents.{Contents};
ghost use Rattle.kt_history.specs.Beside.{AllStand, AreApart};
ghost use Rattle.kt_memrowset.specs.declared.store.MemRowSet.{MemRowSet as MemRowSetSpec};
ghost use Rattle.kt_memrowset.specs.Stores.{IsStore, Owns};
ghost use Rattle.kt_diskrowset.specs.Data.{files_in, held_in, store_in};
ghost use Rattle.kt_diskrowset.specs.Rows.{UndosLeadBack};
ghost use Rattle.kt_diskrowset.specs.declared.rowset.DiskRowSet.{DiskRowSet as DiskRowSetSpec};
ghost use Rattle.kt_diskrowset.specs.Rowset as rowset_specs;
ghost use Rattle.kt_diskrowset.specs.Rowset.{name_of, held_of};
ghost use Rattle.kt_stores.specs.Parts.{shelved_mem};
ghost use Rattle.kt_stores.specs.Ranges.{AreRanged};
ghost use Rattle.kt_stores.specs.Leaving.{HaveLeft, Going, AreNew, shelved_rowset, stays_behind, stays_beside};
ghost use Rattle.kt_stores.specs.Shelf.{names_of, stores_of};
ghost use Rattle.kt_stores.specs.Takes.{mems, rowsets, takes, of_taken, left_on, files_left, files_taken, shelf_over};

use super::Stores;
use crate::file_store::FileStore;
use crate::range_tree::RangeTree;
use crate::ranged_rowsets::RangedRowSets;
use kt_base::NoMemory;
use kt_diskrowset::{DiskRowSet, RowSetData, laws};
use kt_history::Target;
use kt_memrowset::MemRowSet;
use kt_pool::Pool;
use std::alloc::Global;
use std::mem;

// The MemRowSet at a place gives its cells back and leaves, if its number is not above one. It tells the place of the next one.
fn empty_at(stores: &mut Vec<MemRowSet>, pool: &mut Pool, at: usize, last: u64) -> usize
    requires within { at < length stores.old.items }
    requires stand { AllStand IsStore pool.old stores.old.items }
    ensures going { (all : List MemRowSetSpec) (old : Contents) → Going IsStore Owns shelved_mem (stays_behind last) all stores.old.items at old pool.old → Going IsStore Owns shelved_mem (stays_behind last) all stores.new.items result old pool.new }
    ensures fewer { length stores.new.items + at < length stores.old.items + result }
    ensures within { result ≤ length stores.new.items }
{
    if stores[at].id() > last {
        return at + 1;
    }
    let mut store = stores.remove(at);
    store.empty_into(pool);
    at
}

// Those of these MemRowSets whose numbers are not above one give their cells back and leave.
fn empty_upto(stores: &mut Vec<MemRowSet>, pool: &mut Pool, last: u64)
    requires stand { AllStand IsStore pool.old stores.old.items }
    requires apart { AreApart Owns pool.old stores.old.items }
    ensures left { stores.new.items ≡ filter (stays_behind last) stores.old.items }
    ensures gone { HaveLeft IsStore Owns shelved_mem stores.old.items stores.new.items pool.old pool.new }
{
    let mut at = 0;
    'stores: while at < stores.len() {
        at = empty_at(stores, pool, at, last);
    }
}

// Whether a rowset is one of these numbers.
pub(crate) fn is_among(rowset: &DiskRowSet, numbers: &[u64]) -> bool
    ensures { result ≡ takes (rowsets numbers.now) (name_of rowset.now) }
{
    match rowset.target() {
        Target::Delta { rowset, .. } => numbers.contains(&rowset),
        Target::Mem(_) => false,
    }
}

// The disk rowset at a place gives its cells back and leaves, if it is one of these numbers. It tells the place of the next one.
fn leave_at(stores: &mut Vec<DiskRowSet>, pool: &mut Pool, at: usize, numbers: &[u64]) -> usize
    requires within { at < length stores.old.items }
    requires stand { AllStand rowset_specs.IsStore pool.old stores.old.items }
    ensures going { (all : List DiskRowSetSpec) (old : Contents) → Going rowset_specs.IsStore rowset_specs.Owns shelved_rowset (stays_beside numbers.now) all stores.old.items at old pool.old → Going rowset_specs.IsStore rowset_specs.Owns shelved_rowset (stays_beside numbers.now) all stores.new.items result old pool.new }
    ensures fewer { length stores.new.items + at < length stores.old.items + result }
    ensures within { result ≤ length stores.new.items }
{
    if !is_among(&stores[at], numbers) {
        return at + 1;
    }
    stores.remove(at).leave(pool);
    at
}

// Those of these disk rowsets that are of these numbers give their cells back and leave.
fn leave_all(stores: &mut Vec<DiskRowSet>, pool: &mut Pool, numbers: &[u64])
    requires stand { AllStand rowset_specs.IsStore pool.old stores.old.items }
    requires apart { AreApart rowset_specs.Owns pool.old stores.old.items }
    ensures left { stores.new.items ≡ filter (stays_beside numbers.now) stores.old.items }
    ensures gone { HaveLeft rowset_specs.IsStore rowset_specs.Owns shelved_rowset stores.old.items stores.new.items pool.old pool.new }
{
    let mut at = 0;
    'stores: while at < stores.len() {
        at = leave_at(stores, pool, at, numbers);
    }
}

// Others come behind these, all into an empty vector that has room for them.
fn put_behind<R>(stores: &mut Vec<R>, outputs: Vec<R>, room: Vec<R>)
    requires vacant { room.items ≡ [] }
    requires room { length stores.old.items + length outputs.items ≤ vec_capacity room }
    ensures { stores.new.items ≡ stores.old.items ++ outputs.items }
{
    let mut others = mem::replace(stores, room);
    match stores.append(&mut others) {
        Ok(()) => others.destroy_empty(),
        Err(_) => unreachable!(),
    }
    let mut outputs = outputs;
    match stores.append(&mut outputs) {
        Ok(()) => outputs.destroy_empty(),
        Err(_) => unreachable!(),
    }
}

// Others come behind these with their ranges, all into an empty list that has room for them.
fn come_behind<R: FileStore + Drop>(
    rowsets: &mut Vec<R>,
    ranges: &mut RangeTree,
    outputs: RangedRowSets<R>,
    room: RangedRowSets<R>,
)
    requires ranged { AreRanged (map R.files rowsets.old.items) ranges.old }
    requires vacant { room.items ≡ [] }
    requires room { length rowsets.old.items + length outputs.items ≤ room.room }
    ensures rowsets { rowsets.new.items ≡ rowsets.old.items ++ outputs.items }
    ensures ranged { AreRanged (map R.files rowsets.new.items) ranges.new }
{
    let first = rowsets.len() as u64;
    let (outputs, more) = outputs.into_parts();
    let (room, empty) = room.into_parts();
    put_behind(rowsets, outputs, room);
    let own = mem::replace(ranges, empty);
    ranges.take_over(0, own);
    ranges.take_over(first, more);
}

impl Stores<DiskRowSet> {
    /// The frozen MemRowSets of numbers up to one leave, and their cells are free then. Disk rowsets come behind the others. They stand in the pool and have no cell
    /// there yet, and there is an empty list with room for all disk rowsets. It takes no memory.
    pub fn change_over(
        &mut self,
        last: u64,
        outputs: RangedRowSets<DiskRowSet>,
        room: RangedRowSets<DiskRowSet>,
    )
        requires outputs { AreNew self.old.pool outputs.items }
        requires vacant { room.items ≡ [] }
        requires room { length self.old.shelf + length outputs.items ≤ room.room + self.old.frozen + 1 }
        requires few { length self.old.shelf + length outputs.items < 2 ^ 32 }
        ensures shelf { self.new.shelf ≡ shelf_over (mems last) (map (λ r. shelved_rowset r self.old.pool) outputs.items) self.old.shelf }
        ensures files { self.new.files ≡ files_left (mems last) self.old.files ++ map held_of outputs.items }
        ensures frozen { self.new.frozen ≡ length (left_on (mems last) (take self.old.frozen (drop 1 self.old.shelf))) }
        ensures reserved { self.new.pool.reserved ≡ self.old.pool.reserved }
        ensures size { length self.new.pool.places ≡ length self.old.pool.places }
    {
        laws::frame_law();
        laws::placed_law();
        empty_upto(&mut self.frozen, &mut self.pool, last);
        come_behind(&mut self.rowsets, &mut self.ranges, outputs, room);
    }

    /// The disk rowsets of some numbers leave, and their cells are free then. Others come behind those that are left, as in `change_over`. It takes no memory.
    pub fn compact_over(
        &mut self,
        numbers: &[u64],
        outputs: RangedRowSets<DiskRowSet>,
        room: RangedRowSets<DiskRowSet>,
    )
        requires outputs { AreNew self.old.pool outputs.items }
        requires vacant { room.items ≡ [] }
        requires room { length self.old.shelf + length outputs.items ≤ room.room + self.old.frozen + 1 }
        requires few { length self.old.shelf + length outputs.items < 2 ^ 32 }
        ensures shelf { self.new.shelf ≡ shelf_over (rowsets numbers.now) (map (λ r. shelved_rowset r self.old.pool) outputs.items) self.old.shelf }
        ensures files { self.new.files ≡ files_left (rowsets numbers.now) self.old.files ++ map held_of outputs.items }
        ensures frozen { self.new.frozen ≡ length (left_on (rowsets numbers.now) (take self.old.frozen (drop 1 self.old.shelf))) }
        ensures reserved { self.new.pool.reserved ≡ self.old.pool.reserved }
        ensures size { length self.new.pool.places ≡ length self.old.pool.places }
    {
        laws::frame_law();
        laws::placed_law();
        self.ranges.leave(&self.rowsets, numbers);
        leave_all(&mut self.rowsets, &mut self.pool, numbers);
        come_behind(&mut self.rowsets, &mut self.ranges, outputs, room);
    }

    /// All that the disk rowsets of some numbers have, as plain data, in the order in which they stand.
    pub fn read_taken(&self, alloc: Global, numbers: &[u64]) -> Result<Vec<RowSetData>, NoMemory>
        ensures stores { IfOk result (λ list. map store_in list.items ≡ of_taken (rowsets numbers.now) (drop (suc self.now.frozen) (names_of self.now.shelf)) (drop (suc self.now.frozen) (stores_of self.now))) }
        ensures files { IfOk result (λ list. map held_in list.items ≡ files_taken numbers.now self.now.files) }
        ensures numbers { IfOk result (λ list. AllByRecursion (λ d. list_any (λ s. s == d.number) numbers.now ≡ true) list.items) }
        ensures lead { IfOk result (λ list. AllByRecursion (λ d. UndosLeadBack (files_in d)) list.items) }
        ensures order { IfOk result (λ list. AllByRecursion (λ d. IsNonDecreasingBy (λ c. c.ordinal) d.fresh) list.items) }
    {
        let mut list = Vec::new(alloc);
        'rowsets: for rowset in &self.rowsets {
            if is_among(rowset, numbers) {
                list.push(rowset.whole(alloc, &self.pool)?)?;
            }
        }
        Ok(list)
    }
}
