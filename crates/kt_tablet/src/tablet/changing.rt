//! What a job does in its end: what it took of the stores leaves, and its outputs come behind the others. And what a compaction reads.
ghost use Rattle.std.specs.Prelude.{◌≡◌, ◌==◌, ◌≤◌, ◌<◌, ◌^◌, ◌+◌, [], true, map, length, slice_get, Some, IfOk};
ghost use Rattle.std.specs.List.{AllByRecursion, list_any};
ghost use Rattle.std.specs.List.Sorted.{IsNonDecreasingBy};
ghost use Rattle.kt_diskrowset.specs.Data.{files_in, held_in, store_in};
ghost use Rattle.kt_diskrowset.specs.Rows.{UndosLeadBack};
ghost use Rattle.kt_diskrowset.specs.Rowset.{store_of, name_of, held_of};
ghost use Rattle.kt_history.specs.declared.target.Target.TheVariants.{Mem};
ghost use Rattle.kt_stores.specs.Leaving.{AreNew};
ghost use Rattle.kt_stores.specs.Takes.{mems, rowsets, files_taken};
ghost use Rattle.kt_tablet.specs.Jobs.{taken_rowsets, MayChangeOver, HasChangedOver};

use super::Tablet;
use kt_base::{Clock, NoMemory};
use kt_diskrowset::{DiskRowSet, RowSetData};
use kt_stores::RangedRowSets;
use std::alloc::Global;

impl<C: Clock> Tablet<DiskRowSet, C> {
    /// The frozen MemRowSets of numbers up to one leave while nothing flies, and disk rowsets come behind the others. They have no change in memory and show from the
    /// mark on what those show that leave, and an empty list has room for all disk rowsets. It takes no memory.
    pub fn change_over(
        &mut self,
        last: u64,
        outputs: RangedRowSets<DiskRowSet>,
        room: RangedRowSets<DiskRowSet>,
    )
        requires calm { self.old.core.aloft ≡ [] }
        requires outputs { AreNew self.old.pool outputs.items }
        requires vacant { room.items ≡ [] }
        requires room { length self.old.core.stores + length outputs.items ≤ room.room + self.old.frozen + 1 }
        requires few { length self.old.core.stores + length outputs.items < 2 ^ 32 }
        requires may { MayChangeOver self.old (mems last) (map (λ r. store_of r self.old.pool) outputs.items) }
        ensures { HasChangedOver self.old self.new (mems last) (map (λ r. store_of r self.old.pool) outputs.items) (map name_of outputs.items) (map held_of outputs.items) }
    {
        self.stores.change_over(last, outputs, room);
    }

    /// The disk rowsets of some numbers leave while nothing flies, and others come behind those that are left, as in `change_over`. It takes no memory.
    pub fn compact_over(
        &mut self,
        numbers: &[u64],
        outputs: RangedRowSets<DiskRowSet>,
        room: RangedRowSets<DiskRowSet>,
    )
        requires calm { self.old.core.aloft ≡ [] }
        requires outputs { AreNew self.old.pool outputs.items }
        requires vacant { room.items ≡ [] }
        requires room { length self.old.core.stores + length outputs.items ≤ room.room + self.old.frozen + 1 }
        requires few { length self.old.core.stores + length outputs.items < 2 ^ 32 }
        requires may { MayChangeOver self.old (rowsets numbers.now) (map (λ r. store_of r self.old.pool) outputs.items) }
        ensures { HasChangedOver self.old self.new (rowsets numbers.now) (map (λ r. store_of r self.old.pool) outputs.items) (map name_of outputs.items) (map held_of outputs.items) }
    {
        self.stores.compact_over(numbers, outputs, room);
    }

    /// The number of the MemRowSet that takes inserts.
    pub fn active_number(&self) -> u64
        ensures { slice_get self.now.names 0 ≡ Some (Mem result) }
    {
        self.stores.active_number()
    }

    /// All that the disk rowsets of some numbers have, as plain data, in the order in which they stand.
    pub fn read_taken(&self, alloc: Global, numbers: &[u64]) -> Result<Vec<RowSetData>, NoMemory>
        ensures stores { IfOk result (λ list. map store_in list.items ≡ taken_rowsets numbers.now self.now) }
        ensures files { IfOk result (λ list. map held_in list.items ≡ files_taken numbers.now self.now.files) }
        ensures numbers { IfOk result (λ list. AllByRecursion (λ d. list_any (λ s. s == d.number) numbers.now ≡ true) list.items) }
        ensures lead { IfOk result (λ list. AllByRecursion (λ d. UndosLeadBack (files_in d)) list.items) }
        ensures order { IfOk result (λ list. AllByRecursion (λ d. IsNonDecreasingBy (λ c. c.ordinal) d.fresh) list.items) }
    {
        self.stores.read_taken(alloc, numbers)
    }
}
