//! What a flush does as it begins: it freezes the MemRowSet that takes inserts.
ghost use Rattle.std.specs.Prelude.{◌≡◌, ◌<◌, ◌^◌, ◌+◌, ℕ, ◌↔◌, [], ◌∷◌, suc, map, length, take, IsTrue, IfOk, OnOk, OnErr, Some, slice_get};
ghost use Rattle.kt_history.specs.Machine.{least};
ghost use Rattle.std.specs.Prelude.{List};
ghost use Rattle.kt_history.specs.declared.target.Target.{Target};
ghost use Rattle.kt_history.specs.declared.target.Target.TheVariants.{Mem};
ghost use Rattle.kt_histlaws.specs.Core.{flown_by};
ghost use Rattle.kt_history.specs.Stores.{changes_upto};
ghost use Rattle.kt_stores.specs.Shelf.{stores_of};
ghost use Rattle.kt_tablet.specs.Jobs.{changes_in_memory, filled_of, HasFrozen, rows_in_first};

use super::Tablet;
use kt_base::{Cells, Clock, NoMemory};
use kt_history::ChangeList;
use kt_stores::{FileStore, Stores};
use std::alloc::Global;

// The changes up to a time of each store in memory, as the stores keep them.
fn lists_of<R: FileStore>(
    alloc: Global,
    stores: &Stores<R>,
    upto: u64,
) -> Result<Vec<ChangeList>, NoMemory>
    ensures { IfOk result (λ lists. lists.items ≡ map (changes_upto upto) (take (suc stores.now.frozen) (stores_of stores.now))) }
{
    let mut lists = Vec::new(alloc);
    let last = stores.frozen();
    lists.push(stores.changes(alloc, 0, upto)?)?;
    'frozen: for at in 0..last {
        lists.push(stores.changes(alloc, at + 1, upto)?)?;
    }
    Ok(lists)
}

impl<R: FileStore, C: Clock> Tablet<R, C> {
    /// The changes of each store in memory at or below a time, the one that takes inserts first: by rising key, then timestamp. An insert has its own cells
    /// alone; with the other columns' defaults they are the changes of the tablet.
    pub fn lists_in_memory(&self, alloc: Global, upto: u64) -> Result<Vec<ChangeList>, NoMemory>
        ensures { IfOk result (λ lists. map (map (filled_of self.now.core.work.fill)) lists.items ≡ changes_in_memory upto self.now) }
    {
        lists_of(alloc, &self.stores, upto)
    }

    /// The cells that fill an insert: each column that is no key with its default, or null.
    pub fn fill(&self) -> &Cells
        ensures { result.now ≡ self.now.core.work.fill }
    {
        &self.fill
    }

    /// Whether the MemRowSet that takes inserts has no row.
    pub fn is_vacant(&self) -> bool
        ensures { IsTrue result ↔ (rows_in_first self.now.core.stores ≡ []) }
    {
        self.stores.is_vacant()
    }

    /// The least write that flies.
    pub fn least_flying(&self) -> Option<u64>
        ensures { result ≡ least (map flown_by self.now.core.aloft) }
    {
        self.flight.least()
    }

    /// The number of the newest frozen MemRowSet, or 0 where none is frozen.
    pub fn last_frozen(&self) -> u64
        ensures frozen { 0 < self.now.frozen → slice_get self.now.names 1 ≡ Some (Mem result) }
        ensures none { self.now.frozen ≡ 0 → result ≡ 0 }
    {
        self.stores.last_frozen()
    }

    /// How many MemRowSets are frozen.
    pub fn frozen(&self) -> usize
        ensures { result ≡ self.now.frozen }
    {
        self.stores.frozen()
    }

    /// Freezes the MemRowSet that takes inserts. An empty one of the next number takes its place. Where no number is left there is no memory for one.
    pub fn freeze(&mut self) -> Result<(), NoMemory>
        ensures frozen { OnOk result (HasFrozen self.old self.new) }
        ensures fits { OnOk result ((number : ℕ) (others : List Target) → self.new.names ≡ Mem number ∷ others → number < 2 ^ 64) }
        ensures same { OnErr result (self.new ≡ self.old) }
    {
        let number = self.stores.active_number();
        if number == u64::MAX {
            return Err(NoMemory);
        }
        self.stores.freeze(number + 1)?;
        Ok(())
    }

    /// How many disk rowsets there are.
    pub fn rowsets(&self) -> usize
        ensures { result + self.now.frozen + 1 ≡ length self.now.core.stores }
    {
        self.stores.rowsets()
    }
}
