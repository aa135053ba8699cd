//! What a flush does to the stores as it begins: it freezes the one that takes inserts.
ghost use Rattle.std.specs.Prelude.{◌≡◌, ◌<◌, ◌+◌, ◌↔◌, [], length, Some, IsTrue, OnOk, OnErr};

use super::Stores;
use crate::file_store::FileStore;
use kt_base::NoMemory;
use kt_memrowset::MemRowSet;
use std::mem;

impl<R: FileStore> Stores<R> {
    ghost use Rattle.kt_stores.specs.Shelf.{frozen_behind};

    /// Freezes the store that takes inserts. It stands first among the frozen ones then, and a new one of this number,
    /// with no row, takes inserts. Without memory nothing changes.
    pub fn freeze(&mut self, number: u64) -> Result<(), NoMemory>
        ensures ok { OnOk result (self.new ≡ record self.old { shelf = frozen_behind number self.old.shelf; frozen = self.old.frozen + 1 }) }
        ensures err { OnErr result (self.new ≡ self.old) }
    {
        self.frozen.reserve(1)?;
        let mut full = mem::replace(&mut self.active, MemRowSet::new(number));
        full.freeze();
        match self.frozen.insert(0, full) {
            Ok(()) => Ok(()),
            Err(_) => unreachable!(),
        }
    }
}

impl<R: FileStore> Stores<R> {
    ghost use Rattle.kt_history.specs.declared.target.Target.TheVariants.{Mem};
    ghost use Rattle.kt_stores.specs.Shelf.{name_at, rows_in_first};

    /// The number of the store that takes inserts.
    pub fn active_number(&self) -> u64
        ensures { name_at 0 self.now.shelf ≡ Some (Mem result) }
    {
        self.active.id()
    }

    /// The number of the newest frozen store, or 0 where none is frozen.
    pub fn last_frozen(&self) -> u64
        ensures frozen { 0 < self.now.frozen → name_at 1 self.now.shelf ≡ Some (Mem result) }
        ensures none { self.now.frozen ≡ 0 → result ≡ 0 }
    {
        match self.frozen.first() {
            Some(store) => store.id(),
            None => 0,
        }
    }

    /// Whether the store that takes inserts has no row.
    pub fn is_vacant(&self) -> bool
        ensures { IsTrue result ↔ (rows_in_first self.now.shelf ≡ []) }
    {
        self.active.rows() == 0
    }

    /// How many disk rowsets there are.
    pub fn rowsets(&self) -> usize
        ensures { result + self.now.frozen + 1 ≡ length self.now.shelf }
    {
        self.rowsets.len()
    }
}
