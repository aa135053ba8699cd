//! The stores and their pool as one value.
pub mod changing;
pub mod flushing;
pub mod rewriting;
pub mod stats;
pub mod taking;

ghost use Rattle.std.specs.Prelude.{◌≡◌, ◌<◌, ◌^◌, ◌+◌, ◌-◌, ◌≤◌, ◌↔◌, length, slice_get, Some, IfOk, IsOk, OnOk, OnErr, MatchResult};
ghost use Rattle.std.specs.Option.{option_map};
ghost use Rattle.kt_history.specs.Stores.{changes_upto};
ghost use Rattle.kt_pool.specs.Contents.{used, free, with_reserved};

use crate::file_store::FileStore;
use crate::range_tree::RangeTree;
use crate::ranged_rowsets::RangedRowSets;
use kt_base::NoMemory;
use kt_history::ChangeList;
use kt_memrowset::MemRowSet;
use kt_pool::{Full, Pool};
use std::alloc::Global;
use std::marker::Model;

/// The stores of a tablet in one pool: the MemRowSet that takes inserts, the frozen ones, the newest first, and the disk
/// rowsets, with the ranges of their keys. Contracts see the stores as a list in this order, and count places in it, and beside it
/// the files of each disk rowset.
#[derive(Drop)]
pub struct Stores<R: FileStore> {
    pool: Pool,
    active: MemRowSet,
    frozen: Vec<MemRowSet>,
    rowsets: Vec<R>,
    ranges: RangeTree,
}

impl<R: FileStore> Model for Stores<R> {
    ghost use Rattle.std.specs.Prelude.{length, map, ◌<◌, ◌^◌};
    ghost use Rattle.kt_stores.specs.Shelf.{StoresView};
    ghost use Rattle.kt_stores.specs.Ranges.{AreRanged};

    ghost Value = { StoresView };

    ghost use Rattle.kt_stores.specs.Parts.{kept, shelved, stands_by, owns_by, read_by, shelf_of, AreKept};

    ghost view = { λ s. record {
      pool = s.pool;
      shelf = shelf_of (read_by (shelved R.target R.store R.is_closed R.cells)) s.pool (kept s.active s.frozen.items s.rowsets.items);
      frozen = length s.frozen.items;
      files = map R.files s.rowsets.items;
    } };

    ghost invariant = { λ s. AreKept (stands_by R.stands) (owns_by R.owns) (read_by (shelved R.target R.store R.is_closed R.cells)) (kept s.active s.frozen.items s.rowsets.items) s.pool × (length s.rowsets.items < 2 ^ 32) × AreRanged (map R.files s.rowsets.items) s.ranges };
}

impl<R: FileStore> Stores<R> {
    ghost use Rattle.std.specs.Prelude.{[], ◌∷◌, map, take};
    ghost use Rattle.kt_history.specs.Grown.{AllGrown};
    ghost use Rattle.kt_stores.specs.Shelf.{stores_of, cells_in, empty_mem, FirstIsOpen, AreExact};
    ghost use Rattle.kt_stores.specs.Parts.{kept, shelved, stands_by, owns_by, read_by, shelf_of, AreKept};

    /// The stores of a pool in which they stand, with no frozen one. All cells that are used are theirs.
    pub fn of(alloc: Global, pool: Pool, active: MemRowSet, rowsets: RangedRowSets<R>) -> Stores<R>
        requires kept { AreKept (stands_by R.stands) (owns_by R.owns) (read_by (shelved R.target R.store R.is_closed R.cells)) (kept active [] rowsets.items) pool }
        requires few { length rowsets.items < 2 ^ 32 }
        ensures pool { result.pool ≡ pool }
        ensures shelf { result.shelf ≡ shelf_of (read_by (shelved R.target R.store R.is_closed R.cells)) pool (kept active [] rowsets.items) }
        ensures frozen { result.frozen ≡ 0 }
        ensures files { result.files ≡ map R.files rowsets.items }
    {
        let (rowsets, ranges) = rowsets.into_parts();
        Stores {
            pool,
            active,
            frozen: Vec::new(alloc),
            rowsets,
            ranges,
        }
    }

    /// One empty MemRowSet of this number, in a pool of which no cell is used.
    pub fn new(alloc: Global, pool: Pool, number: u64) -> Stores<R>
        requires { used pool ≡ 0 }
        ensures pool { result.pool ≡ pool }
        ensures shelf { result.shelf ≡ empty_mem number ∷ [] }
        ensures frozen { result.frozen ≡ 0 }
        ensures files { result.files ≡ [] }
    {
        Stores::of(
            alloc,
            pool,
            MemRowSet::new(number),
            RangedRowSets::empty(alloc),
        )
    }

    /// What always holds of them: all cells that are used are theirs, the first alone takes inserts, one without a row has
    /// no cell, and of a row in memory there is nothing but its changes.
    pub fn standing(&self)
        ensures used { used self.now.pool ≡ cells_in self.now.shelf }
        ensures first { FirstIsOpen self.now.shelf }
        ensures exact { AreExact self.now.shelf }
        ensures memory { AllGrown (take (1 + self.now.frozen) (stores_of self.now)) }
    {
        let _ = &self.active;
    }

    /// Their pool.
    pub fn pool(&self) -> &Pool
        ensures { result.now ≡ self.now.pool }
    {
        &self.pool
    }

    /// How many there are.
    pub fn len(&self) -> usize
        ensures { result ≡ length self.now.shelf }
    {
        1 + self.frozen.len() + self.rowsets.len()
    }

    /// How many of them are frozen MemRowSets.
    pub fn frozen(&self) -> usize
        ensures { result ≡ self.now.frozen }
    {
        self.frozen.len()
    }

    /// How many cells the pool has.
    pub fn size(&self) -> u32
        ensures { result ≡ length self.now.pool.places }
    {
        self.pool.size()
    }

    /// How many cells no store has.
    pub fn free(&self) -> u32
        ensures free { result ≡ free self.now.pool }
        ensures all { result + used self.now.pool ≡ length self.now.pool.places }
    {
        self.pool.free()
    }

    /// How many of the free cells are promised.
    pub fn reserved(&self) -> u32
        ensures reserved { result ≡ self.now.pool.reserved }
        ensures free { result ≤ free self.now.pool }
    {
        self.pool.reserved()
    }

    /// Promises n more cells.
    pub fn reserve(&mut self, n: u32) -> Result<(), Full>
        ensures ok { OnOk result (self.new ≡ record self.old { pool = with_reserved self.old.pool (self.old.pool.reserved + n) }) }
        ensures err { OnErr result (self.new ≡ self.old) }
        ensures full { IsOk result ↔ (n ≤ free self.old.pool - self.old.pool.reserved) }
        ensures says { MatchResult result (λ _. Unit {0}) (λ e. (e.need ≡ n) × (e.free ≡ free self.old.pool - self.old.pool.reserved)) }
    {
        R::frame_law();
        R::placed_law();
        self.pool.reserve(n)
    }

    /// Takes back the promise of n cells.
    pub fn release(&mut self, n: u32)
        requires { n ≤ self.old.pool.reserved }
        ensures { self.new ≡ record self.old { pool = with_reserved self.old.pool (self.old.pool.reserved - n) } }
    {
        R::frame_law();
        R::placed_law();
        self.pool.release(n);
    }

    /// The changes of a store in memory at or below a time, by rising key, then timestamp.
    pub fn changes(&self, alloc: Global, at: usize, upto: u64) -> Result<ChangeList, NoMemory>
        requires { at ≤ self.now.frozen }
        ensures { IfOk result (λ list. option_map (changes_upto upto) (slice_get (stores_of self.now) at) ≡ Some list) }
    {
        if at == 0 {
            self.active.changes(alloc, &self.pool, upto)
        } else {
            self.frozen[at - 1].changes(alloc, &self.pool, upto)
        }
    }
}

impl<R: FileStore> Stores<R> {
    ghost use Rattle.kt_history.specs.Stores.{Store};
    ghost use Rattle.kt_views.specs.Told.{TellsUpTo};
    ghost use Rattle.kt_stores.specs.Shelf.{stores_of};

    /// What tells the rows of the disk rowset at a place up to a time.
    pub fn read_at(&self, alloc: Global, at: usize, upto: u64) -> Result<R::Read, NoMemory>
        requires behind { self.now.frozen < at }
        requires within { at < length self.now.shelf }
        ensures { IfOk result (λ read. (store : Store) → slice_get (stores_of self.now) at ≡ Some store → TellsUpTo R.Read.row_of upto store read) }
    {
        let memory = self.frozen();
        self.rowsets[at - 1 - memory].read(alloc, &self.pool, upto)
    }
}
