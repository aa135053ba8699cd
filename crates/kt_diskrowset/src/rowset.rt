//! A disk rowset in memory.
pub mod ends;
pub mod first;
pub mod jobs;
pub mod leaving;
pub mod missed;
pub mod reading;
pub mod replaying;
pub mod rewriting;
pub mod stats;

ghost use Rattle.std.specs.Prelude.{◌≡◌, ◌≢◌, ◌+◌, ◌<◌, ◌≤◌, ◌⊎◌, ◌∷◌, ℕ, List, [], length, None, Some, true, is_some, IfOk, OnOk, OnErr};
ghost use Rattle.std.specs.Option.{option_map};
ghost use Rattle.std.specs.FinMap.Entries.{put};
ghost use Rattle.kt_pool.specs.Contents.{Contents, at_cell, used};
ghost use Rattle.kt_history.specs.Rows.{Row, key_cmp, fits};
ghost use Rattle.kt_history.specs.Stores.{Under, hist_in, row_of, last_row, push, kind_made as made, change_of, change_by, is_there, with_change, share, TakesUpTo};
ghost use Rattle.kt_baseset.specs.Tables.{cells_in};
ghost use Rattle.kt_rowfiles.specs.Files.{row_under};

use crate::alive::is_alive;
use crate::base::BaseHeld;
use crate::data::RowSetData;
use crate::files::FileLists;
use crate::mems::{is_live_after, row_after};
use crate::rows::row_at;
use kt_base::{Cells, NoMemory};
use kt_dms::{DeltaMem, laws};
use kt_history::{Kindly, OpRef, Taken, Target, kind_made};
use kt_pool::Pool;
use std::alloc::Global;
use std::mem;

/// A disk rowset: its number, its files, and its DeltaMemStores in the cells of a pool. One of these takes the changes of its
/// rows; the frozen ones, the oldest first, take none.
#[derive(Drop)]
pub struct DiskRowSet {
    number: u64,
    base: BaseHeld,
    undo: FileLists,
    redo: FileLists,
    frozen: Vec<DeltaMem>,
    active: DeltaMem,
}

impl DiskRowSet {
    ghost use Rattle.kt_history.specs.declared.target.Target.TheVariants.{Delta};
    ghost use Rattle.kt_diskrowset.specs.Rows.{UndosLeadBack, hist_at};
    ghost use Rattle.kt_diskrowset.specs.Mems.{told_by};
    ghost use Rattle.kt_diskrowset.specs.Rowset.{frozen_of, mems_of, held_of, files_of, fresh_of, store_of, IsStore, Owns, cells_had, name_of};
    ghost use Rattle.kt_diskrowset.specs.Joining.{Joined, IsFrozen, IsSame};
    ghost use Rattle.kt_diskrowset.specs.Data.{held_in, files_in, store_in};

    /// The disk rowset of these files, with no change in memory. A DeltaMemStore of this number takes its changes. It has no
    /// cell yet.
    pub fn of(alloc: Global, rowset: RowSetData, dms: u64) -> DiskRowSet
        requires lead { UndosLeadBack (files_in rowset) }
        requires none { rowset.fresh ≡ [] }
        ensures held { held_of result ≡ held_in rowset }
        ensures stands { (pool : Contents) → IsStore result pool }
        ensures store { (pool : Contents) → store_of result pool ≡ store_in rowset }
        ensures told { (pool : Contents) → told_by pool (mems_of result) ≡ (dms, []) ∷ [] }
        ensures bare { (pool : Contents) (k : ℕ) → ¬ Owns result pool k }
        ensures none { (pool : Contents) → cells_had result pool ≡ 0 }
        ensures name { name_of result ≡ Delta rowset.number dms }
    {
        DiskRowSet {
            number: rowset.number,
            base: rowset.base,
            undo: rowset.undo,
            redo: rowset.redo,
            frozen: Vec::new(alloc),
            active: DeltaMem::new(dms),
        }
    }

    /// The names of the rowset and of the DeltaMemStore that takes its changes.
    pub fn target(&self) -> Target
        ensures { result ≡ name_of self.now }
    {
        Target::Delta {
            rowset: self.number,
            dms: self.active.id(),
        }
    }

    // Whether the row at a place is there after all changes.
    fn is_live(&self, pool: &Pool, ordinal: u32) -> bool
        requires { IsStore self.now pool.now }
        ensures { (q : List ℕ) (found : ℕ × Row) → row_under q 0 (files_of self.now).base ≡ Some found → found.0 ≡ ordinal → result ≡ is_some (last_row (hist_at (files_of self.now) (fresh_of self.now pool.now) found)) }
    {
        let in_files = is_alive(&self.redo, ordinal, true);
        let in_frozen = is_live_after(pool, &self.frozen, ordinal, in_files);
        self.active.live(pool, ordinal, in_frozen)
    }

    /// Whether the row of a key is there after all changes.
    pub fn live(&self, pool: &Pool, key: &[u8]) -> bool
        requires { IsStore self.now pool.now }
        ensures { result ≡ is_some (last_row (hist_in key.now (store_of self.now pool.now))) }
    {
        match self.base.ordinal(key) {
            Some(ordinal) => self.is_live(pool, ordinal),
            None => false,
        }
    }

    // The row at a place at a time.
    fn row_at(
        &self,
        alloc: Global,
        pool: &Pool,
        ordinal: u32,
        t: u64,
    ) -> Result<Option<Cells>, NoMemory>
        requires stands { IsStore self.now pool.now }
        requires inside { ordinal < length self.now.base.set.value.rows }
        ensures { IfOk result (λ row. (q : List ℕ) → row_under q 0 (files_of self.now).base ≡ Some (ordinal, cells_in self.now.base.set.value.rows ordinal) → row ≡ row_of t (hist_at (files_of self.now) (fresh_of self.now pool.now) (ordinal, cells_in self.now.base.set.value.rows ordinal))) }
    {
        let base = self.base.row(alloc, ordinal)?;
        let in_files = row_at(alloc, &self.undo, &self.redo, ordinal, base, t)?;
        let in_frozen = row_after(alloc, pool, &self.frozen, ordinal, in_files, t)?;
        self.active.at(alloc, pool, ordinal, in_frozen, t)
    }

    /// The row of a key at a time.
    pub fn at(
        &self,
        alloc: Global,
        pool: &Pool,
        key: &[u8],
        t: u64,
    ) -> Result<Option<Cells>, NoMemory>
        requires { IsStore self.now pool.now }
        ensures { IfOk result (λ row. row ≡ row_of t (hist_in key.now (store_of self.now pool.now))) }
    {
        match self.base.ordinal(key) {
            Some(ordinal) => self.row_at(alloc, pool, ordinal, t),
            None => Ok(None),
        }
    }

    // Takes the change of an operation on the row at a place.
    fn join(&mut self, pool: &mut Pool, ordinal: u32, ts: u64, op: &OpRef<'_>, change: Kindly)
        requires stands { IsStore self.old pool.old }
        requires reserved { share op.now ≤ pool.old.reserved }
        ensures { Joined self.old self.new pool.old pool.new ordinal ts op.now change }
    {
        laws::share_law();
        self.active.apply_reserved(pool, ordinal, ts, op, change);
    }

    /// Takes the change of an operation, which is no insert and fits the row after all changes, in reserved cells: half of what
    /// a write of the operation needs suffices.
    pub fn apply_reserved(
        &mut self,
        pool: &mut Pool,
        ts: u64,
        op: &OpRef<'_>,
        change: Kindly,
    ) -> Target
        requires stands { IsStore self.old pool.old }
        requires reserved { share op.now ≤ pool.old.reserved }
        requires fits { fits (change_of change op.now.cells) (last_row (hist_in op.now.key (store_of self.old pool.old))) ≡ true }
        requires thawed { change ≢ Kindly.Ins }
        ensures stands { IsStore self.new pool.new }
        ensures pushed { Under ts (hist_in op.now.key (store_of self.old pool.old)).steps → store_of self.new pool.new ≡ put key_cmp op.now.key (push ts (change_of change op.now.cells) (hist_in op.now.key (store_of self.old pool.old))) (store_of self.old pool.old) }
        ensures named { result ≡ name_of self.old }
        ensures name { name_of self.new ≡ name_of self.old }
        ensures held { held_of self.new ≡ held_of self.old }
        ensures frozen { told_by pool.new (frozen_of self.new) ≡ told_by pool.old (frozen_of self.old) }
        ensures takes { TakesUpTo (share op.now) pool.old pool.new }
        ensures more { cells_had self.new pool.new + used pool.old ≡ cells_had self.old pool.old + used pool.new }
        ensures keeps { (k : ℕ) → Owns self.old pool.old k → Owns self.new pool.new k }
        ensures grows { (k : ℕ) → Owns self.new pool.new k → Owns self.old pool.old k ⊎ (at_cell pool.old k ≡ None) }
        ensures frame { (k : ℕ) → ¬ Owns self.new pool.new k → at_cell pool.new k ≡ at_cell pool.old k }
    {
        let Some(ordinal) = self.base.ordinal(op.key()) else {
            unreachable!();
        };
        self.join(pool, ordinal, ts, op, change);
        self.target()
    }

    /// Takes the change of an operation on a row that is there, if it makes one, in reserved cells: half of what a write of the
    /// operation needs suffices. It looks for the row once.
    pub fn take(&mut self, pool: &mut Pool, ts: u64, op: &OpRef<'_>) -> Taken
        requires stands { IsStore self.old pool.old }
        requires reserved { share op.now ≤ pool.old.reserved }
        requires live { is_there op.now (store_of self.old pool.old) ≡ true }
        ensures stands { IsStore self.new pool.new }
        ensures there { result.there ≡ true }
        ensures changed { Under ts (hist_in op.now.key (store_of self.old pool.old)).steps → store_of self.new pool.new ≡ with_change op.now.key ts (change_by op.now true) (store_of self.old pool.old) }
        ensures named { result.target ≡ option_map (λ _. name_of self.old) (made op.now.kind true) }
        ensures name { name_of self.new ≡ name_of self.old }
        ensures held { held_of self.new ≡ held_of self.old }
        ensures frozen { told_by pool.new (frozen_of self.new) ≡ told_by pool.old (frozen_of self.old) }
        ensures takes { TakesUpTo (share op.now) pool.old pool.new }
        ensures more { cells_had self.new pool.new + used pool.old ≡ cells_had self.old pool.old + used pool.new }
        ensures has_row { store_of self.new pool.new ≡ [] → result.target ≡ None }
        ensures idle { result.target ≡ None → (self.new ≡ self.old) × (pool.new ≡ pool.old) }
        ensures keeps { (k : ℕ) → Owns self.old pool.old k → Owns self.new pool.new k }
        ensures grows { (k : ℕ) → Owns self.new pool.new k → Owns self.old pool.old k ⊎ (at_cell pool.old k ≡ None) }
        ensures frame { (k : ℕ) → ¬ Owns self.new pool.new k → at_cell pool.new k ≡ at_cell pool.old k }
    {
        let Some(kind) = kind_made(op.kind(), true) else {
            return Taken {
                there: true,
                target: None,
            };
        };
        let Some(ordinal) = self.base.ordinal(op.key()) else {
            unreachable!();
        };
        self.join(pool, ordinal, ts, op, kind);
        Taken {
            there: true,
            target: Some(self.target()),
        }
    }

    /// Freezes the DeltaMemStore that takes changes. One of this number, with no change, takes them from now on. Without memory
    /// the rowset stands as it was.
    pub fn freeze(&mut self, dms: u64) -> Result<(), NoMemory>
        ensures ok { OnOk result (IsFrozen self.old self.new dms) }
        ensures err { OnErr result (IsSame self.old self.new) }
    {
        self.frozen.reserve(1)?;
        let full = mem::replace(&mut self.active, DeltaMem::new(dms));
        match self.frozen.push(full) {
            Ok(()) => Ok(()),
            Err(_) => unreachable!(),
        }
    }
}
