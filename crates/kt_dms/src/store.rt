//! The store.
ghost use Rattle.std.specs.Prelude.{◌≡◌, ◌+◌, ◌++◌, ◌≤◌, ℕ, [], Option, None, length, map, nat_le, nat_lt, is_some, IfOk, OnOk, MatchOption};
ghost use Rattle.std.specs.List.{find};
ghost use Rattle.std.specs.Option.{option_map};
ghost use Rattle.kt_history.specs.Rows.{Row};
ghost use Rattle.kt_history.specs.Stores.{after_steps, apply_all, key_change, share, step_at};
ghost use Rattle.kt_pool.specs.Contents.{Contents, at_cell, used};

use crate::changes::place;
use crate::keys::key_of;
use crate::rows::{first_above, is_live, next_row, push_above, push_change, release, row_at};
use kt_base::{Cells, NoMemory};
use kt_history::{ChangeList, Delta, DeltaList, Kindly, OpRef};
use kt_pool::Pool;
use kt_tree::Tree;
use std::alloc::Global;

/// Changes of the rows of a disk rowset, in the cells of a pool. It gives them back by `empty_into` only.
#[derive(Drop)]
pub struct DeltaMem {
    id: u64,
    tree: Tree,
}

impl DeltaMem {
    ghost use Rattle.kt_dms.specs.Stores.{IsStore, deltas_of, steps_for, steps_above, deltas_upto, Owns, cells_had, number_of, Joins};

    /// A store with no change. It takes no cell.
    pub fn new(id: u64) -> DeltaMem
        ensures store { (pool : Contents) → IsStore result pool }
        ensures empty { (pool : Contents) → deltas_of result pool ≡ [] }
        ensures bare { (pool : Contents) (k : ℕ) → ¬ Owns result pool k }
        ensures none { (pool : Contents) → cells_had result pool ≡ 0 }
        ensures number { number_of result ≡ id }
    {
        DeltaMem {
            id,
            tree: Tree::new(),
        }
    }

    /// Its number.
    pub fn id(&self) -> u64
        ensures { result ≡ number_of self.now }
    {
        self.id
    }

    /// How many changes it has.
    pub fn len(&self) -> u32
        ensures { (pool : Contents) → IsStore self.now pool → result ≡ length (deltas_of self.now pool) }
    {
        self.tree.len()
    }

    /// Takes the change of an operation, of the row with this ordinal, in reserved cells: half of what a write of the
    /// operation needs suffices. A change of the row that is there at this timestamp stays, and nothing changes.
    pub fn apply_reserved(
        &mut self,
        pool: &mut Pool,
        ordinal: u32,
        ts: u64,
        op: &OpRef<'_>,
        change: Kindly,
    )
        requires store { IsStore self.old pool.old }
        requires room { share op.now ≤ pool.old.reserved }
        ensures store { IsStore self.new pool.new }
        ensures joins { MatchOption (step_at ts (steps_for ordinal (deltas_of self.old pool.old))) (Joins self.old self.new pool.old pool.new ordinal ts op.now change) (λ _. (self.new ≡ self.old) × (pool.new ≡ pool.old)) }
    {
        let key = key_of(ordinal, ts);
        let seat = self.tree.seek(pool, &key);
        if seat.value.is_some() {
            return;
        }
        let fresh = place(pool, change, op);
        self.tree.insert_at(pool, &seat, &key, fresh);
    }

    /// The row with this ordinal at a time, told the row before the changes of this store.
    pub fn at(
        &self,
        alloc: Global,
        pool: &Pool,
        ordinal: u32,
        base: Option<Cells>,
        t: u64,
    ) -> Result<Option<Cells>, NoMemory>
        requires { IsStore self.now pool.now }
        ensures { IfOk result (λ row. row ≡ after_steps t (steps_for ordinal (deltas_of self.now pool.now)) base) }
    {
        row_at(alloc, &self.tree, pool, ordinal, base, t)
    }

    /// Whether the row with this ordinal is there after all changes, told whether it was before them.
    pub fn live(&self, pool: &Pool, ordinal: u32, before: bool) -> bool
        requires { IsStore self.now pool.now }
        ensures { (row : Option Row) → is_some row ≡ before → result ≡ is_some (apply_all (steps_for ordinal (deltas_of self.now pool.now)) row) }
    {
        is_live(&self.tree, pool, ordinal, before)
    }

    /// Lists all changes at or below a time behind others, by ordinal, then timestamp.
    pub fn list_changes(
        &self,
        alloc: Global,
        pool: &Pool,
        upto: u64,
        list: &mut Vec<Delta>,
    ) -> Result<(), NoMemory>
        requires { IsStore self.now pool.now }
        ensures { OnOk result (list.new.items ≡ list.old.items ++ deltas_upto upto (deltas_of self.now pool.now)) }
    {
        let mut buffer = Vec::new(alloc);
        let mut walk = self.tree.walk(alloc);
        'changes: for _ in 0..self.tree.len() {
            let Ok(next) = walk.next(pool) else {
                return Err(NoMemory);
            };
            let Some(pair) = next else {
                break;
            };
            push_change(alloc, pool, pair, upto, list, &mut buffer)?;
        }
        Ok(())
    }

    /// All changes at or below a time, by ordinal, then timestamp.
    pub fn changes(&self, alloc: Global, pool: &Pool, upto: u64) -> Result<DeltaList, NoMemory>
        requires { IsStore self.now pool.now }
        ensures { IfOk result (λ list. list ≡ deltas_upto upto (deltas_of self.now pool.now)) }
    {
        let mut list = Vec::new(alloc);
        self.list_changes(alloc, pool, upto, &mut list)?;
        Ok(DeltaList::of(list))
    }

    /// The row of the first change that is of a row or of a later one, if there is one.
    pub fn next_row(&self, pool: &Pool, from: u32) -> Option<u32>
        requires { IsStore self.now pool.now }
        ensures { result ≡ option_map (λ d. d.ordinal) (find (λ d. nat_le from d.ordinal) (deltas_of self.now pool.now)) }
    {
        next_row(&self.tree, pool, from)
    }

    /// When a row changed first above a time, if it did.
    pub fn first_above(&self, pool: &Pool, ordinal: u32, above: u64) -> Option<u64>
        requires { IsStore self.now pool.now }
        ensures { result ≡ option_map (λ c. c.0) (find (λ c. nat_lt above c.0) (steps_for ordinal (deltas_of self.now pool.now))) }
    {
        first_above(&self.tree, pool, ordinal, above)
    }

    /// Adds the changes of a row above a time to a list under a key, the oldest first. They are read through a buffer where they
    /// do not lie together.
    pub fn push_above(
        &self,
        pool: &Pool,
        ordinal: u32,
        above: u64,
        key: &[u8],
        list: &mut ChangeList,
        buffer: &mut Vec<u8>,
    ) -> Result<(), NoMemory>
        requires { IsStore self.now pool.now }
        ensures { OnOk result (list.new ≡ list.old ++ map (key_change key.now) (steps_above above (steps_for ordinal (deltas_of self.now pool.now)))) }
    {
        push_above(&self.tree, pool, ordinal, above, key, list, buffer)
    }

    /// Gives back the cells of all nodes, keys and changes.
    pub fn empty_into(&mut self, pool: &mut Pool)
        requires { IsStore self.old pool.old }
        ensures store { IsStore self.new pool.new }
        ensures empty { deltas_of self.new pool.new ≡ [] }
        ensures bare { (k : ℕ) → ¬ Owns self.new pool.new k }
        ensures none { cells_had self.new pool.new ≡ 0 }
        ensures gone { (k : ℕ) → Owns self.old pool.old k → at_cell pool.new k ≡ None }
        ensures frame { (k : ℕ) → ¬ Owns self.old pool.old k → at_cell pool.new k ≡ at_cell pool.old k }
        ensures size { length pool.new.places ≡ length pool.old.places }
        ensures reserved { pool.new.reserved ≡ pool.old.reserved }
        ensures fewer { used pool.new + cells_had self.old pool.old ≡ used pool.old }
        ensures number { number_of self.new ≡ number_of self.old }
    {
        release(&self.tree, pool);
        self.tree.empty_into(pool);
    }
}
