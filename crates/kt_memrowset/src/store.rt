//! The store.
ghost use Rattle.std.specs.Prelude.{◌≡◌, ◌↔◌, ◌+◌, ◌≤◌, ℕ, [], length, is_some, None, IfOk, true, false};
ghost use Rattle.std.specs.Option.{option_copied};
ghost use Rattle.kt_pool.specs.Contents.{Contents, at_cell, used};
ghost use Rattle.kt_history.specs.Stores.{hist_in, row_of};
ghost use Rattle.kt_history.specs.Rows.{fits};

use crate::chain::{is_live, octets_at, push_row, release, row_at};
use crate::link::{Head, NOTHING};
use crate::times::Times;
use crate::write::{extend, place};
use kt_base::{Cells, NoMemory, Octets};
use kt_history::{ChangeList, Kindly, OpRef, Taken, Target, kind_made};
use kt_pool::{Place, Pool};
use kt_tree::{Seat, Tree};
use std::alloc::Global;

// Makes room for the changes of the other rows, on the scale of those that are listed, when some are listed and again when many are.
fn room_for_rest(list: &mut ChangeList, listed: u32, rows: u32)
    ensures { list.new ≡ list.old }
{
    if matches!(listed, 64 | 4_096 | 262_144 | 16_777_216) {
        list.make_room(listed as usize, rows.saturating_sub(listed) as usize);
    }
}

/// Rows in the cells of a pool. It gives them back by `empty_into` only.
#[derive(Drop)]
pub struct MemRowSet {
    id: u64,
    frozen: bool,
    tree: Tree,
    newest: u32,
}

impl MemRowSet {
    ghost use Rattle.std.specs.Option.{option_map};
    ghost use Rattle.kt_tree.specs.Entries.{value_of};
    ghost use Rattle.kt_tree.specs.Trees.{IsSeat, entries, place_at};
    ghost use Rattle.kt_memrowset.specs.Taking.{JoinsIf};
    ghost use Rattle.kt_memrowset.specs.Times.{changes_in, changes_over};
    ghost use Rattle.kt_history.specs.Stores.{kind_made, is_there, last_row, share, changes_upto};
    ghost use Rattle.kt_memrowset.specs.Stores.{IsStore, store_of, Owns, cells_had, number_of, is_frozen, change_by, Joins, key_past};

    /// A store with no row. It takes no cell.
    pub fn new(id: u64) -> MemRowSet
        ensures store { (pool : Contents) → IsStore result pool }
        ensures empty { (pool : Contents) → store_of result pool ≡ [] }
        ensures bare { (pool : Contents) (k : ℕ) → ¬ Owns result pool k }
        ensures none { (pool : Contents) → cells_had result pool ≡ 0 }
        ensures number { number_of result ≡ id }
        ensures open_ { is_frozen result ≡ false }
    {
        MemRowSet {
            id,
            frozen: false,
            tree: Tree::new(),
            newest: NOTHING,
        }
    }

    /// Its number.
    pub fn id(&self) -> u64
        ensures { result ≡ number_of self.now }
    {
        self.id
    }

    /// How many keys it has, those of deleted rows too.
    pub fn rows(&self) -> u32
        ensures { (pool : Contents) → IsStore self.now pool → result ≡ length (store_of self.now pool) }
    {
        self.tree.len()
    }

    /// Takes no insert from now on.
    pub fn freeze(&mut self)
        ensures frozen { is_frozen self.new ≡ true }
        ensures number { number_of self.new ≡ number_of self.old }
        ensures store { (pool : Contents) → IsStore self.old pool → IsStore self.new pool }
        ensures same { (pool : Contents) → store_of self.new pool ≡ store_of self.old pool }
        ensures owns { (pool : Contents) (k : ℕ) → Owns self.new pool k ↔ Owns self.old pool k }
        ensures had { (pool : Contents) → cells_had self.new pool ≡ cells_had self.old pool }
    {
        self.frozen = true;
    }

    pub fn is_frozen(&self) -> bool
        ensures { result ≡ is_frozen self.now }
    {
        self.frozen
    }

    /// Whether the row of a key is there after all its changes.
    pub fn live(&self, pool: &Pool, key: &[u8]) -> bool
        requires { IsStore self.now pool.now }
        ensures { result ≡ is_some (last_row (hist_in key.now (store_of self.now pool.now))) }
    {
        is_live(pool, self.tree.get(pool, key))
    }

    /// The row of a key at a time.
    pub fn at(
        &self,
        alloc: Global,
        pool: &Pool,
        key: &[u8],
        t: u64,
    ) -> Result<Option<Cells>, NoMemory>
        requires { IsStore self.now pool.now }
        ensures { IfOk result (λ row. row ≡ row_of t (hist_in key.now (store_of self.now pool.now))) }
    {
        match self.tree.get(pool, key) {
            Some(first) => row_at(alloc, pool, first.cell, t),
            None => Ok(None),
        }
    }

    /// Takes the change of an operation, which fits the row after all its changes, in reserved cells: half of what a write
    /// of the operation needs suffices.
    pub fn apply_reserved(
        &mut self,
        pool: &mut Pool,
        ts: u64,
        op: &OpRef<'_>,
        change: Kindly,
    ) -> Target
        requires store { IsStore self.old pool.old }
        requires room { share op.now ≤ pool.old.reserved }
        requires fits { fits (change_by change op.now) (last_row (hist_in op.now.key (store_of self.old pool.old))) ≡ true }
        requires thawed { change ≡ Kindly.Ins → is_frozen self.old ≡ false }
        ensures joins { Joins self.old self.new pool.old pool.new op.now ts change }
        ensures target { result ≡ Target.Mem (number_of self.old) }
    {
        let seat = self.tree.seek(pool, op.key());
        self.join(pool, &seat, ts, op, change)
    }

    /// Takes the change of an operation, if it makes one, in reserved cells: half of what a write of the operation needs
    /// suffices. It looks for the row once.
    pub fn take(&mut self, pool: &mut Pool, ts: u64, op: &OpRef<'_>) -> Taken
        requires store { IsStore self.old pool.old }
        requires room { share op.now ≤ pool.old.reserved }
        requires thawed { is_there op.now (store_of self.old pool.old) ≡ false → is_frozen self.old ≡ false }
        ensures there { result.there ≡ is_some (last_row (hist_in op.now.key (store_of self.old pool.old))) }
        ensures joins { JoinsIf self.old self.new pool.old pool.new op.now ts (kind_made op.now.kind result.there) }
        ensures target { result.target ≡ option_map (λ _. Target.Mem (number_of self.old)) (kind_made op.now.kind result.there) }
    {
        let seat = self.tree.seek(pool, op.key());
        let there = is_live(pool, seat.value);
        let Some(kind) = kind_made(op.kind(), there) else {
            return Taken {
                there,
                target: None,
            };
        };
        let target = self.join(pool, &seat, ts, op, kind);
        Taken {
            there,
            target: Some(target),
        }
    }

    // Takes a change of the row whose first change is placed at this seat, or else of a new row there.
    fn join(
        &mut self,
        pool: &mut Pool,
        seat: &Seat,
        ts: u64,
        op: &OpRef<'_>,
        change: Kindly,
    ) -> Target
        requires store { IsStore self.old pool.old }
        requires found { seat.now.value ≡ option_map place_at (value_of op.now.key (entries self.old.tree pool.old)) }
        requires seat { IsSeat self.old.tree pool.old op.now.key seat.now }
        requires room { share op.now ≤ pool.old.reserved }
        requires fits { fits (change_by change op.now) (last_row (hist_in op.now.key (store_of self.old pool.old))) ≡ true }
        ensures joins { Joins self.old self.new pool.old pool.new op.now ts change }
        ensures target { result ≡ Target.Mem (number_of self.old) }
    {
        let head = Head {
            next: NOTHING,
            last: NOTHING,
            before: self.newest,
            ts,
            kind: change,
        };
        let fresh = place(pool, head, op);
        self.newest = fresh;
        if let Some(first) = seat.value {
            extend(pool, first.cell, fresh);
            return Target::Mem(self.id);
        }
        self.tree
            .insert_at(pool, seat, op.key(), Place { cell: fresh });
        Target::Mem(self.id)
    }

    /// The least key above this one, or the least of all. A deleted row's key is one of them.
    pub fn key_after(
        &self,
        alloc: Global,
        pool: &Pool,
        after: Option<&[u8]>,
    ) -> Result<Option<Octets>, NoMemory>
        requires { IsStore self.now pool.now }
        ensures { IfOk result (λ key. key ≡ key_past (option_copied after.entry) (store_of self.now pool.now)) }
    {
        match self.tree.after(pool, after) {
            Some(pair) => Ok(Some(octets_at(alloc, pool, pair.key.cell)?)),
            None => Ok(None),
        }
    }

    /// All changes at or below a time, by rising key and then as they were made.
    pub fn changes(&self, alloc: Global, pool: &Pool, upto: u64) -> Result<ChangeList, NoMemory>
        requires { IsStore self.now pool.now }
        ensures { IfOk result (λ list. list ≡ changes_upto upto (store_of self.now pool.now)) }
    {
        self.list(alloc, pool, Times::UpTo(upto))
    }

    /// All changes above a time, by rising key and then as they were made.
    pub fn changes_above(
        &self,
        alloc: Global,
        pool: &Pool,
        above: u64,
    ) -> Result<ChangeList, NoMemory>
        requires { IsStore self.now pool.now }
        ensures { IfOk result (λ list. list ≡ changes_over above (store_of self.now pool.now)) }
    {
        self.list(alloc, pool, Times::Above(above))
    }

    // All changes at these times, by rising key and then as they were made.
    fn list(&self, alloc: Global, pool: &Pool, times: Times) -> Result<ChangeList, NoMemory>
        requires { IsStore self.now pool.now }
        ensures { IfOk result (λ list. list ≡ changes_in times (store_of self.now pool.now)) }
    {
        let mut list = ChangeList::new(alloc);
        let mut keys = Vec::new(alloc);
        let mut walk = self.tree.walk(alloc);
        let rows = self.tree.len();
        'rows: for at in 0..rows {
            room_for_rest(&mut list, at, rows);
            let Ok(next) = walk.next(pool) else {
                return Err(NoMemory);
            };
            let Some(pair) = next else {
                break;
            };
            push_row(pool, pair.key, pair.value.cell, times, &mut list, &mut keys)?;
        }
        Ok(list)
    }

    /// Gives back the cells of all nodes, keys and changes.
    pub fn empty_into(&mut self, pool: &mut Pool)
        requires { IsStore self.old pool.old }
        ensures store { IsStore self.new pool.new }
        ensures empty { store_of self.new pool.new ≡ [] }
        ensures bare { (k : ℕ) → ¬ Owns self.new pool.new k }
        ensures none { cells_had self.new pool.new ≡ 0 }
        ensures gone { (k : ℕ) → Owns self.old pool.old k → at_cell pool.new k ≡ None }
        ensures frame { (k : ℕ) → ¬ Owns self.old pool.old k → at_cell pool.new k ≡ at_cell pool.old k }
        ensures size { length pool.new.places ≡ length pool.old.places }
        ensures reserved { pool.new.reserved ≡ pool.old.reserved }
        ensures fewer { used pool.new + cells_had self.old pool.old ≡ used pool.old }
        ensures number { number_of self.new ≡ number_of self.old }
        ensures frozen { is_frozen self.new ≡ is_frozen self.old }
    {
        release(pool, self.newest);
        self.newest = NOTHING;
        self.tree.empty_into(pool);
    }
}
