//! The changes of one row, and all changes, one after the other.
ghost use Rattle.std.specs.Prelude.{◌≡◌, ◌++◌, ◌∷◌, [], Option, Some, length, map, nat_le, nat_lt, is_some, IfOk, OnOk};
ghost use Rattle.std.specs.Option.{option_map};
ghost use Rattle.std.specs.List.{find};
ghost use Rattle.kt_history.specs.Rows.{Row, apply};
ghost use Rattle.kt_history.specs.Stores.{after_steps, apply_all, key_change};
ghost use Rattle.kt_pool.specs.Contents.{bytes_at};
ghost use Rattle.kt_tree.specs.Trees.{IsPairOf, entries};
ghost use Rattle.kt_dms.specs.Keys.{IsKey, ordinal_of as ordinal_in};
ghost use Rattle.kt_dms.specs.Changes.{SpellsChange, change_in};
ghost use Rattle.kt_dms.specs.Stores.{IsHeld, steps_for, steps_above, delta_at, deltas_in, deltas_upto};
ghost use Rattle.kt_dms.specs.Walks.{placed_for, placed_if, is_behind, is_later, Released};

use crate::changes::{change_at, push_at, stays};
use crate::keys::{KEY_LEN, front_of, key_of, ordinal_of, ts_of};
use kt_base::{Cells, NoMemory};
use kt_history::{ChangeList, Delta, apply};
use kt_pool::{Place, Pool};
use kt_tree::{Pair, Tree};
use std::alloc::Global;

/// A change of a row: its timestamp, and the cell at which it is placed.
#[derive(Clone, Copy)]
pub struct Placed {
    pub ts: u64,
    pub cell: u32,
}

/// The first entry of this row above a timestamp, if there is one, or else of a later row.
fn pair_behind(tree: &Tree, pool: &Pool, ordinal: u32, after: Option<u64>) -> Option<Pair>
    requires { IsHeld tree.now pool.now }
    ensures { IsPairOf tree.now pool.now result (find (is_behind ordinal after) (entries tree.now pool.now)) }
{
    match after {
        Some(ts) => tree.after(pool, Some(&key_of(ordinal, ts))),
        None => tree.after(pool, Some(&front_of(ordinal))),
    }
}

/// The change of an entry, if it is of this row.
fn placed_if(pool: &Pool, pair: Pair, ordinal: u32) -> Option<Placed>
    requires { IsKey (bytes_at pool.now pair.key.cell) }
    ensures { result ≡ placed_if ordinal (Some (record { key = bytes_at pool.now pair.key.cell; value = pair.value.cell })) }
{
    let key = pool.front(pair.key, KEY_LEN);
    if ordinal_of(key) != ordinal {
        return None;
    }
    Some(Placed {
        ts: ts_of(key),
        cell: pair.value.cell,
    })
}

/// The first change of a row above a timestamp, or the first of all.
fn next_of(tree: &Tree, pool: &Pool, ordinal: u32, after: Option<u64>) -> Option<Placed>
    requires { IsHeld tree.now pool.now }
    ensures { result ≡ find (is_later after) (placed_for ordinal (entries tree.now pool.now)) }
{
    match pair_behind(tree, pool, ordinal, after) {
        Some(pair) => placed_if(pool, pair, ordinal),
        None => None,
    }
}

/// Does a change in its place to a row.
fn advance(
    alloc: Global,
    pool: &Pool,
    cell: u32,
    row: &mut Option<Cells>,
    buffer: &mut Vec<u8>,
) -> Result<(), NoMemory>
    requires { SpellsChange (bytes_at pool.now cell) }
    ensures { OnOk result (row.new ≡ apply (change_in (bytes_at pool.now cell)) row.old) }
{
    apply(&change_at(alloc, pool, cell, buffer)?, row)
}

/// The row at a time, told the row before its changes.
pub fn row_at(
    alloc: Global,
    tree: &Tree,
    pool: &Pool,
    ordinal: u32,
    base: Option<Cells>,
    t: u64,
) -> Result<Option<Cells>, NoMemory>
    requires { IsHeld tree.now pool.now }
    ensures { IfOk result (λ row. row ≡ after_steps t (steps_for ordinal (deltas_in tree.now pool.now)) base) }
{
    let mut row = base;
    let mut buffer = Vec::new(alloc);
    let mut after = None;
    'changes: while let Some(placed) = next_of(tree, pool, ordinal, after) {
        if placed.ts > t {
            break;
        }
        advance(alloc, pool, placed.cell, &mut row, &mut buffer)?;
        after = Some(placed.ts);
    }
    Ok(row)
}

/// Whether the row is there after all its changes, told whether it was before.
pub fn is_live(tree: &Tree, pool: &Pool, ordinal: u32, before: bool) -> bool
    requires { IsHeld tree.now pool.now }
    ensures { (row : Option Row) → is_some row ≡ before → result ≡ is_some (apply_all (steps_for ordinal (deltas_in tree.now pool.now)) row) }
{
    let mut live = before;
    let mut after = None;
    'changes: while let Some(placed) = next_of(tree, pool, ordinal, after) {
        live = stays(pool, placed.cell, live);
        after = Some(placed.ts);
    }
    live
}

/// Lists the change of an entry, if it is at or below a time. It is read through a buffer where it does not lie together.
pub fn push_change(
    alloc: Global,
    pool: &Pool,
    pair: Pair,
    upto: u64,
    list: &mut Vec<Delta>,
    buffer: &mut Vec<u8>,
) -> Result<(), NoMemory>
    requires key { IsKey (bytes_at pool.now pair.key.cell) }
    requires change { SpellsChange (bytes_at pool.now pair.value.cell) }
    ensures { OnOk result (list.new.items ≡ list.old.items ++ deltas_upto upto (delta_at pool.now (record { key = bytes_at pool.now pair.key.cell; value = pair.value.cell }) ∷ [])) }
{
    let key = pool.front(pair.key, KEY_LEN);
    let ts = ts_of(key);
    if ts <= upto {
        let change = change_at(alloc, pool, pair.value.cell, buffer)?;
        list.push(Delta {
            ordinal: ordinal_of(key),
            ts,
            change,
        })?;
    }
    Ok(())
}

// The row of an entry.
fn row_of(pool: &Pool, pair: Pair) -> u32
    requires { IsKey (bytes_at pool.now pair.key.cell) }
    ensures { result ≡ ordinal_in (bytes_at pool.now pair.key.cell) }
{
    ordinal_of(pool.front(pair.key, KEY_LEN))
}

/// The row of the first change that is of a row or of a later one, if there is one.
pub fn next_row(tree: &Tree, pool: &Pool, from: u32) -> Option<u32>
    requires { IsHeld tree.now pool.now }
    ensures { result ≡ option_map (λ d. d.ordinal) (find (λ d. nat_le from d.ordinal) (deltas_in tree.now pool.now)) }
{
    match pair_behind(tree, pool, from, None) {
        Some(pair) => Some(row_of(pool, pair)),
        None => None,
    }
}

/// When a row changed first above a time, if it did.
pub fn first_above(tree: &Tree, pool: &Pool, ordinal: u32, above: u64) -> Option<u64>
    requires { IsHeld tree.now pool.now }
    ensures { result ≡ option_map (λ c. c.0) (find (λ c. nat_lt above c.0) (steps_for ordinal (deltas_in tree.now pool.now))) }
{
    match next_of(tree, pool, ordinal, Some(above)) {
        Some(placed) => Some(placed.ts),
        None => None,
    }
}

/// Adds the changes of a row above a time to a list under a key, the oldest first.
pub fn push_above(
    tree: &Tree,
    pool: &Pool,
    ordinal: u32,
    above: u64,
    key: &[u8],
    list: &mut ChangeList,
    buffer: &mut Vec<u8>,
) -> Result<(), NoMemory>
    requires { IsHeld tree.now pool.now }
    ensures { OnOk result (list.new ≡ list.old ++ map (key_change key.now) (steps_above above (steps_for ordinal (deltas_in tree.now pool.now)))) }
{
    let mut after = Some(above);
    'changes: while let Some(placed) = next_of(tree, pool, ordinal, after) {
        push_at(pool, placed.cell, key, placed.ts, list, buffer)?;
        after = Some(placed.ts);
    }
    Ok(())
}

/// The key that is placed there.
fn key_at(pool: &Pool, place: Place) -> [u8; 12]
    requires { length (bytes_at pool.now place.cell) ≡ 12 }
    ensures { result ≡ bytes_at pool.now place.cell }
{
    let mut key = [0; KEY_LEN];
    key.copy_from_slice(pool.front(place, KEY_LEN));
    key
}

/// Gives back the cells of all changes. The tree stands as it was.
pub fn release(tree: &Tree, pool: &mut Pool)
    requires { IsHeld tree.now pool.old }
    ensures { Released tree.now pool.old pool.new }
{
    let mut next = tree.after(pool, None);
    'changes: while let Some(pair) = next {
        let key = key_at(pool, pair.key);
        pool.give_back(pair.value);
        next = tree.after(pool, Some(&key));
    }
}
