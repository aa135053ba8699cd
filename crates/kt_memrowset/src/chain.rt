//! The changes of one row, in a chain.
ghost use Rattle.std.specs.Prelude.{◌≡◌, ℕ, ◌≤◌, [], ◌∷◌, List, ◌++◌, None, true, is_some, length, drop, IfOk, IfSome, OnOk};
ghost use Rattle.std.specs.Prelude.{◌==◌};
ghost use Rattle.kt_history.specs.Stores.{after_steps, last_row, change_of};
ghost use Rattle.kt_memrowset.specs.Links.{Link, IsLink, IsChainAt, link_at, chain, newest, steps_of};
ghost use Rattle.kt_memrowset.specs.Stores.{RowStands, hist_of, stays, trail_at, IsTrailAt, Releases};
ghost use Rattle.kt_memrowset.specs.Times.{changes_of};
ghost use Rattle.kt_memrowset.specs.Taking.{links_from};
ghost use Rattle.kt_memrowset.specs.Ending.{EndsIn};
ghost use Rattle.kt_cells.specs.Reading.{cells_behind};
ghost use Rattle.kt_history.specs.AsBytes.{change_with};
ghost use Rattle.kt_pool.specs.Contents.{Stands, bytes_at};

use crate::link::{Head, NOTHING, head_in};
use crate::times::Times;
use kt_base::{Cells, NoMemory, Octets};
use kt_bytes::Stop;
use kt_cells::lists::cells_of;
use kt_history::{Change, ChangeList, Kindly, apply};
use kt_pool::{Place, Pool};
use std::alloc::Global;

// The most bytes that one cell of the pool has.
const WHOLE: usize = 56;

/// Whether there is a row after a change of this kind.
pub fn stays(kind: Kindly) -> bool
    ensures { result ≡ stays kind }
{
    match kind {
        Kindly::Ins | Kindly::Upd => true,
        Kindly::Del => false,
    }
}

/// Where the last change of a row is placed.
pub fn last_of(pool: &Pool, first: u32) -> u32
    requires { RowStands pool.now first (chain pool.now first) }
    ensures { (l : Link) (links : List Link) → chain pool.now first ≡ l ∷ links → result ≡ (newest l links).cell }
{
    let head = head_in(pool, first);
    if head.last == NOTHING {
        first
    } else {
        head.last
    }
}

/// Whether a row is there after all its changes, of which the first is placed here, if it has any.
pub fn is_live(pool: &Pool, first: Option<Place>) -> bool
    requires { IfSome first (λ first. RowStands pool.now first.cell (chain pool.now first.cell)) }
    ensures { result ≡ is_some (last_row (hist_of (links_from pool.now first))) }
{
    match first {
        Some(first) => stays(head_in(pool, last_of(pool, first.cell)).kind),
        None => false,
    }
}

/// The cells of a change, read through a buffer.
fn cells_in(alloc: Global, pool: &Pool, cell: u32, buffer: &mut Vec<u8>) -> Result<Cells, NoMemory>
    requires { IsLink pool.now (link_at pool.now cell) }
    ensures { IfOk result (λ cells. cells ≡ (link_at pool.now cell).cells) }
{
    buffer.clear();
    if pool.append_to(Place { cell }, buffer).is_err() {
        return Err(NoMemory);
    }
    match cells_of(alloc, &buffer[21..]) {
        Ok((cells, _)) => Ok(cells),
        Err(Stop::Memory) => Err(NoMemory),
        Err(Stop::Left(_)) => unreachable!(),
    }
}

/// A change of this kind, whose cells are read through a buffer.
pub fn change_in(
    alloc: Global,
    pool: &Pool,
    cell: u32,
    kind: Kindly,
    buffer: &mut Vec<u8>,
) -> Result<Change, NoMemory>
    requires { IsLink pool.now (link_at pool.now cell) }
    ensures { IfOk result (λ change. change ≡ change_of kind (link_at pool.now cell).cells) }
{
    match kind {
        Kindly::Ins => Ok(Change::Ins(cells_in(alloc, pool, cell, buffer)?)),
        Kindly::Upd => Ok(Change::Upd(cells_in(alloc, pool, cell, buffer)?)),
        Kindly::Del => Ok(Change::Del),
    }
}

/// Does the change in this cell to a row, if it is at or below a time.
fn advance(
    alloc: Global,
    pool: &Pool,
    cell: u32,
    t: u64,
    row: &mut Option<Cells>,
    buffer: &mut Vec<u8>,
) -> Result<u32, NoMemory>
    requires { IsLink pool.now (link_at pool.now cell) }
    ensures { IfOk result (λ next. (next ≡ (link_at pool.now cell).head.next) × (row.new ≡ after_steps t (steps_of (link_at pool.now cell ∷ [])) row.old)) }
{
    let head = head_in(pool, cell);
    if head.ts <= t {
        apply(&change_in(alloc, pool, cell, head.kind, buffer)?, row)?;
    }
    Ok(head.next)
}

/// The row at a time, whose first change is in this cell.
pub fn row_at(alloc: Global, pool: &Pool, first: u32, t: u64) -> Result<Option<Cells>, NoMemory>
    requires { IsChainAt pool.now first (chain pool.now first) }
    ensures { IfOk result (λ row. row ≡ after_steps t (steps_of (chain pool.now first)) None) }
{
    let mut row = None;
    let mut buffer = Vec::new(alloc);
    let mut cell = first;
    while cell != NOTHING {
        cell = advance(alloc, pool, cell, t, &mut row, &mut buffer)?;
    }
    Ok(row)
}

/// The bytes of a place.
pub fn octets_at(alloc: Global, pool: &Pool, cell: u32) -> Result<Octets, NoMemory>
    requires { Stands pool.now cell }
    ensures { IfOk result (λ octets. octets ≡ bytes_at pool.now cell) }
{
    let mut bytes = Vec::new(alloc);
    if pool.append_to(Place { cell }, &mut bytes).is_err() {
        return Err(NoMemory);
    }
    Ok(Octets::of(bytes))
}

/// Gives back the cells of all changes of a store, from the newest.
pub fn release(pool: &mut Pool, newest: u32)
    requires { IsTrailAt pool.old newest (trail_at pool.old (length pool.old.places) newest) }
    ensures { Releases pool.old pool.new (trail_at pool.old (length pool.old.places) newest) }
{
    let mut cell = newest;
    while cell != NOTHING {
        let before = head_in(pool, cell).before;
        pool.give_back(Place { cell });
        cell = before;
    }
}

/// Reads the bytes of a place into a buffer that is used again.
pub fn read_into(pool: &Pool, cell: u32, buffer: &mut Vec<u8>) -> Result<(), NoMemory>
    requires { Stands pool.now cell }
    ensures { OnOk result (buffer.new.items ≡ bytes_at pool.now cell) }
{
    buffer.clear();
    match pool.append_to(Place { cell }, buffer) {
        Ok(()) => Ok(()),
        Err(_) => Err(NoMemory),
    }
}

// Adds a change of a key, told whether the last one of the list is of that key.
fn push_next(
    list: &mut ChangeList,
    key: &[u8],
    begun: bool,
    head: Head,
    cells: &[u8],
) -> Result<(), NoMemory>
    requires { begun ≡ true → EndsIn key.now list.old }
    ensures { OnOk result (list.new ≡ list.old ++ (record { key = key.now; ts = head.ts; change = change_with head.kind (cells_behind cells.now) }) ∷ []) }
{
    if begun {
        list.push_same(head.ts, head.kind, cells)
    } else {
        list.push(key, head.ts, head.kind, cells)
    }
}

// Adds the change in this cell. Its cells are read where they lie, if one cell of the pool has them all, or else from cell to cell.
fn push_link(
    pool: &Pool,
    key: &[u8],
    cell: u32,
    begun: bool,
    head: Head,
    list: &mut ChangeList,
) -> Result<(), NoMemory>
    requires spelled { 23 ≤ length (bytes_at pool.now cell) }
    requires begun { begun ≡ true → EndsIn key.now list.old }
    ensures { OnOk result (list.new ≡ list.old ++ (record { key = key.now; ts = head.ts; change = change_with head.kind (cells_behind (drop 21 (bytes_at pool.now cell))) }) ∷ []) }
{
    let place = Place { cell };
    let len = pool.len(place);
    if len <= WHOLE {
        let bytes = pool.front(place, len);
        return push_next(list, key, begun, head, &bytes[21..]);
    }
    list.push_placed(key, head.ts, head.kind, pool, place, 21)
}

/// Lists the change in this cell, if it is at one of these times, as its bytes. It is told, and tells, whether the last change of
/// the list is of that key.
fn push_change(
    pool: &Pool,
    key: &[u8],
    cell: u32,
    times: Times,
    begun: &mut bool,
    list: &mut ChangeList,
) -> Result<u32, NoMemory>
    requires link { IsLink pool.now (link_at pool.now cell) }
    requires begun { begun.old ≡ true → EndsIn key.now list.old }
    ensures next { IfOk result (λ next. next ≡ (link_at pool.now cell).head.next) }
    ensures list { IfOk result (λ next. list.new ≡ list.old ++ changes_of times key.now (steps_of (link_at pool.now cell ∷ []))) }
    ensures begun { IfOk result (λ next. begun.new ≡ true → EndsIn key.now list.new) }
{
    let head = head_in(pool, cell);
    if times.has(head.ts) {
        push_link(pool, key, cell, *begun, head, list)?;
        *begun = true;
    }
    Ok(head.next)
}

/// Lists the changes of a row at these times.
pub fn push_changes(
    pool: &Pool,
    key: &[u8],
    first: u32,
    times: Times,
    list: &mut ChangeList,
) -> Result<(), NoMemory>
    requires { IsChainAt pool.now first (chain pool.now first) }
    ensures { OnOk result (list.new ≡ list.old ++ changes_of times key.now (steps_of (chain pool.now first))) }
{
    let mut cell = first;
    let mut begun = false;
    while cell != NOTHING {
        cell = push_change(pool, key, cell, times, &mut begun, list)?;
    }
    Ok(())
}

/// As `push_changes`, under the key that is placed in a cell. The key is read where it lies, if one cell of the pool has it, or
/// else through a buffer.
pub fn push_row(
    pool: &Pool,
    key: Place,
    first: u32,
    times: Times,
    list: &mut ChangeList,
    keys: &mut Vec<u8>,
) -> Result<(), NoMemory>
    requires key { Stands pool.now key.cell }
    requires row { IsChainAt pool.now first (chain pool.now first) }
    ensures { OnOk result (list.new ≡ list.old ++ changes_of times (bytes_at pool.now key.cell) (steps_of (chain pool.now first))) }
{
    let len = pool.len(key);
    if len == 0 || len > WHOLE {
        read_into(pool, key.cell, keys)?;
        push_changes(pool, keys, first, times, list)?;
        return Ok(());
    }
    let bytes = pool.front(key, len);
    push_changes(pool, bytes, first, times, list)?;
    Ok(())
}
