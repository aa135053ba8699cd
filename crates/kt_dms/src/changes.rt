//! Changes in places of the pool.
ghost use Rattle.std.specs.Prelude.{◌≡◌, ◌≢◌, ◌≤◌, ◌<◌, ◌++◌, ◌∷◌, [], ℕ, None, Option, drop, length, slice_index, is_some, IfOk, OnOk};
ghost use Rattle.kt_cells.specs.Reading.{cells_behind};
ghost use Rattle.kt_cells.specs.Spelled.{SpellsCells};
ghost use Rattle.kt_history.specs.Rows.{Row, apply};
ghost use Rattle.kt_history.specs.Stores.{change_of, key_change};
ghost use Rattle.kt_pool.specs.Contents.{Stands, at_cell, bytes_at, cells_for};
ghost use Rattle.kt_tree.specs.Takes.{Takes};
ghost use Rattle.kt_dms.specs.Changes.{kind_byte as number_of_kind, kind_of, change_in, change_len, SpellsChange};

use kt_base::{Cells, NoMemory};
use kt_bytes::Stop;
use kt_cells::lists::cells_of;
use kt_history::{Change, ChangeList, Kindly, OpRef};
use kt_pool::{Place, Pool};
use std::alloc::Global;

// The most bytes that one cell of the pool has.
const WHOLE: usize = 56;

fn kind_byte(kind: Kindly) -> u8
    ensures { result ≡ number_of_kind kind }
{
    match kind {
        Kindly::Ins => 1,
        Kindly::Upd => 2,
        Kindly::Del => 3,
    }
}

fn kind_of(byte: u8) -> Kindly
    ensures { result ≡ kind_of byte }
{
    match byte {
        1 => Kindly::Ins,
        2 => Kindly::Upd,
        _ => Kindly::Del,
    }
}

/// Places a change of this kind, with the cells of an operation as they are spelled, in reserved cells.
pub fn place(pool: &mut Pool, kind: Kindly, op: &OpRef<'_>) -> Place
    requires { cells_for (change_len op.now.cells) ≤ pool.old.reserved }
    ensures vacant { at_cell pool.old result.cell ≡ None }
    ensures spells { SpellsChange (bytes_at pool.new result.cell) }
    ensures change { change_in (bytes_at pool.new result.cell) ≡ change_of kind op.now.cells }
    ensures long { length (bytes_at pool.new result.cell) ≡ change_len op.now.cells }
    ensures inside { result.cell < length pool.old.places }
    ensures others { (k : ℕ) → k ≢ result.cell → at_cell pool.new k ≡ at_cell pool.old k }
    ensures takes { Takes pool.old pool.new (cells_for (change_len op.now.cells)) }
{
    pool.place_two(&[kind_byte(kind)], op.spelled_cells())
}

/// The kind of a change that some bytes say.
fn kind_in(bytes: &[u8]) -> Kindly
    requires { SpellsChange bytes.now }
    ensures { result ≡ kind_of (slice_index bytes.now 0) }
{
    kind_of(bytes[0])
}

/// Cells that are spelled behind their count.
fn cells_in(alloc: Global, bytes: &[u8]) -> Result<Cells, NoMemory>
    requires { SpellsCells bytes.now }
    ensures { IfOk result (λ cells. cells ≡ cells_behind bytes.now) }
{
    match cells_of(alloc, bytes) {
        Ok((cells, _)) => Ok(cells),
        Err(Stop::Memory) => Err(NoMemory),
        Err(Stop::Left(_)) => unreachable!(),
    }
}

/// The change that some bytes say.
fn change_in(alloc: Global, bytes: &[u8]) -> Result<Change, NoMemory>
    requires { SpellsChange bytes.now }
    ensures { IfOk result (λ change. change ≡ change_in bytes.now) }
{
    match kind_in(bytes) {
        Kindly::Ins => Ok(Change::Ins(cells_in(alloc, &bytes[1..])?)),
        Kindly::Upd => Ok(Change::Upd(cells_in(alloc, &bytes[1..])?)),
        Kindly::Del => Ok(Change::Del),
    }
}

/// Reads the bytes of a place into a buffer that is used again.
fn read_into(pool: &Pool, cell: u32, buffer: &mut Vec<u8>) -> Result<(), NoMemory>
    requires { Stands pool.now cell }
    ensures { OnOk result (buffer.new.items ≡ bytes_at pool.now cell) }
{
    buffer.clear();
    match pool.append_to(Place { cell }, buffer) {
        Ok(()) => Ok(()),
        Err(_) => Err(NoMemory),
    }
}

/// The change in this cell. Its bytes are read where they lie, if one cell of the pool has them all, or else through a
/// buffer.
pub fn change_at(
    alloc: Global,
    pool: &Pool,
    cell: u32,
    buffer: &mut Vec<u8>,
) -> Result<Change, NoMemory>
    requires { SpellsChange (bytes_at pool.now cell) }
    ensures { IfOk result (λ change. change ≡ change_in (bytes_at pool.now cell)) }
{
    let place = Place { cell };
    let len = pool.len(place);
    if len <= WHOLE {
        return change_in(alloc, pool.front(place, len));
    }
    read_into(pool, cell, buffer)?;
    change_in(alloc, buffer)
}

// The cells of a change, spelled behind their count.
fn spelled_in(bytes: &[u8]) -> &[u8]
    requires { SpellsChange bytes.now }
    ensures { result.now ≡ drop 1 bytes.now }
{
    &bytes[1..]
}

// Adds the change that some bytes say to a list.
fn push_bytes(bytes: &[u8], key: &[u8], ts: u64, list: &mut ChangeList) -> Result<(), NoMemory>
    requires { SpellsChange bytes.now }
    ensures { OnOk result (list.new ≡ list.old ++ key_change key.now (ts, change_in bytes.now) ∷ []) }
{
    list.push(key, ts, kind_in(bytes), spelled_in(bytes))
}

/// Adds the change in this cell to a list, of a key and at a time. It is read as `change_at` reads it.
pub fn push_at(
    pool: &Pool,
    cell: u32,
    key: &[u8],
    ts: u64,
    list: &mut ChangeList,
    buffer: &mut Vec<u8>,
) -> Result<(), NoMemory>
    requires { SpellsChange (bytes_at pool.now cell) }
    ensures { OnOk result (list.new ≡ list.old ++ key_change key.now (ts, change_in (bytes_at pool.now cell)) ∷ []) }
{
    let place = Place { cell };
    let len = pool.len(place);
    if len <= WHOLE {
        return push_bytes(pool.front(place, len), key, ts, list);
    }
    read_into(pool, cell, buffer)?;
    push_bytes(buffer, key, ts, list)
}

/// What becomes of a row's being there by the change in this cell.
pub fn stays(pool: &Pool, cell: u32, there: bool) -> bool
    requires { SpellsChange (bytes_at pool.now cell) }
    ensures { (row : Option Row) → is_some row ≡ there → result ≡ is_some (apply (change_in (bytes_at pool.now cell)) row) }
{
    match kind_of(pool.read(Place { cell }, 0)) {
        Kindly::Ins => true,
        Kindly::Upd => there,
        Kindly::Del => false,
    }
}
