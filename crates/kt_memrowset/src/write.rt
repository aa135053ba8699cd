//! Changes written into places of the pool.
ghost use Rattle.std.specs.Prelude.{◌≡◌, ◌≢◌, ◌+◌, ◌≤◌, ℕ, length, Some, None};
ghost use Rattle.byteorder.specs.Endian.{little_bytes};
ghost use Rattle.kt_pool.specs.Contents.{Stands, at_cell, bytes_at, with_place, overwritten};
ghost use Rattle.kt_tree.specs.Takes.{Takes};
ghost use Rattle.kt_memrowset.specs.Links.{kind_byte as number_of_kind, front, HeadFits, IsLink, IsChainAt, link_at, chain};
ghost use Rattle.kt_memrowset.specs.Stores.{link_need, RowStands};
ghost use Rattle.kt_memrowset.specs.Writes.{IsFresh, Extends};

use crate::chain::last_of;
use crate::link::{Head, NOTHING};
use byteorder::{ByteOrder, LittleEndian};
use kt_history::{Kindly, OpRef};
use kt_pool::{Place, Pool};

fn kind_byte(kind: Kindly) -> u8
    ensures { result ≡ number_of_kind kind }
{
    match kind {
        Kindly::Ins => 1,
        Kindly::Upd => 2,
        Kindly::Del => 3,
    }
}

/// The bytes of a change in front of its cells.
fn front_of(head: Head) -> [u8; 21]
    ensures { result ≡ front head }
{
    let mut bytes = [0; 21];
    LittleEndian::write_u32(&mut bytes, head.next);
    LittleEndian::write_u32(&mut bytes[4..], head.last);
    LittleEndian::write_u32(&mut bytes[8..], head.before);
    LittleEndian::write_u64(&mut bytes[12..], head.ts);
    bytes[20] = kind_byte(head.kind);
    bytes
}

/// Places a change, with the cells of an operation as they are spelled, in reserved cells.
pub fn place(pool: &mut Pool, head: Head, op: &OpRef<'_>) -> u32
    requires head { HeadFits head }
    requires room { link_need op.now.cells ≤ pool.old.reserved }
    ensures vacant { at_cell pool.old result ≡ None }
    ensures link { IsLink pool.new (record { cell = result; head = head; cells = op.now.cells }) }
    ensures others { (k : ℕ) → k ≢ result → at_cell pool.new k ≡ at_cell pool.old k }
    ensures takes { Takes pool.old pool.new (link_need op.now.cells) }
{
    let cell = pool.place_two(&front_of(head), op.spelled_cells()).cell;
    prove!(cell < pool.size());
    cell
}

/// Writes another number into the first fields of a change.
fn set_number(pool: &mut Pool, cell: u32, at: usize, number: u32)
    requires stands { Stands pool.old cell }
    requires within { at + 4 ≤ length (bytes_at pool.old cell) }
    ensures { pool.new ≡ with_place pool.old cell (Some (overwritten at (little_bytes 4 number) (bytes_at pool.old cell))) pool.old.reserved }
{
    let mut bytes = [0; 4];
    LittleEndian::write_u32_into(&[number], &mut bytes);
    pool.set(Place { cell }, at, &bytes);
}

/// The chain from this cell on goes on with one change more.
pub fn extend(pool: &mut Pool, first: u32, fresh: u32)
    requires row { RowStands pool.old first (chain pool.old first) }
    requires alone { IsChainAt pool.old first (chain pool.old first) }
    requires link { IsFresh pool.old (chain pool.old first) (link_at pool.old fresh) }
    ensures { Extends pool.old pool.new first (chain pool.old first) (link_at pool.old fresh) }
{
    let last = last_of(pool, first);
    set_number(pool, last, 0, fresh);
    set_number(pool, first, 4, fresh);
}
