//! The cells that the bytes of a key spell, whatever bytes they are.
ghost use Rattle.std.specs.Prelude.{◌≡◌, ◌-◌, ◌^◌, ◌≤◌, pos, ◌-ℤ◌, true, length, take, map, slice_index, IfOk, IfSome, OnOk};
ghost use Rattle.std.specs.Int.{from_be_bytes, w16, w32, w64};
ghost use Rattle.kt_base.specs.Borrowed.{cell_in};
ghost use Rattle.kt_base.specs.Keys.{width_of, number_of_key, first_cell, last_cell, after_first, key_cells};
ghost use Rattle.kt_scan.specs.Parts.{IsMark, IsTextAt, IsFirst, text_and_rest};

use crate::cells::add;
use kt_base::{Cell, CellRef, Kind, NoMemory, Octets};
use kt_key::length::width;
use memchr::memchr;
use std::alloc::Global;

const HALF: i128 = 1 << 63;

// A text before its end, and how many bytes it took with that.
#[derive(Drop)]
struct Text {
    text: Octets,
    len: usize,
}

// A cell at the front of some bytes, and how many of them it took.
#[derive(Drop)]
struct Taken {
    cell: Cell,
    len: usize,
}

// What stands behind the zero byte at which some bytes begin: the text ends, it had a zero byte, or nothing.
#[derive(Clone, Copy)]
enum Mark {
    End,
    Zero,
    Short,
}

fn mark_of(after: &[u8]) -> Mark
    requires some { 1 ≤ length after.now }
    requires zero { slice_index after.now 0 ≡ 0 }
    ensures { IsMark after.now result }
{
    if after.len() < 2 {
        return Mark::Short;
    }
    match after[1] {
        0 => Mark::End,
        _ => Mark::Zero,
    }
}

// The bytes before the last one.
fn but_last(bytes: &[u8]) -> &[u8]
    ensures { result.now ≡ take (length bytes.now - 1) bytes.now }
{
    &bytes[..bytes.len().saturating_sub(1)]
}

fn text_at(alloc: Global, bytes: &[u8]) -> Result<Text, NoMemory>
    ensures { IfOk result (λ read. IsTextAt bytes.now read) }
{
    let mut text = Octets::new(alloc);
    let mut rest = bytes;
    while let Some(zero) = memchr(0, rest) {
        let (run, after) = rest.split_at(zero);
        text.extend(run)?;
        match mark_of(after) {
            Mark::End => {
                let len = bytes.len() - (after.len() - 2);
                return Ok(Text { text, len });
            }
            Mark::Zero => {
                text.push(0)?;
                let (_, behind) = after.split_at(2);
                rest = behind;
            }
            Mark::Short => {
                let len = bytes.len();
                return Ok(Text { text, len });
            }
        }
    }
    text.extend(but_last(rest))?;
    let len = bytes.len();
    Ok(Text { text, len })
}

// The byte at a place, and 0 behind the last.
fn byte_at(bytes: &[u8], at: usize) -> u8
    ensures { result ≡ slice_index bytes.now at }
{
    if at < bytes.len() { bytes[at] } else { 0 }
}

// The bytes of a number that are there.
fn front(bytes: &[u8], len: usize) -> &[u8]
    ensures { result.now ≡ take len bytes.now }
{
    if len < bytes.len() {
        &bytes[..len]
    } else {
        bytes
    }
}

fn raised_2(bytes: &[u8]) -> u16
    ensures { result ≡ from_be_bytes w16 bytes.now }
{
    u16::from_be_bytes([byte_at(bytes, 0), byte_at(bytes, 1)])
}

fn raised_4(bytes: &[u8]) -> u32
    ensures { result ≡ from_be_bytes w32 bytes.now }
{
    u32::from_be_bytes([
        byte_at(bytes, 0),
        byte_at(bytes, 1),
        byte_at(bytes, 2),
        byte_at(bytes, 3),
    ])
}

fn raised_8(bytes: &[u8]) -> u64
    ensures { result ≡ from_be_bytes w64 bytes.now }
{
    if let [a, b, c, d, e, f, g, h, ..] = bytes {
        return u64::from_be_bytes([*a, *b, *c, *d, *e, *f, *g, *h]);
    }
    u64::from_be_bytes([
        byte_at(bytes, 0),
        byte_at(bytes, 1),
        byte_at(bytes, 2),
        byte_at(bytes, 3),
        byte_at(bytes, 4),
        byte_at(bytes, 5),
        byte_at(bytes, 6),
        byte_at(bytes, 7),
    ])
}

fn lowered_8(number: u64) -> i64
    ensures { result ≡ pos number -ℤ pos (2 ^ 63) }
{
    (i128::from(number) - HALF) as i64
}

// The number at the front of some bytes. Bytes that are missing are 0.
fn number_at(kind: Kind, bytes: &[u8]) -> i64
    ensures { result ≡ number_of_key (width_of kind) bytes.now }
{
    match kind {
        Kind::Int8 => i64::from(byte_at(front(bytes, 1), 0)) - (1 << 7),
        Kind::Int16 => i64::from(raised_2(front(bytes, 2))) - (1 << 15),
        Kind::Int32 => i64::from(raised_4(front(bytes, 4))) - (1 << 31),
        _ => lowered_8(raised_8(front(bytes, 8))),
    }
}

// A key cell that has others behind it.
fn first_cell(alloc: Global, kind: Kind, bytes: &[u8]) -> Result<Taken, NoMemory>
    ensures { IfOk result (λ read. IsFirst kind bytes.now read) }
{
    match kind {
        Kind::String | Kind::Binary => {
            let Text { text, len } = text_at(alloc, bytes)?;
            Ok(Taken {
                cell: Cell::Bytes(text),
                len,
            })
        }
        _ => Ok(Taken {
            cell: Cell::Int(number_at(kind, bytes)),
            len: front(bytes, width(kind)).len(),
        }),
    }
}

fn last_cell(alloc: Global, kind: Kind, bytes: &[u8]) -> Result<Cell, NoMemory>
    ensures { IfOk result (λ cell. cell ≡ last_cell kind bytes.now) }
{
    match kind {
        Kind::String | Kind::Binary => Ok(Cell::Bytes(Octets::from_slice(alloc, bytes)?)),
        _ => Ok(Cell::Int(number_at(kind, bytes))),
    }
}

/// Reads the cells that the bytes of a key spell, for key columns of these kinds, in place of the cells before.
pub fn read_key(
    alloc: Global,
    kinds: &[Kind],
    bytes: &[u8],
    cells: &mut Vec<Cell>,
) -> Result<(), NoMemory>
    ensures { OnOk result (cells.new.items ≡ key_cells kinds.now bytes.now) }
{
    cells.clear();
    let Some((last, others)) = kinds.split_last() else {
        return Ok(());
    };
    let mut rest = bytes;
    for kind in others {
        let Taken { cell, len } = first_cell(alloc, *kind, rest)?;
        cells.push(cell)?;
        let (_, behind) = rest.split_at(len);
        rest = behind;
    }
    cells.push(last_cell(alloc, *last, rest)?)?;
    Ok(())
}

// The text at the front of some bytes, if it has no zero byte and an end, and the bytes behind that.
fn plain_text(bytes: &[u8]) -> Option<(&[u8], &[u8])>
    ensures { IfSome result (λ read. text_and_rest bytes.now ≡ (read.0.now, read.1.now)) }
{
    let Some(zero) = memchr(0, bytes) else {
        return None;
    };
    let (text, after) = bytes.split_at(zero);
    match mark_of(after) {
        Mark::End => {
            let (_, behind) = after.split_at(2);
            Some((text, behind))
        }
        Mark::Zero | Mark::Short => None,
    }
}

// As `first_cell`, where it lies, and the bytes behind it.
fn first_plain(kind: Kind, bytes: &[u8]) -> Option<(CellRef<'_>, &[u8])>
    ensures { IfSome result (λ read. (cell_in read.0 ≡ first_cell kind bytes.now) × (read.1.now ≡ after_first kind bytes.now)) }
{
    match kind {
        Kind::String | Kind::Binary => {
            let (text, behind) = plain_text(bytes)?;
            Some((CellRef::Bytes(text), behind))
        }
        _ => {
            let (_, behind) = bytes.split_at(front(bytes, width(kind)).len());
            Some((CellRef::Int(number_at(kind, bytes)), behind))
        }
    }
}

// As `last_cell`, where it lies.
fn last_plain(kind: Kind, bytes: &[u8]) -> CellRef<'_>
    ensures { cell_in result ≡ last_cell kind bytes.now }
{
    match kind {
        Kind::String | Kind::Binary => CellRef::Bytes(bytes),
        _ => CellRef::Int(number_at(kind, bytes)),
    }
}

/// As `read_key`, where the cells lie. Tells whether all of them lie there: a text that has a zero byte does not, unless it
/// is the last.
pub fn read_plain<'v>(
    kinds: &[Kind],
    bytes: &'v [u8],
    cells: &mut Vec<CellRef<'v>>,
) -> Result<bool, NoMemory>
    ensures { IfOk result (λ plain. plain ≡ true → map cell_in cells.new.items ≡ key_cells kinds.now bytes.now) }
{
    cells.clear();
    let Some((last, others)) = kinds.split_last() else {
        return Ok(true);
    };
    let mut rest = bytes;
    for kind in others {
        let Some((cell, behind)) = first_plain(*kind, rest) else {
            return Ok(false);
        };
        add(cells, cell)?;
        rest = behind;
    }
    add(cells, last_plain(*last, rest))?;
    Ok(true)
}
