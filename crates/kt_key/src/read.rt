//! Reading encoded keys.
ghost use Rattle.std.specs.Prelude.{◌≡◌, ◌*◌, ◌^◌, ◌<◌, ◌≤◌, length, take, IsTrue, IfOk, MatchOption, slice_index, pos, ◌-ℤ◌};
ghost use Rattle.std.specs.Int.{to_be_bytes, w8, w16, w32, w64};
ghost use Rattle.kt_base.specs.Keys.{raised, is_text};
ghost use Rattle.kt_key.specs.Fit.{in_range, is_number};
ghost use Rattle.kt_key.specs.Reading.{IsRead};
ghost use Rattle.kt_key.specs.Parts.{IsMark, IsTextRead, IsNumberRead, IsInner, IsLast};

use crate::length::width;
use kt_base::{Cell, Kind, NoMemory, Octets, Row};
use memchr::memchr;
use std::alloc::Global;

// A text that was escaped at the front of some bytes, and how many of them it took with its end.
#[derive(Drop)]
struct Text {
    text: Octets,
    len: usize,
}

// A cell at the front of some bytes, and how many of them it took.
#[derive(Drop)]
struct Taken {
    cell: Cell,
    len: usize,
}

// What stands behind the zero byte at which some bytes begin: the text ends, it had a zero byte, or neither.
#[derive(Clone, Copy)]
enum Mark {
    End,
    Zero,
    Bad,
}

fn mark_of(after: &[u8]) -> Mark
    requires some { 0 < length after.now }
    requires zero { slice_index after.now 0 ≡ 0 }
    ensures { IsMark after.now result }
{
    if after.len() < 2 {
        return Mark::Bad;
    }
    match after[1] {
        0 => Mark::End,
        1 => Mark::Zero,
        _ => Mark::Bad,
    }
}

fn text_at(alloc: Global, bytes: &[u8]) -> Result<Option<Text>, NoMemory>
    ensures { IfOk result (λ read. IsTextRead bytes.now read) }
{
    let mut text = Octets::new(alloc);
    let mut rest = bytes;
    while let Some(zero) = memchr(0, rest) {
        let (run, after) = rest.split_at(zero);
        text.extend(run)?;
        match mark_of(after) {
            Mark::End => {
                let len = bytes.len() - (after.len() - 2);
                return Ok(Some(Text { text, len }));
            }
            Mark::Zero => {
                text.push(0)?;
                let (_, behind) = after.split_at(2);
                rest = behind;
            }
            Mark::Bad => return Ok(None),
        }
    }
    Ok(None)
}

fn raised_1(bytes: &[u8]) -> Option<u64>
    ensures { MatchOption result (length bytes.now < 1) (λ n. (n < 2 ^ 8) × (to_be_bytes w8 n ≡ take 1 bytes.now)) }
{
    match bytes {
        [byte, ..] => Some(u64::from(*byte)),
        [] => None,
    }
}

fn raised_2(bytes: &[u8]) -> Option<u64>
    ensures { MatchOption result (length bytes.now < 2) (λ n. (n < 2 ^ 16) × (to_be_bytes w16 n ≡ take 2 bytes.now)) }
{
    match bytes.first_chunk::<2>() {
        Some(front) => Some(u64::from(u16::from_be_bytes(*front))),
        None => None,
    }
}

fn raised_4(bytes: &[u8]) -> Option<u64>
    ensures { MatchOption result (length bytes.now < 4) (λ n. (n < 2 ^ 32) × (to_be_bytes w32 n ≡ take 4 bytes.now)) }
{
    match bytes.first_chunk::<4>() {
        Some(front) => Some(u64::from(u32::from_be_bytes(*front))),
        None => None,
    }
}

fn raised_8(bytes: &[u8]) -> Option<u64>
    ensures { MatchOption result (length bytes.now < 8) (λ n. (n < 2 ^ 64) × (to_be_bytes w64 n ≡ take 8 bytes.now)) }
{
    match bytes.first_chunk::<8>() {
        Some(front) => Some(u64::from_be_bytes(*front)),
        None => None,
    }
}

fn difference(number: u64, half: u64) -> i64
    requires range { number < 2 * half }
    requires small { half ≤ 2 ^ 63 }
    ensures { result ≡ pos number -ℤ pos half }
{
    (i128::from(number) - i128::from(half)) as i64
}

// The number whose distance from the least one of its range this is.
fn lowered(number: u64, half: u64) -> i64
    requires range { number < 2 * half }
    requires small { half ≤ 2 ^ 63 }
    ensures range { IsTrue (in_range half result) }
    ensures value { raised half result ≡ number }
{
    difference(number, half)
}

fn number_at(kind: Kind, bytes: &[u8]) -> Option<i64>
    ensures { IsNumberRead kind bytes.now result }
{
    match kind {
        Kind::Int8 => match raised_1(bytes) {
            Some(number) => Some(lowered(number, 1 << 7)),
            None => None,
        },
        Kind::Int16 => match raised_2(bytes) {
            Some(number) => Some(lowered(number, 1 << 15)),
            None => None,
        },
        Kind::Int32 => match raised_4(bytes) {
            Some(number) => Some(lowered(number, 1 << 31)),
            None => None,
        },
        _ => match raised_8(bytes) {
            Some(number) => Some(lowered(number, 1 << 63)),
            None => None,
        },
    }
}

fn inner_number(kind: Kind, bytes: &[u8]) -> Option<Taken>
    requires { IsTrue (is_number kind) }
    ensures { IsInner kind bytes.now result }
{
    match number_at(kind, bytes) {
        Some(number) => Some(Taken {
            cell: Cell::Int(number),
            len: width(kind),
        }),
        None => None,
    }
}

fn inner_text(alloc: Global, kind: Kind, bytes: &[u8]) -> Result<Option<Taken>, NoMemory>
    requires { IsTrue (is_text kind) }
    ensures { IfOk result (λ read. IsInner kind bytes.now read) }
{
    match text_at(alloc, bytes)? {
        Some(Text { text, len }) => Ok(Some(Taken {
            cell: Cell::Bytes(text),
            len,
        })),
        None => Ok(None),
    }
}

// A key cell that has others behind it.
fn inner_cell(alloc: Global, kind: Kind, bytes: &[u8]) -> Result<Option<Taken>, NoMemory>
    ensures { IfOk result (λ read. IsInner kind bytes.now read) }
{
    match kind {
        Kind::Bool => Ok(None),
        Kind::String | Kind::Binary => inner_text(alloc, kind, bytes),
        _ => Ok(inner_number(kind, bytes)),
    }
}

fn last_number(kind: Kind, bytes: &[u8]) -> Option<Cell>
    requires { IsTrue (is_number kind) }
    ensures { IsLast kind bytes.now result }
{
    if bytes.len() != width(kind) {
        return None;
    }
    match number_at(kind, bytes) {
        Some(number) => Some(Cell::Int(number)),
        None => None,
    }
}

fn last_cell(alloc: Global, kind: Kind, bytes: &[u8]) -> Result<Option<Cell>, NoMemory>
    ensures { IfOk result (λ read. IsLast kind bytes.now read) }
{
    match kind {
        Kind::Bool => Ok(None),
        Kind::String | Kind::Binary => Ok(Some(Cell::Bytes(Octets::from_slice(alloc, bytes)?))),
        _ => Ok(last_number(kind, bytes)),
    }
}

/// The key cells that the bytes spell, for key columns of these kinds, or none where no key has this spelling.
pub fn decode_key(alloc: Global, kinds: &[Kind], bytes: &[u8]) -> Result<Option<Row>, NoMemory>
    ensures { IfOk result (λ row. IsRead kinds.now bytes.now row) }
{
    let mut cells = Vec::with_capacity(alloc, kinds.len())?;
    if kinds.is_empty() {
        return Ok(if bytes.is_empty() {
            Some(Row::of(cells))
        } else {
            None
        });
    }
    let last = kinds.len() - 1;
    let mut rest = bytes;
    for at in 0..last {
        match inner_cell(alloc, kinds[at], rest)? {
            Some(Taken { cell, len }) => {
                cells.push(cell)?;
                let (_, behind) = rest.split_at(len);
                rest = behind;
            }
            None => return Ok(None),
        }
    }
    match last_cell(alloc, kinds[last], rest)? {
        Some(cell) => {
            cells.push(cell)?;
            Ok(Some(Row::of(cells)))
        }
        None => Ok(None),
    }
}
