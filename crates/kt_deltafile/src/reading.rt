//! Reading a delta file.
ghost use Rattle.std.specs.Prelude.{◌≡◌, IfOk, Ok, [], List};
ghost use Rattle.std.specs.Int.{w32, w64};
ghost use Rattle.kt_history.specs.declared.changes.Delta.{Delta};
ghost use Rattle.kt_bytes.specs.Places.{IsFault};
ghost use Rattle.kt_bytes.specs.Reading.{Gives, checked_at, many_at, Answers, IfPlace};
ghost use Rattle.kt_deltafile.specs.declared.file.Way.{Way};
ghost use Rattle.kt_deltafile.specs.Rules.{may_insert, FileFits};
ghost use Rattle.kt_deltafile.specs.Spelling.{spelling};
ghost use Rattle.kt_deltafile.specs.Fields.{Spelled};
ghost use Rattle.kt_deltafile.specs.Reading.{is_ordinal, is_ts, may_hold, is_ktd1, change_at, record_at, way_at, body_at, file_at, whole_at, file_of};

use crate::file::{DeltaFile, Way};
use crate::order::{is_ordinal, is_ts};
use kt_bytes::fields::{fault_at, u32_at, u64_at};
use kt_bytes::{CodecNo, Stop};
use kt_cells::lists::cells_of;
use kt_history::{Change, Delta, DeltaList};
use std::alloc::Global;

/// The letters KTD1, as a number.
const KTD1: u32 = 0x3144544b;

fn inserts(way: Way) -> bool
    ensures { result ≡ may_insert way }
{
    match way {
        Way::Redo => false,
        Way::Undo => true,
    }
}

#[tactic(auto, unfolding(crate::specs::Reading::change_at))]
fn change_of(alloc: Global, way: Way, bytes: &[u8]) -> Result<(Change, &[u8]), Stop>
    ensures { Gives (λ x. (x.0, x.1.now)) result (change_at way bytes.now) }
{
    match bytes {
        [] => Err(Stop::Left(0)),
        [1, rest @ ..] => {
            if !inserts(way) {
                return Err(Stop::Left(bytes.len()));
            }
            let (cells, rest) = cells_of(alloc, rest)?;
            Ok((Change::Ins(cells), rest))
        }
        [2, rest @ ..] => {
            let (cells, rest) = cells_of(alloc, rest)?;
            Ok((Change::Upd(cells), rest))
        }
        [3, rest @ ..] => Ok((Change::Del, rest)),
        [_, ..] => Err(Stop::Left(bytes.len())),
    }
}

fn ordinal_of<'a>(
    way: Way,
    rows: u32,
    count: u32,
    front: &[Delta],
    bytes: &'a [u8],
) -> Result<(u32, &'a [u8]), Stop>
    ensures { Gives (λ x. (x.0, x.1.now)) result (checked_at w32 (is_ordinal way rows count front.now) bytes.now) }
{
    let (ordinal, rest) = u32_at(bytes)?;
    if is_ordinal(way, rows, count, front, ordinal) {
        Ok((ordinal, rest))
    } else {
        fault_at(bytes)
    }
}

fn ts_of<'a>(
    way: Way,
    rows: u32,
    count: u32,
    front: &[Delta],
    ordinal: u32,
    bytes: &'a [u8],
) -> Result<(u64, &'a [u8]), Stop>
    ensures { Gives (λ x. (x.0, x.1.now)) result (checked_at w64 (is_ts way rows count front.now ordinal) bytes.now) }
{
    let (ts, rest) = u64_at(bytes)?;
    if is_ts(way, rows, count, front, ordinal, ts) {
        Ok((ts, rest))
    } else {
        fault_at(bytes)
    }
}

/// A record of `count` that follows those before it.
#[tactic(auto, unfolding(crate::specs::Reading::record_at))]
fn record_of<'a>(
    alloc: Global,
    way: Way,
    rows: u32,
    count: u32,
    front: &[Delta],
    bytes: &'a [u8],
) -> Result<(Delta, &'a [u8]), Stop>
    ensures { Gives (λ x. (x.0, x.1.now)) result (record_at way rows count front.now bytes.now) }
{
    let (ordinal, rest) = ordinal_of(way, rows, count, front, bytes)?;
    let (ts, rest) = ts_of(way, rows, count, front, ordinal, rest)?;
    let (change, rest) = change_of(alloc, way, rest)?;
    let delta = Delta {
        ordinal,
        ts,
        change,
    };
    Ok((delta, rest))
}

fn records_of(
    alloc: Global,
    way: Way,
    rows: u32,
    count: u32,
    bytes: &[u8],
) -> Result<(Vec<Delta>, &[u8]), Stop>
    ensures { Gives (λ x. (x.0.items, x.1.now)) result (many_at (record_at way rows count) count [] bytes.now) }
{
    let mut records = Vec::new(alloc);
    let mut rest = bytes;
    'records: for _ in 0..count {
        let (one, after) = record_of(alloc, way, rows, count, &records, rest)?;
        records.push(one)?;
        rest = after;
    }
    Ok((records, rest))
}

#[tactic(auto, unfolding(crate::specs::Reading::way_at))]
fn way_of(bytes: &[u8]) -> Result<(Way, &[u8]), Stop>
    ensures { Gives (λ x. (x.0, x.1.now)) result (way_at bytes.now) }
{
    match bytes {
        [] => Err(Stop::Left(0)),
        [1, rest @ ..] => Ok((Way::Redo, rest)),
        [2, rest @ ..] => Ok((Way::Undo, rest)),
        [_, ..] => Err(Stop::Left(bytes.len())),
    }
}

fn count_of(rows: u32, bytes: &[u8]) -> Result<(u32, &[u8]), Stop>
    ensures { Gives (λ x. (x.0, x.1.now)) result (checked_at w32 (may_hold rows) bytes.now) }
{
    let (count, rest) = u32_at(bytes)?;
    if count == 0 || 0 < rows {
        Ok((count, rest))
    } else {
        fault_at(bytes)
    }
}

fn word_of(bytes: &[u8]) -> Result<(u32, &[u8]), Stop>
    ensures { Gives (λ x. (x.0, x.1.now)) result (checked_at w32 is_ktd1 bytes.now) }
{
    let (word, rest) = u32_at(bytes)?;
    if word == KTD1 {
        Ok((word, rest))
    } else {
        fault_at(bytes)
    }
}

/// What stands behind the letters: the way, and the records behind their count.
struct Body<'a> {
    way: Way,
    records: Vec<Delta>,
    rest: &'a [u8],
}

#[tactic(auto, unfolding(crate::specs::Reading::body_at))]
fn body_of(alloc: Global, rows: u32, bytes: &[u8]) -> Result<Body<'_>, Stop>
    ensures { Gives (λ x. (record { way = x.way; list = x.records.items }, x.rest.now)) result (body_at rows bytes.now) }
{
    let (way, rest) = way_of(bytes)?;
    let (count, rest) = count_of(rows, rest)?;
    let (records, rest) = records_of(alloc, way, rows, count, rest)?;
    Ok(Body { way, records, rest })
}

#[tactic(auto, unfolding(crate::specs::Reading::file_at))]
fn file_from(alloc: Global, rows: u32, bytes: &[u8]) -> Result<Body<'_>, Stop>
    ensures { Gives (λ x. (record { way = x.way; list = x.records.items }, x.rest.now)) result (file_at rows bytes.now) }
{
    let (_, rest) = word_of(bytes)?;
    body_of(alloc, rows, rest)
}

/// The way and the records that all of the bytes spell.
#[tactic(auto, unfolding(crate::specs::Reading::whole_at))]
fn whole_of(alloc: Global, rows: u32, bytes: &[u8]) -> Result<(Way, DeltaList), Stop>
    ensures { Gives (λ x. record { way = x.0; list = x.1 }) result (whole_at rows bytes.now) }
{
    let Body { way, records, rest } = file_from(alloc, rows, bytes)?;
    if !rest.is_empty() {
        return Err(Stop::Left(rest.len()));
    }
    Ok((way, DeltaList::of(records)))
}

/// The delta file of a base file of so many rows that the bytes spell, all of the bytes.
pub fn decode(alloc: Global, bytes: &[u8], rows: u32) -> Result<DeltaFile, CodecNo>
    // What is read keeps the rules and is spelled so.
    ensures found { IfOk result (λ file. FileFits file.way rows file.list × (bytes.now ≡ spelling file.way file.list)) }
    // What is spelled so is read, unless memory runs out.
    ensures only { (way : Way) (list : List Delta) → FileFits way rows list → bytes.now ≡ spelling way list → Answers result (Ok (record { way = way; list = list })) }
    // Where the first fault is: the spellings alone tell it.
    ensures place { IfPlace result (IsFault (Spelled rows) bytes.now) }
    // How the reader finds it.
    ensures exact { Answers result (file_of rows bytes.now) }
{
    match whole_of(alloc, rows, bytes) {
        Ok((way, list)) => Ok(DeltaFile::of(list, way)),
        Err(Stop::Memory) => Err(CodecNo::Memory),
        Err(Stop::Left(left)) => {
            let offset = bytes.len().saturating_sub(left) as u64;
            Err(CodecNo::Place { offset })
        }
    }
}
