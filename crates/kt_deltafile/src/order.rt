//! Which ordinals and timestamps can stand behind some records.
//!
//! A file of `count` records over so many rows has to have room for them all: behind a row's record come those of greater
//! ordinals, and those of the same row with later timestamps in the order of the way.
ghost use Rattle.std.specs.Prelude.{◌≡◌, ◌<◌, ◌^◌};
ghost use Rattle.kt_deltafile.specs.declared.file.Way.{Way};
ghost use Rattle.kt_deltafile.specs.Order.{last_ordinal, in_order, may_come, may_follow};
ghost use Rattle.kt_deltafile.specs.Reading.{behind, later, has_next_row, has_room, may_go_on, has_ts, is_ordinal, is_ts};

use crate::file::Way;
use kt_history::Delta;

/// How many ordinals there are.
const ORDINALS: u64 = 1 << 32;

fn is_in_order(way: Way, a: u64, b: u64) -> bool
    ensures { result ≡ in_order way a b }
{
    match way {
        Way::Redo => a < b,
        Way::Undo => b < a,
    }
}

/// How many timestamps come after this one.
fn later(way: Way, ts: u64) -> u64
    ensures { result ≡ later way ts }
{
    match way {
        Way::Redo => u64::MAX - ts,
        Way::Undo => ts,
    }
}

/// How many of `count` records come behind the one that follows these.
fn behind(count: u32, front: &[Delta]) -> u64
    ensures value { result ≡ behind count front.now }
    ensures few { result < 2 ^ 32 }
{
    (count as usize)
        .saturating_sub(front.len())
        .saturating_sub(1) as u64
}

fn has_next_row(rows: u32, ordinal: u32) -> bool
    ensures { result ≡ has_next_row rows ordinal }
{
    let next = u64::from(ordinal) + 1;
    next < u64::from(rows) && next < ORDINALS
}

fn has_room(rows: u32, ordinal: u32, left: u64, count: u64) -> bool
    ensures { result ≡ has_room rows ordinal left count }
{
    has_next_row(rows, ordinal) || count <= left
}

fn comes(rows: u32, front: &[Delta], ordinal: u32) -> bool
    ensures { result ≡ may_come rows front.now ordinal }
{
    least_of(front) <= ordinal && ordinal < rows
}

/// The least ordinal that may follow these records.
fn least_of(front: &[Delta]) -> u32
    ensures { result ≡ last_ordinal front.now }
{
    match front {
        [] => 0,
        [.., last] => last.ordinal,
    }
}

fn follows(way: Way, front: &[Delta], ordinal: u32, ts: u64) -> bool
    ensures { result ≡ may_follow way front.now ordinal ts }
{
    match front {
        [] => true,
        [.., last] => last.ordinal != ordinal || is_in_order(way, last.ts, ts),
    }
}

/// Some timestamp can stand behind this ordinal.
fn has_ts(way: Way, rows: u32, count: u32, front: &[Delta], ordinal: u32) -> bool
    ensures { result ≡ has_ts way rows count front.now ordinal }
{
    match front {
        [] => true,
        [.., last] => last.ordinal != ordinal
            || goes_on(way, rows, behind(count, front), last.ts, ordinal),
    }
}

/// A record of the same row can stand behind one of this timestamp, and so many behind it.
fn goes_on(way: Way, rows: u32, behind: u64, ts: u64, ordinal: u32) -> bool
    requires { behind < 2 ^ 32 }
    ensures { result ≡ may_go_on way rows ordinal ts behind }
{
    let left = later(way, ts);
    1 <= left && has_room(rows, ordinal, left, behind + 1)
}

/// An ordinal that can stand behind these records.
pub fn is_ordinal(way: Way, rows: u32, count: u32, front: &[Delta], ordinal: u32) -> bool
    ensures { result ≡ is_ordinal way rows count front.now ordinal }
{
    comes(rows, front, ordinal) && has_ts(way, rows, count, front, ordinal)
}

/// A timestamp that can stand behind these records and this ordinal.
pub fn is_ts(way: Way, rows: u32, count: u32, front: &[Delta], ordinal: u32, ts: u64) -> bool
    ensures { result ≡ is_ts way rows count front.now ordinal ts }
{
    follows(way, front, ordinal, ts)
        && has_room(rows, ordinal, later(way, ts), behind(count, front))
}
