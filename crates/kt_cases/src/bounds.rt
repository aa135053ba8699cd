//! Few bytes that stand for much, and many bytes of which little more is held.
use kt_base::Cell;
use kt_deltafile::decode as decode_deltas;
use kt_rle::{CodecNo, Width, decode, get};
use kt_schema::Column;
use kt_super::FileRef;
use std::alloc::Global;
use std::mem::size_of;

/// Eight runs of 2^29 numbers each, the last one shorter by one.
const EIGHT: [u8; 40] = [
    0, 0, 0, 32, 0, 0, 0, 0, 32, 1, 0, 0, 0, 32, 2, 0, 0, 0, 32, 3, 0, 0, 0, 32, 4, 0, 0, 0, 32, 5,
    0, 0, 0, 32, 6, 255, 255, 255, 31, 7,
];

fn are_read(alloc: Global) -> bool {
    let Ok(read) = decode(alloc, &EIGHT, 4_294_967_295, Width::One) else {
        return false;
    };
    let ends = [get(&read, 0), get(&read, 4_294_967_294)];
    let inside = [get(&read, 536_870_911), get(&read, 536_870_912)];
    read.len() == 4_294_967_295 && ends == [0, 7] && inside == [0, 1]
}

#[test]
fn forty_bytes_are_four_billion_numbers(rt: HostRuntime) {
    assert!(rt; are_read(rt.alloc()));
}

/// A vector that grew has room for at most twice its items. In a file a cell takes three bytes at least, in a slot a column six with its name,
/// and a file sixteen; while it is read, a file's number stands in a list besides, and in a tree whose nodes are half full at least.
#[test]
fn what_is_read_is_held_in_thirty_two_times_its_bytes(rt: HostRuntime) {
    assert!(rt; 2 * size_of::<(u16, Cell)>() <= 3 * 32);
    assert!(rt; 2 * size_of::<Column>() < 6 * 32);
    assert!(rt; 2 * size_of::<FileRef>() + 96 <= 16 * 32);
}

/// A REDO file of one delete of the row 0.
const DELETE: [u8; 22] = [
    75, 84, 68, 49, 1, 1, 0, 0, 0, 0, 0, 0, 0, 0, 32, 0, 0, 0, 0, 0, 0, 3,
];

/// Where these are no two truth values.
fn fault_of_runs(alloc: Global, bytes: &[u8]) -> Option<u64> {
    match decode(alloc, bytes, 2, Width::Bit) {
        Err(CodecNo::Place { offset }) => Some(offset),
        _ => None,
    }
}

/// Where this is no REDO file over so many rows.
fn fault_over(alloc: Global, rows: u32) -> Option<u64> {
    match decode_deltas(alloc, &DELETE, rows) {
        Err(kt_deltafile::CodecNo::Place { offset }) => Some(offset),
        _ => None,
    }
}

#[test]
fn what_cannot_stand_is_at_fault_itself(rt: HostRuntime) {
    // The second run's length can stand, and its bit cannot.
    assert!(rt; fault_of_runs(rt.alloc(), &[1, 0, 0, 0, 1, 1, 0, 0, 0, 2]) == Some(9));
    assert!(rt; fault_over(rt.alloc(), 0) == Some(5));
    assert!(rt; fault_over(rt.alloc(), 1).is_none());
}
