//! Records of the log: that they are spelled as they are read, the place of the first fault of bytes that are none, and the memory that
//! they are held in.
use kt_base::Octets;
use kt_history::OpList;
use kt_records::{CodecNo, CommitRow, Entry, read_record, spell};
use std::alloc::{AllocError, Global};
use std::mem::size_of;

const REPLICATE: [u8; 32] = [
    1, 0, 16, 0, 0, 0, 0, 0, 0, 1, 0, 1, 8, 0, 128, 0, 0, 0, 0, 0, 0, 1, 1, 0, 2, 0, 3, 1, 0, 0, 0,
    97,
];

const COMMIT: [u8; 22] = [
    2, 0, 16, 0, 0, 0, 0, 0, 0, 1, 0, 0, 1, 1, 1, 0, 0, 0, 0, 0, 0, 0,
];

/// The record is read, and spelled again as it was.
fn is_spelled_again(alloc: Global, bytes: &[u8]) -> bool {
    match read_record(alloc, bytes) {
        Ok(found) => {
            let mut again = Octets::new(alloc);
            spell(alloc, &found, &mut again).is_ok() && again.as_slice() == bytes
        }
        Err(_) => false,
    }
}

/// Records: of each kind, with operations that ignore, one that is ignored and has no target, an insert of two cells
/// whose first id is the last but one, and two deletes of which the first has no key.
const RECORDS: [&[u8]; 8] = [
    &REPLICATE,
    &COMMIT,
    &[1, 0, 16, 0, 0, 0, 0, 0, 0, 1, 0, 5, 1, 0, 97, 0, 0],
    &[1, 0, 16, 0, 0, 0, 0, 0, 0, 1, 0, 6, 1, 0, 97, 0, 0],
    &[1, 0, 16, 0, 0, 0, 0, 0, 0, 1, 0, 7, 1, 0, 97, 0, 0],
    &IGNORED,
    &[
        1, 0, 16, 0, 0, 0, 0, 0, 0, 1, 0, 1, 0, 0, 2, 0, 254, 255, 0, 255, 255, 0,
    ],
    &[
        1, 0, 16, 0, 0, 0, 0, 0, 0, 2, 0, 4, 0, 0, 0, 0, 4, 1, 0, 97, 0, 0,
    ],
];

const IGNORED: [u8; 13] = [2, 0, 16, 0, 0, 0, 0, 0, 0, 1, 0, 3, 0];

#[test]
fn records_are_spelled_again(rt: HostRuntime) {
    for bytes in &RECORDS {
        assert!(rt; is_spelled_again(rt.alloc(), bytes));
    }
}

/// Where the bytes are refused.
fn fault(alloc: Global, bytes: &[u8]) -> Option<u64> {
    match read_record(alloc, bytes) {
        Err(CodecNo::Place { offset }) => Some(offset),
        _ => None,
    }
}

fn fault_with(alloc: Global, place: usize, byte: u8) -> Option<u64> {
    let mut bytes = REPLICATE;
    if place < 32 {
        bytes[place] = byte;
    }
    fault(alloc, &bytes)
}

/// A byte that is put at a place, and the place of the fault.
const FAULTS: [(usize, u8, u64); 10] = [
    (0, 3, 0),
    (9, 0, 9),
    (9, 65, 9),
    (10, 1, 9),
    (11, 8, 11),
    (11, 4, 22),
    (11, 7, 22),
    (12, 200, 32),
    (26, 4, 26),
    (27, 0, 31),
];

/// Records that are refused, and the place of the fault.
const REFUSED: [(&[u8], u64); 5] = [
    // An outcome with a target that has none, and none of the outcomes.
    (
        &[
            2, 0, 16, 0, 0, 0, 0, 0, 0, 1, 0, 3, 1, 1, 1, 0, 0, 0, 0, 0, 0, 0,
        ],
        12,
    ),
    (
        &[
            2, 0, 16, 0, 0, 0, 0, 0, 0, 1, 0, 4, 1, 1, 1, 0, 0, 0, 0, 0, 0, 0,
        ],
        11,
    ),
    // The first of two cells has the last id, which leaves none behind it.
    (
        &[
            1, 0, 16, 0, 0, 0, 0, 0, 0, 1, 0, 1, 0, 0, 2, 0, 255, 255, 0, 255, 255, 0,
        ],
        16,
    ),
    // Two deletes, neither with a key: the second is at fault at its length.
    (
        &[
            1, 0, 16, 0, 0, 0, 0, 0, 0, 2, 0, 4, 0, 0, 0, 0, 4, 0, 0, 0, 0,
        ],
        17,
    ),
    // Counts that the bytes do not hold: 64 operations, the first of 65,535 cells.
    (
        &[
            1, 0, 16, 0, 0, 0, 0, 0, 0, 64, 0, 1, 0, 0, 255, 255, 0, 0, 0, 1, 0, 0,
        ],
        22,
    ),
];

#[test]
fn faults_are_found_at_their_places(rt: HostRuntime) {
    for &(place, byte, offset) in &FAULTS {
        assert!(rt; fault_with(rt.alloc(), place, byte) == Some(offset));
    }
    for &(bytes, offset) in &REFUSED {
        assert!(rt; fault(rt.alloc(), bytes) == Some(offset));
    }
    for len in 0..32 {
        assert!(rt; fault(rt.alloc(), &REPLICATE[..len]) == Some(len as u64));
    }
}

/// A COMMIT of so many operations that were refused, of two bytes each.
fn refused_operations(alloc: Global, count: u16) -> Result<Vec<u8>, AllocError> {
    let mut bytes = Vec::from_slice(alloc, &[2, 0, 16, 0, 0, 0, 0, 0, 0])?;
    bytes.extend_from_slice(&count.to_le_bytes())?;
    for _ in 0..count {
        bytes.extend_from_slice(&[1, 0])?;
    }
    Ok(bytes)
}

/// How many operations a COMMIT has, and how many bytes they are held in.
fn commit_room(alloc: Global, bytes: &[u8]) -> Option<(usize, usize)> {
    match read_record(alloc, bytes) {
        Ok(Entry::Commit { rows, .. }) => {
            let rows = rows.into_vec();
            let held = rows.capacity().saturating_mul(size_of::<CommitRow>());
            Some((rows.len(), held))
        }
        _ => None,
    }
}

/// A vector that grew to the first of them would have room for twice its rows; the second is the most.
#[test]
fn a_commit_is_held_in_thirty_two_times_its_bytes(rt: HostRuntime) {
    for count in [32_769, 65_535] {
        let bytes = refused_operations(rt.alloc(), count).expect(&rt, "memory");
        let (rows, held) = commit_room(rt.alloc(), &bytes).expect(&rt, "a commit");
        assert!(rt; rows == usize::from(count) && held <= bytes.len().saturating_mul(32));
    }
}

/// The room of some operations: their bytes, and where each ends. A vector that grew has room for at most twice its items.
fn room_of(ops: &OpList) -> usize {
    let ends = ops.len().saturating_mul(size_of::<usize>());
    ops.as_bytes().len().saturating_add(ends).saturating_mul(2)
}

fn replicate_room(alloc: Global, bytes: &[u8]) -> Option<usize> {
    match read_record(alloc, bytes) {
        Ok(Entry::Replicate { ops, .. }) => Some(room_of(&ops)),
        _ => None,
    }
}

/// An insert without a key, of 32,769 cells that are null.
fn many_nulls(alloc: Global) -> Result<Vec<u8>, AllocError> {
    let head = [1, 0, 16, 0, 0, 0, 0, 0, 0, 1, 0, 1, 0, 0, 1, 128];
    let mut bytes = Vec::from_slice(alloc, &head)?;
    for id in 0..32_769_u16 {
        let [low, high] = id.to_le_bytes();
        bytes.extend_from_slice(&[low, high, 0])?;
    }
    Ok(bytes)
}

#[test]
fn a_replicate_is_held_in_thirty_two_times_its_bytes(rt: HostRuntime) {
    let bytes = many_nulls(rt.alloc()).expect(&rt, "memory");
    let room = replicate_room(rt.alloc(), &bytes).expect(&rt, "a write");
    assert!(rt; room <= bytes.len().saturating_mul(32));
}
