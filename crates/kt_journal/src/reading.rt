//! The records of a log's bytes.
ghost use Rattle.std.specs.Prelude.{◌≡◌, ◌+◌, ◌++◌, ◌^◌, ◌<◌, List, map, length, None, Err, IfSome, IfNone, IfOk, MatchOption};
ghost use Rattle.kt_records.specs.declared.entry.Entry.{Entry};
ghost use Rattle.kt_records.specs.Spelling.{spelling};
ghost use Rattle.kt_journal.specs.Frames.{body, is_open, body_at, EndsAt};
ghost use Rattle.kt_journal.specs.Log.{log_in, IsLog};
ghost use Rattle.kt_journal.specs.Tracks.{Tracks};
ghost use Rattle.kt_journal.specs.Reads.{IsFaulty, Follows, HasNext};

use crate::order::Order;
use crate::refusal::JournalNo;
use kt_base::NoMemory;
use kt_records::{CodecNo, LogRecords};
use std::alloc::Global;

// The payload behind a gate, and what follows it.
#[tactic(auto, unfolding(crate::specs::Frames::body_at))]
fn body_of(bytes: &[u8]) -> Option<(&[u8], &[u8])>
    ensures found { IfSome result (λ found. (bytes.now ≡ body found.0.now ++ found.1.now) × (length found.0.now < 2 ^ 32)) }
    ensures none { IfNone result (body_at bytes.now ≡ None) }
{
    if bytes.len() < 4 {
        return None;
    }
    let (front, rest) = bytes.split_at(4);
    let len = u32::from_le_bytes([front[0], front[1], front[2], front[3]]) as usize;
    if rest.len() < len {
        return None;
    }
    Some(rest.split_at(len))
}

fn gate_is_open(bytes: &[u8]) -> bool
    ensures { result ≡ is_open bytes.now }
{
    match bytes {
        [gate, _, ..] => *gate == 1,
        _ => false,
    }
}

// Adds the record that a payload spells, and says whether it is one that may follow.
fn following_record(
    records: &mut LogRecords,
    order: &mut Order,
    payload: &[u8],
) -> Result<bool, NoMemory>
    ensures { (before : List Entry) → Tracks order.old before → IfOk result (λ follows. Follows before payload.now records.old records.new order.new follows) }
{
    match records.read(payload) {
        Ok(()) => {
            let newest = records.at(records.len() - 1);
            order.add(&newest)
        }
        Err(CodecNo::Place { offset: _ }) => Ok(false),
        Err(CodecNo::Memory) => Err(NoMemory),
    }
}

// Adds the record behind a gate, where there is one that may follow, and gives the length of its payload.
fn next_record(
    records: &mut LogRecords,
    order: &mut Order,
    bytes: &[u8],
) -> Result<Option<usize>, NoMemory>
    ensures { (before : List Entry) → Tracks order.old before → IfOk result (λ found. MatchOption found (IsFaulty before bytes.now) (λ len. HasNext before bytes.now len records.old records.new order.new)) }
{
    let Some((payload, _)) = body_of(bytes) else {
        return Ok(None);
    };
    if following_record(records, order, payload)? {
        Ok(Some(payload.len()))
    } else {
        Ok(None)
    }
}

/// The records of the frames before the first closed gate, and its place.
pub fn read_log(alloc: Global, bytes: &[u8]) -> Result<(LogRecords, usize), JournalNo>
    ensures found { IfOk result (λ found. EndsAt bytes.now (map spelling found.0) found.1) }
    ensures sound { IfOk result (λ found. IsLog found.0) }
    ensures place { (offset : _) → result ≡ Err (JournalNo.Place offset) → log_in bytes.now ≡ Err offset }
    ensures fault { result ≡ Err JournalNo.Fault → ⊥ }
{
    let mut records = LogRecords::new(alloc);
    let mut order = Order::new(alloc);
    let mut end = 0;
    'frames: while gate_is_open(&bytes[end..]) {
        match next_record(&mut records, &mut order, &bytes[end + 1..])? {
            Some(len) => end += 5 + len,
            None => {
                let offset = end as u64;
                return Err(JournalNo::Place { offset });
            }
        }
    }
    Ok((records, end))
}
