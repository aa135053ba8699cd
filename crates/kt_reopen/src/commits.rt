//! The COMMITs of a log, by timestamp.
ghost use Rattle.std.specs.Prelude.{◌≡◌, ◌<◌, ℕ, List, length, Some, slice_get, IfOk, option_map};
ghost use Rattle.kt_history.specs.declared.operation.RowOp.{RowOp};
ghost use Rattle.kt_records.specs.declared.entry.Entry.TheVariants.{Replicate};
ghost use Rattle.kt_journal.specs.Log.{IsLog};
ghost use Rattle.kt_loglaws.specs.Replay.{commit_of};
ghost use Rattle.kt_reopen.specs.Commits.{commit_at, HasPlaces};

use kt_base::NoMemory;
use kt_journal::Waiting;
use kt_records::{CommitRow, LogRecords, RecordRef};
use std::alloc::Global;

/// Where the COMMIT of each write stands, by the place of its REPLICATE.
pub fn commit_places(alloc: Global, records: &LogRecords) -> Result<Vec<Option<usize>>, NoMemory>
    requires { IsLog records.now }
    ensures { IfOk result (λ places. HasPlaces records.now places.items) }
{
    let mut places = vec![in alloc; None; records.len()]?;
    let mut waiting = Waiting::new(alloc);
    'records: for at in 0..records.len() {
        match records.at(at) {
            RecordRef::Replicate { ts, ops: _ } => waiting.add(ts, at)?,
            RecordRef::Commit { ts, rows: _ } => {
                if let Some(write) = waiting.take(ts) {
                    places[write] = Some(at);
                }
            }
        }
    }
    Ok(places)
}

// The rows of the COMMIT at a place, if there is one.
fn commit_at(records: &LogRecords, place: Option<usize>) -> Option<&[CommitRow]>
    ensures { option_map (λ rows. rows.now) result ≡ commit_at records.now place }
{
    let place = place?;
    if place >= records.len() {
        return None;
    }
    match records.at(place) {
        RecordRef::Commit { ts: _, rows } => Some(rows),
        RecordRef::Replicate { .. } => None,
    }
}

/// The rows of the COMMIT of the write at a place, by the places of all COMMITs.
pub fn own_commit<'a>(
    records: &'a LogRecords,
    places: &[Option<usize>],
    at: usize,
) -> Option<&'a [CommitRow]>
    requires places { HasPlaces records.now places.now }
    requires there { at < length records.now }
    ensures { (ts : ℕ) (ops : List RowOp) → slice_get records.now at ≡ Some (Replicate ts ops) → option_map (λ rows. rows.now) result ≡ commit_of ts records.now }
{
    commit_at(records, places[at])
}
