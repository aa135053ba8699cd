//! What a log tells of itself.
ghost use Rattle.std.specs.Prelude.{◌≡◌, ◌+◌, IfOk};
ghost use Rattle.kt_records.specs.Shared.{entry_of};
ghost use Rattle.kt_loglaws.specs.Replay.{last_of, gate_of};
ghost use Rattle.kt_reopen.specs.Commits.{is_commit_of};

use kt_base::NoMemory;
use kt_records::{LogRecords, RecordRef};

/// The timestamp of the last write, or 0.
pub fn last_of(records: &LogRecords) -> u64
    ensures { result ≡ last_of records.now }
{
    let mut last = 0;
    'records: for at in 0..records.len() {
        if let RecordRef::Replicate { ts, ops: _ } = records.at(at) {
            last = last.max(ts);
        }
    }
    last
}

// Whether it is the COMMIT of this timestamp.
fn is_commit_of(logged: &RecordRef<'_>, ts: u64) -> bool
    ensures { result ≡ is_commit_of ts (entry_of logged.now) }
{
    match logged {
        RecordRef::Commit { ts: t, rows: _ } => *t == ts,
        RecordRef::Replicate { .. } => false,
    }
}

// No log is so long that the offset does not fit.
fn behind(gate: u64, len: u64) -> Result<u64, NoMemory>
    ensures { IfOk result (λ next. next ≡ gate + 5 + len) }
{
    match gate.checked_add(5) {
        Some(body) => body.checked_add(len).ok_or(NoMemory),
        None => Err(NoMemory),
    }
}

/// The offset of the gate of a timestamp's COMMIT, in bytes from the start of the log; the end of the log where it has none.
pub fn gate_of(ts: u64, records: &LogRecords) -> Result<u64, NoMemory>
    ensures { IfOk result (λ gate. gate ≡ gate_of ts records.now) }
{
    let mut gate = 0;
    'records: for at in 0..records.len() {
        let record = records.at(at);
        if is_commit_of(&record, ts) {
            return Ok(gate);
        }
        gate = behind(gate, records.spelled_len(at) as u64)?;
    }
    Ok(gate)
}
