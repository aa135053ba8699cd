//! Whether a row is there after its records in files, which is told without memory.
ghost use Rattle.std.specs.Prelude.{◌≡◌, None, Option, is_some};
ghost use Rattle.kt_history.specs.Rows.{Row};
ghost use Rattle.kt_history.specs.Stores.{apply_all};
ghost use Rattle.kt_rowfiles.specs.Files.{records_in, rising};
ghost use Rattle.kt_rowfiles.specs.Reading.{step_in, steps_in};
ghost use Rattle.kt_diskrowset.specs.Files.{lists_of};
ghost use Rattle.kt_diskrowset.specs.Alive as alive;

use crate::files::{FileHeld, FileLists};
use crate::rows::records_of;
use kt_history::{Change, Delta};

/// What a record tells of its row, and when it was made.
#[derive(Clone, Copy, Debug)]
pub struct Verdict {
    pub ts: u64,
    pub there: bool,
}

/// Whether there is a row after a change, where that depends on no row before it.
fn tells(change: &Change) -> Option<bool>
    ensures { result ≡ alive.tells change.now }
{
    match change {
        Change::Ins(_) => Some(true),
        Change::Upd(_) => None,
        Change::Del => Some(false),
    }
}

/// The newer of two verdicts, the latter where they are of one time.
fn later_of(verdict: Verdict, other: Option<Verdict>) -> Verdict
    ensures { result ≡ alive.later_of verdict other }
{
    match other {
        None => verdict,
        Some(other) => {
            if other.ts < verdict.ts {
                verdict
            } else {
                other
            }
        }
    }
}

/// The verdict of a record and of those behind it.
fn with_record(record: &Delta, behind: Option<Verdict>) -> Option<Verdict>
    ensures { result ≡ alive.with_record (step_in record.now) behind }
{
    match tells(&record.change) {
        None => behind,
        Some(there) => Some(later_of(
            Verdict {
                ts: record.ts,
                there,
            },
            behind,
        )),
    }
}

/// The verdict of some records in front of others.
fn with_records(records: &[Delta], behind: Option<Verdict>) -> Option<Verdict>
    ensures { result ≡ alive.verdict_of (steps_in records.now) behind }
{
    let mut verdict = behind;
    let mut at = records.len();
    'records: while at > 0 {
        at -= 1;
        verdict = with_record(&records[at], verdict);
    }
    verdict
}

/// The verdict of the records of a row in several files.
fn verdict_of(files: &[FileHeld], ordinal: u32) -> Option<Verdict>
    ensures { result ≡ alive.verdict_of (records_in ordinal (lists_of files.now)) None }
{
    let mut verdict = None;
    let mut at = files.len();
    'files: while at > 0 {
        at -= 1;
        verdict = with_records(records_of(&files[at].deltas, ordinal), verdict);
    }
    verdict
}

/// Whether the row with this ordinal is there after all records of these REDO files, told whether it was before them.
pub fn is_alive(redo: &FileLists, ordinal: u32, before: bool) -> bool
    ensures { (row : Option Row) → is_some row ≡ before → result ≡ is_some (apply_all (rising (records_in ordinal (lists_of redo.now))) row) }
{
    match verdict_of(redo.as_slice(), ordinal) {
        None => before,
        Some(verdict) => verdict.there,
    }
}
