//! What a COMMIT's names still need of the stores under a superblock, and what the replayed operations need of the pool.
ghost use Rattle.std.specs.Prelude.{◌≡◌, ◌≢◌, None, ◌≤◌, ◌<◌, ◌+◌, ◌∷◌, [], ℕ, length, map, ◌==◌, Some, IfOk, IfSome};
ghost use Rattle.std.specs.Option.{option_map};
ghost use Rattle.std.specs.List.{position};
ghost use Rattle.kt_history.specs.Operations.{need};
ghost use Rattle.kt_journal.specs.Log.{IsLog};
ghost use Rattle.kt_content.specs.Places.{needs, needed_in};
ghost use Rattle.kt_content.specs.Opening.{HasRows};
ghost use Rattle.kt_reopen.specs.Bare.{bare, place_at, places_under, places_needed, PlacesApart};
ghost use Rattle.kt_reopen.specs.Commits.{HasPlaces};
ghost use Rattle.kt_reopen.specs.Needed.{AreFew, is_any, is_replayed, told_of, replayed, needs_of};

use crate::commits::own_commit;
use kt_base::NoMemory;
use kt_history::{OpRef, Target};
use kt_records::{CommitRow, LogRecords, OpsRef, RecordRef};
use kt_super::{Meta, MetaRowset};

/// The places of the stores that still need a change, each once. The MemRowSet is at 0, and the disk rowsets follow.
#[derive(Clone, Copy, PartialEq, Eq)]
pub struct Needed {
    pub first: Option<usize>,
    pub second: Option<usize>,
}

// The place of a rowset among those of a superblock.
fn rowset_at(rowsets: &[MetaRowset], rowset: u64) -> Option<usize>
    ensures { result ≡ position (λ r. r.rowset == rowset) rowsets.now }
{
    rowsets.iter().position(|other| other.rowset == rowset)
}

// The place of a named store, where the files of the superblock do not have its changes.
fn place_of(meta: &Meta, target: &Target) -> Option<usize>
    ensures place { option_map (place_at (bare meta.now)) result ≡ needs (bare meta.now) target.now }
    ensures within { IfSome result (λ at. at < 1 + length meta.now.rowsets) }
{
    match target {
        Target::Mem(number) => (*number > meta.last_mem).then_some(0),
        Target::Delta { rowset, dms } => {
            let at = rowset_at(meta.rowsets.as_slice(), *rowset)?;
            (meta.rowsets.as_slice()[at].last_dms < *dms).then_some(1 + at)
        }
    }
}

// These places, each once.
fn each_once(first: Option<usize>, second: Option<usize>) -> Needed
    ensures second { result.second ≡ second }
    ensures same { first ≡ second → result.first ≡ None }
    ensures other { first ≢ second → result.first ≡ first }
{
    Needed {
        first: if first == second { None } else { first },
        second,
    }
}

/// The places that the names of an operation still need.
pub fn needed_of(meta: &Meta, targets: &[Target]) -> Needed
    requires few { length targets.now ≤ 2 }
    requires apart { PlacesApart (places_under (bare meta.now)) }
    ensures places { map (place_at (bare meta.now)) (places_needed result) ≡ needed_in (bare meta.now) targets.now }
    ensures first { IfSome result.first (λ at. at < 1 + length meta.now.rowsets) }
    ensures second { IfSome result.second (λ at. at < 1 + length meta.now.rowsets) }
    ensures apart { (at : ℕ) → result.first ≡ Some at → result.second ≡ Some at → ⊥ }
{
    match targets {
        [one, two] => each_once(place_of(meta, one), place_of(meta, two)),
        [one] => each_once(None, place_of(meta, one)),
        _ => each_once(None, None),
    }
}

// No log is so long that a sum does not fit.
fn plus(a: u64, b: u64) -> Result<u64, NoMemory>
    ensures { IfOk result (λ sum. sum ≡ a + b) }
{
    a.checked_add(b).ok_or(NoMemory)
}

fn op_need(op: &OpRef<'_>) -> Result<u64, NoMemory>
    ensures { IfOk result (λ cells. cells ≡ need (op.now ∷ [])) }
{
    let bytes = plus(op.len() as u64, 55)?;
    Ok(2 * (bytes / 56 + 4))
}

// Whether a store still needs an operation, by its row in the COMMIT of its write.
fn is_needed(meta: &Meta, row: &CommitRow) -> bool
    requires few { length row.now.targets ≤ 2 }
    requires apart { PlacesApart (places_under (bare meta.now)) }
    ensures { result ≡ is_any (needed_in (bare meta.now) row.now.targets) }
{
    let needed = needed_of(meta, row.targets.as_slice());
    needed.first.is_some() || needed.second.is_some()
}

// Whether operation number `at` is replayed, by the rows of the COMMIT of its write.
fn is_replayed(meta: &Meta, commit: Option<&[CommitRow]>, at: usize) -> bool
    requires few { AreFew (option_map (λ rows. rows.now) commit) }
    requires there { IfSome commit (λ rows. at < length rows.now) }
    requires apart { PlacesApart (places_under (bare meta.now)) }
    ensures { result ≡ is_replayed (bare meta.now) (told_of at (option_map (λ rows. rows.now) commit.entry)) }
{
    match commit {
        Some(rows) => is_needed(meta, &rows[at]),
        None => true,
    }
}

fn write_need(meta: &Meta, ops: &OpsRef<'_>, commit: Option<&[CommitRow]>) -> Result<u64, NoMemory>
    requires rows { HasRows ops.now (option_map (λ rows. rows.now) commit) }
    requires few { AreFew (option_map (λ rows. rows.now) commit) }
    requires apart { PlacesApart (places_under (bare meta.now)) }
    ensures { IfOk result (λ cells. cells ≡ need (replayed (bare meta.now) ops.now (option_map (λ rows. rows.now) commit.entry))) }
{
    let mut sum = 0;
    'ops: for at in 0..ops.len() {
        if is_replayed(meta, commit, at) {
            let op = ops.at(at);
            let cells = op_need(&op)?;
            sum = plus(sum, cells)?;
        }
    }
    Ok(sum)
}

/// What the replayed operations of a log need of a pool, by the places of its COMMITs.
pub fn needs_of(
    meta: &Meta,
    records: &LogRecords,
    places: &[Option<usize>],
) -> Result<u64, NoMemory>
    requires log { IsLog records.now }
    requires places { HasPlaces records.now places.now }
    requires apart { PlacesApart (places_under (bare meta.now)) }
    ensures { IfOk result (λ cells. cells ≡ needs_of (bare meta.now) records.now records.now) }
{
    let mut sum = 0;
    'records: for at in 0..records.len() {
        if let RecordRef::Replicate { ts: _, ops } = records.at(at) {
            let commit = own_commit(records, places, at);
            let cells = write_need(meta, &ops, commit)?;
            sum = plus(sum, cells)?;
        }
    }
    Ok(sum)
}
