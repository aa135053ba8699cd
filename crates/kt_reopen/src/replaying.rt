//! The writes of a log, done again on the stores of a superblock.
ghost use Rattle.std.specs.Prelude.{◌≡◌, ◌+◌, ◌<◌, ◌≤◌, ◌++◌, ◌∷◌, [], ℕ, length, Some, None, Err, true, false, IfOk, OnOk, IfSome, MatchOption};
ghost use Rattle.std.specs.Option.{option_map};
ghost use Rattle.kt_history.specs.Rows.{Row};
ghost use Rattle.kt_history.specs.Operations.{need};
ghost use Rattle.kt_history.specs.Stores.{share};
ghost use Rattle.kt_records.specs.declared.entry.Entry.TheVariants.{Commit};
ghost use Rattle.kt_journal.specs.Log.{IsLog};
ghost use Rattle.kt_memrowset.specs.Stores.{is_frozen};
ghost use Rattle.kt_history.specs.declared.target.Target.{Target};
ghost use Rattle.kt_content.specs.Places.{Place, standing};
ghost use Rattle.kt_content.specs.Opening.{held_of, write_opened, opened};
ghost use Rattle.kt_reopen.specs.Bare.{bare, places_under, PlacesApart};
ghost use Rattle.kt_reopen.specs.Commits.{HasPlaces};
ghost use Rattle.kt_reopen.specs.Needed.{replayed, needs_of};
ghost use Rattle.kt_reopen.specs.Owed.{row_told, rows_told, unless_told, owed};
ghost use Rattle.kt_reopen.specs.Standing.{placed, places_in, AreKeptIn, AllUnder};
ghost use Rattle.kt_reopen.specs.Steps.{Does, DoesNotFit, DoesAll, DoesLog};
ghost use Rattle.kt_reopen.specs.Walks.{IsFirst, FitsAt, MayDo, MayDoAt, MayDoAll, NamesEach};

use crate::commits::own_commit;
use crate::needed::needed_of;
use crate::stores::Opening;
use kt_base::NoMemory;
use kt_history::{Kindly, OpRef, Target, kind_made, outcome};
use kt_records::{
    CommitRow, CommitRows, Entry, LogRecords, OpsRef, RecordList, RecordRef, TargetList,
};
use kt_super::Meta;
use std::alloc::Global;
use thiserror::Error;

/// Why records make no stores.
#[derive(Clone, Copy, Debug, PartialEq, Eq, Error)]
pub(crate) enum ReplayNo {
    /// The COMMIT of this timestamp calls an operation needed that does not fit.
    #[error("an operation of timestamp {ts} does not fit")]
    Late { ts: u64 },
    #[error("out of memory")]
    Memory,
}

impl From<NoMemory> for ReplayNo {
    ghost use Rattle.kt_reopen.specs.declared.replaying.ReplayNo.TheVariants.{Memory};

    ghost from_gives = { λ _ e. e ≡ Memory };

    fn from(_: NoMemory) -> Self {
        ReplayNo::Memory
    }
}

// Does an operation on the row that the store at a place had just before it, and tells whether that makes a change which the store takes.
fn take_at(
    alloc: Global,
    stores: &mut Opening,
    at: usize,
    ts: u64,
    op: &OpRef<'_>,
) -> Result<bool, NoMemory>
    requires may { MayDoAt stores.old ts op.now.key at }
    requires there { at < 1 + length stores.old.rowsets.items }
    requires reserved { share op.now ≤ stores.old.pool.reserved }
    ensures { IfOk result (λ takes. FitsAt stores.old stores.new at ts op.now takes) }
{
    if at == 0 {
        return Ok(stores.take_in_mem(ts, op));
    }
    let had = stores.had(alloc, at, op.key(), ts)?;
    let Some(kind) = kind_made(op.kind(), had) else {
        return Ok(false);
    };
    if kind == Kindly::Ins {
        return Ok(false);
    }
    stores.join(at, ts, op, kind);
    Ok(true)
}

// The same at a place, if there is one.
fn take_if(
    alloc: Global,
    stores: &mut Opening,
    at: Option<usize>,
    ts: u64,
    op: &OpRef<'_>,
) -> Result<bool, NoMemory>
    requires may { IfSome at (λ at. MayDoAt stores.old ts op.now.key at) }
    requires there { IfSome at (λ at. at < 1 + length stores.old.rowsets.items) }
    requires reserved { IfSome at (λ _. share op.now ≤ stores.old.pool.reserved) }
    ensures { IfOk result (λ takes. MatchOption at ((takes ≡ true) × (stores.new ≡ stores.old)) (λ at. FitsAt stores.old stores.new at ts op.now takes)) }
{
    match at {
        Some(at) => take_at(alloc, stores, at, ts, op),
        None => Ok(true),
    }
}

// Does an operation on each store that still needs it by its row in the COMMIT, and tells whether it fits them.
fn take_named(
    alloc: Global,
    stores: &mut Opening,
    meta: &Meta,
    ts: u64,
    op: &OpRef<'_>,
    row: &CommitRow,
) -> Result<bool, NoMemory>
    requires may { MayDo stores.old ts op.now.key }
    requires places { places_in stores.old ≡ places_under (bare meta.now) }
    requires few { length row.now.targets ≤ 2 }
    requires room { need (replayed (bare meta.now) (op.now ∷ []) (Some (row.now ∷ []))) ≤ stores.old.pool.reserved }
    ensures does { IfOk result (λ fits. fits ≡ true → Does stores.old stores.new meta.now ts op.now (Some row.now.targets)) }
    ensures not_ { IfOk result (λ fits. fits ≡ false → DoesNotFit stores.old meta.now ts op.now (Some row.now.targets)) }
{
    let needed = needed_of(meta, row.targets.as_slice());
    if !take_if(alloc, stores, needed.first, ts, op)? {
        return Ok(false);
    }
    take_if(alloc, stores, needed.second, ts, op)
}

// The place of the first store that had the row of a key just before a time.
fn live_before(
    alloc: Global,
    stores: &Opening,
    key: &[u8],
    ts: u64,
) -> Result<Option<usize>, NoMemory>
    requires may { MayDo stores.now ts key.now }
    ensures { IfOk result (λ at. (fill : Row) → IsFirst ts key.now at (placed fill stores.now)) }
{
    'stores: for at in 0..stores.rowsets.len() + 1 {
        if stores.had(alloc, at, key, ts)? {
            return Ok(Some(at));
        }
    }
    Ok(None)
}

// Does an operation on the first store that had the row of its key, or else on the MemRowSet, and tells what becomes of it.
fn take_live(
    alloc: Global,
    stores: &mut Opening,
    meta: &Meta,
    ts: u64,
    op: &OpRef<'_>,
) -> Result<CommitRow, NoMemory>
    requires may { MayDo stores.old ts op.now.key }
    requires room { need (op.now ∷ []) ≤ stores.old.pool.reserved }
    ensures does { OnOk result (Does stores.old stores.new meta.now ts op.now None) }
    ensures told { IfOk result (λ row. (fill : Row) (name : Place → Target) → NamesEach name stores.old → row ≡ row_told fill name (standing ts (held_of op.now.key (placed fill stores.old))) op.now) }
{
    let place = live_before(alloc, stores, op.key(), ts)?;
    let targets = match kind_made(op.kind(), place.is_some()) {
        Some(kind) => TargetList::one(stores.join(place.unwrap_or(0), ts, op, kind)),
        None => TargetList::none(),
    };
    Ok(CommitRow {
        outcome: outcome(op.kind(), place.is_some()),
        targets,
    })
}

// Does the operations of a write as its COMMIT tells, up to one that does not fit, and tells whether all do.
fn take_told(
    alloc: Global,
    stores: &mut Opening,
    meta: &Meta,
    ts: u64,
    ops: &OpsRef<'_>,
    rows: &[CommitRow],
) -> Result<bool, NoMemory>
    requires may { MayDoAll stores.old meta.now ts ops.now (Some rows.now) }
    ensures does { IfOk result (λ fits. fits ≡ true → DoesAll stores.old stores.new meta.now ts ops.now (Some rows.now)) }
    ensures late { IfOk result (λ fits. fits ≡ false → (fill : Row) → write_opened fill (bare meta.now) ts ops.now (Some rows.now) (placed fill stores.old) ≡ Err ts) }
{
    'ops: for at in 0..ops.len() {
        let op = ops.at(at);
        if !take_named(alloc, stores, meta, ts, &op, &rows[at])? {
            return Ok(false);
        }
    }
    Ok(true)
}

// Does the operations of a write that has no COMMIT, and gives the rows of one.
fn take_all(
    alloc: Global,
    stores: &mut Opening,
    meta: &Meta,
    ts: u64,
    ops: &OpsRef<'_>,
) -> Result<CommitRows, NoMemory>
    requires may { MayDoAll stores.old meta.now ts ops.now None }
    ensures does { OnOk result (DoesAll stores.old stores.new meta.now ts ops.now None) }
    ensures told { IfOk result (λ rows. (fill : Row) (name : Place → Target) → NamesEach name stores.old → rows ≡ rows_told fill name ts ops.now (placed fill stores.old)) }
{
    let mut rows = Vec::new(alloc);
    'ops: for at in 0..ops.len() {
        let op = ops.at(at);
        let row = take_live(alloc, stores, meta, ts, &op)?;
        rows.push(row)?;
    }
    Ok(CommitRows::of(rows))
}

fn queue(queued: &mut Vec<Entry>, entry: Entry) -> Result<(), NoMemory>
    ensures { OnOk result (queued.new.items ≡ queued.old.items ++ entry ∷ []) }
{
    queued.push(entry)?;
    Ok(())
}

// Does the operations of a write, and queues its COMMIT where it has none.
fn take_write(
    alloc: Global,
    stores: &mut Opening,
    meta: &Meta,
    ts: u64,
    ops: &OpsRef<'_>,
    commit: Option<&[CommitRow]>,
    queued: &mut Vec<Entry>,
) -> Result<(), ReplayNo>
    requires may { MayDoAll stores.old meta.now ts ops.now (option_map (λ rows. rows.now) commit) }
    ensures does { OnOk result (DoesAll stores.old stores.new meta.now ts ops.now (option_map (λ rows. rows.now) commit.entry)) }
    ensures queued { OnOk result ((fill : Row) (name : Place → Target) → NamesEach name stores.old
        → queued.new.items ≡ queued.old.items ++ unless_told (option_map (λ rows. rows.now) commit.entry) (Commit ts (rows_told fill name ts ops.now (placed fill stores.old))) []) }
    ensures late { (t : ℕ) → result ≡ Err (ReplayNo.Late t) → (t ≡ ts) × ((fill : Row) → write_opened fill (bare meta.now) ts ops.now (option_map (λ rows. rows.now) commit.entry) (placed fill stores.old) ≡ Err ts) }
{
    match commit {
        Some(rows) => {
            if !take_told(alloc, stores, meta, ts, ops, rows)? {
                return Err(ReplayNo::Late { ts });
            }
        }
        None => {
            let rows = take_all(alloc, stores, meta, ts, ops)?;
            queue(queued, Entry::Commit { ts, rows })?;
        }
    }
    Ok(())
}

/// Does the writes of a log on stores in which nothing of it is done yet, and gives the COMMITs that it owes.
pub(crate) fn replay(
    alloc: Global,
    stores: &mut Opening,
    meta: &Meta,
    records: &LogRecords,
    places: &[Option<usize>],
) -> Result<RecordList, ReplayNo>
    requires log { IsLog records.now }
    requires commits { HasPlaces records.now places.now }
    requires kept { AreKeptIn stores.old }
    requires thawed { is_frozen stores.old.mem ≡ false }
    requires under { (ts : ℕ) → AllUnder ts stores.old }
    requires places { places_in stores.old ≡ places_under (bare meta.now) }
    requires apart { PlacesApart (places_in stores.old) }
    requires room { needs_of (bare meta.now) records.now records.now ≤ stores.old.pool.reserved }
    ensures does { OnOk result (DoesLog stores.old stores.new meta.now records.now records.now) }
    ensures owed { IfOk result (λ queued. (fill : Row) (name : Place → Target) → NamesEach name stores.old → queued ≡ owed fill (bare meta.now) name records.now (placed fill stores.old) records.now) }
    ensures late { (ts : ℕ) → result ≡ Err (ReplayNo.Late ts) → (fill : Row) → opened fill (bare meta.now) records.now (placed fill stores.old) records.now ≡ Err ts }
{
    let mut queued = Vec::new(alloc);
    'records: for at in 0..records.len() {
        if let RecordRef::Replicate { ts, ops } = records.at(at) {
            let commit = own_commit(records, places, at);
            take_write(alloc, stores, meta, ts, &ops, commit, &mut queued)?;
        }
    }
    Ok(RecordList::of(queued))
}
