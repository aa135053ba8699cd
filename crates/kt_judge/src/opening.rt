//! Where a run begins: the rows at the ancient history mark, and the writes above it.
ghost use Rattle.std.specs.Prelude.{◌≡◌, ◌-◌, length, slice_get, IfOk, OnOk};
ghost use Rattle.kt_history.specs.History.{rows_at};
ghost use Rattle.kt_judge.specs.Openings.{past_of, IsOpening};
ghost use Rattle.kt_judge.specs.Tables.{IsTableOf};
ghost use Rattle.kt_judge.specs.Bare.{is_above, AreBare, HasRows};

use crate::table::put_change;
use crate::versions::Versions;
use crate::writes::put_changes;
use kt_base::{Cells, NoMemory, Octets};
use kt_history::Change;
use std::alloc::Global;

/// A write that an opening lists: its timestamp, and the change of each of its keys.
#[derive(Drop)]
pub struct OpeningWrite {
    pub ts: u64,
    pub changes: Vec<(Octets, Change)>,
}

/// The ancient history mark `a` and the last timestamp `c` of a tablet, its rows at the mark by rising encoded key, and its
/// writes above the mark by rising timestamp. Contracts say by `IsOpening` which values are a tablet's.
#[derive(Drop)]
pub struct Opening {
    pub a: u64,
    pub c: u64,
    pub rows: Vec<(Octets, Cells)>,
    pub writes: Vec<OpeningWrite>,
}

// Whether a key is above all that are there.
fn is_above(entries: &[(Octets, Versions)], key: &[u8]) -> bool
    ensures { result ≡ is_above (slice_get entries.now (length entries.now - 1)) key.now }
{
    match entries.last() {
        Some((last, _)) => last.as_slice().cmp(&key).is_lt(),
        None => true,
    }
}

// Those of some keys that rise, and nothing that became of them.
fn bare_entries(alloc: Global, keys: Vec<&[u8]>) -> Result<Vec<(Octets, Versions)>, NoMemory>
    ensures { IfOk result (λ entries. AreBare entries.items) }
{
    let mut entries = Vec::with_capacity(alloc, keys.len())?;
    for key in keys {
        if is_above(&entries, key) {
            entries.push((Octets::from_slice(alloc, key)?, Versions::new(alloc)))?;
        }
    }
    Ok(entries)
}

// The rows at the mark, under keys of which nothing became yet.
fn put_rows(
    alloc: Global,
    entries: &mut Vec<(Octets, Versions)>,
    rows: &[(Octets, Cells)],
) -> Result<(), NoMemory>
    requires { AreBare entries.old.items }
    ensures { OnOk result (HasRows rows.now entries.new.items) }
{
    for (key, row) in rows {
        let change = Change::Ins(row.copy()?);
        put_change(alloc, entries, key.as_slice(), 0, &change)?;
    }
    Ok(())
}

/// The table of an opening. The keys are those that may come to have rows, in their order: where one is missing or out of
/// order, it is put in its place when it has one.
pub(crate) fn table_of(
    alloc: Global,
    opening: &Opening,
    keys: Vec<&[u8]>,
) -> Result<Vec<(Octets, Versions)>, NoMemory>
    requires { IsOpening opening.now }
    ensures { IfOk result (λ entries. IsTableOf opening.now.c (rows_at (past_of opening.now)) entries.items) }
{
    let mut entries = bare_entries(alloc, keys)?;
    put_rows(alloc, &mut entries, &opening.rows)?;
    for write in &opening.writes {
        put_changes(alloc, &mut entries, write.ts, &write.changes)?;
    }
    Ok(entries)
}
