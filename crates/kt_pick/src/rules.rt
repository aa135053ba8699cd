//! The rules, in their order.
ghost use Rattle.std.specs.Prelude.{◌≡◌};
ghost use Rattle.kt_pick.specs.Rules.{is_short, wants_flush, enough_changes, applies, first_rowset, wanted};

use crate::stats::{RowSetStat, Stats};
use kt_policy::IdList;

/// A job that a worker asks for.
#[derive(Drop)]
pub enum Want {
    /// Write the MemRowSets as disk rowsets.
    Flush,
    /// Write the changes of this rowset that are in memory.
    FlushDeltas(u64),
    /// Merge the REDO files of this rowset.
    Minor(u64),
    /// Fold the REDO files of this rowset into its base.
    Major(u64),
    /// Merge these rowsets.
    Compact(IdList),
}

/// A rule about one rowset.
#[derive(Clone, Copy)]
pub(crate) enum Rule {
    /// It has so many changes in memory.
    Changes(u64),
    /// It has many REDO files.
    Files,
    /// Its REDO records, but for deletes, reach a quarter of its rows.
    Records,
}

/// So many rows in memory are flushed.
const MANY_ROWS: u32 = 8192;

/// So many changes of a rowset in memory are written.
const MANY_CHANGES: u64 = 4096;

/// So many REDO files of a rowset are merged.
const MANY_FILES: u32 = 4;

/// So many rowsets whose ranges have one key are merged.
const MANY_RANGES: usize = 3;

// Whether fewer than a quarter of the pool's cells are free.
fn is_short(stats: &Stats) -> bool
    ensures { result ≡ is_short stats.now }
{
    u64::from(stats.free) * 4 < u64::from(stats.cells)
}

// Whether the rows in memory are to be flushed.
fn wants_flush(stats: &Stats) -> bool
    ensures { result ≡ wants_flush stats.now }
{
    let rows = u64::from(stats.mem_rows) + u64::from(stats.frozen_rows);
    stats.mem_rows >= MANY_ROWS || (rows > 0 && is_short(stats))
}

// How many changes of a rowset in memory are to be written.
fn enough_changes(stats: &Stats) -> u64
    ensures { result ≡ enough_changes stats.now }
{
    if is_short(stats) { 1 } else { MANY_CHANGES }
}

// Whether a rule applies to a rowset.
fn applies(rule: Rule, stat: &RowSetStat) -> bool
    ensures { result ≡ applies rule stat.now }
{
    match rule {
        Rule::Changes(enough) => stat.fresh >= enough,
        Rule::Files => stat.redo_files >= MANY_FILES,
        Rule::Records => u128::from(stat.redo_changes) * 4 >= u128::from(stat.rows),
    }
}

// The first rowset to which a rule applies.
fn first_rowset(rule: Rule, stats: &[RowSetStat]) -> Option<u64>
    ensures { result ≡ first_rowset rule stats.now }
{
    'stats: for stat in stats {
        if applies(rule, stat) {
            return Some(stat.rowset);
        }
    }
    None
}

/// The job of the first rule that applies, if one does.
///
/// 1. Flush, where the active MemRowSet has 8,192 rows or more, and where a MemRowSet has a row and fewer than a quarter
///    of the pool's cells are free.
/// 2. Write the changes of the first rowset with 4,096 in memory or more. Where fewer than a quarter of the cells are
///    free, one is enough.
/// 3. Merge the REDO files of the first rowset with four or more.
/// 4. Fold the REDO files of the first rowset whose REDO records other than deletes reach a quarter of its rows.
/// 5. Merge the rowsets of the deepest stack, where these are three or more.
pub fn pick(stats: Stats) -> Option<Want>
    ensures { result ≡ wanted stats }
{
    if wants_flush(&stats) {
        return Some(Want::Flush);
    }
    let rowsets = stats.rowsets.as_slice();
    if let Some(rowset) = first_rowset(Rule::Changes(enough_changes(&stats)), rowsets) {
        return Some(Want::FlushDeltas(rowset));
    }
    if let Some(rowset) = first_rowset(Rule::Files, rowsets) {
        return Some(Want::Minor(rowset));
    }
    if let Some(rowset) = first_rowset(Rule::Records, rowsets) {
        return Some(Want::Major(rowset));
    }
    if stats.stack.as_slice().len() >= MANY_RANGES {
        return Some(Want::Compact(stats.stack));
    }
    None
}
