//! The changes that went to an input alone.
ghost use Rattle.std.specs.Prelude.{◌≡◌, ◌==◌, ◌<◌, ◌≤◌, ℕ, true, List, length, get_or, slice_get, IfOk};
ghost use Rattle.std.specs.List.{filter};
ghost use Rattle.std.specs.FinMap.Entries.{is_sorted};
ghost use Rattle.std.specs.Option.{option_copied, option_map};
ghost use Rattle.kt_history.specs.AsBytes.{step_in, step_of};
ghost use Rattle.kt_history.specs.Rows.{key_cmp};
ghost use Rattle.kt_history.specs.Stores.{Steps, hist_in};
ghost use Rattle.kt_dup.specs.Missed.{changes_over, first_above, is_before, is_missed, listed, missed_in, no_change, picked, AreInside};
ghost use Rattle.kt_dup.specs.Split.{AreSplit};

use kt_base::NoMemory;
use kt_history::{ChangeList, ChangeRef, RowStore};
use kt_pool::Pool;
use std::alloc::Global;
use std::marker::Model;

/// A store that lists its changes above a time.
pub trait ListsAbove: RowStore {
    /// All its changes above this time are in memory.
    ghost settled: { Self → ℕ → Type 0 };

    /// The changes above a time, by rising key, and those of one key as they were made.
    fn changes_above(&self, alloc: Global, pool: &Pool, above: u64) -> Result<ChangeList, NoMemory>
        requires stands { Self.stands self.now pool.now }
        requires settled { settled self.now above }
        ensures { IfOk result (λ list. list ≡ changes_over above (Self.store self.now pool.now)) };
}

/// A store that finds the first change of a key above a time.
pub trait FirstAbove: RowStore {
    /// All its changes above this time are in memory.
    ghost settled: { Self → ℕ → Type 0 };

    /// When a key changed first above a time, of its changes in the order in which they were made.
    fn first_above(&self, pool: &Pool, key: &[u8], above: u64) -> Option<u64>
        requires stands { Self.stands self.now pool.now }
        requires settled { settled self.now above }
        ensures { result ≡ first_above above (hist_in key.now (Self.store self.now pool.now)).steps };
}

/// The changes of an input that its output lacks, by rising key, and those of one key as they were made. They stay in the list of
/// all that the input took. Contracts see them as a list.
#[derive(Drop)]
pub struct MissedChanges {
    changes: ChangeList,
    places: Vec<usize>,
}

impl Model for MissedChanges {
    ghost use Rattle.std.specs.Prelude.{List};
    ghost use Rattle.kt_history.specs.declared.changes.KeyChange.{KeyChange};
    ghost use Rattle.kt_dup.specs.Missed.{picked, AreInside};

    ghost Value = { List KeyChange };

    ghost view = { λ m. picked m.changes m.places.items };

    ghost invariant = { λ m. AreInside m.changes m.places.items };
}

impl MissedChanges {
    /// How many there are.
    pub fn len(&self) -> usize
        ensures { result ≡ length self.now }
    {
        self.places.len()
    }

    /// Whether nothing was missed.
    pub fn is_empty(&self) -> bool
        ensures { result ≡ (length self.now == 0) }
    {
        self.places.is_empty()
    }

    /// The key of the change at a place, if there is one.
    pub fn key(&self, at: usize) -> Option<&[u8]>
        ensures { option_copied result ≡ option_map (λ c. c.key) (slice_get self.now at) }
    {
        let place = self.places.get(at)?;
        self.changes.key(*place)
    }

    /// The change at a place, if there is one.
    pub fn get(&self, at: usize) -> Option<ChangeRef<'_>>
        ensures { option_map step_in result ≡ option_map step_of (slice_get self.now at) }
    {
        let place = self.places.get(at)?;
        self.changes.get(*place)
    }
}

// Whether a time is below another, if there is another.
fn is_before(ts: u64, other: Option<u64>) -> bool
    ensures { result ≡ is_before ts other }
{
    match other {
        Some(other) => ts < other,
        None => true,
    }
}

// Whether a change of an input lies before the first one above the bound that the output has of its key.
fn is_missed<O: FirstAbove>(
    changes: &ChangeList,
    at: usize,
    pool: &Pool,
    output: &O,
    bound: u64,
) -> bool
    requires inside { at < length changes.now }
    requires stands { O.stands output.now pool.now }
    requires settled { O.settled output.now bound }
    ensures { result ≡ is_missed bound (O.store output.now pool.now) (get_or changes.now at no_change) }
{
    let Some(key) = changes.key(at) else {
        return false;
    };
    let Some(change) = changes.get(at) else {
        return false;
    };
    is_before(change.ts, output.first_above(pool, key, bound))
}

// The places of the changes that the output lacks.
fn missed_places<O: FirstAbove>(
    alloc: Global,
    changes: &ChangeList,
    pool: &Pool,
    output: &O,
    bound: u64,
) -> Result<Vec<usize>, NoMemory>
    requires stands { O.stands output.now pool.now }
    requires settled { O.settled output.now bound }
    ensures picked { IfOk result (λ places. picked changes.now places.items ≡ filter (is_missed bound (O.store output.now pool.now)) changes.now) }
    ensures inside { IfOk result (λ places. AreInside changes.now places.items) }
{
    let mut places = Vec::new(alloc);
    'changes: for at in 0..changes.len() {
        if is_missed(changes, at, pool, output, bound) {
            places.push(at)?;
        }
    }
    Ok(places)
}

/// The changes above the bound that went to an input alone: those before the first one there that the output has of their key.
/// Where the two are split, they are the missed changes.
pub fn missed_changes<I: ListsAbove, O: FirstAbove>(
    alloc: Global,
    pool: &Pool,
    input: &I,
    output: &O,
    bound: u64,
) -> Result<MissedChanges, NoMemory>
    requires input { I.stands input.now pool.now }
    requires output { O.stands output.now pool.now }
    requires settled_input { I.settled input.now bound }
    requires settled_output { O.settled output.now bound }
    ensures list { IfOk result (λ list. list ≡ missed_in bound (I.store input.now pool.now) (O.store output.now pool.now)) }
    ensures split { IfOk result (λ list. (j : ℕ) (missed : List ℕ → Steps) → j ≤ bound → is_sorted key_cmp (I.store input.now pool.now) ≡ true → AreSplit j bound missed (I.store input.now pool.now) (O.store output.now pool.now) → list ≡ listed missed (I.store input.now pool.now)) }
{
    let changes = input.changes_above(alloc, pool, bound)?;
    let places = missed_places(alloc, &changes, pool, output, bound)?;
    Ok(MissedChanges { changes, places })
}
