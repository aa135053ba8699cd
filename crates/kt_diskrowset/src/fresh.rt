//! Changes in memory that stand in a list.
ghost use Rattle.std.specs.Prelude.{◌≡◌, ◌∷◌, [], OnOk, IsTrue, nat_le, nat_lt, length, ◌≤◌, true, false};
ghost use Rattle.std.specs.List.Sorted.{IsNonDecreasingBy, IsPartitionPoint};
ghost use Rattle.kt_history.specs.Stores.{after_steps};
ghost use Rattle.kt_rowfiles.specs.Files.{records_for};
ghost use Rattle.kt_rowfiles.specs.Reading.{step_in, steps_in};

use kt_base::{Cells, NoMemory};
use kt_history::{Delta, apply};

// How many of these changes are of rows before a place.
fn count_before(changes: &[Delta], ordinal: u32) -> usize
    requires { IsNonDecreasingBy (λ d. d.ordinal) changes.now }
    ensures bound { result ≤ length changes.now }
    ensures parts { IsPartitionPoint (λ d. nat_lt d.ordinal ordinal ≡ true) (λ d. nat_lt d.ordinal ordinal ≡ false) changes.now result }
{
    changes.partition_point(|delta| delta.ordinal < ordinal)
}

// And how many are of rows up to it.
fn count_upto(changes: &[Delta], ordinal: u32) -> usize
    requires { IsNonDecreasingBy (λ d. d.ordinal) changes.now }
    ensures bound { result ≤ length changes.now }
    ensures parts { IsPartitionPoint (λ d. nat_le d.ordinal ordinal ≡ true) (λ d. nat_le d.ordinal ordinal ≡ false) changes.now result }
{
    changes.partition_point(|delta| delta.ordinal <= ordinal)
}

/// The changes of a row among those of all rows, which are in the order of these.
pub(crate) fn changes_of(changes: &[Delta], ordinal: u32) -> &[Delta]
    requires { IsNonDecreasingBy (λ d. d.ordinal) changes.now }
    ensures { steps_in result.now ≡ records_for ordinal changes.now }
{
    let start = count_before(changes, ordinal);
    let end = count_upto(changes, ordinal);
    &changes[start..end]
}

// Does a change to a row, if it lies at or below a time.
fn advance(delta: &Delta, t: u64, row: &mut Option<Cells>) -> Result<(), NoMemory>
    ensures { OnOk result (row.new ≡ after_steps t (step_in delta.now ∷ []) row.old) }
{
    if delta.ts <= t {
        return apply(&delta.change, row);
    }
    Ok(())
}

/// Does the changes at or below a time to a row, in their order.
pub(crate) fn go_on(changes: &[Delta], t: u64, row: &mut Option<Cells>) -> Result<(), NoMemory>
    ensures { OnOk result (row.new ≡ after_steps t (steps_in changes.now) row.old) }
{
    'changes: for delta in changes {
        advance(delta, t, row)?;
    }
    Ok(())
}
