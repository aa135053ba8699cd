//! The items of a block, held as runs.

ghost use Rattle.std.specs.Prelude.{◌≡◌, ◌==◌, ◌<◌, ◌≤◌, ◌≢◌, ℕ, ℤ, List, length, Some, pos, slice_get, slice_index_or, nat_le, true, false, IfOk};
ghost use Rattle.std.specs.List.Sorted.{IsPartitionPoint};
ghost use Rattle.kt_rle.specs.Held as spec;
ghost use Rattle.kt_rle.specs.Held.{AreHeld, numbers_of, Rise};

use crate::runs::Held;
use kt_bytes::NoMemory;
use kt_plain::Numbers;
use std::alloc::{AllocError, Global};
use std::marker::Model;

/// The items of a block: its runs, each with its number and where it ends. Contracts see the list of numbers.
#[derive(Drop)]
pub struct Items {
    runs: Vec<Held>,
}

/// One item.
pub type Item = i64;

impl Model for Items {
    ghost use Rattle.std.specs.Prelude.{List, ℤ};

    ghost Value = { List ℤ };

    ghost use Rattle.kt_rle.specs.Held.{AreHeld, numbers_of};

    ghost view = { λ a. numbers_of a.runs.items };

    ghost invariant = { λ a. AreHeld a.runs.items };
}

impl Items {
    /// The items that these numbers are.
    pub fn of(alloc: Global, numbers: &Numbers) -> Result<Items, NoMemory>
        ensures { IfOk result (λ items. items ≡ numbers.now) }
    {
        let runs = runs_of(alloc, numbers)?;
        Ok(Items { runs })
    }

    /// The items of these runs.
    pub(crate) fn held(runs: Vec<Held>) -> Items
        requires { AreHeld runs.items }
        ensures { result ≡ numbers_of runs.items }
    {
        Items { runs }
    }

    /// The runs.
    pub(crate) fn runs(&self) -> &[Held]
        ensures held { AreHeld result.now }
        ensures same { numbers_of result.now ≡ self.now }
    {
        &self.runs
    }

    /// How many items there are.
    pub fn len(&self) -> usize
        ensures { result ≡ length self.now }
    {
        count(&self.runs)
    }

    /// Whether there is no item.
    pub fn is_empty(&self) -> bool
        ensures { result ≡ (length self.now == 0) }
    {
        self.len() == 0
    }
}

/// The item at a place, by a binary search among the runs.
pub fn get(block: &Items, i: u32) -> Item
    requires { i < length block.now }
    ensures { slice_get block.now i ≡ Some result }
{
    number_in(block.runs(), i as usize)
}

/// How many numbers the runs are.
fn count(runs: &[Held]) -> usize
    requires { AreHeld runs.now }
    ensures { result ≡ length (numbers_of runs.now) }
{
    match runs.last() {
        Some(run) => run.end,
        None => 0,
    }
}

/// How many runs end at or before a place.
fn runs_before(runs: &[Held], i: usize) -> usize
    requires { AreHeld runs.now }
    ensures bound { result ≤ length runs.now }
    ensures parts { IsPartitionPoint (λ run. nat_le run.end i ≡ true) (λ run. nat_le run.end i ≡ false) runs.now result }
{
    runs.partition_point(|run| run.end <= i)
}

/// The number at a place among those of the runs.
fn number_in(runs: &[Held], i: usize) -> i64
    requires held { AreHeld runs.now }
    requires within { i < length (numbers_of runs.now) }
    ensures { slice_get (numbers_of runs.now) i ≡ Some result }
{
    runs[runs_before(runs, i)].value
}

/// Where the run ends that begins at a place.
pub(crate) fn run_end(numbers: &Numbers, from: usize) -> usize
    requires { from < length numbers.now }
    ensures some { from < result }
    ensures within { result ≤ length numbers.now }
    ensures same { (k : ℕ) → from ≤ k → k < result → slice_index_or numbers.now k (pos 0) ≡ slice_index_or numbers.now from (pos 0) }
    ensures stop { result < length numbers.now → slice_index_or numbers.now result (pos 0) ≢ slice_index_or numbers.now from (pos 0) }
{
    let n = numbers.len();
    let first = numbers.get(from);
    for i in from + 1..n {
        if numbers.get(i) != first {
            return i;
        }
    }
    n
}

/// The runs of the numbers.
fn runs_of(alloc: Global, numbers: &Numbers) -> Result<Vec<Held>, AllocError>
    ensures held { IfOk result (λ v. AreHeld v.items) }
    ensures same { IfOk result (λ v. numbers_of v.items ≡ numbers.now) }
{
    let mut runs = Vec::new(alloc);
    let mut at = 0;
    while at < numbers.len() {
        let end = run_end(numbers, at);
        runs.push(Held {
            end,
            value: numbers.get(at),
        })?;
        at = end;
    }
    Ok(runs)
}
