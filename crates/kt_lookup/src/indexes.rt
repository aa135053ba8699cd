//! Every sixteenth key, and the search among them.

ghost use Rattle.std.specs.Prelude.{◌≡◌, ◌+◌, ◌-◌, ◌*◌, ◌^◌, ◌<◌, ◌≤◌, ◌↔◌, [], ℕ, length, IsTrue, IfOk, slice_index_or};
ghost use Rattle.kt_lookup.specs.Index.{IsBelow, Rises, index_of as index_of_keys};

use crate::steps::Steps;
use kt_bytes::{NoMemory, Texts};
use std::alloc::Global;
use std::sync::ledger::Ledger;

/// The keys at the ordinals divisible by 16.
pub(crate) fn index_of(alloc: Global, keys: &Texts) -> Result<Texts, NoMemory>
    requires { length keys.now ≤ 3435973836 }
    ensures { IfOk result (λ index. index ≡ index_of_keys keys.now) }
{
    let mut index = Texts::new(alloc);
    for j in 0..keys.len().div_ceil(16) {
        index.push(keys.get(16 * j))?;
    }
    Ok(index)
}

/// Whether a key is below another: one comparison.
fn is_below<L: Ledger>(key: &[u8], other: &[u8], steps: &mut Steps<L>) -> bool
    ensures below { IsTrue result ↔ IsBelow key.now other.now }
    ensures cost { steps.new ≡ steps.old + 1 }
{
    steps.tick();
    key.cmp(other).is_lt()
}

/// The place of the first entry at or after a key.
pub(crate) fn search<L: Ledger>(index: &Texts, key: &[u8], steps: &mut Steps<L>) -> usize
    requires { Rises index.now }
    ensures within { result ≤ length index.now }
    ensures before { (j : ℕ) → j < result → IsBelow (slice_index_or index.now j []) key.now }
    ensures at { result < length index.now → ¬ IsBelow (slice_index_or index.now result []) key.now }
    ensures cost { 2 ^ (steps.new - steps.old) ≤ 2 * length index.now + 1 }
{
    let mut low = 0;
    let mut high = index.len();
    while low < high {
        let mid = low + (high - low) / 2;
        if is_below(index.get(mid), key, steps) {
            low = mid + 1;
        } else {
            high = mid;
        }
    }
    low
}
