//! How many cells of the pool a write needs.
ghost use Rattle.std.specs.Prelude.{◌≡◌, ◌≤◌, ◌+◌, ◌*◌, ◌/◌, ◌^◌, min};
ghost use Rattle.kt_history.specs.Operations.{op_len, need};

use crate::{OpList, OpRef};

// A length past which the cells of an operation are no number of 32 bits.
const LONG: u64 = 1 << 40;

/// How many cells of the pool an operation needs, where they are a number of 32 bits.
pub fn cells_of(op: &OpRef<'_>) -> u64
    ensures cells { min result (2 ^ 32) ≡ min (2 * ((op_len op.now + 55) / 56 + 4)) (2 ^ 32) }
    ensures small { result ≤ 2 ^ 40 }
{
    let len = (op.len() as u64).min(LONG);
    2 * ((len + 55) / 56 + 4)
}

/// How many cells of the pool a write needs, and no more than 2^32.
#[tactic(auto, using(std::proofs::lemmas::List::Sums::sum_by_more))]
pub fn cells_needed(ops: &OpList) -> u64
    ensures { result ≡ min (need ops.now) (2 ^ 32) }
{
    let mut cells: u64 = 0;
    'ops: for at in 0..ops.len() {
        let op = ops.at(at);
        cells = (cells + cells_of(&op)).min(1 << 32);
    }
    cells
}
