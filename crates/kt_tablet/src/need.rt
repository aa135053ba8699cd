//! How many cells of the pool a write needs.
ghost use Rattle.std.specs.Prelude.{◌≡◌, ◌≤◌, ◌<◌, ◌*◌, ◌^◌, IfSome, IfNone};
ghost use Rattle.kt_history.specs.Operations.{need};
ghost use Rattle.kt_history.specs.Stores.{share};

use kt_history::{OpList, OpRef, need as counted};

/// How many cells of the pool an operation needs: two shares.
pub(crate) fn cells_of(op: &OpRef<'_>) -> u32
    requires { 2 * share op.now < 2 ^ 32 }
    ensures { result ≡ 2 * share op.now }
{
    counted::cells_of(op) as u32
}

/// How many cells of the pool a write needs, if they are a number of 32 bits.
pub fn need(ops: &OpList) -> Option<u32>
    ensures needs { IfSome result (λ n. n ≡ need ops.now) }
    ensures past { IfNone result (2 ^ 32 ≤ need ops.now) }
{
    u32::try_from(counted::cells_needed(ops)).ok()
}
