//! One change for two stores.
ghost use Rattle.std.specs.Prelude.{◌≡◌, ◌≢◌, ◌≤◌, ◌+◌, ◌⊎◌, ℕ, None, true};
ghost use Rattle.kt_pool.specs.Contents.{at_cell, used};
ghost use Rattle.kt_history.specs.Rows.{fits};
ghost use Rattle.kt_history.specs.Stores.{Under, hist_in, last_row, change_of, share, TakesUpTo};
ghost use Rattle.kt_dup.specs.Sides.{HasOneMore, StaysBeside};

use kt_history::{Kindly, OpRef, RowStore, Target};
use kt_pool::Pool;

// Adds the change of an operation to a store. Another store beside it is as before.
fn apply_beside<S: RowStore, B: RowStore>(
    store: &mut S,
    other: &B,
    pool: &mut Pool,
    ts: u64,
    op: &OpRef<'_>,
    change: Kindly,
) -> Target
    requires stands { S.stands store.old pool.old }
    requires beside { B.stands other.now pool.old }
    requires apart { (k : ℕ) → S.owns store.old pool.old k → ¬ B.owns other.now pool.old k }
    requires reserved { share op.now ≤ pool.old.reserved }
    requires no_insert { change ≢ Kindly.Ins }
    requires fits { fits (change_of change op.now.cells) (last_row (hist_in op.now.key (S.store store.old pool.old))) ≡ true }
    requires above { Under ts (hist_in op.now.key (S.store store.old pool.old)).steps }
    ensures more { HasOneMore S.stands S.store S.target S.is_closed store.old store.new pool.old pool.new op.now.key ts (change_of change op.now.cells) result }
    ensures beside { StaysBeside B.stands B.store B.cells B.owns other.now pool.old pool.new }
    ensures apart { (k : ℕ) → S.owns store.new pool.new k → ¬ B.owns other.now pool.new k }
    ensures takes { TakesUpTo (share op.now) pool.old pool.new }
    ensures cells { S.cells store.new pool.new + used pool.old ≡ S.cells store.old pool.old + used pool.new }
    ensures keeps { (k : ℕ) → S.owns store.old pool.old k → S.owns store.new pool.new k }
    ensures grows { (k : ℕ) → S.owns store.new pool.new k → S.owns store.old pool.old k ⊎ (at_cell pool.old k ≡ None) }
    ensures frame { (k : ℕ) → ¬ S.owns store.new pool.new k → at_cell pool.new k ≡ at_cell pool.old k }
{
    B::frame_law();
    B::placed_law();
    store.apply_reserved(pool, ts, op, change)
}

/// Adds the change of an operation to an input and to an output of a job, in reserved cells. It is no insert, it fits the row after
/// all changes on both sides, and all that either has of the key lies below it. It tells the two stores that took it.
#[tactic(auto, using(crate::proofs::Sides::taken_twice))]
pub fn apply_to_both<I: RowStore, O: RowStore>(
    input: &mut I,
    output: &mut O,
    pool: &mut Pool,
    ts: u64,
    op: &OpRef<'_>,
    change: Kindly,
) -> (Target, Target)
    requires input { I.stands input.old pool.old }
    requires output { O.stands output.old pool.old }
    requires apart { (k : ℕ) → I.owns input.old pool.old k → ¬ O.owns output.old pool.old k }
    requires reserved { share op.now + share op.now ≤ pool.old.reserved }
    requires no_insert { change ≢ Kindly.Ins }
    requires fits_input { fits (change_of change op.now.cells) (last_row (hist_in op.now.key (I.store input.old pool.old))) ≡ true }
    requires fits_output { fits (change_of change op.now.cells) (last_row (hist_in op.now.key (O.store output.old pool.old))) ≡ true }
    requires above_input { Under ts (hist_in op.now.key (I.store input.old pool.old)).steps }
    requires above_output { Under ts (hist_in op.now.key (O.store output.old pool.old)).steps }
    ensures input { HasOneMore I.stands I.store I.target I.is_closed input.old input.new pool.old pool.new op.now.key ts (change_of change op.now.cells) result.0 }
    ensures output { HasOneMore O.stands O.store O.target O.is_closed output.old output.new pool.old pool.new op.now.key ts (change_of change op.now.cells) result.1 }
    ensures apart { (k : ℕ) → I.owns input.new pool.new k → ¬ O.owns output.new pool.new k }
    ensures takes { TakesUpTo (share op.now + share op.now) pool.old pool.new }
    ensures more { I.cells input.new pool.new + O.cells output.new pool.new + used pool.old ≡ I.cells input.old pool.old + O.cells output.old pool.old + used pool.new }
    ensures keeps_input { (k : ℕ) → I.owns input.old pool.old k → I.owns input.new pool.new k }
    ensures keeps_output { (k : ℕ) → O.owns output.old pool.old k → O.owns output.new pool.new k }
    ensures grows_input { (k : ℕ) → I.owns input.new pool.new k → I.owns input.old pool.old k ⊎ (at_cell pool.old k ≡ None) }
    ensures grows_output { (k : ℕ) → O.owns output.new pool.new k → O.owns output.old pool.old k ⊎ (at_cell pool.old k ≡ None) }
    ensures frame { (k : ℕ) → ¬ I.owns input.new pool.new k → ¬ O.owns output.new pool.new k → at_cell pool.new k ≡ at_cell pool.old k }
{
    let told_input = apply_beside(input, output, pool, ts, op, change);
    let told_output = apply_beside(output, input, pool, ts, op, change);
    (told_input, told_output)
}
