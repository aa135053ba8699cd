//! One input beside one output.
ghost use Rattle.std.specs.Prelude.{◌≡◌, ◌≢◌, ◌≤◌, ◌<◌, ◌+◌, ◌⊎◌, ◌∷◌, [], ℕ, List, None, true, IfOk};
ghost use Rattle.kt_pool.specs.Contents.{Contents, at_cell, used};
ghost use Rattle.kt_history.specs.Rows.{fits};
ghost use Rattle.kt_history.specs.Stores.{Steps, Under, hist_in, last_row, change_of, share, TakesUpTo};
ghost use Rattle.kt_histlaws.specs.Jobs.{AreAlike};
ghost use Rattle.kt_dup.specs.Sides.{HasOneMore};
ghost use Rattle.kt_dup.specs.Split.{AreSplit};

use crate::both::apply_to_both;
use crate::missed::{FirstAbove, ListsAbove, MissedChanges, missed_changes};
use kt_base::NoMemory;
use kt_history::{Kindly, OpRef, RowStore, Target};
use kt_pool::Pool;
use std::alloc::Global;

/// An input and an output of a job, from its swap to its end, with the bound up to which the output's files have what the input
/// has.
#[derive(Drop)]
pub struct Dup<I: RowStore, O: RowStore> {
    pub input: I,
    pub output: O,
    pub bound: u64,
}

impl<I: RowStore, O: RowStore> Dup<I, O> {
    /// An input and an output of a job with this bound.
    pub fn of(input: I, output: O, bound: u64) -> Dup<I, O>
        ensures input { result.input ≡ input }
        ensures output { result.output ≡ output }
        ensures bound { result.bound ≡ bound }
    {
        Dup {
            input,
            output,
            bound,
        }
    }

    /// Adds the change of an operation to both sides, in reserved cells. It is no insert, it fits the row after all changes on both
    /// sides, and it lies above the bound and above all that either side has of the key. It tells the store of the input and that
    /// of the output that took it. What is split stays split.
    pub fn apply(
        &mut self,
        pool: &mut Pool,
        ts: u64,
        op: &OpRef<'_>,
        change: Kindly,
    ) -> (Target, Target)
        requires input { I.stands self.old.input pool.old }
        requires output { O.stands self.old.output pool.old }
        requires apart { (k : ℕ) → I.owns self.old.input pool.old k → ¬ O.owns self.old.output pool.old k }
        requires reserved { share op.now + share op.now ≤ pool.old.reserved }
        requires no_insert { change ≢ Kindly.Ins }
        requires fits_input { fits (change_of change op.now.cells) (last_row (hist_in op.now.key (I.store self.old.input pool.old))) ≡ true }
        requires fits_output { fits (change_of change op.now.cells) (last_row (hist_in op.now.key (O.store self.old.output pool.old))) ≡ true }
        requires above { self.old.bound < ts }
        requires above_input { Under ts (hist_in op.now.key (I.store self.old.input pool.old)).steps }
        requires above_output { Under ts (hist_in op.now.key (O.store self.old.output pool.old)).steps }
        ensures input { HasOneMore I.stands I.store I.target I.is_closed self.old.input self.new.input pool.old pool.new op.now.key ts (change_of change op.now.cells) result.0 }
        ensures output { HasOneMore O.stands O.store O.target O.is_closed self.old.output self.new.output pool.old pool.new op.now.key ts (change_of change op.now.cells) result.1 }
        ensures bound { self.new.bound ≡ self.old.bound }
        ensures split { (j : ℕ) (missed : List ℕ → Steps) → j ≤ self.old.bound → AreSplit j self.old.bound missed (I.store self.old.input pool.old) (O.store self.old.output pool.old) → AreSplit j self.old.bound missed (I.store self.new.input pool.new) (O.store self.new.output pool.new) }
        ensures apart { (k : ℕ) → I.owns self.new.input pool.new k → ¬ O.owns self.new.output pool.new k }
        ensures takes { TakesUpTo (share op.now + share op.now) pool.old pool.new }
        ensures more { I.cells self.new.input pool.new + O.cells self.new.output pool.new + used pool.old ≡ I.cells self.old.input pool.old + O.cells self.old.output pool.old + used pool.new }
        ensures keeps_input { (k : ℕ) → I.owns self.old.input pool.old k → I.owns self.new.input pool.new k }
        ensures keeps_output { (k : ℕ) → O.owns self.old.output pool.old k → O.owns self.new.output pool.new k }
        ensures grows_input { (k : ℕ) → I.owns self.new.input pool.new k → I.owns self.old.input pool.old k ⊎ (at_cell pool.old k ≡ None) }
        ensures grows_output { (k : ℕ) → O.owns self.new.output pool.new k → O.owns self.old.output pool.old k ⊎ (at_cell pool.old k ≡ None) }
        ensures frame { (k : ℕ) → ¬ I.owns self.new.input pool.new k → ¬ O.owns self.new.output pool.new k → at_cell pool.new k ≡ at_cell pool.old k }
    {
        apply_to_both(&mut self.input, &mut self.output, pool, ts, op, change)
    }

    /// Both sides, as the job ends: the output takes the place of the input. Where nothing is missed any more, it shows from the
    /// job's mark on what the input showed.
    pub fn finish(self) -> (I, O)
        ensures input { result.0 ≡ self.input }
        ensures output { result.1 ≡ self.output }
        ensures alike { (j : ℕ) (pool : Contents) → AreSplit j self.bound (λ _. []) (I.store self.input pool) (O.store self.output pool) → (q : List ℕ) → AreAlike j (hist_in q (I.store result.0 pool) ∷ []) (hist_in q (O.store result.1 pool) ∷ []) }
    {
        (self.input, self.output)
    }

    /// Both sides, as the job is given up: the input stays.
    pub fn abandon(self) -> (I, O)
        ensures input { result.0 ≡ self.input }
        ensures output { result.1 ≡ self.output }
    {
        (self.input, self.output)
    }
}

impl<I: ListsAbove, O: FirstAbove> Dup<I, O> {
    ghost use Rattle.std.specs.FinMap.Entries.{is_sorted};
    ghost use Rattle.kt_history.specs.Rows.{key_cmp};
    ghost use Rattle.kt_dup.specs.Missed.{listed, missed_in};

    /// The changes above the bound that went to the input alone: those before the first one there that the output has of their
    /// key. All that either side has above the bound is in memory. Where the sides are split, they are the missed changes.
    pub fn missed(&self, alloc: Global, pool: &Pool) -> Result<MissedChanges, NoMemory>
        requires input { I.stands self.now.input pool.now }
        requires output { O.stands self.now.output pool.now }
        requires settled_input { I.settled self.now.input self.now.bound }
        requires settled_output { O.settled self.now.output self.now.bound }
        ensures list { IfOk result (λ list. list ≡ missed_in self.now.bound (I.store self.now.input pool.now) (O.store self.now.output pool.now)) }
        ensures split { IfOk result (λ list. (j : ℕ) (missed : List ℕ → Steps) → j ≤ self.now.bound → is_sorted key_cmp (I.store self.now.input pool.now) ≡ true → AreSplit j self.now.bound missed (I.store self.now.input pool.now) (O.store self.now.output pool.now) → list ≡ listed missed (I.store self.now.input pool.now)) }
    {
        missed_changes(alloc, pool, &self.input, &self.output, self.bound)
    }
}
