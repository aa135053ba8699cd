//! Stores of rows in the cells of a pool.
ghost use Rattle.std.specs.Prelude.{◌≡◌, ◌≤◌, ◌↔◌, ◌⊎◌, ◌+◌, ℕ, Bool, [], None, true, false, is_some};
ghost use Rattle.std.specs.Option.{option_map};
ghost use Rattle.std.specs.FinMap.Entries.{put};
ghost use Rattle.kt_pool.specs.Contents.{Contents, Stands, at_cell, used};
ghost use Rattle.kt_history.specs.Rows.{key_cmp, fits};
ghost use Rattle.kt_history.specs.declared.target.Target.{Target};
ghost use Rattle.kt_history.specs.Stores.{Store, Under, hist_in, last_row, push, kind_made, change_of, change_by, is_there, with_change, share, TakesUpTo};

use crate::op_list::OpRef;
use crate::operation::OpKind;
use crate::target::{Kindly, Target};
use kt_pool::Pool;

/// What a store did with an operation: whether its row was there before, and who took its change, if it made one.
#[derive(Clone, Copy, Debug, PartialEq, Eq)]
pub struct Taken {
    pub there: bool,
    pub target: Option<Target>,
}

/// The kind of change that an operation makes to a row that is there, or is not.
pub fn kind_made(kind: OpKind, there: bool) -> Option<Kindly>
    ensures { result ≡ kind_made kind there }
{
    match (kind, there) {
        (OpKind::Insert | OpKind::Upsert | OpKind::InsertIgnore, false) => Some(Kindly::Ins),
        (OpKind::Upsert | OpKind::Update | OpKind::UpdateIgnore, true) => Some(Kindly::Upd),
        (OpKind::Delete | OpKind::DeleteIgnore, true) => Some(Kindly::Del),
        _ => None,
    }
}

/// A store whose changes lie in the cells of a pool. Read with its pool it is a list of histories by key. A store keeps
/// the cells that an operation names, and knows no schema.
pub trait RowStore {
    /// Its places stand in the pool.
    ghost stands: { Self → Contents → Type 0 };

    /// The histories of its rows, read with the pool in which it stands.
    ghost store: { Self → Contents → Store };

    /// The cells at which its places begin.
    ghost owns: { Self → Contents → ℕ → Type 0 };

    /// How many cells its places take.
    ghost cells: { Self → Contents → ℕ };

    /// Whether it takes no insert any more. Each store takes the other changes of the rows that it has.
    ghost is_closed: { Self → Bool };

    /// Its name.
    ghost target: { Self → Target };

    /// Whether the row of a key is there after all changes.
    fn live(&self, pool: &Pool, key: &[u8]) -> bool
        requires { stands self.now pool.now }
        ensures { result ≡ is_some (last_row (hist_in key.now (store self.now pool.now))) };

    /// Adds the change of an operation, which fits the row after all changes, in reserved cells. It tells the store that took
    /// it. Where all that the store has of the key lies below the change, the store is as before, with this change more.
    fn apply_reserved(&mut self, pool: &mut Pool, ts: u64, op: &OpRef<'_>, change: Kindly) -> Target
        requires stands { stands self.old pool.old }
        requires reserved { share op.now ≤ pool.old.reserved }
        requires fits { fits (change_of change op.now.cells) (last_row (hist_in op.now.key (store self.old pool.old))) ≡ true }
        requires thawed { change ≡ Kindly.Ins → is_closed self.old ≡ false }
        ensures stands { stands self.new pool.new }
        ensures pushed { Under ts (hist_in op.now.key (store self.old pool.old)).steps → store self.new pool.new ≡ put key_cmp op.now.key (push ts (change_of change op.now.cells) (hist_in op.now.key (store self.old pool.old))) (store self.old pool.old) }
        ensures named { result ≡ target self.old }
        ensures name { target self.new ≡ target self.old }
        ensures closed { is_closed self.new ≡ is_closed self.old }
        ensures takes { TakesUpTo (share op.now) pool.old pool.new }
        ensures more { cells self.new pool.new + used pool.old ≡ cells self.old pool.old + used pool.new }
        ensures keeps { (k : ℕ) → owns self.old pool.old k → owns self.new pool.new k }
        ensures grows { (k : ℕ) → owns self.new pool.new k → owns self.old pool.old k ⊎ (at_cell pool.old k ≡ None) }
        ensures frame { (k : ℕ) → ¬ owns self.new pool.new k → at_cell pool.new k ≡ at_cell pool.old k };

    /// Adds the change of an operation, if it makes one, in reserved cells. It tells whether the row was there before, and
    /// the store that took the change. The store is then as `apply_reserved` says.
    fn take(&mut self, pool: &mut Pool, ts: u64, op: &OpRef<'_>) -> Taken
        requires stands { stands self.old pool.old }
        requires reserved { share op.now ≤ pool.old.reserved }
        requires thawed { is_there op.now (store self.old pool.old) ≡ false → is_closed self.old ≡ false }
        ensures stands { stands self.new pool.new }
        ensures there { result.there ≡ is_there op.now (store self.old pool.old) }
        ensures changed { Under ts (hist_in op.now.key (store self.old pool.old)).steps → store self.new pool.new ≡ with_change op.now.key ts (change_by op.now result.there) (store self.old pool.old) }
        ensures named { result.target ≡ option_map (λ _. target self.old) (kind_made op.now.kind result.there) }
        ensures name { target self.new ≡ target self.old }
        ensures closed { is_closed self.new ≡ is_closed self.old }
        ensures takes { TakesUpTo (share op.now) pool.old pool.new }
        ensures more { cells self.new pool.new + used pool.old ≡ cells self.old pool.old + used pool.new }
        ensures has_row { store self.new pool.new ≡ [] → result.target ≡ None }
        ensures idle { result.target ≡ None → (self.new ≡ self.old) × (pool.new ≡ pool.old) }
        ensures keeps { (k : ℕ) → owns self.old pool.old k → owns self.new pool.new k }
        ensures grows { (k : ℕ) → owns self.new pool.new k → owns self.old pool.old k ⊎ (at_cell pool.old k ≡ None) }
        ensures frame { (k : ℕ) → ¬ owns self.new pool.new k → at_cell pool.new k ≡ at_cell pool.old k };

    /// A store stands as it was where no place of its own has changed, whatever else the pool has and promises.
    fn frame_law()
        ensures { (s : Self) (old new : Contents) → stands s old → ((k : ℕ) → owns s old k → at_cell new k ≡ at_cell old k) → stands s new × (store s new ≡ store s old) × (cells s new ≡ cells s old) × ((k : ℕ) → owns s new k ↔ owns s old k) };

    /// At each cell that a store owns a place stands, so that the places which another store takes are never its own.
    fn placed_law()
        ensures { (s : Self) (pool : Contents) (k : ℕ) → stands s pool → owns s pool k → Stands pool k };
}
