//! Operations, each for the store that has its row.
ghost use Rattle.std.specs.Prelude.{◌≡◌, ◌<◌, ◌≤◌, length, map, [], None, false, is_some, if◌then◌else◌};
ghost use Rattle.std.specs.List.{All, position};
ghost use Rattle.kt_history.specs.Beside.{AllStand};
ghost use Rattle.kt_history.specs.Stores.{kind_made, change_by, is_there, with_change, share};
ghost use Rattle.kt_histlaws.specs.Histories.{hists, on_nth};
ghost use Rattle.kt_histlaws.specs.Flights.{AllUnder};
ghost use Rattle.kt_stores.specs.Parts.{kept, shelved, stands_by, owns_by, read_by, HasTaken, HasTakenAt, MayTakeAt};
ghost use Rattle.kt_stores.specs.Shelf.{has_live};

use super::Stores;
use crate::file_store::FileStore;
use kt_history::{OpRef, RowStore, Taken};
use kt_memrowset::MemRowSet;
use kt_pool::Pool;

// The first store that has the row of a key after all changes.
fn first_live<S: RowStore>(stores: &[S], pool: &Pool, key: &[u8]) -> Option<usize>
    requires { All (λ s. S.stands s pool.now) stores.now }
    ensures { result ≡ position (λ s. has_live key.now (S.store s pool.now)) stores.now }
{
    for (at, store) in stores.iter().enumerate() {
        if store.live(pool, key) {
            return Some(at);
        }
    }
    None
}

// An operation reaches a store, which takes its change, if it makes one.
fn take_in<S: RowStore>(store: &mut S, pool: &mut Pool, ts: u64, op: &OpRef<'_>) -> Taken
    requires stands { S.stands store.old pool.old }
    requires reserved { share op.now ≤ pool.old.reserved }
    requires thawed { is_there op.now (S.store store.old pool.old) ≡ false → S.is_closed store.old ≡ false }
    ensures { HasTaken S.stands S.owns (shelved S.target S.store S.is_closed S.cells) store.old store.new pool.old pool.new ts op.now result }
{
    store.take(pool, ts, op)
}

// An operation reaches the store at a place.
fn take_at<R: FileStore>(
    active: &mut MemRowSet,
    frozen: &mut [MemRowSet],
    rowsets: &mut [R],
    pool: &mut Pool,
    at: usize,
    ts: u64,
    op: &OpRef<'_>,
) -> Taken
    requires bound { at < length (kept active.old frozen.old rowsets.old) }
    requires stand { AllStand (stands_by R.stands) pool.old (kept active.old frozen.old rowsets.old) }
    requires reserved { share op.now ≤ pool.old.reserved }
    requires may { MayTakeAt (read_by (shelved R.target R.store R.is_closed R.cells)) at (kept active.old frozen.old rowsets.old) pool.old op.now }
    ensures taken { HasTakenAt (stands_by R.stands) (owns_by R.owns) (read_by (shelved R.target R.store R.is_closed R.cells)) at (kept active.old frozen.old rowsets.old) (kept active.new frozen.new rowsets.new) pool.old pool.new ts op.now result }
    ensures files { map R.files rowsets.new ≡ map R.files rowsets.old }
{
    if at == 0 {
        return take_in(active, pool, ts, op);
    }
    let at = at - 1;
    let count = frozen.len();
    if at < count {
        take_in(&mut frozen[at], pool, ts, op)
    } else {
        rowsets[at - count].take_here(pool, ts, op)
    }
}

impl<R: FileStore> Stores<R> {
    ghost use Rattle.kt_stores.specs.Shelf.{stores_of, last_live, place_of, name_at, TakesAt};

    // The place of the first store that has the row of a key after all changes.
    fn first(&mut self, key: &[u8]) -> Option<usize>
        ensures first { result ≡ position (has_live key.now) (stores_of self.old) }
        ensures same { self.new ≡ self.old }
    {
        if self.active.live(&self.pool, key) {
            return Some(0);
        }
        match first_live(&self.frozen, &self.pool, key) {
            Some(at) => Some(1 + at),
            None => {
                let at = self.ranges.first_live(&self.rowsets, &self.pool, key)?;
                Some(1 + self.frozen.len() + at)
            }
        }
    }

    /// Whether the row of a key is there after all changes.
    pub fn live(&mut self, key: &[u8]) -> bool
        ensures live { result ≡ is_some (last_live key.now (stores_of self.old)) }
        ensures same { self.new ≡ self.old }
    {
        self.first(key).is_some()
    }

    // Where a change of a key goes. A store that stands alone is not asked.
    fn place(&mut self, key: &[u8]) -> usize
        ensures place { result ≡ place_of key.now (stores_of self.old) }
        ensures bound { result < length self.old.shelf }
        ensures same { self.new ≡ self.old }
    {
        if self.frozen.is_empty() && self.rowsets.is_empty() {
            return 0;
        }
        self.first(key).unwrap_or(0)
    }

    /// Makes the change of an operation, if it makes one, in reserved cells. The first store that has the row after all
    /// changes takes it, or else the one that takes inserts. Where all that the stores have of the key lies below the
    /// change, that store is as before, with this change more. It tells whether the row was there before, and the store
    /// that took the change.
    pub fn take(&mut self, ts: u64, op: &OpRef<'_>) -> Taken
        requires { share op.now ≤ self.old.pool.reserved }
        ensures there { result.there ≡ is_some (last_live op.now.key (stores_of self.old)) }
        ensures changed { AllUnder ts (hists op.now.key (stores_of self.old)) → stores_of self.new ≡ on_nth (place_of op.now.key (stores_of self.old)) (with_change op.now.key ts (change_by op.now result.there)) (stores_of self.old) }
        ensures others { TakesAt (place_of op.now.key (stores_of self.old)) (share op.now) self.old self.new }
        ensures named { result.target ≡ (if is_some (kind_made op.now.kind result.there) then name_at (place_of op.now.key (stores_of self.old)) self.old.shelf else None) }
        ensures idle { result.target ≡ None → self.new ≡ self.old }
    {
        R::frame_law();
        R::placed_law();
        let at = self.place(op.key());
        take_at(
            &mut self.active,
            &mut self.frozen,
            &mut self.rowsets,
            &mut self.pool,
            at,
            ts,
            op,
        )
    }
}
