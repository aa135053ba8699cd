//! Stores of rows that lie in files, with changes in memory beside them.
ghost use Rattle.std.specs.Prelude.{◌≡◌, ◌≢◌, ◌≤◌, ℕ, List, None, false, IfOk};
ghost use Rattle.std.specs.List.{AllByRecursion};
ghost use Rattle.kt_history.specs.Stores.{is_there, share, hist_in, last_row};
ghost use Rattle.kt_history.specs.Views.{AreRising};
ghost use Rattle.kt_diskrowset.specs.Held.{keys_held, ends_held};
ghost use Rattle.kt_pool.specs.Contents.{Contents};
ghost use Rattle.kt_diskrowset.specs.Rowset.{HeldFiles, held_of};
ghost use Rattle.kt_stores.specs.Parts.{shelved, HasTaken};

use kt_base::{NoMemory, Octets};
use kt_diskrowset::{DiskRowSet, laws};
use kt_history::{OpRef, Taken};
use kt_pool::Pool;
use kt_views::ViewStore;
use std::alloc::Global;

/// A store of rows that tells its files, which no change of a row touches.
pub trait FileStore: ViewStore {
    /// Its files, whoever owns them.
    ghost files: { Self → HeldFiles };

    /// Adds the change of an operation, if it makes one, as `take` does. The files stay.
    fn take_here(&mut self, pool: &mut Pool, ts: u64, op: &OpRef<'_>) -> Taken
        requires stands { Self.stands self.old pool.old }
        requires reserved { share op.now ≤ pool.old.reserved }
        requires thawed { is_there op.now (Self.store self.old pool.old) ≡ false → Self.is_closed self.old ≡ false }
        ensures taken { HasTaken Self.stands Self.owns (shelved Self.target Self.store Self.is_closed Self.cells) self.old self.new pool.old pool.new ts op.now result }
        ensures files { files self.new ≡ files self.old };

    /// The least key of its base file and the greatest. Where it has no row, both are empty. The keys of the rows rise.
    fn ends(&self, alloc: Global) -> Result<(Octets, Octets), NoMemory>
        ensures least { IfOk result (λ ends. ends.0 ≡ (ends_held (files self.now)).0) }
        ensures greatest { IfOk result (λ ends. ends.1 ≡ (ends_held (files self.now)).1) }
        ensures rise { AreRising (keys_held (files self.now)) };

    /// A key that no row of the base file has is not there.
    fn keys_law()
        ensures { (s : Self) (pool : Contents) (q : List ℕ) → AllByRecursion (λ key. key ≢ q) (keys_held (files s)) → last_row (hist_in q (Self.store s pool)) ≡ None };
}

impl FileStore for DiskRowSet {
    ghost files = { held_of };

    fn take_here(&mut self, pool: &mut Pool, ts: u64, op: &OpRef<'_>) -> Taken {
        DiskRowSet::take(self, pool, ts, op)
    }

    fn ends(&self, alloc: Global) -> Result<(Octets, Octets), NoMemory> {
        DiskRowSet::ends(self, alloc)
    }

    fn keys_law() {
        laws::keys_law();
    }
}
