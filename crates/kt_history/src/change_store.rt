//! Stores of which a row is nothing but its changes.
ghost use Rattle.std.specs.Prelude.{◌≡◌, IfOk};
ghost use Rattle.kt_pool.specs.Contents.{Contents};
ghost use Rattle.kt_history.specs.Grown.{IsGrown};
ghost use Rattle.kt_history.specs.Stores.{changes_upto};

use crate::change_list::ChangeList;
use crate::row_store::RowStore;
use kt_base::NoMemory;
use kt_pool::Pool;
use std::alloc::Global;

/// A store whose rows were nothing before its changes, as that of a store in memory. It lists them all.
pub trait ChangeStore: RowStore {
    /// The changes at or below a time, by rising key, then timestamp.
    fn changes(&self, alloc: Global, pool: &Pool, upto: u64) -> Result<ChangeList, NoMemory>
        requires { Self.stands self.now pool.now }
        ensures { IfOk result (λ list. list ≡ changes_upto upto (Self.store self.now pool.now)) };

    /// Its keys rise, and all that it has of a row are its changes.
    fn grown_law()
        ensures { (s : Self) (pool : Contents) → Self.stands s pool → IsGrown (Self.store s pool) };
}
