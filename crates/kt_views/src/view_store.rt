//! Stores whose rows up to a time can be told later, when the stores are out of reach.
ghost use Rattle.std.specs.Prelude.{◌≡◌, ℕ, List, Option, IfOk};
ghost use Rattle.kt_history.specs.Rows.{Row};
ghost use Rattle.kt_views.specs.Tables.{HasRowsOf};
ghost use Rattle.kt_views.specs.Told.{TellsUpTo};

use crate::table::Table;
use kt_base::{Cells, NoMemory};
use kt_history::RowStore;
use kt_pool::Pool;
use std::alloc::Global;

/// What was read of a store, which tells its rows without the store and its pool.
pub trait StoreRows {
    /// The row of a key at a time.
    ghost row_of: { Self → List ℕ → ℕ → Option Row };

    /// The row of a key at a time.
    fn row_at(&self, alloc: Global, key: &[u8], t: u64) -> Result<Option<Cells>, NoMemory>
        ensures { IfOk result (λ row. row ≡ row_of self.now key.now t) };

    /// All rows at a time.
    fn table(&self, alloc: Global, t: u64) -> Result<Table, NoMemory>
        ensures { IfOk result (HasRowsOf (λ key. row_of self.now key t)) };
}

/// A store of which a visit reads so little that its rows up to a time can be told later: no row is put together in the visit.
pub trait ViewStore: RowStore {
    type Read: StoreRows + Drop;

    /// What tells its rows up to a time.
    fn read(&self, alloc: Global, pool: &Pool, upto: u64) -> Result<Self::Read, NoMemory>
        requires { Self.stands self.now pool.now }
        ensures { IfOk result (λ read. TellsUpTo Self.Read.row_of upto (Self.store self.now pool.now) read) };
}
