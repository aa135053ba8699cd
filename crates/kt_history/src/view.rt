//! A view of a table: a store that tells its rows.
ghost use Rattle.std.specs.Prelude.{◌≡◌, ◌≤◌, ℕ, List, Option, Some, None, IfOk, IsSome, if◌then◌else◌};
ghost use Rattle.std.specs.List.{Contains};
ghost use Rattle.std.specs.Option.{option_copied};
ghost use Rattle.kt_history.specs.Rows.{Row, AgreeOn};
ghost use Rattle.kt_history.specs.Views.{key_above, AreRising};

use crate::RowRef;
use kt_base::{Cells, NoMemory, Octets};
use std::alloc::Global;

/// A store that tells its keys, and their rows from a time on.
pub trait View {
    /// From here on it tells its rows.
    ghost mark: { Self → ℕ };

    /// Its keys by rising bytes, those of deleted rows too.
    ghost keys: { Self → List (List ℕ) };

    /// The row of a key at a time.
    ghost row_of: { Self → List ℕ → ℕ → Option Row };

    /// The row of a key at a time, from the mark on.
    fn row_at(&self, alloc: Global, key: &[u8], t: u64) -> Result<Option<Cells>, NoMemory>
        ensures { IfOk result (λ found. mark self.now ≤ t → found ≡ row_of self.now key.now t) };

    /// The least key above another, or the least of all, those of deleted rows too.
    fn key_after(&self, alloc: Global, after: Option<&[u8]>) -> Result<Option<Octets>, NoMemory>
        ensures { IfOk result (λ found. found ≡ key_above (option_copied after.entry) (keys self.now)) };

    /// As `key_after`, without a copy. A hint tells nothing: it is a place that may save a search, and is moved on.
    fn next_key(&self, after: Option<&[u8]>, hint: &mut usize) -> Option<&[u8]>
        ensures { option_copied result ≡ key_above (option_copied after.entry) (keys self.now) };

    /// As `row_at`, into a row that borrows from the view. Tells whether there is a row. The hint is that of `next_key`.
    fn row_into<'v>(
        &'v self,
        key: &[u8],
        t: u64,
        hint: &mut usize,
        row: &mut RowRef<'v>,
    ) -> Result<bool, NoMemory>
        ensures { IfOk result (λ found. mark self.now ≤ t → row_of self.now key.now t ≡ (if found then Some row.new else None)) };

    /// As `row_into`, of a row that is asked for some columns alone: in these it has the cells of the key's row, if that is there.
    fn columns_into<'v>(
        &'v self,
        ids: &[u16],
        key: &[u8],
        t: u64,
        hint: &mut usize,
        row: &mut RowRef<'v>,
    ) -> Result<bool, NoMemory>
        ensures { IfOk result (λ found. mark self.now ≤ t → AgreeOn ids.now (row_of self.now key.now t) (if found then Some row.new else None)) };

    /// The keys rise.
    ghost keys_rise: { (view : Self) → AreRising (keys view) };

    /// A row has a key of the view's.
    ghost rows_have_keys: { (view : Self) (key : List ℕ) (t : ℕ) → mark view ≤ t → IsSome (row_of view key t) → Contains (keys view) key };
}
