//! The rows of a table at one time, which a scan reads.
ghost use Rattle.std.specs.Prelude.{◌≡◌, true};
ghost use Rattle.std.specs.FinMap.Entries.{find, is_sorted};
ghost use Rattle.kt_history.specs.Rows.{key_cmp};
ghost use Rattle.kt_views.specs.Keys.{keys_under};
ghost use Rattle.kt_views.specs.KeyLaws.{keys_rise, has_key};

use crate::lookup::{key_at, least_above, place_after, row_in, row_of};
use kt_base::{Cells, NoMemory, Octets};
use kt_history::{RowRef, View};
use std::alloc::Global;

/// The rows of a table at one time, by rising key. As a view it tells them at every time.
#[derive(Drop)]
pub struct Table {
    rows: Vec<(Octets, Cells)>,
    ghost rising: { is_sorted key_cmp rows.items ≡ true },
}

impl Table {
    ghost use Rattle.kt_views.specs.Tables.{rows_in};

    /// The table of these rows, each under its key, which takes no memory.
    pub fn of(rows: Vec<(Octets, Cells)>) -> Table
        requires { is_sorted key_cmp rows.items ≡ true }
        ensures { rows_in result ≡ rows.items }
    {
        Table { rows }
    }
}

impl View for Table {
    ghost mark = { λ _. 0 };

    ghost keys = { λ v. keys_under v.rows.items };

    ghost row_of = { λ v key _. find key_cmp key v.rows.items };

    ghost keys_rise = { λ v. keys_rise v.rows.items v.rising };

    ghost rows_have_keys = { λ v key _ _ some. has_key v.rows.items key some };

    fn row_at(&self, _alloc: Global, key: &[u8], _t: u64) -> Result<Option<Cells>, NoMemory> {
        row_of(&self.rows, key)
    }

    fn key_after(&self, alloc: Global, after: Option<&[u8]>) -> Result<Option<Octets>, NoMemory> {
        least_above(alloc, &self.rows, after)
    }

    fn next_key(&self, after: Option<&[u8]>, hint: &mut usize) -> Option<&[u8]> {
        *hint = place_after(&self.rows, after, *hint);
        key_at(&self.rows, *hint)
    }

    fn row_into<'v>(
        &'v self,
        key: &[u8],
        _t: u64,
        hint: &mut usize,
        row: &mut RowRef<'v>,
    ) -> Result<bool, NoMemory> {
        row_in(&self.rows, key, *hint, row)
    }

    fn columns_into<'v>(
        &'v self,
        ids: &[u16],
        key: &[u8],
        _t: u64,
        hint: &mut usize,
        row: &mut RowRef<'v>,
    ) -> Result<bool, NoMemory> {
        let found = row_in(&self.rows, key, *hint, row)?;
        Ok(found)
    }
}
