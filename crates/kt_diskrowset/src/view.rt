//! A disk rowset that reads share.
ghost use Rattle.std.specs.Prelude.{◌≡◌, IfOk};
ghost use Rattle.std.specs.List.Sorted.{IsNonDecreasingBy};
ghost use Rattle.std.specs.Option.{option_copied};
ghost use Rattle.kt_history.specs.Views.{key_above};
ghost use Rattle.kt_views.specs.Tables.{HasRowsOf};
ghost use Rattle.kt_diskrowset.specs.Data.{files_in, keys_of};
ghost use Rattle.kt_diskrowset.specs.Rows.{UndosLeadBack};
ghost use Rattle.kt_diskrowset.specs.Page.{told_at, row_told, IsPage};

use crate::data::RowSetData;
use crate::page::Page;
use kt_base::{Cell, Cells, NoMemory, Octets};
use kt_views::{StoreRows, Table};
use std::alloc::Global;
use std::marker::Model;

/// A disk rowset whose rows can be told at any time: each UNDO record leads back, and its changes in memory stand in the order
/// of their rows. Contracts see it as its plain data.
#[derive(Drop)]
pub struct RowSetView {
    rowset: RowSetData,
}

impl Model for RowSetView {
    ghost use Rattle.std.specs.List.Sorted.{IsNonDecreasingBy};
    ghost use Rattle.kt_diskrowset.specs.declared.data.RowSetData.{RowSetData};
    ghost use Rattle.kt_diskrowset.specs.Data.{files_in};
    ghost use Rattle.kt_diskrowset.specs.Rows.{UndosLeadBack};

    ghost Value = { RowSetData };

    ghost view = { λ v. v.rowset };

    ghost invariant = { λ v. UndosLeadBack (files_in v.rowset) × IsNonDecreasingBy (λ d. d.ordinal) v.rowset.fresh };
}

impl RowSetView {
    /// The view of this disk rowset.
    pub fn of(rowset: RowSetData) -> RowSetView
        requires lead { UndosLeadBack (files_in rowset) }
        requires order { IsNonDecreasingBy (λ d. d.ordinal) rowset.fresh }
        ensures { result ≡ rowset }
    {
        RowSetView { rowset }
    }

    /// The row of a key at a time.
    pub fn row_at(&self, alloc: Global, key: &[u8], t: u64) -> Result<Option<Cells>, NoMemory>
        ensures { IfOk result (λ row. row ≡ told_at t self.now key.now) }
    {
        self.rowset.row_at(alloc, key, t)
    }

    /// The least key above another, or the least of all, those of deleted rows too.
    pub fn key_after(&self, alloc: Global, after: Option<&[u8]>) -> Result<Option<Octets>, NoMemory>
        ensures { IfOk result (λ found. found ≡ key_above (option_copied after.entry) (keys_of self.now)) }
    {
        self.rowset.key_after(alloc, after)
    }

    /// The rows at a time of the next keys above one, or of the first keys, cut to some columns. With each column stands the cell
    /// that is shown of a row that has none there. It goes over 1,024 keys at most.
    pub fn page(
        &self,
        alloc: Global,
        after: Option<&[u8]>,
        t: u64,
        columns: &[(u16, Cell)],
    ) -> Result<Page, NoMemory>
        ensures { IfOk result (IsPage (told_at t self.now) (keys_of self.now) (option_copied after.entry) columns.now) }
    {
        self.rowset.page(alloc, after, t, columns)
    }

    /// All rows at a time.
    pub fn table(&self, alloc: Global, t: u64) -> Result<Table, NoMemory>
        ensures { IfOk result (HasRowsOf (told_at t self.now)) }
    {
        self.rowset.table(alloc, t)
    }
}

impl StoreRows for RowSetView {
    ghost row_of = { row_told };

    fn row_at(&self, alloc: Global, key: &[u8], t: u64) -> Result<Option<Cells>, NoMemory> {
        RowSetView::row_at(self, alloc, key, t)
    }

    fn table(&self, alloc: Global, t: u64) -> Result<Table, NoMemory> {
        RowSetView::table(self, alloc, t)
    }
}
