//! What a scan reads: copies of what stores hold up to its time, and the views that are made of them.
ghost use Rattle.std.specs.Prelude.{◌≡◌, ◌≤◌, map, IfOk};
ghost use Rattle.kt_tablet.specs.Copies.{mark_of, copied_row, copied_rows, read_mark, read_keys, read_row, read_rows, read_keys_rise, read_has_key};

use crate::snap_view::SnapView;
use kt_base::{Cells, NoMemory, Octets};
use kt_history::{RowRef, View};
use kt_views::{StoreRows, Table};
use std::alloc::Global;
use std::marker::Model;

/// What is copied of one store up to the time of a scan.
#[derive(Drop)]
pub enum Copied<V> {
    /// The changes of a store in memory.
    Memory(SnapView),
    /// What tells the rows of a disk rowset.
    Rowset(V),
}

/// What is copied of several stores. Contracts see it as a list.
#[derive(Drop)]
pub struct SnapList<V> {
    views: Vec<Copied<V>>,
}

impl<V> Model for SnapList<V> {
    ghost use Rattle.std.specs.Prelude.{List};
    ghost use Rattle.kt_tablet.specs.declared.snap.Copied.{Copied};

    ghost Value = { List (Copied V) };

    ghost view = { λ l. l.views.items };
}

/// What a scan reads at its time. Its mark is that of the tablet then.
#[derive(Drop)]
pub struct Snap<V> {
    pub t: u64,
    pub mark: u64,
    pub views: SnapList<V>,
}

/// What a scan reads of one store at its time.
#[derive(Drop)]
pub enum ReadView<'s> {
    /// The changes of a store in memory.
    Changes(&'s SnapView),
    /// The rows of a disk rowset at the time.
    Rows(Table),
}

impl<V> SnapList<V> {
    /// These copies.
    pub fn of(views: Vec<Copied<V>>) -> SnapList<V>
        ensures { result ≡ views.items }
    {
        SnapList { views }
    }

    pub fn as_slice(&self) -> &[Copied<V>]
        ensures { result.now ≡ self.now }
    {
        &self.views
    }
}

impl<V: StoreRows> Copied<V> {
    /// The row of a key at a time.
    pub fn row_at(&self, alloc: Global, key: &[u8], t: u64) -> Result<Option<Cells>, NoMemory>
        ensures { IfOk result (λ row. mark_of self.now ≤ t → row ≡ copied_row V.row_of key.now t self.now) }
    {
        match self {
            Copied::Memory(view) => view.row_at(alloc, key, t),
            Copied::Rowset(rows) => rows.row_at(alloc, key, t),
        }
    }

    // The view of it at a time.
    fn read(&self, alloc: Global, t: u64) -> Result<ReadView<'_>, NoMemory>
        ensures mark { IfOk result (λ view. read_mark view ≡ mark_of self.now) }
        ensures rows { IfOk result (λ view. read_rows t view ≡ copied_rows V.row_of t self.now) }
    {
        match self {
            Copied::Memory(view) => Ok(ReadView::Changes(view)),
            Copied::Rowset(rows) => {
                let table = rows.table(alloc, t)?;
                Ok(ReadView::Rows(table))
            }
        }
    }
}

// The views of these copies at a time.
fn read_all<V: StoreRows>(
    alloc: Global,
    copies: &[Copied<V>],
    t: u64,
) -> Result<Vec<ReadView<'_>>, NoMemory>
    ensures marks { IfOk result (λ views. map read_mark views.items ≡ map mark_of copies.now) }
    ensures rows { IfOk result (λ views. map (read_rows t) views.items ≡ map (copied_rows V.row_of t) copies.now) }
{
    let mut views = Vec::with_capacity(alloc, copies.len())?;
    'copies: for copy in copies {
        let view = copy.read(alloc, t)?;
        views.push(view)?;
    }
    Ok(views)
}

impl<V: StoreRows> Snap<V> {
    /// The views of its stores at its time. The rows of each disk rowset are put together here, and so not in the visit that
    /// copied it.
    pub fn read(&self, alloc: Global) -> Result<Vec<ReadView<'_>>, NoMemory>
        ensures marks { IfOk result (λ views. map read_mark views.items ≡ map mark_of self.now.views) }
        ensures rows { IfOk result (λ views. map (read_rows self.now.t) views.items ≡ map (copied_rows V.row_of self.now.t) self.now.views) }
    {
        read_all(alloc, self.views.as_slice(), self.t)
    }
}

impl<'s> View for ReadView<'s> {
    ghost mark = { read_mark };

    ghost keys = { read_keys };

    ghost row_of = { λ v key t. read_row key t v };

    ghost keys_rise = { read_keys_rise };

    ghost rows_have_keys = { λ v key t told some. read_has_key v key t some };

    fn row_at(&self, alloc: Global, key: &[u8], t: u64) -> Result<Option<Cells>, NoMemory> {
        match self {
            ReadView::Changes(view) => view.row_at(alloc, key, t),
            ReadView::Rows(table) => table.row_at(alloc, key, t),
        }
    }

    fn key_after(&self, alloc: Global, after: Option<&[u8]>) -> Result<Option<Octets>, NoMemory> {
        match self {
            ReadView::Changes(view) => view.key_after(alloc, after),
            ReadView::Rows(table) => table.key_after(alloc, after),
        }
    }

    fn next_key(&self, after: Option<&[u8]>, hint: &mut usize) -> Option<&[u8]> {
        match self {
            ReadView::Changes(view) => view.next_key(after, hint),
            ReadView::Rows(table) => table.next_key(after, hint),
        }
    }

    fn row_into<'v>(
        &'v self,
        key: &[u8],
        t: u64,
        hint: &mut usize,
        row: &mut RowRef<'v>,
    ) -> Result<bool, NoMemory> {
        match self {
            ReadView::Changes(view) => view.row_into(key, t, hint, row),
            ReadView::Rows(table) => table.row_into(key, t, hint, row),
        }
    }

    fn columns_into<'v>(
        &'v self,
        ids: &[u16],
        key: &[u8],
        t: u64,
        hint: &mut usize,
        row: &mut RowRef<'v>,
    ) -> Result<bool, NoMemory> {
        match self {
            ReadView::Changes(view) => view.columns_into(ids, key, t, hint, row),
            ReadView::Rows(table) => table.columns_into(ids, key, t, hint, row),
        }
    }
}
