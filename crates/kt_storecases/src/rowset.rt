//! Pages of a disk rowset with a REDO record of one of its rows.
ghost use Rattle.std.specs.Prelude.{◌≡◌, [], IfOk};
ghost use Rattle.kt_diskrowset.specs.Data.{files_in};
ghost use Rattle.kt_diskrowset.specs.Rows.{UndosLeadBack};

use kt_base::{Cell, CellRef, Cells, NoMemory};
use kt_diskrowset::{BaseHeld, FileHeld, FileLists, Page, RowSetData, RowSetView};
use kt_history::DeltaList;
use std::alloc::Global;
use std::sync::Arc;
use std::test::Fail;

/// The keys a and b, and one column, of 5 and null.
const BASE: [u8; 54] = [
    0x4b, 0x54, 0x42, 0x31, 2, 0, 0, 0, 4, 0x12, 0, 0, 0, 0, 0, 0, 0, 1, 0, 0, 0, 0x61, 0, 0, 0, 0,
    1, 0, 0, 0, 0x62, 1, 0, 2, 0, 2, 1, 1, 2, 0, 0, 0, 2, 5, 3, 0, 0, 0, 0x54, 0xa1, 0x2a, 1, 0,
    0x61,
];

/// Of row 0 a REDO record of 4096: an update of the column to 6.
const REDO: [u8; 35] = [
    0x4b, 0x54, 0x44, 0x31, 1, 1, 0, 0, 0, 0, 0, 0, 0, 0, 0x10, 0, 0, 0, 0, 0, 0, 2, 1, 0, 2, 0, 2,
    6, 0, 0, 0, 0, 0, 0, 0,
];

fn base(alloc: Global) -> Result<BaseHeld, Fail> {
    let set = kt_baseset::decode(alloc, &BASE)?;
    Ok(BaseHeld {
        file: 1,
        len: 54,
        set: Arc::new(alloc, set)?,
    })
}

fn redo(alloc: Global) -> Result<FileLists, Fail> {
    let deltas = kt_deltafile::decode(alloc, &REDO, 2)?;
    let mut files = Vec::new(alloc);
    files.push(FileHeld {
        file: 2,
        len: 35,
        deltas: Arc::new(alloc, deltas)?,
    })?;
    Ok(FileLists::of(files))
}

/// The base rows with the REDO record.
fn updated(alloc: Global) -> Result<RowSetData, Fail>
    ensures lead { IfOk result (λ d. UndosLeadBack (files_in d)) }
    ensures none { IfOk result (λ d. d.fresh ≡ []) }
{
    Ok(RowSetData {
        number: 7,
        base: base(alloc)?,
        undo: FileLists::of(Vec::new(alloc)),
        redo: redo(alloc)?,
        fresh: DeltaList::of(Vec::new(alloc)),
    })
}

/// The number at a place of a row of a page, if one stands there.
fn number_at(page: &Page, row: usize, place: usize) -> Option<i64> {
    if row >= page.rows.len() {
        return None;
    }
    let row = page.rows.at(row);
    if place >= row.len() {
        return None;
    }
    match row.at(place) {
        CellRef::Int(number) => Some(number),
        _ => None,
    }
}

/// Those of the first two rows.
fn numbers_in(page: &Page) -> [Option<i64>; 4] {
    [
        number_at(page, 0, 0),
        number_at(page, 0, 1),
        number_at(page, 1, 0),
        number_at(page, 1, 1),
    ]
}

/// The column, and one that no row has.
fn columns(alloc: Global) -> Result<Cells, NoMemory> {
    let mut columns = Vec::new(alloc);
    columns.push((2, Cell::Null))?;
    columns.push((3, Cell::Int(1)))?;
    Ok(Cells::of(columns))
}

/// Whether the page above a key has so many rows, with these numbers.
fn is_page(
    alloc: Global,
    rowset: &RowSetView,
    columns: &Cells,
    after: Option<&[u8]>,
    rows: usize,
    numbers: [Option<i64>; 4],
) -> bool {
    match rowset.page(alloc, after, 4096, columns.as_slice()) {
        Ok(page) => {
            numbers_in(&page) == numbers
                && [page.keys.len(), page.rows.len()] == [rows, rows]
                && !page.more
        }
        Err(_) => false,
    }
}

fn has_pages(alloc: Global) -> Result<bool, Fail> {
    let columns = columns(alloc)?;
    let rowset = RowSetView::of(updated(alloc)?);
    let all = [Some(6), Some(1), None, Some(1)];
    let rest = [None, Some(1), None, None];
    Ok(
        is_page(alloc, &rowset, &columns, None, 2, all)
            && is_page(alloc, &rowset, &columns, Some(b"a"), 1, rest),
    )
}

#[test]
fn a_page_has_the_rows_above_a_key(rt: HostRuntime) -> Result<(), Fail> {
    let hold = has_pages(rt.alloc())?;
    assert!(rt; hold);
    Ok(())
}
