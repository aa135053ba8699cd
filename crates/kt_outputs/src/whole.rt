//! Whether the records of a disk rowset are of its rows, and lead the way of their files.
ghost use Rattle.std.specs.Prelude.{◌≡◌, ◌<◌};
ghost use Rattle.std.specs.Bool.{OnTrue};
ghost use Rattle.std.specs.List.{AllByRecursion};
ghost use Rattle.kt_deltafile.specs.Rules.{FileFits};
ghost use Rattle.kt_outputs.specs.Outputs.{IsOfWay, AreOfWay, IsWhole};

use kt_deltafile::{DeltaFile, Way};
use kt_diskrowset::{FileHeld, RowSetData};
use kt_history::Delta;

// Whether records are of so many rows.
fn are_inside(records: &[Delta], rows: u32) -> bool
    ensures { OnTrue result (AllByRecursion (λ d. d.ordinal < rows) records.now) }
{
    'records: for record in records {
        if record.ordinal >= rows {
            return false;
        }
    }
    true
}

// Whether a file is of this way.
fn leads(file: &DeltaFile, way: Way) -> bool
    ensures { OnTrue result (file.now.way ≡ way) }
{
    file.way() == way
}

// Whether a file is of this way, and its records of so many rows.
fn fits(file: &DeltaFile, way: Way, rows: u32) -> bool
    ensures way { OnTrue result (file.now.way ≡ way) }
    ensures rows { OnTrue result (FileFits way rows file.now.list) }
{
    if !leads(file, way) {
        return false;
    }
    are_inside(file.list().as_slice(), rows)
}

// Whether a file is so, whoever owns it.
fn is_of_way(file: &FileHeld, way: Way, rows: u32) -> bool
    ensures { OnTrue result (IsOfWay way rows file.now) }
{
    fits(&file.deltas, way, rows)
}

// Whether each file is.
fn are_of_way(files: &[FileHeld], way: Way, rows: u32) -> bool
    ensures { OnTrue result (AreOfWay way rows files.now) }
{
    'files: for file in files {
        if !is_of_way(file, way, rows) {
            return false;
        }
    }
    true
}

/// Whether the records of a disk rowset are of its rows, those of its UNDO files lead back, and those of its REDO files on. Then its
/// files can be written.
pub fn is_whole(rowset: &RowSetData) -> bool
    ensures { OnTrue result (IsWhole rowset.now) }
{
    let rows = rowset.base.rows();
    if !are_of_way(rowset.undo.as_slice(), Way::Undo, rows) {
        return false;
    }
    are_of_way(rowset.redo.as_slice(), Way::Redo, rows)
}
