//! The inputs of a merge, of changes of one key or of disk rowsets, and what is written of them.
ghost use Rattle.std.specs.Prelude.{◌≡◌, ◌<◌, ◌^◌, [], true, length, IfOk, IfSome};
ghost use Rattle.std.specs.Bool.{OnTrue};
ghost use Rattle.std.specs.List.{AllByRecursion, sum_by};
ghost use Rattle.kt_diskrowset.specs.Data.{files_in};
ghost use Rattle.kt_diskrowset.specs.Rows.{UndosLeadBack};
ghost use Rattle.kt_merge.specs.Changes.{rises};
ghost use Rattle.kt_merge.specs.Merge.{changes_in, rows_and_changes, AreReadable, IsReadable};
ghost use Rattle.kt_merge.specs.Minor.{held_records};

use kt_base::{Kind, NoMemory};
use kt_baseset::{ColumnShape, Schema1};
use kt_diskrowset::{ChangeLists, FileHeld, Inputs, Outputs, RowSetData, RowSetList};
use kt_history::{ChangeList, DeltaList, Kindly};
use kt_merge::merge_rows;
use std::alloc::Global;
use std::test::Fail;

/// A change of the row of a test: its time and kind, and the letter that is the text of column 1 then.
#[derive(Clone, Copy)]
pub(crate) struct Step {
    pub(crate) ts: u64,
    pub(crate) kind: Kindly,
    pub(crate) letter: u8,
}

/// The changes of the row of a key, as a MemRowSet lists them.
pub(crate) fn list_of(alloc: Global, key: &[u8], steps: &[Step]) -> Result<ChangeList, NoMemory>
    ensures { IfOk result (λ list. rises list ≡ true) }
{
    let mut list = ChangeList::new(alloc);
    'steps: for step in steps {
        let cells = [1, 0, 1, 0, 3, 1, 0, 0, 0, step.letter];
        list.push(key, step.ts, step.kind, &cells)?;
    }
    Ok(list)
}

/// The table has one column, of a text.
pub(crate) fn inputs_of(
    alloc: Global,
    mems: Vec<ChangeList>,
    rowsets: Vec<RowSetData>,
) -> Result<Inputs, NoMemory>
    requires mems { AllByRecursion (λ list. rises list ≡ true) mems.items }
    requires rowsets { AllByRecursion IsReadable rowsets.items }
    ensures { IfOk result AreReadable }
{
    let mut columns = Vec::new(alloc);
    columns.push(ColumnShape {
        id: 1,
        kind: Kind::String,
        nullable: true,
    })?;
    Ok(Inputs {
        columns: Schema1::of(columns),
        mems: ChangeLists::of(mems),
        rowsets: RowSetList::of(rowsets),
    })
}

// Whether these are no files, or one of few records.
fn is_short(files: &[FileHeld]) -> bool
    ensures { OnTrue result (length (held_records files.now) < 1000) }
{
    match files {
        [] => true,
        [file] => file.deltas.list().len() < 1000,
        _ => false,
    }
}

// Whether a rowset has few rows and changes.
fn is_small(rowset: &RowSetData) -> bool
    ensures { OnTrue result (changes_in rowset.now < 4000) }
{
    rowset.base.rows() < 1000
        && is_short(rowset.undo.as_slice())
        && is_short(rowset.redo.as_slice())
        && rowset.fresh.len() < 1000
}

// Whether these are three such rowsets, or none.
fn are_small(rowsets: &[RowSetData]) -> bool
    ensures { OnTrue result (sum_by changes_in rowsets.now < 12000) }
{
    match rowsets {
        [] => true,
        [a, b, c] => is_small(a) && is_small(b) && is_small(c),
        _ => false,
    }
}

// Whether these are the changes of one MemRowSet, and few, or of none.
fn are_short(lists: &[ChangeList]) -> bool
    ensures { OnTrue result (sum_by (λ list. length list) lists.now < 1000) }
{
    match lists {
        [] => true,
        [list] => list.len() < 1000,
        _ => false,
    }
}

// Whether inputs have few rows and changes.
fn are_few(inputs: &Inputs) -> bool
    ensures { OnTrue result (rows_and_changes inputs.now < 2 ^ 32) }
{
    are_short(inputs.mems.as_slice()) && are_small(inputs.rowsets.as_slice())
}

/// What is written of inputs up to a bound, as of a mark.
pub(crate) fn written(
    alloc: Global,
    inputs: &Inputs,
    bound: u64,
    mark: u64,
) -> Result<Outputs, Fail>
    requires { AreReadable inputs.now }
{
    if mark > bound || !are_few(inputs) {
        return Err("too late a mark, or too many changes".into());
    }
    Ok(merge_rows(alloc, inputs, bound, mark)?)
}

/// The last rowset that was written, if there is one, as it is opened: without a change in memory.
pub(crate) fn opened(alloc: Global, outputs: Outputs) -> Result<Option<RowSetData>, NoMemory>
    ensures lead { IfOk result (λ found. IfSome found (λ d. UndosLeadBack (files_in d))) }
    ensures none { IfOk result (λ found. IfSome found (λ d. d.fresh ≡ [])) }
{
    match outputs.rowsets.into_vec().pop() {
        Some(rowset) => Ok(Some(bare(alloc, rowset)?)),
        None => Ok(None),
    }
}

// The rowset as it is opened.
fn bare(alloc: Global, rowset: RowSetData) -> Result<RowSetData, NoMemory>
    ensures lead { IfOk result (λ d. UndosLeadBack (files_in d)) }
    ensures none { IfOk result (λ d. d.fresh ≡ []) }
{
    let plain = RowSetData {
        number: rowset.number,
        base: rowset.base,
        undo: rowset.undo,
        redo: rowset.redo,
        fresh: DeltaList::of(Vec::new(alloc)),
    };
    plain.readable(alloc)
}
