//! REDO records that are folded into the base rows.
ghost use Rattle.std.specs.Prelude.{◌≡◌, ◌<◌, ◌≤◌, ◌+◌, ◌++◌, ◌∷◌, ◌^◌, [], ℕ, Some, None, take, length, IfOk, IfSome, OnOk};
ghost use Rattle.std.specs.List.{All, AllByRecursion};
ghost use Rattle.kt_histlaws.specs.Disks.{DiskRow};
ghost use Rattle.kt_rowfiles.specs.Reading.{steps_in};
ghost use Rattle.kt_baseset.specs.Rows.{keys_in, IsBase};
ghost use Rattle.kt_baseset.specs.Tables.{key_at, cells_in};
ghost use Rattle.kt_deltafile.specs.declared.file.Way.TheVariants.{Redo, Undo};
ghost use Rattle.kt_deltafile.specs.Rules.{IsFile};
ghost use Rattle.kt_merge.specs.Fitting.{FitsFiles};
ghost use Rattle.kt_merge.specs.Folding.{row_folded};
ghost use Rattle.kt_merge.specs.Major.{records_of, redos_at, row_so_far, AreFolded, IsFolded, IsHeld, IsOldDelete};
ghost use Rattle.kt_merge.specs.Minor.{held_records, AreRedos};
ghost use Rattle.kt_merge.specs.Rows.{deleted_at, disk_row_of};
ghost use Rattle.kt_merge.specs.Told.{Grown};

use crate::output::Growing;
use crate::row::{RowWritten, fold_row};
use kt_base::NoMemory;
use kt_baseset::{BaseSet, Schema1};
use kt_deltafile::{DeltaFile, Way};
use kt_diskrowset::FileLists;
use kt_history::{Delta, DeltaList};
use std::alloc::Global;

/// A base file with the REDO records folded in, the UNDO records that lead back over these, and the deletes of the rows that are
/// deleted.
#[derive(Drop)]
pub struct Folded {
    pub base: BaseSet,
    pub undo: Option<DeltaFile>,
    pub redo: Option<DeltaFile>,
}

// The file of records, if there are any.
fn file_of(records: Vec<Delta>, way: Way) -> Option<DeltaFile>
    requires { IsFile way records.items }
    ensures records { records_of result ≡ records.items }
    ensures some { IfSome result (λ file. 0 < length file.list) }
    ensures way { IfSome result (λ file. file.way ≡ way) }
{
    if records.is_empty() {
        return None;
    }
    Some(DeltaFile::of(DeltaList::of(records), way))
}

// The base row at a place as it is, without records.
fn row_alone(alloc: Global, base: &BaseSet, ordinal: u32) -> Result<RowWritten, NoMemory>
    requires base { IsBase base.now.schema base.now.rows }
    requires inside { ordinal < length base.now.rows }
    ensures none { IfOk result (λ row. (row.undos.items ≡ []) × (row.deleted ≡ None)) }
    ensures held { IfOk result (λ row. FitsFiles base.now.schema (key_at base.now.rows ordinal) row) }
{
    Ok(RowWritten {
        base: base.row(alloc, ordinal)?,
        undos: Vec::new(alloc),
        deleted: None,
    })
}

// What the row at a place is folded to, if files can hold that, and else the base row as it is.
fn folded_row(
    alloc: Global,
    base: &BaseSet,
    columns: &Schema1,
    key: &[u8],
    ordinal: u32,
    mark: u64,
    redos: &[Delta],
    room: &Growing,
) -> Result<RowWritten, NoMemory>
    requires base { IsBase base.now.schema base.now.rows }
    requires inside { ordinal < length base.now.rows }
    requires columns { columns.now ≡ base.now.schema }
    requires key { key.now ≡ key_at base.now.rows ordinal }
    requires most { length room.now.undos.items < 2 ^ 32 }
    ensures fits { IfOk result (FitsFiles columns.now key.now) }
    ensures ordinals { IfOk result (λ row. All (λ d. d.ordinal ≡ ordinal) row.undos.items) }
    ensures room { IfOk result (λ row. length room.now.undos.items + length row.undos.items < 2 ^ 32) }
    ensures few { IfOk result (λ row. length row.undos.items ≤ length redos.now) }
    ensures folded { (d : DiskRow) → row_folded mark (cells_in base.now.rows ordinal) (steps_in redos.now) ≡ Some d → IsHeld columns.now d → length room.now.undos.items + length redos.now < 2 ^ 32 → IfOk result (λ row. disk_row_of row ≡ d) }
    ensures deletes { IfOk result (λ row. (ts : ℕ) → row.deleted ≡ Some ts → deleted_at (steps_in redos.now) ≡ Some ts) }
{
    let row = base.row(alloc, ordinal)?;
    match fold_row(alloc, mark, ordinal, row, redos)? {
        Some(folded) => {
            if room.can_hold(columns, key, &folded) {
                Ok(folded)
            } else {
                row_alone(alloc, base, ordinal)
            }
        }
        None => row_alone(alloc, base, ordinal),
    }
}

// Adds the row at a place with its REDO records folded in.
fn fold_at(
    alloc: Global,
    base: &BaseSet,
    columns: &Schema1,
    redo: &FileLists,
    ordinal: u32,
    mark: u64,
    redos: &mut Vec<Delta>,
    out: &mut Growing,
) -> Result<(), NoMemory>
    requires base { IsBase base.now.schema base.now.rows }
    requires inside { ordinal < length base.now.rows }
    requires columns { columns.now ≡ base.now.schema }
    requires grown { Grown columns.now out.old }
    requires front { keys_in out.old.rows.items ≡ take ordinal (keys_in base.now.rows) }
    ensures grown { OnOk result (Grown columns.now out.new) }
    ensures front { OnOk result (keys_in out.new.rows.items ≡ take (ordinal + 1) (keys_in base.now.rows)) }
    ensures same { (n : ℕ) → n < ordinal → OnOk result (row_so_far n out.new ≡ row_so_far n out.old) }
    ensures folded { (d : DiskRow) → row_folded mark (cells_in base.now.rows ordinal) (redos_at ordinal redo.now) ≡ Some d → IsHeld columns.now d → length out.old.undos.items + length (redos_at ordinal redo.now) < 2 ^ 32
        → OnOk result (row_so_far ordinal out.new ≡ d) }
    ensures few { OnOk result (length out.new.undos.items ≤ length out.old.undos.items + length (redos_at ordinal redo.now)) }
    ensures deletes { AllByRecursion (IsOldDelete redo.now) out.old.redos.items → OnOk result (AllByRecursion (IsOldDelete redo.now) out.new.redos.items) }
{
    redos.clear();
    redo.push_redos(alloc, ordinal, redos)?;
    let key = base.key(alloc, ordinal)?;
    let row = folded_row(
        alloc,
        base,
        columns,
        key.as_slice(),
        ordinal,
        mark,
        redos,
        out,
    )?;
    out.push(columns, key, row)?;
    Ok(())
}

/// The files of a rowset with its REDO records folded into the base rows, as of a mark. Each row keeps its place, and so older UNDO
/// files stay beside the new one. A row of which these have a record is to have no REDO record at or below the mark. Its deletes are
/// the only REDO records that are left.
pub fn major(alloc: Global, base: &BaseSet, redo: &FileLists, mark: u64) -> Result<Folded, NoMemory>
    requires redo { AreRedos redo.now }
    requires inside { AllByRecursion (λ d. d.ordinal < length base.now.rows) (held_records redo.now) }
    requires few { length (held_records redo.now) < 2 ^ 32 }
    ensures folded { IfOk result (IsFolded base.now redo.now) }
    ensures rows { IfOk result (AreFolded mark base.now redo.now) }
    ensures undo { IfOk result (λ folded. IfSome folded.undo (λ file. file.way ≡ Undo)) }
    ensures redo { IfOk result (λ folded. IfSome folded.redo (λ file. file.way ≡ Redo)) }
{
    let columns = base.schema(alloc)?;
    let mut redos = Vec::new(alloc);
    let mut out = Growing::new(alloc);
    'ordinals: for ordinal in 0..base.rows() {
        fold_at(
            alloc, base, &columns, redo, ordinal, mark, &mut redos, &mut out,
        )?;
    }
    let (base, undos, redos) = out.files(alloc, &columns)?;
    Ok(Folded {
        base,
        undo: file_of(undos, Way::Undo),
        redo: file_of(redos, Way::Redo),
    })
}
