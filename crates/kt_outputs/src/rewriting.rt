//! Writing a disk rowset again: files that have a number stand on the disk and are kept, and the others are written.
ghost use Rattle.std.specs.Prelude.{◌≡◌, ◌≢◌, ◌≤◌, max, ◌∷◌, [], ℕ, IsTrue, Err, None, IfOk, OnOk, map};
ghost use Rattle.kt_base.specs.Causes.{Rose};
ghost use Rattle.kt_disk.specs.Disk.{Files};
ghost use Rattle.kt_deltafile.specs.declared.file.Way.{Way};
ghost use Rattle.kt_diskrowset.specs.Files.{as_file, as_files, lists_of};
ghost use Rattle.kt_diskrowset.specs.Data.{held_in, files_in};
ghost use Rattle.kt_files.specs.Held.{base_in};
ghost use Rattle.kt_files.specs.Reading.{HoldsBase, HoldsDeltas, HoldEach, HoldsRowset};
ghost use Rattle.kt_outputs.specs.Outputs.{base_ref, delta_ref, meta_in, IsOfWay, AreOfWay, IsWhole, AreThere, HasLeft, AreStable};
ghost use Rattle.kt_outputs.specs.Rewriting.{AreNumbered, HasNumbers, EachStands, KeptStand};

use crate::outputs::{NextNumbers, WriteNo, write_base, write_delta};
use kt_disk::Disk;
use kt_diskrowset::{BaseHeld, FileHeld, FileLists, RowSetData};
use kt_history::DeltaList;
use std::alloc::Global;

// Writes a base file, if it has no number.
fn rewrite_base<D: Disk>(
    alloc: Global,
    disk: &mut D,
    next: &mut u64,
    most: u64,
    base: &BaseHeld,
) -> Result<BaseHeld, WriteNo>
    requires vacant { IsTrue D.tells → (n : ℕ) → next.old ≤ n → D.seen disk.old n ≡ None }
    requires apart { 3 ≤ next.old }
    ensures same { IfOk result (λ b. b.set.value ≡ base.now.set.value) }
    ensures numbered { IfOk result (λ b. AreNumbered next.old next.new (base_in base.now ∷ []) (base_in b ∷ [])) }
    ensures holds { IfOk result (λ b. IsTrue D.tells → (files : Files) → AreThere next.old next.new (D.seen disk.new) files → (base.now.file ≢ 0 → HoldsBase files (base_ref base.now) (base_in base.now)) → HoldsBase files (base_ref b) (base_in b)) }
    ensures up { next.old ≤ next.new }
    ensures few { next.new ≤ max next.old most }
    ensures stable { OnOk result (IsTrue D.tells → AreStable D.seen D.now D.leaves next.old next.new disk.new) }
    ensures left { IsTrue D.tells → HasLeft D.seen D.now D.leaves next.old next.new disk.old disk.new }
    ensures fault { result ≡ Err WriteNo.Fault → Rose (D.faults disk.old) (D.faults disk.new) }
    ensures faults { D.faults disk.old ≤ D.faults disk.new }
{
    if base.file != 0 {
        return Ok(base.copy()?);
    }
    write_base(alloc, disk, next, most, base)
}

// Writes a delta file, if it has no number.
fn rewrite_delta<D: Disk>(
    alloc: Global,
    disk: &mut D,
    next: &mut u64,
    most: u64,
    delta: &FileHeld,
) -> Result<FileHeld, WriteNo>
    requires vacant { IsTrue D.tells → (n : ℕ) → next.old ≤ n → D.seen disk.old n ≡ None }
    requires apart { 3 ≤ next.old }
    ensures same { IfOk result (λ f. f.deltas.value ≡ delta.now.deltas.value) }
    ensures numbered { IfOk result (λ f. AreNumbered next.old next.new (as_file delta.now ∷ []) (as_file f ∷ [])) }
    ensures holds { IfOk result (λ f. IsTrue D.tells → (way : Way) (rows : ℕ) → IsOfWay way rows delta.now → (files : Files) → AreThere next.old next.new (D.seen disk.new) files → (delta.now.file ≢ 0 → HoldsDeltas files way rows (delta_ref delta.now) (as_file delta.now)) → HoldsDeltas files way rows (delta_ref f) (as_file f)) }
    ensures up { next.old ≤ next.new }
    ensures few { next.new ≤ max next.old most }
    ensures stable { OnOk result (IsTrue D.tells → AreStable D.seen D.now D.leaves next.old next.new disk.new) }
    ensures left { IsTrue D.tells → HasLeft D.seen D.now D.leaves next.old next.new disk.old disk.new }
    ensures fault { result ≡ Err WriteNo.Fault → Rose (D.faults disk.old) (D.faults disk.new) }
    ensures faults { D.faults disk.old ≤ D.faults disk.new }
{
    if delta.file != 0 {
        return Ok(delta.copy()?);
    }
    write_delta(alloc, disk, next, most, delta)
}

// Writes in turn those of these delta files that have no number.
fn rewrite_deltas<D: Disk>(
    alloc: Global,
    disk: &mut D,
    next: &mut u64,
    most: u64,
    deltas: &[FileHeld],
) -> Result<FileLists, WriteNo>
    requires vacant { IsTrue D.tells → (n : ℕ) → next.old ≤ n → D.seen disk.old n ≡ None }
    requires apart { 3 ≤ next.old }
    ensures same { IfOk result (λ written. lists_of written ≡ lists_of deltas.now) }
    ensures numbered { IfOk result (λ written. AreNumbered next.old next.new (as_files deltas.now) (as_files written)) }
    ensures holds { IfOk result (λ written. IsTrue D.tells → (way : Way) (rows : ℕ) → AreOfWay way rows deltas.now → (files : Files) → AreThere next.old next.new (D.seen disk.new) files → EachStands files way rows deltas.now → HoldEach files way rows (map delta_ref written) (as_files written)) }
    ensures up { next.old ≤ next.new }
    ensures few { next.new ≤ max next.old most }
    ensures stable { OnOk result (IsTrue D.tells → AreStable D.seen D.now D.leaves next.old next.new disk.new) }
    ensures left { IsTrue D.tells → HasLeft D.seen D.now D.leaves next.old next.new disk.old disk.new }
    ensures fault { result ≡ Err WriteNo.Fault → Rose (D.faults disk.old) (D.faults disk.new) }
    ensures faults { D.faults disk.old ≤ D.faults disk.new }
{
    let mut files = Vec::with_capacity(alloc, deltas.len())?;
    'deltas: for delta in deltas {
        let file = rewrite_delta(alloc, disk, next, most, delta)?;
        files.push_reserved(file);
    }
    Ok(FileLists::of(files))
}

// Writes the files of a disk rowset that have no number.
fn rewrite_files<D: Disk>(
    alloc: Global,
    disk: &mut D,
    next: &mut u64,
    most: u64,
    rowset: &RowSetData,
) -> Result<RowSetData, WriteNo>
    requires vacant { IsTrue D.tells → (n : ℕ) → next.old ≤ n → D.seen disk.old n ≡ None }
    requires apart { 3 ≤ next.old }
    ensures same { IfOk result (λ d. files_in d ≡ files_in rowset.now) }
    ensures fresh { IfOk result (λ d. d.fresh ≡ []) }
    ensures numbered { IfOk result (λ d. HasNumbers next.old next.new (held_in rowset.now) (held_in d)) }
    ensures holds { IfOk result (λ d. IsTrue D.tells → IsWhole rowset.now → (dms : ℕ) (files : Files) → AreThere next.old next.new (D.seen disk.new) files → KeptStand files rowset.now → HoldsRowset files (meta_in dms d) (held_in d)) }
    ensures up { next.old ≤ next.new }
    ensures few { next.new ≤ max next.old most }
    ensures stable { OnOk result (IsTrue D.tells → AreStable D.seen D.now D.leaves next.old next.new disk.new) }
    ensures left { IsTrue D.tells → HasLeft D.seen D.now D.leaves next.old next.new disk.old disk.new }
    ensures fault { result ≡ Err WriteNo.Fault → Rose (D.faults disk.old) (D.faults disk.new) }
    ensures faults { D.faults disk.old ≤ D.faults disk.new }
{
    let base = rewrite_base(alloc, disk, next, most, &rowset.base)?;
    let undo = rewrite_deltas(alloc, disk, next, most, rowset.undo.as_slice())?;
    let redo = rewrite_deltas(alloc, disk, next, most, rowset.redo.as_slice())?;
    Ok(RowSetData {
        number: rowset.number,
        base,
        undo,
        redo,
        fresh: DeltaList::of(Vec::new(alloc)),
    })
}

/// Writes the files of a disk rowset that have no number, each under the next file number, and keeps the others. The rowset keeps its
/// number. From the next number on there is no file yet. Where no number below `most` is left there is no memory.
pub fn write_rewritten<D: Disk>(
    alloc: Global,
    disk: &mut D,
    next: &mut NextNumbers,
    most: u64,
    rowset: &RowSetData,
) -> Result<RowSetData, WriteNo>
    requires vacant { IsTrue D.tells → (n : ℕ) → next.old.file ≤ n → D.seen disk.old n ≡ None }

    // No file is a slot of the superblock.
    requires apart { 3 ≤ next.old.file }

    ensures same { IfOk result (λ d. files_in d ≡ files_in rowset.now) }
    ensures fresh { IfOk result (λ d. d.fresh ≡ []) }

    // Each file that is written has a number of its own, the next one, and a length that a superblock can spell.
    ensures numbered { IfOk result (λ d. HasNumbers next.old.file next.new.file (held_in rowset.now) (held_in d)) }

    // The files hold it, whichever DeltaMemStores a superblock says that they hold, in any image that has the same files of the new numbers and in which those
    // that are kept hold what they did.
    ensures holds { IfOk result (λ d. IsTrue D.tells → IsWhole rowset.now → (dms : ℕ) (files : Files) → AreThere next.old.file next.new.file (D.seen disk.new) files → KeptStand files rowset.now → HoldsRowset files (meta_in dms d) (held_in d)) }

    // A crash leaves the new ones so.
    ensures stable { OnOk result (IsTrue D.tells → AreStable D.seen D.now D.leaves next.old.file next.new.file disk.new) }

    // File numbers rise up to `most`. No rowset gets a number.
    ensures up { next.old.file ≤ next.new.file }
    ensures few { next.new.file ≤ max next.old.file most }
    ensures rowset { next.new.rowset ≡ next.old.rowset }

    // Whatever comes of it, no other file has changed, in no image either.
    ensures left { IsTrue D.tells → HasLeft D.seen D.now D.leaves next.old.file next.new.file disk.old disk.new }

    ensures fault { result ≡ Err WriteNo.Fault → Rose (D.faults disk.old) (D.faults disk.new) }
    ensures faults { D.faults disk.old ≤ D.faults disk.new }
{
    rewrite_files(alloc, disk, &mut next.file, most, rowset)
}
