//! Writing the files of new disk rowsets.
ghost use Rattle.std.specs.Prelude.{◌≡◌, ◌≤◌, ◌<◌, ◌+◌, ◌^◌, max, [], ℕ, true, IsTrue, Err, Some, None, IfOk, OnOk, map, length};
ghost use Rattle.kt_base.specs.Causes.{Rose};
ghost use Rattle.kt_disk.specs.Disk.{Files};
ghost use Rattle.kt_deltafile.specs.declared.file.Way.{Way};
ghost use Rattle.kt_diskrowset.specs.Files.{as_file, as_files, lists_of};
ghost use Rattle.kt_diskrowset.specs.Data.{held_in, files_in};
ghost use Rattle.kt_files.specs.Held.{base_in};
ghost use Rattle.kt_files.specs.Reading.{HoldsBase, HoldsDeltas, HoldEach, HoldsRowset, HoldAll};
ghost use Rattle.kt_super.specs.Rowsets.{is_small};
ghost use Rattle.kt_outputs.specs.Named.{AreShortFiles, IsShort, AreShort};
ghost use Rattle.kt_outputs.specs.Outputs.{base_ref, delta_ref, meta_in, delta_numbers, file_numbers, all_file_numbers, CountUp, IsOfWay, AreOfWay, IsWhole, AreWhole, AreThere, HasLeft, AreStable, AreWritten};
ghost use Rattle.kt_outputs.specs.declared.outputs.WriteNo.{WriteNo};
ghost use Rattle.kt_outputs.specs.declared.outputs.WriteNo.TheVariants as write_no;

use kt_base::{Failed, NoMemory};
use kt_deltafile::spell;
use kt_disk::Disk;
use kt_diskrowset::{BaseHeld, FileHeld, FileLists, Outputs, RowSetData, RowSetList};
use kt_files::write_file;
use kt_history::DeltaList;
use kt_super::{FileRef, FileRefs, MetaRowset};
use std::alloc::{AllocError, Global};
use thiserror::Error;

/// Why files were not written.
#[derive(Clone, Copy, Debug, PartialEq, Eq, Error)]
pub enum WriteNo {
    /// The disk failed.
    #[error("the disk failed")]
    Fault,
    #[error("out of memory")]
    Memory,
}

impl From<Failed> for WriteNo {
    ghost from_gives = { λ _ e. e ≡ write_no.Fault };

    fn from(_: Failed) -> Self {
        WriteNo::Fault
    }
}

impl From<NoMemory> for WriteNo {
    ghost from_gives = { λ _ e. e ≡ write_no.Memory };

    fn from(_: NoMemory) -> Self {
        WriteNo::Memory
    }
}

impl From<AllocError> for WriteNo {
    ghost from_gives = { λ _ e. e ≡ write_no.Memory };

    fn from(_: AllocError) -> Self {
        WriteNo::Memory
    }
}

/// The numbers that the next rowset and the next file get.
#[derive(Clone, Copy, PartialEq, Eq)]
pub struct NextNumbers {
    pub rowset: u64,
    pub file: u64,
}

// A superblock can spell the numbers of rowsets below this one, and one more.
const MOST_NUMBERS: u64 = (1 << 62) - 2;

// And lengths below this one.
const MOST_LEN: u64 = 1 << 62;

// Writes the next file and makes it stable. It tells the length. Where no number below `most` is left, or the length is too great for a superblock, there
// is no memory for it.
fn write_next<D: Disk>(
    disk: &mut D,
    next: &mut u64,
    most: u64,
    bytes: &[u8],
) -> Result<u64, WriteNo>
    requires vacant { IsTrue D.tells → (n : ℕ) → next.old ≤ n → D.seen disk.old n ≡ None }
    requires apart { 3 ≤ next.old }
    ensures up { next.old ≤ next.new }
    ensures few { next.new ≤ max next.old most }
    ensures given { OnOk result (next.new ≡ next.old + 1) }
    ensures len { IfOk result (λ len. len ≡ length bytes.now) }
    ensures short { IfOk result (λ len. is_small len ≡ true) }
    ensures written { OnOk result (IsTrue D.tells → D.seen disk.new next.old ≡ Some bytes.now) }
    ensures stable { OnOk result (IsTrue D.tells → AreStable D.seen D.now D.leaves next.old next.new disk.new) }
    ensures left { IsTrue D.tells → HasLeft D.seen D.now D.leaves next.old next.new disk.old disk.new }
    ensures fault { result ≡ Err WriteNo.Fault → Rose (D.faults disk.old) (D.faults disk.new) }
    ensures faults { D.faults disk.old ≤ D.faults disk.new }
{
    let file = *next;
    let len = bytes.len() as u64;
    if file >= most || len >= MOST_LEN {
        return Err(WriteNo::Memory);
    }
    *next = file + 1;
    write_file(disk, file, bytes)?;
    Ok(len)
}

/// Writes a base file.
pub(crate) fn write_base<D: Disk>(
    alloc: Global,
    disk: &mut D,
    next: &mut u64,
    most: u64,
    base: &BaseHeld,
) -> Result<BaseHeld, WriteNo>
    requires vacant { IsTrue D.tells → (n : ℕ) → next.old ≤ n → D.seen disk.old n ≡ None }
    requires apart { 3 ≤ next.old }
    ensures same { IfOk result (λ b. b.set.value ≡ base.now.set.value) }
    ensures number { IfOk result (λ b. b.file ≡ next.old) }
    ensures short { IfOk result (λ b. is_small b.len ≡ true) }
    ensures given { OnOk result (next.new ≡ next.old + 1) }
    ensures holds { IfOk result (λ b. IsTrue D.tells → (files : Files) → AreThere next.old next.new (D.seen disk.new) files → HoldsBase files (base_ref b) (base_in b)) }
    ensures up { next.old ≤ next.new }
    ensures few { next.new ≤ max next.old most }
    ensures stable { OnOk result (IsTrue D.tells → AreStable D.seen D.now D.leaves next.old next.new disk.new) }
    ensures left { IsTrue D.tells → HasLeft D.seen D.now D.leaves next.old next.new disk.old disk.new }
    ensures fault { result ≡ Err WriteNo.Fault → Rose (D.faults disk.old) (D.faults disk.new) }
    ensures faults { D.faults disk.old ≤ D.faults disk.new }
{
    let bytes = base.set.spell(alloc)?;
    let held = base.copy()?;
    let file = *next;
    let len = write_next(disk, next, most, bytes.as_slice())?;
    Ok(BaseHeld {
        file,
        len,
        set: held.set,
    })
}

/// Writes a delta file.
pub(crate) fn write_delta<D: Disk>(
    alloc: Global,
    disk: &mut D,
    next: &mut u64,
    most: u64,
    delta: &FileHeld,
) -> Result<FileHeld, WriteNo>
    requires vacant { IsTrue D.tells → (n : ℕ) → next.old ≤ n → D.seen disk.old n ≡ None }
    requires apart { 3 ≤ next.old }
    ensures same { IfOk result (λ f. f.deltas.value ≡ delta.now.deltas.value) }
    ensures number { IfOk result (λ f. f.file ≡ next.old) }
    ensures short { IfOk result (λ f. is_small f.len ≡ true) }
    ensures given { OnOk result (next.new ≡ next.old + 1) }
    ensures holds { IfOk result (λ f. IsTrue D.tells → (way : Way) (rows : ℕ) → IsOfWay way rows delta.now → (files : Files) → AreThere next.old next.new (D.seen disk.new) files → HoldsDeltas files way rows (delta_ref f) (as_file f)) }
    ensures up { next.old ≤ next.new }
    ensures few { next.new ≤ max next.old most }
    ensures stable { OnOk result (IsTrue D.tells → AreStable D.seen D.now D.leaves next.old next.new disk.new) }
    ensures left { IsTrue D.tells → HasLeft D.seen D.now D.leaves next.old next.new disk.old disk.new }
    ensures fault { result ≡ Err WriteNo.Fault → Rose (D.faults disk.old) (D.faults disk.new) }
    ensures faults { D.faults disk.old ≤ D.faults disk.new }
{
    let bytes = spell(alloc, delta.deltas.list(), delta.deltas.way())?;
    let held = delta.copy()?;
    let file = *next;
    let len = write_next(disk, next, most, bytes.as_slice())?;
    Ok(FileHeld {
        file,
        len,
        deltas: held.deltas,
    })
}

// Writes delta files in turn.
fn write_deltas<D: Disk>(
    alloc: Global,
    disk: &mut D,
    next: &mut u64,
    most: u64,
    deltas: &[FileHeld],
) -> Result<FileLists, WriteNo>
    requires vacant { IsTrue D.tells → (n : ℕ) → next.old ≤ n → D.seen disk.old n ≡ None }
    requires apart { 3 ≤ next.old }
    ensures same { IfOk result (λ written. lists_of written ≡ lists_of deltas.now) }
    ensures numbered { IfOk result (λ written. CountUp next.old next.new (delta_numbers written)) }
    ensures short { IfOk result (λ written. AreShortFiles written) }
    ensures holds { IfOk result (λ written. IsTrue D.tells → (way : Way) (rows : ℕ) → AreOfWay way rows deltas.now → (files : Files) → AreThere next.old next.new (D.seen disk.new) files → HoldEach files way rows (map delta_ref written) (as_files written)) }
    ensures up { next.old ≤ next.new }
    ensures few { next.new ≤ max next.old most }
    ensures stable { OnOk result (IsTrue D.tells → AreStable D.seen D.now D.leaves next.old next.new disk.new) }
    ensures left { IsTrue D.tells → HasLeft D.seen D.now D.leaves next.old next.new disk.old disk.new }
    ensures fault { result ≡ Err WriteNo.Fault → Rose (D.faults disk.old) (D.faults disk.new) }
    ensures faults { D.faults disk.old ≤ D.faults disk.new }
{
    let mut files = Vec::with_capacity(alloc, deltas.len())?;
    'deltas: for delta in deltas {
        let file = write_delta(alloc, disk, next, most, delta)?;
        files.push_reserved(file);
    }
    Ok(FileLists::of(files))
}

// Writes the files of a new disk rowset, and gives it a number.
fn write_rowset<D: Disk>(
    alloc: Global,
    disk: &mut D,
    next: &mut u64,
    most: u64,
    number: u64,
    rowset: &RowSetData,
) -> Result<RowSetData, WriteNo>
    requires vacant { IsTrue D.tells → (n : ℕ) → next.old ≤ n → D.seen disk.old n ≡ None }
    requires apart { 3 ≤ next.old }
    ensures same { IfOk result (λ d. files_in d ≡ record (files_in rowset.now) { rowset = number }) }
    ensures fresh { IfOk result (λ d. d.fresh ≡ []) }
    ensures numbered { IfOk result (λ d. CountUp next.old next.new (file_numbers d)) }
    ensures short { IfOk result (λ d. IsShort d) }
    ensures holds { IfOk result (λ d. IsTrue D.tells → IsWhole rowset.now → (files : Files) → AreThere next.old next.new (D.seen disk.new) files → HoldsRowset files (meta_in 0 d) (held_in d)) }
    ensures up { next.old ≤ next.new }
    ensures few { next.new ≤ max next.old most }
    ensures stable { OnOk result (IsTrue D.tells → AreStable D.seen D.now D.leaves next.old next.new disk.new) }
    ensures left { IsTrue D.tells → HasLeft D.seen D.now D.leaves next.old next.new disk.old disk.new }
    ensures fault { result ≡ Err WriteNo.Fault → Rose (D.faults disk.old) (D.faults disk.new) }
    ensures faults { D.faults disk.old ≤ D.faults disk.new }
{
    let base = write_base(alloc, disk, next, most, &rowset.base)?;
    let undo = write_deltas(alloc, disk, next, most, rowset.undo.as_slice())?;
    let redo = write_deltas(alloc, disk, next, most, rowset.redo.as_slice())?;
    Ok(RowSetData {
        number,
        base,
        undo,
        redo,
        fresh: DeltaList::of(Vec::new(alloc)),
    })
}

/// Writes new disk rowsets in turn, each under the next rowset number, and each of their files under the next file number. From
/// these numbers on there is no file yet. Files get numbers below `most`, and rowsets those that a superblock can spell: where none is left
/// there is no memory.
pub fn write_outputs<D: Disk>(
    alloc: Global,
    disk: &mut D,
    next: &mut NextNumbers,
    most: u64,
    outputs: &Outputs,
) -> Result<Outputs, WriteNo>
    requires vacant { IsTrue D.tells → (n : ℕ) → next.old.file ≤ n → D.seen disk.old n ≡ None }

    // No file is a slot of the superblock.
    requires apart { 3 ≤ next.old.file }

    ensures written { IfOk result (λ done. AreWritten next.old.rowset outputs.now.rowsets done.rowsets) }
    ensures rowset { OnOk result (next.new.rowset ≡ next.old.rowset + length outputs.now.rowsets) }

    // Each file has a number of its own, the next one, and a length that a superblock can spell.
    ensures numbered { IfOk result (λ done. CountUp next.old.file next.new.file (all_file_numbers done.rowsets)) }
    ensures short { IfOk result (λ done. AreShort done.rowsets) }

    // The files hold them, and so do those of any image that has the same files of these numbers.
    ensures holds { IfOk result (λ done. IsTrue D.tells → AreWhole outputs.now.rowsets → (files : Files) → AreThere next.old.file next.new.file (D.seen disk.new) files → HoldAll files (map (meta_in 0) done.rowsets) (map held_in done.rowsets)) }

    // A crash leaves them so.
    ensures stable { OnOk result (IsTrue D.tells → AreStable D.seen D.now D.leaves next.old.file next.new.file disk.new) }

    // Numbers rise: those of rowsets by one each, and stay such that a superblock can spell them, and those of files up to `most`.
    ensures up { (next.old.rowset ≤ next.new.rowset) × (next.old.file ≤ next.new.file) }
    ensures risen { next.new.rowset ≤ next.old.rowset + length outputs.now.rowsets }
    ensures few_rowsets { next.old.rowset < 2 ^ 62 → next.new.rowset < 2 ^ 62 }
    ensures few_files { next.new.file ≤ max next.old.file most }

    // Whatever comes of it, no other file has changed, in no image either.
    ensures left { IsTrue D.tells → HasLeft D.seen D.now D.leaves next.old.file next.new.file disk.old disk.new }

    ensures fault { result ≡ Err WriteNo.Fault → Rose (D.faults disk.old) (D.faults disk.new) }
    ensures faults { D.faults disk.old ≤ D.faults disk.new }
{
    let mut rowsets = Vec::with_capacity(alloc, outputs.rowsets.len())?;
    'outputs: for rowset in outputs.rowsets.as_slice() {
        let number = next.rowset;
        if number >= MOST_NUMBERS {
            return Err(WriteNo::Memory);
        }
        let written = write_rowset(alloc, disk, &mut next.file, most, number, rowset)?;
        next.rowset = number + 1;
        rowsets.push_reserved(written);
    }
    Ok(Outputs {
        rowsets: RowSetList::of(rowsets),
    })
}

// Files as a superblock names them.
fn refs_of(alloc: Global, files: &[FileHeld]) -> Result<FileRefs, NoMemory>
    ensures { IfOk result (λ refs. refs ≡ map delta_ref files.now) }
{
    let mut refs = Vec::with_capacity(alloc, files.len())?;
    'files: for held in files {
        refs.push_reserved(FileRef {
            file: held.file,
            len: held.len,
        });
    }
    Ok(FileRefs::of(refs))
}

/// A disk rowset as a superblock names it, whose files hold all DeltaMemStores up to a number.
pub fn named_rowset(
    alloc: Global,
    rowset: &RowSetData,
    last_dms: u64,
) -> Result<MetaRowset, NoMemory>
    ensures { IfOk result (λ meta. meta ≡ meta_in last_dms rowset.now) }
{
    Ok(MetaRowset {
        rowset: rowset.number,
        last_dms,
        base: FileRef {
            file: rowset.base.file,
            len: rowset.base.len,
        },
        undo: refs_of(alloc, rowset.undo.as_slice())?,
        redo: refs_of(alloc, rowset.redo.as_slice())?,
    })
}
