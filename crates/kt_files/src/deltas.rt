//! Reading delta files.
ghost use Rattle.std.specs.Prelude.{◌≡◌, ◌≤◌, ℕ, IsTrue, Err, IfOk};
ghost use Rattle.kt_base.specs.Causes.{Rose};
ghost use Rattle.kt_bytes.specs.Reading.{IfPlace};
ghost use Rattle.kt_disk.specs.Disk.{Same, Turns};
ghost use Rattle.kt_deltafile.specs.Rules.{FileFits};
ghost use Rattle.kt_deltafile.specs.Spelling.{spelling};
ghost use Rattle.kt_diskrowset.specs.Files.{as_file, as_files};
ghost use Rattle.kt_files.specs.Named.{delta_named, deltas_named};
ghost use Rattle.kt_files.specs.Reading.{other_way, leads, IsNoDeltas, HoldsDeltas, IsDeltasFault, HoldEach, IsListFault};

use crate::bytes::read_bytes;
use crate::refusal::FilesNo;
use kt_deltafile::{CodecNo, DeltaFile, Way, decode};
use kt_disk::Disk;
use kt_diskrowset::{FileHeld, FileLists};
use kt_super::FileRef;
use std::alloc::Global;
use std::sync::Arc;

/// Where the byte of the way stands, behind the four letters.
const WAY_BYTE: u64 = 4;

fn other_way(way: Way) -> Way
    ensures { result ≡ other_way way }
{
    match way {
        Way::Redo => Way::Undo,
        Way::Undo => Way::Redo,
    }
}

// Whether bytes begin as those of a delta file of this way.
fn leads(way: Way, bytes: &[u8]) -> bool
    ensures { result ≡ leads way bytes.now }
{
    match way {
        Way::Redo => matches!(bytes, [b'K', b'T', b'D', b'1', 1, ..]),
        Way::Undo => matches!(bytes, [b'K', b'T', b'D', b'1', 2, ..]),
    }
}

// The delta file of this way over so many rows that all of the bytes spell.
fn decode_way(alloc: Global, way: Way, rows: u32, bytes: &[u8]) -> Result<DeltaFile, CodecNo>
    ensures way { IfOk result (λ file. file.way ≡ way) }
    ensures found { IfOk result (λ file. FileFits way rows file.list × (bytes.now ≡ spelling way file.list)) }
    ensures place { IfPlace result (IsNoDeltas way rows bytes.now) }
{
    if leads(other_way(way), bytes) {
        return Err(CodecNo::Place { offset: WAY_BYTE });
    }
    decode(alloc, bytes, rows)
}

// The same of a file.
fn deltas_of(
    alloc: Global,
    way: Way,
    rows: u32,
    file: u64,
    bytes: &[u8],
) -> Result<DeltaFile, FilesNo>
    ensures way { IfOk result (λ deltas. deltas.way ≡ way) }
    ensures found { IfOk result (λ deltas. FileFits way rows deltas.list × (bytes.now ≡ spelling way deltas.list)) }
    ensures place { (at offset : ℕ) → result ≡ Err (FilesNo.Place at offset) → (at ≡ file) × IsNoDeltas way rows bytes.now offset }
    ensures fault { result ≡ Err FilesNo.Fault → ⊥ }
{
    match decode_way(alloc, way, rows, bytes) {
        Ok(deltas) => Ok(deltas),
        Err(CodecNo::Memory) => Err(FilesNo::Memory),
        Err(CodecNo::Place { offset }) => Err(FilesNo::Place { file, offset }),
    }
}

// The delta file with these records.
fn held_with(alloc: Global, file: FileRef, deltas: DeltaFile) -> Result<FileHeld, FilesNo>
    ensures held { IfOk result (λ held. as_file held ≡ (file.file, file.len, deltas)) }
    ensures named { IfOk result (λ held. delta_named (as_file held) ≡ file) }
    ensures place { (at offset : ℕ) → result ≡ Err (FilesNo.Place at offset) → ⊥ }
    ensures fault { result ≡ Err FilesNo.Fault → ⊥ }
{
    Ok(FileHeld {
        file: file.file,
        len: file.len,
        deltas: Arc::new(alloc, deltas)?,
    })
}

// Reads a delta file of this way over so many rows.
fn read_deltas<D: Disk>(
    alloc: Global,
    disk: &mut D,
    way: Way,
    rows: u32,
    file: FileRef,
) -> Result<FileHeld, FilesNo>
    ensures holds { IfOk result (λ held. IsTrue D.tells → HoldsDeltas (D.seen disk.old) way rows file (as_file held)) }
    ensures named { IfOk result (λ held. delta_named (as_file held) ≡ file) }
    ensures place { (at offset : ℕ) → result ≡ Err (FilesNo.Place at offset) → IsTrue D.tells → (at ≡ file.file) × IsDeltasFault (D.seen disk.old) way rows file offset }
    ensures seen { IsTrue D.tells → D.seen disk.new ≡ D.seen disk.old }
    ensures images { IsTrue D.tells → Turns D.now D.leaves Same disk.old disk.new }
    ensures fault { result ≡ Err FilesNo.Fault → Rose (D.faults disk.old) (D.faults disk.new) }
    ensures faults { D.faults disk.old ≤ D.faults disk.new }
{
    let bytes = tri!(read_bytes(alloc, disk, file));
    let deltas = tri!(deltas_of(alloc, way, rows, file.file, bytes.as_slice()));
    held_with(alloc, file, deltas)
}

/// Reads delta files of this way over so many rows, in their order.
pub(crate) fn read_list<D: Disk>(
    alloc: Global,
    disk: &mut D,
    way: Way,
    rows: u32,
    list: &[FileRef],
) -> Result<FileLists, FilesNo>
    ensures hold { IfOk result (λ held. IsTrue D.tells → HoldEach (D.seen disk.old) way rows list.now (as_files held)) }
    ensures named { IfOk result (λ held. deltas_named (as_files held) ≡ list.now) }
    ensures place { (at offset : ℕ) → result ≡ Err (FilesNo.Place at offset) → IsTrue D.tells → IsListFault (D.seen disk.old) way rows list.now at offset }
    ensures seen { IsTrue D.tells → D.seen disk.new ≡ D.seen disk.old }
    ensures images { IsTrue D.tells → Turns D.now D.leaves Same disk.old disk.new }
    ensures fault { result ≡ Err FilesNo.Fault → Rose (D.faults disk.old) (D.faults disk.new) }
    ensures faults { D.faults disk.old ≤ D.faults disk.new }
{
    let mut files = Vec::new(alloc);
    'files: for file in list {
        let held = tri!(read_deltas(alloc, disk, way, rows, *file));
        files.push(held)?;
    }
    Ok(FileLists::of(files))
}
