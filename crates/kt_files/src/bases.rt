//! Reading a base file.
ghost use Rattle.std.specs.Prelude.{◌≡◌, ◌≤◌, ℕ, IsTrue, Err, IfOk};
ghost use Rattle.kt_base.specs.Causes.{Rose};
ghost use Rattle.kt_disk.specs.Disk.{Same, Turns};
ghost use Rattle.kt_baseset.specs.Spelling.{SpellsBase};
ghost use Rattle.kt_files.specs.Named.{base_named};
ghost use Rattle.kt_files.specs.Reading.{IsBaseFault, IsNoBase, HoldsBase};
ghost use Rattle.kt_files.specs.Held.{base_in};

use crate::bytes::read_bytes;
use crate::refusal::FilesNo;
use kt_baseset::{BaseSet, CodecNo, decode};
use kt_disk::Disk;
use kt_diskrowset::BaseHeld;
use kt_super::FileRef;
use std::alloc::Global;
use std::sync::Arc;

// The base set that the bytes of a file spell.
fn base_set(alloc: Global, file: u64, bytes: &[u8]) -> Result<BaseSet, FilesNo>
    ensures found { IfOk result (λ set. SpellsBase set.schema set.rows bytes.now) }
    ensures place { (at offset : ℕ) → result ≡ Err (FilesNo.Place at offset) → (at ≡ file) × IsNoBase bytes.now offset }
    ensures fault { result ≡ Err FilesNo.Fault → ⊥ }
{
    match decode(alloc, bytes) {
        Ok(set) => Ok(set),
        Err(CodecNo::Memory) => Err(FilesNo::Memory),
        Err(CodecNo::Place { offset }) => Err(FilesNo::Place { file, offset }),
    }
}

// The base file with this set.
fn held_with(alloc: Global, file: FileRef, set: BaseSet) -> Result<BaseHeld, FilesNo>
    ensures file { IfOk result (λ base. base.file ≡ file.file) }
    ensures len { IfOk result (λ base. base.len ≡ file.len) }
    ensures set { IfOk result (λ base. base.set.value ≡ set) }
    ensures named { IfOk result (λ base. base_named (base_in base) ≡ file) }
    ensures place { (at offset : ℕ) → result ≡ Err (FilesNo.Place at offset) → ⊥ }
    ensures fault { result ≡ Err FilesNo.Fault → ⊥ }
{
    Ok(BaseHeld {
        file: file.file,
        len: file.len,
        set: Arc::new(alloc, set)?,
    })
}

/// Reads a base file.
pub(crate) fn read_base<D: Disk>(
    alloc: Global,
    disk: &mut D,
    file: FileRef,
) -> Result<BaseHeld, FilesNo>
    ensures holds { IfOk result (λ base. IsTrue D.tells → HoldsBase (D.seen disk.old) file (base_in base)) }
    ensures named { IfOk result (λ base. base_named (base_in base) ≡ file) }
    ensures place { (at offset : ℕ) → result ≡ Err (FilesNo.Place at offset) → IsTrue D.tells → (at ≡ file.file) × IsBaseFault (D.seen disk.old) file offset }
    ensures seen { IsTrue D.tells → D.seen disk.new ≡ D.seen disk.old }
    ensures images { IsTrue D.tells → Turns D.now D.leaves Same disk.old disk.new }
    ensures fault { result ≡ Err FilesNo.Fault → Rose (D.faults disk.old) (D.faults disk.new) }
    ensures faults { D.faults disk.old ≤ D.faults disk.new }
{
    let bytes = tri!(read_bytes(alloc, disk, file));
    let set = tri!(base_set(alloc, file.file, bytes.as_slice()));
    held_with(alloc, file, set)
}
