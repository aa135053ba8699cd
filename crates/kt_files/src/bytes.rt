//! Reading the bytes of a file.
ghost use Rattle.std.specs.Prelude.{◌≡◌, ◌≤◌, ℕ, IsTrue, Err, IfOk};
ghost use Rattle.kt_base.specs.Causes.{Rose};
ghost use Rattle.kt_disk.specs.Disk.{Same, Turns};
ghost use Rattle.kt_files.specs.Bytes.{bytes_of, IsThere, EndsAt};

use crate::refusal::FilesNo;
use kt_disk::Disk;
use kt_super::FileRef;
use std::alloc::Global;

/// The bytes of a file, as many as its length says. It takes no memory for bytes that are not there.
pub(crate) fn read_bytes<D: Disk>(
    alloc: Global,
    disk: &mut D,
    file: FileRef,
) -> Result<Vec<u8>, FilesNo>
    ensures there { IfOk result (λ bytes. IsTrue D.tells → IsThere (D.seen disk.old) file) }
    ensures bytes { IfOk result (λ bytes. IsTrue D.tells → bytes.items ≡ bytes_of (D.seen disk.old) file) }
    ensures place { (at offset : ℕ) → result ≡ Err (FilesNo.Place at offset) → IsTrue D.tells → (at ≡ file.file) × EndsAt (D.seen disk.old) file offset }
    ensures seen { IsTrue D.tells → D.seen disk.new ≡ D.seen disk.old }
    ensures images { IsTrue D.tells → Turns D.now D.leaves Same disk.old disk.new }
    ensures fault { result ≡ Err FilesNo.Fault → Rose (D.faults disk.old) (D.faults disk.new) }
    ensures faults { D.faults disk.old ≤ D.faults disk.new }
{
    let len = disk.len(file.file)?;
    if len < file.len {
        return Err(FilesNo::Place {
            file: file.file,
            offset: len,
        });
    }
    let mut bytes = vec![in alloc; 0; file.len as usize]?;
    disk.read(file.file, 0, bytes.as_mut_slice())?;
    Ok(bytes)
}
