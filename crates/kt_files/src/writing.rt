//! Writing a file of a store.
ghost use Rattle.std.specs.Prelude.{◌≡◌, ◌≢◌, ◌≤◌, ◌∷◌, [], ℕ, IsTrue, Some, OnOk};
ghost use Rattle.kt_base.specs.Causes.{HasCause};
ghost use Rattle.kt_disk.specs.Disk.{Files, held, LeavesOnly, ButFiles};

use kt_base::Failed;
use kt_disk::Disk;

/// Writes a new file and makes it stable.
pub fn write_file<D: Disk>(disk: &mut D, file: u64, bytes: &[u8]) -> Result<(), Failed>
    // As the disk reads, the file is not there, or empty.
    requires new { IsTrue D.tells → held (D.seen disk.old) file ≡ [] }

    // It is no slot of the superblock.
    requires apart { 3 ≤ file }

    ensures written { OnOk result (IsTrue D.tells → D.seen disk.new file ≡ Some bytes.now) }

    // It has these bytes in each image, so no crash takes them back.
    ensures stable { OnOk result (IsTrue D.tells → (c : Files) → D.leaves disk.new (D.now disk.new) c → c file ≡ Some bytes.now) }

    ensures others { IsTrue D.tells → (n : ℕ) → n ≢ file → D.seen disk.new n ≡ D.seen disk.old n }

    // A crash at any moment leaves every other file as an image from before has it.
    ensures any_moment { IsTrue D.tells → LeavesOnly D.now D.leaves (ButFiles D.now D.leaves disk.old (file ∷ [])) disk.old disk.new }

    ensures cause { HasCause (D.faults disk.old) (D.faults disk.new) result }
{
    disk.write_at(file, 0, bytes)?;
    disk.sync(file)?;
    Ok(())
}
