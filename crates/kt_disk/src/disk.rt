//! The contract of a disk.
ghost use Rattle.std.specs.Prelude.{◌≡◌, ◌≢◌, ◌+◌, ◌≤◌, Bool, IsTrue, ℕ, length, take, drop, Some, None, Err, IfOk, OnOk};
ghost use Rattle.kt_disk.specs.Disk.{Files, held, put, shortened, Torn, Cut, Gone, On, Same, Turns, AreFiles, HoldBytes};
ghost use Rattle.kt_base.specs.Causes.{Rose, HasCause};

use crate::FileList;
use kt_base::Failed;
use std::alloc::{AllocError, Global};
use thiserror::Error;

/// Why a list of files is not given.
#[derive(Clone, Copy, Debug, PartialEq, Eq, Error)]
pub enum DiskNo {
    #[error("the device failed")]
    Failed,
    #[error("out of memory")]
    Memory,
}

impl From<AllocError> for DiskNo {
    ghost use Rattle.kt_disk.specs.declared.disk.DiskNo.TheVariants.{Memory};

    ghost from_gives = { λ _ e. e ≡ Memory };

    fn from(_: AllocError) -> Self {
        DiskNo::Memory
    }
}

impl From<Failed> for DiskNo {
    ghost use Rattle.kt_disk.specs.declared.disk.DiskNo.TheVariants as disk_no;

    ghost from_gives = { λ _ e. e ≡ disk_no.Failed };

    fn from(_: Failed) -> Self {
        DiskNo::Failed
    }
}

/// Files named by numbers. Where the disk tells what they hold, each clause on them stands.
pub trait Disk {
    /// Whether it tells what its files hold. A real device does not.
    ghost tells: { Bool };

    /// What a read gives.
    ghost seen: { Self → Files };

    /// The disk's own clock, which does not fall.
    ghost now: { Self → ℕ };

    /// The images that a crash at that moment may leave, or might have left.
    ghost leaves: { Self → ℕ → Files → Type 0 };

    /// How often a call has failed.
    ghost faults: { Self → ℕ };

    /// The numbers of its files, rising.
    fn files(&mut self, alloc: Global) -> Result<FileList, DiskNo>
        ensures files { IfOk result (λ found. IsTrue tells → AreFiles found (seen self.old)) }
        ensures seen { IsTrue tells → seen self.new ≡ seen self.old }
        ensures images { IsTrue tells → Turns now leaves Same self.old self.new }
        ensures failed { result ≡ Err DiskNo.Failed → Rose (faults self.old) (faults self.new) }
        ensures faults { faults self.old ≤ faults self.new };

    /// The length of a file, 0 where there is none.
    fn len(&mut self, file: u64) -> Result<u64, Failed>
        ensures len { IfOk result (λ n. IsTrue tells → n ≡ length (held (seen self.old) file)) }
        ensures seen { IsTrue tells → seen self.new ≡ seen self.old }
        ensures images { IsTrue tells → Turns now leaves Same self.old self.new }
        ensures cause { HasCause (faults self.old) (faults self.new) result };

    /// Fills `into` with the bytes from `at` on.
    fn read(&mut self, file: u64, at: u64, into: &mut [u8]) -> Result<(), Failed>
        requires { IsTrue tells → at + length into.old ≤ length (held (seen self.old) file) }
        ensures read { OnOk result (IsTrue tells → into.new ≡ take (length into.old) (drop at (held (seen self.old) file))) }
        ensures seen { IsTrue tells → seen self.new ≡ seen self.old }
        ensures images { IsTrue tells → Turns now leaves Same self.old self.new }
        ensures cause { HasCause (faults self.old) (faults self.new) result };

    /// Writes over what is there and past the end, and makes the file where there is none.
    fn write_at(&mut self, file: u64, at: u64, bytes: &[u8]) -> Result<(), Failed>
        requires { IsTrue tells → at ≤ length (held (seen self.old) file) }
        ensures written { OnOk result (IsTrue tells → seen self.new file ≡ Some (put (held (seen self.old) file) at bytes.now)) }
        ensures others { IsTrue tells → (n : ℕ) → n ≢ file → seen self.new n ≡ seen self.old n }
        ensures images { IsTrue tells → Turns now leaves (On file (Torn at (length bytes.now))) self.old self.new }
        ensures cause { HasCause (faults self.old) (faults self.new) result };

    /// Shortens a file.
    fn cut(&mut self, file: u64, to: u64) -> Result<(), Failed>
        requires { IsTrue tells → to ≤ length (held (seen self.old) file) }
        ensures cut { OnOk result (IsTrue tells → seen self.new file ≡ shortened to (seen self.old file)) }
        ensures others { IsTrue tells → (n : ℕ) → n ≢ file → seen self.new n ≡ seen self.old n }
        ensures images { IsTrue tells → Turns now leaves (On file (Cut to)) self.old self.new }
        ensures cause { HasCause (faults self.old) (faults self.new) result };

    /// Makes a file stable: from then on each image of it is what a read gives.
    fn sync(&mut self, file: u64) -> Result<(), Failed>
        ensures stable { OnOk result (IsTrue tells → (c : Files) → leaves self.new (now self.new) c → c file ≡ seen self.new file) }
        ensures seen { OnOk result (IsTrue tells → seen self.new ≡ seen self.old) }
        ensures others { IsTrue tells → (n : ℕ) → n ≢ file → seen self.new n ≡ seen self.old n }
        ensures images { IsTrue tells → Turns now leaves Same self.old self.new }
        ensures cause { HasCause (faults self.old) (faults self.new) result };

    /// Removes a file. Until a sync it may come back.
    fn remove(&mut self, file: u64) -> Result<(), Failed>
        ensures removed { OnOk result (IsTrue tells → seen self.new file ≡ None) }
        ensures others { IsTrue tells → (n : ℕ) → n ≢ file → seen self.new n ≡ seen self.old n }
        ensures images { IsTrue tells → Turns now leaves (On file Gone) self.old self.new }
        ensures cause { HasCause (faults self.old) (faults self.new) result };

    /// A disk as it reads is one of its images.
    ghost reads_as_image: { (disk : Self) → IsTrue tells → leaves disk (now disk) (seen disk) };

    /// What a crash leaves is bytes, and so is what a read gives.
    ghost images_hold_bytes: { (disk : Self) (m : ℕ) (c : Files) → IsTrue tells → leaves disk m c → HoldBytes c };
}
