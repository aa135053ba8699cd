//! A held disk as a disk.
ghost use Rattle.std.specs.Prelude.{◌≡◌, ◌≢◌, ◌+◌, ◌≤◌, ℕ, IsTrue, length, take, drop, Some, None, Err, IfOk, OnOk};
ghost use Rattle.kt_base.specs.Causes.{Rose, HasCause};
ghost use Rattle.kt_disk.specs.Disk.{Files, held, put, shortened, Torn, Cut, Gone, On, Same, Turns, AreFiles};
ghost use Rattle.kt_disk.specs.Held.{inside, HasCome, CountsOne, CountsNone};

use crate::{Disk, DiskNo, FileList, Gate, HeldDisk};
use kt_base::Failed;
use std::alloc::Global;

impl<'g, D: Disk, G: Gate> Disk for HeldDisk<'g, D, G> {
    ghost tells = { D.tells };

    ghost seen = { inside D.seen };

    ghost now = { inside D.now };

    ghost leaves = { inside D.leaves };

    ghost faults = { inside D.faults };

    ghost reads_as_image = { λ h. D.reads_as_image h.inner };

    ghost images_hold_bytes = { λ h. D.images_hold_bytes h.inner };

    fn files(&mut self, alloc: Global) -> Result<FileList, DiskNo>
        ensures files { IfOk result (λ found. IsTrue D.tells → AreFiles found (inside D.seen self.old)) }
        ensures seen { IsTrue D.tells → inside D.seen self.new ≡ inside D.seen self.old }
        ensures images { IsTrue D.tells → Turns (inside D.now) (inside D.leaves) Same self.old self.new }
        ensures failed { result ≡ Err DiskNo.Failed → Rose (inside D.faults self.old) (inside D.faults self.new) }
        ensures faults { inside D.faults self.old ≤ inside D.faults self.new }
        ensures counted { CountsNone self.old self.new }
    {
        self.files_now(alloc)
    }

    fn len(&mut self, file: u64) -> Result<u64, Failed>
        ensures len { IfOk result (λ n. IsTrue D.tells → n ≡ length (held (inside D.seen self.old) file)) }
        ensures seen { IsTrue D.tells → inside D.seen self.new ≡ inside D.seen self.old }
        ensures images { IsTrue D.tells → Turns (inside D.now) (inside D.leaves) Same self.old self.new }
        ensures cause { HasCause (inside D.faults self.old) (inside D.faults self.new) result }
        ensures counted { CountsNone self.old self.new }
    {
        self.len_now(file)
    }

    fn read(&mut self, file: u64, at: u64, into: &mut [u8]) -> Result<(), Failed>
        requires { IsTrue D.tells → at + length into.old ≤ length (held (inside D.seen self.old) file) }
        ensures read { OnOk result (IsTrue D.tells → into.new ≡ take (length into.old) (drop at (held (inside D.seen self.old) file))) }
        ensures seen { IsTrue D.tells → inside D.seen self.new ≡ inside D.seen self.old }
        ensures images { IsTrue D.tells → Turns (inside D.now) (inside D.leaves) Same self.old self.new }
        ensures cause { HasCause (inside D.faults self.old) (inside D.faults self.new) result }
        ensures counted { CountsNone self.old self.new }
    {
        self.read_now(file, at, into)
    }

    fn write_at(&mut self, file: u64, at: u64, bytes: &[u8]) -> Result<(), Failed>
        requires { IsTrue D.tells → at ≤ length (held (inside D.seen self.old) file) }
        ensures written { OnOk result (IsTrue D.tells → inside D.seen self.new file ≡ Some (put (held (inside D.seen self.old) file) at bytes.now)) }
        ensures others { IsTrue D.tells → (n : ℕ) → n ≢ file → inside D.seen self.new n ≡ inside D.seen self.old n }
        ensures images { IsTrue D.tells → Turns (inside D.now) (inside D.leaves) (On file (Torn at (length bytes.now))) self.old self.new }
        ensures cause { HasCause (inside D.faults self.old) (inside D.faults self.new) result }
        ensures came { HasCome G.came self.new }
        ensures counted { CountsOne self.old self.new }
    {
        self.come();
        self.write_now(file, at, bytes)
    }

    fn cut(&mut self, file: u64, to: u64) -> Result<(), Failed>
        requires { IsTrue D.tells → to ≤ length (held (inside D.seen self.old) file) }
        ensures cut { OnOk result (IsTrue D.tells → inside D.seen self.new file ≡ shortened to (inside D.seen self.old file)) }
        ensures others { IsTrue D.tells → (n : ℕ) → n ≢ file → inside D.seen self.new n ≡ inside D.seen self.old n }
        ensures images { IsTrue D.tells → Turns (inside D.now) (inside D.leaves) (On file (Cut to)) self.old self.new }
        ensures cause { HasCause (inside D.faults self.old) (inside D.faults self.new) result }
        ensures came { HasCome G.came self.new }
        ensures counted { CountsOne self.old self.new }
    {
        self.come();
        self.cut_now(file, to)
    }

    fn sync(&mut self, file: u64) -> Result<(), Failed>
        ensures stable { OnOk result (IsTrue D.tells → (c : Files) → inside D.leaves self.new (inside D.now self.new) c → c file ≡ inside D.seen self.new file) }
        ensures seen { OnOk result (IsTrue D.tells → inside D.seen self.new ≡ inside D.seen self.old) }
        ensures others { IsTrue D.tells → (n : ℕ) → n ≢ file → inside D.seen self.new n ≡ inside D.seen self.old n }
        ensures images { IsTrue D.tells → Turns (inside D.now) (inside D.leaves) Same self.old self.new }
        ensures cause { HasCause (inside D.faults self.old) (inside D.faults self.new) result }
        ensures came { HasCome G.came self.new }
        ensures counted { CountsOne self.old self.new }
    {
        self.come();
        self.sync_now(file)
    }

    fn remove(&mut self, file: u64) -> Result<(), Failed>
        ensures removed { OnOk result (IsTrue D.tells → inside D.seen self.new file ≡ None) }
        ensures others { IsTrue D.tells → (n : ℕ) → n ≢ file → inside D.seen self.new n ≡ inside D.seen self.old n }
        ensures images { IsTrue D.tells → Turns (inside D.now) (inside D.leaves) (On file Gone) self.old self.new }
        ensures cause { HasCause (inside D.faults self.old) (inside D.faults self.new) result }
        ensures came { HasCome G.came self.new }
        ensures counted { CountsOne self.old self.new }
    {
        self.come();
        self.remove_now(file)
    }
}
