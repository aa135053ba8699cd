//! A held disk and the calls behind its gate. No other module reaches the inner disk.
ghost use Rattle.std.specs.Prelude.{◌≡◌, ◌≢◌, ◌+◌, ◌≤◌, ℕ, IsTrue, length, take, drop, Some, None, Err, IfOk, OnOk};
ghost use Rattle.kt_base.specs.Causes.{Rose, HasCause};
ghost use Rattle.kt_disk.specs.Disk.{Files, held, put, shortened, Torn, Cut, Gone, On, Same, Turns, AreFiles};
ghost use Rattle.kt_disk.specs.Held.{within, inside, gate_of, mark_of, changes_of, HasCome, CountsOne, CountsNone};

use crate::{Disk, DiskNo, FileList, Gate, Point};
use kt_base::Failed;
use std::alloc::Global;

/// Passes each call on to another disk, and comes to a point before each that changes a file.
#[derive(Drop)]
pub struct HeldDisk<'g, D: Disk, G: Gate> {
    inner: D,
    gate: &'g G,
    mark: u32,
    changes: u32,
}

impl<'g, D: Disk, G: Gate> HeldDisk<'g, D, G> {
    pub fn of(inner: D, gate: &'g G, mark: u32) -> HeldDisk<'g, D, G>
        ensures inner { within result ≡ inner }
        ensures gate { gate_of result ≡ gate.now }
        ensures mark { mark_of result ≡ mark }
        ensures changes { changes_of result ≡ 0 }
    {
        HeldDisk {
            inner,
            gate,
            mark,
            changes: 0,
        }
    }

    pub fn into_inner(self) -> D
        ensures { result ≡ within self.entry }
    {
        let HeldDisk {
            inner,
            gate: _,
            mark: _,
            changes: _,
        } = self;
        inner
    }
}

// The calls on the inner disk. One that changes a file is made only once the gate came to its point.
impl<'g, D: Disk, G: Gate> HeldDisk<'g, D, G> {
    // Counts a call that changes a file, and comes to its point.
    pub(crate) fn come(&mut self)
        ensures came { HasCome G.came self.new }
        ensures counted { CountsOne self.old self.new }
        ensures inner { within self.new ≡ within self.old }
    {
        self.changes = self.changes.saturating_add(1);
        let (mark, change) = (self.mark, self.changes);
        self.gate.at(Point::Device { mark, change });
    }

    pub(crate) fn write_now(&mut self, file: u64, at: u64, bytes: &[u8]) -> Result<(), Failed>
        requires came { HasCome G.came self.old }
        requires range { IsTrue D.tells → at ≤ length (held (inside D.seen self.old) file) }
        ensures written { OnOk result (IsTrue D.tells → inside D.seen self.new file ≡ Some (put (held (inside D.seen self.old) file) at bytes.now)) }
        ensures others { IsTrue D.tells → (n : ℕ) → n ≢ file → inside D.seen self.new n ≡ inside D.seen self.old n }
        ensures images { IsTrue D.tells → Turns (inside D.now) (inside D.leaves) (On file (Torn at (length bytes.now))) self.old self.new }
        ensures cause { HasCause (inside D.faults self.old) (inside D.faults self.new) result }
        ensures counted { CountsNone self.old self.new }
    {
        self.inner.write_at(file, at, bytes)
    }

    pub(crate) fn cut_now(&mut self, file: u64, to: u64) -> Result<(), Failed>
        requires came { HasCome G.came self.old }
        requires range { IsTrue D.tells → to ≤ length (held (inside D.seen self.old) file) }
        ensures cut { OnOk result (IsTrue D.tells → inside D.seen self.new file ≡ shortened to (inside D.seen self.old file)) }
        ensures others { IsTrue D.tells → (n : ℕ) → n ≢ file → inside D.seen self.new n ≡ inside D.seen self.old n }
        ensures images { IsTrue D.tells → Turns (inside D.now) (inside D.leaves) (On file (Cut to)) self.old self.new }
        ensures cause { HasCause (inside D.faults self.old) (inside D.faults self.new) result }
        ensures counted { CountsNone self.old self.new }
    {
        self.inner.cut(file, to)
    }

    pub(crate) fn sync_now(&mut self, file: u64) -> Result<(), Failed>
        requires { HasCome G.came self.old }
        ensures stable { OnOk result (IsTrue D.tells → (c : Files) → inside D.leaves self.new (inside D.now self.new) c → c file ≡ inside D.seen self.new file) }
        ensures seen { OnOk result (IsTrue D.tells → inside D.seen self.new ≡ inside D.seen self.old) }
        ensures others { IsTrue D.tells → (n : ℕ) → n ≢ file → inside D.seen self.new n ≡ inside D.seen self.old n }
        ensures images { IsTrue D.tells → Turns (inside D.now) (inside D.leaves) Same self.old self.new }
        ensures cause { HasCause (inside D.faults self.old) (inside D.faults self.new) result }
        ensures counted { CountsNone self.old self.new }
    {
        self.inner.sync(file)
    }

    pub(crate) fn remove_now(&mut self, file: u64) -> Result<(), Failed>
        requires { HasCome G.came self.old }
        ensures removed { OnOk result (IsTrue D.tells → inside D.seen self.new file ≡ None) }
        ensures others { IsTrue D.tells → (n : ℕ) → n ≢ file → inside D.seen self.new n ≡ inside D.seen self.old n }
        ensures images { IsTrue D.tells → Turns (inside D.now) (inside D.leaves) (On file Gone) self.old self.new }
        ensures cause { HasCause (inside D.faults self.old) (inside D.faults self.new) result }
        ensures counted { CountsNone self.old self.new }
    {
        self.inner.remove(file)
    }

    pub(crate) fn files_now(&mut self, alloc: Global) -> Result<FileList, DiskNo>
        ensures files { IfOk result (λ found. IsTrue D.tells → AreFiles found (inside D.seen self.old)) }
        ensures seen { IsTrue D.tells → inside D.seen self.new ≡ inside D.seen self.old }
        ensures images { IsTrue D.tells → Turns (inside D.now) (inside D.leaves) Same self.old self.new }
        ensures failed { result ≡ Err DiskNo.Failed → Rose (inside D.faults self.old) (inside D.faults self.new) }
        ensures faults { inside D.faults self.old ≤ inside D.faults self.new }
        ensures counted { CountsNone self.old self.new }
    {
        self.inner.files(alloc)
    }

    pub(crate) fn len_now(&mut self, file: u64) -> Result<u64, Failed>
        ensures len { IfOk result (λ n. IsTrue D.tells → n ≡ length (held (inside D.seen self.old) file)) }
        ensures seen { IsTrue D.tells → inside D.seen self.new ≡ inside D.seen self.old }
        ensures images { IsTrue D.tells → Turns (inside D.now) (inside D.leaves) Same self.old self.new }
        ensures cause { HasCause (inside D.faults self.old) (inside D.faults self.new) result }
        ensures counted { CountsNone self.old self.new }
    {
        self.inner.len(file)
    }

    pub(crate) fn read_now(&mut self, file: u64, at: u64, into: &mut [u8]) -> Result<(), Failed>
        requires { IsTrue D.tells → at + length into.old ≤ length (held (inside D.seen self.old) file) }
        ensures read { OnOk result (IsTrue D.tells → into.new ≡ take (length into.old) (drop at (held (inside D.seen self.old) file))) }
        ensures seen { IsTrue D.tells → inside D.seen self.new ≡ inside D.seen self.old }
        ensures images { IsTrue D.tells → Turns (inside D.now) (inside D.leaves) Same self.old self.new }
        ensures cause { HasCause (inside D.faults self.old) (inside D.faults self.new) result }
        ensures counted { CountsNone self.old self.new }
    {
        self.inner.read(file, at, into)
    }
}
