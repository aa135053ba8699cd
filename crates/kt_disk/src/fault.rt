//! A disk that fails the calls that are listed.
ghost use Rattle.std.specs.Prelude.{◌≡◌, ◌≢◌, ◌+◌, ◌≤◌, ℕ, IsTrue, length, take, drop, Some, None, Err, is_err, IfOk, OnOk, MatchResult};
ghost use Rattle.kt_base.specs.Causes.{Rose, HasCause};
ghost use Rattle.kt_disk.specs.Disk.{Files, held, put, shortened, Torn, Cut, Gone, On, Same, Turns, AreFiles};
ghost use Rattle.kt_disk.specs.Fault.{inner_of, plan_of, through, all_faults, untouched, is_listed_call, is_listed_change, fails_look, fails_change, after_look, after_change, FailsIf, FailsFilesIf};

use crate::{Disk, DiskNo, Fail, FailList, FileList};
use kt_base::Failed;
use std::alloc::Global;

/// The calls that are to fail, and the calls so far.
#[derive(Drop)]
pub struct Plan {
    fails: FailList,
    calls: u64,
    changes: u64,
    faults: u64,
}

/// Passes each call on to another disk, but for those listed, which fail and are not done.
#[derive(Drop)]
pub struct FaultDisk<D: Disk> {
    inner: D,
    plan: Box<Plan>,
}

impl<D: Disk> FaultDisk<D> {
    /// A disk that fails the listed calls. Without memory the inner disk comes back.
    pub fn of(alloc: Global, inner: D, fails: FailList) -> Result<FaultDisk<D>, D>
        ensures { MatchResult result (λ disk. (inner_of disk ≡ inner) × (plan_of disk ≡ untouched fails)) (λ back. back ≡ inner) }
    {
        let plan = Plan {
            fails,
            calls: 0,
            changes: 0,
            faults: 0,
        };
        match Box::new(alloc, plan) {
            Ok(plan) => Ok(FaultDisk { inner, plan }),
            Err(_) => Err(inner),
        }
    }

    pub fn into_inner(self) -> D
        ensures { result ≡ inner_of self }
    {
        let FaultDisk { inner, plan: _ } = self;
        inner
    }
}

// Whether the call of this number is among those that are to fail.
fn lists_call(fails: &[Fail], number: u64) -> bool
    ensures { result ≡ is_listed_call fails.now number }
{
    let mut rest = fails;
    'fails: while let [first, others @ ..] = rest {
        if let Fail::Any(listed) = first
            && *listed == number
        {
            return true;
        }
        rest = others;
    }
    false
}

// Whether the call of this number of those that change a file is to fail.
fn lists_change(fails: &[Fail], number: u64) -> bool
    ensures { result ≡ is_listed_change fails.now number }
{
    let mut rest = fails;
    'fails: while let [first, others @ ..] = rest {
        if let Fail::Change(listed) = first
            && *listed == number
        {
            return true;
        }
        rest = others;
    }
    false
}

impl Plan {
    // Counts a call that changes no file, and fails it where it is listed.
    fn look(&mut self) -> Result<(), Failed>
        ensures failed { is_err result ≡ fails_look self.old }
        ensures counted { self.new ≡ after_look self.old }
    {
        self.calls = self.calls.saturating_add(1);
        if lists_call(self.fails.as_slice(), self.calls) {
            self.faults = self.faults.saturating_add(1);
            return Err(Failed);
        }
        Ok(())
    }

    // Counts a call that changes a file, and fails it where it is listed.
    fn change(&mut self) -> Result<(), Failed>
        ensures failed { is_err result ≡ fails_change self.old }
        ensures counted { self.new ≡ after_change self.old }
    {
        self.calls = self.calls.saturating_add(1);
        self.changes = self.changes.saturating_add(1);
        let fails = self.fails.as_slice();
        if lists_call(fails, self.calls) || lists_change(fails, self.changes) {
            self.faults = self.faults.saturating_add(1);
            return Err(Failed);
        }
        Ok(())
    }
}

impl<D: Disk> Disk for FaultDisk<D> {
    ghost tells = { D.tells };

    ghost seen = { through D.seen };

    ghost now = { through D.now };

    ghost leaves = { through D.leaves };

    ghost faults = { all_faults D.faults };

    ghost reads_as_image = { λ f. D.reads_as_image f.inner };

    ghost images_hold_bytes = { λ f. D.images_hold_bytes f.inner };

    fn files(&mut self, alloc: Global) -> Result<FileList, DiskNo>
        ensures files { IfOk result (λ found. IsTrue D.tells → AreFiles found (through D.seen self.old)) }
        ensures seen { IsTrue D.tells → through D.seen self.new ≡ through D.seen self.old }
        ensures images { IsTrue D.tells → Turns (through D.now) (through D.leaves) Same self.old self.new }
        ensures failed { result ≡ Err DiskNo.Failed → Rose (all_faults D.faults self.old) (all_faults D.faults self.new) }
        ensures faults { all_faults D.faults self.old ≤ all_faults D.faults self.new }
        ensures listed { FailsFilesIf D.faults (fails_look (plan_of self.old)) self.old self.new result }
        ensures counted { plan_of self.new ≡ after_look (plan_of self.old) }
    {
        self.plan.look()?;
        self.inner.files(alloc)
    }

    fn len(&mut self, file: u64) -> Result<u64, Failed>
        ensures len { IfOk result (λ n. IsTrue D.tells → n ≡ length (held (through D.seen self.old) file)) }
        ensures seen { IsTrue D.tells → through D.seen self.new ≡ through D.seen self.old }
        ensures images { IsTrue D.tells → Turns (through D.now) (through D.leaves) Same self.old self.new }
        ensures cause { HasCause (all_faults D.faults self.old) (all_faults D.faults self.new) result }
        ensures listed { FailsIf D.faults (fails_look (plan_of self.old)) self.old self.new result }
        ensures counted { plan_of self.new ≡ after_look (plan_of self.old) }
    {
        self.plan.look()?;
        self.inner.len(file)
    }

    fn read(&mut self, file: u64, at: u64, into: &mut [u8]) -> Result<(), Failed>
        requires { IsTrue D.tells → at + length into.old ≤ length (held (through D.seen self.old) file) }
        ensures read { OnOk result (IsTrue D.tells → into.new ≡ take (length into.old) (drop at (held (through D.seen self.old) file))) }
        ensures seen { IsTrue D.tells → through D.seen self.new ≡ through D.seen self.old }
        ensures images { IsTrue D.tells → Turns (through D.now) (through D.leaves) Same self.old self.new }
        ensures cause { HasCause (all_faults D.faults self.old) (all_faults D.faults self.new) result }
        ensures listed { FailsIf D.faults (fails_look (plan_of self.old)) self.old self.new result }
        ensures counted { plan_of self.new ≡ after_look (plan_of self.old) }
    {
        self.plan.look()?;
        self.inner.read(file, at, into)
    }

    fn write_at(&mut self, file: u64, at: u64, bytes: &[u8]) -> Result<(), Failed>
        requires { IsTrue D.tells → at ≤ length (held (through D.seen self.old) file) }
        ensures written { OnOk result (IsTrue D.tells → through D.seen self.new file ≡ Some (put (held (through D.seen self.old) file) at bytes.now)) }
        ensures others { IsTrue D.tells → (n : ℕ) → n ≢ file → through D.seen self.new n ≡ through D.seen self.old n }
        ensures images { IsTrue D.tells → Turns (through D.now) (through D.leaves) (On file (Torn at (length bytes.now))) self.old self.new }
        ensures cause { HasCause (all_faults D.faults self.old) (all_faults D.faults self.new) result }
        ensures listed { FailsIf D.faults (fails_change (plan_of self.old)) self.old self.new result }
        ensures counted { plan_of self.new ≡ after_change (plan_of self.old) }
    {
        self.plan.change()?;
        self.inner.write_at(file, at, bytes)
    }

    fn cut(&mut self, file: u64, to: u64) -> Result<(), Failed>
        requires { IsTrue D.tells → to ≤ length (held (through D.seen self.old) file) }
        ensures cut { OnOk result (IsTrue D.tells → through D.seen self.new file ≡ shortened to (through D.seen self.old file)) }
        ensures others { IsTrue D.tells → (n : ℕ) → n ≢ file → through D.seen self.new n ≡ through D.seen self.old n }
        ensures images { IsTrue D.tells → Turns (through D.now) (through D.leaves) (On file (Cut to)) self.old self.new }
        ensures cause { HasCause (all_faults D.faults self.old) (all_faults D.faults self.new) result }
        ensures listed { FailsIf D.faults (fails_change (plan_of self.old)) self.old self.new result }
        ensures counted { plan_of self.new ≡ after_change (plan_of self.old) }
    {
        self.plan.change()?;
        self.inner.cut(file, to)
    }

    fn sync(&mut self, file: u64) -> Result<(), Failed>
        ensures stable { OnOk result (IsTrue D.tells → (c : Files) → through D.leaves self.new (through D.now self.new) c → c file ≡ through D.seen self.new file) }
        ensures seen { OnOk result (IsTrue D.tells → through D.seen self.new ≡ through D.seen self.old) }
        ensures others { IsTrue D.tells → (n : ℕ) → n ≢ file → through D.seen self.new n ≡ through D.seen self.old n }
        ensures images { IsTrue D.tells → Turns (through D.now) (through D.leaves) Same self.old self.new }
        ensures cause { HasCause (all_faults D.faults self.old) (all_faults D.faults self.new) result }
        ensures listed { FailsIf D.faults (fails_change (plan_of self.old)) self.old self.new result }
        ensures counted { plan_of self.new ≡ after_change (plan_of self.old) }
    {
        self.plan.change()?;
        self.inner.sync(file)
    }

    fn remove(&mut self, file: u64) -> Result<(), Failed>
        ensures removed { OnOk result (IsTrue D.tells → through D.seen self.new file ≡ None) }
        ensures others { IsTrue D.tells → (n : ℕ) → n ≢ file → through D.seen self.new n ≡ through D.seen self.old n }
        ensures images { IsTrue D.tells → Turns (through D.now) (through D.leaves) (On file Gone) self.old self.new }
        ensures cause { HasCause (all_faults D.faults self.old) (all_faults D.faults self.new) result }
        ensures listed { FailsIf D.faults (fails_change (plan_of self.old)) self.old self.new result }
        ensures counted { plan_of self.new ≡ after_change (plan_of self.old) }
    {
        self.plan.change()?;
        self.inner.remove(file)
    }
}
