//! A disk in memory whose calls only clauses keep.
ghost use Rattle.std.specs.Prelude.{◌≡◌, ◌+◌, ◌≤◌, ◌==◌, ◌++◌, [], ◌∷◌, ℕ, List, true, length, IsErr, Some, None, if◌then◌else◌, IfOk, OnOk, OnErr};
ghost use Rattle.std.specs.Ordering.{nat_cmp};
ghost use Rattle.std.specs.BTreeMap as tree;
ghost use Rattle.kt_base.specs.Causes.{HasCause};
ghost use Rattle.kt_disk.specs.Disk.{bytes_of, put, shortened};
ghost use Rattle.kt_disk.specs.Memory.{mem_seen, mem_now, mem_leaves};
ghost use Rattle.kt_disk.specs.MemoryLaw.{reads_as_image, images_hold_bytes};
ghost use Rattle.kt_disk.specs.declared.event.Change.TheVariants as Change;
ghost use Rattle.kt_host.specs.Ram.{change_of, calls_of};

use kt_base::{Failed, NoMemory, Octets};
use kt_disk::{Disk, DiskNo, FileList};
use std::alloc::{AllocError, Global};
use std::collections::BTreeMap;
use std::marker::Model;
use std::mem;
use std::snapshot::Snapshot;

/// What a call did to its file.
#[derive(Drop)]
pub enum Deed {
    /// It wrote so many bytes at a place: the file as it is then.
    Write {
        at: u64,
        len: usize,
        whole: Snapshot<Octets>,
    },
    Cut(u64),
    Sync,
    Remove,
    /// It was only looked at.
    Look,
}

/// A call on a file.
#[derive(Drop)]
pub struct Call {
    pub file: u64,
    pub deed: Deed,
}

/// Calls, the newest first. A disk keeps their snapshot alone, which takes no memory.
#[derive(Drop)]
pub enum Past {
    Begin,
    Then { call: Call, before: Snapshot<Past> },
}

// Notes a call.
fn note(past: &mut Snapshot<Past>, file: u64, deed: Deed)
    ensures { calls_of past.new.value ≡ calls_of past.old.value ++ (record { file = file; change = change_of deed }) ∷ [] }
{
    let call = Call { file, deed };
    let before = mem::replace(past, Snapshot::of(&Past::Begin));
    *past = Snapshot::of(&Past::Then { call, before });
}

// Notes a write that left a file so.
fn note_write(past: &mut Snapshot<Past>, file: u64, at: u64, bytes: &[u8], whole: Snapshot<Octets>)
    requires { (before : List ℕ) × (at ≤ length before) × (whole.value ≡ put before at bytes.now) }
    ensures { calls_of past.new.value ≡ calls_of past.old.value ++ (record { file = file; change = Change.Write at bytes.now }) ∷ [] }
{
    let len = bytes.len();
    note(past, file, Deed::Write { at, len, whole });
}

/// Files in memory. What a crash may leave of them follows from their calls, of which nothing stands in memory.
#[derive(Drop)]
pub struct RamDisk {
    alloc: Global,
    files: BTreeMap<u64, Octets>,
    past: Snapshot<Past>,
    faults: u64,
}

impl Model for RamDisk {
    ghost use Rattle.kt_disk.specs.Memory.{MemView};

    ghost Value = { MemView };

    ghost use Rattle.std.specs.Prelude.{◌≡◌, ℕ, None, [], reverse};
    ghost use Rattle.std.specs.Ordering.{nat_cmp};
    ghost use Rattle.std.specs.BTreeMap as tree;
    ghost use Rattle.kt_disk.specs.Memory.{contents};
    ghost use Rattle.kt_host.specs.Ram.{calls_of};

    ghost view = { λ d. record { start = []; calls = calls_of d.past.value; faults = d.faults } };

    ghost invariant = { λ d. (n : ℕ) → tree.get nat_cmp d.files n ≡ contents n None (reverse (calls_of d.past.value)) };
}

impl RamDisk {
    /// An empty disk.
    pub fn new(alloc: Global) -> RamDisk
        ensures { result ≡ record { start = []; calls = []; faults = 0 } }
    {
        RamDisk {
            alloc,
            files: BTreeMap::new(alloc),
            past: Snapshot::of(&Past::Begin),
            faults: 0,
        }
    }
}

// The bytes of a file, none where there is no such file.
fn bytes_in(files: &BTreeMap<u64, Octets>, file: u64) -> &[u8]
    ensures { result.now ≡ bytes_of (tree.get nat_cmp files.now file) }
{
    match files.get(&file) {
        Some(octets) => octets.as_slice(),
        None => &[],
    }
}

// The numbers of the files, rising.
fn numbers(alloc: Global, files: &BTreeMap<u64, Octets>) -> Result<Vec<u64>, AllocError>
    ensures numbers { IfOk result (λ found. found.items ≡ tree.keys files.now) }
    ensures rising { tree.IsOrdered nat_cmp files.now }
{
    files.keys().copied().collect(alloc)
}

// A call without memory is a fault.
fn fault(faults: &mut u64) -> Result<(), Failed>
    ensures err { IsErr result }
    ensures cause { HasCause faults.old faults.new result }
{
    *faults = faults.saturating_add(1);
    Err(Failed)
}

// Makes a file of these bytes, and gives its snapshot.
fn make(
    alloc: Global,
    files: &mut BTreeMap<u64, Octets>,
    file: u64,
    bytes: &[u8],
) -> Result<Snapshot<Octets>, NoMemory>
    ensures files { OnOk result ((n : ℕ) → tree.get nat_cmp files.new n ≡ (if file == n then Some bytes.now else tree.get nat_cmp files.old n)) }
    ensures whole { IfOk result (λ whole. whole.value ≡ bytes.now) }
    ensures err { OnErr result ((n : ℕ) → tree.get nat_cmp files.new n ≡ tree.get nat_cmp files.old n) }
{
    let octets = Octets::from_slice(alloc, bytes)?;
    let whole = Snapshot::of(&octets);
    match files.insert(file, octets) {
        Ok(_) => Ok(whole),
        Err(_) => Err(NoMemory),
    }
}

// Writes to a file, and makes it where there is none. Gives the snapshot of the file.
fn write(
    alloc: Global,
    files: &mut BTreeMap<u64, Octets>,
    file: u64,
    at: u64,
    bytes: &[u8],
) -> Result<Snapshot<Octets>, NoMemory>
    requires { at ≤ length (bytes_of (tree.get nat_cmp files.old file)) }
    ensures files { OnOk result ((n : ℕ) → tree.get nat_cmp files.new n ≡ (if file == n then Some (put (bytes_of (tree.get nat_cmp files.old file)) at bytes.now) else tree.get nat_cmp files.old n)) }
    ensures whole { IfOk result (λ whole. whole.value ≡ put (bytes_of (tree.get nat_cmp files.old file)) at bytes.now) }
    ensures err { OnErr result ((n : ℕ) → tree.get nat_cmp files.new n ≡ tree.get nat_cmp files.old n) }
{
    let Some(octets) = files.get_mut(&file) else {
        return make(alloc, files, file, bytes);
    };
    octets.write_at(at as usize, bytes)?;
    Ok(Snapshot::of(octets))
}

// A file that is there is shortened.
fn shorten(files: &mut BTreeMap<u64, Octets>, file: u64, to: u64)
    requires { to ≤ length (bytes_of (tree.get nat_cmp files.old file)) }
    ensures { (n : ℕ) → tree.get nat_cmp files.new n ≡ (if file == n then shortened to (tree.get nat_cmp files.old file) else tree.get nat_cmp files.old n) }
{
    if let Some(octets) = files.get_mut(&file) {
        octets.truncate(to as usize);
    }
}

impl Disk for RamDisk {
    ghost tells = { true };

    ghost seen = { mem_seen };

    ghost now = { mem_now };

    ghost leaves = { mem_leaves };

    ghost faults = { λ d. d.faults };

    ghost reads_as_image = { λ d told. reads_as_image d };

    ghost images_hold_bytes = { λ d m c told left. images_hold_bytes d m c left };

    fn files(&mut self, alloc: Global) -> Result<FileList, DiskNo> {
        note(&mut self.past, 0, Deed::Look);
        Ok(FileList::of(numbers(alloc, &self.files)?))
    }

    fn len(&mut self, file: u64) -> Result<u64, Failed> {
        note(&mut self.past, file, Deed::Look);
        Ok(bytes_in(&self.files, file).len() as u64)
    }

    fn read(&mut self, file: u64, at: u64, into: &mut [u8]) -> Result<(), Failed> {
        note(&mut self.past, file, Deed::Look);
        let from = at as usize;
        let bytes = bytes_in(&self.files, file);
        into.copy_from_slice(&bytes[from..from + into.len()]);
        Ok(())
    }

    fn write_at(&mut self, file: u64, at: u64, bytes: &[u8]) -> Result<(), Failed> {
        match write(self.alloc, &mut self.files, file, at, bytes) {
            Ok(whole) => {
                note_write(&mut self.past, file, at, bytes, whole);
                Ok(())
            }
            Err(NoMemory) => fault(&mut self.faults),
        }
    }

    fn cut(&mut self, file: u64, to: u64) -> Result<(), Failed> {
        shorten(&mut self.files, file, to);
        note(&mut self.past, file, Deed::Cut(to));
        Ok(())
    }

    fn sync(&mut self, file: u64) -> Result<(), Failed> {
        note(&mut self.past, file, Deed::Sync);
        Ok(())
    }

    fn remove(&mut self, file: u64) -> Result<(), Failed> {
        let _ = self.files.remove(&file);
        note(&mut self.past, file, Deed::Remove);
        Ok(())
    }
}
