//! A disk in memory, which keeps its calls.
ghost use Rattle.std.specs.Prelude.{◌≡◌, ◌+◌, ◌-◌, ◌≤◌, ◌==◌, ◌++◌, [], ◌∷◌, ℕ, true, length, take, IsErr, Some, None, if◌then◌else◌, IfOk, OnOk, OnErr};
ghost use Rattle.std.specs.Ordering.{nat_cmp};
ghost use Rattle.std.specs.BTreeMap as tree;
ghost use Rattle.kt_disk.specs.Disk.{bytes_of, put, shortened};
ghost use Rattle.kt_base.specs.Causes.{HasCause};
ghost use Rattle.kt_disk.specs.Memory.{MemView, listed, mem_seen, mem_now, mem_leaves};
ghost use Rattle.kt_disk.specs.MemoryLaw.{reads_as_image, images_hold_bytes};
ghost use Rattle.kt_disk.specs.declared.event.Change.TheVariants as Change;
ghost use Rattle.kt_disk.specs.Noted.{change_of};

use crate::calls::{CallList, Plain};
use crate::crash::images_of;
use crate::{Disk, DiskNo, FileBytes, FileBytesList, FileList};
use kt_base::{Failed, NoMemory, Octets};
use std::alloc::{AllocError, Global};
use std::collections::BTreeMap;
use std::marker::Model;

/// Files in memory. Until a sync a crash may leave all that the contract of a disk allows.
#[derive(Drop)]
pub struct MemDisk {
    alloc: Global,
    start: Vec<FileBytes>,
    files: BTreeMap<u64, Octets>,
    calls: CallList,
    faults: u64,
}

impl Model for MemDisk {
    ghost use Rattle.kt_disk.specs.Memory.{MemView};

    ghost Value = { MemView };

    ghost use Rattle.std.specs.Prelude.{◌≡◌, ℕ, reverse};
    ghost use Rattle.std.specs.Ordering.{nat_cmp};
    ghost use Rattle.std.specs.BTreeMap as tree;
    ghost use Rattle.kt_disk.specs.Memory.{listed, contents};

    ghost view = { λ d. record { start = d.start.items; calls = d.calls; faults = d.faults } };

    ghost invariant = { λ d. (n : ℕ) → tree.get nat_cmp d.files n ≡ contents n (listed d.start.items n) (reverse d.calls) };
}

impl MemDisk {
    /// An empty disk.
    pub fn new(alloc: Global) -> MemDisk
        ensures { result ≡ record { start = []; calls = []; faults = 0 } }
    {
        MemDisk {
            alloc,
            start: Vec::new(alloc),
            files: BTreeMap::new(alloc),
            calls: CallList::new(alloc),
            faults: 0,
        }
    }

    /// The moment on the disk's own clock: each call is one more.
    pub fn moment(&self) -> u64
        ensures { result ≡ mem_now self.now }
    {
        self.calls.len() as u64
    }

    /// An image that a crash at that moment may leave, as a disk. Each write that is not yet stable then takes its
    /// turn of `pick`: 0 leaves it out, 1 whole, 2 its first half, 3 its range filled with ones. No pick is 0.
    pub fn crash(&self, alloc: Global, moment: u64, pick: &[u8]) -> Result<MemDisk, NoMemory>
        requires { moment ≤ mem_now self.now }
        ensures image { IfOk result (λ disk. mem_leaves self.now moment (mem_seen disk)) }
        ensures fresh { IfOk result (λ disk. (disk.calls ≡ []) × (disk.faults ≡ 0)) }
    {
        let calls = self.calls.events(alloc, moment as usize)?;
        let images = images_of(alloc, self.start.as_slice(), calls.as_slice(), pick)?;
        MemDisk::of(alloc, &FileBytesList::of(images))
    }

    /// A disk that holds these files, all of them stable.
    pub fn of(alloc: Global, files: &FileBytesList) -> Result<MemDisk, NoMemory>
        ensures { IfOk result (λ disk. disk ≡ record { start = files.now; calls = []; faults = 0 }) }
    {
        let start = copies(alloc, files.as_slice())?;
        let held = by_number(alloc, files.as_slice())?;
        Ok(MemDisk {
            alloc,
            start,
            files: held,
            calls: CallList::new(alloc),
            faults: 0,
        })
    }
}

// The bytes of a file, none where there is no such file.
fn bytes_in(files: &BTreeMap<u64, Octets>, file: u64) -> &[u8]
    ensures { result.now ≡ bytes_of (tree.get nat_cmp files.now file) }
{
    match files.get(&file) {
        Some(octets) => octets.as_slice(),
        None => &[],
    }
}

// The numbers of the files, rising.
fn numbers(alloc: Global, files: &BTreeMap<u64, Octets>) -> Result<Vec<u64>, AllocError>
    ensures numbers { IfOk result (λ found. found.items ≡ tree.keys files.now) }
    ensures rising { tree.IsOrdered nat_cmp files.now }
{
    files.keys().copied().collect(alloc)
}

// Puts the new bytes of a file in place, or lets go of its call, which is the last.
fn store(
    files: &mut BTreeMap<u64, Octets>,
    calls: &mut CallList,
    file: u64,
    next: Octets,
) -> Result<(), NoMemory>
    ensures files { OnOk result ((n : ℕ) → tree.get nat_cmp files.new n ≡ (if file == n then Some next else tree.get nat_cmp files.old n)) }
    ensures calls { OnOk result (calls.new ≡ calls.old) }
    ensures err { OnErr result (((n : ℕ) → tree.get nat_cmp files.new n ≡ tree.get nat_cmp files.old n) × (calls.new ≡ take (length calls.old - 1) calls.old)) }
{
    if files.insert(file, next).is_err() {
        calls.drop_last();
        return Err(NoMemory);
    }
    Ok(())
}

// A call without memory is a fault.
fn fault(faults: &mut u64) -> Result<(), Failed>
    ensures err { IsErr result }
    ensures cause { HasCause faults.old faults.new result }
{
    *faults = faults.saturating_add(1);
    Err(Failed)
}

// Notes a call that writes no bytes, or counts a fault.
fn note(calls: &mut CallList, faults: &mut u64, file: u64, plain: Plain) -> Result<(), Failed>
    ensures ok { OnOk result ((calls.new ≡ calls.old ++ (record { file = file; change = change_of plain }) ∷ []) × (faults.new ≡ faults.old)) }
    ensures err { OnErr result (calls.new ≡ calls.old) }
    ensures cause { HasCause faults.old faults.new result }
{
    match calls.push(file, plain) {
        Ok(()) => Ok(()),
        Err(NoMemory) => fault(faults),
    }
}

// Notes that a file is looked at.
fn look(calls: &mut CallList, faults: &mut u64, file: u64) -> Result<(), Failed>
    ensures ok { OnOk result ((calls.new ≡ calls.old ++ (record { file = file; change = Change.Look }) ∷ []) × (faults.new ≡ faults.old)) }
    ensures err { OnErr result (calls.new ≡ calls.old) }
    ensures cause { HasCause faults.old faults.new result }
{
    note(calls, faults, file, Plain::Look)
}

// Writes to a file, and makes it where there is none.
#[tactic(auto, using(crate::proofs::Noted::all_but_last))]
fn write(
    alloc: Global,
    files: &mut BTreeMap<u64, Octets>,
    calls: &mut CallList,
    file: u64,
    at: u64,
    bytes: &[u8],
) -> Result<(), NoMemory>
    requires { at ≤ length (bytes_of (tree.get nat_cmp files.old file)) }
    ensures files { OnOk result ((n : ℕ) → tree.get nat_cmp files.new n ≡ (if file == n then Some (put (bytes_of (tree.get nat_cmp files.old file)) at bytes.now) else tree.get nat_cmp files.old n)) }
    ensures calls { OnOk result (calls.new ≡ calls.old ++ (record { file = file; change = Change.Write at bytes.now }) ∷ []) }
    ensures err { OnErr result (((n : ℕ) → tree.get nat_cmp files.new n ≡ tree.get nat_cmp files.old n) × (calls.new ≡ calls.old)) }
{
    let Some(octets) = files.get_mut(&file) else {
        let next = Octets::from_slice(alloc, bytes)?;
        calls.push_write(file, at, bytes)?;
        return store(files, calls, file, next);
    };
    calls.push_write(file, at, bytes)?;
    if octets.write_at(at as usize, bytes).is_err() {
        calls.drop_last();
        return Err(NoMemory);
    }
    Ok(())
}

// A file that is there is shortened.
fn shorten(
    files: &mut BTreeMap<u64, Octets>,
    calls: &mut CallList,
    file: u64,
    to: u64,
) -> Result<(), NoMemory>
    requires { to ≤ length (bytes_of (tree.get nat_cmp files.old file)) }
    ensures files { OnOk result ((n : ℕ) → tree.get nat_cmp files.new n ≡ (if file == n then shortened to (tree.get nat_cmp files.old file) else tree.get nat_cmp files.old n)) }
    ensures calls { OnOk result (calls.new ≡ calls.old ++ (record { file = file; change = Change.Cut to }) ∷ []) }
    ensures err { OnErr result (((n : ℕ) → tree.get nat_cmp files.new n ≡ tree.get nat_cmp files.old n) × (calls.new ≡ calls.old)) }
{
    let Some(octets) = files.get_mut(&file) else {
        return calls.push(file, Plain::Cut(to));
    };
    calls.push(file, Plain::Cut(to))?;
    octets.truncate(to as usize);
    Ok(())
}

impl Disk for MemDisk {
    ghost tells = { true };

    ghost seen = { mem_seen };

    ghost now = { mem_now };

    ghost leaves = { mem_leaves };

    ghost faults = { λ d. d.faults };

    ghost reads_as_image = { λ d told. reads_as_image d };

    ghost images_hold_bytes = { λ d m c told left. images_hold_bytes d m c left };

    fn files(&mut self, alloc: Global) -> Result<FileList, DiskNo> {
        look(&mut self.calls, &mut self.faults, 0)?;
        Ok(FileList::of(numbers(alloc, &self.files)?))
    }

    fn len(&mut self, file: u64) -> Result<u64, Failed> {
        look(&mut self.calls, &mut self.faults, file)?;
        Ok(bytes_in(&self.files, file).len() as u64)
    }

    fn read(&mut self, file: u64, at: u64, into: &mut [u8]) -> Result<(), Failed> {
        look(&mut self.calls, &mut self.faults, file)?;
        let from = at as usize;
        let bytes = bytes_in(&self.files, file);
        into.copy_from_slice(&bytes[from..from + into.len()]);
        Ok(())
    }

    fn write_at(&mut self, file: u64, at: u64, bytes: &[u8]) -> Result<(), Failed> {
        let (files, calls) = (&mut self.files, &mut self.calls);
        match write(self.alloc, files, calls, file, at, bytes) {
            Ok(()) => Ok(()),
            Err(NoMemory) => fault(&mut self.faults),
        }
    }

    fn cut(&mut self, file: u64, to: u64) -> Result<(), Failed> {
        let (files, calls) = (&mut self.files, &mut self.calls);
        match shorten(files, calls, file, to) {
            Ok(()) => Ok(()),
            Err(NoMemory) => fault(&mut self.faults),
        }
    }

    fn sync(&mut self, file: u64) -> Result<(), Failed> {
        note(&mut self.calls, &mut self.faults, file, Plain::Sync)?;
        Ok(())
    }

    fn remove(&mut self, file: u64) -> Result<(), Failed> {
        note(&mut self.calls, &mut self.faults, file, Plain::Remove)?;
        let _ = self.files.remove(&file);
        Ok(())
    }
}

fn copies(alloc: Global, files: &[FileBytes]) -> Result<Vec<FileBytes>, NoMemory>
    ensures { IfOk result (λ copies. copies.items ≡ files.now) }
{
    let mut copies = Vec::new(alloc);
    for held in files {
        let bytes = Octets::from_slice(alloc, held.bytes.as_slice())?;
        copies.push(FileBytes {
            file: held.file,
            bytes,
        })?;
    }
    Ok(copies)
}

// The files by number. Of two with one number the first counts.
pub fn by_number(alloc: Global, files: &[FileBytes]) -> Result<BTreeMap<u64, Octets>, NoMemory>
    ensures { IfOk result (λ map. (n : ℕ) → tree.get nat_cmp map n ≡ listed files.now n) }
{
    let mut map = BTreeMap::new(alloc);
    let mut i = files.len();
    'files: while i > 0 {
        i -= 1;
        let held = &files[i];
        map.insert(held.file, Octets::from_slice(alloc, held.bytes.as_slice())?)?;
    }
    Ok(map)
}
