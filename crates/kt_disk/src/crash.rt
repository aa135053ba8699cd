//! What a crash leaves of each file.
//!
//! A pass over the calls from the end finds those of whose file a sync follows: a crash leaves all of them. Another pass
//! makes the files, each call wholly where a sync follows, and else as a crash may leave it.
ghost use Rattle.std.specs.Prelude.{◌≡◌, ◌≤◌, ◌==◌, ℕ, true, false, Some, length, reverse, if◌then◌else◌, IfOk, OnOk};
ghost use Rattle.std.specs.Ordering.{nat_cmp};
ghost use Rattle.std.specs.BTreeMap as tree;
ghost use Rattle.kt_disk.specs.Disk.{bytes_of, put, shortened};
ghost use Rattle.kt_disk.specs.Memory.{listed, IsLeft};
ghost use Rattle.kt_disk.specs.Left.{followed, LeavesIf};

use crate::memory::by_number;
use crate::{Change, Event, FileBytes};
use kt_base::{NoMemory, Octets};
use std::alloc::Global;
use std::collections::BTreeMap;

// Of each call, whether a sync of its file follows, the last call first.
fn synced_after(alloc: Global, calls: &[Event]) -> Result<Vec<bool>, NoMemory>
    ensures { IfOk result (λ synced. synced.items ≡ reverse (followed calls.now)) }
{
    let mut files = BTreeMap::new(alloc);
    let mut synced = Vec::new(alloc);
    let mut i = calls.len();
    'calls: while i > 0 {
        i -= 1;
        let event = &calls[i];
        synced.push(files.contains_key(&event.file))?;
        if matches!(event.change, Change::Sync) {
            files.insert(event.file, ())?;
        }
    }
    Ok(synced)
}

// Writes bytes at this offset, or at the file's end where that is before.
#[tactic(auto, using(crate::proofs::Picks::put_min))]
fn write_in(
    alloc: Global,
    files: &mut BTreeMap<u64, Octets>,
    file: u64,
    at: u64,
    bytes: &[u8],
) -> Result<(), NoMemory>
    ensures { OnOk result ((n : ℕ) → tree.get nat_cmp files.new n ≡ (if file == n then Some (put (bytes_of (tree.get nat_cmp files.old file)) at bytes.now) else tree.get nat_cmp files.old n)) }
{
    let Some(octets) = files.get_mut(&file) else {
        files.insert(file, Octets::from_slice(alloc, bytes)?)?;
        return Ok(());
    };
    let at = octets.len().min(at as usize);
    octets.write_at(at, bytes)
}

// Shortens a file that is there.
fn cut_in(
    alloc: Global,
    files: &mut BTreeMap<u64, Octets>,
    file: u64,
    to: u64,
) -> Result<(), NoMemory>
    ensures { OnOk result ((n : ℕ) → tree.get nat_cmp files.new n ≡ (if file == n then shortened to (tree.get nat_cmp files.old file) else tree.get nat_cmp files.old n)) }
{
    let Some(octets) = files.get(&file) else {
        return Ok(());
    };
    let old = octets.as_slice();
    let len = old.len().min(to as usize);
    let next = Octets::from_slice(alloc, &old[..len])?;
    files.insert(file, next)?;
    Ok(())
}

// Does a call, of whose file a sync follows.
fn make(alloc: Global, files: &mut BTreeMap<u64, Octets>, event: &Event) -> Result<(), NoMemory>
    ensures { OnOk result ((n : ℕ) → LeavesIf (event.now.file == n) true event.now.change (tree.get nat_cmp files.old n) (tree.get nat_cmp files.new n)) }
{
    match &event.change {
        Change::Write(at, bytes) => write_in(alloc, files, event.file, *at, bytes.as_slice()),
        Change::Cut(to) => cut_in(alloc, files, event.file, *to),
        Change::Remove => {
            let _ = files.remove(&event.file);
            Ok(())
        }
        Change::Sync | Change::Look => Ok(()),
    }
}

// Writes no more bytes than a write had.
#[tactic(auto, using(crate::proofs::Picks::torn_part))]
fn write_part(
    alloc: Global,
    files: &mut BTreeMap<u64, Octets>,
    file: u64,
    at: u64,
    part: &[u8],
    bytes: &[u8],
) -> Result<(), NoMemory>
    requires { length part.now ≤ length bytes.now }
    ensures { OnOk result ((n : ℕ) → LeavesIf (file == n) false (Change.Write at bytes.now) (tree.get nat_cmp files.old n) (tree.get nat_cmp files.new n)) }
{
    write_in(alloc, files, file, at, part)
}

// Leaves nothing of a write, all, its first half, or its range filled with ones.
#[tactic(auto, using(crate::proofs::Picks::torn_none))]
fn tear(
    alloc: Global,
    files: &mut BTreeMap<u64, Octets>,
    file: u64,
    at: u64,
    bytes: &[u8],
    way: u8,
) -> Result<(), NoMemory>
    ensures { OnOk result ((n : ℕ) → LeavesIf (file == n) false (Change.Write at bytes.now) (tree.get nat_cmp files.old n) (tree.get nat_cmp files.new n)) }
{
    match way {
        1 => write_part(alloc, files, file, at, bytes, bytes),
        2 => write_part(alloc, files, file, at, &bytes[..bytes.len() / 2], bytes),
        3 => {
            let ones = vec![in alloc; 1u8; bytes.len()]?;
            write_part(alloc, files, file, at, ones.as_slice(), bytes)
        }
        _ => Ok(()),
    }
}

// Leaves of a call, of whose file no sync follows, what a crash may leave: of a cut nothing, and of a removal all.
#[tactic(auto, using(crate::proofs::Picks::cut_none))]
fn leave(
    alloc: Global,
    files: &mut BTreeMap<u64, Octets>,
    event: &Event,
    way: u8,
) -> Result<(), NoMemory>
    ensures { OnOk result ((n : ℕ) → LeavesIf (event.now.file == n) false event.now.change (tree.get nat_cmp files.old n) (tree.get nat_cmp files.new n)) }
{
    match &event.change {
        Change::Write(at, bytes) => tear(alloc, files, event.file, *at, bytes.as_slice(), way),
        Change::Remove => {
            let _ = files.remove(&event.file);
            Ok(())
        }
        Change::Cut(_) | Change::Sync | Change::Look => Ok(()),
    }
}

fn leave_or_make(
    alloc: Global,
    files: &mut BTreeMap<u64, Octets>,
    event: &Event,
    is_synced: bool,
    way: u8,
) -> Result<(), NoMemory>
    ensures { OnOk result ((n : ℕ) → LeavesIf (event.now.file == n) is_synced event.now.change (tree.get nat_cmp files.old n) (tree.get nat_cmp files.new n)) }
{
    if is_synced {
        make(alloc, files, event)
    } else {
        leave(alloc, files, event, way)
    }
}

// What is picked for the write of this number among those that are not yet stable, counted from 0.
fn way_of(pick: &[u8], number: u64) -> u8 {
    if pick.is_empty() {
        return 0;
    }
    pick[(number % pick.len() as u64) as usize]
}

// The files as a crash after these calls may leave them.
fn left_by(
    alloc: Global,
    start: &[FileBytes],
    calls: &[Event],
    pick: &[u8],
) -> Result<BTreeMap<u64, Octets>, NoMemory>
    ensures { IfOk result (λ files. (n : ℕ) → IsLeft n (listed start.now n) (reverse calls.now) (tree.get nat_cmp files n)) }
{
    let mut files = by_number(alloc, start)?;
    let mut synced = synced_after(alloc, calls)?;
    let mut torn = 0u64;
    for event in calls {
        let is_synced = synced.pop().unwrap_or(false);
        let way = way_of(pick, torn);
        leave_or_make(alloc, &mut files, event, is_synced, way)?;
        if !is_synced && matches!(event.change, Change::Write(_, _)) {
            torn = torn.saturating_add(1);
        }
    }
    Ok(files)
}

fn list_of(alloc: Global, files: BTreeMap<u64, Octets>) -> Result<Vec<FileBytes>, NoMemory>
    ensures { IfOk result (λ list. (n : ℕ) → listed list.items n ≡ tree.get nat_cmp files n) }
{
    let mut list = Vec::new(alloc);
    for (file, bytes) in files {
        list.push(FileBytes { file, bytes })?;
    }
    Ok(list)
}

/// The files as a crash after these calls may leave them.
pub fn images_of(
    alloc: Global,
    start: &[FileBytes],
    calls: &[Event],
    pick: &[u8],
) -> Result<Vec<FileBytes>, NoMemory>
    ensures { IfOk result (λ images. (n : ℕ) → IsLeft n (listed start.now n) (reverse calls.now) (listed images.items n)) }
{
    let files = left_by(alloc, start, calls, pick)?;
    list_of(alloc, files)
}
