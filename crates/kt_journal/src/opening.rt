//! Opening a log.
ghost use Rattle.std.specs.Prelude.{◌≡◌, ◌≢◌, ◌+◌, ◌^◌, ◌<◌, ◌≤◌, ℕ, List, [], ◌∷◌, map, IsTrue, None, Ok, Err, length, OnOk, IfOk};
ghost use Rattle.std.specs.List.{flat_map};
ghost use Rattle.kt_base.specs.Causes.{Rose, HasCause};
ghost use Rattle.kt_disk.specs.Disk.{Files, held, Same, Turns, LeavesOnly, ButFiles};
ghost use Rattle.kt_records.specs.Spelling.{spelling};
ghost use Rattle.kt_journal.specs.Frames.{frame, AllFit, sound, frames_of, payloads_of, Settled, IsShort, IsSteady, IsFrom, EndsAt};
ghost use Rattle.kt_journal.specs.Log.{log_in, log_of, records_of, IsLog, Holds, IsOf, CanOpen, CanOpenFile};
ghost use Rattle.kt_journal.specs.Open.{Stands};

use crate::LOG;
use crate::reading::read_log;
use crate::refusal::JournalNo;
use kt_base::Failed;
use kt_disk::Disk;
use kt_records::LogRecords;
use std::alloc::Global;

// Makes the log's file stable where it is there.
fn steady<L: Disk>(alloc: Global, disk: &mut L, file: u64) -> Result<(), JournalNo>
    requires absent { IsTrue L.tells → L.seen disk.old file ≡ None → (c : Files) → L.leaves disk.old (L.now disk.old) c → length (held c file) ≤ 1 }
    ensures steady { OnOk result (IsTrue L.tells → IsSteady L.seen L.now L.leaves file disk.new) }
    ensures seen { OnOk result (IsTrue L.tells → L.seen disk.new ≡ L.seen disk.old) }
    ensures others { IsTrue L.tells → (n : ℕ) → n ≢ file → L.seen disk.new n ≡ L.seen disk.old n }
    ensures images { IsTrue L.tells → Turns L.now L.leaves Same disk.old disk.new }
    ensures place { (offset : _) → result ≡ Err (JournalNo.Place offset) → ⊥ }
    ensures fault { result ≡ Err JournalNo.Fault → Rose (L.faults disk.old) (L.faults disk.new) }
    ensures faults { L.faults disk.old ≤ L.faults disk.new }
{
    let found = disk.files(alloc)?;
    if found.as_slice().contains(&file) {
        disk.sync(file)?;
    }
    Ok(())
}

// All the bytes of the log's file.
fn log_bytes<L: Disk>(alloc: Global, disk: &mut L, file: u64) -> Result<Vec<u8>, JournalNo>
    ensures bytes { IfOk result (λ bytes. IsTrue L.tells → bytes.items ≡ held (L.seen disk.old) file) }
    ensures seen { IsTrue L.tells → L.seen disk.new ≡ L.seen disk.old }
    ensures images { IsTrue L.tells → Turns L.now L.leaves Same disk.old disk.new }
    ensures place { (offset : _) → result ≡ Err (JournalNo.Place offset) → ⊥ }
    ensures fault { result ≡ Err JournalNo.Fault → Rose (L.faults disk.old) (L.faults disk.new) }
    ensures faults { L.faults disk.old ≤ L.faults disk.new }
{
    let len = disk.len(file)?;
    let mut bytes = vec![in alloc; 0; len as usize]?;
    disk.read(file, 0, bytes.as_mut_slice())?;
    Ok(bytes)
}

// Writes a closed gate where the frames of a short file end.
fn shut_end<L: Disk>(disk: &mut L, file: u64, end: u64) -> Result<(), Failed>
    requires short { IsTrue L.tells → IsShort (payloads_of file (L.seen disk.old)) (L.seen disk.old file) }
    requires end { IsTrue L.tells → end ≡ length (flat_map frame (payloads_of file (L.seen disk.old))) }
    requires fit { IsTrue L.tells → AllFit (payloads_of file (L.seen disk.old)) }
    requires images { IsTrue L.tells → (c : Files) → L.leaves disk.old (L.now disk.old) c → IsShort (payloads_of file (L.seen disk.old)) (c file) }
    ensures settled { OnOk result (IsTrue L.tells → Settled L.seen L.now L.leaves file disk.new end × (payloads_of file (L.seen disk.new) ≡ payloads_of file (L.seen disk.old))) }
    ensures openable { IsTrue L.tells → CanOpenFile L.now L.leaves file disk.old → CanOpenFile L.now L.leaves file disk.new }
    ensures any_moment { IsTrue L.tells → LeavesOnly L.now L.leaves (λ c. frames_of file c ≡ sound (payloads_of file (L.seen disk.old))) disk.old disk.new }
    ensures others { IsTrue L.tells → (n : ℕ) → n ≢ file → L.seen disk.new n ≡ L.seen disk.old n }
    ensures elsewhere { IsTrue L.tells → LeavesOnly L.now L.leaves (ButFiles L.now L.leaves disk.old (file ∷ [])) disk.old disk.new }
    ensures cause { HasCause (L.faults disk.old) (L.faults disk.new) result }
{
    disk.write_at(file, end, &[0])?;
    disk.sync(file)?;
    Ok(())
}

// Sees to it that a closed gate stands at the end of a log of this length.
fn shut_log<L: Disk>(disk: &mut L, file: u64, len: usize, place: usize) -> Result<(), Failed>
    requires len { IsTrue L.tells → len ≡ length (held (L.seen disk.old) file) }
    requires ends { IsTrue L.tells → EndsAt (held (L.seen disk.old) file) (payloads_of file (L.seen disk.old)) place }
    requires steady { IsTrue L.tells → IsSteady L.seen L.now L.leaves file disk.old }
    ensures settled { OnOk result (IsTrue L.tells → Settled L.seen L.now L.leaves file disk.new place × (payloads_of file (L.seen disk.new) ≡ payloads_of file (L.seen disk.old))) }
    ensures openable { IsTrue L.tells → CanOpenFile L.now L.leaves file disk.old → CanOpenFile L.now L.leaves file disk.new }
    ensures any_moment { IsTrue L.tells → LeavesOnly L.now L.leaves (λ c. frames_of file c ≡ sound (payloads_of file (L.seen disk.old))) disk.old disk.new }
    ensures others { IsTrue L.tells → (n : ℕ) → n ≢ file → L.seen disk.new n ≡ L.seen disk.old n }
    ensures elsewhere { IsTrue L.tells → LeavesOnly L.now L.leaves (ButFiles L.now L.leaves disk.old (file ∷ [])) disk.old disk.new }
    ensures cause { HasCause (L.faults disk.old) (L.faults disk.new) result }
{
    if len.saturating_sub(place) <= 1 {
        return shut_end(disk, file, place as u64);
    }
    Ok(())
}

// Reads the log, makes the closed gate at its end stable, and says where that is.
fn open_frames<L: Disk>(
    alloc: Global,
    disk: &mut L,
    file: u64,
) -> Result<(u64, LogRecords), JournalNo>
    requires absent { IsTrue L.tells → L.seen disk.old file ≡ None → (c : Files) → L.leaves disk.old (L.now disk.old) c → length (held c file) ≤ 1 }
    ensures room { IfOk result (λ opened. opened.0 + 1 < 2 ^ 64) }
    ensures below { IfOk result (λ opened. length opened.1 ≤ opened.0) }
    ensures sound { IfOk result (λ opened. IsLog opened.1) }
    ensures reads { IfOk result (λ opened. IsTrue L.tells → frames_of file (L.seen disk.old) ≡ sound (map spelling opened.1)) }
    ensures settled { IfOk result (λ opened. IsTrue L.tells → Settled L.seen L.now L.leaves file disk.new opened.0 × (payloads_of file (L.seen disk.new) ≡ map spelling opened.1)) }

    ensures openable { IsTrue L.tells → CanOpenFile L.now L.leaves file disk.old → CanOpenFile L.now L.leaves file disk.new }
    ensures others { IsTrue L.tells → (n : ℕ) → n ≢ file → L.seen disk.new n ≡ L.seen disk.old n }
    ensures any_moment { IsTrue L.tells → LeavesOnly L.now L.leaves (IsFrom L.now L.leaves file disk.old) disk.old disk.new }

    ensures place { (offset : _) → result ≡ Err (JournalNo.Place offset) → IsTrue L.tells → log_in (held (L.seen disk.old) file) ≡ Err offset }
    ensures fault { result ≡ Err JournalNo.Fault → Rose (L.faults disk.old) (L.faults disk.new) }
    ensures faults { L.faults disk.old ≤ L.faults disk.new }
{
    steady(alloc, disk, file)?;
    let bytes = log_bytes(alloc, disk, file)?;
    let (records, place) = read_log(alloc, bytes.as_slice())?;
    shut_log(disk, file, bytes.len(), place)?;
    Ok((place as u64, records))
}

/// Opens the log of a device: its records, and where they end.
pub fn open_log<L: Disk>(alloc: Global, disk: &mut L) -> Result<(u64, LogRecords), JournalNo>
    requires absent { IsTrue L.tells → L.seen disk.old 1 ≡ None → (c : Files) → L.leaves disk.old (L.now disk.old) c → length (held c 1) ≤ 1 }
    ensures room { IfOk result (λ opened. opened.0 + 1 < 2 ^ 64) }
    ensures below { IfOk result (λ opened. length opened.1 ≤ opened.0) }
    ensures sound { IfOk result (λ opened. IsLog opened.1) }
    ensures reads { IfOk result (λ opened. IsTrue L.tells → log_of (L.seen disk.old) ≡ Ok opened.1) }
    ensures stands { IfOk result (λ opened. IsTrue L.tells → Stands L.seen L.now L.leaves disk.new opened.0 (records_of (L.seen disk.new)) × (records_of (L.seen disk.new) ≡ opened.1)) }
    ensures holds { IfOk result (λ opened. IsTrue L.tells → Holds L.now L.leaves disk.new opened.1) }

    ensures openable { IsTrue L.tells → CanOpen L.now L.leaves disk.old → CanOpen L.now L.leaves disk.new }
    ensures others { IsTrue L.tells → (n : ℕ) → n ≢ 1 → L.seen disk.new n ≡ L.seen disk.old n }

    // A crash at any moment of the call leaves the frames, the records and the other files of an image from before it.
    ensures frames { IsTrue L.tells → LeavesOnly L.now L.leaves (IsFrom L.now L.leaves 1 disk.old) disk.old disk.new }
    ensures any_moment { IsTrue L.tells → LeavesOnly L.now L.leaves (IsOf L.now L.leaves disk.old) disk.old disk.new }

    ensures place { (offset : _) → result ≡ Err (JournalNo.Place offset) → IsTrue L.tells → log_of (L.seen disk.old) ≡ Err offset }
    ensures fault { result ≡ Err JournalNo.Fault → Rose (L.faults disk.old) (L.faults disk.new) }
    ensures faults { L.faults disk.old ≤ L.faults disk.new }
{
    open_frames(alloc, disk, LOG)
}
