//! The four calls of an append.
ghost use Rattle.std.specs.Prelude.{◌≡◌, ◌≢◌, ◌+◌, ◌++◌, ◌^◌, ◌<◌, ◌≤◌, [], ◌∷◌, IsTrue, List, ℕ, map, length, Ok, Err, OnOk, IfOk, IfSome};
ghost use Rattle.std.specs.List.{All};
ghost use Rattle.kt_base.specs.Causes.{Rose, HasCause};
ghost use Rattle.kt_disk.specs.Disk.{LeavesOnly, ButFiles};
ghost use Rattle.kt_records.specs.Spelling.{spelling};
ghost use Rattle.kt_journal.specs.Frames.{payloads_of, Settled, IsBatch, IsEither};
ghost use Rattle.kt_journal.specs.Order.{IsFramed};
ghost use Rattle.kt_journal.specs.Log.{records_of, IsLog, Holds, IsOldOrBoth, CanOpen};
ghost use Rattle.kt_journal.specs.Open.{Stands};

use crate::LOG;
use crate::refusal::AppendNo;
use crate::spell::spell_batch;
use kt_base::{Failed, Octets};
use kt_disk::Disk;
use kt_records::Entry;
use std::alloc::Global;

// Writes a batch behind the closed gate at `end`, and then opens that gate.
fn publish<L: Disk>(disk: &mut L, file: u64, end: u64, batch: &[u8]) -> Result<(), Failed>
    requires room { end + 1 < 2 ^ 64 }
    requires settled { IsTrue L.tells → Settled L.seen L.now L.leaves file disk.old end }
    ensures stable { OnOk result (IsTrue L.tells → (new : List (List ℕ)) → IsBatch batch.now new
        → Settled L.seen L.now L.leaves file disk.new (end + length batch.now) × (payloads_of file (L.seen disk.new) ≡ payloads_of file (L.seen disk.old) ++ new)) }
    ensures others { IsTrue L.tells → (n : ℕ) → n ≢ file → L.seen disk.new n ≡ L.seen disk.old n }
    ensures any_moment { IsTrue L.tells → (new : List (List ℕ)) → IsBatch batch.now new
        → LeavesOnly L.now L.leaves (λ c. IsEither (payloads_of file (L.seen disk.old)) new (c file)) disk.old disk.new }
    ensures elsewhere { IsTrue L.tells → LeavesOnly L.now L.leaves (ButFiles L.now L.leaves disk.old (file ∷ [])) disk.old disk.new }
    ensures cause { HasCause (L.faults disk.old) (L.faults disk.new) result }
{
    disk.write_at(file, end + 1, batch)?;
    disk.sync(file)?;
    disk.write_at(file, end, &[1])?;
    disk.sync(file)?;
    Ok(())
}

// The place so many bytes on, where a device may reach it.
fn place_after(place: u64, len: usize) -> Option<u64>
    ensures { IfSome result (λ end. (end ≡ place + len) × (end + 1 < 2 ^ 64)) }
{
    let end = place.checked_add(len as u64)?;
    if end == u64::MAX { None } else { Some(end) }
}

// Adds the frames of these records to those that end at `end`, and says where they end then. They are spelled in the buffer.
fn append_frames<L: Disk>(
    alloc: Global,
    buffer: &mut Octets,
    disk: &mut L,
    file: u64,
    end: u64,
    records: &[Entry],
) -> Result<u64, AppendNo>
    requires room { end + 1 < 2 ^ 64 }
    requires settled { IsTrue L.tells → Settled L.seen L.now L.leaves file disk.old end }
    requires framed { All IsFramed records.now }
    ensures end { IfOk result (λ next. (end + length records.now ≤ next) × (next + 1 < 2 ^ 64)) }
    ensures settled { IfOk result (λ next. IsTrue L.tells → Settled L.seen L.now L.leaves file disk.new next
        × (payloads_of file (L.seen disk.new) ≡ payloads_of file (L.seen disk.old) ++ map spelling records.now)) }
    ensures others { IsTrue L.tells → (n : ℕ) → n ≢ file → L.seen disk.new n ≡ L.seen disk.old n }
    ensures any_moment { IsTrue L.tells → LeavesOnly L.now L.leaves (λ c. IsEither (payloads_of file (L.seen disk.old)) (map spelling records.now) (c file)) disk.old disk.new }
    ensures elsewhere { IsTrue L.tells → LeavesOnly L.now L.leaves (ButFiles L.now L.leaves disk.old (file ∷ [])) disk.old disk.new }
    ensures empty { records.now ≡ [] → (result ≡ Ok end) × (disk.new ≡ disk.old) }
    ensures memory { result ≡ Err AppendNo.Memory → disk.new ≡ disk.old }
    ensures fault { result ≡ Err AppendNo.Fault → Rose (L.faults disk.old) (L.faults disk.new) }
    ensures faults { L.faults disk.old ≤ L.faults disk.new }
{
    if records.is_empty() {
        return Ok(end);
    }
    spell_batch(alloc, buffer, records)?;
    let batch = &buffer.as_slice()[1..];
    let Some(next) = place_after(end, batch.len()) else {
        return Err(AppendNo::Memory);
    };
    match publish(disk, file, end, batch) {
        Ok(()) => Ok(next),
        Err(Failed) => Err(AppendNo::Fault),
    }
}

/// Adds these records to the log that ends at `end`, and says where it ends then. They are spelled in the buffer.
pub fn append<L: Disk>(
    alloc: Global,
    buffer: &mut Octets,
    disk: &mut L,
    end: u64,
    records: &[Entry],
) -> Result<u64, AppendNo>
    requires room { end + 1 < 2 ^ 64 }
    requires framed { All IsFramed records.now }
    requires stands { IsTrue L.tells → Stands L.seen L.now L.leaves disk.old end (records_of (L.seen disk.old)) }
    requires in_order { IsTrue L.tells → IsLog (records_of (L.seen disk.old) ++ records.now) }
    ensures end { IfOk result (λ next. (end + length records.now ≤ next) × (next + 1 < 2 ^ 64)) }
    ensures stands { IfOk result (λ next. IsTrue L.tells → Stands L.seen L.now L.leaves disk.new next (records_of (L.seen disk.new))
        × (records_of (L.seen disk.new) ≡ records_of (L.seen disk.old) ++ records.now)) }
    ensures holds { OnOk result (IsTrue L.tells → Holds L.now L.leaves disk.new (records_of (L.seen disk.new))) }
    ensures others { IsTrue L.tells → (n : ℕ) → n ≢ 1 → L.seen disk.new n ≡ L.seen disk.old n }
    ensures any_moment { IsTrue L.tells → LeavesOnly L.now L.leaves (λ c. IsOldOrBoth (records_of (L.seen disk.old)) records.now (c 1)) disk.old disk.new }
    ensures elsewhere { IsTrue L.tells → LeavesOnly L.now L.leaves (ButFiles L.now L.leaves disk.old (1 ∷ [])) disk.old disk.new }
    ensures openable { IsTrue L.tells → CanOpen L.now L.leaves disk.new }
    ensures empty { records.now ≡ [] → (result ≡ Ok end) × (disk.new ≡ disk.old) }
    ensures memory { result ≡ Err AppendNo.Memory → disk.new ≡ disk.old }
    ensures fault { result ≡ Err AppendNo.Fault → Rose (L.faults disk.old) (L.faults disk.new) }
    ensures faults { L.faults disk.old ≤ L.faults disk.new }
{
    append_frames(alloc, buffer, disk, LOG, end, records)
}
