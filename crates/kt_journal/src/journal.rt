//! An open log.
ghost use Rattle.std.specs.Prelude.{◌≡◌, ◌≢◌, ◌+◌, ◌++◌, ◌<◌, ◌≤◌, ℕ, [], ◌∷◌, IsTrue, true, length, List, Ok, Err, IsOk, OnOk, IfOk, IfErr};
ghost use Rattle.std.specs.List.{All};
ghost use Rattle.kt_base.specs.Causes.{Rose};
ghost use Rattle.kt_disk.specs.Disk.{LeavesOnly, ButFiles};
ghost use Rattle.kt_journal.specs.Frames.{IsFrom};
ghost use Rattle.kt_journal.specs.Order.{IsFramed};
ghost use Rattle.kt_journal.specs.Log.{log_of, records_of, IsLog, Holds, IsOldOrBoth, IsOf, CanOpen};

use crate::append::append;
use crate::opening::open_log;
use crate::refusal::{AppendNo, JournalNo};
use kt_base::Octets;
use kt_disk::Disk;
use kt_records::{LogRecords, RecordList};
use std::alloc::Global;
use std::marker::Model;

/// The log on its device, with all that was appended made durable.
#[derive(Drop)]
pub struct Journal<L: Disk> {
    // where a batch is spelled
    buffer: Octets,
    disk: L,
    end: u64,
    count: u64,
    usable: bool,
}

impl<L: Disk> Model for Journal<L> {
    ghost use Rattle.kt_journal.specs.Open.{JournalView, IsSound};

    ghost Value = { JournalView L };

    ghost view = { λ j. record { disk = j.disk; count = j.count; usable = j.usable } };

    ghost invariant = { λ j. IsSound L.tells L.seen L.now L.leaves j.disk j.end j.count j.usable };
}

impl<L: Disk> Journal<L> {
    /// Adds these records. At `Ok` they are durable. After `Memory` nothing was written, and after `Fault`
    /// the log has to be opened again.
    pub fn append_batch(&mut self, alloc: Global, records: &RecordList) -> Result<(), AppendNo>
        requires usable { IsTrue self.old.usable }
        requires framed { All IsFramed records.now }
        requires in_order { IsTrue L.tells → IsLog (records_of (L.seen self.old.disk) ++ records.now) }

        ensures usable { OnOk result (IsTrue self.new.usable) }
        ensures count { OnOk result (self.new.count ≡ self.old.count + length records.now) }
        ensures records { OnOk result (IsTrue L.tells → records_of (L.seen self.new.disk) ≡ records_of (L.seen self.old.disk) ++ records.now) }
        ensures durable { OnOk result (IsTrue L.tells → Holds L.now L.leaves self.new.disk (records_of (L.seen self.new.disk))) }

        // A crash at any moment of the call leaves the old records, or the old and the new.
        ensures any_moment { IsTrue L.tells → LeavesOnly L.now L.leaves (λ c. IsOldOrBoth (records_of (L.seen self.old.disk)) records.now (c 1)) self.old.disk self.new.disk }

        // All other files read as before, and a crash at any moment of the call leaves them as one before it might have.
        ensures others { IsTrue L.tells → (n : ℕ) → n ≢ 1 → L.seen self.new.disk n ≡ L.seen self.old.disk n }
        ensures elsewhere { IsTrue L.tells → LeavesOnly L.now L.leaves (ButFiles L.now L.leaves self.old.disk (1 ∷ [])) self.old.disk self.new.disk }

        // The device may be opened again, whatever the answer.
        ensures openable { IsTrue L.tells → CanOpen L.now L.leaves self.new.disk }

        ensures empty { records.now ≡ [] → IsOk result × (self.new.disk ≡ self.old.disk) }
        ensures memory { result ≡ Err AppendNo.Memory → self.new ≡ self.old }
        ensures fault { result ≡ Err AppendNo.Fault → Rose (L.faults self.old.disk) (L.faults self.new.disk) }
        ensures faults { L.faults self.old.disk ≤ L.faults self.new.disk }
    {
        match append(
            alloc,
            &mut self.buffer,
            &mut self.disk,
            self.end,
            records.as_slice(),
        ) {
            Ok(end) => {
                self.end = end;
                self.count += records.len() as u64;
                Ok(())
            }
            Err(AppendNo::Memory) => Err(AppendNo::Memory),
            Err(AppendNo::Fault) => {
                self.usable = false;
                Err(AppendNo::Fault)
            }
        }
    }

    /// How many records are durable.
    pub fn count(&self) -> u64
        ensures count { result ≡ self.now.count }
        ensures durable { IsTrue L.tells → IsTrue self.now.usable → result ≡ length (records_of (L.seen self.now.disk)) }
    {
        self.count
    }

    pub fn into_disk(self) -> L
        ensures { result ≡ self.disk }
    {
        let Journal {
            buffer: _,
            disk,
            end: _,
            count: _,
            usable: _,
        } = self;
        disk
    }
}

/// Opens the log of a device. An `Err` hands the device back.
pub fn open_journal<L: Disk>(
    alloc: Global,
    mut disk: L,
) -> Result<(Journal<L>, LogRecords), (L, JournalNo)>
    requires openable { IsTrue L.tells → CanOpen L.now L.leaves disk }

    ensures usable { IfOk result (λ opened. IsTrue opened.0.usable × (opened.0.count ≡ length opened.1)) }
    ensures records { IfOk result (λ opened. IsTrue L.tells → log_of (L.seen disk) ≡ Ok opened.1) }
    ensures sound { IfOk result (λ opened. IsLog opened.1) }
    ensures reads { IfOk result (λ opened. IsTrue L.tells → records_of (L.seen opened.0.disk) ≡ opened.1) }
    ensures durable { IfOk result (λ opened. IsTrue L.tells → Holds L.now L.leaves opened.0.disk opened.1) }

    // The device may be opened again, whatever the answer.
    ensures openable { IfOk result (λ opened. IsTrue L.tells → CanOpen L.now L.leaves opened.0.disk) }
    ensures openable_err { IfErr result (λ e. IsTrue L.tells → CanOpen L.now L.leaves e.0) }

    // All other files read as before.
    ensures others { IfOk result (λ opened. IsTrue L.tells → (n : ℕ) → n ≢ 1 → L.seen opened.0.disk n ≡ L.seen disk n) }
    ensures others_err { IfErr result (λ e. IsTrue L.tells → (n : ℕ) → n ≢ 1 → L.seen e.0 n ≡ L.seen disk n) }

    // A crash at any moment of the call leaves the frames of the log, and all other files, of one image from before it.
    ensures frames { IfOk result (λ opened. IsTrue L.tells → LeavesOnly L.now L.leaves (IsFrom L.now L.leaves 1 disk) disk opened.0.disk) }
    ensures frames_err { IfErr result (λ e. IsTrue L.tells → LeavesOnly L.now L.leaves (IsFrom L.now L.leaves 1 disk) disk e.0) }

    // So it leaves the records of an image from before it.
    ensures any_moment { IfOk result (λ opened. IsTrue L.tells → LeavesOnly L.now L.leaves (IsOf L.now L.leaves disk) disk opened.0.disk) }
    ensures any_moment_err { IfErr result (λ e. IsTrue L.tells → LeavesOnly L.now L.leaves (IsOf L.now L.leaves disk) disk e.0) }

    ensures place { IfErr result (λ e. (offset : _) → e.1 ≡ JournalNo.Place offset → IsTrue L.tells → log_of (L.seen disk) ≡ Err offset) }
    ensures fault { IfErr result (λ e. e.1 ≡ JournalNo.Fault → Rose (L.faults disk) (L.faults e.0)) }
    ensures faults { IfOk result (λ opened. L.faults disk ≤ L.faults opened.0.disk) }
    ensures faults_err { IfErr result (λ e. L.faults disk ≤ L.faults e.0) }
{
    match open_log(alloc, &mut disk) {
        Ok((end, records)) => {
            let count = records.len() as u64;
            let journal = Journal {
                buffer: Octets::new(alloc),
                disk,
                end,
                count,
                usable: true,
            };
            Ok((journal, records))
        }
        Err(no) => Err((disk, no)),
    }
}
