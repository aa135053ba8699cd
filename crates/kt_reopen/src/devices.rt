//! What the slots and the log say, before any data file is read.
ghost use Rattle.std.specs.Prelude.{◌≡◌, ◌≢◌, ◌≤◌, [], ℕ, length, IsTrue, Ok, Err, None, IfOk, IfErr, OnOk, IfSome};
ghost use Rattle.std.specs.Option.{option_copied};
ghost use Rattle.kt_disk.specs.Disk.{LeavesOnly, Same, Turns};
ghost use Rattle.kt_journal.specs.Frames.{IsFrom};
ghost use Rattle.kt_journal.specs.Log.{log_of, records_of, Holds, IsLog, CanOpen};
ghost use Rattle.kt_super.specs.Body.{IsMeta};
ghost use Rattle.kt_super.specs.Slots.{super_of, AreStable};
ghost use Rattle.kt_reopen.specs.Both.{read_both, count_why, fault_why};
ghost use Rattle.kt_reopen.specs.Opened.{OneRose};
ghost use Rattle.kt_reopen.specs.Refusal.{log_why};

use crate::why::Why;
use kt_disk::Disk;
use kt_journal::{Journal, JournalNo, open_journal};
use kt_records::LogRecords;
use kt_super::{Meta, load};
use std::alloc::Global;

/// The open log with its records, and the superblock, if there is one.
#[derive(Drop)]
pub struct BothRead<L: Disk> {
    pub journal: Journal<L>,
    pub records: LogRecords,
    pub meta: Option<Meta>,
}

// A fault of the log. Without a superblock one that lies behind the first frame is no matter, since that frame is a record.
fn fault_why(meta: Option<&Meta>, offset: u64) -> Why
    ensures { result ≡ fault_why (option_copied meta.entry) offset }
{
    if meta.is_some() || offset == 0 {
        Why::B3 { offset }
    } else {
        Why::B1 { slot: 1, offset: 0 }
    }
}

// Why a log was not given.
fn log_why(meta: Option<&Meta>, no: JournalNo) -> Why
    ensures { result ≡ log_why (option_copied meta.entry) no }
{
    match no {
        JournalNo::Place { offset } => fault_why(meta, offset),
        JournalNo::Fault => Why::Fault,
        JournalNo::Memory => Why::Memory,
    }
}

// Why a superblock and a log without a fault do not go together, by the count of records.
fn count_why(meta: Option<&Meta>, found: u64) -> Option<Why>
    ensures { result ≡ count_why (option_copied meta.entry) found }
{
    match meta {
        Some(meta) => (found < meta.need).then_some(Why::B4 {
            need: meta.need,
            found,
        }),
        None => (found > 0).then_some(Why::B1 { slot: 1, offset: 0 }),
    }
}

/// Reads the slots of a store and the log. The slots are stable then, and the log may go on. Where a slot is at fault the log is
/// not touched.
pub fn read_devices<L: Disk, D: Disk>(
    alloc: Global,
    log: L,
    store: &mut D,
) -> Result<BothRead<L>, (L, Why)>
    requires openable { IsTrue L.tells → CanOpen L.now L.leaves log }

    ensures found { IfOk result (λ r. IsTrue L.tells → IsTrue D.tells → read_both (super_of (D.seen store.old)) (log_of (L.seen log)) ≡ Ok (r.meta, r.records)) }
    ensures refused { IfErr result (λ e. e.1 ≢ Why.Fault → e.1 ≢ Why.Memory → IsTrue L.tells → IsTrue D.tells → read_both (super_of (D.seen store.old)) (log_of (L.seen log)) ≡ Err e.1) }
    ensures fault { IfErr result (λ e. e.1 ≡ Why.Fault → OneRose (L.faults log) (L.faults e.0) (D.faults store.old) (D.faults store.new)) }

    // Where there is no superblock there is no record.
    ensures bare { IfOk result (λ r. r.meta ≡ None → r.records ≡ []) }

    // The log, with its records.
    ensures usable { IfOk result (λ r. IsTrue r.journal.usable × (r.journal.count ≡ length r.records)) }
    ensures sound { IfOk result (λ r. IsLog r.records) }
    ensures records { IfOk result (λ r. IsTrue L.tells → log_of (L.seen log) ≡ Ok r.records) }
    ensures reads { IfOk result (λ r. IsTrue L.tells → records_of (L.seen r.journal.disk) ≡ r.records) }
    ensures durable { IfOk result (λ r. IsTrue L.tells → Holds L.now L.leaves r.journal.disk r.records) }
    ensures openable { IfOk result (λ r. IsTrue L.tells → CanOpen L.now L.leaves r.journal.disk) }
    ensures openable_err { IfErr result (λ e. IsTrue L.tells → CanOpen L.now L.leaves e.0) }
    ensures others { IfOk result (λ r. IsTrue L.tells → (n : ℕ) → n ≢ 1 → L.seen r.journal.disk n ≡ L.seen log n) }
    ensures others_err { IfErr result (λ e. IsTrue L.tells → (n : ℕ) → n ≢ 1 → L.seen e.0 n ≡ L.seen log n) }
    ensures frames { IfOk result (λ r. IsTrue L.tells → LeavesOnly L.now L.leaves (IsFrom L.now L.leaves 1 log) log r.journal.disk) }
    ensures frames_err { IfErr result (λ e. IsTrue L.tells → LeavesOnly L.now L.leaves (IsFrom L.now L.leaves 1 log) log e.0) }
    ensures log_faults { IfOk result (λ r. L.faults log ≤ L.faults r.journal.disk) }
    ensures log_faults_err { IfErr result (λ e. L.faults log ≤ L.faults e.0) }

    // The store, with its superblock.
    ensures slots { IfOk result (λ r. IsTrue D.tells → super_of (D.seen store.new) ≡ Ok r.meta) }
    ensures rules { IfOk result (λ r. IfSome r.meta IsMeta) }
    ensures stable { OnOk result (IsTrue D.tells → AreStable D.seen D.now D.leaves store.new) }
    ensures seen { OnOk result (IsTrue D.tells → D.seen store.new ≡ D.seen store.old) }
    ensures images { IsTrue D.tells → Turns D.now D.leaves Same store.old store.new }
    ensures store_faults { D.faults store.old ≤ D.faults store.new }
{
    let meta = match load(alloc, store) {
        Ok(meta) => meta,
        Err(no) => return Err((log, Why::from(no))),
    };
    let (journal, records) = match open_journal(alloc, log) {
        Ok(opened) => opened,
        Err((log, no)) => return Err((log, log_why(meta.as_ref(), no))),
    };
    match count_why(meta.as_ref(), records.len() as u64) {
        None => Ok(BothRead {
            journal,
            records,
            meta,
        }),
        Some(why) => Err((journal.into_disk(), why)),
    }
}
