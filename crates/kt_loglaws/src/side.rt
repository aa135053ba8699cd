//! The log of an engine, at home or lent, and the records that wait for it.
ghost use Rattle.std.specs.Prelude.{◌≡◌, ◌+◌, ◌-◌, ◌++◌, ◌^◌, ◌<◌, [], ◌∷◌, IsTrue, true, false, length, OnOk, OnErr, IfOk, IfErr, IfSome, Err, Some, None, ◌↔◌, ℕ, ◌≤◌, vec_len, vec_capacity};
ghost use Rattle.kt_disk.specs.Disk.{LeavesOnly};
ghost use Rattle.kt_journal.specs.Log.{records_of, Holds, IsOldOrBoth};
ghost use Rattle.kt_journal.specs.Open.{JournalView};
ghost use Rattle.kt_loglaws.specs.Appended.{AreOfLogged, WasAppended};
ghost use Rattle.kt_loglaws.specs.Side.{all_of};

use kt_base::NoMemory;
use kt_disk::Disk;
use kt_journal::Journal;
use kt_records::{Entry, RecordList};
use std::alloc::{AllocError, Global};
use std::marker::Model;
use std::mem;
use std::snapshot::Snapshot;
use thiserror::Error;

/// The log, lent to a pass, and the records that it is to append.
#[derive(Drop)]
pub struct Batch<L: Disk> {
    pub journal: Journal<L>,
    pub records: RecordList,
}

/// Why the log is not lent.
#[derive(Clone, Copy, Debug, PartialEq, Eq, Error)]
pub enum LogNo {
    /// This pass has it out.
    #[error("pass {by} has the log out")]
    Out { by: u32 },
    /// Nothing is queued.
    #[error("nothing is queued")]
    Empty,
    /// There was no memory.
    #[error("out of memory")]
    Memory,
}

impl From<AllocError> for LogNo {
    ghost use Rattle.std.specs.Prelude.{◌≡◌};
    ghost use Rattle.kt_loglaws.specs.declared.side.LogNo.TheVariants.{Memory};

    ghost from_gives = { λ _ e. e ≡ Memory };

    fn from(_: AllocError) -> Self {
        LogNo::Memory
    }
}

/// The log and its queue.
#[derive(Drop)]
pub struct LogSide<L: Disk> {
    journal: Option<Journal<L>>,
    by: u32,
    whole: bool,
    durable: u64,
    out: usize,
    queue: Vec<Entry>,
    // what a batch that is done leaves of its memory
    spare: Vec<Entry>,
    room: usize,
    lent: Snapshot<Journal<L>>,
    sent: Snapshot<RecordList>,
    first: Snapshot<Journal<L>>,
}

impl<L: Disk> Model for LogSide<L> {
    ghost use Rattle.std.specs.Prelude.{vec_len, vec_capacity};
    ghost use Rattle.kt_loglaws.specs.Side.{SideView, IsSide, IsGrown, known_in, out_in, holder_in};

    ghost Value = { SideView L };

    ghost view = { λ s. record { home = s.journal; known = known_in s.journal s.whole s.lent.value; holder = holder_in s.journal s.by; out = out_in s.journal s.whole s.sent.value; queued = s.queue.items; room = s.room; whole = s.whole; first = s.first.value.disk } };

    ghost invariant = { λ s. IsSide L.tells L.seen L.now L.leaves (known_in s.journal s.whole s.lent.value) (out_in s.journal s.whole s.sent.value) s.durable s.out (vec_len s.queue) s.room (vec_capacity s.queue) (vec_len s.spare)
        × IsGrown L.tells L.seen L.now L.leaves s.first.value.disk s.journal s.whole (known_in s.journal s.whole s.lent.value) (out_in s.journal s.whole s.sent.value) s.queue.items };
}

// The place of the last of so many records, where it is a number.
fn end_of(durable: u64, out: usize, queued: usize, room: usize) -> Option<u64>
    ensures { IfSome result (λ end. end ≡ durable + out + queued + room) }
{
    durable
        .checked_add(out as u64)?
        .checked_add(queued as u64)?
        .checked_add(room as u64)
}

// Takes all that is queued, and leaves room for it to come back, and for so many records more.
fn take_all(
    alloc: Global,
    queue: &mut Vec<Entry>,
    spare: &mut Vec<Entry>,
    room: usize,
) -> Result<RecordList, AllocError>
    requires fits { vec_len queue.old + room < 2 ^ 64 }
    requires bare { vec_len spare.old ≡ 0 }
    ensures taken { IfOk result (λ records. records ≡ queue.old.items) }
    ensures queue { OnOk result ((queue.new.items ≡ []) × (vec_len queue.new ≡ 0) × (vec_len queue.old + room ≤ vec_capacity queue.new)) }
    ensures bare { OnOk result (vec_len spare.new ≡ 0) }
    ensures stays { OnErr result ((queue.new ≡ queue.old) × (vec_len spare.new ≡ 0)) }
{
    spare.reserve(queue.len() + room)?;
    let fresh = mem::replace(spare, Vec::new(alloc));
    Ok(RecordList::of(mem::replace(queue, fresh)))
}

// Puts the log into its empty place.
fn settle<L: Disk>(place: &mut Option<Journal<L>>, journal: Journal<L>)
    requires { place.old ≡ None }
    ensures { place.new ≡ Some journal }
{
    match mem::replace(place, Some(journal)) {
        None => {}
        Some(_) => unreachable!(),
    }
}

impl<L: Disk> LogSide<L> {
    /// An open log and what is queued for it. For want of room all comes back.
    pub fn of(
        alloc: Global,
        journal: Journal<L>,
        queued: RecordList,
    ) -> Result<LogSide<L>, (Journal<L>, RecordList)>
        requires usable { IsTrue journal.usable }
        requires durable { IsTrue L.tells → Holds L.now L.leaves journal.disk (records_of (L.seen journal.disk)) }
        // Each COMMIT that is queued is of a write that stands in the log.
        requires of_logged { IsTrue L.tells → AreOfLogged (records_of (L.seen journal.disk)) queued }
        ensures side { IfOk result (λ side. side ≡ record { home = Some journal; known = journal; holder = None; out = []; queued = queued; room = 0; whole = true; first = journal.disk }) }
        ensures back { IfErr result (λ e. (e.0 ≡ journal) × (e.1 ≡ queued)) }
    {
        if end_of(journal.count(), 0, queued.len(), 0).is_none() {
            return Err((journal, queued));
        }
        Ok(LogSide {
            by: 0,
            whole: true,
            durable: journal.count(),
            out: 0,
            room: 0,
            spare: Vec::new(alloc),
            lent: Snapshot::of(&journal),
            sent: Snapshot::of(&queued),
            first: Snapshot::of(&journal),
            journal: Some(journal),
            queue: queued.into_vec(),
        })
    }

    /// How many records are durable.
    pub fn durable(&self) -> u64
        ensures count { result ≡ self.now.known.count }
        ensures held { IsTrue L.tells → Holds L.now L.leaves self.now.known.disk (records_of (L.seen self.now.known.disk)) }
    {
        self.durable
    }

    /// The log stands: since the side began nothing was done to it but appends, one batch behind another, and a crash at no moment left anything else than what
    /// was durable then, or that and the batch. All of it is durable unless the last append has failed.
    pub fn standing(&self)
        ensures moments { IsTrue L.tells → (journal : JournalView L) → self.now.home ≡ Some journal → WasAppended L.seen L.now L.leaves self.now.whole self.now.first journal.disk }
    {
        // The invariant of this very value says so.
        let _whole = self.whole;
    }

    /// The pass that has the log out. Where there is none the log is at home.
    pub fn by(&self) -> Option<u32>
        ensures holder { result ≡ self.now.holder }
        ensures home { self.now.holder ≡ None → (journal : JournalView L) × (self.now.home ≡ Some journal) }
    {
        if self.journal.is_none() {
            Some(self.by)
        } else {
            None
        }
    }

    /// How many records are queued.
    pub fn queued_len(&self) -> usize
        ensures { result ≡ length self.now.queued }
    {
        self.queue.len()
    }

    /// How many more records may be queued.
    pub fn room(&self) -> usize
        ensures { result ≡ self.now.room }
    {
        self.room
    }

    /// Makes room for so many records more, also for when a batch comes back.
    pub fn reserve(&mut self, n: usize) -> Result<(), NoMemory>
        ensures room { OnOk result (self.new ≡ record self.old { room = self.old.room + n }) }
        ensures memory { OnErr result (self.new ≡ self.old) }
    {
        let room = self.room.checked_add(n).ok_or(NoMemory)?;
        let more = self.out.checked_add(room).ok_or(NoMemory)?;
        let _end = end_of(self.durable, self.out, self.queue.len(), room).ok_or(NoMemory)?;
        self.queue.reserve(more)?;
        self.room = room;
        Ok(())
    }

    /// How many records there are: those that are durable, out and queued.
    pub fn count(&self) -> u64
        ensures { result ≡ self.now.known.count + length self.now.out + length self.now.queued }
    {
        self.durable + self.out as u64 + self.queue.len() as u64
    }

    /// The place that the next record will have among all records, counted from 1.
    pub fn next_place(&self) -> u64
        requires { 0 < self.now.room }
        ensures { result ≡ self.now.known.count + length self.now.out + length self.now.queued + 1 }
    {
        self.durable + self.out as u64 + self.queue.len() as u64 + 1
    }

    /// Queues a record in reserved room, and gives its place among all records, counted from 1.
    pub fn push(&mut self, entry: Entry) -> u64
        requires room { 0 < self.old.room }
        // A COMMIT is of a durable write.
        requires of_logged { IsTrue L.tells → AreOfLogged (records_of (L.seen self.old.known.disk)) (entry ∷ []) }
        ensures place { result ≡ self.old.known.count + length self.old.out + length self.old.queued + 1 }
        ensures queued { self.new ≡ record self.old { queued = self.old.queued ++ entry ∷ []; room = self.old.room - 1 } }
    {
        self.queue.push_reserved(entry);
        self.room -= 1;
        self.durable + self.out as u64 + self.queue.len() as u64
    }

    /// Lends the log and all that is queued to a pass.
    pub fn log_out(&mut self, alloc: Global, number: u32) -> Result<Batch<L>, LogNo>
        requires whole { IsTrue self.old.whole }
        ensures lent { IfOk result (λ batch. (self.old.home ≡ Some batch.journal) × (batch.records ≡ self.old.queued)
            × (self.new ≡ record self.old { home = None; holder = Some number; out = self.old.queued; queued = [] })) }
        ensures known { IfOk result (λ batch. (batch.journal ≡ self.old.known) × (self.old.out ≡ [])) }
        ensures usable { IfOk result (λ batch. IsTrue batch.journal.usable) }
        ensures out { (by : ℕ) → result ≡ Err (LogNo.Out by) ↔ self.old.holder ≡ Some by }
        ensures empty { result ≡ Err LogNo.Empty ↔ (self.old.holder ≡ None) × (self.old.queued ≡ []) }
        ensures stays { OnErr result (self.new ≡ self.old) }
    {
        if self.journal.is_none() {
            return Err(LogNo::Out { by: self.by });
        }
        if self.queue.is_empty() {
            return Err(LogNo::Empty);
        }
        let records = take_all(alloc, &mut self.queue, &mut self.spare, self.room)?;
        let Some(journal) = self.journal.take() else {
            unreachable!();
        };
        self.by = number;
        self.out = records.len();
        self.lent = Snapshot::of(&journal);
        self.sent = Snapshot::of(&records);
        Ok(Batch { journal, records })
    }

    /// Takes the log home after an append that was Ok: its records are durable.
    pub fn log_home(&mut self, number: u32, batch: Batch<L>)
        requires out { self.old.holder ≡ Some number }
        requires whole { IsTrue self.old.whole }
        requires usable { IsTrue batch.journal.usable }
        requires count { batch.journal.count ≡ self.old.known.count + length self.old.out }
        requires reads { IsTrue L.tells → records_of (L.seen batch.journal.disk) ≡ records_of (L.seen self.old.known.disk) ++ self.old.out }
        requires durable { IsTrue L.tells → Holds L.now L.leaves batch.journal.disk (records_of (L.seen batch.journal.disk)) }
        // At no moment has a crash left anything else than what was durable, or that and the batch.
        requires moments { IsTrue L.tells → LeavesOnly L.now L.leaves (λ c. IsOldOrBoth (records_of (L.seen self.old.known.disk)) self.old.out (c 1)) self.old.known.disk batch.journal.disk }
        ensures home { self.new ≡ record self.old { home = Some batch.journal; known = batch.journal; holder = None; out = [] } }
        ensures all { IsTrue L.tells → all_of L.seen self.new ≡ all_of L.seen self.old }
    {
        let Batch { journal, records } = batch;
        self.spare = records.into_vec();
        self.spare.clear();
        self.durable += self.out as u64;
        self.out = 0;
        settle(&mut self.journal, journal);
    }

    /// Takes the log home after an append that met want of memory: its records stand in front of what was queued since.
    pub fn log_back(&mut self, number: u32, batch: Batch<L>)
        requires out { self.old.holder ≡ Some number }
        requires whole { IsTrue self.old.whole }
        requires journal { batch.journal ≡ self.old.known }
        requires records { batch.records ≡ self.old.out }
        ensures { self.new ≡ record self.old { home = Some batch.journal; holder = None; out = []; queued = self.old.out ++ self.old.queued } }
    {
        let Batch { journal, records } = batch;
        let since = self.queue.len();
        let mut records = records.into_vec();
        let _ = self.queue.append(&mut records);
        self.queue.rotate_left(since);
        self.out = 0;
        settle(&mut self.journal, journal);
    }

    /// Takes the log home after a fault. It is not lent again, and the records that were out are neither durable nor queued.
    pub fn broken(&mut self, number: u32, batch: Batch<L>)
        requires out { self.old.holder ≡ Some number }
        requires moments { IsTrue L.tells → LeavesOnly L.now L.leaves (λ c. IsOldOrBoth (records_of (L.seen self.old.known.disk)) self.old.out (c 1)) self.old.known.disk batch.journal.disk }
        ensures { self.new ≡ record self.old { home = Some batch.journal; holder = None; whole = false } }
    {
        let Batch {
            journal,
            records: _,
        } = batch;
        self.whole = false;
        settle(&mut self.journal, journal);
    }

    /// The log and what is queued, where no pass has the log out.
    pub fn take_apart(self) -> (Journal<L>, RecordList)
        requires home { self.holder ≡ None }
        ensures journal { self.home ≡ Some result.0 }
        ensures queued { result.1 ≡ self.queued }
    {
        let LogSide { journal, queue, .. } = self;
        let Some(journal) = journal else {
            unreachable!();
        };
        (journal, RecordList::of(queue))
    }
}
