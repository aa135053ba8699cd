//! The engine, as it is opened and taken apart.
ghost use Rattle.std.specs.Prelude.{map, not, List, ◌≡◌, ◌<◌, ◌≤◌, ◌^◌, ℕ, IsTrue, IfOk, IfErr, Some, None, false, true, [], ◌++◌, ◌+◌, suc, length};
ghost use Rattle.kt_history.specs.History.{Past};
ghost use Rattle.kt_history.specs.Machine.{first_turns};
ghost use Rattle.kt_journal.specs.Open.{JournalView};
ghost use Rattle.kt_journal.specs.Log.{records_of, Holds, IsLog, CanOpen};
ghost use Rattle.kt_loglaws.specs.Replay.{last_of};
ghost use Rattle.kt_tablet.specs.Plans.{PlanKeeps};
ghost use Rattle.kt_tablet.specs.Views.{IsSound, IsExact, Opens};
ghost use Rattle.std.specs.List.{All};
ghost use Rattle.kt_loglaws.specs.Side.{all_of};
ghost use Rattle.kt_loglaws.specs.Appended.{AreOfLogged, WasAppended};
ghost use Rattle.kt_content.specs.Rules.{Rules, AreRules};
ghost use Rattle.kt_content.specs.Content.{IsContent as HoldsPast};
ghost use Rattle.kt_content.specs.RunEvents.{Numbers, NumbersAreFresh};
ghost use Rattle.kt_engine.specs.Sessions.{numbers_of};
ghost use Rattle.kt_engine.specs.Memory.{name_of, AreNamed};
ghost use Rattle.kt_engine.specs.Logged.{AreCommits, TakesUp, UntoldFly, IsPlaced, IsThere, NamesOnly, DeltasBelow};
ghost use Rattle.kt_diskrowset.specs.Rowset.{HeldFiles};
ghost use Rattle.kt_files.specs.Named.{AreNamed as AreEachNamed};
ghost use Rattle.kt_files.specs.Reading.{HoldAll};
ghost use Rattle.kt_reopen.specs.Both.{super_in};
ghost use Rattle.kt_reopen.specs.Opened.{AreReadOf};
ghost use Rattle.kt_storeside.specs.Sides.{IsSide, SpellMade};
ghost use Rattle.kt_storeside.specs.Published.{WasPublished};
ghost use Rattle.kt_engine.specs.Engines.{EngineView, IsEngine, IsLogged, IsHome, KeepsOthers, TellsStop, LeavesRecords, Recovers, RecoversEach, RecoversAll, are_whole};
ghost use Rattle.kt_engine.specs.Near.{first_number, LeavesRoom};
ghost use Rattle.kt_engine.specs.Stored.{next_given, AreMarked, IsStored, RecoversPair, RecoversBoth, HasFailed};
ghost use Rattle.kt_engine.specs.Jobs.{no_upkeep};
ghost use Rattle.kt_engine.specs.Over.{AreShelved};
ghost use Rattle.kt_engine.specs.Pairs.{RecoversAllOfBoth, LeavesPublished};

use crate::running::Running;
use crate::upkeep::{Upkeeps, no_upkeep};
use kt_base::Clock;
use kt_disk::Disk;
use kt_diskrowset::DiskRowSet;
use kt_history::{EventList, Plan};
use kt_journal::Journal;
use kt_loglaws::LogSide;
use kt_records::{LogRecords, RecordList};
use kt_reopen::Superblock;
use kt_storeside::StoreSide;
use kt_super::Meta;
use kt_tablet::Tablet;
use std::alloc::Global;
use std::marker::Model;
use std::snapshot::Snapshot;

/// What opening found of a tablet: the records of its log, its superblock, and both devices as they were handed in.
#[derive(Drop)]
pub struct Found<'a, L, D> {
    pub records: &'a LogRecords,
    pub superblock: &'a Superblock,
    pub device: Snapshot<L>,
    pub store: Snapshot<D>,
}

/// A tablet with its log and its store. What is large is boxed, since a lock moves the engine at each visit.
#[derive(Drop)]
pub struct Engine<L: Disk, D: Disk, C: Clock> {
    pub(crate) tablet: Box<Tablet<DiskRowSet, C>>,
    pub(crate) log: Box<LogSide<L>>,
    pub(crate) store: Box<StoreSide<D>>,
    pub(crate) running: Running,
    pub(crate) records: Snapshot<LogRecords>,
    pub(crate) superblock: Snapshot<Superblock>,
    pub(crate) device: Snapshot<L>,
    pub(crate) store_device: Snapshot<D>,
    pub(crate) upkeep: Upkeeps,
    pub(crate) first_file: u64,
    pub(crate) first_rowset: u64,
    pub(crate) opened: Snapshot<Tablet<DiskRowSet, C>>,
}

impl<L: Disk, D: Disk, C: Clock> Model for Engine<L, D, C> {
    ghost use Rattle.kt_engine.specs.Engines.{EngineView, IsEngine};
    ghost use Rattle.kt_engine.specs.Stored.{IsStored};

    ghost Value = { EngineView L D C };

    ghost view = { λ e. record { tablet = e.tablet.value; log = e.log.value; records = e.records.value; super = e.superblock.value; device = e.device.value; store = e.store.value; store_device = e.store_device.value; running = e.running; upkeep = e.upkeep; first_file = e.first_file; first_rowset = e.first_rowset; found = e.opened.value.names } };

    ghost invariant = { λ e. IsEngine L.tells L.seen L.now L.leaves L.faults (record { tablet = e.tablet.value; log = e.log.value; records = e.records.value; super = e.superblock.value; device = e.device.value; store = e.store.value; store_device = e.store_device.value; running = e.running; upkeep = e.upkeep; first_file = e.first_file; first_rowset = e.first_rowset; found = e.opened.value.names })
        × IsStored L.tells L.seen D.tells D.seen D.faults (record { tablet = e.tablet.value; log = e.log.value; records = e.records.value; super = e.superblock.value; device = e.device.value; store = e.store.value; store_device = e.store_device.value; running = e.running; upkeep = e.upkeep; first_file = e.first_file; first_rowset = e.first_rowset; found = e.opened.value.names }) };
}

/// What an engine is taken apart into.
#[derive(Drop)]
pub struct Parts<L, D, C> {
    pub log: L,
    pub store: D,
    pub clock: C,
    pub trail: EventList,
    /// The superblock that is published.
    pub meta: Meta,
}

// The log at home and what is queued for it, in a box of its own. For want of memory the log comes back.
fn boxed_log<L: Disk>(
    alloc: Global,
    journal: Journal<L>,
    queued: RecordList,
) -> Result<Box<LogSide<L>>, Journal<L>>
    requires usable { IsTrue journal.usable }
    requires durable { IsTrue L.tells → Holds L.now L.leaves journal.disk (records_of (L.seen journal.disk)) }
    requires of_logged { IsTrue L.tells → AreOfLogged (records_of (L.seen journal.disk)) queued }
    ensures side { IfOk result (λ side. side.value ≡ record { home = Some journal; known = journal; holder = None; out = []; queued = queued; room = 0; whole = true; first = journal.disk }) }
    ensures back { IfErr result (λ back. back ≡ journal) }
{
    let log = match LogSide::of(alloc, journal, queued) {
        Ok(log) => log,
        Err((journal, _)) => return Err(journal),
    };
    match Box::new(alloc, log) {
        Ok(log) => Ok(log),
        Err(no) => {
            let (journal, _) = no.value.take_apart();
            Err(journal)
        }
    }
}

impl<L: Disk, D: Disk + Drop, C: Clock> Engine<L, D, C> {
    /// A tablet in which nothing has happened yet, with the log that holds what opening found and with what is queued for it: the COMMIT of each
    /// write that had none. Its stores mirror what the superblock holds with all records, and its store publishes that.
    pub fn of(
        alloc: Global,
        tablet: Tablet<DiskRowSet, C>,
        journal: Journal<L>,
        queued: RecordList,
        store: StoreSide<D>,
        found: Found<'_, L, D>,
    ) -> Result<Engine<L, D, C>, (Tablet<DiskRowSet, C>, Journal<L>, StoreSide<D>)>
        requires fresh { (tablet.core.trail ≡ []) × (tablet.core.aloft ≡ []) × (tablet.core.stopped ≡ false) }
        requires named { AreNamed found.superblock.now tablet.names }
        // No record names a later DeltaMemStore of a rowset than the one that takes its changes.
        requires deltas { DeltasBelow tablet.names (found.records.now ++ queued) }
        requires shelved { AreShelved (suc tablet.frozen) (2 ^ 64) tablet.names }
        requires log { IsLog (found.records.now ++ queued) }
        requires commits { AreCommits queued }
        requires taken_up { (rules : Rules) (first : Past) → AreRules rules → Opens tablet.opening tablet.mark tablet.core.opened first → HoldsPast rules tablet.core.work.fill found.superblock.now found.records.now tablet.core.opened first
            → TakesUp rules tablet.core.work.fill found.superblock.now tablet.names tablet.core.stores found.records.now queued tablet.core.opened first }
        // The store gives rowset numbers, and the first MemRowSet has one, above those that a superblock, a record or a store has.
        requires numbers { (numbers : Numbers) × NumbersAreFresh found.superblock.now (found.records.now ++ queued) (map name_of tablet.names) numbers × (numbers.next ≤ next_given store.next_rowset) × (numbers.active ≤ first_number tablet.names) }
        requires untold { UntoldFly (found.records.now ++ queued) tablet.core.aloft }
        requires since { tablet.core.opened ≤ tablet.core.c }
        requires last { last_of (found.records.now ++ queued) ≤ tablet.core.c }
        requires names { All (NamesOnly tablet.names) queued }
        requires usable { IsTrue journal.usable }
        requires count { journal.count ≡ length found.records.now }
        requires reads { IsTrue L.tells → records_of (L.seen journal.disk) ≡ found.records.now }
        requires durable { IsTrue L.tells → Holds L.now L.leaves journal.disk (records_of (L.seen journal.disk)) }
        requires openable { IsTrue L.tells → CanOpen L.now L.leaves journal.disk }
        requires others { IsTrue L.tells → KeepsOthers L.now L.leaves found.device.value journal.disk }
        requires faults { L.faults found.device.value ≤ L.faults journal.disk }
        requires store_home { (store.holder ≡ None) × (store.lent ≡ None) × IsTrue store.whole }
        requires superblock { IsTrue D.tells → (held : List HeldFiles) × HoldAll (D.seen store.known) store.meta.rowsets held × (found.superblock.now ≡ super_in store.meta held) }
        // The disk rowsets in memory have the files that the superblock names, or what can be read of them.
        requires filed { (held : List HeldFiles) × AreEachNamed store.meta.rowsets held × AreReadOf held tablet.files × (IsTrue D.tells → HoldAll (D.seen store.known) store.meta.rowsets held) }
        requires mark { (store.meta.a ≡ tablet.mark) × (tablet.core.a ≡ tablet.mark) }
        requires clock { store.meta.c ≤ tablet.core.c }
        // Its superblocks may spell the names of the stores that come.
        requires room { LeavesRoom tablet.names store.next_rowset store.first.most }
        requires store_faults { D.faults found.store.value ≤ D.faults store.known }
        ensures view { IfOk result (λ engine. engine ≡ record {
          tablet = tablet;
          log = record { home = Some journal; known = journal; holder = None; out = []; queued = queued; room = 0; whole = true; first = journal.disk };
          records = found.entry.records.now;
          super = found.entry.superblock.now;
          device = found.entry.device.value;
          store = store;
          store_device = found.entry.store.value;
          running = [];
          upkeep = no_upkeep;
          first_file = store.next_file;
          first_rowset = store.next_rowset;
          found = tablet.names;
        }) }
        ensures back { IfErr result (λ e. (e.0 ≡ tablet) × (e.1 ≡ journal) × (e.2 ≡ store)) }
    {
        tablet.standing();
        store.standing();
        let Ok(running) = Running::new(alloc) else {
            return Err((tablet, journal, store));
        };
        let upkeep = no_upkeep(alloc);
        let (first_rowset, first_file) = store.next_numbers();
        let opened = Snapshot::of(&tablet);
        let store = match Box::new(alloc, store) {
            Ok(store) => store,
            Err(no) => return Err((tablet, journal, no.value)),
        };
        let log = match boxed_log(alloc, journal, queued) {
            Ok(log) => log,
            Err(journal) => return Err((tablet, journal, Box::into_inner(store))),
        };
        match Box::new(alloc, tablet) {
            Ok(tablet) => Ok(Engine {
                tablet,
                log,
                store,
                running,
                records: Snapshot::of(found.records),
                superblock: Snapshot::of(found.superblock),
                device: found.device,
                store_device: found.store,
                upkeep,
                first_file,
                first_rowset,
                opened,
            }),
            Err(no) => {
                let (journal, _) = Box::into_inner(log).take_apart();
                Err((no.value, journal, Box::into_inner(store)))
            }
        }
    }

    /// Takes the plan of the run, which keeps the rules and limits of a plan: all of its sessions run. It takes no memory.
    pub fn set_plan(&mut self, plan: &Plan)
        requires fresh { (self.old.tablet.core.trail ≡ []) × (self.old.tablet.core.aloft ≡ []) × (self.old.tablet.core.stopped ≡ false) }
        requires unplanned { self.old.tablet.core.work.plan ≡ [] }
        requires few { length plan.now ≤ 64 }
        requires keeps { PlanKeeps (record self.old.tablet.core.work { plan = plan.now }) }
        ensures { self.new ≡ record self.old { tablet = record self.old.tablet { core = record self.old.tablet.core { work = record self.old.tablet.core.work { plan = plan.now }; turns = first_turns plan.now } }; running = numbers_of plan.now } }
    {
        self.tablet.set_plan(plan);
        self.running.begin(plan);
    }

    /// Whether the tablet has stopped.
    pub fn is_stopped(&self) -> bool
        ensures { result ≡ self.now.tablet.core.stopped }
    {
        self.tablet.is_stopped()
    }

    /// The ancient history mark and the last timestamp.
    pub fn times(&self) -> (u64, u64)
        ensures mark { result.0 ≡ self.now.tablet.core.a }
        ensures last { result.1 ≡ self.now.tablet.core.c }
    {
        self.tablet.times()
    }

    /// What it stands for: a run from each past that opening found, in which the lines show what the clock gave; where the log
    /// held that past, by rules of the table that take each write of the plan, the log keeps the run, the stores mirror what it holds, and a crash now leaves its writes
    /// up to a time, each acknowledged one among them, also while a pass has the log out. Whatever opening found, its lines tell whether it has stopped, and a crash now leaves the records that
    /// opening found and some of the run. What the pool has promised is what flying writes still need, and the REPLICATE of
    /// each is at its place among the records that are durable, out or queued. Each device is at home where no pass has it out. Under the superblock that is
    /// published, and under one that is lent, a crash leaves of both devices the opened past from its mark on, with the writes up to a time; and with all of
    /// them, seen from the run's mark, where nothing waits and the superblock that is published has that mark and the last timestamp. At each moment since
    /// opening a crash left of the log what was durable, or that and the batch that was out; and of the store the superblock that was published, or the one
    /// that was lent, and the files that it names.
    pub fn standing(&self)
        ensures sound { IsSound C.readings self.now.tablet }
        ensures exact { IsExact self.now.tablet.core.aloft self.now.tablet.core.stores self.now.tablet.pool }
        ensures logged { IsLogged L.tells L.seen self.now }
        ensures stops { TellsStop self.now.tablet.core }
        ensures leaves { LeavesRecords L.tells L.now L.leaves self.now }
        ensures recovers { Recovers L.tells L.now L.leaves self.now }
        ensures recovers_each { RecoversEach L.tells L.seen self.now }
        ensures recovers_all { RecoversAll L.tells L.now L.leaves self.now }
        ensures at_home { self.now.log.holder ≡ None → (journal : JournalView L) × (self.now.log.home ≡ Some journal) }
        ensures home { (journal : _) → self.now.log.home ≡ Some journal → IsHome L.tells L.seen L.now L.leaves L.faults self.now journal }
        ensures lent { (by : ℕ) → self.now.log.holder ≡ Some by → (L.faults self.now.device ≤ L.faults self.now.log.known.disk) × IsTrue self.now.log.whole }
        ensures whole { self.now.tablet.core.stopped ≡ not (are_whole self.now) }
        ensures stored { IsStored L.tells L.seen D.tells D.seen D.faults self.now }
        ensures side { IsSide D.tells D.seen D.now D.leaves D.faults self.now.store }
        ensures store_at_home { self.now.store.holder ≡ None → (disk : D) × (self.now.store.home ≡ Some disk) }
        ensures recovers_pair { RecoversPair L.tells L.seen D.tells D.seen self.now }
        ensures recovers_both { RecoversBoth L.tells L.now L.leaves D.tells D.now D.leaves self.now }
        ensures recovers_all_of_both { IsTrue L.tells → IsTrue D.tells → RecoversAllOfBoth L.now L.leaves D.now D.leaves self.now }
        ensures published { IsTrue D.tells → LeavesPublished D.seen D.now D.leaves self.now }
        ensures made { IsTrue D.tells → (disk : D) → self.now.store.home ≡ Some disk → (image : _) → D.leaves disk (D.now disk) image → SpellMade D.seen self.now.store image }
        ensures log_moments { IsTrue L.tells → (journal : JournalView L) → self.now.log.home ≡ Some journal → WasAppended L.seen L.now L.leaves self.now.log.whole self.now.log.first journal.disk }
        ensures store_moments { IsTrue D.tells → (disk : D) → self.now.store.home ≡ Some disk → WasPublished D.seen D.now D.leaves self.now.store.first.device disk }
        ensures marked { AreMarked self.now }
        ensures failed { HasFailed L.faults D.faults self.now }
        ensures placed { map (λ p. p.0) self.now.tablet.places ≡ map (λ w. w.s) self.now.tablet.core.aloft }
        ensures at_rest { self.now.tablet.core.aloft ≡ [] → self.now.tablet.places ≡ [] }
        ensures among { All (IsPlaced (self.now.log.known.count + length (self.now.log.out ++ self.now.log.queued)) self.now.tablet.places) self.now.tablet.core.aloft }
        ensures there { IsTrue L.tells → All (IsThere (all_of L.seen self.now.log) self.now.tablet.places) self.now.tablet.core.aloft }
    {
        self.tablet.standing();
        // What is durable is what a crash leaves, and the log is at home where no pass has it.
        let _ = self.log.durable();
        let _ = self.log.by();
        self.store.standing();
        let _ = self.store.by();
        self.log.standing();
    }

    /// The devices, the clock, the history, and the superblock that is published, where no pass has a device out.
    pub fn take_apart(self) -> Parts<L, D, C>
        requires home { self.log.holder ≡ None }
        requires store_home { self.store.holder ≡ None }
        ensures log { (journal : JournalView L) × (self.log.home ≡ Some journal) × (result.log ≡ journal.disk) }
        ensures store { self.store.home ≡ Some result.store }
        ensures meta { result.meta ≡ self.store.meta }
        ensures clock { result.clock ≡ self.tablet.clock }
        ensures trail { result.trail ≡ self.tablet.core.trail }
    {
        let Engine {
            tablet,
            log,
            store,
            running: _,
            records: _,
            superblock: _,
            device: _,
            store_device: _,
            upkeep: _,
            first_file: _,
            first_rowset: _,
            opened: _,
        } = self;
        let (clock, trail) = Box::into_inner(tablet).take_apart();
        let (journal, _) = Box::into_inner(log).take_apart();
        let (store, meta) = Box::into_inner(store).take_apart();
        Parts {
            log: journal.into_disk(),
            store,
            clock,
            trail,
            meta,
        }
    }
}
