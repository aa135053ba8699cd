//! Opening a tablet.
ghost use Rattle.std.specs.Prelude.{◌≡◌, ◌≢◌, ◌≤◌, ◌<◌, ◌^◌, ℕ, List, [], IsTrue, false, Ok, Err, Some, None, IfOk, IfErr};
ghost use Rattle.kt_disk.specs.Disk.{LeavesOnly};
ghost use Rattle.kt_history.specs.History.{Past};
ghost use Rattle.kt_journal.specs.Frames.{IsFrom};
ghost use Rattle.kt_journal.specs.Log.{log_of, records_of, IsLog, CanOpen};
ghost use Rattle.kt_schema.specs.Columns.{fill_of};
ghost use Rattle.kt_super.specs.Body.{IsMeta};
ghost use Rattle.kt_super.specs.Slots.{super_of, AreStable};
ghost use Rattle.kt_diskrowset.specs.Rowset.{HeldFiles};
ghost use Rattle.kt_files.specs.Named.{is_kept, named_in};
ghost use Rattle.kt_files.specs.Reading.{HoldAll};
ghost use Rattle.kt_storeside.specs.Supers.{NamedStand};
ghost use Rattle.kt_storeside.specs.Sides.{most_from};
ghost use Rattle.kt_content.specs.Rules.{Rules, AreRules};
ghost use Rattle.kt_content.specs.Content.{IsContent as HoldsPast};
ghost use Rattle.kt_tablet.specs.Views.{work_of};
ghost use Rattle.kt_reopen.specs.Tables.{IsTable};
ghost use Rattle.kt_reopen.specs.Both.{Found as Whole, Answers, super_in};
ghost use Rattle.kt_reopen.specs.Holding.{HoldBoth, KeepsContent, IsOfStore};
ghost use Rattle.kt_reopen.specs.Numbers.{next_rowset};
ghost use Rattle.kt_reopen.specs.Opened.{first_meta, IsRefusal, OneRose};
ghost use Rattle.kt_engine.specs.Engines.{IsContent};
ghost use Rattle.kt_engine.specs.Jobs.{no_upkeep};
ghost use Rattle.kt_engine.specs.Near.{first_number};
ghost use Rattle.kt_boot.specs.Opening.{StandsOn};

use kt_base::Clock;
use kt_disk::Disk;
use kt_engine::{Engine, Found};
use kt_journal::Journal;
use kt_reopen::{Opened, Why, open_devices};
use kt_schema::Schema;
use kt_storeside::StoreSide;
use kt_tablet::Tablet;
use std::alloc::Global;
use std::snapshot::Snapshot;

/// A tablet that was not opened: why, and its devices and its clock.
#[derive(Drop)]
pub struct Closed<L, D, C> {
    pub why: Why,
    pub log: L,
    pub store: D,
    pub clock: C,
}

// What is handed back where a journal was opened and the tablet was not: there was no memory.
fn given_up<L: Disk, D, C>(journal: Journal<L>, store: D, clock: C) -> Closed<L, D, C>
    ensures why { result.why ≡ Why.Memory }
    ensures log { result.log ≡ journal.disk }
    ensures back { (result.store ≡ store) × (result.clock ≡ clock) }
{
    Closed {
        why: Why::Memory,
        log: journal.into_disk(),
        store,
        clock,
    }
}

/// Opens a tablet. A write may need so many cells, and its pool has so much room beside the cells that the rows of the log need.
pub fn open_tablet<L: Disk, D: Disk + Drop, C: Clock>(
    alloc: Global,
    log: L,
    store: D,
    clock: C,
    schema: &Schema,
    cells: u32,
    room: u32,
) -> Result<Engine<L, D, C>, Closed<L, D, C>>
    requires openable { IsTrue L.tells → CanOpen L.now L.leaves log }
    requires table { IsTable schema.now }
    requires stand { IsTrue D.tells → NamedStand D.seen D.now D.leaves store }

    // What both devices hold is what the engine stands on. Each past that its superblock and its records hold by any rules is one that it goes on from, and
    // so is each past that both devices hold; its superblock has the columns of the table then.
    ensures found { IfOk result (λ engine. (f : Whole) × StandsOn schema.now room f engine × (IsTrue L.tells → IsTrue D.tells → Answers schema.now (L.seen log) (D.seen store) (Ok f))) }
    ensures holds { IfOk result (λ engine. (rules : Rules) (past : Past) → AreRules rules → HoldsPast rules (fill_of schema.now) engine.super engine.records engine.tablet.core.opened past → IsContent rules engine past) }
    ensures content { IfOk result (λ engine. IsTrue L.tells → IsTrue D.tells → (rules : Rules) (c : ℕ) (past : Past) → HoldBoth rules schema.now (L.seen log) (D.seen store) c past
        → (c ≡ engine.tablet.core.opened) × (engine.store.meta.schema ≡ schema.now) × (AreRules rules → IsContent rules engine past)) }
    ensures low { IfOk result (λ engine. engine.tablet.core.opened < 2 ^ 63) }

    // Nothing has happened yet, and both devices are at home.
    ensures fresh { IfOk result (λ engine. (engine.tablet.core.trail ≡ []) × (engine.tablet.core.aloft ≡ []) × (engine.tablet.core.stopped ≡ false)) }
    ensures times { IfOk result (λ engine. (engine.tablet.core.a ≡ engine.super.a) × (engine.tablet.mark ≡ engine.super.a) × (engine.tablet.core.c ≡ engine.tablet.core.opened)) }
    ensures work { IfOk result (λ engine. engine.tablet.core.work ≡ work_of schema.now [] cells (fill_of schema.now)) }
    ensures clock { IfOk result (λ engine. (engine.tablet.clock ≡ clock) × (engine.tablet.opened ≡ clock)) }
    ensures devices { IfOk result (λ engine. (engine.log.holder ≡ None) × (engine.device ≡ log) × (engine.store_device ≡ store)) }
    ensures home { IfOk result (λ engine. engine.store.holder ≡ None) }
    ensures jobs { IfOk result (λ engine. engine.upkeep ≡ no_upkeep) }

    // Its records are those of the log, its superblock that of the store, or the first one. Other files of the store are gone.
    ensures records { IfOk result (λ engine. IsTrue L.tells → log_of (L.seen log) ≡ Ok engine.records) }
    ensures sound { IfOk result (λ engine. IsLog engine.records) }
    ensures rules { IfOk result (λ engine. IsMeta engine.store.meta) }
    ensures meta { IfOk result (λ engine. IsTrue D.tells → super_of (D.seen engine.store.known) ≡ Ok (Some engine.store.meta)) }
    ensures hold { IfOk result (λ engine. IsTrue D.tells → (held : List HeldFiles) × HoldAll (D.seen engine.store.known) engine.store.meta.rowsets held × (engine.super ≡ super_in engine.store.meta held)) }
    ensures removed { IfOk result (λ engine. IsTrue D.tells → (n : ℕ) → is_kept (named_in engine.store.meta.rowsets) n ≡ false → D.seen engine.store.known n ≡ None) }
    ensures stable { IfOk result (λ engine. IsTrue D.tells → AreStable D.seen D.now D.leaves engine.store.known) }

    // It knows the names of its stores, the numbers that it begins with, both devices as opening left them, and how great the numbers of a superblock may grow.
    ensures names { IfOk result (λ engine. engine.found ≡ engine.tablet.names) }
    ensures first_rowset { IfOk result (λ engine. engine.first_rowset ≡ engine.store.next_rowset) }
    ensures first_file { IfOk result (λ engine. engine.first_file ≡ engine.store.next_file) }
    ensures first_log { IfOk result (λ engine. engine.log.first ≡ engine.log.known.disk) }
    ensures first_records { IfOk result (λ engine. IsTrue L.tells → records_of (L.seen engine.log.first) ≡ engine.records) }
    ensures first_store { IfOk result (λ engine. engine.store.first ≡ record { device = engine.store.known; most = most_from engine.store.meta (first_number engine.tablet.names) engine.store.next_rowset }) }

    // A rowset gets a number that neither the superblock nor a COMMIT of the log has named, and a file one that the superblock gives next.
    ensures next { IfOk result (λ engine. (engine.store.next_rowset ≡ next_rowset engine.store.meta.next_rowset engine.records) × (engine.store.next_file ≡ engine.store.meta.next_file)) }

    // It is refused exactly where its devices hold nothing else, and for that reason, unless a device or memory fail.
    ensures refused { IfErr result (λ e. IsRefusal e.why → IsTrue L.tells → IsTrue D.tells → Answers schema.now (L.seen log) (D.seen store) (Err e.why)) }
    ensures only { IfOk result (λ _. IsTrue L.tells → IsTrue D.tells → (no : Why) → Answers schema.now (L.seen log) (D.seen store) (Err no) → ⊥) }
    ensures only_err { IfErr result (λ e. IsRefusal e.why → IsTrue L.tells → IsTrue D.tells → (f : Whole) → Answers schema.now (L.seen log) (D.seen store) (Ok f) → ⊥) }
    ensures fault { IfErr result (λ e. e.why ≡ Why.Fault → OneRose (L.faults log) (L.faults e.log) (D.faults store) (D.faults e.store)) }
    ensures log_faults { IfErr result (λ e. L.faults log ≤ L.faults e.log) }
    ensures store_faults { IfErr result (λ e. D.faults store ≤ D.faults e.store) }
    ensures store_faults_ok { IfOk result (λ engine. D.faults store ≤ D.faults engine.store.known) }
    ensures back { IfErr result (λ e. e.clock ≡ clock) }

    // The devices may be opened again.
    ensures openable { IfErr result (λ e. IsTrue L.tells → CanOpen L.now L.leaves e.log) }
    ensures stand { IfErr result (λ e. IsTrue D.tells → NamedStand D.seen D.now D.leaves e.store) }

    // Whatever the answer, all files of the log's device but the log read as before, and a crash at any moment of the call leaves the frames of the log, and
    // all other files, of one image from before it.
    ensures log_others { IfOk result (λ engine. IsTrue L.tells → (n : ℕ) → n ≢ 1 → L.seen engine.log.known.disk n ≡ L.seen log n) }
    ensures log_others_err { IfErr result (λ e. IsTrue L.tells → (n : ℕ) → n ≢ 1 → L.seen e.log n ≡ L.seen log n) }
    ensures log_moment { IfOk result (λ engine. IsTrue L.tells → LeavesOnly L.now L.leaves (IsFrom L.now L.leaves 1 log) log engine.log.known.disk) }
    ensures log_moment_err { IfErr result (λ e. IsTrue L.tells → LeavesOnly L.now L.leaves (IsFrom L.now L.leaves 1 log) log e.log) }

    // Of the store it leaves the superblock of one image from before it, or the first one where that has none, and all files that it names.
    ensures store_moment { IfOk result (λ engine. IsTrue D.tells → LeavesOnly D.now D.leaves (IsOfStore D.now D.leaves (first_meta schema.now) store) store engine.store.known) }
    ensures store_moment_err { IfErr result (λ e. IsTrue D.tells → LeavesOnly D.now D.leaves (IsOfStore D.now D.leaves (first_meta schema.now) store) store e.store) }

    // So each pair of images that a crash leaves at a moment of the call holds what a pair from before it holds, and opening answers the same: the log comes
    // to its end before the first superblock is published.
    ensures any_moment_ok { IfOk result (λ engine. IsTrue L.tells → IsTrue D.tells → KeepsContent L.now L.leaves D.now D.leaves schema.now log store engine.log.known.disk engine.store.known) }
    ensures any_moment { IfErr result (λ e. IsTrue L.tells → IsTrue D.tells → KeepsContent L.now L.leaves D.now D.leaves schema.now log store e.log e.store) }
{
    let device = Snapshot::of(&log);
    let store_device = Snapshot::of(&store);
    let mut store = store;
    let Opened {
        journal,
        records,
        meta,
        superblock,
        stores,
        queued,
        last,
        next_rowset,
    } = match open_devices(alloc, log, &mut store, schema, room) {
        Ok(opened) => opened,
        Err((log, why)) => return Err(Closed {
            why,
            log,
            store,
            clock,
        }),
    };
    let tablet = match Tablet::of(alloc, stores, clock, schema, cells, last, meta.a) {
        Ok(tablet) => tablet,
        Err((_, clock)) => return Err(given_up(journal, store, clock)),
    };
    let next_file = meta.next_file;
    let mem = tablet.active_number();
    let side = StoreSide::of(store, meta, next_rowset, next_file, mem);
    let found = Found {
        records: &records,
        superblock: &superblock,
        device,
        store: store_device,
    };
    match Engine::of(alloc, tablet, journal, queued, side, found) {
        Ok(engine) => Ok(engine),
        Err((tablet, journal, side)) => {
            let (clock, _) = tablet.take_apart();
            let (store, _) = side.take_apart();
            Err(given_up(journal, store, clock))
        }
    }
}
