//! Opening both devices of a tablet.
ghost use Rattle.std.specs.Prelude.{◌≡◌, ◌≢◌, ◌≤◌, ◌<◌, ◌+◌, ◌^◌, ◌⊎◌, ℕ, List, [], length, map, max, replicate, IsTrue, true, false, Ok, Err, Some, None, IfOk, IfErr, OnOk};
ghost use Rattle.kt_base.specs.Causes.{Rose};
ghost use Rattle.kt_disk.specs.Disk.{LeavesOnly};
ghost use Rattle.kt_history.specs.declared.target.Target.{Target};
ghost use Rattle.kt_history.specs.Rows.{Row};
ghost use Rattle.kt_history.specs.History.{Past};
ghost use Rattle.kt_records.specs.declared.entry.Entry.{Entry};
ghost use Rattle.kt_pool.specs.Contents.{with_reserved};
ghost use Rattle.kt_diskrowset.specs.Rowset.{HeldFiles, name_of, store_of, cells_had};
ghost use Rattle.kt_stores.specs.Parts.{kept, shelved, shelf_of, read_by};
ghost use Rattle.kt_reopen.specs.Bare.{bare};
ghost use Rattle.kt_reopen.specs.Begun.{IsBegun};
ghost use Rattle.kt_reopen.specs.Needed.{needs_of};
ghost use Rattle.kt_reopen.specs.Numbers.{named_by};
ghost use Rattle.kt_reopen.specs.Standing.{AreKeptIn, files_in};
ghost use Rattle.kt_schema.specs.declared.column.Column.{Column};
ghost use Rattle.kt_journal.specs.Frames.{IsFrom};
ghost use Rattle.kt_journal.specs.Log.{log_of, records_of, Holds, IsLog, CanOpen};
ghost use Rattle.kt_loglaws.specs.Replay.{last_of, gate_of};
ghost use Rattle.kt_schema.specs.Columns.{fill_of};
ghost use Rattle.kt_super.specs.Body.{IsMeta};
ghost use Rattle.kt_super.specs.Slots.{super_of, AreStable};
ghost use Rattle.kt_super.specs.Rowsets.{has};
ghost use Rattle.kt_diskrowset.specs.Data.{held_in};
ghost use Rattle.kt_files.specs.Reading.{HoldAll};
ghost use Rattle.kt_files.specs.Held.{AreFresh, numbers_in, numbers_named};
ghost use Rattle.kt_files.specs.Named.{is_kept, named_in, AreNamed};
ghost use Rattle.kt_content.specs.Places.{fresh};
ghost use Rattle.kt_content.specs.Rules.{Rules};
ghost use Rattle.kt_content.specs.Opening.{Placed};
ghost use Rattle.kt_reopen.specs.Tables.{IsTable};
ghost use Rattle.kt_reopen.specs.Both.{Found, Answers, AnswersLater, nothing, super_in, stores_after};
ghost use Rattle.kt_reopen.specs.Holding.{HoldBoth, KeepsContent, HasFilesOf, IsOfStore};
ghost use Rattle.kt_storeside.specs.Supers.{NamedStand};
ghost use Rattle.kt_reopen.specs.Opened.{first_meta, found_of, IsOpened, HasRoom, Shows, IsRefusal, OneRose, IsNamedBy, AreRowsetsOf, AreReadOf};

use crate::commits::commit_places;
use crate::devices::{BothRead, read_devices};
use crate::first::{first_meta, publish_first};
use crate::needed::needs_of;
use crate::numbers::{Named, named_in};
use crate::records::{gate_of, last_of};
use crate::replaying::{ReplayNo, replay};
use crate::stores::Opening;
use crate::superblock::Superblock;
use crate::tables::first_other;
use crate::why::Why;
use kt_base::NoMemory;
use kt_disk::Disk;
use kt_diskrowset::{DiskRowSet, RowSetData};
use kt_files::{read_rowsets, remove_others};
use kt_journal::Journal;
use kt_memrowset::MemRowSet;
use kt_pool::Pool;
use kt_records::{LogRecords, RecordList};
use kt_schema::Schema;
use kt_stores::{RangedRowSets, Stores};
use kt_super::Meta;
use std::alloc::Global;

/// What opening makes of both devices: the open log with its records, the superblock, the stores in their pool, what waits for the
/// log, the last timestamp and the next rowset number.
#[derive(Drop)]
pub struct Opened<L: Disk> {
    pub journal: Journal<L>,
    pub records: LogRecords,
    pub meta: Meta,
    pub superblock: Superblock,
    pub stores: Stores<DiskRowSet>,
    pub queued: RecordList,
    pub last: u64,
    pub next_rowset: u64,
}

// The stores of a log and of the files of a superblock, and the COMMITs that the log owes.
#[derive(Drop)]
struct Made {
    stores: Stores<DiskRowSet>,
    queued: RecordList,
    next_rowset: u64,
}

// What a store has for an opened tablet: its superblock, what is made of that and of the log, and the last timestamp of both.
#[derive(Drop)]
struct Rebuilt {
    meta: Meta,
    superblock: Superblock,
    made: Made,
    last: u64,
}

// Timestamps from here on are refused.
const LAST_MOST: u64 = (1 << 63) - (1 << 21);

// A pool of so many cells beside those that are needed, which are promised. No pool is so large that they do not fit a u32.
fn pool_of(alloc: Global, cells: u32, needs: u64) -> Result<Pool, NoMemory>
    ensures room { IfOk result (λ pool. pool.reserved ≡ needs) }
    ensures bare { IfOk result (λ pool. pool.places ≡ replicate (cells + needs) None) }
{
    let Ok(needs) = u32::try_from(needs) else {
        return Err(NoMemory);
    };
    let Some(size) = cells.checked_add(needs) else {
        return Err(NoMemory);
    };
    let Ok(mut pool) = Pool::new(alloc, size) else {
        return Err(NoMemory);
    };
    if pool.reserve(needs).is_err() {
        return Err(NoMemory);
    }
    Ok(pool)
}

// The disk rowsets of a superblock, in which nothing of the log is done yet.
fn rowsets_of(
    alloc: Global,
    rowsets: Vec<RowSetData>,
    meta: &Meta,
    named: &Named,
) -> Result<Vec<DiskRowSet>, NoMemory>
    requires numbers { numbers_in rowsets.items ≡ numbers_named meta.now.rowsets }
    requires fresh { AreFresh rowsets.items }
    requires rules { IsMeta meta.now }
    ensures are { IfOk result (λ opened. (targets : List Target) → IsNamedBy named.now targets → AreRowsetsOf targets meta.now.rowsets rowsets.items opened.items) }
    ensures few { IfOk result (λ opened. length opened.items < 2 ^ 32) }
{
    if meta.rowsets.as_slice().len() >= u32::MAX as usize {
        return Err(NoMemory);
    }
    let mut rest = rowsets.into_iter();
    let mut opened = Vec::new(alloc);
    'rowsets: for rowset in meta.rowsets.as_slice() {
        let Some(data) = rest.next() else {
            unreachable!();
        };
        let dms = named.dms(rowset.rowset, rowset.last_dms);
        let readable = data.readable(alloc)?;
        opened.push(DiskRowSet::of(alloc, readable, dms))?;
    }
    Ok(opened)
}

// The stores of a superblock before its log, by the numbers that the log names and by what it needs of the pool.
fn begun(
    alloc: Global,
    meta: &Meta,
    rowsets: Vec<RowSetData>,
    named: &Named,
    cells: u32,
    needs: u64,
) -> Result<Opening, NoMemory>
    requires rules { IsMeta meta.now }
    requires numbers { numbers_in rowsets.items ≡ numbers_named meta.now.rowsets }
    requires fresh { AreFresh rowsets.items }
    ensures { IfOk result (λ o. (records : List Entry) → IsNamedBy named.now (named_by records) → needs ≡ needs_of (bare meta.now) records records → IsBegun meta.now records rowsets.items cells needs o) }
{
    let mem = MemRowSet::new(named.mem.max(meta.last_mem + 1));
    let rowsets = rowsets_of(alloc, rowsets, meta, named)?;
    let pool = pool_of(alloc, cells, needs)?;
    Ok(Opening { mem, rowsets, pool })
}

// The stores as a tablet has them, with nothing promised of their pool.
fn stores_of(alloc: Global, stores: Opening) -> Result<Stores<DiskRowSet>, NoMemory>
    requires kept { AreKeptIn stores }
    requires few { length stores.rowsets.items < 2 ^ 32 }
    ensures pool { IfOk result (λ all. all.pool ≡ with_reserved stores.pool 0) }
    ensures shelf { IfOk result (λ all. all.shelf ≡ shelf_of (read_by (shelved name_of store_of (λ s. true) cells_had)) stores.pool (kept stores.mem [] stores.rowsets.items)) }
    ensures frozen { IfOk result (λ all. all.frozen ≡ 0) }
    ensures files { IfOk result (λ all. all.files ≡ files_in stores) }
{
    let Opening {
        mem,
        rowsets,
        mut pool,
    } = stores;
    let rowsets = RangedRowSets::of(alloc, rowsets)?;
    pool.release(pool.reserved());
    Ok(Stores::of(alloc, pool, mem, rowsets))
}

// Does the writes of a log on the stores of a superblock.
fn make(
    alloc: Global,
    records: &LogRecords,
    meta: &Meta,
    rowsets: Vec<RowSetData>,
    cells: u32,
) -> Result<Made, Why>
    requires log { IsLog records.now }
    requires rules { IsMeta meta.now }
    requires numbers { numbers_in rowsets.items ≡ numbers_named meta.now.rowsets }
    requires fresh { AreFresh rowsets.items }
    ensures made { IfOk result (λ made. (columns : List Column) (stores : Placed) → stores_after (fill_of columns) (super_in meta.now (map held_in rowsets.items)) records.now ≡ Ok stores
        → IsOpened columns (found_of (super_in meta.now (map held_in rowsets.items)) records.now stores) meta.now records.now made.queued made.stores (max meta.now.c (last_of records.now)) made.next_rowset) }
    ensures room { IfOk result (λ made. (stores : Placed) → HasRoom cells (found_of (super_in meta.now (map held_in rowsets.items)) records.now stores) made.stores) }
    ensures files { IfOk result (λ made. AreReadOf (map held_in rowsets.items) made.stores.files) }
    ensures fits { IfOk result (λ made. (fill : Row) → (stores : Placed) × (stores_after fill (super_in meta.now (map held_in rowsets.items)) records.now ≡ Ok stores)) }
    ensures late { (no : Why) → result ≡ Err no → no ≢ Why.Memory → (fill : Row) → (ts : ℕ) × (stores_after fill (super_in meta.now (map held_in rowsets.items)) records.now ≡ Err ts) × (no ≡ Why.B3 (gate_of ts records.now)) }
{
    let named = named_in(alloc, records)?;
    let places = commit_places(alloc, records)?;
    let needs = needs_of(meta, records, &places)?;
    let mut stores = begun(alloc, meta, rowsets, &named, cells, needs)?;
    match replay(alloc, &mut stores, meta, records, &places) {
        Ok(queued) => Ok(Made {
            stores: stores_of(alloc, stores)?,
            queued,
            next_rowset: named.next.max(meta.next_rowset),
        }),
        Err(ReplayNo::Late { ts }) => Err(Why::B3 {
            offset: gate_of(ts, records)?,
        }),
        Err(ReplayNo::Memory) => Err(Why::Memory),
    }
}

// What a fresh tablet begins with: its first superblock is published.
fn open_first<D: Disk>(
    alloc: Global,
    records: &LogRecords,
    store: &mut D,
    schema: &Schema,
    cells: u32,
) -> Result<Rebuilt, Why>
    requires none { records.now ≡ [] }
    requires table { IsTable schema.now }
    requires unnamed { IsTrue D.tells → super_of (D.seen store.old) ≡ Ok None }
    requires stable { IsTrue D.tells → AreStable D.seen D.now D.leaves store.old }
    ensures opened { IfOk result (λ o. IsOpened schema.now nothing o.meta records.now o.made.queued o.made.stores o.last o.made.next_rowset × HasRoom cells nothing o.made.stores) }
    ensures meta { IfOk result (λ o. o.meta ≡ first_meta schema.now) }
    ensures superblock { IfOk result (λ o. o.superblock ≡ fresh) }
    ensures low { IfOk result (λ o. o.last ≡ 0) }
    ensures rules { IfOk result (λ o. IsMeta o.meta) }
    ensures files { IfOk result (λ o. o.made.stores.files ≡ []) }
    ensures published { IfOk result (λ o. IsTrue D.tells → super_of (D.seen store.new) ≡ Ok (Some o.meta)) }
    ensures stable { OnOk result (IsTrue D.tells → AreStable D.seen D.now D.leaves store.new) }
    ensures removed { IfOk result (λ o. IsTrue D.tells → (n : ℕ) → is_kept (named_in o.meta.rowsets) n ≡ false → D.seen store.new n ≡ None) }
    ensures any_moment { IsTrue D.tells → LeavesOnly D.now D.leaves (IsOfStore D.now D.leaves (first_meta schema.now) store.old) store.old store.new }
    ensures no_refusal { (no : Why) → result ≡ Err no → (no ≡ Why.Fault) ⊎ (no ≡ Why.Memory) }
    ensures fault { result ≡ Err Why.Fault → Rose (D.faults store.old) (D.faults store.new) }
    ensures faults { D.faults store.old ≤ D.faults store.new }
{
    let meta = first_meta(alloc, schema)?;
    let made = make(alloc, records, &meta, Vec::new(alloc), cells)?;
    publish_first(alloc, store, &meta)?;
    remove_others(alloc, store, &meta)?;
    Ok(Rebuilt {
        meta,
        superblock: Superblock::fresh(),
        made,
        last: 0,
    })
}

// The stores of a superblock and its files, and of the records of the log.
fn open_later<D: Disk>(
    alloc: Global,
    records: &LogRecords,
    meta: Meta,
    store: &mut D,
    schema: &Schema,
    cells: u32,
) -> Result<Rebuilt, Why>
    requires log { IsLog records.now }
    requires rules { IsMeta meta }
    requires named { IsTrue D.tells → super_of (D.seen store.old) ≡ Ok (Some meta) }
    requires stable { IsTrue D.tells → AreStable D.seen D.now D.leaves store.old }
    ensures opened { IfOk result (λ o. (f : Found) × (o.superblock ≡ f.super) × IsOpened schema.now f o.meta records.now o.made.queued o.made.stores o.last o.made.next_rowset × HasRoom cells f o.made.stores
        × (IsTrue D.tells → AnswersLater schema.now meta records.now (D.seen store.old) (Ok f))) }
    ensures meta { IfOk result (λ o. o.meta ≡ meta) }
    ensures holds { IfOk result (λ o. IsTrue D.tells → (held : List HeldFiles) × HoldAll (D.seen store.old) meta.rowsets held × (o.superblock ≡ super_in meta held)) }
    ensures files { IfOk result (λ o. (held : List HeldFiles) × AreNamed meta.rowsets held × AreReadOf held o.made.stores.files × (IsTrue D.tells → HoldAll (D.seen store.old) meta.rowsets held)) }
    ensures low { IfOk result (λ o. o.last < 2 ^ 63) }
    ensures refused { (no : Why) → result ≡ Err no → no ≢ Why.Fault → no ≢ Why.Memory → IsTrue D.tells → AnswersLater schema.now meta records.now (D.seen store.old) (Err no) }
    ensures kept { IsTrue D.tells → (n : ℕ) → is_kept (named_in meta.rowsets) n ≡ true → D.seen store.new n ≡ D.seen store.old n }
    ensures stable { OnOk result (IsTrue D.tells → AreStable D.seen D.now D.leaves store.new) }
    ensures removed { OnOk result (IsTrue D.tells → (n : ℕ) → is_kept (named_in meta.rowsets) n ≡ false → D.seen store.new n ≡ None) }
    ensures any_moment { IsTrue D.tells → LeavesOnly D.now D.leaves (HasFilesOf D.now D.leaves store.old) store.old store.new }
    ensures fault { result ≡ Err Why.Fault → Rose (D.faults store.old) (D.faults store.new) }
    ensures faults { D.faults store.old ≤ D.faults store.new }
{
    let rowsets = read_rowsets(alloc, store, &meta)?;
    if let Some(column) = first_other(schema.columns(), meta.schema.columns()) {
        return Err(Why::B5 { column });
    }
    let last = meta.c.max(last_of(records));
    if last >= LAST_MOST {
        return Err(Why::B6 { last });
    }
    let superblock = Superblock::read(&meta, &rowsets);
    let made = make(alloc, records, &meta, rowsets.into_vec(), cells)?;
    remove_others(alloc, store, &meta)?;
    Ok(Rebuilt {
        meta,
        superblock,
        made,
        last,
    })
}

/// Opens the devices of a tablet. Its pool has so many cells beside those that the rows of the log need.
pub fn open_devices<L: Disk, D: Disk>(
    alloc: Global,
    log: L,
    store: &mut D,
    schema: &Schema,
    cells: u32,
) -> Result<Opened<L>, (L, Why)>
    requires openable { IsTrue L.tells → CanOpen L.now L.leaves log }
    requires table { IsTable schema.now }

    // The parts are those of what both devices hold, and show each past that these hold by any rules.
    ensures found { IfOk result (λ o. (f : Found) × (o.superblock ≡ f.super) × IsOpened schema.now f o.meta o.records o.queued o.stores o.last o.next_rowset × HasRoom cells f o.stores
        × (IsTrue L.tells → IsTrue D.tells → Answers schema.now (L.seen log) (D.seen store.old) (Ok f)
        × ((rules : Rules) (c : ℕ) (past : Past) → HoldBoth rules schema.now (L.seen log) (D.seen store.old) c past → Shows f c past))) }
    ensures table { IfOk result (λ o. IsTrue L.tells → IsTrue D.tells → (rules : Rules) (c : ℕ) (past : Past) → HoldBoth rules schema.now (L.seen log) (D.seen store.old) c past → o.meta.schema ≡ schema.now) }

    // A refusal is one that opening has for what both hold. A device is blamed only where its count of faults rose.
    ensures refused { IfErr result (λ e. IsRefusal e.1 → IsTrue L.tells → IsTrue D.tells → Answers schema.now (L.seen log) (D.seen store.old) (Err e.1)) }
    ensures fault { IfErr result (λ e. e.1 ≡ Why.Fault → OneRose (L.faults log) (L.faults e.0) (D.faults store.old) (D.faults store.new)) }

    // The log goes on from its records.
    ensures usable { IfOk result (λ o. IsTrue o.journal.usable × (o.journal.count ≡ length o.records)) }
    ensures sound { IfOk result (λ o. IsLog o.records) }
    ensures records { IfOk result (λ o. IsTrue L.tells → log_of (L.seen log) ≡ Ok o.records) }
    ensures reads { IfOk result (λ o. IsTrue L.tells → records_of (L.seen o.journal.disk) ≡ o.records) }
    ensures durable { IfOk result (λ o. IsTrue L.tells → Holds L.now L.leaves o.journal.disk o.records) }

    // The store has the superblock, and its slots are stable. The files that it names are as they were, and all others are gone.
    ensures rules { IfOk result (λ o. IsMeta o.meta) }
    ensures meta { IfOk result (λ o. IsTrue D.tells → super_of (D.seen store.new) ≡ Ok (Some o.meta)) }
    ensures holds { IfOk result (λ o. IsTrue D.tells → (held : List HeldFiles) × HoldAll (D.seen store.new) o.meta.rowsets held × (o.superblock ≡ super_in o.meta held)) }
    ensures low { IfOk result (λ o. o.last < 2 ^ 63) }

    // The disk rowsets in memory have the files that the superblock names, or what can be read of them.
    ensures files { IfOk result (λ o. (held : List HeldFiles) × AreNamed o.meta.rowsets held × AreReadOf held o.stores.files × (IsTrue D.tells → HoldAll (D.seen store.new) o.meta.rowsets held)) }
    ensures stable { OnOk result (IsTrue D.tells → AreStable D.seen D.now D.leaves store.new) }
    ensures named { IfOk result (λ o. IsTrue D.tells → (n : ℕ) → has (named_in o.meta.rowsets) n ≡ true → D.seen store.new n ≡ D.seen store.old n) }
    ensures removed { IfOk result (λ o. IsTrue D.tells → (n : ℕ) → is_kept (named_in o.meta.rowsets) n ≡ false → D.seen store.new n ≡ None) }

    // Where nothing is pending of the files that the superblock of an image names, that stays so, whatever the answer.
    ensures stand { IsTrue D.tells → NamedStand D.seen D.now D.leaves store.old → NamedStand D.seen D.now D.leaves store.new }

    // The devices may be opened again.
    ensures openable { IfOk result (λ o. IsTrue L.tells → CanOpen L.now L.leaves o.journal.disk) }
    ensures openable_err { IfErr result (λ e. IsTrue L.tells → CanOpen L.now L.leaves e.0) }

    // All files of the log's device but the log read as before. A crash at any moment of the call leaves the frames of one image from before
    // it, and all other files of that one.
    ensures log_others { IfOk result (λ o. IsTrue L.tells → (n : ℕ) → n ≢ 1 → L.seen o.journal.disk n ≡ L.seen log n) }
    ensures log_others_err { IfErr result (λ e. IsTrue L.tells → (n : ℕ) → n ≢ 1 → L.seen e.0 n ≡ L.seen log n) }
    ensures log_moment { IfOk result (λ o. IsTrue L.tells → LeavesOnly L.now L.leaves (IsFrom L.now L.leaves 1 log) log o.journal.disk) }
    ensures log_moment_err { IfErr result (λ e. IsTrue L.tells → LeavesOnly L.now L.leaves (IsFrom L.now L.leaves 1 log) log e.0) }

    // And of the store it leaves the superblock of one image from before it, or the first one where that has none, and all files that it names.
    ensures store_moment { IsTrue D.tells → LeavesOnly D.now D.leaves (IsOfStore D.now D.leaves (first_meta schema.now) store.old) store.old store.new }

    // So each pair of images that a crash leaves at a moment of the call holds what a pair from before it holds, and opening answers the same: the log comes
    // to its end before the first superblock is published.
    ensures keeps { IfOk result (λ o. IsTrue L.tells → IsTrue D.tells → KeepsContent L.now L.leaves D.now D.leaves schema.now log store.old o.journal.disk store.new) }
    ensures keeps_err { IfErr result (λ e. IsTrue L.tells → IsTrue D.tells → KeepsContent L.now L.leaves D.now D.leaves schema.now log store.old e.0 store.new) }

    ensures log_faults { IfOk result (λ o. L.faults log ≤ L.faults o.journal.disk) }
    ensures log_faults_err { IfErr result (λ e. L.faults log ≤ L.faults e.0) }
    ensures store_faults { D.faults store.old ≤ D.faults store.new }
{
    let BothRead {
        journal,
        records,
        meta,
    } = match read_devices(alloc, log, store) {
        Ok(read) => read,
        Err(refused) => return Err(refused),
    };
    let rebuilt = match meta {
        None => open_first(alloc, &records, store, schema, cells),
        Some(meta) => open_later(alloc, &records, meta, store, schema, cells),
    };
    match rebuilt {
        Ok(
            Rebuilt {
                meta,
                superblock,
                made,
                last,
            },
        ) => Ok(Opened {
            journal,
            records,
            meta,
            superblock,
            stores: made.stores,
            queued: made.queued,
            last,
            next_rowset: made.next_rowset,
        }),
        Err(why) => Err((journal.into_disk(), why)),
    }
}
