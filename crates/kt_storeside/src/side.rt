//! The store of an engine, at home or lent.
ghost use Rattle.std.specs.Prelude.{◌≡◌, ◌≤◌, ◌+◌, ℕ, List, Bool, IsTrue, true, false, Some, None, Ok};
ghost use Rattle.kt_base.specs.Causes.{Rose};
ghost use Rattle.kt_disk.specs.Disk.{LeavesOnly};
ghost use Rattle.kt_super.specs.declared.meta.Meta.{Meta};
ghost use Rattle.kt_super.specs.Body.{IsMeta};
ghost use Rattle.kt_super.specs.Slots.{super_of, AreStable};
ghost use Rattle.kt_storeside.specs.Supers.{Publishes, HasSuper};
ghost use Rattle.kt_storeside.specs.Turns.{IsLeft, IsTurn, StandsWith, HasOneOf};
ghost use Rattle.kt_storeside.specs.Published.{WasPublished};
ghost use Rattle.kt_storeside.specs.Sides.{StoreView, IsSide, MayBeLent, HasEither, SpellLent, LeavesSpelled, SpellMade, published_in, most_from};

use kt_disk::Disk;
use kt_super::Meta;
use std::marker::Model;
use std::mem;
use std::snapshot::Snapshot;

/// So many superblocks are published in one opening at most.
const MANY_SUPERBLOCKS: u64 = 1 << 44;

/// The store, lent to a pass: with the superblock that it is to publish, if it is to publish one, and the first numbers of rowsets and files
/// that it may give.
#[derive(Drop)]
pub struct Lent<D> {
    pub device: D,
    pub meta: Option<Meta>,
    pub next_rowset: u64,
    pub next_file: u64,
}

/// The store, its superblock and its numbers.
#[derive(Drop)]
pub struct StoreSide<D: Disk> {
    home: Option<D>,
    by: u32,
    whole: bool,
    meta: Meta,
    next_rowset: u64,
    next_file: u64,
    went: Snapshot<D>,
    lent: Snapshot<Option<Meta>>,
    first: Snapshot<D>,
    first_number: u64,
    first_meta: Snapshot<Meta>,
    first_mem: Snapshot<u64>,
    first_rowset: Snapshot<u64>,
}

impl<D: Disk> Model for StoreSide<D> {
    ghost use Rattle.kt_storeside.specs.Sides.{StoreView, IsSide, side_of, most_above};

    ghost Value = { StoreView D };

    ghost view = { λ s. side_of s.home s.whole s.went.value s.by s.meta s.lent.value s.next_rowset s.next_file (record { device = s.first.value; most = most_above s.first_number s.first_meta.value s.first_mem.value s.first_rowset.value }) };

    ghost invariant = { λ s. IsSide D.tells D.seen D.now D.leaves D.faults (side_of s.home s.whole s.went.value s.by s.meta s.lent.value s.next_rowset s.next_file (record { device = s.first.value; most = most_above s.first_number s.first_meta.value s.first_mem.value s.first_rowset.value })) };
}

// Puts the device into its empty place.
fn settle<D: Drop>(place: &mut Option<D>, device: D)
    requires { place.old ≡ None }
    ensures { place.new ≡ Some device }
{
    match mem::replace(place, Some(device)) {
        None => {}
        Some(_) => unreachable!(),
    }
}

// Puts the superblock that was lent in the place of the one from before, where it was published.
fn put_published(place: &mut Meta, lent: Option<Meta>, published: bool)
    ensures { place.new ≡ published_in published lent place.old }
{
    if !published {
        return;
    }
    if let Some(meta) = lent {
        *place = meta;
    }
}

impl<D: Disk + Drop> StoreSide<D> {
    /// A device that publishes this superblock, while the MemRowSet of this number takes inserts. No file of it has a number that is still to be given.
    pub fn of(device: D, meta: Meta, next_rowset: u64, next_file: u64, mem: u64) -> StoreSide<D>
        requires rules { IsMeta meta }
        requires rowsets { meta.next_rowset ≤ next_rowset }
        requires files { meta.next_file ≤ next_file }
        requires publishes { IsTrue D.tells → Publishes D.seen D.now D.leaves meta device }
        requires vacant { IsTrue D.tells → (n : ℕ) → next_file ≤ n → D.seen device n ≡ None }
        ensures { result ≡ record { home = Some device; known = device; holder = None; meta = meta; lent = None; next_rowset = next_rowset; next_file = next_file; whole = true; first = record { device = device; most = most_from meta mem next_rowset } } }
    {
        StoreSide {
            by: 0,
            whole: true,
            next_rowset,
            next_file,
            went: Snapshot::of(&device),
            lent: Snapshot::of(&None),
            first: Snapshot::of(&device),
            first_number: meta.number,
            first_meta: Snapshot::of(&meta),
            first_mem: Snapshot::of(&mem),
            first_rowset: Snapshot::of(&next_rowset),
            home: Some(device),
            meta,
        }
    }

    /// The pass that has the device out. Where there is none it is at home.
    pub fn by(&self) -> Option<u32>
        ensures holder { result ≡ self.now.holder }
        ensures home { self.now.holder ≡ None → (device : D) × (self.now.home ≡ Some device) }
    {
        if self.home.is_none() {
            Some(self.by)
        } else {
            None
        }
    }

    /// The superblock that is published.
    pub fn meta(&self) -> &Meta
        ensures { result.now ≡ self.now.meta }
    {
        &self.meta
    }

    /// The numbers of the next rowset and of the next file.
    pub fn next_numbers(&self) -> (u64, u64)
        ensures { result ≡ (self.now.next_rowset, self.now.next_file) }
    {
        (self.next_rowset, self.next_file)
    }

    // Whether the next superblock may be published: too few were since the side began for its number to lie above the bound.
    pub(crate) fn has_number(&self) -> bool
        ensures { IsTrue result → self.now.meta.number + 1 ≤ self.now.first.most.number }
    {
        self.meta.number.saturating_sub(self.first_number) < MANY_SUPERBLOCKS
    }

    /// The store stands. What a crash leaves of a device at home is the published superblock with the data files that it names; after a fault (`broken` of
    /// `IsSide`) that or the one that was lent. No slot of it spells a superblock that it did not spell when the side began, and that was not made since. At each
    /// moment since then a crash left the superblock that was published, or the one that was out to be, and the files that it names.
    pub fn standing(&self)
        ensures side { IsSide D.tells D.seen D.now D.leaves D.faults self.now }
        ensures whole { IsTrue self.now.whole → (device : D) → self.now.home ≡ Some device → device ≡ self.now.known }
        ensures crash { IsTrue self.now.whole → IsTrue D.tells → (device : D) → self.now.home ≡ Some device → (c : _) → D.leaves device (D.now device) c → HasSuper (D.seen device) self.now.meta c }
        ensures made { IsTrue D.tells → (device : D) → self.now.home ≡ Some device → (c : _) → D.leaves device (D.now device) c → SpellMade D.seen self.now c }
        ensures moments { IsTrue D.tells → (device : D) → self.now.home ≡ Some device → WasPublished D.seen D.now D.leaves self.now.first.device device }
    {
        // The invariant of this very value says so.
        let _whole = self.whole;
    }

    /// Lends the device to a pass, with a superblock to publish or with none.
    pub fn lend(&mut self, number: u32, meta: Option<Meta>) -> Lent<D>
        requires home { self.old.holder ≡ None }
        requires whole { IsTrue self.old.whole }
        requires lent { (m : Meta) → meta ≡ Some m → MayBeLent D.tells D.seen D.now D.leaves self.old m }
        ensures device { (self.old.home ≡ Some result.device) × (result.device ≡ self.old.known) }
        ensures meta { result.meta ≡ meta }
        ensures numbers { (result.next_rowset ≡ self.old.next_rowset) × (result.next_file ≡ self.old.next_file) }
        ensures side { self.new ≡ record self.old { home = None; holder = Some number; lent = meta } }
    {
        let Some(device) = self.home.take() else {
            unreachable!();
        };
        self.by = number;
        self.went = Snapshot::of(&device);
        self.lent = Snapshot::of(&meta);
        Lent {
            device,
            meta,
            next_rowset: self.next_rowset,
            next_file: self.next_file,
        }
    }

    /// Takes the device home, with the first numbers that were not used. Its superblock is the one that was lent where that was published, and else
    /// the one from before.
    pub fn come_home(&mut self, number: u32, lent: Lent<D>, published: bool)
        requires out { self.old.holder ≡ Some number }
        requires whole { IsTrue self.old.whole }
        requires meta { lent.meta ≡ self.old.lent }
        requires lent { IsTrue published → (m : Meta) × (lent.meta ≡ Some m) }
        requires numbers { (self.old.next_rowset ≤ lent.next_rowset) × (self.old.next_file ≤ lent.next_file) }
        requires turn { IsTrue D.tells → IsTurn D.seen D.now D.leaves self.old.next_file lent.next_file self.old.known lent.device }
        requires superblock { IsTrue D.tells → super_of (D.seen lent.device) ≡ Ok (Some (published_in published lent.meta self.old.meta)) }
        requires slots { IsTrue D.tells → AreStable D.seen D.now D.leaves lent.device }
        requires spells { IsTrue D.tells → SpellLent (D.seen self.old.known) lent.meta (D.seen lent.device) }
        // At no moment has a crash left anything else than the published superblock or the one that was lent, and the files that it names.
        requires moments { IsTrue D.tells → LeavesOnly D.now D.leaves (HasEither D.seen self.old) self.old.known lent.device }
        ensures side { self.new ≡ record self.old { home = Some lent.device; known = lent.device; holder = None; meta = published_in published lent.meta self.old.meta; lent = None; next_rowset = lent.next_rowset; next_file = lent.next_file; whole = true } }
        ensures stands { IsTrue D.tells → (n : ℕ) (bytes : List ℕ) → IsLeft self.old.next_file lent.next_file n → StandsWith D.now D.leaves n bytes self.old.known → StandsWith D.now D.leaves n bytes self.new.known }
    {
        let Lent {
            device,
            meta,
            next_rowset,
            next_file,
        } = lent;
        put_published(&mut self.meta, meta, published);
        self.next_rowset = next_rowset;
        self.next_file = next_file;
        settle(&mut self.home, device);
    }

    /// Takes the device home after a fault. It is not lent again.
    pub fn come_broken(&mut self, number: u32, lent: Lent<D>)
        requires out { self.old.holder ≡ Some number }
        requires numbers { self.old.next_file ≤ lent.next_file }
        requires turn { IsTrue D.tells → IsTurn D.seen D.now D.leaves self.old.next_file lent.next_file self.old.known lent.device }
        requires one_of { IsTrue D.tells → HasOneOf D.now D.leaves self.old.meta (published_in true self.old.lent self.old.meta) lent.device }
        requires spells { IsTrue D.tells → LeavesSpelled D.now D.leaves (D.seen self.old.known) self.old.lent lent.device }
        requires rose { Rose (D.faults self.old.known) (D.faults lent.device) }
        requires moments { IsTrue D.tells → LeavesOnly D.now D.leaves (HasEither D.seen self.old) self.old.known lent.device }
        ensures { self.new ≡ record self.old { home = Some lent.device; holder = None; whole = false } }
    {
        let Lent {
            device,
            meta: _,
            next_rowset: _,
            next_file: _,
        } = lent;
        self.whole = false;
        settle(&mut self.home, device);
    }

    /// The device and the superblock that is published, where no pass has the device out.
    pub fn take_apart(self) -> (D, Meta)
        requires home { self.holder ≡ None }
        ensures device { self.home ≡ Some result.0 }
        ensures meta { result.1 ≡ self.meta }
    {
        let StoreSide { home, meta, .. } = self;
        let Some(device) = home else {
            unreachable!();
        };
        (device, meta)
    }
}
