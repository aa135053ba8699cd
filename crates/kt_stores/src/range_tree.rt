//! The ranges of the keys of disk rowsets in a tree.
ghost use Rattle.std.specs.Prelude.{◌≡◌, ◌<◌, ◌≤◌, ◌+◌, ◌^◌, ◌++◌, ◌==◌, [], ℕ, true, All, length, map, get_or, IfOk};
ghost use Rattle.std.specs.List.{filter, list_any, position};
ghost use Rattle.std.specs.List.Sorted.{IsPermutation, IsSorted};
ghost use Rattle.std.specs.Ordering.{nat_cmp};
ghost use Rattle.kt_diskrowset.specs.Rowset.{held_of};
ghost use Rattle.kt_rowtree.specs.Ranges.{IsOrderly, places_out, raised};
ghost use Rattle.kt_stores.specs.Leaving.{stays_beside};
ghost use Rattle.kt_stores.specs.Ranges.{ranges_of, KeysRise, AreRanged};
ghost use Rattle.kt_stores.specs.Shelf.{has_live};

use crate::file_store::FileStore;
use crate::stores::changing::is_among;
use kt_base::NoMemory;
use kt_diskrowset::DiskRowSet;
use kt_pool::Pool;
use kt_rowtree::{IdList, Range, RangeList, RowTree};
use std::alloc::Global;
use std::marker::Model;

/// The ranges of the keys of disk rowsets in a tree, each numbered by the place of its rowset, so that those that may have a key
/// are found without asking each; and the list that a search fills.
#[derive(Drop)]
pub struct RangeTree {
    tree: RowTree,
    held: IdList,
    room: usize,
}

impl Model for RangeTree {
    ghost use Rattle.std.specs.Prelude.{◌≤◌};
    ghost use Rattle.kt_rowtree.specs.Ranges.{Tree};

    ghost Value = { Tree };

    ghost view = { λ t. record { ranges = t.tree.ranges; room = t.room } };

    ghost invariant = { λ t. (t.room ≤ t.tree.room) × (t.room ≤ t.held.room) };
}

// The range of the keys of each rowset, numbered by its place.
fn ranges_in<R: FileStore>(alloc: Global, rowsets: &[R]) -> Result<RangeList, NoMemory>
    ensures ranges { IfOk result (λ ranges. ranges ≡ ranges_of (map R.files rowsets.now)) }
    ensures rise { IfOk result (λ ranges. KeysRise (map R.files rowsets.now)) }
{
    let mut ranges = Vec::with_capacity(alloc, rowsets.len())?;
    for rowset in rowsets {
        let (least, greatest) = rowset.ends(alloc)?;
        ranges.push_reserved(Range {
            rowset: ranges.len() as u64,
            least,
            greatest,
        });
    }
    Ok(RangeList::from_vec(ranges))
}

// The first of these places at which a rowset has the row of a key after all changes, where each such place is among them.
fn first_among<R: FileStore>(
    rowsets: &[R],
    places: &[u64],
    pool: &Pool,
    key: &[u8],
) -> Option<usize>
    requires stand { All (λ s. R.stands s pool.now) rowsets.now }
    requires inside { All (λ p. p < length rowsets.now) places.now }
    requires rise { IsSorted nat_cmp places.now }
    requires all { (k : ℕ) (d : R) → k < length rowsets.now → has_live key.now (R.store (get_or rowsets.now k d) pool.now) ≡ true → list_any (λ p. p == k) places.now ≡ true }
    ensures { result ≡ position (λ s. has_live key.now (R.store s pool.now)) rowsets.now }
{
    for place in places {
        let at = *place as usize;
        if rowsets[at].live(pool, key) {
            return Some(at);
        }
    }
    None
}

// The places of the disk rowsets of some numbers, in place of what is listed.
fn list_leaving(rowsets: &[DiskRowSet], numbers: &[u64], places: &mut IdList)
    requires { length rowsets.now ≤ places.old.room }
    ensures places { places.new.ids ≡ places_out (stays_beside numbers.now) 0 rowsets.now }
    ensures room { places.new.room ≡ places.old.room }
{
    places.clear();
    for at in 0..rowsets.len() {
        if is_among(&rowsets[at], numbers) {
            places.add(at as u64);
        }
    }
}

impl RangeTree {
    /// A tree of no range, without room.
    pub fn empty(alloc: Global) -> RangeTree
        ensures ranges { result.ranges ≡ [] }
        ensures room { result.room ≡ 0 }
    {
        RangeTree {
            tree: RowTree::empty(alloc),
            held: IdList::from_vec(Vec::new(alloc)),
            room: 0,
        }
    }

    /// A tree of no range, with room for so many.
    pub fn with_room(alloc: Global, room: usize) -> Result<RangeTree, NoMemory>
        ensures none { IfOk result (λ tree. tree.ranges ≡ []) }
        ensures room { IfOk result (λ tree. tree.room ≡ room) }
    {
        let tree = RowTree::with_room(alloc, room)?;
        let held = IdList::with_room(alloc, room)?;
        Ok(RangeTree { tree, held, room })
    }

    /// A tree of the ranges of these rowsets.
    pub fn of<R: FileStore>(alloc: Global, rowsets: &[R]) -> Result<RangeTree, NoMemory>
        ensures ranged { IfOk result (λ tree. AreRanged (map R.files rowsets.now) tree) }
        ensures room { IfOk result (λ tree. tree.room ≡ length rowsets.now) }
    {
        let ranges = ranges_in(alloc, rowsets)?;
        let mut all = RangeTree::with_room(alloc, rowsets.len())?;
        all.tree.replace(&[], ranges);
        Ok(all)
    }

    /// The place of the first of its rowsets that has the row of a key after all changes.
    pub fn first_live<R: FileStore>(
        &mut self,
        rowsets: &[R],
        pool: &Pool,
        key: &[u8],
    ) -> Option<usize>
        requires stand { All (λ s. R.stands s pool.now) rowsets.now }
        requires ranged { AreRanged (map R.files rowsets.now) self.old }
        ensures first { result ≡ position (λ s. has_live key.now (R.store s pool.now)) rowsets.now }
        ensures same { self.new ≡ self.old }
    {
        R::keys_law();
        self.tree.holders(key, &mut self.held);
        first_among(rowsets, self.held.as_slice(), pool, key)
    }

    /// The ranges of another tree come in, of rowsets that stand so many places behind their own now. It takes no memory.
    pub fn take_over(&mut self, first: u64, others: RangeTree)
        requires orderly { IsOrderly others.ranges }
        requires low { All (λ r. r.rowset + first < 2 ^ 64) others.ranges }
        requires room { length self.old.ranges + length others.ranges ≤ self.old.room }
        ensures ranges { IsPermutation (self.old.ranges ++ map (raised first) others.ranges) self.new.ranges }
        ensures room { self.new.room ≡ self.old.room }
    {
        let RangeTree { tree, .. } = others;
        self.tree.replace(&[], tree.into_ranges().raised(first));
    }

    /// The disk rowsets of some numbers leave, and those that are left close up. It takes no memory.
    pub fn leave(&mut self, rowsets: &[DiskRowSet], numbers: &[u64])
        requires { AreRanged (map held_of rowsets.now) self.old }
        ensures { AreRanged (map held_of (filter (stays_beside numbers.now) rowsets.now)) self.new }
    {
        list_leaving(rowsets, numbers, &mut self.held);
        self.tree.close_up(self.held.as_slice());
    }
}
