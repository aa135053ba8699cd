//! Disk rowsets in a row, with the ranges of their keys in a tree.
ghost use Rattle.std.specs.Prelude.{◌≡◌, ◌≤◌, [], map, IfOk, vec_capacity};
ghost use Rattle.kt_stores.specs.Ranges.{AreRanged};

use crate::file_store::FileStore;
use crate::range_tree::RangeTree;
use kt_base::NoMemory;
use std::alloc::Global;
use std::marker::Model;

/// Disk rowsets in their order, with the ranges of their keys, and room for some. All that more rowsets ask of memory is made here,
/// so that a tablet takes none where they come in.
#[derive(Drop)]
pub struct RangedRowSets<R: FileStore> {
    rowsets: Vec<R>,
    ranges: RangeTree,
}

impl<R: FileStore> Model for RangedRowSets<R> {
    ghost use Rattle.std.specs.Prelude.{map, ◌≤◌};
    ghost use Rattle.std.specs.Vec.{vec_capacity};
    ghost use Rattle.kt_stores.specs.Ranges.{Listed, AreRanged};

    ghost Value = { Listed R };

    ghost view = { λ l. record { items = l.rowsets.items; room = l.ranges.room } };

    ghost invariant = { λ l. AreRanged (map R.files l.rowsets.items) l.ranges × (l.ranges.room ≤ vec_capacity l.rowsets) };
}

impl<R: FileStore> RangedRowSets<R> {
    /// None, without room.
    pub fn empty(alloc: Global) -> RangedRowSets<R>
        ensures { result.items ≡ [] }
    {
        RangedRowSets {
            rowsets: Vec::new(alloc),
            ranges: RangeTree::empty(alloc),
        }
    }

    /// Those in it.
    pub fn as_slice(&self) -> &[R]
        ensures { result.now ≡ self.now.items }
    {
        &self.rowsets
    }

    /// The rowsets, and the ranges of their keys.
    pub(crate) fn into_parts(self) -> (Vec<R>, RangeTree)
        ensures rowsets { result.0.items ≡ self.items }
        ensures capacity { self.room ≤ vec_capacity result.0 }
        ensures ranged { AreRanged (map R.files self.items) result.1 }
        ensures room { result.1.room ≡ self.room }
    {
        (self.rowsets, self.ranges)
    }
}

impl<R: FileStore + Drop> RangedRowSets<R> {
    /// None, with room for so many.
    pub fn with_room(alloc: Global, room: usize) -> Result<RangedRowSets<R>, NoMemory>
        ensures none { IfOk result (λ list. list.items ≡ []) }
        ensures room { IfOk result (λ list. list.room ≡ room) }
    {
        let rowsets = Vec::with_capacity(alloc, room)?;
        let ranges = RangeTree::with_room(alloc, room)?;
        Ok(RangedRowSets { rowsets, ranges })
    }

    /// These rowsets, with no room for others.
    pub fn of(alloc: Global, rowsets: Vec<R>) -> Result<RangedRowSets<R>, NoMemory>
        ensures { IfOk result (λ list. list.items ≡ rowsets.items) }
    {
        let ranges = RangeTree::of(alloc, &rowsets)?;
        Ok(RangedRowSets { rowsets, ranges })
    }
}
