ghost use Rattle.std.specs.Prelude.{◌≡◌, ◌<◌, ◌≤◌, ◌+◌, ◌^◌, ◌++◌, ◌∷◌, [], map, length, All, IfOk, OnOk};
ghost use Rattle.std.specs.Vec.{vec_capacity};

use crate::links::Link;
use crate::search::gather;
use crate::stack::gather_deepest;
use kt_bytes::{NoMemory, Octets};
use std::alloc::Global;
use std::marker::Model;

/// The keys that a rowset covers: from `least` to `greatest`, both included.
#[derive(Drop)]
pub struct Range {
    pub rowset: u64,
    pub least: Octets,
    pub greatest: Octets,
}

impl Range {
    pub fn copy(&self) -> Result<Range, NoMemory>
        ensures { IfOk result (λ copy. copy ≡ self.now) }
    {
        let least = self.least.copy()?;
        let greatest = self.greatest.copy()?;
        Ok(Range {
            rowset: self.rowset,
            least,
            greatest,
        })
    }
}

/// A list of ranges.
#[derive(Drop)]
pub struct RangeList {
    ranges: Vec<Range>,
}

impl Model for RangeList {
    ghost use Rattle.std.specs.Prelude.{List};
    ghost use Rattle.kt_rowtree.specs.declared.lists.Range.{Range};

    ghost Value = { List Range };

    ghost view = { λ l. l.ranges.items };
}

impl RangeList {
    ghost use Rattle.kt_rowtree.specs.Ranges.{raised};

    pub fn from_vec(ranges: Vec<Range>) -> RangeList
        ensures { result ≡ ranges.items }
    {
        RangeList { ranges }
    }

    pub fn into_vec(self) -> Vec<Range>
        ensures { result.items ≡ self }
    {
        let RangeList { ranges } = self;
        ranges
    }

    pub fn as_slice(&self) -> &[Range]
        ensures { result.now ≡ self.now }
    {
        self.ranges.as_slice()
    }

    /// The ranges of rowsets whose numbers are greater by so much. It takes no memory.
    pub fn raised(self, more: u64) -> RangeList
        requires { All (λ r. r.rowset + more < 2 ^ 64) self }
        ensures { result ≡ map (raised more) self }
    {
        let RangeList { mut ranges } = self;
        for range in ranges.iter_mut() {
            range.rowset += more;
        }
        RangeList { ranges }
    }

    pub fn copy(&self, alloc: Global) -> Result<RangeList, NoMemory>
        ensures { IfOk result (λ copy. copy ≡ self.now) }
    {
        let ranges = self.as_slice();
        let mut copies = Vec::with_capacity(alloc, ranges.len())?;
        for range in ranges {
            copies.push(range.copy()?)?;
        }
        Ok(RangeList { ranges: copies })
    }
}

/// A list of rowset numbers, with room for some.
#[derive(Drop)]
pub struct IdList {
    ids: Vec<u64>,
}

impl Model for IdList {
    ghost use Rattle.kt_rowtree.specs.Ids.{Ids};
    ghost use Rattle.std.specs.Vec.{vec_capacity};

    ghost Value = { Ids };

    ghost view = { λ l. record { ids = l.ids.items; room = vec_capacity l.ids } };
}

impl IdList {
    ghost use Rattle.kt_rowtree.specs.Ranges.{holders_of, AreHolders, IsDeepest, IsOrderly, IsByLeast, AreLinks};

    pub fn from_vec(ids: Vec<u64>) -> IdList
        ensures ids { result.ids ≡ ids.items }
        ensures room { result.room ≡ vec_capacity ids }
    {
        IdList { ids }
    }

    /// An empty list with room for so many numbers.
    pub fn with_room(alloc: Global, room: usize) -> Result<IdList, NoMemory>
        ensures none { IfOk result (λ list. list.ids ≡ []) }
        ensures room { IfOk result (λ list. room ≤ list.room) }
    {
        Ok(IdList {
            ids: Vec::with_capacity(alloc, room)?,
        })
    }

    /// Takes all numbers out. The room stays.
    pub fn clear(&mut self)
        ensures ids { self.new.ids ≡ [] }
        ensures room { self.new.room ≡ self.old.room }
    {
        self.ids.clear();
    }

    /// A number comes behind the others, in room that was made before.
    pub fn add(&mut self, id: u64)
        requires { length self.old.ids < self.old.room }
        ensures ids { self.new.ids ≡ self.old.ids ++ id ∷ [] }
        ensures room { self.new.room ≡ self.old.room }
    {
        self.ids.push_reserved(id);
    }

    pub fn into_vec(self) -> Vec<u64>
        ensures ids { result.items ≡ self.ids }
        ensures room { vec_capacity result ≡ self.room }
    {
        let IdList { ids } = self;
        ids
    }

    pub fn as_slice(&self) -> &[u64]
        ensures { result.now ≡ self.now.ids }
    {
        self.ids.as_slice()
    }

    /// Puts what `collect` finds into the list, by number, in place of what is there.
    pub(crate) fn hold(&mut self, ranges: &[Range], links: &[Link], key: &[u8])
        requires by_least { IsByLeast ranges.now }
        requires links { AreLinks ranges.now links.now }
        requires all { length links.now ≡ length ranges.now }
        requires room { length (holders_of key.now ranges.now) ≤ self.old.room }
        ensures holders { AreHolders key.now ranges.now self.new.ids }
        ensures room { self.old.room ≤ self.new.room }
    {
        gather(ranges, links, key, &mut self.ids);
    }

    /// Puts the rowsets of the deepest stack into the list, by number, in place of what is there; of no range, none.
    pub(crate) fn hold_deepest(&mut self, ranges: &[Range], links: &[Link])
        requires by_least { IsByLeast ranges.now }
        requires links { AreLinks ranges.now links.now }
        requires all { length links.now ≡ length ranges.now }
        requires orderly { IsOrderly ranges.now }
        requires room { length ranges.now ≤ self.old.room }
        ensures deepest { 0 < length ranges.now → IsDeepest ranges.now self.new.ids }
        ensures room { self.old.room ≤ self.new.room }
    {
        gather_deepest(ranges, links, &mut self.ids);
    }

    /// Makes room for so many numbers in all.
    pub(crate) fn make_room(&mut self, total: usize) -> Result<(), NoMemory>
        ensures ids { self.new.ids ≡ self.old.ids }
        ensures room { OnOk result (total ≤ self.new.room) }
        ensures kept { self.old.room ≤ self.new.room }
    {
        self.ids.reserve(total.saturating_sub(self.ids.len()))?;
        Ok(())
    }
}
