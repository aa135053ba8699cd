//! What a job reads, and what it writes.
ghost use Rattle.std.specs.Prelude.{◌≡◌, length};

use crate::data::RowSetData;
use kt_baseset::Schema1;
use kt_history::ChangeList;
use std::marker::Model;

/// The changes of several stores, each by rising key, then timestamp. Contracts see them as a list.
#[derive(Drop)]
pub struct ChangeLists {
    lists: Vec<ChangeList>,
}

impl Model for ChangeLists {
    ghost use Rattle.std.specs.Prelude.{List};
    ghost use Rattle.kt_history.specs.declared.changes.KeyChange.{KeyChange};

    ghost Value = { List (List KeyChange) };

    ghost view = { λ c. c.lists.items };
}

impl ChangeLists {
    /// The lists of a vector, which takes no memory.
    pub fn of(lists: Vec<ChangeList>) -> ChangeLists
        ensures { result ≡ lists.items }
    {
        ChangeLists { lists }
    }

    /// The lists as a vector, which takes no memory.
    pub fn into_vec(self) -> Vec<ChangeList>
        ensures { result.items ≡ self }
    {
        self.lists
    }

    pub fn len(&self) -> usize
        ensures { result ≡ length self.now }
    {
        self.lists.len()
    }

    pub fn as_slice(&self) -> &[ChangeList]
        ensures { result.now ≡ self.now }
    {
        &self.lists
    }
}

/// Disk rowsets as plain data. Contracts see them as a list.
#[derive(Drop)]
pub struct RowSetList {
    rowsets: Vec<RowSetData>,
}

impl Model for RowSetList {
    ghost use Rattle.std.specs.Prelude.{List};
    ghost use Rattle.kt_diskrowset.specs.declared.data.RowSetData.{RowSetData};

    ghost Value = { List RowSetData };

    ghost view = { λ r. r.rowsets.items };
}

impl RowSetList {
    /// The rowsets of a vector, which takes no memory.
    pub fn of(rowsets: Vec<RowSetData>) -> RowSetList
        ensures { result ≡ rowsets.items }
    {
        RowSetList { rowsets }
    }

    /// The rowsets as a vector, which takes no memory.
    pub fn into_vec(self) -> Vec<RowSetData>
        ensures { result.items ≡ self }
    {
        self.rowsets
    }

    pub fn len(&self) -> usize
        ensures { result ≡ length self.now }
    {
        self.rowsets.len()
    }

    pub fn as_slice(&self) -> &[RowSetData]
        ensures { result.now ≡ self.now }
    {
        &self.rowsets
    }
}

/// What a job reads, as of its bound: the table's columns that are no key, the changes of each frozen MemRowSet, and the disk
/// rowsets. For a delta flush the changes in memory of these are those of the frozen DeltaMemStores alone; for a minor or a major
/// compaction there are none.
#[derive(Drop)]
pub struct Inputs {
    pub columns: Schema1,
    pub mems: ChangeLists,
    pub rowsets: RowSetList,
}

/// The disk rowsets that a job writes; a delta job's is the rowset with its new files.
#[derive(Drop)]
pub struct Outputs {
    pub rowsets: RowSetList,
}

/// For each output the changes that went to the inputs alone since the bound.
#[derive(Drop)]
pub struct Missed {
    pub lists: ChangeLists,
}
