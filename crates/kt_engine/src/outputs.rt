//! The outputs of a job: new disk rowsets, and these as a superblock names them.
ghost use Rattle.std.specs.Prelude.{◌≡◌, ◌≤◌, ◌+◌, [], true, map, length, IfOk};
ghost use Rattle.std.specs.List.{AllByRecursion};
ghost use Rattle.kt_diskrowset.specs.Data.{held_in, files_in};
ghost use Rattle.kt_diskrowset.specs.Rows.{UndosLeadBack};
ghost use Rattle.kt_diskrowset.specs.Rowset.{held_of};
ghost use Rattle.kt_outputs.specs.Outputs.{meta_in};
ghost use Rattle.kt_engine.specs.Outputs.{AreOutputs, AreMade};

use kt_base::NoMemory;
use kt_diskrowset::{DiskRowSet, Outputs, RowSetData};
use kt_outputs::named_rowset;
use kt_stores::RangedRowSets;
use kt_super::MetaRowset;
use std::alloc::Global;
use std::marker::Model;

/// Disk rowsets without a change in memory, and these as a superblock names them, in the same order, with an empty list for them and others. Contracts see the
/// first two, and how many the last has room for.
#[derive(Drop)]
pub struct JobOutputs {
    rowsets: RangedRowSets<DiskRowSet>,
    metas: Vec<MetaRowset>,
    room: RangedRowSets<DiskRowSet>,
}

impl Model for JobOutputs {
    ghost use Rattle.std.specs.Prelude.{◌≡◌, []};
    ghost use Rattle.kt_engine.specs.Outputs.{OutputsView, AreOutputs};

    ghost Value = { OutputsView };

    ghost view = { λ o. record { rowsets = o.rowsets.items; metas = o.metas.items; room = o.room.room } };

    ghost invariant = { λ o. AreOutputs o.metas.items o.rowsets.items × (o.room.items ≡ []) };
}

// New disk rowsets as a superblock names them.
fn metas_of(alloc: Global, rowsets: &[RowSetData]) -> Result<Vec<MetaRowset>, NoMemory>
    ensures { IfOk result (λ metas. metas.items ≡ map (meta_in 0) rowsets.now) }
{
    let mut metas = Vec::with_capacity(alloc, rowsets.len())?;
    'rowsets: for rowset in rowsets {
        metas.push_reserved(named_rowset(alloc, rowset, 0)?);
    }
    Ok(metas)
}

/// Whether each leads back from its base to its oldest row.
pub fn lead_back(alloc: Global, rowsets: &[RowSetData]) -> Result<bool, NoMemory>
    ensures { IfOk result (λ lead. lead ≡ true → AllByRecursion (λ d. UndosLeadBack (files_in d)) rowsets.now) }
{
    'rowsets: for rowset in rowsets {
        if !rowset.undos_fit(alloc)? {
            return Ok(false);
        }
    }
    Ok(true)
}

// New disk rowsets, each with a DeltaMemStore of number 1.
fn made(alloc: Global, rowsets: Vec<RowSetData>) -> Result<Vec<DiskRowSet>, NoMemory>
    requires lead { AllByRecursion (λ d. UndosLeadBack (files_in d)) rowsets.items }
    requires fresh { AllByRecursion (λ d. d.fresh ≡ []) rowsets.items }
    ensures made { IfOk result (λ made. AreMade rowsets.items made.items) }
{
    let mut made = Vec::with_capacity(alloc, rowsets.len())?;
    let mut rest = rowsets.into_iter();
    'rest: while let Some(rowset) = rest.next() {
        made.push_reserved(DiskRowSet::of(alloc, rowset, 1));
    }
    Ok(made)
}

// An empty list with room for so many disk rowsets and so many others.
fn room_for(
    alloc: Global,
    count: usize,
    others: usize,
) -> Result<RangedRowSets<DiskRowSet>, NoMemory>
    ensures none { IfOk result (λ room. room.items ≡ []) }
    ensures room { IfOk result (λ room. others + count ≤ room.room) }
{
    let room = count.checked_add(others).ok_or(NoMemory)?;
    RangedRowSets::with_room(alloc, room)
}

impl JobOutputs {
    /// None.
    pub fn none(alloc: Global) -> JobOutputs
        ensures { (result.rowsets ≡ []) × (result.metas ≡ []) }
    {
        JobOutputs {
            rowsets: RangedRowSets::empty(alloc),
            metas: Vec::new(alloc),
            room: RangedRowSets::empty(alloc),
        }
    }

    /// These, new disk rowsets that lead back, with room beside them for so many others.
    pub fn of(alloc: Global, outputs: Outputs, others: usize) -> Result<JobOutputs, NoMemory>
        requires lead { AllByRecursion (λ d. UndosLeadBack (files_in d)) outputs.rowsets }
        requires fresh { AllByRecursion (λ d. d.fresh ≡ []) outputs.rowsets }
        ensures held { IfOk result (λ made. map held_of made.rowsets ≡ map held_in outputs.rowsets) }
        ensures metas { IfOk result (λ made. made.metas ≡ map (meta_in 0) outputs.rowsets) }
        ensures room { IfOk result (λ made. others + length outputs.rowsets ≤ made.room) }
    {
        let metas = metas_of(alloc, outputs.rowsets.as_slice())?;
        let room = room_for(alloc, outputs.rowsets.len(), others)?;
        let all = made(alloc, outputs.rowsets.into_vec())?;
        let rowsets = RangedRowSets::of(alloc, all)?;
        Ok(JobOutputs {
            rowsets,
            metas,
            room,
        })
    }

    /// How many there are.
    pub fn len(&self) -> usize
        ensures { result ≡ length self.now.rowsets }
    {
        self.rowsets.as_slice().len()
    }

    /// As a superblock names them.
    pub fn metas(&self) -> &[MetaRowset]
        ensures { result.now ≡ self.now.metas }
    {
        &self.metas
    }

    /// The disk rowsets, which stand in each pool as their files have them, and the empty list.
    pub fn into_parts(self) -> (RangedRowSets<DiskRowSet>, RangedRowSets<DiskRowSet>)
        ensures rowsets { result.0.items ≡ self.rowsets }
        ensures room { (result.1.items ≡ []) × (result.1.room ≡ self.room) }
        ensures stand { AreOutputs self.metas self.rowsets }
    {
        (self.rowsets, self.room)
    }
}
