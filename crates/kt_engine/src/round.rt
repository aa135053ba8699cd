//! The rounds of maintenance commands: what each has to do as the stores stand.
ghost use Rattle.std.specs.Prelude.{◌≡◌, IfOk, OnErr, Err, true, ◌∷◌, [], map};
ghost use Rattle.kt_engine.specs.Jobs.{HasUpkeep, upkeep_at};
ghost use Rattle.kt_engine.specs.JobSteps.{IsUntouched};
ghost use Rattle.kt_files.specs.Held.{numbers_named};
ghost use Rattle.kt_engine.specs.Rounds.{want_on, wants_of, round_of};
ghost use Rattle.kt_engine.specs.Visits.{IsVisit};

use crate::engine::Engine;
use crate::upkeep::copy_ids;
use kt_base::{Chore, Clock, NoMemory};
use kt_disk::Disk;
use kt_pick::Want;
use kt_policy::IdList;
use kt_super::MetaRowset;
use kt_tablet::LookNo;
use std::alloc::Global;
use std::marker::Model;

/// What is to be done. Contracts see it as a list.
#[derive(Drop)]
pub struct WantList {
    wants: Vec<Want>,
}

impl Model for WantList {
    ghost use Rattle.std.specs.Prelude.{List};
    ghost use Rattle.kt_pick.specs.declared.rules.Want.{Want};

    ghost Value = { List Want };

    ghost view = { λ w. w.wants.items };
}

impl WantList {
    /// The wants of a vector, which takes no memory.
    pub fn of(wants: Vec<Want>) -> WantList
        ensures { result ≡ wants.items }
    {
        WantList { wants }
    }

    pub fn as_slice(&self) -> &[Want]
        ensures { result.now ≡ self.now }
    {
        &self.wants
    }
}

// What a chore wants of one disk rowset.
fn want_on(chore: Chore, rowset: u64) -> Want
    ensures { result ≡ want_on chore rowset }
{
    match chore {
        Chore::Flush => Want::Flush,
        Chore::FlushDeltas => Want::FlushDeltas(rowset),
        Chore::Minor => Want::Minor(rowset),
        Chore::Major => Want::Major(rowset),
        // A compaction is of all.
        Chore::Compact => Want::Flush,
    }
}

// The numbers of disk rowsets, in their order. Those of a superblock rise.
fn numbers_of(alloc: Global, rowsets: &[MetaRowset]) -> Result<IdList, NoMemory>
    ensures { IfOk result (λ numbers. numbers ≡ numbers_named rowsets.now) }
{
    let mut numbers = Vec::with_capacity(alloc, rowsets.len())?;
    'rowsets: for rowset in rowsets {
        numbers.push_reserved(rowset.rowset);
    }
    Ok(IdList::of(numbers))
}

// One want alone.
fn one_want(alloc: Global, want: Want) -> Result<Vec<Want>, NoMemory>
    ensures { IfOk result (λ wants. wants.items ≡ want ∷ []) }
{
    let mut wants = Vec::with_capacity(alloc, 1)?;
    wants.push_reserved(want);
    Ok(wants)
}

// What a chore wants of each of these rowsets.
fn each_want(alloc: Global, chore: Chore, rowsets: &[u64]) -> Result<Vec<Want>, NoMemory>
    ensures { IfOk result (λ wants. wants.items ≡ map (want_on chore) rowsets.now) }
{
    let mut wants = Vec::with_capacity(alloc, rowsets.len())?;
    'rowsets: for rowset in rowsets {
        wants.push_reserved(want_on(chore, *rowset));
    }
    Ok(wants)
}

// What a chore wants of disk rowsets with these numbers, which rise.
fn wants_of(alloc: Global, chore: Chore, rowsets: &IdList) -> Result<Vec<Want>, NoMemory>
    ensures { IfOk result (λ wants. wants.items ≡ wants_of chore rowsets.now) }
{
    let ids = rowsets.as_slice();
    match chore {
        Chore::Flush => one_want(alloc, Want::Flush),
        Chore::Compact if ids.is_empty() => Ok(Vec::new(alloc)),
        Chore::Compact => one_want(alloc, Want::Compact(copy_ids(alloc, rowsets)?)),
        Chore::FlushDeltas | Chore::Minor | Chore::Major => each_want(alloc, chore, ids),
    }
}

impl<L: Disk, D: Disk + Drop, C: Clock> Engine<L, D, C> {
    // The wants of a chore, which are noted as what is to do.
    fn wants(&mut self, alloc: Global, number: u32, chore: Chore) -> Result<WantList, NoMemory>
        ensures wants { IfOk result (λ wants. wants ≡ wants_of chore (numbers_named self.old.store.meta.rowsets)) }
        ensures begun { IfOk result (λ wants. HasUpkeep number (round_of chore wants (upkeep_at number self.old.upkeep.passes)) self.old.upkeep self.new.upkeep) }
        ensures beside { self.new ≡ record self.old { upkeep = self.new.upkeep } }
        ensures same { OnErr result (IsUntouched self.old self.new) }
    {
        let rowsets = numbers_of(alloc, self.store.meta().rowsets.as_slice())?;
        let wants = wants_of(alloc, chore, &rowsets)?;
        let todo = wants_of(alloc, chore, &rowsets)?;
        self.upkeep.begin_round(alloc, number, chore, todo)?;
        Ok(WantList::of(wants))
    }

    /// Begins a round of a maintenance command, and tells what is to be done as the stores stand: a flush alone; what the chore says, of each disk rowset by
    /// number; or a compaction of all, and nothing where there is none.
    pub fn round(&mut self, alloc: Global, number: u32, chore: Chore) -> Result<WantList, LookNo>
        ensures visit { IsVisit number self.old self.new }
        ensures wants { IfOk result (λ wants. wants ≡ wants_of chore (numbers_named self.old.store.meta.rowsets)) }
        ensures begun { IfOk result (λ wants. HasUpkeep number (round_of chore wants (upkeep_at number self.old.upkeep.passes)) self.old.upkeep self.new.upkeep) }
        ensures beside { self.new ≡ record self.old { upkeep = self.new.upkeep } }
        ensures stopped { self.old.tablet.core.stopped ≡ true → result ≡ Err LookNo.Stopped }
        ensures goes { result ≡ Err LookNo.Stopped → self.old.tablet.core.stopped ≡ true }
        ensures same { OnErr result (IsUntouched self.old self.new) }
    {
        if self.tablet.is_stopped() {
            return Err(LookNo::Stopped);
        }
        match self.wants(alloc, number, chore) {
            Ok(wants) => Ok(wants),
            Err(NoMemory) => Err(LookNo::Memory),
        }
    }
}
