//! Scans: each is answered by a copy of what the stores hold up to its time, unless something stands in its way.
ghost use Rattle.std.specs.Prelude.{◌≡◌, ◌<◌, ◌+◌, ◌-◌, suc, [], map, take, length, slice_get, true, false, Some, IsSome, IfSome, IfNone, IfOk, IfErr, OnOk, OnErr, Err};
ghost use Rattle.kt_history.specs.History.{Past};
ghost use Rattle.kt_history.specs.Machine.{nth, none_flies};
ghost use Rattle.kt_histlaws.specs.Core.{flown_by};
ghost use Rattle.kt_history.specs.Grown.{AllGrown};
ghost use Rattle.kt_history.specs.Stores.{Store};
ghost use Rattle.kt_stores.specs.Shelf.{stores_of};
ghost use Rattle.kt_tablet.specs.Reads.{IsCopyOf, AreCopies};

use super::Tablet;
use crate::snap::{Copied, Snap, SnapList};
use crate::snap_view::SnapView;
use kt_base::{Cells, Clock, NoMemory};
use kt_history::{At, Event};
use kt_stores::{FileStore, Stores};
use std::alloc::Global;
use thiserror::Error;

/// Why a scan is not answered.
#[derive(Clone, Copy, Debug, PartialEq, Eq, Error)]
pub enum SnapNo {
    /// The tablet has stopped.
    #[error("the tablet has stopped")]
    Stopped,
    /// It reads below the mark.
    #[error("time {t} is below the mark {a}")]
    Ancient { t: u64, a: u64 },
    /// This write flies, the least that does, and is not later than the time that is given.
    #[error("the write of timestamp {f} flies at or below time {t}")]
    Busy { t: u64, f: u64 },
    /// This write flies, the least that does, and is not later than the time that was drawn. The scan waits for it.
    #[error("the write of timestamp {f} still flies")]
    NotYet { f: u64 },
    /// There was no memory for the copy.
    #[error("out of memory")]
    Memory,
}

// What is copied of the store at a place: its changes up to a time, or what tells the rows of a disk rowset.
fn copy_of<R: FileStore>(
    alloc: Global,
    stores: &Stores<R>,
    fill: &Cells,
    since: u64,
    t: u64,
    at: usize,
) -> Result<Copied<R::Read>, NoMemory>
    requires grown { AllGrown (take (1 + stores.now.frozen) (stores_of stores.now)) }
    requires within { at < length stores.now.shelf }
    ensures { IfOk result (λ copy. (store : Store) → slice_get (stores_of stores.now) at ≡ Some store → IsCopyOf R.Read.row_of since t fill.now (suc stores.now.frozen - at) store copy) }
{
    if at <= stores.frozen() {
        let changes = stores.changes(alloc, at, t)?;
        return Ok(Copied::Memory(SnapView::of(since, changes, fill.copy()?)));
    }
    let read = stores.read_at(alloc, at, t)?;
    Ok(Copied::Rowset(read))
}

// What is copied of each store up to a time.
fn views_of<R: FileStore>(
    alloc: Global,
    stores: &Stores<R>,
    fill: &Cells,
    since: u64,
    t: u64,
) -> Result<SnapList<R::Read>, NoMemory>
    requires { AllGrown (take (1 + stores.now.frozen) (stores_of stores.now)) }
    ensures { IfOk result (λ views. AreCopies R.Read.row_of since t fill.now (suc stores.now.frozen) (stores_of stores.now) views) }
{
    let count = stores.len();
    let mut views = Vec::with_capacity(alloc, count)?;
    'stores: for at in 0..count {
        let copy = copy_of(alloc, stores, fill, since, t, at)?;
        views.push(copy)?;
    }
    Ok(SnapList::of(views))
}

impl<R: FileStore, C: Clock> Tablet<R, C> {
    ghost use Rattle.kt_history.specs.declared.event.Event.TheVariants.{Ancient, Busy};
    ghost use Rattle.kt_histlaws.specs.Events.{answered};
    ghost use Rattle.kt_tablet.specs.Views.{Opens};
    ghost use Rattle.kt_tablet.specs.Reads.{MaySnapshot, HasRead, FliesBy, IsAncient, IsBusy, MayReadNow, IsNoRead, LeavesRead, ShowsRun, IsCopied, time_of};

    // The ancient history mark.
    fn ancient_mark(&self) -> u64
        ensures { result ≡ self.now.core.a }
    {
        self.flight.mark()
    }

    // The least flying write, where it is not later than a time.
    fn in_the_way(&self, t: u64) -> Option<u64>
        ensures flies { IfSome result (FliesBy self.now.core t) }
        ensures settled { IfNone result (none_flies t (map flown_by self.now.core.aloft) ≡ true) }
    {
        match self.flight.least() {
            Some(least) => { if least <= t { Some(least) } else { None } }
            None => None,
        }
    }

    // The time at which the scan of a session reads.
    fn time(&self, number: u32, at: At) -> u64
        requires { IsSome (nth self.now.core.turns number) }
        ensures { result ≡ time_of self.now.core number at }
    {
        match at {
            At::Looked => self.turns.look(number).unwrap_or(0),
            At::Given(t) => t,
        }
    }

    // Tells by its line that a scan reads below the mark.
    fn ancient(&mut self, number: u32, index: u32, at: At, t: u64, a: u64) -> Result<(), NoMemory>
        requires { IsAncient self.old.core number index at t a }
        ensures answered { OnOk result (self.new.core ≡ answered self.old.core number index (Ancient number index t a)) }
        ensures same { OnErr result (self.new ≡ self.old) }
        ensures beside { record self.new { core = self.old.core } ≡ self.old }
    {
        self.trail.reserve(self.flights.len() + 2)?;
        self.trail.push_reserved(Event::Ancient {
            s: number,
            i: index,
            t,
            a,
        });
        self.turns.set(number, index + 1, None);
        Ok(())
    }

    // Tells by its line that a write flies which is not later than a given time.
    fn busy(&mut self, number: u32, index: u32, t: u64, f: u64) -> Result<(), NoMemory>
        requires { IsBusy self.old.core number index t f }
        ensures answered { OnOk result (self.new.core ≡ answered self.old.core number index (Busy number index t f)) }
        ensures same { OnErr result (self.new ≡ self.old) }
        ensures beside { record self.new { core = self.old.core } ≡ self.old }
    {
        self.trail.reserve(self.flights.len() + 2)?;
        self.trail.push_reserved(Event::Busy {
            s: number,
            i: index,
            t,
            f,
        });
        self.turns.set(number, index + 1, None);
        Ok(())
    }

    // A copy of what the stores hold up to a time. It shows the run where no write flies that is not later.
    fn copy(&self, alloc: Global, t: u64) -> Result<Snap<R::Read>, NoMemory>
        ensures time { IfOk result (λ snap. (snap.t ≡ t) × (snap.mark ≡ self.now.core.a)) }
        ensures copied { IfOk result IsCopied }
        ensures shows { IfOk result (λ snap. none_flies t (map flown_by self.now.core.aloft) ≡ true → (first : Past) → Opens self.now.opening self.now.mark self.now.core.opened first → ShowsRun R.Read.row_of (record self.now.core { first = first }) snap) }
    {
        self.stores.standing();
        let mark = self.flight.mark();
        let views = views_of(alloc, &self.stores, &self.fill, mark, t)?;
        Ok(Snap { t, mark, views })
    }

    /// What the stores hold up to the last timestamp, without a line: where no write flies, what a scan at that time would read.
    pub fn rows_now(&self, alloc: Global) -> Result<Snap<R::Read>, NoMemory>
        ensures time { IfOk result (λ snap. (snap.t ≡ self.now.core.c) × (snap.mark ≡ self.now.core.a)) }
        ensures copied { IfOk result IsCopied }
        ensures shows { IfOk result (λ snap. self.now.core.aloft ≡ [] → (first : Past) → Opens self.now.opening self.now.mark self.now.core.opened first → ShowsRun R.Read.row_of (record self.now.core { first = first }) snap) }
    {
        let (_, t) = self.times();
        self.copy(alloc, t)
    }

    // Answers a scan at a time from the mark on, where no write flies that is not later.
    fn read_now(
        &mut self,
        alloc: Global,
        number: u32,
        index: u32,
        at: At,
        t: u64,
    ) -> Result<Snap<R::Read>, NoMemory>
        requires { MayReadNow self.old.core number index at t }
        ensures read { IfOk result (λ snap. HasRead self.old.core self.new.core number index at snap.t) }
        ensures mark { IfOk result (λ snap. snap.mark ≡ self.old.core.a) }
        ensures copied { IfOk result IsCopied }
        ensures shows { IfOk result (λ snap. (first : Past) → Opens self.old.opening self.old.mark self.old.core.opened first → ShowsRun R.Read.row_of (record self.old.core { first = first }) snap) }
        ensures same { OnErr result (self.new ≡ self.old) }
        ensures beside { record self.new { core = self.old.core } ≡ self.old }
    {
        let snap = self.copy(alloc, t)?;
        self.trail.reserve(self.flights.len() + 2)?;
        self.trail.push_reserved(Event::Rows {
            s: number,
            i: index,
            t,
        });
        self.flight.raise(t);
        self.turns.set(number, index + 1, None);
        Ok(snap)
    }

    /// Answers a scan: what the stores in memory hold up to the time that it reads, copied, and what tells the rows of the disk
    /// rowsets up to it, of which no row is put together yet.
    pub fn snapshot(
        &mut self,
        alloc: Global,
        number: u32,
        index: u32,
        at: At,
    ) -> Result<Snap<R::Read>, SnapNo>
        requires { self.old.core.stopped ≡ false → MaySnapshot self.old.core number index at }
        ensures read { IfOk result (λ snap. HasRead self.old.core self.new.core number index at snap.t) }
        ensures mark { IfOk result (λ snap. snap.mark ≡ self.old.core.a) }
        ensures copied { IfOk result IsCopied }
        ensures shows { IfOk result (λ snap. (first : Past) → Opens self.old.opening self.old.mark self.old.core.opened first → ShowsRun R.Read.row_of (record self.old.core { first = first }) snap) }
        ensures stopped { self.old.core.stopped ≡ true → result ≡ Err SnapNo.Stopped }
        ensures refused { IfErr result (IsNoRead self.old.core number at) }
        ensures left { IfErr result (LeavesRead self.old self.new number index) }
        ensures beside { self.new ≡ record self.old { core = self.new.core } }
    {
        if self.is_stopped() {
            return Err(SnapNo::Stopped);
        }
        let t = self.time(number, at);
        let a = self.ancient_mark();
        if t < a {
            return match self.ancient(number, index, at, t, a) {
                Ok(()) => Err(SnapNo::Ancient { t, a }),
                Err(_) => Err(SnapNo::Memory),
            };
        }
        if let Some(f) = self.in_the_way(t) {
            return match at {
                At::Looked => Err(SnapNo::NotYet { f }),
                At::Given(t) => match self.busy(number, index, t, f) {
                    Ok(()) => Err(SnapNo::Busy { t, f }),
                    Err(_) => Err(SnapNo::Memory),
                },
            };
        }
        match self.read_now(alloc, number, index, at, t) {
            Ok(snap) => Ok(snap),
            Err(_) => Err(SnapNo::Memory),
        }
    }
}
