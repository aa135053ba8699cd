//! The tablet and its events.
pub mod changing;
pub mod deltas;
pub mod job;
pub mod opening;
pub mod rows;
pub mod scan;
pub mod stats;
pub mod write;

ghost use Rattle.std.specs.Prelude.{◌≡◌, ◌+◌, ◌≤◌, IfOk, [], map, vec_len, vec_capacity};
ghost use Rattle.kt_schema.specs.Columns.{fill_of};

use crate::turns::Turns;
use kt_base::{Cells, Clock, NoMemory};
use kt_history::{Event, OpList, Outcome, Plan};
use kt_mvcc::Flight;
use kt_records::CommitRow;
use kt_schema::Schema;
use kt_stores::{FileStore, Stores};
use std::alloc::Global;
use std::marker::Model;
use std::snapshot::Snapshot;
use thiserror::Error;

/// A write that flies, of which the first rows are applied.
#[derive(Drop)]
pub struct FlyingWrite {
    pub who: u32,
    pub index: u32,
    pub ts: u64,
    pub ops: OpList,
    pub applied: usize,
    /// Where its REPLICATE stands among all records, counted from 1.
    pub place: u64,
    /// What became of the rows applied so far.
    pub outcomes: Vec<Outcome>,
    /// The same for the log, with the stores that were changed.
    pub rows: Vec<CommitRow>,
}

/// A tablet: the rows of its stores in the cells of their pool, the clock, the writes that fly, the lines of its history
/// and where each session stands.
#[derive(Drop)]
pub struct Tablet<R: FileStore, C: Clock> {
    stores: Stores<R>,
    clock: C,
    flight: Flight,
    flights: Vec<FlyingWrite>,
    turns: Turns,
    trail: Vec<Event>,
    stopped: bool,
    cells: u32,
    fill: Cells,
    plan: Snapshot<Plan>,
    schema: Snapshot<Schema>,
    opened: Snapshot<C>,
    opening: Snapshot<Stores<R>>,
    last: u64,
    mark: u64,
}

impl<R: FileStore, C: Clock> Model for Tablet<R, C> {
    ghost use Rattle.std.specs.Prelude.{map, vec_capacity, vec_len};
    ghost use Rattle.kt_stores.specs.Shelf.{names_of};
    ghost use Rattle.kt_tablet.specs.Filling.{told_stores};
    ghost use Rattle.kt_tablet.specs.Rows.{AreWritten};
    ghost use Rattle.kt_tablet.specs.Views.{View, IsSound, IsReady, AreTold, rows_of, placed_of, aloft_of, work_of, empty};

    ghost Value = { View C };

    // An insert of a store in memory is filled by the defaults. The rows of a disk rowset are whole.
    ghost view = { λ e. record {
      core = record {
        work = work_of e.schema.value e.plan.value e.cells e.fill;
        first = empty;
        opened = e.last;
        trail = e.trail.items;
        a = e.flight.a;
        c = e.flight.c;
        aloft = map aloft_of e.flights.items;
        turns = e.turns;
        stopped = e.stopped;
        stores = told_stores e.fill e.stores;
      };
      clock = e.clock;
      opened = e.opened.value;
      opening = told_stores e.fill e.opening.value;
      mark = e.mark;
      names = names_of e.stores.shelf;
      notes = map rows_of e.flights.items;
      places = map placed_of e.flights.items;
      pool = e.stores.pool;
      frozen = e.stores.frozen;
      files = e.stores.files;
    } };

    ghost invariant = { λ e. IsSound C.readings (record {
      core = record {
        work = work_of e.schema.value e.plan.value e.cells e.fill;
        first = empty;
        opened = e.last;
        trail = e.trail.items;
        a = e.flight.a;
        c = e.flight.c;
        aloft = map aloft_of e.flights.items;
        turns = e.turns;
        stopped = e.stopped;
        stores = told_stores e.fill e.stores;
      };
      clock = e.clock;
      opened = e.opened.value;
      opening = told_stores e.fill e.opening.value;
      mark = e.mark;
      names = names_of e.stores.shelf;
      notes = map rows_of e.flights.items;
      places = map placed_of e.flights.items;
      pool = e.stores.pool;
      frozen = e.stores.frozen;
      files = e.stores.files;
    }) × IsReady e.fill e.stopped e.flights.items e.flight.flying (vec_len e.trail) (vec_capacity e.trail) e.stores.pool × AreTold (work_of e.schema.value e.plan.value e.cells e.fill) (told_stores e.fill e.opening.value) e.mark e.last e.trail.items e.flights.items × AreWritten (names_of e.stores.shelf) e.flights.items };
}

/// Why a scan of the present draws no time, or the mark does not rise.
#[derive(Clone, Copy, Debug, PartialEq, Eq, Error)]
pub enum LookNo {
    /// The tablet has stopped.
    #[error("the tablet has stopped")]
    Stopped,
    /// There was no memory for the line.
    #[error("out of memory")]
    Memory,
}

/// The tablet has stopped.
#[derive(Clone, Copy, Debug, PartialEq, Eq, Error)]
#[error("the tablet has stopped")]
pub struct Stopped;

// The columns of a filled insert, no session yet, and room for the line of a stop.
fn first_parts(alloc: Global, schema: &Schema) -> Result<(Cells, Turns, Vec<Event>), NoMemory>
    ensures fill { IfOk result (λ parts. parts.0 ≡ fill_of schema.now) }
    ensures turns { IfOk result (λ parts. parts.1 ≡ []) }
    ensures lines { IfOk result (λ parts. parts.2.items ≡ []) }
    ensures room { IfOk result (λ parts. vec_len parts.2 + 1 ≤ vec_capacity parts.2) }
{
    let fill = schema.fill(alloc)?;
    let turns = Turns::new(alloc)?;
    let mut trail = Vec::new(alloc);
    trail.reserve(1)?;
    Ok((fill, turns, trail))
}

impl<R: FileStore, C: Clock> Tablet<R, C> {
    ghost use Rattle.std.specs.Prelude.{IfErr, false};
    ghost use Rattle.kt_stores.specs.Shelf.{names_of};
    ghost use Rattle.kt_tablet.specs.Filling.{told_stores};
    ghost use Rattle.kt_tablet.specs.Views.{work_of};

    /// A tablet in which nothing has happened yet, over the stores that opening made. No session has a plan yet. A write
    /// that needs more cells than are given here is too large. The stores may show no past: then the tablet goes on as well,
    /// and stands for no run.
    pub fn of(
        alloc: Global,
        stores: Stores<R>,
        clock: C,
        schema: &Schema,
        cells: u32,
        last: u64,
        mark: u64,
    ) -> Result<Tablet<R, C>, (Stores<R>, C)>
        requires { stores.pool.reserved ≡ 0 }
        ensures lines { IfOk result (λ tablet. tablet.core.trail ≡ []) }
        ensures work { IfOk result (λ tablet. tablet.core.work ≡ work_of schema.now [] cells (fill_of schema.now)) }
        ensures turns { IfOk result (λ tablet. tablet.core.turns ≡ []) }
        ensures goes { IfOk result (λ tablet. tablet.core.stopped ≡ false) }
        ensures rests { IfOk result (λ tablet. tablet.core.aloft ≡ []) }
        ensures times { IfOk result (λ tablet. (tablet.core.a ≡ mark) × (tablet.core.c ≡ last)) }
        ensures found { IfOk result (λ tablet. (tablet.mark ≡ mark) × (tablet.core.opened ≡ last) × (tablet.opening ≡ told_stores (fill_of schema.now) stores)) }
        ensures clock { IfOk result (λ tablet. (tablet.clock ≡ clock) × (tablet.opened ≡ clock)) }
        ensures names { IfOk result (λ tablet. tablet.names ≡ names_of stores.shelf) }
        ensures notes { IfOk result (λ tablet. tablet.notes ≡ []) }
        ensures places { IfOk result (λ tablet. tablet.places ≡ []) }
        ensures pool { IfOk result (λ tablet. tablet.pool ≡ stores.pool) }
        ensures frozen { IfOk result (λ tablet. tablet.frozen ≡ stores.frozen) }
        ensures files { IfOk result (λ tablet. tablet.files ≡ stores.files) }
        ensures stores { IfOk result (λ tablet. tablet.core.stores ≡ tablet.opening) }
        ensures back { IfErr result (λ e. (e.0 ≡ stores) × (e.1 ≡ clock)) }
    {
        let opened = Snapshot::of(&clock);
        let opening = Snapshot::of(&stores);
        let Ok((fill, turns, trail)) = first_parts(alloc, schema) else {
            return Err((stores, clock));
        };
        let plan = Plan::of(Vec::new(alloc));
        Ok(Tablet {
            stores,
            clock,
            flight: Flight::new(alloc, last, mark),
            flights: Vec::new(alloc),
            turns,
            trail,
            stopped: false,
            cells,
            fill,
            plan: Snapshot::of(&plan),
            schema: Snapshot::of(schema),
            opened,
            opening,
            last,
            mark,
        })
    }
}

impl<R: FileStore, C: Clock> Tablet<R, C> {
    ghost use Rattle.kt_history.specs.Grown.{AllGrown};
    ghost use Rattle.kt_tablet.specs.Views.{IsSound, IsExact};
    ghost use Rattle.std.specs.Prelude.{◌≡◌, OnErr, IfOk, Err, true, false, suc, take};
    ghost use Rattle.kt_tablet.specs.Visits.{MayLook, HasLooked, MayMark, HasMarked, MayAnswerChore};
    ghost use Rattle.std.specs.Prelude.{OnOk, length};
    ghost use Rattle.kt_history.specs.declared.event.Event.TheVariants.{Chore};
    ghost use Rattle.kt_histlaws.specs.Events.{answered, halted};

    /// Whether the tablet has stopped.
    pub fn is_stopped(&self) -> bool
        ensures { result ≡ self.now.core.stopped }
    {
        self.stopped
    }

    /// The ancient history mark and the last timestamp.
    pub fn times(&self) -> (u64, u64)
        ensures mark { result.0 ≡ self.now.core.a }
        ensures last { result.1 ≡ self.now.core.c }
    {
        (self.flight.mark(), self.flight.last())
    }

    /// How many lines its history has.
    pub fn lines(&self) -> u64
        ensures { result ≡ length self.now.core.trail }
    {
        self.trail.len() as u64
    }

    /// How many writes fly.
    pub fn flying(&self) -> usize
        ensures { result ≡ length self.now.core.aloft }
    {
        self.flights.len()
    }

    /// What it stands for: a run from each past that opening found, in which the lines show what the clock gave, of a plan
    /// that keeps the rules. What its pool has promised is what flying writes still need, where no store has a row no cell
    /// is used, each store has a name, and each flying write a place in the log and what it has written for the log so far.
    /// Of a row in memory there is nothing but its changes.
    pub fn standing(&self)
        ensures sound { IsSound C.readings self.now }
        ensures exact { IsExact self.now.core.aloft self.now.core.stores self.now.pool }
        ensures placed { map (λ p. p.0) self.now.places ≡ map (λ w. w.s) self.now.core.aloft }
        ensures named { length self.now.names ≡ length self.now.core.stores }
        ensures noted { length self.now.notes ≡ length self.now.core.aloft }
        ensures memory { AllGrown (take (suc self.now.frozen) self.now.core.stores) }
    {
        self.stores.standing();
    }

    /// Draws the time of a scan of the present.
    pub fn look(&mut self, number: u32, index: u32) -> Result<u64, LookNo>
        requires { self.old.core.stopped ≡ false → MayLook self.old.core number index }
        ensures looked { IfOk result (λ t. HasLooked self.old.core self.new.core number index t) }
        ensures beside { self.new ≡ record self.old { core = self.new.core; clock = self.new.clock } }
        ensures same { OnErr result (self.new ≡ self.old) }
        ensures stopped { self.old.core.stopped ≡ true → result ≡ Err LookNo.Stopped }
        ensures goes { result ≡ Err LookNo.Stopped → self.old.core.stopped ≡ true }
    {
        if self.stopped {
            return Err(LookNo::Stopped);
        }
        if self.flight.last() == u64::MAX || self.trail.reserve(self.flights.len() + 2).is_err() {
            return Err(LookNo::Memory);
        }
        let reading = self.clock.now();
        let time = self.flight.draw(reading);
        self.trail.push_reserved(Event::Look {
            s: number,
            i: index,
            t: time,
            m: reading,
        });
        self.turns.set(number, index, Some(time));
        Ok(time)
    }

    /// Raises the ancient history mark towards a time, and no further than no write flies.
    pub fn mark(&mut self, number: u32, index: u32, to: u64) -> Result<u64, LookNo>
        requires { self.old.core.stopped ≡ false → MayMark self.old.core number index to }
        ensures marked { IfOk result (λ a. HasMarked self.old.core self.new.core number index to a) }
        ensures beside { self.new ≡ record self.old { core = self.new.core } }
        ensures same { OnErr result (self.new ≡ self.old) }
        ensures stopped { self.old.core.stopped ≡ true → result ≡ Err LookNo.Stopped }
        ensures goes { result ≡ Err LookNo.Stopped → self.old.core.stopped ≡ true }
    {
        if self.stopped {
            return Err(LookNo::Stopped);
        }
        if self.trail.reserve(self.flights.len() + 2).is_err() {
            return Err(LookNo::Memory);
        }
        let mark = self.flight.raise_mark(to);
        self.trail.push_reserved(Event::Mark {
            s: number,
            i: index,
            a: mark,
        });
        self.turns.set(number, index + 1, None);
        Ok(mark)
    }

    /// Answers a maintenance command.
    pub fn chore_done(&mut self, number: u32, index: u32) -> Result<(), LookNo>
        requires { self.old.core.stopped ≡ false → MayAnswerChore self.old.core number index }
        ensures answered { OnOk result (self.new ≡ record self.old { core = answered self.old.core number index (Chore number index) }) }
        ensures same { OnErr result (self.new ≡ self.old) }
        ensures stopped { self.old.core.stopped ≡ true → result ≡ Err LookNo.Stopped }
        ensures goes { result ≡ Err LookNo.Stopped → self.old.core.stopped ≡ true }
    {
        if self.stopped {
            return Err(LookNo::Stopped);
        }
        if self.trail.reserve(self.flights.len() + 2).is_err() {
            return Err(LookNo::Memory);
        }
        self.trail.push_reserved(Event::Chore {
            s: number,
            i: index,
        });
        self.turns.set(number, index + 1, None);
        Ok(())
    }

    /// Stops the tablet, once. It takes no memory.
    pub fn stop(&mut self)
        ensures halted { self.old.core.stopped ≡ false → self.new ≡ record self.old { core = halted self.old.core } }
        ensures once { self.old.core.stopped ≡ true → self.new ≡ self.old }
    {
        if self.stopped {
            return;
        }
        self.trail.push_reserved(Event::Stop);
        self.stopped = true;
    }
}
