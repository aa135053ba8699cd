//! Writes that begin: each with its keys held, its cells promised, and room for the line of its end.
ghost use Rattle.std.specs.Prelude.{◌≡◌, ◌≢◌, ◌+◌, ◌-◌, ◌^◌, ◌≤◌, ◌<◌, [], ◌∷◌, ◌++◌, length, IfOk, OnOk, vec_len, vec_capacity};

use super::{FlyingWrite, Tablet};
use crate::new_write::NewWrite;
use kt_base::{Clock, NoMemory};
use kt_history::Event;
use kt_mvcc::Flight;
use kt_stores::FileStore;
use std::alloc::Global;
use std::mem;
use thiserror::Error;

/// Why a write does not begin.
#[derive(Clone, Copy, Debug, PartialEq, Eq, Error)]
pub enum BeginNo {
    /// The tablet has stopped.
    #[error("the tablet has stopped")]
    Stopped,
    /// It needs more cells than a write may.
    #[error("the write needs {need} cells, more than a write may")]
    Large { need: u32 },
    /// It has a key of a flying write, and this is the least such.
    #[error("the write of timestamp {ts} holds one of the keys")]
    Wait { ts: u64 },
    /// Fewer cells than it needs are free and not promised.
    #[error("the write needs {need} cells, and {free} are free")]
    Room { need: u32, free: u32 },
    /// There was no memory for it.
    #[error("out of memory")]
    Memory,
}

// Makes room for one write more: the lines of its begin and its end beside those that are promised, and its keys. There
// is none where no timestamp is left.
fn make_room(
    alloc: Global,
    trail: &mut Vec<Event>,
    flights: &mut Vec<FlyingWrite>,
    flight: &mut Flight,
    ops: usize,
) -> Result<(), NoMemory>
    ensures lines { trail.new.items ≡ trail.old.items }
    ensures line { (vec_len trail.new ≡ vec_len trail.old) × (vec_capacity trail.old ≤ vec_capacity trail.new) }
    ensures flights { flights.new.items ≡ flights.old.items }
    ensures flight { flight.new ≡ record flight.old { room = flight.new.room; key_room = flight.new.key_room } }
    ensures room { OnOk result (vec_len trail.new + length flights.new.items + 3 ≤ vec_capacity trail.new) }
    ensures place { OnOk result (vec_len flights.new < vec_capacity flights.new) }
    ensures holder { OnOk result (0 < flight.new.room) }
    ensures last { OnOk result (flight.new.c < 2 ^ 64 - 1) }
{
    if flight.last() == u64::MAX {
        return Err(NoMemory);
    }
    trail.reserve(flights.len() + 3)?;
    flights.reserve(1)?;
    flight.reserve(alloc, ops)?;
    Ok(())
}

impl<R: FileStore, C: Clock> Tablet<R, C> {
    ghost use Rattle.std.specs.Prelude.{OnErr, IfErr, Err, false, true};
    ghost use Rattle.kt_pool.specs.Contents.{with_reserved};
    ghost use Rattle.kt_history.specs.Operations.{need};
    ghost use Rattle.kt_history.specs.declared.event.Event.TheVariants.{Large};
    ghost use Rattle.kt_histlaws.specs.Events.{answered};
    ghost use Rattle.kt_tablet.specs.Visits.{MayBegin, IsLarge, HasBegun, IsUnhindered, IsRefused, Leaves};

    // Tells by its line that a write is too large.
    fn large(&mut self, number: u32, index: u32, needs: u32) -> Result<(), NoMemory>
        requires { IsLarge self.old.core number index needs }
        ensures answered { OnOk result (self.new.core ≡ answered self.old.core number index (Large number index needs)) }
        ensures beside { self.new ≡ record self.old { core = self.new.core } }
        ensures same { OnErr result (self.new ≡ self.old) }
    {
        self.trail.reserve(self.flights.len() + 2)?;
        self.trail.push_reserved(Event::Large {
            s: number,
            i: index,
            n: needs,
        });
        self.turns.set(number, index + 1, None);
        Ok(())
    }

    // Makes the keys of a write that flies alone fast to ask for. Nothing is seen of it.
    fn look_up(&mut self)
        ensures { self.new ≡ self.old }
    {
        self.flight.look_up();
    }

    // What stands in the way of a write that is not too large: a flying write that holds a key of it, or want of cells.
    fn refusal(&self, write: &NewWrite, needs: u32) -> Result<(), BeginNo>
        requires goes { self.now.core.stopped ≡ false }
        requires fits { (needs ≡ need write.now.ops) × (needs ≤ self.now.core.work.cells) }
        ensures free { OnOk result (IsUnhindered self.now write.now.ops) }
        ensures refused { IfErr result (IsRefused self.now write.now.ops) }
        ensures changes { IfErr result (λ no. Leaves self.now self.now 0 0 no) }
        ensures memory { result ≢ Err BeginNo.Memory }
    {
        if let Err(ts) = self.flight.try_keys(&write.keys) {
            return Err(BeginNo::Wait { ts });
        }
        let free = self.stores.free() - self.stores.reserved();
        if needs > free {
            return Err(BeginNo::Room { need: needs, free });
        }
        Ok(())
    }

    // As `ask`, once the keys of a write that flies alone are fast to ask for.
    fn ask_ready(&mut self, number: u32, index: u32, write: &NewWrite) -> Result<(), BeginNo>
        requires { self.old.core.stopped ≡ false → MayBegin self.old.core number index write.now.ops }
        ensures free { OnOk result (IsUnhindered self.old write.now.ops) }
        ensures same { OnOk result (self.new ≡ self.old) }
        ensures beside { self.new ≡ record self.old { core = self.new.core } }
        ensures stopped { self.old.core.stopped ≡ true → result ≡ Err BeginNo.Stopped }
        ensures refused { IfErr result (IsRefused self.old write.now.ops) }
        ensures left { IfErr result (Leaves self.old self.new number index) }
        ensures memory { result ≡ Err BeginNo.Memory → self.old.core.work.cells < need write.now.ops }
    {
        if self.is_stopped() {
            return Err(BeginNo::Stopped);
        }
        let most = self.size();
        let Ok(needs) = u32::try_from(write.cells) else {
            return Err(BeginNo::Memory);
        };
        if needs > most {
            return match self.large(number, index, needs) {
                Ok(()) => Err(BeginNo::Large { need: needs }),
                Err(_) => Err(BeginNo::Memory),
            };
        }
        self.refusal(write, needs)
    }

    /// Asks whether a write may begin. One that needs more cells than a write may leaves its line, for which alone there
    /// may be no memory; so it is where its need is no number of 32 bits.
    pub fn ask(&mut self, number: u32, index: u32, write: &NewWrite) -> Result<(), BeginNo>
        requires { self.old.core.stopped ≡ false → MayBegin self.old.core number index write.now.ops }
        ensures free { OnOk result (IsUnhindered self.old write.now.ops) }
        ensures same { OnOk result (self.new ≡ self.old) }
        ensures beside { self.new ≡ record self.old { core = self.new.core } }
        ensures stopped { self.old.core.stopped ≡ true → result ≡ Err BeginNo.Stopped }
        ensures refused { IfErr result (IsRefused self.old write.now.ops) }
        ensures left { IfErr result (Leaves self.old self.new number index) }
        ensures memory { result ≡ Err BeginNo.Memory → self.old.core.work.cells < need write.now.ops }
    {
        self.look_up();
        self.ask_ready(number, index, write)
    }

    /// Begins a write in whose way nothing stands, and takes what was made ready for it. It is told the place of its
    /// REPLICATE among all records, counted from 1. Once it has begun it holds its keys, its cells and the line of its end,
    /// so that it is not refused any more: the pool has promised exactly the cells that it needs. Where there is no room for
    /// a line or a flying write more, the write stays as it was.
    pub fn begin_free(
        &mut self,
        alloc: Global,
        number: u32,
        index: u32,
        write: &mut NewWrite,
        place: u64,
    ) -> Result<u64, NoMemory>
        requires may { MayBegin self.old.core number index write.old.ops }
        requires free { IsUnhindered self.old write.old.ops }
        ensures begun { IfOk result (λ ts. HasBegun self.old.core self.new.core number index write.old.ops ts) }
        ensures promised { OnOk result (self.new.pool ≡ with_reserved self.old.pool (self.old.pool.reserved + need write.old.ops)) }
        ensures noted { OnOk result (self.new.notes ≡ self.old.notes ++ [] ∷ []) }
        ensures placed { OnOk result (self.new.places ≡ self.old.places ++ (number, place) ∷ []) }
        ensures beside { self.new ≡ record self.old { core = self.new.core; clock = self.new.clock; notes = self.new.notes; places = self.new.places; pool = self.new.pool } }
        ensures taken { OnOk result (write.new.ops ≡ []) }
        ensures same { OnErr result (self.new ≡ self.old) }
        ensures kept { OnErr result (write.new.ops ≡ write.old.ops) }
    {
        let Ok(needs) = u32::try_from(write.cells) else {
            return Err(NoMemory);
        };
        make_room(
            alloc,
            &mut self.trail,
            &mut self.flights,
            &mut self.flight,
            write.ops.len(),
        )?;
        match self.stores.reserve(needs) {
            Ok(()) => {}
            Err(_) => unreachable!(),
        }
        let reading = self.clock.now();
        let NewWrite {
            ops,
            keys,
            outcomes,
            rows,
            cells: _,
        } = mem::replace(write, NewWrite::none(alloc));
        let ts = self.flight.begin_free(number, keys, reading);
        self.trail.push_reserved(Event::Begin {
            s: number,
            i: index,
            ts,
            m: reading,
        });
        self.flights.push_reserved(FlyingWrite {
            who: number,
            index,
            ts,
            ops,
            applied: 0,
            place,
            outcomes,
            rows,
        });
        Ok(ts)
    }

    // The most cells that a write may need.
    fn size(&self) -> u32
        ensures { result ≡ self.now.core.work.cells }
    {
        self.cells
    }
}
