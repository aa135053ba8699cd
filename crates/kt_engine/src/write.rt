//! The life of a write: it begins, its rows are applied, and it ends.
ghost use Rattle.std.specs.Prelude.{◌≡◌, ◌⊎◌, ◌≤◌, ℕ, IfOk, IfErr, OnErr, IsOk, IsErr, Err, Some, false, true, ◌∷◌, [], ◌++◌, ◌+◌, ◌<◌, ◌==◌, not, length, map, max, List, OnOk, vec_len, vec_capacity};
ghost use Rattle.std.specs.List.{filter};
ghost use Rattle.kt_history.specs.History.{Past};
ghost use Rattle.kt_records.specs.declared.entry.CommitRow.{CommitRow};
ghost use Rattle.kt_pool.specs.Contents.{with_reserved};
ghost use Rattle.kt_history.specs.Operations.{need};
ghost use Rattle.kt_tablet.specs.Rows.{AreRecorded};
ghost use Rattle.kt_tablet.specs.Views.{unpromised, place_at};
ghost use Rattle.kt_tablet.specs.Visits.{MayBegin, HasBegun, IsUnhindered, IsRefused, Leaves, MayApply, HasApplied, HasNoted, IsRunOutcome, MayEnd, HasEnded, IsDone, HasHandedOut, HeldBy};
ghost use Rattle.kt_engine.specs.Engines.{IsFound, core_from};
ghost use Rattle.kt_engine.specs.Visits.{IsVisit};

use crate::engine::Engine;
use kt_base::{Clock, NoMemory};
use kt_disk::Disk;
use kt_history::{OpList, Outcome, OutcomeList, Write};
use kt_loglaws::LogSide;
use kt_mvcc::KeyList;
use kt_records::Entry;
use kt_tablet::{BeginNo, NewWrite, Stopped, WriteEnd};
use std::alloc::Global;
use std::mem;

/// A write that has ended: its timestamp, and what became of its operations. What it held comes back beside that, so that
/// its memory is freed once the engine is put back.
#[derive(Drop)]
pub struct WriteDone {
    pub ts: u64,
    pub outcomes: OutcomeList,
    pub ops: OpList,
    pub keys: KeyList,
}

/// A write made ready before a visit, so that the visit copies nothing: what the tablet takes, and the operations once
/// more for the log.
#[derive(Drop)]
pub struct Draft {
    pub write: NewWrite,
    pub logged: OpList,
    pub ghost alike: { logged ≡ write.ops },
}

// Makes room for the REPLICATE and the COMMIT of a write more beside those of so many flying writes.
fn make_room<L: Disk>(log: &mut LogSide<L>, flying: usize) -> Result<(), NoMemory>
    ensures log { log.new ≡ record log.old { room = log.new.room } }
    ensures more { log.old.room ≤ log.new.room }
    ensures bound { log.new.room ≤ max log.old.room (flying + 2) }
    ensures room { OnOk result (flying + 2 ≤ log.new.room) }
{
    let wanted = flying.checked_add(2).ok_or(NoMemory)?;
    let room = log.room();
    if room < wanted {
        log.reserve(wanted - room)?;
    }
    Ok(())
}

impl Draft {
    /// Two copies of the operations of a write, and what else can be made before it begins.
    pub fn of(alloc: Global, write: &Write) -> Result<Draft, NoMemory>
        ensures { IfOk result (λ draft. draft.write.ops ≡ write.now.ops) }
    {
        let logged = write.ops.copy()?;
        let write = NewWrite::of(alloc, write.ops.copy()?)?;
        Ok(Draft { write, logged })
    }
}

impl<L: Disk, D: Disk + Drop, C: Clock> Engine<L, D, C> {
    /// Begins a write that was made ready: it flies at the timestamp, and its REPLICATE is queued. It then holds its keys,
    /// its cells, and room for its end, so that it is not refused any more. Nothing is copied. What was made ready is
    /// taken where the write begins, and stays for another visit where it does not. Memory is wanting only once nothing
    /// else stands in its way, or for the line of a write that is too large.
    pub fn begin_draft(
        &mut self,
        alloc: Global,
        number: u32,
        index: u32,
        draft: &mut Draft,
    ) -> Result<u64, BeginNo>
        requires { self.old.tablet.core.stopped ≡ false → MayBegin self.old.tablet.core number index draft.old.write.ops }
        ensures visit { IsVisit number self.old self.new }
        ensures begun { IfOk result (λ ts. HasBegun self.old.tablet.core self.new.tablet.core number index draft.old.write.ops ts) }
        ensures free { OnOk result (IsUnhindered self.old.tablet draft.old.write.ops) }
        ensures promised { OnOk result (self.new.tablet.pool ≡ with_reserved self.old.tablet.pool (self.old.tablet.pool.reserved + need draft.old.write.ops)) }
        ensures queued { IfOk result (λ ts. self.new.log ≡ record self.old.log { queued = self.old.log.queued ++ Entry.Replicate ts draft.old.write.ops ∷ []; room = self.new.log.room }) }
        ensures clock { self.new.tablet ≡ record self.old.tablet { core = self.new.tablet.core; clock = self.new.tablet.clock; notes = self.new.tablet.notes; places = self.new.tablet.places; pool = self.new.tablet.pool } }
        ensures beside { self.new ≡ record self.old { tablet = self.new.tablet; log = self.new.log } }
        ensures bound { self.new.log.room ≤ max self.old.log.room (length self.old.tablet.core.aloft + 2) }
        ensures stopped { self.old.tablet.core.stopped ≡ true → result ≡ Err BeginNo.Stopped }
        ensures refused { IfErr result (IsRefused self.old.tablet draft.old.write.ops) }
        ensures left { IfErr result (Leaves self.old.tablet self.new.tablet number index) }
        ensures untouched { IfErr result (λ _. self.new.tablet ≡ record self.old.tablet { core = self.new.tablet.core }) }
        ensures waits { OnErr result (self.new.log ≡ record self.old.log { room = self.new.log.room }) }
        ensures same { (ts : ℕ) → result ≡ Err (BeginNo.Wait ts) → self.new ≡ self.old }
        ensures kept { OnErr result (draft.new.write.ops ≡ draft.old.write.ops) }
        ensures memory { result ≡ Err BeginNo.Memory → (self.old.tablet.core.work.cells < need draft.old.write.ops) ⊎ IsUnhindered self.old.tablet draft.old.write.ops }
    {
        // Each write of the plan fits a record.
        self.tablet.standing();
        self.tablet.ask(number, index, &draft.write)?;
        // A write that came while a job publishes would be lacking in its outputs.
        if self.upkeep.is_publishing() {
            return Err(BeginNo::Memory);
        }
        let flying = self.tablet.flying();
        let Ok(()) = make_room(&mut self.log, flying) else {
            return Err(BeginNo::Memory);
        };
        let place = self.log.next_place();
        let Ok(ts) = self
            .tablet
            .begin_free(alloc, number, index, &mut draft.write, place)
        else {
            return Err(BeginNo::Memory);
        };
        let logged = mem::replace(&mut draft.logged, OpList::new(alloc));
        self.log.push(Entry::Replicate { ts, ops: logged });
        Ok(ts)
    }

    /// Begins a write, and copies its operations for that.
    pub fn begin(
        &mut self,
        alloc: Global,
        number: u32,
        index: u32,
        write: &Write,
    ) -> Result<u64, BeginNo>
        requires { self.old.tablet.core.stopped ≡ false → MayBegin self.old.tablet.core number index write.now.ops }
        ensures visit { IsVisit number self.old self.new }
        ensures begun { IfOk result (λ ts. HasBegun self.old.tablet.core self.new.tablet.core number index write.now.ops ts) }
        ensures free { OnOk result (IsUnhindered self.old.tablet write.now.ops) }
        ensures promised { OnOk result (self.new.tablet.pool ≡ with_reserved self.old.tablet.pool (self.old.tablet.pool.reserved + need write.now.ops)) }
        ensures queued { IfOk result (λ ts. self.new.log ≡ record self.old.log { queued = self.old.log.queued ++ Entry.Replicate ts write.now.ops ∷ []; room = self.new.log.room }) }
        ensures clock { self.new.tablet ≡ record self.old.tablet { core = self.new.tablet.core; clock = self.new.tablet.clock; notes = self.new.tablet.notes; places = self.new.tablet.places; pool = self.new.tablet.pool } }
        ensures beside { self.new ≡ record self.old { tablet = self.new.tablet; log = self.new.log } }
        ensures bound { self.new.log.room ≤ max self.old.log.room (length self.old.tablet.core.aloft + 2) }
        ensures stopped { self.old.tablet.core.stopped ≡ true → result ≡ Err BeginNo.Stopped }
        ensures refused { IfErr result (IsRefused self.old.tablet write.now.ops) }
        ensures left { IfErr result (Leaves self.old.tablet self.new.tablet number index) }
        ensures untouched { IfErr result (λ _. self.new.tablet ≡ record self.old.tablet { core = self.new.tablet.core }) }
        ensures waits { OnErr result (self.new.log ≡ record self.old.log { room = self.new.log.room }) }
        ensures same { (ts : ℕ) → result ≡ Err (BeginNo.Wait ts) → self.new ≡ self.old }
    {
        if self.tablet.is_stopped() {
            return Err(BeginNo::Stopped);
        }
        let Ok(mut draft) = Draft::of(alloc, write) else {
            return Err(BeginNo::Memory);
        };
        self.begin_draft(alloc, number, index, &mut draft)
    }

    /// Applies the next row of the flying write of a session, whose REPLICATE is durable. It takes no memory, and no cell
    /// of the pool that was not promised.
    pub fn apply_row(&mut self, number: u32, at: usize) -> Result<Outcome, Stopped>
        requires next { self.old.tablet.core.stopped ≡ false → MayApply self.old.tablet.core number at }
        requires durable { self.old.tablet.core.stopped ≡ false → (place : ℕ) × (place_at number self.old.tablet.places ≡ Some place) × (place ≤ self.old.log.known.count) }
        ensures visit { IsVisit number self.old self.new }
        ensures applied { IfOk result (λ outcome. HasApplied self.old.tablet.core self.new.tablet.core number at outcome) }
        ensures run { IfOk result (λ outcome. (first : Past) → IsFound self.old first → IsRunOutcome (core_from self.old first) number at outcome) }
        ensures noted { IfOk result (λ outcome. HasNoted self.old.tablet self.new.tablet number at outcome) }
        ensures room { unpromised self.old.tablet.pool ≤ unpromised self.new.tablet.pool }
        ensures beside { self.new ≡ record self.old { tablet = record self.old.tablet { core = self.new.tablet.core; notes = self.new.tablet.notes; pool = self.new.tablet.pool } } }
        ensures same { OnErr result (self.new ≡ self.old) }
        ensures stopped { self.old.tablet.core.stopped ≡ true → IsErr result }
        ensures goes { self.old.tablet.core.stopped ≡ false → IsOk result }
    {
        // Each store has a name, and the stores show what is done of the run.
        self.tablet.standing();
        self.tablet.apply_row(number, at)
    }

    /// Ends the flying write of a session, whose rows are all applied: its COMMIT is queued, which holds the outcome of
    /// each row, in order, and the store that a row that is done changed. It takes no memory.
    pub fn end(&mut self, number: u32) -> Result<WriteDone, Stopped>
        requires { self.old.tablet.core.stopped ≡ false → MayEnd self.old.tablet.core number }
        ensures visit { IsVisit number self.old self.new }
        ensures ended { IfOk result (λ done. (index : ℕ) × HasEnded self.old.tablet.core self.new.tablet.core number index done.ts) }
        ensures told { IfOk result (λ done. (first : Past) → IsFound self.old first → (rows : List CommitRow) × IsDone (core_from self.old first) self.old.tablet.names number done.outcomes rows) }
        ensures written { IfOk result (λ done. length done.outcomes ≡ length done.ops) }
        ensures held { IfOk result (λ done. HeldBy self.old.tablet.core number done.ops done.keys) }
        ensures queued { IfOk result (λ done. (rows : List CommitRow) × HasHandedOut self.old.tablet self.new.tablet number rows × AreRecorded self.old.tablet.names done.outcomes rows × (self.new.log ≡ record self.old.log { queued = self.old.log.queued ++ Entry.Commit done.ts rows ∷ []; room = self.new.log.room })) }
        ensures clock { self.new.tablet ≡ record self.old.tablet { core = self.new.tablet.core; notes = self.new.tablet.notes; places = self.new.tablet.places } }
        ensures beside { self.new ≡ record self.old { tablet = self.new.tablet; log = self.new.log } }
        ensures same { OnErr result (self.new ≡ self.old) }
        ensures stopped { self.old.tablet.core.stopped ≡ true → IsErr result }
        ensures goes { self.old.tablet.core.stopped ≡ false → IsOk result }
    {
        let WriteEnd {
            index: _,
            ts,
            outcomes,
            rows,
            ops,
            keys,
        } = self.tablet.end(number)?;
        self.log.push(Entry::Commit { ts, rows });
        Ok(WriteDone {
            ts,
            outcomes,
            ops,
            keys,
        })
    }
}
