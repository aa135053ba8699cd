//! The rows of a flying write, applied one by one, and its end.
ghost use Rattle.std.specs.Prelude.{◌≡◌, ◌+◌, ◌*◌, ◌≤◌, ◌<◌, ◌==◌, ◌++◌, ◌∷◌, [], length, slice_get, is_some, Some, true, false, vec_len, vec_capacity};
ghost use Rattle.std.specs.List.{list_any, position, position_or_len};
ghost use Rattle.kt_history.specs.declared.target.Target.{Target};
ghost use Rattle.kt_history.specs.Operations.{outcome_of};
ghost use Rattle.kt_history.specs.Stores.{share, change_by, with_change};
ghost use Rattle.kt_histlaws.specs.Histories.{hists, on_nth};
ghost use Rattle.kt_histlaws.specs.Flights.{AllUnder};
ghost use Rattle.kt_stores.specs.Shelf.{stores_of, names_of, last_live, place_of};
ghost use Rattle.kt_tablet.specs.Rows.{commit_row, recorded};
ghost use Rattle.kt_tablet.specs.Views.{unpromised};

use super::{FlyingWrite, Stopped, Tablet};
use crate::need::cells_of;
use kt_base::Clock;
use kt_history::{Event, OpKind, OpList, OpRef, Outcome, OutcomeList, Taken, outcome};
use kt_mvcc::KeyList;
use kt_records::{CommitRow, CommitRows, TargetList};
use kt_stores::{FileStore, Stores};

/// What became of a write that has ended: the outcomes of its rows, and the same for the log. What it held comes back
/// beside that, so that the caller chooses when its memory is freed.
#[derive(Drop)]
pub struct WriteEnd {
    pub index: u32,
    pub ts: u64,
    pub outcomes: OutcomeList,
    pub rows: CommitRows,
    pub ops: OpList,
    pub keys: KeyList,
}

// What is recorded of an operation that stores have taken: whether it was done, and the store that has its change.
fn recorded(kind: OpKind, taken: Taken) -> CommitRow
    ensures { result ≡ recorded kind taken }
{
    let outcome = outcome(kind, taken.there);
    match taken.target {
        Some(target) => CommitRow {
            outcome,
            targets: TargetList::one(target),
        },
        None => CommitRow {
            outcome,
            targets: TargetList::none(),
        },
    }
}

// An operation reaches the stores in cells that are promised, and of those that it needs none stays promised.
fn apply_op<R: FileStore>(stores: &mut Stores<R>, ts: u64, op: &OpRef<'_>) -> CommitRow
    requires { 2 * share op.now ≤ stores.old.pool.reserved }
    ensures bound { place_of op.now.key (stores_of stores.old) < length (stores_of stores.old) }
    ensures changed { AllUnder ts (hists op.now.key (stores_of stores.old)) → stores_of stores.new ≡ on_nth (place_of op.now.key (stores_of stores.old)) (with_change op.now.key ts (change_by op.now (is_some (last_live op.now.key (stores_of stores.old))))) (stores_of stores.old) }
    ensures outcome { result.outcome ≡ outcome_of op.now.kind (is_some (last_live op.now.key (stores_of stores.old))) }
    ensures row { (name : Target) × (slice_get (names_of stores.old.shelf) (place_of op.now.key (stores_of stores.old)) ≡ Some name) × (result ≡ commit_row name result.outcome) }
    ensures names { names_of stores.new.shelf ≡ names_of stores.old.shelf }
    ensures frozen { stores.new.frozen ≡ stores.old.frozen }
    ensures files { stores.new.files ≡ stores.old.files }
    ensures promised { stores.new.pool.reserved + 2 * share op.now ≡ stores.old.pool.reserved }
    ensures room { unpromised stores.old.pool ≤ unpromised stores.new.pool }
{
    stores.standing();
    let before = stores.reserved();
    let needs = cells_of(op);
    let taken = stores.take(ts, op);
    let had = before - stores.reserved();
    stores.release(needs - had);
    recorded(op.kind(), taken)
}

// Where a flying write of a session stands first, if there is one.
fn find_place(flights: &[FlyingWrite], number: u32) -> Option<usize>
    ensures { result ≡ position (λ f. f.who == number) flights.now }
{
    flights.iter().position(|flight| flight.who == number)
}

// Where the flying write of a session stands among the others.
fn place_of(flights: &[FlyingWrite], number: u32) -> usize
    requires { list_any (λ f. f.who == number) flights.now ≡ true }
    ensures { result ≡ position_or_len (λ f. f.who == number) flights.now }
{
    match find_place(flights, number) {
        Some(place) => place,
        None => unreachable!(),
    }
}

// Notes what became of the next row.
fn note(write: &mut FlyingWrite, row: CommitRow) -> Outcome
    requires more { write.old.applied < length write.old.ops }
    requires outcome_room { vec_len write.old.outcomes < vec_capacity write.old.outcomes }
    requires row_room { vec_len write.old.rows < vec_capacity write.old.rows }
    ensures outcome { result ≡ row.outcome }
    ensures write { write.new ≡ record write.old { applied = write.old.applied + 1; outcomes = write.new.outcomes; rows = write.new.rows } }
    ensures outcomes { write.new.outcomes.items ≡ write.old.outcomes.items ++ row.outcome ∷ [] }
    ensures outcome_room { (vec_len write.new.outcomes ≡ vec_len write.old.outcomes + 1) × (vec_capacity write.new.outcomes ≡ vec_capacity write.old.outcomes) }
    ensures rows { write.new.rows.items ≡ write.old.rows.items ++ row ∷ [] }
    ensures row_room { (vec_len write.new.rows ≡ vec_len write.old.rows + 1) × (vec_capacity write.new.rows ≡ vec_capacity write.old.rows) }
{
    prove!(write.applied < write.ops.len());
    write.applied += 1;
    let outcome = row.outcome;
    write.outcomes.push_reserved(outcome);
    write.rows.push_reserved(row);
    outcome
}

impl<R: FileStore, C: Clock> Tablet<R, C> {
    ghost use Rattle.std.specs.Prelude.{IfOk, OnOk, OnErr, IsOk, IsErr, false, not, ℕ};
    ghost use Rattle.std.specs.List.{filter};
    ghost use Rattle.kt_history.specs.History.{Past};
    ghost use Rattle.kt_tablet.specs.Views.{Opens, place_at};
    ghost use Rattle.kt_tablet.specs.Visits.{MayApply, HasApplied, HasNoted, IsRunOutcome, MayEnd, HasEnded, IsDone, IsWritten, HasHandedOut, HeldBy};

    /// The place of the REPLICATE of the flying write of a session among all records, counted from 1: that with which it
    /// began.
    pub fn place(&self, number: u32) -> u64
        requires { (place : ℕ) × (place_at number self.now.places ≡ Some place) }
        ensures { place_at number self.now.places ≡ Some result }
    {
        self.flights[place_of(&self.flights, number)].place
    }

    /// Applies the next row of the flying write of a session. It takes no memory, and no cell that was not promised.
    pub fn apply_row(&mut self, number: u32, at: usize) -> Result<Outcome, Stopped>
        requires { self.old.core.stopped ≡ false → MayApply self.old.core number at }
        ensures applied { IfOk result (λ outcome. HasApplied self.old.core self.new.core number at outcome) }
        ensures run { IfOk result (λ outcome. (first : Past) → Opens self.old.opening self.old.mark self.old.core.opened first → IsRunOutcome (record self.old.core { first = first }) number at outcome) }
        ensures room { unpromised self.old.pool ≤ unpromised self.new.pool }
        ensures noted { IfOk result (λ outcome. HasNoted self.old self.new number at outcome) }
        ensures beside { self.new ≡ record self.old { core = self.new.core; notes = self.new.notes; pool = self.new.pool } }
        ensures same { OnErr result (self.new ≡ self.old) }
        ensures stopped { self.old.core.stopped ≡ true → IsErr result }
        ensures goes { self.old.core.stopped ≡ false → IsOk result }
    {
        if self.stopped {
            return Err(Stopped);
        }
        let place = place_of(&self.flights, number);
        let write = &self.flights[place];
        let op = write.ops.at(at);
        let row = apply_op(&mut self.stores, write.ts, &op);
        Ok(note(&mut self.flights[place], row))
    }

    /// Ends the flying write of a session, whose rows are all applied, and lets go of its keys. It takes no memory.
    pub fn end(&mut self, number: u32) -> Result<WriteEnd, Stopped>
        requires { self.old.core.stopped ≡ false → MayEnd self.old.core number }
        ensures ended { IfOk result (λ done. HasEnded self.old.core self.new.core number done.index done.ts) }
        ensures told { IfOk result (λ done. (first : Past) → Opens self.old.opening self.old.mark self.old.core.opened first → IsDone (record self.old.core { first = first }) self.old.names number done.outcomes done.rows) }
        ensures written { IfOk result (λ done. IsWritten self.old.core self.old.names number done.outcomes done.rows) }
        ensures held { IfOk result (λ done. HeldBy self.old.core number done.ops done.keys) }
        ensures handed { IfOk result (λ done. HasHandedOut self.old self.new number done.rows) }
        ensures forgets { OnOk result (self.new.places ≡ filter (λ p. not (p.0 == number)) self.old.places) }
        ensures beside { self.new ≡ record self.old { core = self.new.core; notes = self.new.notes; places = self.new.places } }
        ensures same { OnErr result (self.new ≡ self.old) }
        ensures stopped { self.old.core.stopped ≡ true → IsErr result }
        ensures goes { self.old.core.stopped ≡ false → IsOk result }
    {
        if self.stopped {
            return Err(Stopped);
        }
        let place = place_of(&self.flights, number);
        let write = self.flights.remove(place);
        let keys = self.flight.take(number);
        self.trail.push_reserved(Event::End {
            s: number,
            i: write.index,
            ts: write.ts,
        });
        self.turns.set(number, write.index + 1, None);
        Ok(WriteEnd {
            index: write.index,
            ts: write.ts,
            outcomes: OutcomeList::of(write.outcomes),
            rows: CommitRows::of(write.rows),
            ops: write.ops,
            keys,
        })
    }
}
