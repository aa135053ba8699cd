//! The machine of a history: where each session stands, the writes that fly, and the times.
ghost use Rattle.std.specs.Prelude.{◌≡◌, ◌==◌, ◌&&◌, map, nat_lt, not, OnOk, Some};
ghost use Rattle.std.specs.List.{list_any, list_all, filter};
ghost use Rattle.kt_history.specs.History.{Past};
ghost use Rattle.kt_history.specs.Machine.{Workload, IsNext, nth, set_nth, least, clean_below, next_timestamp};
ghost use Rattle.kt_judge.specs.Decided.{Decided};
ghost use Rattle.kt_judge.specs.Turns.{Stand, with_line};
ghost use Rattle.kt_judge.specs.Machine.{flown, state_of, Takes};

use crate::lists::nth;
use crate::turn::Turn;
use kt_base::NoMemory;
use kt_history::Event;

/// A write that has begun and not ended.
#[derive(Clone, Copy)]
pub(crate) struct Flight {
    pub(crate) s: u32,
    pub(crate) i: u32,
    pub(crate) ts: u64,
}

/// The machine after some lines: `a` is the ancient history mark, `c` the last timestamp.
#[derive(Drop)]
pub(crate) struct Machine {
    pub(crate) a: u64,
    pub(crate) c: u64,
    pub(crate) flying: Vec<Flight>,
    pub(crate) turns: Vec<Turn>,
    pub(crate) stopped: bool,
}

/// Whether a timestamp follows the last one at a reading of the clock.
pub(crate) fn is_next_timestamp(ts: u64, c: u64, m: u64) -> bool
    ensures { Decided result (ts ≡ next_timestamp c m) }
{
    let wall = m.min((1 << 50) - 1) * 4096;
    if wall > c {
        ts == wall
    } else {
        ts > c && ts - 1 == c
    }
}

impl Machine {
    /// Whether a write of a session flies.
    fn flies(&self, s: u32) -> bool
        ensures { result ≡ list_any (λ f. f.s == s) self.now.flying.items }
    {
        self.flying.iter().any(|flight| flight.s == s)
    }

    /// Whether a write flies.
    pub(crate) fn is_flying(&self, s: u32, i: u32, ts: u64) -> bool
        ensures { result ≡ list_any (λ f. (f.s == s) && (f.i == i) && (f.ts == ts)) self.now.flying.items }
    {
        self.flying
            .iter()
            .any(|flight| flight.s == s && flight.i == i && flight.ts == ts)
    }

    /// Whether a command is the next of its session, of which no write flies, and its look is this.
    pub(crate) fn is_next(&self, s: u32, i: u32, look: Option<u64>) -> bool
        ensures { (work : Workload) (past : Past) → Decided result (IsNext (state_of work past self.now) s i look) }
    {
        match nth(&self.turns, s) {
            Some(turn) => turn.is(i, look) && !self.flies(s),
            None => false,
        }
    }

    /// The least flying timestamp.
    pub(crate) fn least_flying(&self) -> Option<u64>
        ensures { (work : Workload) → result ≡ least (map (flown work) self.now.flying.items) }
    {
        let mut least: Option<u64> = None;
        let mut at = self.flying.len();
        'flights: while at > 0 {
            at -= 1;
            let ts = self.flying[at].ts;
            least = Some(least.map_or(ts, |other| other.min(ts)));
        }
        least
    }

    /// Up to here no write flies and none will begin.
    pub(crate) fn clean(&self) -> u64
        ensures { (work : Workload) → result ≡ clean_below (least (map (flown work) self.now.flying.items)) self.now.c }
    {
        match self.least_flying() {
            Some(f) => f.saturating_sub(1),
            None => self.c,
        }
    }

    /// No write at or below a time flies.
    pub(crate) fn none_flies(&self, t: u64) -> bool
        ensures { result ≡ list_all (λ f. nat_lt t f.ts) self.now.flying.items }
    {
        self.flying.iter().all(|flight| t < flight.ts)
    }

    /// The write of a session lands.
    pub(crate) fn land(&mut self, s: u32)
        ensures flying { self.new.flying.items ≡ filter (λ f. not (f.s == s)) self.old.flying.items }
        ensures rest { self.new ≡ record self.old { flying = self.new.flying } }
    {
        self.flying.retain(|flight| flight.s != s);
    }

    /// A line answers the next command of a session.
    pub(crate) fn answer(&mut self, s: u32, line: Event) -> Result<(), NoMemory>
        ensures turns { (stand : Stand) → nth self.old.turns.items s ≡ Some stand → OnOk result (self.new.turns.items ≡ set_nth self.old.turns.items s (with_line stand line)) }
        ensures rest { self.new ≡ record self.old { turns = self.new.turns } }
    {
        let at = (s as usize).saturating_sub(1);
        if at < self.turns.len() {
            self.turns[at].answer(line)?;
        }
        Ok(())
    }

    /// A scan of the present of a session draws its timestamp.
    pub(crate) fn look(&mut self, s: u32, t: u64)
        ensures turns { (stand : Stand) → nth self.old.turns.items s ≡ Some stand → self.new.turns.items ≡ set_nth self.old.turns.items s (record stand { look = Some t }) }
        ensures rest { self.new ≡ record self.old { turns = self.new.turns } }
    {
        let at = (s as usize).saturating_sub(1);
        if at < self.turns.len() {
            self.turns[at].look(t);
        }
    }

    /// Takes a line that may come next.
    pub(crate) fn take(&mut self, event: Event) -> Result<(), NoMemory>
        ensures { OnOk result ((work : Workload) → Takes work self.old event self.new) }
    {
        match event {
            Event::Begin { s, i, ts, .. } => {
                self.flying.push(Flight { s, i, ts })?;
                self.c = ts;
                Ok(())
            }
            Event::End { s, .. } => {
                self.land(s);
                self.answer(s, event)
            }
            Event::Look { s, t, .. } => {
                self.look(s, t);
                self.c = t;
                Ok(())
            }
            Event::Rows { s, t, .. } => {
                self.c = self.c.max(t);
                self.answer(s, event)
            }
            Event::Mark { s, a, .. } => {
                self.a = a;
                self.answer(s, event)
            }
            Event::Ancient { s, .. } => self.answer(s, event),
            Event::Busy { s, .. } => self.answer(s, event),
            Event::Chore { s, .. } => self.answer(s, event),
            Event::Large { s, .. } => self.answer(s, event),
            Event::Stop => {
                self.stopped = true;
                Ok(())
            }
        }
    }
}
