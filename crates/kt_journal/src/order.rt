//! The order of a log's records.
ghost use Rattle.std.specs.Prelude.{◌≡◌, true, [], ◌∷◌, List, IfOk};
ghost use Rattle.kt_records.specs.declared.entry.Entry.{Entry};
ghost use Rattle.kt_records.specs.Shared.{entry_of};
ghost use Rattle.kt_journal.specs.Order.{is_above, is_count, follows};
ghost use Rattle.kt_journal.specs.Tracks.{Tracks};

use crate::waiting::Waiting;
use kt_base::NoMemory;
use kt_records::RecordRef;
use std::alloc::Global;

/// The writes that wait for their COMMIT, with their numbers of operations.
#[derive(Drop)]
pub struct Order {
    pub waiting: Waiting,
}

fn above(last: Option<u64>, ts: u64) -> bool
    ensures { result ≡ is_above last ts }
{
    match last {
        None => true,
        Some(last) => last < ts,
    }
}

fn counts(waiting: Option<usize>, count: usize) -> bool
    ensures { result ≡ is_count waiting count }
{
    match waiting {
        None => false,
        Some(operations) => operations == count,
    }
}

impl Order {
    pub fn new(alloc: Global) -> Order
        ensures { Tracks result [] }
    {
        Order {
            waiting: Waiting::new(alloc),
        }
    }

    /// Adds a record, where it may follow. Where it may not, the order is of no more use.
    pub fn add(&mut self, added: &RecordRef<'_>) -> Result<bool, NoMemory>
        ensures { (before : List Entry) → Tracks self.old before → IfOk result (λ ok. (ok ≡ follows before (entry_of added.now)) × (ok ≡ true → Tracks self.new (entry_of added.now ∷ before))) }
    {
        match added {
            RecordRef::Replicate { ts, ops } => {
                if !above(self.waiting.last(), *ts) {
                    return Ok(false);
                }
                self.waiting.add(*ts, ops.len())?;
                Ok(true)
            }
            RecordRef::Commit { ts, rows } => {
                let waiting = self.waiting.take(*ts);
                Ok(counts(waiting, rows.len()))
            }
        }
    }
}
