ghost use Rattle.std.specs.Prelude.{◌≡◌};

use crate::change::Outcome;
use crate::row_list::RowList;
use std::marker::Model;

/// What became of each operation of a write. Contracts see it as a list.
#[derive(Drop)]
pub struct OutcomeList {
    outcomes: Vec<Outcome>,
}

impl Model for OutcomeList {
    ghost use Rattle.std.specs.Prelude.{List};
    ghost use Rattle.kt_history.specs.declared.change.Outcome.{Outcome};

    ghost Value = { List Outcome };

    ghost view = { λ l. l.outcomes.items };
}

/// The answer to a command.
#[derive(Drop)]
pub enum Reply {
    At { ts: u64, outcomes: OutcomeList },
    Rows { t: u64, rows: RowList },
    Ancient { t: u64, a: u64 },
    Busy { t: u64, f: u64 },
    Ahm { a: u64 },
    Done,
    Large { n: u32 },
    Stopped,
}

impl OutcomeList {
    pub fn of(outcomes: Vec<Outcome>) -> OutcomeList
        ensures { result ≡ outcomes.items }
    {
        OutcomeList { outcomes }
    }

    pub fn as_slice(&self) -> &[Outcome]
        ensures { result.now ≡ self.now }
    {
        &self.outcomes
    }
}
