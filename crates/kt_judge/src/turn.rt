//! Where a session stands in a history.
ghost use Rattle.std.specs.Prelude.{◌≡◌, [], OnOk, Some, None};
ghost use Rattle.kt_judge.specs.Decided.{Decided};
ghost use Rattle.kt_judge.specs.Turns.{turn_of, with_line};

use kt_base::NoMemory;
use kt_history::Event;
use std::alloc::Global;
use std::marker::Model;

/// The lines that answered a session's commands so far, and the timestamp that a scan of the present has drawn.
#[derive(Drop)]
pub(crate) struct Turn {
    answered: Vec<Event>,
    look: Option<u64>,
}

impl Model for Turn {
    ghost use Rattle.kt_judge.specs.Turns.{Stand};

    ghost Value = { Stand };

    ghost view = { λ t. record { lines = t.answered.items; look = t.look } };
}

impl Turn {
    /// No command is answered.
    pub(crate) fn first(alloc: Global) -> Turn
        ensures { result ≡ record { lines = []; look = None } }
    {
        Turn {
            answered: Vec::new(alloc),
            look: None,
        }
    }

    /// Whether a command is the next, and the look is this.
    pub(crate) fn is(&self, i: u32, look: Option<u64>) -> bool
        ensures { Decided result (turn_of self.now ≡ record { next = i; look = look }) }
    {
        self.answered.len() + 1 == i as usize && self.look == look
    }

    /// A scan of the present draws its timestamp.
    pub(crate) fn look(&mut self, t: u64)
        ensures { self.new ≡ record self.old { look = Some t } }
    {
        self.look = Some(t);
    }

    /// A line answers the next command.
    pub(crate) fn answer(&mut self, line: Event) -> Result<(), NoMemory>
        ensures { OnOk result (self.new ≡ with_line self.old line) }
    {
        self.answered.push(line)?;
        self.look = None;
        Ok(())
    }

    /// The lines that answered the commands so far.
    pub(crate) fn lines(&self) -> &[Event]
        ensures { result.now ≡ self.now.lines }
    {
        &self.answered
    }
}
