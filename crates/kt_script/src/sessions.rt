//! The commands of a script as they are read.

ghost use Rattle.std.specs.Prelude.{◌≡◌, ◌<◌, ◌++◌, ◌∷◌, [], length, IfOk, OnOk, OnErr, true};
ghost use Rattle.kt_history.specs.declared.command.Command.TheVariants as command;
ghost use Rattle.kt_script.specs.Scripts.{most_commands, is_begun, commands_in, push_last};

use crate::draft::Draft;
use kt_base::NoMemory;
use kt_history::{Command, OpList, OpRef, Plan, Session};
use std::alloc::Global;
use std::marker::Model;

/// The sessions that have ended, and the commands of the last one, if one has begun. Contracts see the commands of each
/// session.
#[derive(Drop)]
pub struct Sessions {
    ended: Vec<Session>,
    last: Option<Draft>,
    // How many commands the ended sessions have.
    count: usize,
}

impl Model for Sessions {
    ghost use Rattle.std.specs.Prelude.{List};
    ghost use Rattle.kt_history.specs.declared.command.Command.{Command};
    ghost use Rattle.kt_script.specs.Sessions.{plan_of, Kept};

    ghost Value = { List (List Command) };

    ghost view = { λ s. plan_of s.ended.items s.last };

    ghost invariant = { λ s. Kept s.ended.items s.last s.count };
}

// One session more. Without memory there are those before.
fn end(ended: &mut Vec<Session>, last: Draft) -> Result<(), NoMemory>
    ensures ok { OnOk result (ended.new.items ≡ ended.old.items ++ last ∷ []) }
    ensures err { OnErr result (ended.new.items ≡ ended.old.items) }
{
    ended.push(last.into_session()?)?;
    Ok(())
}

impl Sessions {
    pub fn none(alloc: Global) -> Sessions
        ensures { result ≡ [] }
    {
        Sessions {
            ended: Vec::new(alloc),
            last: None,
            count: 0,
        }
    }

    pub fn is_begun(&self) -> bool
        ensures { result ≡ is_begun self.now }
    {
        self.last.is_some()
    }

    /// How many sessions there are.
    pub fn len(&self) -> usize
        ensures { result ≡ length self.now }
    {
        match &self.last {
            Some(_) => self.ended.len() + 1,
            None => 0,
        }
    }

    /// How many commands there are.
    pub fn commands(&self) -> usize
        ensures { result ≡ commands_in self.now }
    {
        match &self.last {
            Some(last) => self.count + last.len(),
            None => 0,
        }
    }

    /// One session more, without a command.
    pub fn begin(&mut self, alloc: Global) -> Result<(), NoMemory>
        ensures { OnOk result (self.new ≡ self.old ++ [] ∷ []) }
    {
        if let Some(last) = self.last.replace(Draft::new(alloc)) {
            let count = self.count + last.len();
            end(&mut self.ended, last)?;
            self.count = count;
        }
        Ok(())
    }

    /// One command more in the last session. The list of a write is left for its room.
    pub fn push(&mut self, command: Command, spare: &mut OpList) -> Result<(), NoMemory>
        requires begun { is_begun self.old ≡ true }
        requires room { commands_in self.old < most_commands }
        ensures { OnOk result (self.new ≡ push_last command self.old) }
    {
        let Some(last) = &mut self.last else {
            return Ok(());
        };
        last.push(command, spare)
    }

    /// A write of one operation more in the last session.
    pub fn push_lone(&mut self, op: &OpRef<'_>) -> Result<(), NoMemory>
        requires begun { is_begun self.old ≡ true }
        requires room { commands_in self.old < most_commands }
        ensures { OnOk result (self.new ≡ push_last (command.Write (record { ops = op.now ∷ [] })) self.old) }
    {
        let Some(last) = &mut self.last else {
            return Ok(());
        };
        last.push_lone(op)
    }

    pub fn into_plan(self) -> Result<Plan, NoMemory>
        ensures { IfOk result (λ plan. plan ≡ self) }
    {
        let Sessions {
            mut ended,
            last,
            ..
        } = self;
        if let Some(last) = last {
            end(&mut ended, last)?;
        }
        Ok(Plan::of(ended))
    }
}
