//! The commands of each session.
ghost use Rattle.std.specs.Prelude.{◌≡◌, ◌==◌, length};

use crate::{Scan, Write};
use kt_base::Chore;
use std::marker::Model;

/// What a session asks for.
#[derive(Drop)]
pub enum Command {
    Write(Write),
    Scan(Scan),
    /// Raise the ancient history mark to a time, as far as no write flies.
    Mark(u64),
    Chore(Chore),
}

/// The commands of one session. Contracts see them as a list.
#[derive(Drop)]
pub struct Session {
    commands: Vec<Command>,
}

impl Model for Session {
    ghost use Rattle.std.specs.Prelude.{List};
    ghost use Rattle.kt_history.specs.declared.command.Command.{Command};

    ghost Value = { List Command };

    ghost view = { λ s. s.commands.items };
}

impl Session {
    /// The commands of a vector, which takes no memory.
    pub fn of(commands: Vec<Command>) -> Session
        ensures { result ≡ commands.items }
    {
        Session { commands }
    }

    pub fn len(&self) -> usize
        ensures { result ≡ length self.now }
    {
        self.commands.len()
    }

    pub fn is_empty(&self) -> bool
        ensures { result ≡ (length self.now == 0) }
    {
        self.commands.is_empty()
    }

    pub fn as_slice(&self) -> &[Command]
        ensures { result.now ≡ self.now }
    {
        &self.commands
    }
}

/// The commands of every session. Contracts see them as one list of commands per session.
#[derive(Drop)]
pub struct Plan {
    sessions: Vec<Session>,
}

impl Model for Plan {
    ghost use Rattle.std.specs.Prelude.{List};
    ghost use Rattle.kt_history.specs.declared.command.Command.{Command};

    ghost Value = { List (List Command) };

    ghost view = { λ p. p.sessions.items };
}

impl Plan {
    /// The sessions of a vector, which takes no memory.
    pub fn of(sessions: Vec<Session>) -> Plan
        ensures { result ≡ sessions.items }
    {
        Plan { sessions }
    }

    pub fn len(&self) -> usize
        ensures { result ≡ length self.now }
    {
        self.sessions.len()
    }

    pub fn is_empty(&self) -> bool
        ensures { result ≡ (length self.now == 0) }
    {
        self.sessions.is_empty()
    }

    pub fn as_slice(&self) -> &[Session]
        ensures { result.now ≡ self.now }
    {
        &self.sessions
    }
}
