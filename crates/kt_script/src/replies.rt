//! The replies of a run as its output text shows them. A row is kept as its line.
ghost use Rattle.std.specs.Prelude.{◌≡◌};

use kt_base::Octets;
use kt_history::OutcomeList;
use std::marker::Model;

/// Lines, without their newlines. Contracts see them as a list of byte lists.
#[derive(Drop)]
pub struct LineList {
    lines: Vec<Octets>,
}

impl Model for LineList {
    ghost use Rattle.std.specs.Prelude.{List, ℕ};

    ghost Value = { List (List ℕ) };

    ghost view = { λ l. l.lines.items };
}

impl LineList {
    /// The lines of a vector, which takes no memory.
    pub fn of(lines: Vec<Octets>) -> LineList
        ensures { result ≡ lines.items }
    {
        LineList { lines }
    }

    pub fn as_slice(&self) -> &[Octets]
        ensures { result.now ≡ self.now }
    {
        &self.lines
    }
}

/// The answer to a command. A scan's rows are their lines.
#[derive(Drop)]
pub enum ReplyLine {
    At { ts: u64, outcomes: OutcomeList },
    Rows { t: u64, lines: LineList },
    Ancient { t: u64, a: u64 },
    Busy { t: u64, f: u64 },
    Ahm { a: u64 },
    Done,
    Large { n: u32 },
    Stopped,
}

/// The replies of one session. Contracts see them as a list.
#[derive(Drop)]
pub struct ReplyLineList {
    replies: Vec<ReplyLine>,
}

impl Model for ReplyLineList {
    ghost use Rattle.std.specs.Prelude.{List};
    ghost use Rattle.kt_script.specs.declared.replies.ReplyLine.{ReplyLine};

    ghost Value = { List ReplyLine };

    ghost view = { λ l. l.replies.items };
}

impl ReplyLineList {
    /// The replies of a vector, which takes no memory.
    pub fn of(replies: Vec<ReplyLine>) -> ReplyLineList
        ensures { result ≡ replies.items }
    {
        ReplyLineList { replies }
    }

    pub fn as_slice(&self) -> &[ReplyLine]
        ensures { result.now ≡ self.now }
    {
        &self.replies
    }
}

/// The replies of every session. Contracts see them as one list of replies per session.
#[derive(Drop)]
pub struct ReplyLines {
    sessions: Vec<ReplyLineList>,
}

impl Model for ReplyLines {
    ghost use Rattle.std.specs.Prelude.{List};
    ghost use Rattle.kt_script.specs.declared.replies.ReplyLine.{ReplyLine};

    ghost Value = { List (List ReplyLine) };

    ghost view = { λ l. l.sessions.items };
}

impl ReplyLines {
    /// The sessions of a vector, which takes no memory.
    pub fn of(sessions: Vec<ReplyLineList>) -> ReplyLines
        ensures { result ≡ sessions.items }
    {
        ReplyLines { sessions }
    }

    pub fn as_slice(&self) -> &[ReplyLineList]
        ensures { result.now ≡ self.now }
    {
        &self.sessions
    }
}
