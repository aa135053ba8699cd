//! The first reply that is not the run's.
ghost use Rattle.std.specs.Prelude.{◌≡◌, ℕ, suc, IfOk};
ghost use Rattle.kt_history.specs.History.{Past};
ghost use Rattle.kt_history.specs.Replies.{past_after};
ghost use Rattle.kt_judge.specs.Works.{work_of};
ghost use Rattle.kt_judge.specs.Machine.{Follows};
ghost use Rattle.kt_judge.specs.Replied.{ShowsPast, IsFirstNot, from_one, StandsAt};
ghost use Rattle.kt_judge.specs.Verdicts.{Stands};
ghost use Rattle.kt_judge.specs.Wrong.{lines_at, IsWrong};

use crate::lists::item;
use crate::machine::Machine;
use crate::replies::reply_stands;
use crate::turn::Turn;
use crate::view::Table;
use kt_base::NoMemory;
use kt_history::{Command, Event};
use kt_script::{Output, ReplyLine, Script};
use std::alloc::Global;

/// A place among replies: the number of a session, and of a command in it or 0 for the session itself.
#[derive(Clone, Copy, Debug, PartialEq, Eq)]
pub(crate) struct Place {
    pub(crate) session: u64,
    pub(crate) index: u64,
}

// The first reply of a session that does not stand, counted from 1.
fn wrong_reply(
    alloc: Global,
    script: &Script,
    table: &Table,
    stopped: bool,
    commands: &[Command],
    lines: &[Event],
    replies: &[ReplyLine],
) -> Result<Option<u64>, NoMemory>
    ensures { IfOk result (λ wrong. (cells : ℕ) (whole : Past) → ShowsPast table.now.entries.items whole
        → IsFirstNot (from_one (StandsAt (work_of cells script.now) whole stopped commands.now lines.now replies.now)) wrong) }
{
    let count = commands.len().max(replies.len());
    for at in 0..count {
        let command = item(commands, at);
        let line = item(lines, at).copied();
        let printed = item(replies, at);
        if !reply_stands(alloc, script, table, stopped, command, line, printed)? {
            return Ok(Some(at as u64 + 1));
        }
    }
    Ok(None)
}

// The lines that answered the commands of a session, counted from 0.
fn lines_at(turns: &[Turn], at: usize) -> &[Event]
    ensures { result.now ≡ lines_at turns.now at }
{
    match item(turns, at) {
        Some(turn) => turn.lines(),
        None => &[],
    }
}

// The first place of a session that does not stand, 0 for the session itself. The session is counted from 0.
fn wrong_in(
    alloc: Global,
    script: &Script,
    table: &Table,
    m: &Machine,
    output: &Output,
    at: usize,
) -> Result<Option<u64>, NoMemory>
    ensures { IfOk result (λ wrong. (cells : ℕ) (past : Past) (c : ℕ) → Follows (work_of cells script.now) past c output.now.events m.now
        → ShowsPast table.now.entries.items (past_after (work_of cells script.now) past c output.now.events) → IsFirstNot (λ j. Stands (work_of cells script.now) past c output.now (suc at) j) wrong) }
{
    let session = item(script.plan.as_slice(), at);
    let replies = item(output.replies.as_slice(), at);
    match (session, replies) {
        (Some(session), Some(replies)) => {
            let lines = lines_at(&m.turns, at);
            let wrong = wrong_reply(
                alloc,
                script,
                table,
                m.stopped,
                session.as_slice(),
                lines,
                replies.as_slice(),
            )?;
            Ok(wrong)
        }
        (None, None) => Ok(None),
        (Some(_), None) => Ok(Some(0)),
        (None, Some(_)) => Ok(Some(0)),
    }
}

/// The first reply that is not the run's, if there is one, by session and command.
pub(crate) fn first_wrong(
    alloc: Global,
    script: &Script,
    table: &Table,
    m: &Machine,
    output: &Output,
) -> Result<Option<Place>, NoMemory>
    ensures { IfOk result (λ wrong. (cells : ℕ) (past : Past) (c : ℕ) → Follows (work_of cells script.now) past c output.now.events m.now
        → ShowsPast table.now.entries.items (past_after (work_of cells script.now) past c output.now.events) → IsWrong (work_of cells script.now) past c output.now wrong) }
{
    let sessions = script.plan.as_slice();
    let replies = output.replies.as_slice();
    let count = sessions.len().max(replies.len());
    for at in 0..count {
        match wrong_in(alloc, script, table, m, output, at)? {
            Some(index) => {
                let session = at as u64 + 1;
                return Ok(Some(Place { session, index }));
            }
            None => {}
        }
    }
    Ok(None)
}
