//! Reading an output text again.

ghost use Rattle.std.specs.Prelude.{◌≡◌, ◌≤◌, ◌++◌, ◌∷◌, [], length, IfOk, IfErr, OnOk};
ghost use Rattle.kt_script.specs.declared.reread.CodecNo.TheVariants.{Place};
ghost use Rattle.kt_script.specs.Outputs.{IsTextOf, IsPlace, IsNoOutput};
ghost use Rattle.kt_script.specs.Reread.{IsLineAt, with_rows, AreRowsRead, AreRepliesRead, AreSessionsRead, IsEndingRead};

use crate::fronts::{is_row, row_front};
use crate::out_fronts::{history_front, sessions_front};
use crate::out_lines::{FirstLine, event_of, first_of, is_session, last_of};
use crate::output::LastLine;
use crate::replies::{LineList, ReplyLine, ReplyLineList, ReplyLines};
use crate::split::cut_at;
use crate::vector::push;
use crate::word::is_word;
use kt_base::{NoMemory, Octets};
use kt_history::{Event, EventList};
use std::alloc::Global;
use thiserror::Error;

/// What an output text tells.
#[derive(Drop)]
pub struct Output {
    pub replies: ReplyLines,
    pub events: EventList,
    pub last: LastLine,
}

/// Why a text is not read.
#[derive(Clone, Copy, Debug, PartialEq, Eq, Error)]
pub enum CodecNo {
    /// No output has the text: the first byte with which no output's text goes on from the bytes before it, or the
    /// length of the text where bytes are missing.
    #[error("no output has the text, which is at fault at byte {offset}")]
    Place { offset: u64 },
    #[error("out of memory")]
    Memory,
}

impl From<NoMemory> for CodecNo {
    ghost use Rattle.std.specs.Prelude.{◌≡◌};
    ghost use Rattle.kt_script.specs.declared.reread.CodecNo.TheVariants.{Memory};

    ghost from_gives = { λ _ e. e ≡ Memory };

    fn from(_: NoMemory) -> Self {
        CodecNo::Memory
    }
}

// Row lines, and the place behind them.
#[derive(Drop)]
struct Rows {
    lines: Vec<Octets>,
    at: usize,
}

// The replies of a session, and the place behind them.
#[derive(Drop)]
struct Replies {
    replies: Vec<ReplyLine>,
    at: usize,
}

// The replies of each session, and the place of the history.
#[derive(Drop)]
struct Sessions {
    sessions: Vec<ReplyLineList>,
    at: usize,
}

// The history, what the last line says, and the place behind it.
#[derive(Drop)]
struct Ending {
    events: Vec<Event>,
    last: LastLine,
    at: usize,
}

// The line that begins at a place, without its newline.
fn line_at(text: &[u8], at: usize) -> Option<&[u8]>
    requires { at ≤ length text.now }
    ensures { IsLineAt text.now at result }
{
    let (_, rest) = text.split_at(at);
    match cut_at(rest, b'\n') {
        Some((line, _)) => Some(line),
        None => None,
    }
}

fn fault(at: usize) -> CodecNo
    ensures { result ≡ Place at }
{
    CodecNo::Place { offset: at as u64 }
}

fn read_rows(alloc: Global, text: &[u8], start: usize, due: u64) -> Result<Rows, CodecNo>
    requires { start ≤ length text.now }
    ensures { AreRowsRead text.now start due result }
{
    let mut lines = Vec::new(alloc);
    let mut at = start;
    let mut left = due;
    while left > 0 {
        let Some(line) = line_at(text, at) else {
            let (_, rest) = text.split_at(at);
            return Err(fault(at + row_front(rest)));
        };
        if !is_row(line) {
            return Err(fault(at + row_front(line)));
        }
        let below = at + line.len() + 1;
        push(&mut lines, Octets::from_slice(alloc, line)?)?;
        at = below;
        left -= 1;
    }
    Ok(Rows { lines, at })
}

fn with_rows(reply: ReplyLine, lines: Vec<Octets>) -> ReplyLine
    ensures { result ≡ with_rows reply lines.items }
{
    match reply {
        ReplyLine::Rows { t, .. } => {
            let lines = LineList::of(lines);
            ReplyLine::Rows { t, lines }
        }
        reply => reply,
    }
}

// The replies of a session, up to a line that begins none.
fn read_replies(
    alloc: Global,
    text: &[u8],
    start: usize,
    numbers: &mut Vec<u64>,
) -> Result<Replies, CodecNo>
    requires { start ≤ length text.now }
    ensures { AreRepliesRead text.now start result }
{
    let mut replies = Vec::new(alloc);
    let mut at = start;
    'replies: while let Some(line) = line_at(text, at) {
        let Some(FirstLine { reply, due }) = first_of(alloc, line, numbers)? else {
            return Ok(Replies { replies, at });
        };
        let Rows { lines, at: behind } = match read_rows(alloc, text, at + line.len() + 1, due) {
            Ok(rows) => rows,
            Err(no) => return Err(no),
        };
        push(&mut replies, with_rows(reply, lines))?;
        at = behind;
    }
    Ok(Replies { replies, at })
}

fn read_sessions(alloc: Global, text: &[u8], numbers: &mut Vec<u64>) -> Result<Sessions, CodecNo>
    ensures { AreSessionsRead text.now result }
{
    let mut sessions = Vec::new(alloc);
    let mut at = 0;
    'sessions: while let Some(line) = line_at(text, at) {
        let below = at + line.len() + 1;
        if is_session(line, sessions.len() as u64 + 1) {
            let Replies {
                replies,
                at: behind,
            } = match read_replies(alloc, text, below, numbers) {
                Ok(read) => read,
                Err(no) => return Err(no),
            };
            push(&mut sessions, ReplyLineList::of(replies))?;
            at = behind;
        } else if is_word(line, b"history") {
            return Ok(Sessions {
                sessions,
                at: below,
            });
        } else {
            return Err(fault(at + sessions_front(line, sessions.len() as u64)));
        }
    }
    let (_, rest) = text.split_at(at);
    Err(fault(at + sessions_front(rest, sessions.len() as u64)))
}

fn read_ending(
    alloc: Global,
    text: &[u8],
    start: usize,
    numbers: &mut Vec<u64>,
) -> Result<Ending, CodecNo>
    requires { start ≤ length text.now }
    ensures { IsEndingRead text.now start result }
{
    let mut events = Vec::new(alloc);
    let mut at = start;
    'lines: while let Some(line) = line_at(text, at) {
        let below = at + line.len() + 1;
        match event_of(line, numbers)? {
            Some(event) => {
                push(&mut events, event)?;
                at = below;
            }
            None => {
                return match last_of(line) {
                    Some(last) => Ok(Ending {
                        events,
                        last,
                        at: below,
                    }),
                    None => Err(fault(at + history_front(line))),
                };
            }
        }
    }
    let (_, rest) = text.split_at(at);
    Err(fault(at + history_front(rest)))
}

/// The output that has a text. Where none has it, the place is told at which the text stops being the front of one.
pub fn read_output(alloc: Global, text: &[u8]) -> Result<Output, CodecNo>
    ensures found { IfOk result (λ out. IsTextOf text.now out) }
    ensures place { IfErr result (λ no. IsPlace text.now no) }
    ensures none { IfErr result (λ no. IsNoOutput text.now no) }
{
    let mut numbers = Vec::new(alloc);
    let Sessions { sessions, at } = match read_sessions(alloc, text, &mut numbers) {
        Ok(read) => read,
        Err(no) => return Err(no),
    };
    let Ending {
        events,
        last,
        at: behind,
    } = match read_ending(alloc, text, at, &mut numbers) {
        Ok(read) => read,
        Err(no) => return Err(no),
    };
    if behind < text.len() {
        return Err(fault(behind));
    }
    Ok(Output {
        replies: ReplyLines::of(sessions),
        events: EventList::of(events),
        last,
    })
}
