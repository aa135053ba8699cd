//! The output of a run: the replies of each session, the history and the last line.

ghost use Rattle.std.specs.Prelude.{◌≡◌, ◌+◌, ◌<◌, ◌≤◌, ◌++◌, ◌∷◌, [], List, OnOk, OnErr, length, map, codes};
ghost use Rattle.std.specs.List.{flat_map};
ghost use Rattle.std.specs.Fmt.{decimal};
ghost use Rattle.kt_base.specs.declared.cell.Kind.{Kind};
ghost use Rattle.kt_script.specs.Texts.{line, words, row_text, outcome_word, line_words, lines_text, session_line, told_session, told_sessions, event_line, last_text, seen, seen_of, output_text};

use crate::lists::{ReplyLists, ShownReply};
use crate::number::write_numbers;
use kt_base::literal::append_literal;
use kt_base::{Kind, NoMemory, Octets};
use kt_history::{Event, EventList, Outcome, Reply, RowCells, RowList};
use std::alloc::Global;

// The most bytes of four numbers, with a space before each.
const NUMBERS_LEN: usize = 84;

/// The end of the output: the ancient history mark, the last timestamp and the count of disk rowsets, or that
/// the run was stopped.
#[derive(Clone, Copy)]
pub enum LastLine {
    Numbers { a: u64, c: u64, rowsets: u64 },
    Stopped,
}

// Up to four numbers behind a word.
fn print_words(word: &[u8], numbers: &[u64], out: &mut Octets) -> Result<(), NoMemory>
    requires { length numbers.now ≤ 4 }
    ensures ok { OnOk result (out.new ≡ out.old ++ words (word.now ∷ map decimal numbers.now)) }
{
    let mut text = [0; NUMBERS_LEN];
    let start = write_numbers(numbers, &mut text, NUMBERS_LEN);
    out.extend(word)?;
    out.extend(&text[start..])
}

// A line of up to four numbers behind a word.
fn print_line(word: &[u8], numbers: &[u64], out: &mut Octets) -> Result<(), NoMemory>
    requires { length numbers.now ≤ 4 }
    ensures ok { OnOk result (out.new ≡ out.old ++ line (words (word.now ∷ map decimal numbers.now))) }
{
    let mut text = [b'\n'; NUMBERS_LEN + 1];
    let start = write_numbers(numbers, &mut text, NUMBERS_LEN);
    out.extend(word)?;
    out.extend(&text[start..])
}

fn print_event(event: &Event, out: &mut Octets) -> Result<(), NoMemory>
    ensures ok { OnOk result (out.new ≡ out.old ++ event_line event.now) }
{
    match *event {
        Event::Begin { s, i, ts, m } => {
            print_line(b"begin", &[u64::from(s), u64::from(i), ts, m], out)
        }
        Event::End { s, i, ts } => print_line(b"end", &[u64::from(s), u64::from(i), ts], out),
        Event::Look { s, i, t, m } => {
            print_line(b"look", &[u64::from(s), u64::from(i), t, m], out)
        }
        Event::Rows { s, i, t } => print_line(b"rows", &[u64::from(s), u64::from(i), t], out),
        Event::Ancient { s, i, t, a } => {
            print_line(b"ancient", &[u64::from(s), u64::from(i), t, a], out)
        }
        Event::Busy { s, i, t, f } => {
            print_line(b"busy", &[u64::from(s), u64::from(i), t, f], out)
        }
        Event::Mark { s, i, a } => print_line(b"mark", &[u64::from(s), u64::from(i), a], out),
        Event::Chore { s, i } => print_line(b"chore", &[u64::from(s), u64::from(i)], out),
        Event::Large { s, i, n } => {
            print_line(b"large", &[u64::from(s), u64::from(i), u64::from(n)], out)
        }
        Event::Stop => print_line(b"stop", &[], out),
    }
}

fn print_events(events: &[Event], out: &mut Octets) -> Result<(), NoMemory>
    ensures ok { OnOk result (out.new ≡ out.old ++ flat_map event_line events.now) }
{
    for event in events {
        print_event(event, out)?;
    }
    Ok(())
}

fn print_last(last: &LastLine, out: &mut Octets) -> Result<(), NoMemory>
    ensures ok { OnOk result (out.new ≡ out.old ++ last_text last.now) }
{
    match *last {
        LastLine::Numbers { a, c, rowsets } => {
            print_words(b"tablet ahm", &[a], out)?;
            print_words(b" last", &[c], out)?;
            print_line(b" rowsets", &[rowsets], out)
        }
        LastLine::Stopped => out.extend(b"tablet stopped\n"),
    }
}

/// Appends the text of a row under columns of these kinds, without a newline. Without memory a part of it may stand at
/// the end.
pub fn print_row(kinds: &[Kind], row: &RowCells<'_>, out: &mut Octets) -> Result<(), NoMemory>
    ensures ok { OnOk result (out.new ≡ out.old ++ row_text kinds.now row.now) }
{
    'cells: for at in 0..row.len().min(kinds.len()) {
        if at > 0 {
            out.push(b' ')?;
        }
        let cell = row.at(at);
        append_literal(cell, kinds[at], out)?;
    }
    Ok(())
}

fn print_row_line(kinds: &[Kind], row: &RowCells<'_>, out: &mut Octets) -> Result<(), NoMemory>
    ensures ok { OnOk result (out.new ≡ out.old ++ line (row_text kinds.now row.now)) }
{
    print_row(kinds, row, out)?;
    out.push(b'\n')
}

fn print_rows(kinds: &[Kind], rows: &RowList, out: &mut Octets) -> Result<(), NoMemory>
    ensures ok { OnOk result (out.new ≡ out.old ++ flat_map line (map (row_text kinds.now) rows.now)) }
{
    'rows: for at in 0..rows.len() {
        let row = rows.at(at);
        print_row_line(kinds, &row, out)?;
    }
    Ok(())
}

fn print_outcome(outcome: Outcome, out: &mut Octets) -> Result<(), NoMemory>
    ensures ok { OnOk result (out.new ≡ out.old ++ 32 ∷ outcome_word outcome) }
{
    match outcome {
        Outcome::Done => out.extend(b" ok"),
        Outcome::Present => out.extend(b" present"),
        Outcome::Absent => out.extend(b" absent"),
        Outcome::Ignored => out.extend(b" ignored"),
    }
}

fn print_at(ts: u64, outcomes: &[Outcome], out: &mut Octets) -> Result<(), NoMemory>
    ensures ok { OnOk result (out.new ≡ out.old ++ line (words (codes "at" ∷ decimal ts ∷ map outcome_word outcomes.now))) }
{
    print_words(b"at", &[ts], out)?;
    for outcome in outcomes {
        print_outcome(*outcome, out)?;
    }
    out.push(b'\n')
}

// The first line of a reply.
fn print_first(reply: &Reply, out: &mut Octets) -> Result<(), NoMemory>
    ensures ok { (kinds : List Kind) → OnOk result (out.new ≡ out.old ++ line (words (line_words (seen_of kinds reply.now)))) }
{
    match reply {
        Reply::At { ts, outcomes } => print_at(*ts, outcomes.as_slice(), out),
        Reply::Rows { t, rows } => print_line(b"rows", &[*t, rows.len() as u64], out),
        Reply::Ancient { t, a } => print_line(b"ancient", &[*t, *a], out),
        Reply::Busy { t, f } => print_line(b"busy", &[*t, *f], out),
        Reply::Ahm { a } => print_line(b"ahm", &[*a], out),
        Reply::Done => print_line(b"done", &[], out),
        Reply::Large { n } => print_line(b"large", &[u64::from(*n)], out),
        Reply::Stopped => print_line(b"stopped", &[], out),
    }
}

/// Appends the lines of a reply, its rows under columns of these kinds. Without memory a part of them may stand at the end.
pub fn print_reply(kinds: &[Kind], reply: &Reply, out: &mut Octets) -> Result<(), NoMemory>
    ensures ok { OnOk result (out.new ≡ out.old ++ lines_text (seen_of kinds.now reply.now)) }
{
    print_first(reply, out)?;
    match reply {
        Reply::Rows { rows, .. } => print_rows(kinds, rows, out),
        _ => Ok(()),
    }
}

fn print_replies(replies: &[ShownReply], out: &mut Octets) -> Result<(), NoMemory>
    ensures ok { OnOk result (out.new ≡ out.old ++ flat_map lines_text (map seen replies.now)) }
{
    for reply in replies {
        print_reply(reply.kinds.as_slice(), &reply.reply, out)?;
    }
    Ok(())
}

/// Appends the line before the replies of the session of this number. Without memory a part of it may stand at the end.
pub fn print_session_line(number: u64, out: &mut Octets) -> Result<(), NoMemory>
    ensures ok { OnOk result (out.new ≡ out.old ++ line (session_line number)) }
{
    print_line(b"session", &[number], out)
}

fn print_session(number: u64, replies: &[ShownReply], out: &mut Octets) -> Result<(), NoMemory>
    ensures ok { OnOk result (out.new ≡ out.old ++ told_session number (map seen replies.now)) }
{
    print_session_line(number, out)?;
    print_replies(replies, out)
}

fn print_sessions(sessions: &ReplyLists, out: &mut Octets) -> Result<(), NoMemory>
    ensures ok { OnOk result (out.new ≡ out.old ++ told_sessions 1 (map (map seen) sessions.now)) }
{
    for (at, session) in sessions.as_slice().iter().enumerate() {
        print_session(at as u64 + 1, session.as_slice(), out)?;
    }
    Ok(())
}

/// Appends what stands behind the replies of all sessions: the history and the last line. Without memory a part of it may
/// stand at the end.
pub fn print_end(events: &EventList, last: &LastLine, out: &mut Octets) -> Result<(), NoMemory>
    ensures ok { OnOk result (out.new ≡ out.old ++ (line (codes "history") ++ flat_map event_line events.now ++ last_text last.now)) }
{
    out.extend(b"history\n")?;
    print_events(events.as_slice(), out)?;
    print_last(last, out)
}

fn print_all(
    sessions: &ReplyLists,
    events: &EventList,
    last: &LastLine,
    out: &mut Octets,
) -> Result<(), NoMemory>
    ensures ok { OnOk result (out.new ≡ out.old ++ output_text sessions.now events.now last.now) }
{
    print_sessions(sessions, out)?;
    print_end(events, last, out)
}

// Prints into an empty text, which is empty again where memory runs out.
fn print_whole(
    sessions: &ReplyLists,
    events: &EventList,
    last: &LastLine,
    out: &mut Octets,
) -> Result<(), NoMemory>
    requires { out.old ≡ [] }
    ensures ok { OnOk result (out.new ≡ out.old ++ output_text sessions.now events.now last.now) }
    ensures err { OnErr result (out.new ≡ out.old) }
{
    match print_all(sessions, events, last, out) {
        Ok(()) => Ok(()),
        Err(no) => {
            out.clear();
            Err(no)
        }
    }
}

/// Appends the output text. Without memory nothing is appended.
pub fn print_output(
    alloc: Global,
    sessions: &ReplyLists,
    events: &EventList,
    last: &LastLine,
    out: &mut Octets,
) -> Result<(), NoMemory>
    ensures ok { OnOk result (out.new ≡ out.old ++ output_text sessions.now events.now last.now) }
    ensures err { OnErr result (out.new ≡ out.old) }
{
    if out.is_empty() {
        return print_whole(sessions, events, last, out);
    }
    let mut text = Octets::new(alloc);
    print_all(sessions, events, last, &mut text)?;
    out.extend(text.as_slice())
}
