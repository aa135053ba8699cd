//! The output text of a run.
ghost use Rattle.std.specs.Prelude.{◌≡◌, ◌++◌, List, IfOk, OnOk, All, Some, map};
ghost use Rattle.kt_base.specs.declared.cell.Kind.{Kind};
ghost use Rattle.kt_script.specs.Texts.{output_text, told_session, told_sessions, seen, reply_numbers, seen_of};
ghost use Rattle.kt_script.specs.Laws.{Fits64, Fits32, short_of_reply, EventFits, ReplyFits, OutputFits};
ghost use Rattle.kt_app.specs.Headline.{kinds_shown as kinds_printed, shown_from, all_shown};
ghost use Rattle.kt_app.specs.Session.{on_table};
ghost use Rattle.kt_app.specs.Played.{given, reply_in, end_of_run};

use crate::kinds::kinds_shown;
use kt_base::{NoMemory, Octets};
use kt_history::{Command, Event, EventList, Reply, Session};
use kt_schema::Schema;
use kt_script::{KindList, LastLine, print_end, print_reply, print_session_line};
use kt_serve::SessionReplies;
use std::alloc::Global;

/// The output text of a run, and whether a device fault stopped it.
#[derive(Drop)]
pub struct Output {
    pub stopped: bool,
    pub text: Octets,
}

// The numbers of a reply are numbers of the program.
fn reply_fits(reply: &Reply)
    ensures numbers { All Fits64 (reply_numbers reply.now) }
    ensures short { (kinds : List Kind) → All Fits32 (short_of_reply (seen_of kinds reply.now)) }
{
    match reply {
        Reply::At { ts, outcomes: _ } => {
            let _ts = *ts;
        }
        Reply::Rows { t, rows } => {
            let _numbers = (*t, rows.len());
        }
        Reply::Ancient { t, a } => {
            let _numbers = (*t, *a);
        }
        Reply::Busy { t, f } => {
            let _numbers = (*t, *f);
        }
        Reply::Ahm { a } => {
            let _a = *a;
        }
        Reply::Large { n } => {
            let _n = *n;
        }
        Reply::Done | Reply::Stopped => {}
    }
}

// And those of a line.
fn event_fits(event: Event)
    ensures { EventFits event }
{
    match event {
        Event::Begin { s, i, ts, m } => {
            let _numbers = (s, i, ts, m);
        }
        Event::End { s, i, ts } => {
            let _numbers = (s, i, ts);
        }
        Event::Look { s, i, t, m } => {
            let _numbers = (s, i, t, m);
        }
        Event::Rows { s, i, t } => {
            let _numbers = (s, i, t);
        }
        Event::Ancient { s, i, t, a } => {
            let _numbers = (s, i, t, a);
        }
        Event::Busy { s, i, t, f } => {
            let _numbers = (s, i, t, f);
        }
        Event::Mark { s, i, a } => {
            let _numbers = (s, i, a);
        }
        Event::Chore { s, i } => {
            let _numbers = (s, i);
        }
        Event::Large { s, i, n } => {
            let _numbers = (s, i, n);
        }
        Event::Stop => {}
    }
}

fn events_fit(events: &[Event])
    ensures { All EventFits events.now }
{
    for event in events {
        event_fits(*event);
    }
}

// The kinds of the columns that the rows of a reply have.
fn kinds_of(alloc: Global, schema: &Schema, command: &Command) -> Result<KindList, NoMemory>
    ensures { IfOk result (λ kinds. kinds ≡ kinds_printed (on_table schema.now) command.now) }
{
    match command {
        Command::Scan(scan) => kinds_shown(alloc, schema, scan),
        Command::Write(_) | Command::Mark(_) | Command::Chore(_) => {
            Ok(KindList::of(Vec::new(alloc)))
        }
    }
}

// Prints the replies of a session, one for each command: stopped where it has none.
fn put_session(
    alloc: Global,
    schema: &Schema,
    number: u64,
    commands: &[Command],
    replies: SessionReplies,
    out: &mut Octets,
) -> Result<(), NoMemory>
    ensures text { OnOk result (out.new ≡ out.old ++ told_session number (map seen (shown_from (on_table schema.now) (reply_in (Some replies)) 1 commands.now))) }
    ensures fit { OnOk result (All ReplyFits (shown_from (on_table schema.now) (reply_in (Some replies)) 1 commands.now)) }
{
    print_session_line(number, out)?;
    let mut rest = replies.into_vec().into_iter();
    for command in commands {
        let reply = rest.next().unwrap_or(Reply::Stopped);
        reply_fits(&reply);
        let kinds = kinds_of(alloc, schema, command)?;
        print_reply(kinds.as_slice(), &reply, out)?;
    }
    Ok(())
}

// The same of each session.
fn put_sessions(
    alloc: Global,
    schema: &Schema,
    plan: &[Session],
    replies: Vec<SessionReplies>,
    out: &mut Octets,
) -> Result<(), NoMemory>
    ensures text { OnOk result (out.new ≡ out.old ++ told_sessions 1 (map (map seen) (all_shown (on_table schema.now) (given replies.items) 1 plan.now))) }
    ensures fit { OnOk result (All (All ReplyFits) (all_shown (on_table schema.now) (given replies.items) 1 plan.now)) }
{
    let mut rest = replies.into_iter();
    for (at, session) in plan.iter().enumerate() {
        let replies = rest.next().unwrap_or(SessionReplies::none(alloc));
        put_session(
            alloc,
            schema,
            at as u64 + 1,
            session.as_slice(),
            replies,
            out,
        )?;
    }
    Ok(())
}

/// How a run ended: whether a device fault stopped it, its mark, its last timestamp, and the disk rowsets of its superblock.
#[derive(Clone, Copy)]
pub struct RunEnd {
    pub stopped: bool,
    pub a: u64,
    pub c: u64,
    pub rowsets: u64,
}

// The last line of a run.
fn last_line(end: &RunEnd) -> LastLine
    ensures { result ≡ end_of_run end.now.stopped end.now.a end.now.c end.now.rowsets }
{
    if end.stopped {
        LastLine::Stopped
    } else {
        LastLine::Numbers {
            a: end.a,
            c: end.c,
            rowsets: end.rowsets,
        }
    }
}

/// The output of a run with these replies, this history and this end.
pub fn output_of(
    alloc: Global,
    schema: &Schema,
    plan: &[Session],
    replies: Vec<SessionReplies>,
    trail: &EventList,
    end: &RunEnd,
) -> Result<Output, NoMemory>
    ensures stopped { IfOk result (λ out. out.stopped ≡ end.now.stopped) }
    ensures text { IfOk result (λ out. out.text ≡ output_text (all_shown (on_table schema.now) (given replies.items) 1 plan.now) trail.now (end_of_run end.now.stopped end.now.a end.now.c end.now.rowsets)) }
    ensures fits { IfOk result (λ out. OutputFits (all_shown (on_table schema.now) (given replies.items) 1 plan.now) trail.now (end_of_run end.now.stopped end.now.a end.now.c end.now.rowsets)) }
{
    let _count = plan.len();
    let mut text = Octets::new(alloc);
    put_sessions(alloc, schema, plan, replies, &mut text)?;
    events_fit(trail.as_slice());
    print_end(trail, &last_line(end), &mut text)?;
    Ok(Output {
        stopped: end.stopped,
        text,
    })
}
