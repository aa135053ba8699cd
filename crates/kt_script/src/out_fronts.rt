//! How many bytes of a line of an output text some line begins with that may stand there.

ghost use Rattle.std.specs.Prelude.{◌+◌, ◌<◌, ◌^◌};
ghost use Rattle.kt_script.specs.Texts.{session_line};
ghost use Rattle.kt_script.specs.Places.{IsFault};
ghost use Rattle.kt_script.specs.Fronts.{IsFurther, IsWord};
ghost use Rattle.kt_script.specs.OutForms.{IsCounted, AreCounts, IsForm, IsFront, AreOutcomes, IsOutcome, IsSpacedOutcome, IsWriteLine, IsNumbersLine, IsEventLine, IsLastLine, IsReplyLine};
ghost use Rattle.kt_script.specs.Stages.{sessions, history, MayStand};

use crate::fronts::{number_front, word_front};
use crate::out_lines::outcome_of;
use itoa::Buffer;

// The greatest numbers of 64 and of 32 bits.
const LONG: u64 = u64::MAX;

const SHORT: u64 = u32::MAX as u64;

// The greater of two places.
fn further(a: usize, b: usize) -> usize
    ensures { IsFurther a b result }
{
    if a < b { b } else { a }
}

// How many bytes this text and a number behind it take, or up to where they stand.
fn counted_front(text: &[u8], before: &[u8], most: u64) -> Result<usize, usize>
    ensures { IsFront (IsCounted before.now most) text.now result }
{
    let at = word_front(text, before);
    if at < before.len() {
        return Err(at);
    }
    let (_, rest) = text.split_at(at);
    let digits = number_front(rest, most);
    if digits == 0 {
        Err(at)
    } else {
        Ok(at + digits)
    }
}

// How many bytes these numbers begin with, a space before each.
fn counts_front(text: &[u8], mosts: &[u64]) -> usize
    ensures { IsFault (AreCounts mosts.now) text.now result }
{
    let mut at = 0;
    for most in mosts {
        let (_, rest) = text.split_at(at);
        match counted_front(rest, b" ", *most) {
            Ok(n) => at += n,
            Err(n) => return at + n,
        }
    }
    at
}

// How many bytes this word with such numbers behind it begins with.
fn form_front(text: &[u8], word: &[u8], mosts: &[u64]) -> usize
    ensures { IsFault (IsForm word.now mosts.now) text.now result }
{
    let at = word_front(text, word);
    if at < word.len() {
        return at;
    }
    let (_, rest) = text.split_at(at);
    at + counts_front(rest, mosts)
}

// How many bytes some outcome begins with.
fn one_outcome_front(text: &[u8]) -> usize
    ensures { IsFault IsOutcome text.now result }
{
    let done = word_front(text, b"ok");
    let present = word_front(text, b"present");
    let absent = word_front(text, b"absent");
    let ignored = word_front(text, b"ignored");
    further(done, further(present, further(absent, ignored)))
}

// How many bytes a space and an outcome take, or up to where they stand.
fn outcome_front(text: &[u8]) -> Result<usize, usize>
    ensures { IsFront IsSpacedOutcome text.now result }
{
    let space = word_front(text, b" ");
    if space == 0 {
        return Err(0);
    }
    let (_, rest) = text.split_at(space);
    let at = one_outcome_front(rest);
    let (word, _) = rest.split_at(at);
    match outcome_of(word) {
        Some(_) => Ok(space + at),
        None => Err(space + at),
    }
}

// How many bytes some outcomes begin with, a space before each.
fn outcomes_front(text: &[u8]) -> usize
    ensures { IsFault AreOutcomes text.now result }
{
    let mut at = 0;
    'outcomes: loop {
        let (_, rest) = text.split_at(at);
        match outcome_front(rest) {
            Ok(n) => at += n,
            Err(n) => return at + n,
        }
    }
}

// How many bytes the reply of a write begins with.
fn at_front(line: &[u8]) -> usize
    ensures { IsFault IsWriteLine line.now result }
{
    match counted_front(line, b"at ", LONG) {
        Ok(at) => {
            let (_, rest) = line.split_at(at);
            at + outcomes_front(rest)
        }
        Err(at) => at,
    }
}

/// How many bytes the first line of some reply begins with.
pub fn reply_front(line: &[u8]) -> usize
    ensures { IsFault IsReplyLine line.now result }
{
    let rows = form_front(line, b"rows", &[LONG, LONG]);
    let ancient = form_front(line, b"ancient", &[LONG, LONG]);
    let busy = form_front(line, b"busy", &[LONG, LONG]);
    let ahm = form_front(line, b"ahm", &[LONG]);
    let large = form_front(line, b"large", &[SHORT]);
    let done = word_front(line, b"done");
    let stopped = word_front(line, b"stopped");
    let at = at_front(line);
    let words = further(done, further(stopped, at));
    further(
        rows,
        further(ancient, further(busy, further(ahm, further(large, words)))),
    )
}

/// How many bytes some line of the history begins with.
pub fn event_front(line: &[u8]) -> usize
    ensures { IsFault IsEventLine line.now result }
{
    let begin = form_front(line, b"begin", &[SHORT, SHORT, LONG, LONG]);
    let end = form_front(line, b"end", &[SHORT, SHORT, LONG]);
    let look = form_front(line, b"look", &[SHORT, SHORT, LONG, LONG]);
    let rows = form_front(line, b"rows", &[SHORT, SHORT, LONG]);
    let ancient = form_front(line, b"ancient", &[SHORT, SHORT, LONG, LONG]);
    let busy = form_front(line, b"busy", &[SHORT, SHORT, LONG, LONG]);
    let mark = form_front(line, b"mark", &[SHORT, SHORT, LONG]);
    let chore = form_front(line, b"chore", &[SHORT, SHORT]);
    let large = form_front(line, b"large", &[SHORT, SHORT, SHORT]);
    let stop = word_front(line, b"stop");
    let later = further(busy, further(mark, further(chore, further(large, stop))));
    further(
        begin,
        further(end, further(look, further(rows, further(ancient, later)))),
    )
}

// How many bytes the last line with its numbers begins with.
fn numbers_front(line: &[u8]) -> usize
    ensures { IsFault IsNumbersLine line.now result }
{
    let a = match counted_front(line, b"tablet ahm ", LONG) {
        Ok(n) => n,
        Err(n) => return n,
    };
    let (_, rest) = line.split_at(a);
    let c = match counted_front(rest, b" last ", LONG) {
        Ok(n) => n,
        Err(n) => return a + n,
    };
    let (_, rest) = rest.split_at(c);
    match counted_front(rest, b" rowsets ", LONG) {
        Ok(n) => a + c + n,
        Err(n) => a + c + n,
    }
}

/// How many bytes some last line begins with.
pub fn last_front(line: &[u8]) -> usize
    ensures { IsFault IsLastLine line.now result }
{
    further(numbers_front(line), word_front(line, b"tablet stopped"))
}

// How many bytes the first line of the session of this number begins with.
fn session_front(line: &[u8], number: u64) -> usize
    ensures { IsFault (IsWord (session_line number)) line.now result }
{
    let word = b"session ".as_slice();
    let at = word_front(line, word);
    if at < word.len() {
        return at;
    }
    let (_, rest) = line.split_at(at);
    let mut buffer = Buffer::new();
    at + word_front(rest, buffer.format(number).as_bytes())
}

/// How many bytes some line begins with that may stand below so many sessions, where no row is due.
pub fn sessions_front(line: &[u8], above: u64) -> usize
    requires { above + 1 < 2 ^ 64 }
    ensures { IsFault (MayStand (sessions above 0)) line.now result }
{
    let session = session_front(line, above + 1);
    let history = word_front(line, b"history");
    let below = further(session, history);
    if above == 0 {
        below
    } else {
        further(reply_front(line), below)
    }
}

/// How many bytes some line begins with that may stand in the history.
pub fn history_front(line: &[u8]) -> usize
    ensures { IsFault (MayStand history) line.now result }
{
    further(event_front(line), last_front(line))
}
