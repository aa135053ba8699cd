//! The lines of an output text, each read by itself.

ghost use Rattle.std.specs.Prelude.{◌≡◌, ◌∷◌, [], IfOk, IfSome, IfNone, Some, None, if◌then◌else◌};
ghost use Rattle.std.specs.Option.{option_map};
ghost use Rattle.kt_base.specs.Literals.{same};
ghost use Rattle.kt_script.specs.Pieces.{cut};
ghost use Rattle.kt_script.specs.Texts.{session_line};
ghost use Rattle.kt_script.specs.Outputs.{pieces_in, numbers_in, outcome_in, outcomes_in, first_from, at_in, first_in, event_at, event_from, event_in, counted, last_numbers, last_in};

use crate::number::read_number;
use crate::output::LastLine;
use crate::replies::{LineList, ReplyLine};
use crate::split::{after, cut_at};
use crate::vector::push;
use crate::word::is_word;
use itoa::Buffer;
use kt_base::NoMemory;
use kt_history::{Event, Outcome, OutcomeList};
use std::alloc::Global;

/// The first line of a reply, before its rows: the reply without them, and how many there are.
#[derive(Drop)]
pub struct FirstLine {
    pub reply: ReplyLine,
    pub due: u64,
}

// The bytes up to the first space, and those behind it.
fn cut_space(text: &[u8]) -> (&[u8], Option<&[u8]>)
    ensures { cut 32 text.now ≡ result.0.now ∷ pieces_in result.1 }
{
    match cut_at(text, b' ') {
        Some((word, rest)) => (word, Some(rest)),
        None => (text, None),
    }
}

// The next word of what is left of a line.
fn next_piece(rest: Option<&[u8]>) -> Option<(&[u8], Option<&[u8]>)>
    ensures some { IfSome result (λ x. pieces_in rest.entry ≡ x.0.now ∷ pieces_in x.1) }
    ensures none { IfNone result (pieces_in rest.entry ≡ []) }
{
    match rest {
        Some(text) => Some(cut_space(text)),
        None => None,
    }
}

// Whether all words that are left are numbers, which are put in place of those in the buffer.
fn read_numbers(rest: Option<&[u8]>, numbers: &mut Vec<u64>) -> Result<bool, NoMemory>
    ensures { IfOk result (λ read. numbers_in (pieces_in rest.entry) ≡ (if read then Some numbers.new.items else None)) }
{
    numbers.clear();
    let mut left = rest;
    'words: while let Some((word, behind)) = next_piece(left) {
        let Some(number) = read_number(word) else {
            return Ok(false);
        };
        push(numbers, number)?;
        left = behind;
    }
    Ok(true)
}

/// The outcome that a word says.
pub fn outcome_of(word: &[u8]) -> Option<Outcome>
    ensures { result ≡ outcome_in word.now }
{
    if is_word(word, b"ok") {
        return Some(Outcome::Done);
    }
    if is_word(word, b"present") {
        return Some(Outcome::Present);
    }
    if is_word(word, b"absent") {
        return Some(Outcome::Absent);
    }
    if is_word(word, b"ignored") {
        return Some(Outcome::Ignored);
    }
    None
}

// Whether all words that are left are outcomes, which are put in place of those in the vector.
fn read_outcomes(rest: Option<&[u8]>, outcomes: &mut Vec<Outcome>) -> Result<bool, NoMemory>
    ensures { IfOk result (λ read. outcomes_in (pieces_in rest.entry) ≡ (if read then Some outcomes.new.items else None)) }
{
    outcomes.clear();
    let mut left = rest;
    'words: while let Some((word, behind)) = next_piece(left) {
        let Some(outcome) = outcome_of(word) else {
            return Ok(false);
        };
        push(outcomes, outcome)?;
        left = behind;
    }
    Ok(true)
}

fn first(reply: ReplyLine) -> Option<FirstLine>
    ensures { result ≡ Some (record { reply = reply; due = 0 }) }
{
    Some(FirstLine { reply, due: 0 })
}

fn first_of_one(word: &[u8], a: u64) -> Option<FirstLine>
    ensures { result ≡ first_from word.now (a ∷ []) }
{
    if is_word(word, b"ahm") {
        return first(ReplyLine::Ahm { a });
    }
    let Ok(n) = u32::try_from(a) else {
        return None;
    };
    if is_word(word, b"large") {
        first(ReplyLine::Large { n })
    } else {
        None
    }
}

fn first_of_two(alloc: Global, word: &[u8], t: u64, a: u64) -> Option<FirstLine>
    ensures { result ≡ first_from word.now (t ∷ a ∷ []) }
{
    if is_word(word, b"rows") {
        let lines = LineList::of(Vec::new(alloc));
        return Some(FirstLine {
            reply: ReplyLine::Rows { t, lines },
            due: a,
        });
    }
    if is_word(word, b"ancient") {
        return first(ReplyLine::Ancient { t, a });
    }
    if is_word(word, b"busy") {
        return first(ReplyLine::Busy { t, f: a });
    }
    None
}

// A reply by its word and the numbers after it.
fn first_from(alloc: Global, word: &[u8], numbers: &[u64]) -> Option<FirstLine>
    ensures { result ≡ first_from word.now numbers.now }
{
    match numbers {
        [] => {
            if is_word(word, b"done") {
                first(ReplyLine::Done)
            } else if is_word(word, b"stopped") {
                first(ReplyLine::Stopped)
            } else {
                None
            }
        }
        [a] => first_of_one(word, *a),
        [t, a] => first_of_two(alloc, word, *t, *a),
        _ => None,
    }
}

// A write's reply, by what stands behind its word.
fn at_of(alloc: Global, rest: Option<&[u8]>) -> Result<Option<FirstLine>, NoMemory>
    ensures { IfOk result (λ read. read ≡ at_in (pieces_in rest.entry)) }
{
    let Some((word, behind)) = next_piece(rest) else {
        return Ok(None);
    };
    let Some(ts) = read_number(word) else {
        return Ok(None);
    };
    let mut outcomes = Vec::new(alloc);
    if read_outcomes(behind, &mut outcomes)? {
        Ok(first(ReplyLine::At {
            ts,
            outcomes: OutcomeList::of(outcomes),
        }))
    } else {
        Ok(None)
    }
}

/// The reply that a line begins. The buffer is for its numbers.
pub fn first_of(
    alloc: Global,
    line: &[u8],
    numbers: &mut Vec<u64>,
) -> Result<Option<FirstLine>, NoMemory>
    ensures { IfOk result (λ read. read ≡ first_in line.now) }
{
    let (word, rest) = cut_space(line);
    if is_word(word, b"at") {
        return at_of(alloc, rest);
    }
    if read_numbers(rest, numbers)? {
        Ok(first_from(alloc, word, numbers))
    } else {
        Ok(None)
    }
}

fn event_of_three(word: &[u8], s: u32, i: u32, t: u64) -> Option<Event>
    ensures { result ≡ event_at word.now s i (t ∷ []) }
{
    if is_word(word, b"end") {
        return Some(Event::End { s, i, ts: t });
    }
    if is_word(word, b"rows") {
        return Some(Event::Rows { s, i, t });
    }
    if is_word(word, b"mark") {
        return Some(Event::Mark { s, i, a: t });
    }
    let Ok(n) = u32::try_from(t) else {
        return None;
    };
    if is_word(word, b"large") {
        Some(Event::Large { s, i, n })
    } else {
        None
    }
}

fn event_of_four(word: &[u8], s: u32, i: u32, t: u64, m: u64) -> Option<Event>
    ensures { result ≡ event_at word.now s i (t ∷ m ∷ []) }
{
    if is_word(word, b"begin") {
        return Some(Event::Begin { s, i, ts: t, m });
    }
    if is_word(word, b"look") {
        return Some(Event::Look { s, i, t, m });
    }
    if is_word(word, b"ancient") {
        return Some(Event::Ancient { s, i, t, a: m });
    }
    if is_word(word, b"busy") {
        return Some(Event::Busy { s, i, t, f: m });
    }
    None
}

fn event_at(word: &[u8], s: u32, i: u32, more: &[u64]) -> Option<Event>
    ensures { result ≡ event_at word.now s i more.now }
{
    match more {
        [] => {
            if is_word(word, b"chore") {
                Some(Event::Chore { s, i })
            } else {
                None
            }
        }
        [t] => event_of_three(word, s, i, *t),
        [t, m] => event_of_four(word, s, i, *t, *m),
        _ => None,
    }
}

// An event by its word and the numbers after it.
fn event_from(word: &[u8], numbers: &[u64]) -> Option<Event>
    ensures { result ≡ event_from word.now numbers.now }
{
    match numbers {
        [] => {
            if is_word(word, b"stop") {
                Some(Event::Stop)
            } else {
                None
            }
        }
        [_] => None,
        [session, command, more @ ..] => {
            let Ok(s) = u32::try_from(*session) else {
                return None;
            };
            let Ok(i) = u32::try_from(*command) else {
                return None;
            };
            event_at(word, s, i, more)
        }
    }
}

/// The event that a line of the history says. The buffer is for its numbers.
pub fn event_of(line: &[u8], numbers: &mut Vec<u64>) -> Result<Option<Event>, NoMemory>
    ensures { IfOk result (λ read. read ≡ event_in line.now) }
{
    let (word, rest) = cut_space(line);
    if read_numbers(rest, numbers)? {
        Ok(event_from(word, numbers))
    } else {
        Ok(None)
    }
}

// A number behind this word, and what is left behind it.
fn counted<'a>(rest: Option<&'a [u8]>, name: &[u8]) -> Option<(u64, Option<&'a [u8]>)>
    ensures { option_map (λ x. (x.0, pieces_in x.1)) result ≡ counted name.now (pieces_in rest.entry) }
{
    let Some((word, behind)) = next_piece(rest) else {
        return None;
    };
    let Some((digits, more)) = next_piece(behind) else {
        return None;
    };
    if !is_word(word, name) {
        return None;
    }
    match read_number(digits) {
        Some(number) => Some((number, more)),
        None => None,
    }
}

fn last_numbers(rest: Option<&[u8]>) -> Option<LastLine>
    ensures { result ≡ last_numbers (pieces_in rest.entry) }
{
    let (a, behind) = counted(rest, b"ahm")?;
    let (c, behind) = counted(behind, b"last")?;
    let (rowsets, behind) = counted(behind, b"rowsets")?;
    match behind {
        Some(_) => None,
        None => Some(LastLine::Numbers { a, c, rowsets }),
    }
}

/// What the last line says.
pub fn last_of(line: &[u8]) -> Option<LastLine>
    ensures { result ≡ last_in line.now }
{
    if is_word(line, b"tablet stopped") {
        return Some(LastLine::Stopped);
    }
    let (tablet, rest) = cut_space(line);
    if is_word(tablet, b"tablet") {
        last_numbers(rest)
    } else {
        None
    }
}

/// Whether a line begins the session of this number.
pub fn is_session(line: &[u8], number: u64) -> bool
    ensures { result ≡ same line.now (session_line number) }
{
    let Some(digits) = after(line, b"session ") else {
        return false;
    };
    let mut buffer = Buffer::new();
    digits == buffer.format(number).as_bytes()
}
