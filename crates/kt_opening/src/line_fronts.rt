//! Where a line of an opening that may not stand is at fault.

ghost use Rattle.std.specs.Prelude.{◌≡◌, ◌≤◌, length};
ghost use Rattle.kt_script.specs.Places.{IsFault};
ghost use Rattle.kt_script.specs.Fronts.{IsFurther};
ghost use Rattle.kt_script.specs.OutForms.{IsCounted, IsFront, LONG};
ghost use Rattle.kt_opening.specs.OpeningLines.{write_in};
ghost use Rattle.kt_opening.specs.LineFronts.{IsHeadLine, IsCountLine, IsWriteLine, IsTurnLine, IsChangeWord, IsLastNumber, IsWritePlaceOr, IsPlaceIn, IsEndIn, IsPlaceOf};

use crate::lines::{Due, Stop, line_at};
use crate::opening_lines::{head_of, write_of};
use itoa::Buffer;
use kt_script::fronts::{number_front, word_front};

// The greatest number.
const LONG: u64 = u64::MAX;

// The greater of two places.
fn further(a: usize, b: usize) -> usize
    ensures { IsFurther a b result }
{
    if a < b { b } else { a }
}

// How many bytes this text and a number behind it take, or up to where they stand.
fn counted_front(text: &[u8], before: &[u8]) -> Result<usize, usize>
    ensures { IsFront (IsCounted before.now LONG) text.now result }
{
    let at = word_front(text, before);
    if at < before.len() {
        return Err(at);
    }
    let (_, rest) = text.split_at(at);
    let digits = number_front(rest, LONG);
    if digits == 0 {
        Err(at)
    } else {
        Ok(at + digits)
    }
}

// How many bytes the first line begins with.
fn head_front(line: &[u8]) -> usize
    ensures { IsFault IsHeadLine line.now result }
{
    let a = match counted_front(line, b"opening ahm ") {
        Ok(n) => n,
        Err(n) => return n,
    };
    let (_, rest) = line.split_at(a);
    match counted_front(rest, b" last ") {
        Ok(n) => a + n,
        Err(n) => a + n,
    }
}

// How many bytes the second line begins with.
fn count_front(line: &[u8]) -> usize
    ensures { IsFault IsCountLine line.now result }
{
    match counted_front(line, b"rows ") {
        Ok(n) => n,
        Err(n) => n,
    }
}

// How many bytes the first line of some write begins with.
fn write_front(line: &[u8]) -> usize
    ensures { IsFault IsWriteLine line.now result }
{
    let ts = match counted_front(line, b"write ") {
        Ok(n) => n,
        Err(n) => return n,
    };
    let (_, rest) = line.split_at(ts);
    match counted_front(rest, b" ") {
        Ok(n) => ts + n,
        Err(n) => ts + n,
    }
}

// How many bytes some line begins with that may stand between two writes.
fn turn_front(line: &[u8]) -> usize
    ensures { IsFault IsTurnLine line.now result }
{
    further(write_front(line), word_front(line, b"output"))
}

// How many bytes some first word of a change begins with, and the space behind it.
fn change_front(line: &[u8]) -> usize
    ensures { IsFault IsChangeWord line.now result }
{
    let later = further(word_front(line, b"upd "), word_front(line, b"del "));
    further(word_front(line, b"ins "), later)
}

// The place of the number at the end of a line.
fn last_number(line: &[u8], number: u64) -> usize
    ensures place { IsLastNumber line.now number result }
    ensures within { result ≤ length line.now }
{
    let mut buffer = Buffer::new();
    line.len().saturating_sub(buffer.format(number).len())
}

// Where the first line of a write is at fault.
fn turn_place(line: &[u8], low: u64, c: u64) -> usize
    ensures place { IsWritePlaceOr low c line.now (write_in line.now) result }
    ensures within { result ≤ length line.now }
{
    match write_of(line) {
        Some((ts, changes)) => {
            if ts <= low || c < ts {
                6
            } else {
                last_number(line, changes)
            }
        }
        None => turn_front(line),
    }
}

// Where a line with its newline is at fault.
fn place_in(line: &[u8], due: Due) -> usize
    ensures place { IsPlaceIn due line.now result }
    ensures within { result ≤ length line.now }
{
    match due {
        Due::Head => match head_of(line) {
            Some((_, c)) => last_number(line, c),
            None => head_front(line),
        },
        Due::Count => count_front(line),
        Due::Row => 0,
        Due::Turn { low, c } => turn_place(line, low, c),
        Due::Change => change_front(line),
    }
}

// Where what is left without a newline is at fault.
fn end_in(rest: &[u8], due: Due) -> usize
    ensures place { IsEndIn due rest.now result }
    ensures within { result ≤ length rest.now }
{
    match due {
        Due::Head => head_front(rest),
        Due::Count => count_front(rest),
        Due::Row => rest.len(),
        Due::Turn { .. } => turn_front(rest),
        Due::Change => {
            let front = change_front(rest);
            if front < 4 { front } else { rest.len() }
        }
    }
}

/// Where a text is at fault in whose line no opening goes on.
pub(crate) fn place_of(text: &[u8], stop: Stop) -> usize
    requires { stop.at ≤ length text.now }
    ensures place { IsPlaceOf text.now stop result }
    ensures within { result ≤ length text.now }
{
    let Stop { at, due } = stop;
    match line_at(text, at) {
        Some(line) => at + place_in(line, due),
        None => {
            let (_, rest) = text.split_at(at);
            at + end_in(rest, due)
        }
    }
}
