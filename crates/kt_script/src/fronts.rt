//! Where a text stops being the front of a spelling: how many of its bytes some literal, number or word begins with.
//! Each place is that of the first byte with which no spelling goes on, or the length of the text where bytes are missing.

ghost use Rattle.std.specs.Prelude.{◌≡◌, ◌<◌, ◌≤◌};
ghost use Rattle.kt_script.specs.Places.{IsFault};
ghost use Rattle.kt_script.specs.Fronts.{IsWord, IsNumber, IsBehind, longer};
ghost use Rattle.kt_script.specs.Outputs.{is_row, IsRowLine};

use crate::lex::{Lex, is_digit};

/// How many bytes some row line begins with: one literal or more, with one space between them.
pub fn row_front(line: &[u8]) -> usize
    ensures { IsFault IsRowLine line.now result }
{
    let mut state = Lex::Start;
    for (at, byte) in line.iter().enumerate() {
        match state.next_in_row(*byte) {
            Some(next) => state = next,
            None => return at,
        }
    }
    line.len()
}

/// Whether a line is one or more literals.
pub fn is_row(line: &[u8]) -> bool
    ensures { result ≡ is_row line.now }
{
    let mut state = Lex::Start;
    for byte in line {
        match state.next_in_row(*byte) {
            Some(next) => state = next,
            None => return false,
        }
    }
    state.is_whole()
}

// The number that is longer by a digit.
fn longer(value: u64, byte: u8, most: u64) -> Option<u64>
    ensures { result ≡ longer most value byte }
{
    if !is_digit(byte) {
        return None;
    }
    let digit = u64::from(byte - b'0');
    if digit > most || value > (most - digit) / 10 {
        None
    } else {
        Some(value * 10 + digit)
    }
}

// How many of these digits stand behind those of a number in one that is no greater than the greatest.
fn digits_front(digits: &[u8], value: u64, most: u64) -> usize
    requires some { 0 < value }
    requires fits { value ≤ most }
    ensures { IsFault (IsBehind most value) digits.now result }
{
    let mut number = value;
    for (at, byte) in digits.iter().enumerate() {
        match longer(number, *byte, most) {
            Some(next) => number = next,
            None => return at,
        }
    }
    digits.len()
}

/// How many bytes some decimal number begins with that is no greater than the greatest and has no leading zero.
pub fn number_front(text: &[u8], most: u64) -> usize
    ensures { IsFault (IsNumber most) text.now result }
{
    let Some((first, rest)) = text.split_first() else {
        return 0;
    };
    let Some(digit) = longer(0, *first, most) else {
        return 0;
    };
    if digit == 0 {
        1
    } else {
        1 + digits_front(rest, digit, most)
    }
}

/// How many bytes the word begins with.
pub fn word_front(text: &[u8], word: &[u8]) -> usize
    ensures { IsFault (IsWord word.now) text.now result }
{
    let mut at = 0;
    while at < text.len() && at < word.len() && text[at] == word[at] {
        at += 1;
    }
    at
}
