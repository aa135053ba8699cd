//! The times that scans and marks name.

ghost use Rattle.std.specs.Prelude.{◌≡◌};
ghost use Rattle.std.specs.List.{list_all};
ghost use Rattle.kt_base.specs.Literals.{is_digit, is_count};
ghost use Rattle.kt_script.specs.Pieces.{words_in};
ghost use Rattle.kt_script.specs.Times.{IsTime, ReadsMark};

use crate::columns::LineNo;
use crate::lex::is_digit;
use crate::number::read_number;
use crate::word::next_word;
use kt_base::limits::TIME_MOST;

/// A word where a time may be named.
#[derive(Clone, Copy)]
pub enum Time {
    /// A time that may be named.
    Named(u64),
    /// A number above the latest time that may be named.
    TooLate,
    NoTime,
}

fn are_digits(bytes: &[u8]) -> bool
    ensures { result ≡ list_all is_digit bytes.now }
{
    bytes.iter().all(|byte| is_digit(*byte))
}

// Digits without leading zeros.
fn is_count(digits: &[u8]) -> bool
    ensures { result ≡ is_count digits.now }
{
    match digits {
        [first, rest @ ..] => are_digits(digits) && (*first != b'0' || rest.is_empty()),
        [] => false,
    }
}

/// The time that a word names.
pub fn read_time(word: &[u8]) -> Time
    ensures { IsTime word.now result }
{
    if !is_count(word) {
        return Time::NoTime;
    }
    let Some(t) = read_number(word) else {
        return Time::TooLate;
    };
    if t <= TIME_MOST {
        Time::Named(t)
    } else {
        Time::TooLate
    }
}

/// The time of a mark, from behind its word `mark` on, or the reason for which it is refused.
pub fn read_mark(line: Option<&[u8]>) -> Result<u64, LineNo>
    ensures { ReadsMark (words_in line.entry) result }
{
    let Some((word, behind)) = next_word(line) else {
        return Err(LineNo::Reason(12));
    };
    if next_word(behind).is_some() {
        return Err(LineNo::Reason(12));
    }
    match read_time(word) {
        Time::Named(t) => Ok(t),
        Time::TooLate => Err(LineNo::Reason(20)),
        Time::NoTime => Err(LineNo::Reason(12)),
    }
}
