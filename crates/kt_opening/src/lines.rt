//! The lines of a text, and what is due at one of an opening.

ghost use Rattle.std.specs.Prelude.{◌≤◌, length};
ghost use Rattle.kt_opening.specs.Lines.{IsLineFrom};

use kt_script::split::cut_at;

/// What is due at a line of an opening: its first or its second line, a row, a write between two timestamps or the end, or a
/// change of a write.
#[derive(Clone, Copy, PartialEq, Eq)]
pub(crate) enum Due {
    Head,
    Count,
    Row,
    Turn { low: u64, c: u64 },
    Change,
}

/// Where the first line begins that may not stand, and what is due there.
#[derive(Clone, Copy, PartialEq, Eq)]
pub(crate) struct Stop {
    pub(crate) at: usize,
    pub(crate) due: Due,
}

/// The line that begins at a place, without its newline.
pub(crate) fn line_at(text: &[u8], at: usize) -> Option<&[u8]>
    requires { at ≤ length text.now }
    ensures { IsLineFrom text.now at result }
{
    let (_, rest) = text.split_at(at);
    match cut_at(rest, b'\n') {
        Some((line, _)) => Some(line),
        None => None,
    }
}
