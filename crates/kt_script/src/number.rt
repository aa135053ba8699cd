//! Numbers as they are printed, and read again.

ghost use Rattle.std.specs.Prelude.{◌≡◌, ◌+◌, ◌*◌, ◌≤◌, ◌++◌, length, drop, map, OnOk, OnErr};
ghost use Rattle.std.specs.Fmt.{decimal};
ghost use Rattle.std.specs.List.{flat_map};
ghost use Rattle.kt_script.specs.Outputs.{number_in};
ghost use Rattle.kt_script.specs.Texts.{spaced};

use itoa::{Buffer, write_digits};
use kt_base::{NoMemory, Octets};

/// Appends a number. Without memory nothing is appended.
pub fn print_number(number: u64, out: &mut Octets) -> Result<(), NoMemory>
    ensures ok { OnOk result (out.new ≡ out.old ++ decimal number) }
    ensures err { OnErr result (out.new ≡ out.old) }
{
    let mut buffer = Buffer::new();
    out.extend(buffer.format(number).as_bytes())
}

// Writes a space and a number, which end at a place. Tells where they begin.
fn write_spaced(number: u64, text: &mut [u8], end: usize) -> usize
    requires room { 21 ≤ end }
    requires within { end ≤ length text.old }
    ensures start { result + length (spaced (decimal number)) ≡ end }
    ensures written { drop result text.new ≡ spaced (decimal number) ++ drop end text.old }
{
    let start = write_digits(number, text, end) - 1;
    text[start] = b' ';
    start
}

/// Writes a space and the number for each of some numbers, one behind the other, the last of which ends at a place. Tells
/// where they begin.
pub(crate) fn write_numbers(numbers: &[u64], text: &mut [u8], end: usize) -> usize
    requires room { 21 * length numbers.now ≤ end }
    requires within { end ≤ length text.old }
    ensures start { result + length (flat_map spaced (map decimal numbers.now)) ≡ end }
    ensures written { drop result text.new ≡ flat_map spaced (map decimal numbers.now) ++ drop end text.old }
{
    let mut at = end;
    let mut left = numbers.len();
    'numbers: while left > 0 {
        left -= 1;
        at = write_spaced(numbers[left], text, at);
    }
    at
}

/// The number that a word spells.
pub fn read_number(word: &[u8]) -> Option<u64>
    ensures { result ≡ number_in word.now }
{
    let Ok(text) = std::str::from_utf8(word) else {
        return None;
    };
    let Ok(number) = text.parse::<u64>() else {
        return None;
    };
    let mut buffer = Buffer::new();
    if buffer.format(number).as_bytes() == word {
        Some(number)
    } else {
        None
    }
}
