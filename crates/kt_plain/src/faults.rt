//! The first fault of bytes that spell no items.

ghost use Rattle.std.specs.Prelude.{◌≡◌, ◌<◌, ◌^◌, ℕ, length, slice_index, All, MatchOption};
ghost use Rattle.kt_plain.specs.Reading.{IsSpelling, IsSpellingWithin, IsAtFault, IsAtFaultWithin, IsFirstAbove};

use crate::widths::{NumberWidth, Width};
use byteorder::{ByteOrder, LittleEndian};

/// The place of the first fault, or none where the bytes spell n items without a byte list of more bytes.
#[tactic(auto, using(crate::proofs::Within::numbers_within))]
pub(crate) fn fault(bytes: &[u8], n: u32, width: Width, most: u32) -> Option<usize>
    ensures { MatchOption result (IsSpellingWithin most width n bytes.now) (IsAtFaultWithin most width n bytes.now) }
{
    match width {
        Width::Numbers(width) => fault_of_numbers(bytes, n as usize, width),
        Width::Bytes => fault_of_texts(bytes, n as usize, most),
    }
}

fn fault_of_numbers(bytes: &[u8], n: usize, width: NumberWidth) -> Option<usize>
    requires { n < 2 ^ 32 }
    ensures { MatchOption result (IsSpelling (Width.Numbers width) n bytes.now) (IsAtFault (Width.Numbers width) n bytes.now) }
{
    match width {
        NumberWidth::Bit => fault_of_bits(bytes, n),
        _ => fault_of_len(bytes, n, width),
    }
}

/// Of numbers the length alone can be wrong.
fn fault_of_len(bytes: &[u8], n: usize, width: NumberWidth) -> Option<usize>
    requires count { n < 2 ^ 32 }
    requires bits { width ≡ NumberWidth.Bit → (i : ℕ) → i < n → slice_index bytes.now i < 2 }
    ensures { MatchOption result (IsSpelling (Width.Numbers width) n bytes.now) (IsAtFault (Width.Numbers width) n bytes.now) }
{
    let whole = n * width.field_len();
    if bytes.len() < whole {
        Some(bytes.len())
    } else if whole < bytes.len() {
        Some(whole)
    } else {
        None
    }
}

fn fault_of_bits(bytes: &[u8], n: usize) -> Option<usize>
    requires { n < 2 ^ 32 }
    ensures { MatchOption result (IsSpelling (Width.Numbers NumberWidth.Bit) n bytes.now) (IsAtFault (Width.Numbers NumberWidth.Bit) n bytes.now) }
{
    match first_no_bit(&bytes[..n.min(bytes.len())]) {
        Some(at) => Some(at),
        None => fault_of_len(bytes, n, NumberWidth::Bit),
    }
}

/// The place of the first byte that is neither 0 nor 1.
fn first_no_bit(bytes: &[u8]) -> Option<usize>
    ensures { MatchOption result (All (λ b. b < 2) bytes.now) (IsFirstAbove bytes.now) }
{
    bytes.iter().position(|byte| *byte > 1)
}

/// Of byte lists the ends rise, by no more than the most bytes of one, and as many bytes follow as the last end says.
fn fault_of_texts(bytes: &[u8], n: usize, most: u32) -> Option<usize>
    requires { n < 2 ^ 32 }
    ensures { MatchOption result (IsSpellingWithin most Width.Bytes n bytes.now) (IsAtFaultWithin most Width.Bytes n bytes.now) }
{
    let mut last = 0;
    for i in 0..n {
        if bytes.len() < 4 * i + 4 {
            return Some(bytes.len());
        }
        let end = LittleEndian::read_u32(&bytes[4 * i..]);
        if end < last || end - last > most {
            return Some(4 * i);
        }
        last = end;
    }
    let whole = 4 * n + last as usize;
    if bytes.len() < whole {
        Some(bytes.len())
    } else if whole < bytes.len() {
        Some(whole)
    } else {
        None
    }
}
