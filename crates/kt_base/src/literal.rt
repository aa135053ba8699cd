//! Literals: the one spelling of a cell, and reading it again.

ghost use Rattle.std.specs.Prelude.{◌≡◌, ◌≢◌, ◌<◌, ◌++◌, [], ℤ, List, Some, Ok, OnOk, OnErr, IfOk, IfSome, IfNone, All, is_some, false, true, ◌&&◌, IsTrue, drop, ◌+◌, ◌*◌, FitsSigned};
ghost use Rattle.std.specs.Int.{w64};
ghost use Rattle.std.specs.List.{before_first, list_all};
ghost use Rattle.std.specs.Fmt.{signed_decimal};
ghost use Rattle.std.specs.Option.{option_map};
ghost use Rattle.kt_base.specs.Borrowed.{cell_in as borrowed};
ghost use Rattle.kt_base.specs.Literals.{below_zero, count_on, hex, hex_digit, hex_value, is_hex, is_digit, is_count, is_escaped, string_byte, string_literal, binary_literal, literal, number_in, string_in, binary_in, pairs, unquoted, among, slashed, high, cell_in, cell_under, cell_or, truth, text as text_value, raw as raw_value, number as number_value, number_fits, short_bytes, Reads, IsNext, IsLineEnd, literals_are_read, literals_are_spelled};

use crate::limits::CELL_LEN;
use crate::plain::{is_escaped, plain_len};
use crate::{Cell, CellRef, Kind, NoMemory, Octets};
use itoa::Buffer;
use memchr::memchr;
use std::alloc::{AllocError, AllocFailed, Global};
use thiserror::Error;

/// Why a text is no cell of a kind. Of those that hold the first is told.
#[derive(Clone, Copy, Debug, PartialEq, Eq, Error)]
pub enum LiteralNo {
    /// The text is no literal.
    #[error("the text is no literal")]
    Form,
    /// The text is `null`.
    #[error("the text is null")]
    Null,
    /// A literal of another kind, or a number out of range.
    #[error("the literal is of another kind or out of range")]
    Kind,
    /// More than 65,536 bytes.
    #[error("the cell has more than 65,536 bytes")]
    Long,
    #[error("out of memory")]
    Memory,
}

impl From<NoMemory> for LiteralNo {
    ghost use Rattle.kt_base.specs.declared.literal.LiteralNo.TheVariants.{Memory};

    ghost from_gives = { λ _ e. e ≡ Memory };

    fn from(_: NoMemory) -> Self {
        LiteralNo::Memory
    }
}

// The most that a number of 64 bits may be before one more digit.
const MOST_TENS: u64 = u64::MAX / 10 - 1;

// What stands next between the quotes of a string literal, and the bytes behind it.
#[derive(Clone, Copy)]
enum Next<'a> {
    /// The second quote, which is the end.
    End,
    Byte(u8, &'a [u8]),
    Bad,
}

fn print_signed(number: i64, out: &mut Octets) -> Result<(), NoMemory>
    ensures ok { OnOk result (out.new ≡ out.old ++ signed_decimal number) }
{
    let mut buffer = Buffer::new();
    out.extend(buffer.format(number).as_bytes())
}

fn hex_digit(digit: u8) -> u8
    requires { digit < 16 }
    ensures { result ≡ hex_digit digit }
{
    if digit < 10 {
        b'0' + digit
    } else {
        b'a' - 10 + digit
    }
}

fn print_hex(byte: u8, out: &mut Octets) -> Result<(), NoMemory>
    ensures ok { OnOk result (out.new ≡ out.old ++ hex byte) }
{
    out.extend(&[hex_digit(byte / 16), hex_digit(byte % 16)])
}

// The bytes before the first one that is escaped, and those from it on.
fn cut_plain(bytes: &[u8]) -> (&[u8], &[u8])
    ensures cut { bytes.now ≡ result.0.now ++ result.1.now }
    ensures plain { result.0.now ≡ before_first is_escaped bytes.now }
{
    bytes.split_at(plain_len(bytes))
}

fn print_byte(byte: u8, out: &mut Octets) -> Result<(), NoMemory>
    ensures ok { OnOk result (out.new ≡ out.old ++ string_byte byte) }
{
    if byte == b'"' || byte == b'\\' {
        return out.extend(&[b'\\', byte]);
    }
    if byte < b' ' || byte == 127 {
        return out.extend(&[b'\\', b'x', hex_digit(byte / 16), hex_digit(byte % 16)]);
    }
    out.push(byte)
}

fn print_string(bytes: &[u8], out: &mut Octets) -> Result<(), NoMemory>
    ensures ok { OnOk result (out.new ≡ out.old ++ string_literal bytes.now) }
{
    out.push(b'"')?;
    let mut rest = bytes;
    while !rest.is_empty() {
        let (plain, escaped) = cut_plain(rest);
        out.extend(plain)?;
        rest = escaped;
        if let Some((byte, after)) = escaped.split_first() {
            print_byte(*byte, out)?;
            rest = after;
        }
    }
    out.push(b'"')
}

fn print_binary(bytes: &[u8], out: &mut Octets) -> Result<(), NoMemory>
    ensures ok { OnOk result (out.new ≡ out.old ++ binary_literal bytes.now) }
{
    out.extend(b"x\"")?;
    for byte in bytes {
        print_hex(*byte, out)?;
    }
    out.push(b'"')
}

/// Appends the one spelling of a cell in a column of this kind. Without memory a part of it may stand at the end.
pub fn append_literal(cell: CellRef<'_>, kind: Kind, out: &mut Octets) -> Result<(), NoMemory>
    ensures ok { OnOk result (out.new ≡ out.old ++ literal kind (borrowed cell.entry)) }
{
    match cell {
        CellRef::Null => out.extend(b"null"),
        CellRef::Int(number) => print_signed(number, out),
        CellRef::Bool(true) => out.extend(b"true"),
        CellRef::Bool(false) => out.extend(b"false"),
        CellRef::Bytes(bytes) => match kind {
            Kind::Binary => print_binary(bytes, out),
            _ => print_string(bytes, out),
        },
    }
}

/// Appends the one spelling of a cell in a column of this kind. Without memory nothing is appended.
pub fn print_literal(
    alloc: Global,
    cell: &Cell,
    kind: Kind,
    out: &mut Octets,
) -> Result<(), NoMemory>
    ensures ok { OnOk result (out.new ≡ out.old ++ literal kind cell.now) }
    ensures err { OnErr result (out.new ≡ out.old) }
{
    let mut text = Octets::new(alloc);
    append_literal(CellRef::of(cell), kind, &mut text)?;
    out.extend(text.as_slice())
}

fn is_digit(byte: u8) -> bool
    ensures { result ≡ is_digit byte }
{
    b'0' <= byte && byte <= b'9'
}

fn are_digits(bytes: &[u8]) -> bool
    ensures { result ≡ list_all is_digit bytes.now }
{
    bytes.iter().all(|byte| is_digit(*byte))
}

// Digits without leading zeros.
fn is_count(digits: &[u8]) -> bool
    ensures { result ≡ is_count digits.now }
{
    match digits {
        [first, rest @ ..] => are_digits(digits) && (*first != b'0' || rest.is_empty()),
        [] => false,
    }
}

fn is_number(text: &[u8]) -> bool
    ensures { result ≡ is_some (number_in text.now) }
{
    match text {
        [b'-', digits @ ..] => is_count(digits) && digits != b"0".as_slice(),
        _ => is_count(text),
    }
}

// The number of a literal of 64 bits.
fn number_of(bytes: &[u8]) -> Option<i64>
    ensures spelled { IfSome result (λ n. bytes.now ≡ signed_decimal n) }
    ensures fits { IfSome result (λ n. FitsSigned w64 n) }
    ensures none { IfNone result ((n : ℤ) → FitsSigned w64 n → bytes.now ≢ signed_decimal n) }
{
    let Ok(text) = std::str::from_utf8(bytes) else {
        return None;
    };
    let Ok(number) = text.parse::<i64>() else {
        return None;
    };
    let mut buffer = Buffer::new();
    if buffer.format(number).as_bytes() == bytes {
        Some(number)
    } else {
        None
    }
}

// The value of a hexadecimal digit in lower case.
fn hex_value(digit: u8) -> Option<u8>
    ensures some { IfSome result (λ n. IsTrue (is_hex digit) × (n ≡ hex_value digit) × (n < 16)) }
    ensures none { IfNone result (is_hex digit ≡ false) }
{
    match digit {
        b'0'..=b'9' => Some(digit - b'0'),
        b'a'..=b'f' => Some(digit - b'a' + 10),
        _ => None,
    }
}

// The byte of two hexadecimal digits.
fn hex_pair(high: u8, low: u8) -> Option<u8>
    ensures some { IfSome result (λ n. ((is_hex high && is_hex low) ≡ true) × (n ≡ 16 * hex_value high + hex_value low)) }
    ensures none { IfNone result ((is_hex high && is_hex low) ≡ false) }
{
    let high = hex_value(high)?;
    let low = hex_value(low)?;
    Some(16 * high + low)
}

// Behind a backslash and an x: only bytes that can't stand for themselves are spelled so.
fn next_in_hex(text: &[u8]) -> Next<'_>
    ensures { IsNext (unquoted high) (unquoted among) text.now result }
{
    let [first, second, rest @ ..] = text else {
        return Next::Bad;
    };
    let Some(byte) = hex_pair(*first, *second) else {
        return Next::Bad;
    };
    if byte < b' ' || byte == 127 {
        Next::Byte(byte, rest)
    } else {
        Next::Bad
    }
}

// Behind a backslash.
fn next_escaped(text: &[u8]) -> Next<'_>
    ensures { IsNext (unquoted slashed) (unquoted among) text.now result }
{
    let Some((first, rest)) = text.split_first() else {
        return Next::Bad;
    };
    match *first {
        b'"' | b'\\' => Next::Byte(*first, rest),
        b'x' => next_in_hex(rest),
        _ => Next::Bad,
    }
}

fn next_in_string(text: &[u8]) -> Next<'_>
    ensures { IsNext (unquoted among) (unquoted among) text.now result }
{
    let Some((first, rest)) = text.split_first() else {
        return Next::Bad;
    };
    match *first {
        b'"' if rest.is_empty() => Next::End,
        b'"' => Next::Bad,
        b'\\' => next_escaped(rest),
        byte if is_escaped(byte) => Next::Bad,
        byte => Next::Byte(byte, rest),
    }
}

// The bytes of a string literal behind its first quote.
fn unquote(alloc: Global, inside: &[u8]) -> Result<Option<Octets>, NoMemory>
    ensures { IfOk result (λ read. read ≡ unquoted among inside.now) }
{
    let mut bytes = Octets::new(alloc);
    bytes.reserve(inside.len().saturating_sub(1))?;
    let mut rest = inside;
    'parts: loop {
        let (plain, special) = cut_plain(rest);
        bytes.extend(plain)?;
        match next_in_string(special) {
            Next::End => return Ok(Some(bytes)),
            Next::Bad => return Ok(None),
            Next::Byte(byte, behind) => {
                bytes.push(byte)?;
                rest = behind;
            }
        }
    }
}

// The bytes that a string literal spells.
fn string_of(alloc: Global, text: &[u8]) -> Result<Option<Octets>, NoMemory>
    ensures { IfOk result (λ read. read ≡ string_in text.now) }
{
    match text {
        [b'"', inside @ ..] => unquote(alloc, inside),
        _ => Ok(None),
    }
}

fn next_in_binary(text: &[u8]) -> Next<'_>
    ensures { IsNext pairs pairs text.now result }
{
    match text {
        [first, second, rest @ ..] => match hex_pair(*first, *second) {
            Some(byte) => Next::Byte(byte, rest),
            None => Next::Bad,
        },
        [b'"'] => Next::End,
        _ => Next::Bad,
    }
}

// The bytes of a binary literal behind its first quote.
fn unpair(alloc: Global, inside: &[u8]) -> Result<Option<Octets>, NoMemory>
    ensures { IfOk result (λ read. read ≡ pairs inside.now) }
{
    let mut bytes = Octets::new(alloc);
    let mut rest = inside;
    'pairs: loop {
        match next_in_binary(rest) {
            Next::End => return Ok(Some(bytes)),
            Next::Bad => return Ok(None),
            Next::Byte(byte, behind) => {
                bytes.push(byte)?;
                rest = behind;
            }
        }
    }
}

// The bytes that a binary literal spells.
fn binary_of(alloc: Global, text: &[u8]) -> Result<Option<Octets>, NoMemory>
    ensures { IfOk result (λ read. read ≡ binary_in text.now) }
{
    match text {
        [b'x', b'"', inside @ ..] => unpair(alloc, inside),
        _ => Ok(None),
    }
}

fn in_range(kind: Kind, number: i64) -> bool
    ensures { result ≡ number_fits kind number }
{
    match kind {
        Kind::Int8 => i8::try_from(number).is_ok(),
        Kind::Int16 => i16::try_from(number).is_ok(),
        Kind::Int32 => i32::try_from(number).is_ok(),
        Kind::Int64 => true,
        _ => false,
    }
}

fn truth(kind: Kind, value: bool) -> Result<Cell, LiteralNo>
    ensures { Reads result (cell_under kind (truth value)) }
{
    match kind {
        Kind::Bool => Ok(Cell::Bool(value)),
        _ => Err(LiteralNo::Kind),
    }
}

fn number(kind: Kind, text: &[u8]) -> Result<Cell, LiteralNo>
    requires { IsTrue (is_some (number_in text.now)) }
    ensures { Reads result (cell_or kind (option_map number_value (number_in text.now))) }
{
    let Some(number) = number_of(text) else {
        return Err(LiteralNo::Kind);
    };
    if in_range(kind, number) {
        Ok(Cell::Int(number))
    } else {
        Err(LiteralNo::Kind)
    }
}

fn short(bytes: Octets) -> Result<Cell, LiteralNo>
    ensures { Reads result (short_bytes bytes) }
{
    if bytes.len() > CELL_LEN {
        Err(LiteralNo::Long)
    } else {
        Ok(Cell::Bytes(bytes))
    }
}

fn string(kind: Kind, bytes: Octets) -> Result<Cell, LiteralNo>
    ensures { Reads result (cell_under kind (text_value bytes)) }
{
    match kind {
        Kind::String => short(bytes),
        _ => Err(LiteralNo::Kind),
    }
}

fn binary(kind: Kind, bytes: Octets) -> Result<Cell, LiteralNo>
    ensures { Reads result (cell_under kind (raw_value bytes)) }
{
    match kind {
        Kind::Binary => short(bytes),
        _ => Err(LiteralNo::Kind),
    }
}

// The number of some digits. There is none where it may be past 64 bits, or a byte is no digit.
fn plain_digits(digits: &[u8]) -> Option<u64>
    ensures digits { IfSome result (λ n. list_all is_digit digits.now ≡ true) }
    ensures value { IfSome result (λ n. n ≡ count_on 0 digits.now) }
{
    let mut number: u64 = 0;
    let mut left = digits;
    while let Some((digit, rest)) = left.split_first() {
        if !is_digit(*digit) || number > MOST_TENS {
            return None;
        }
        number = 10 * number + u64::from(*digit - b'0');
        left = rest;
    }
    Some(number)
}

// A number below 0.
fn below_zero(count: u64) -> Option<i64>
    ensures some { IfSome result (λ n. 0 < count) }
    ensures value { IfSome result (λ n. n ≡ below_zero count) }
{
    let number = i64::try_from(count).ok()?;
    if number == 0 { None } else { Some(-number) }
}

// The number of digits without leading zeros.
fn plain_count(digits: &[u8]) -> Option<u64>
    ensures count { IfSome result (λ n. is_count digits.now ≡ true) }
    ensures value { IfSome result (λ n. n ≡ count_on 0 digits.now) }
{
    match digits {
        [] | [b'0', _, ..] => None,
        _ => plain_digits(digits),
    }
}

// The number that a text spells. There may be none where it has 19 digits.
fn plain_number(text: &[u8]) -> Option<i64>
    ensures { IfSome result (λ n. number_in text.now ≡ Some n) }
{
    match text {
        [b'-', digits @ ..] => below_zero(plain_count(digits)?),
        _ => i64::try_from(plain_count(text)?).ok(),
    }
}

// The bytes of a string literal behind its first quote, if each stands for itself.
fn plain_string(inside: &[u8]) -> Option<&[u8]>
    ensures { IfSome result (λ bytes. unquoted among inside.now ≡ Some bytes.now) }
{
    let (plain, rest) = cut_plain(inside);
    if rest == b"\"".as_slice() {
        Some(plain)
    } else {
        None
    }
}

fn plain_text(inside: &[u8], kind: Kind) -> Option<CellRef<'_>>
    ensures { IfSome result (λ cell. cell_or kind (option_map text_value (unquoted among inside.now)) ≡ Ok (borrowed cell)) }
{
    let bytes = plain_string(inside)?;
    if kind == Kind::String && bytes.len() <= CELL_LEN {
        Some(CellRef::Bytes(bytes))
    } else {
        None
    }
}

fn plain_truth(text: &[u8], kind: Kind) -> Option<CellRef<'_>>
    ensures { IfSome result (λ cell. cell_in kind text.now ≡ Ok (borrowed cell)) }
{
    if kind != Kind::Bool {
        return None;
    }
    if text == b"true".as_slice() {
        return Some(CellRef::Bool(true));
    }
    if text == b"false".as_slice() {
        return Some(CellRef::Bool(false));
    }
    None
}

fn plain_cell(text: &[u8], kind: Kind) -> Option<CellRef<'_>>
    ensures { IfSome result (λ cell. cell_in kind text.now ≡ Ok (borrowed cell)) }
{
    let number = plain_number(text)?;
    if in_range(kind, number) {
        Some(CellRef::Int(number))
    } else {
        None
    }
}

/// The cell that a text spells in a column of this kind, where it lies: a number, a truth value, or a string literal
/// whose bytes stand for themselves. Where there is none, `read_literal` tells whether the text is a cell and which.
pub fn plain_literal(text: &[u8], kind: Kind) -> Option<CellRef<'_>>
    ensures { IfSome result (λ cell. cell_in kind text.now ≡ Ok (borrowed cell)) }
{
    match text {
        [b'"', inside @ ..] => plain_text(inside, kind),
        [b't' | b'f', ..] => plain_truth(text, kind),
        [b'-' | b'0'..=b'9', ..] => plain_cell(text, kind),
        _ => None,
    }
}

/// The cell that a text spells in a column of this kind. `null` is a refusal of its own.
pub fn read_literal(alloc: Global, text: &[u8], kind: Kind) -> Result<Cell, LiteralNo>
    ensures { Reads result (cell_in kind text.now) }
{
    if let Some(cell) = plain_literal(text, kind) {
        return Ok(cell.to_cell(alloc)?);
    }
    if text == b"null".as_slice() {
        return Err(LiteralNo::Null);
    }
    if text == b"true".as_slice() {
        return truth(kind, true);
    }
    if text == b"false".as_slice() {
        return truth(kind, false);
    }
    if is_number(text) {
        return number(kind, text);
    }
    if let Some(bytes) = string_of(alloc, text)? {
        return string(kind, bytes);
    }
    if let Some(bytes) = binary_of(alloc, text)? {
        return binary(kind, bytes);
    }
    Err(LiteralNo::Form)
}

/// The next line from a place on, as the places of its first byte and of its newline. None exactly where no newline
/// stands at or after that place.
pub fn next_line(text: &[u8], from: usize) -> Option<(usize, usize)>
    ensures found { IfSome result (λ line. (line.0 ≡ from) × IsLineEnd text.now from line.1) }
    ensures none { IfNone result (All (λ b. b ≢ 10) (drop from text.now)) }
{
    if from > text.len() {
        return None;
    }
    let at = memchr(b'\n', &text[from..])?;
    Some((from, from + at))
}

/// A cell's spelling is read as that cell.
pub fn literals_law()
    ensures { literals_are_read }
{}

/// What is read as a cell is that cell's spelling, and no other text is.
pub fn spellings_law()
    ensures { literals_are_spelled }
{}
