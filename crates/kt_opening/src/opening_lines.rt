//! The lines of an opening, each read by itself.

ghost use Rattle.std.specs.Prelude.{◌≡◌, ◌∷◌, [], ◌&&◌, nat_le, IfOk, IfSome, IfNone};
ghost use Rattle.std.specs.Option.{option_map};
ghost use Rattle.kt_script.specs.Pieces.{cut, words_in};
ghost use Rattle.kt_script.specs.Outputs.{pieces_in, counted};
ghost use Rattle.kt_script.specs.Reasons.{sound};
ghost use Rattle.kt_script.specs.Writes.{is_empty, later_in};
ghost use Rattle.kt_opening.specs.OpeningLines.{head_in, head_numbers, begin_in, count_in, number_alone, write_in, turn_in, row_said, named_said, key_said, row_in, change_in};

use kt_base::{Cells, NoMemory, Octets};
use kt_history::Change;
use kt_schema::Schema;
use kt_script::least::Least;
use kt_script::named::{TakenNames, take_names};
use kt_script::number::read_number;
use kt_script::operations::{TakenKey, TakenOthers, behind_op, left_no, take_key, take_others};
use kt_script::split::cut_at;
use kt_script::word::cut_word;
use std::alloc::Global;

// The bytes up to the first space, and those behind it.
fn cut_space(text: &[u8]) -> (&[u8], Option<&[u8]>)
    ensures { cut 32 text.now ≡ result.0.now ∷ pieces_in result.1 }
{
    match cut_at(text, b' ') {
        Some((word, rest)) => (word, Some(rest)),
        None => (text, None),
    }
}

// The next word of what is left of a line.
fn next_piece(rest: Option<&[u8]>) -> Option<(&[u8], Option<&[u8]>)>
    ensures some { IfSome result (λ x. pieces_in rest.entry ≡ x.0.now ∷ pieces_in x.1) }
    ensures none { IfNone result (pieces_in rest.entry ≡ []) }
{
    match rest {
        Some(text) => Some(cut_space(text)),
        None => None,
    }
}

// A number behind this word, and what is left behind it.
fn counted<'a>(rest: Option<&'a [u8]>, name: &[u8]) -> Option<(u64, Option<&'a [u8]>)>
    ensures { option_map (λ x. (x.0, pieces_in x.1)) result ≡ counted name.now (pieces_in rest.entry) }
{
    let (word, behind) = next_piece(rest)?;
    let (digits, more) = next_piece(behind)?;
    if word != name {
        return None;
    }
    let number = read_number(digits)?;
    Some((number, more))
}

fn head_numbers(rest: Option<&[u8]>) -> Option<(u64, u64)>
    ensures { result ≡ head_numbers (pieces_in rest.entry) }
{
    let (a, behind) = counted(rest, b"ahm")?;
    let (c, behind) = counted(behind, b"last")?;
    match behind {
        Some(_) => None,
        None => Some((a, c)),
    }
}

/// The mark and the last timestamp that the first line of an opening says.
pub(crate) fn head_of(line: &[u8]) -> Option<(u64, u64)>
    ensures { result ≡ head_in line.now }
{
    let (word, rest) = cut_space(line);
    if word == b"opening".as_slice() {
        head_numbers(rest)
    } else {
        None
    }
}

/// The same, where the mark is not above the last timestamp.
pub(crate) fn begin_of(line: &[u8]) -> Option<(u64, u64)>
    ensures { result ≡ begin_in line.now }
{
    let (a, c) = head_of(line)?;
    if a <= c { Some((a, c)) } else { None }
}

/// How many rows the second line says.
pub(crate) fn count_of(line: &[u8]) -> Option<u64>
    ensures { result ≡ count_in line.now }
{
    let (rows, behind) = counted(Some(line), b"rows")?;
    match behind {
        Some(_) => None,
        None => Some(rows),
    }
}

// The one number that is left of a line.
fn number_alone(rest: Option<&[u8]>) -> Option<u64>
    ensures { result ≡ number_alone (pieces_in rest.entry) }
{
    let (digits, behind) = next_piece(rest)?;
    match behind {
        Some(_) => None,
        None => read_number(digits),
    }
}

/// The timestamp of a write, and how many changes it has, by its first line.
pub(crate) fn write_of(line: &[u8]) -> Option<(u64, u64)>
    ensures { result ≡ write_in line.now }
{
    let (ts, behind) = counted(Some(line), b"write")?;
    let changes = number_alone(behind)?;
    Some((ts, changes))
}

/// The same, where the timestamp is above one and not above another, and there are some changes.
pub(crate) fn turn_of(line: &[u8], low: u64, c: u64) -> Option<(u64, u64)>
    ensures { result ≡ turn_in low c line.now }
{
    let (ts, changes) = write_of(line)?;
    if low < ts && ts <= c && changes > 0 {
        Some((ts, changes))
    } else {
        None
    }
}

// Whether no reason was found, and no word `;` follows.
fn may_stand(no: &Least, rest: Option<&[u8]>) -> bool
    ensures { result ≡ (nat_le sound no.now && is_empty (later_in rest.entry)) }
{
    match behind_op(rest) {
        Some(_) => false,
        None => no.is_above(u8::MAX),
    }
}

// A row, by the words that are left of a line.
fn read_row(
    alloc: Global,
    schema: &Schema,
    rest: Option<&[u8]>,
) -> Result<Option<(Octets, Cells)>, NoMemory>
    ensures { IfOk result (λ row. row ≡ row_said schema.now (words_in rest.entry)) }
{
    let mut no = Least::none();
    let others = schema.other_columns();
    let TakenKey { key, rest } = take_key(alloc, schema, rest, &mut no)?;
    let TakenOthers { cells, rest } = take_others(alloc, others, rest, &mut no)?;
    no.note(left_no(rest));
    if may_stand(&no, rest) {
        Ok(Some((key, Cells::of(cells))))
    } else {
        Ok(None)
    }
}

// A key and named cells.
fn read_named(
    alloc: Global,
    schema: &Schema,
    rest: Option<&[u8]>,
) -> Result<Option<(Octets, Cells)>, NoMemory>
    ensures { IfOk result (λ row. row ≡ named_said schema.now (words_in rest.entry)) }
{
    let mut no = Least::none();
    let others = schema.other_columns();
    let TakenKey { key, rest } = take_key(alloc, schema, rest, &mut no)?;
    let TakenNames { cells, rest, .. } = take_names(alloc, others, rest, &mut no)?;
    if may_stand(&no, rest) {
        Ok(Some((key, Cells::of(cells))))
    } else {
        Ok(None)
    }
}

// A key alone.
fn read_key(alloc: Global, schema: &Schema, rest: Option<&[u8]>) -> Result<Option<Octets>, NoMemory>
    ensures { IfOk result (λ key. key ≡ key_said schema.now (words_in rest.entry)) }
{
    let mut no = Least::none();
    let TakenKey { key, rest } = take_key(alloc, schema, rest, &mut no)?;
    no.note(left_no(rest));
    if may_stand(&no, rest) {
        Ok(Some(key))
    } else {
        Ok(None)
    }
}

/// The row that a line says.
pub(crate) fn row_of(
    alloc: Global,
    schema: &Schema,
    line: &[u8],
) -> Result<Option<(Octets, Cells)>, NoMemory>
    ensures { IfOk result (λ row. row ≡ row_in schema.now line.now) }
{
    read_row(alloc, schema, Some(line))
}

/// The change that a line says.
pub(crate) fn change_of(
    alloc: Global,
    schema: &Schema,
    line: &[u8],
) -> Result<Option<(Octets, Change)>, NoMemory>
    ensures { IfOk result (λ change. change ≡ change_in schema.now line.now) }
{
    let (word, rest) = cut_word(line);
    if word == b"ins".as_slice() {
        let row = read_row(alloc, schema, rest)?;
        Ok(row.map(|(key, cells)| (key, Change::Ins(cells))))
    } else if word == b"upd".as_slice() {
        let row = read_named(alloc, schema, rest)?;
        Ok(row.map(|(key, cells)| (key, Change::Upd(cells))))
    } else if word == b"del".as_slice() {
        let key = read_key(alloc, schema, rest)?;
        Ok(key.map(|key| (key, Change::Del)))
    } else {
        Ok(None)
    }
}
