//! The words of one operation, and the cells and the key that its first words spell.

ghost use Rattle.std.specs.Prelude.{◌≡◌, ◌<◌, ◌^◌, ◌++◌, ◌∷◌, [], min, length, drop, ◌&&◌, nat_lt, true, IfOk, OnOk, IfSome, IfNone, None};
ghost use Rattle.kt_cells.specs.Spelling.{cell_list};
ghost use Rattle.kt_key.specs.Fit.{is_key};
ghost use Rattle.kt_key.specs.Spelling.{spelling};
ghost use Rattle.kt_schema.specs.Columns.{columns_no, key_columns, key_kinds};
ghost use Rattle.kt_script.specs.Reasons.{sound, no_of, reason_if};
ghost use Rattle.kt_script.specs.Writes.{cells_no, cells_of, under, key_no, key_len, key_of, is_empty, none_left_no, first_op, later_ops, words_cut, op_in, later_in, ops_in, IsOpCut};

use crate::least::{Least, put_cell_read, read_cell};
use crate::word::{is_word, next_word};
use kt_base::limits::KEY_LEN;
use kt_base::literal::plain_literal;
use kt_base::{Cell, CellRef, NoMemory, Octets};
use kt_cells::Tail;
use kt_key::encode_key_into;
use kt_schema::{Column, Schema};
use std::alloc::Global;

/// Cells with the ids of their columns, and what is left of the line behind them.
#[derive(Drop)]
pub struct TakenOthers<'a> {
    pub cells: Vec<(u16, Cell)>,
    pub rest: Option<&'a [u8]>,
}

/// A key, and what is left of the line behind it.
#[derive(Drop)]
pub struct TakenKey<'a> {
    pub key: Octets,
    pub rest: Option<&'a [u8]>,
}

/// The first word of an operation, whose line is cut behind its first word. It has none where that is `;`.
pub fn first_op_word<'a>(
    cut: Option<(&'a [u8], Option<&'a [u8]>)>,
) -> Option<(&'a [u8], Option<&'a [u8]>)>
    ensures some { IfSome result (λ c. first_op (words_cut cut.entry) ≡ c.0.now ∷ op_in c.1) }
    ensures later { IfSome result (λ c. later_in c.1 ≡ later_ops (words_cut cut.entry)) }
    ensures none { IfNone result (first_op (words_cut cut.entry) ≡ []) }
{
    let (word, behind) = cut?;
    if is_word(word, b";") {
        None
    } else {
        Some((word, behind))
    }
}

/// What is left behind an operation without words, whose line is cut in the same way, if it ends with a word `;`.
pub fn behind_none<'a>(cut: Option<(&'a [u8], Option<&'a [u8]>)>) -> Option<Option<&'a [u8]>>
    requires { first_op (words_cut cut) ≡ [] }
    ensures { ops_in result ≡ later_ops (words_cut cut.entry) }
{
    match cut {
        Some((_, behind)) => Some(behind),
        None => None,
    }
}

/// The next word of an operation. It ends before a word `;`.
pub fn next_op_word(rest: Option<&[u8]>) -> Option<(&[u8], Option<&[u8]>)>
    ensures some { IfSome result (λ cut. IsOpCut rest.entry cut.0.now cut.1) }
    ensures none { IfNone result (op_in rest.entry ≡ []) }
{
    first_op_word(next_word(rest))
}

/// What is left behind an operation, if it ends with a word `;`.
pub fn behind_op(rest: Option<&[u8]>) -> Option<Option<&[u8]>>
    ensures { ops_in result ≡ later_in rest.entry }
{
    let mut left = rest;
    'words: while let Some((word, behind)) = next_word(left) {
        if is_word(word, b";") {
            return Some(behind);
        }
        left = behind;
    }
    None
}

/// Why an operation is refused in which words are left.
pub fn left_no(rest: Option<&[u8]>) -> Option<u8>
    ensures { no_of result ≡ none_left_no (op_in rest.entry) }
{
    match next_op_word(rest) {
        Some(_) => Some(12),
        None => None,
    }
}

/// Why an operation is refused in which no word is left.
pub fn missing_no(rest: Option<&[u8]>) -> Option<u8>
    ensures { no_of result ≡ reason_if (is_empty (op_in rest.entry)) 12 }
{
    match next_op_word(rest) {
        Some(_) => None,
        None => Some(12),
    }
}

/// Reads a cell for each column in place of the cells of a vector, and gives what is left of the line behind them.
fn take_cells<'a>(
    alloc: Global,
    columns: &[Column],
    rest: Option<&'a [u8]>,
    cells: &mut Vec<Cell>,
    no: &mut Least,
) -> Result<Option<&'a [u8]>, NoMemory>
    ensures cells { OnOk result (cells.new.items ≡ cells_of columns.now (op_in rest.entry)) }
    ensures behind { IfOk result (λ left. op_in left ≡ drop (length columns.now) (op_in rest.entry)) }
    ensures later { IfOk result (λ left. later_in left ≡ later_in rest.entry) }
    ensures least { OnOk result (no.new ≡ min no.old (cells_no columns.now (op_in rest.entry))) }
{
    cells.clear();
    let mut left = rest;
    for column in columns {
        let Some((word, behind)) = next_op_word(left) else {
            no.note(Some(12));
            return Ok(left);
        };
        cells.push(read_cell(alloc, column, word, no)?)?;
        left = behind;
    }
    no.note(None);
    Ok(left)
}

/// A cell for each column, with the column's id.
pub fn take_others<'a>(
    alloc: Global,
    columns: &[Column],
    rest: Option<&'a [u8]>,
    no: &mut Least,
) -> Result<TakenOthers<'a>, NoMemory>
    ensures cells { IfOk result (λ taken. taken.cells.items ≡ under columns.now (cells_of columns.now (op_in rest.entry))) }
    ensures behind { IfOk result (λ taken. op_in taken.rest ≡ drop (length columns.now) (op_in rest.entry)) }
    ensures later { IfOk result (λ taken. later_in taken.rest ≡ later_in rest.entry) }
    ensures least { OnOk result (no.new ≡ min no.old (cells_no columns.now (op_in rest.entry))) }
{
    let mut cells = Vec::with_capacity(alloc, columns.len())?;
    let mut left = rest;
    for column in columns {
        let Some((word, behind)) = next_op_word(left) else {
            no.note(Some(12));
            return Ok(TakenOthers { cells, rest: left });
        };
        cells.push((column.id, read_cell(alloc, column, word, no)?))?;
        left = behind;
    }
    no.note(None);
    Ok(TakenOthers { cells, rest: left })
}

/// Adds a cell for each column, behind their count, and gives what is left of the line behind them. What is added counts
/// only where no reason up to 12 holds.
pub fn put_others<'a>(
    alloc: Global,
    columns: &[Column],
    rest: Option<&'a [u8]>,
    out: &mut Tail,
    no: &mut Least,
) -> Result<Option<&'a [u8]>, NoMemory>
    requires { length columns.now < 2 ^ 16 }
    ensures cells { OnOk result (12 < no.new → out.new.added ≡ out.old.added ++ cell_list (under columns.now (cells_of columns.now (op_in rest.entry)))) }
    ensures behind { IfOk result (λ left. op_in left ≡ drop (length columns.now) (op_in rest.entry)) }
    ensures later { IfOk result (λ left. later_in left ≡ later_in rest.entry) }
    ensures least { OnOk result (no.new ≡ min no.old (cells_no columns.now (op_in rest.entry))) }
{
    out.extend(&(columns.len() as u16).to_le_bytes())?;
    let mut left = rest;
    for column in columns {
        let Some((word, behind)) = next_op_word(left) else {
            no.note(Some(12));
            return Ok(left);
        };
        put_cell_read(alloc, column, word, out, no)?;
        left = behind;
    }
    no.note(None);
    Ok(left)
}

// The key columns, which stand first.
fn key_columns(schema: &Schema) -> &[Column]
    ensures value { result.now ≡ key_columns schema.now }
    ensures fit { columns_no schema.now ≡ None }
{
    let (keys, _) = schema.columns().split_at(schema.key_kinds().len());
    keys
}

// Encodes the key of some cells in place of the bytes of a buffer, unless a reason holds already that a long key would
// not change.
fn spell_key(
    schema: &Schema,
    cells: &[Cell],
    key: &mut Octets,
    no: &mut Least,
) -> Result<(), NoMemory>
    requires { 17 < no.old → is_key (key_kinds schema.now) cells.now ≡ true }
    ensures key { OnOk result (17 < no.new → key.new ≡ spelling (key_kinds schema.now) cells.now) }
    ensures least { OnOk result (no.new ≡ min no.old (reason_if (is_key (key_kinds schema.now) cells.now && nat_lt 16384 (length (spelling (key_kinds schema.now) cells.now))) 17)) }
{
    if !no.is_above(17) {
        return Ok(());
    }
    key.clear();
    encode_key_into(schema.key_kinds(), cells, key)?;
    no.note(if key.len() > KEY_LEN { Some(17) } else { None });
    Ok(())
}

// The cell of a lone key column, where the next word spells it as a number, and what is left of the line behind it.
fn lone_number<'a>(columns: &[Column], rest: Option<&'a [u8]>) -> Option<(Cell, Option<&'a [u8]>)>
    ensures cells { IfSome result (λ taken. cells_of columns.now (op_in rest.entry) ≡ taken.0 ∷ []) }
    ensures behind { IfSome result (λ taken. op_in taken.1 ≡ drop (length columns.now) (op_in rest.entry)) }
    ensures later { IfSome result (λ taken. later_in taken.1 ≡ later_in rest.entry) }
    ensures sound { IfSome result (λ taken. cells_no columns.now (op_in rest.entry) ≡ sound) }
{
    let [column] = columns else {
        return None;
    };
    let (word, behind) = next_op_word(rest)?;
    match plain_literal(word, column.kind)? {
        CellRef::Int(number) => Some((Cell::Int(number), behind)),
        _ => None,
    }
}

/// Reads the key that an operation begins with: its cells in place of those of a vector, and the encoded key in place of
/// the bytes of a buffer. Gives what is left of the line behind them.
pub fn take_key_into<'a>(
    alloc: Global,
    schema: &Schema,
    rest: Option<&'a [u8]>,
    cells: &mut Vec<Cell>,
    key: &mut Octets,
    no: &mut Least,
) -> Result<Option<&'a [u8]>, NoMemory>
    ensures fit { OnOk result (columns_no schema.now ≡ None) }
    ensures key { OnOk result (17 < no.new → key.new ≡ key_of schema.now (op_in rest.entry)) }
    ensures behind { IfOk result (λ left. op_in left ≡ drop (key_len schema.now) (op_in rest.entry)) }
    ensures later { IfOk result (λ left. later_in left ≡ later_in rest.entry) }
    ensures least { OnOk result (no.new ≡ min no.old (key_no schema.now (op_in rest.entry))) }
{
    let columns = key_columns(schema);
    if let Some((cell, left)) = lone_number(columns, rest) {
        no.note(None);
        spell_key(schema, &[cell], key, no)?;
        return Ok(left);
    }
    let left = take_cells(alloc, columns, rest, cells, no)?;
    spell_key(schema, cells, key, no)?;
    Ok(left)
}

/// The key that an operation begins with.
pub fn take_key<'a>(
    alloc: Global,
    schema: &Schema,
    rest: Option<&'a [u8]>,
    no: &mut Least,
) -> Result<TakenKey<'a>, NoMemory>
    ensures fit { OnOk result (columns_no schema.now ≡ None) }
    ensures key { IfOk result (λ taken. 17 < no.new → taken.key ≡ key_of schema.now (op_in rest.entry)) }
    ensures behind { IfOk result (λ taken. op_in taken.rest ≡ drop (key_len schema.now) (op_in rest.entry)) }
    ensures later { IfOk result (λ taken. later_in taken.rest ≡ later_in rest.entry) }
    ensures least { OnOk result (no.new ≡ min no.old (key_no schema.now (op_in rest.entry))) }
{
    let mut cells = Vec::with_capacity(alloc, schema.key_kinds().len())?;
    let mut key = Octets::new(alloc);
    let rest = take_key_into(alloc, schema, rest, &mut cells, &mut key, no)?;
    Ok(TakenKey { key, rest })
}
