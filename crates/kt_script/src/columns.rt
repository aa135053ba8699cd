//! Column lines.

ghost use Rattle.std.specs.Prelude.{◌≡◌, ◌<◌, not};
ghost use Rattle.std.specs.List.{list_any};
ghost use Rattle.std.specs.Option.{option_map};
ghost use Rattle.std.specs.Ordering.{nat_cmp, is_eq};
ghost use Rattle.std.specs.Cmp.Lexicographic.{slice_cmp};
ghost use Rattle.kt_script.specs.Pieces.{words_of, words_in, text_now};
ghost use Rattle.kt_script.specs.Reasons.{no_of};
ghost use Rattle.kt_script.specs.Columns.{kind_of, with_default, as_key, marked, column_line, line_view, place_no, ReadsDefault, ReadsColumn};

use crate::least::least_of;
use crate::word::{is_word, next_word};
use kt_base::limits::COLUMNS;
use kt_base::literal::{LiteralNo, read_literal};
use kt_base::{Cell, Kind, Octets};
use kt_schema::{Column, is_name};
use std::alloc::Global;
use thiserror::Error;

/// Why a line is not read: the least reason that holds in it, or want of memory.
#[derive(Clone, Copy, Debug, Error)]
pub enum LineNo {
    #[error("the line is refused for reason {0}")]
    Reason(u8),
    #[error("out of memory")]
    Memory,
}

// What a column line says. A default is the text of a literal.
#[derive(Clone, Copy)]
pub struct Line<'a> {
    name: &'a [u8],
    kind: Kind,
    key: bool,
    nullable: bool,
    default: Option<&'a [u8]>,
}

fn kind_of(word: &[u8]) -> Option<Kind>
    ensures { result ≡ kind_of word.now }
{
    if is_word(word, b"bool") {
        return Some(Kind::Bool);
    }
    if is_word(word, b"int8") {
        return Some(Kind::Int8);
    }
    if is_word(word, b"int16") {
        return Some(Kind::Int16);
    }
    if is_word(word, b"int32") {
        return Some(Kind::Int32);
    }
    if is_word(word, b"int64") {
        return Some(Kind::Int64);
    }
    if is_word(word, b"string") {
        return Some(Kind::String);
    }
    if is_word(word, b"binary") {
        return Some(Kind::Binary);
    }
    None
}

// Behind the kind and `nullable`: nothing, or the default.
fn with_default<'a>(
    name: &'a [u8],
    kind: Kind,
    nullable: bool,
    rest: Option<&'a [u8]>,
) -> Option<Line<'a>>
    ensures { option_map line_view result ≡ with_default name.now kind nullable (words_in rest.entry) }
{
    let line = Line {
        name,
        kind,
        key: false,
        nullable,
        default: None,
    };
    let Some((word, rest)) = next_word(rest) else {
        return Some(line);
    };
    let Some((literal, rest)) = next_word(rest) else {
        return None;
    };
    if next_word(rest).is_some() || !is_word(word, b"default") {
        return None;
    }
    Some(Line {
        name,
        kind,
        key: false,
        nullable,
        default: Some(literal),
    })
}

fn as_key<'a>(name: &'a [u8], kind: Kind, rest: Option<&'a [u8]>) -> Option<Line<'a>>
    ensures { option_map line_view result ≡ as_key name.now kind (words_in rest.entry) }
{
    match next_word(rest) {
        Some(_) => None,
        None => Some(Line {
            name,
            kind,
            key: true,
            nullable: false,
            default: None,
        }),
    }
}

// Behind the kind.
fn marked<'a>(name: &'a [u8], kind: Kind, rest: Option<&'a [u8]>) -> Option<Line<'a>>
    ensures { option_map line_view result ≡ marked name.now kind (words_in rest.entry) }
{
    let Some((word, behind)) = next_word(rest) else {
        return with_default(name, kind, false, None);
    };
    if is_word(word, b"key") {
        as_key(name, kind, behind)
    } else if is_word(word, b"nullable") {
        with_default(name, kind, true, behind)
    } else {
        with_default(name, kind, false, rest)
    }
}

fn column_line(line: &[u8]) -> Option<Line<'_>>
    ensures { option_map line_view result ≡ column_line (words_of line.now) }
{
    let Some((first, rest)) = next_word(Some(line)) else {
        return None;
    };
    let Some((name, rest)) = next_word(rest) else {
        return None;
    };
    let Some((word, rest)) = next_word(rest) else {
        return None;
    };
    if !is_word(first, b"column") || !is_name(name) {
        return None;
    }
    match kind_of(word) {
        Some(kind) => marked(name, kind, rest),
        None => None,
    }
}

fn read_default(alloc: Global, kind: Kind, text: Option<&[u8]>) -> Result<Option<Cell>, LineNo>
    ensures { ReadsDefault kind (text_now text.entry) result }
{
    let Some(text) = text else {
        return Ok(None);
    };
    match read_literal(alloc, text, kind) {
        Ok(cell) => Ok(Some(cell)),
        Err(LiteralNo::Form) => Err(LineNo::Reason(4)),
        Err(LiteralNo::Memory) => Err(LineNo::Memory),
        Err(LiteralNo::Null | LiteralNo::Kind | LiteralNo::Long) => Err(LineNo::Reason(10)),
    }
}

fn has_other(columns: &[Column]) -> bool
    ensures { result ≡ list_any (λ d. not d.key) columns.now }
{
    columns.iter().any(|column| !column.key)
}

fn has_name(columns: &[Column], name: &[u8]) -> bool
    ensures { result ≡ list_any (λ d. is_eq (slice_cmp nat_cmp name.now d.name)) columns.now }
{
    columns
        .iter()
        .any(|column| name.cmp(&column.name.as_slice()).is_eq())
}

// Why a column may not stand below these columns.
fn place_no(columns: &[Column], line: &Line<'_>) -> Option<u8>
    ensures { no_of result ≡ place_no columns.now (line_view line.now) }
{
    if line.key && has_other(columns) {
        return Some(6);
    }
    if line.key && line.kind == Kind::Bool {
        return Some(7);
    }
    if has_name(columns, line.name) {
        return Some(8);
    }
    if COLUMNS <= columns.len() {
        return Some(9);
    }
    None
}

/// The column that a line says below these columns.
pub fn read_column(alloc: Global, columns: &[Column], text: &[u8]) -> Result<Column, LineNo>
    ensures { ReadsColumn columns.now text.now result }
{
    let Some(line) = column_line(text) else {
        return Err(LineNo::Reason(4));
    };
    let place = place_no(columns, &line);
    let default = match read_default(alloc, line.kind, line.default) {
        Ok(default) => default,
        Err(LineNo::Reason(reason)) => return Err(LineNo::Reason(least_of(reason, place))),
        Err(LineNo::Memory) => return Err(LineNo::Memory),
    };
    if let Some(reason) = place {
        return Err(LineNo::Reason(reason));
    }
    let Ok(name) = Octets::from_slice(alloc, line.name) else {
        return Err(LineNo::Memory);
    };
    Ok(Column {
        id: columns.len() as u16 + 1,
        name,
        kind: line.kind,
        key: line.key,
        nullable: line.nullable,
        default,
    })
}
