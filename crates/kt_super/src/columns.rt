//! Reading the columns of a superblock.
ghost use Rattle.std.specs.Prelude.{◌≡◌, [], ◌==◌};
ghost use Rattle.std.specs.List.{list_all};
ghost use Rattle.std.specs.Int.{w8, w16};
ghost use Rattle.kt_bytes.specs.Reading.{Gives, checked_at, many_at};
ghost use Rattle.kt_super.specs.Columns.{has_id, has_name, is_free_id, may_stand, may_have, names_of, has_free_name, may_be, kind_of, are_flags, is_tag, is_bit, text_at, cell_by, cell_at, default_at, name_at, column_at, counted_columns_at};

use kt_base::limits::COLUMNS;
use kt_base::{Cell, Kind, Octets};
use kt_bytes::Stop;
use kt_bytes::fields::{fault_at, front_of, u8_at, u16_at, u32_at, u64_at};
use kt_schema::Column;
use std::alloc::Global;

fn has_id(earlier: &[Column], id: u16) -> bool
    ensures { result ≡ has_id earlier.now id }
{
    earlier.iter().any(|column| column.id == id)
}

fn has_name(earlier: &[Column], name: &[u8]) -> bool
    ensures { result ≡ has_name earlier.now name.now }
{
    earlier
        .iter()
        .any(|column| name.cmp(&column.name.as_slice()).is_eq())
}

fn are_keys(earlier: &[Column]) -> bool
    ensures { result ≡ list_all (λ d. d.key) earlier.now }
{
    earlier.iter().all(|column| column.key)
}

fn may_stand(earlier: &[Column], kind: Kind, key: bool, nullable: bool) -> bool
    ensures { result ≡ may_stand earlier.now kind key nullable }
{
    if key {
        !nullable && !matches!(kind, Kind::Bool) && are_keys(earlier)
    } else {
        !earlier.is_empty()
    }
}

fn id_at<'a>(next: u16, earlier: &[Column], bytes: &'a [u8]) -> Result<(u16, &'a [u8]), Stop>
    ensures { Gives (λ x. (x.0, x.1.now)) result (checked_at w16 (is_free_id next earlier.now) bytes.now) }
{
    let (id, rest) = tri!(u16_at(bytes));
    if id < next && !has_id(earlier, id) {
        Ok((id, rest))
    } else {
        fault_at(bytes)
    }
}

// How many names have so many bytes.
fn names_of(earlier: &[Column], len: u8) -> usize
    ensures { result ≡ names_of earlier.now len }
{
    earlier
        .iter()
        .filter(|column| column.name.len() == len as usize)
        .count()
}

// There is one name of no byte, there are 256 of one byte, and of more bytes more than columns.
fn has_free_name(earlier: &[Column], len: u8) -> bool
    ensures { result ≡ has_free_name earlier.now len }
{
    let all = if len == 0 { 1 } else { 256 };
    2 <= len || names_of(earlier, len) < all
}

fn name_len_at<'a>(earlier: &[Column], bytes: &'a [u8]) -> Result<(u8, &'a [u8]), Stop>
    ensures { Gives (λ x. (x.0, x.1.now)) result (checked_at w8 (has_free_name earlier.now) bytes.now) }
{
    let (len, rest) = tri!(u8_at(bytes));
    if has_free_name(earlier, len) {
        Ok((len, rest))
    } else {
        fault_at(bytes)
    }
}

#[tactic(auto, unfolding(crate::specs::Columns::name_at))]
fn name_of<'a>(
    alloc: Global,
    earlier: &[Column],
    bytes: &'a [u8],
) -> Result<(Octets, &'a [u8]), Stop>
    ensures { Gives (λ x. (x.0, x.1.now)) result (name_at earlier.now bytes.now) }
{
    let (len, from) = tri!(name_len_at(earlier, bytes));
    let (name, rest) = tri!(front_of(from, len as usize));
    if has_name(earlier, name) {
        return fault_at(from);
    }
    Ok((Octets::from_slice(alloc, name)?, rest))
}

// The first column is a key, and no key is of truth values.
fn may_be(earlier: &[Column], number: u8) -> bool
    ensures { result ≡ may_be earlier.now number }
{
    1 <= number && number <= 7 && (1 < number || !earlier.is_empty())
}

fn kind_number_at<'a>(earlier: &[Column], bytes: &'a [u8]) -> Result<(u8, &'a [u8]), Stop>
    ensures { Gives (λ x. (x.0, x.1.now)) result (checked_at w8 (may_be earlier.now) bytes.now) }
{
    let (number, rest) = tri!(u8_at(bytes));
    if may_be(earlier, number) {
        Ok((number, rest))
    } else {
        fault_at(bytes)
    }
}

fn kind_of(number: u8) -> Kind
    ensures { result ≡ kind_of number }
{
    match number {
        1 => Kind::Bool,
        2 => Kind::Int8,
        3 => Kind::Int16,
        4 => Kind::Int32,
        5 => Kind::Int64,
        6 => Kind::String,
        _ => Kind::Binary,
    }
}

fn flags_at<'a>(earlier: &[Column], kind: Kind, bytes: &'a [u8]) -> Result<(u8, &'a [u8]), Stop>
    ensures { Gives (λ x. (x.0, x.1.now)) result (checked_at w8 (are_flags earlier.now kind) bytes.now) }
{
    let (flags, rest) = tri!(u8_at(bytes));
    if flags < 8 && may_stand(earlier, kind, flags % 2 == 1, flags / 2 % 2 == 1) {
        Ok((flags, rest))
    } else {
        fault_at(bytes)
    }
}

fn tag_at(bytes: &[u8]) -> Result<(u8, &[u8]), Stop>
    ensures { Gives (λ x. (x.0, x.1.now)) result (checked_at w8 is_tag bytes.now) }
{
    let (tag, rest) = tri!(u8_at(bytes));
    if tag < 4 {
        Ok((tag, rest))
    } else {
        fault_at(bytes)
    }
}

fn bit_at(bytes: &[u8]) -> Result<(u8, &[u8]), Stop>
    ensures { Gives (λ x. (x.0, x.1.now)) result (checked_at w8 is_bit bytes.now) }
{
    let (bit, rest) = tri!(u8_at(bytes));
    if bit < 2 {
        Ok((bit, rest))
    } else {
        fault_at(bytes)
    }
}

#[tactic(auto, unfolding(crate::specs::Columns::text_at))]
fn text_of(alloc: Global, bytes: &[u8]) -> Result<(Octets, &[u8]), Stop>
    ensures { Gives (λ x. (x.0, x.1.now)) result (text_at bytes.now) }
{
    let (len, rest) = tri!(u32_at(bytes));
    let (text, rest) = tri!(front_of(rest, len as usize));
    Ok((Octets::from_slice(alloc, text)?, rest))
}

#[tactic(auto, unfolding(crate::specs::Columns::cell_by))]
fn cell_by(alloc: Global, tag: u8, bytes: &[u8]) -> Result<(Cell, &[u8]), Stop>
    ensures { Gives (λ x. (x.0, x.1.now)) result (cell_by tag bytes.now) }
{
    match tag {
        0 => Ok((Cell::Null, bytes)),
        1 => {
            let (bit, rest) = tri!(bit_at(bytes));
            Ok((Cell::Bool(bit == 1), rest))
        }
        2 => {
            let (number, rest) = tri!(u64_at(bytes));
            Ok((Cell::Int(number.cast_signed()), rest))
        }
        _ => {
            let (text, rest) = tri!(text_of(alloc, bytes));
            Ok((Cell::Bytes(text), rest))
        }
    }
}

#[tactic(auto, unfolding(crate::specs::Columns::cell_at))]
fn cell_of(alloc: Global, bytes: &[u8]) -> Result<(Cell, &[u8]), Stop>
    ensures { Gives (λ x. (x.0, x.1.now)) result (cell_at bytes.now) }
{
    let (tag, rest) = tri!(tag_at(bytes));
    cell_by(alloc, tag, rest)
}

#[tactic(auto, unfolding(crate::specs::Columns::default_at))]
fn default_of(alloc: Global, flags: u8, bytes: &[u8]) -> Result<(Option<Cell>, &[u8]), Stop>
    ensures { Gives (λ x. (x.0, x.1.now)) result (default_at flags bytes.now) }
{
    if flags / 4 == 1 {
        let (cell, rest) = tri!(cell_of(alloc, bytes));
        return Ok((Some(cell), rest));
    }
    Ok((None, bytes))
}

#[tactic(auto, unfolding(crate::specs::Columns::column_at))]
fn column_of<'a>(
    alloc: Global,
    next: u16,
    earlier: &[Column],
    bytes: &'a [u8],
) -> Result<(Column, &'a [u8]), Stop>
    ensures { Gives (λ x. (x.0, x.1.now)) result (column_at next earlier.now bytes.now) }
{
    let (id, rest) = tri!(id_at(next, earlier, bytes));
    let (name, rest) = tri!(name_of(alloc, earlier, rest));
    let (number, rest) = tri!(kind_number_at(earlier, rest));
    let kind = kind_of(number);
    let (flags, rest) = tri!(flags_at(earlier, kind, rest));
    let (default, rest) = tri!(default_of(alloc, flags, rest));
    let column = Column {
        id,
        name,
        kind,
        key: flags % 2 == 1,
        nullable: flags / 2 % 2 == 1,
        default,
    };
    Ok((column, rest))
}

fn columns_of(
    alloc: Global,
    count: u16,
    next: u16,
    bytes: &[u8],
) -> Result<(Vec<Column>, &[u8]), Stop>
    ensures { Gives (λ x. (x.0.items, x.1.now)) result (many_at (column_at next) count [] bytes.now) }
{
    let mut columns = Vec::new(alloc);
    let mut rest = bytes;
    for _ in 0..count {
        let (column, after) = tri!(column_of(alloc, next, columns.as_slice(), rest));
        columns.push(column)?;
        rest = after;
    }
    Ok((columns, rest))
}

fn count_at(next: u16, bytes: &[u8]) -> Result<(u16, &[u8]), Stop>
    ensures { Gives (λ x. (x.0, x.1.now)) result (checked_at w16 (may_have next) bytes.now) }
{
    let (count, rest) = tri!(u16_at(bytes));
    if 1 <= count && count as usize <= COLUMNS && count <= next {
        Ok((count, rest))
    } else {
        fault_at(bytes)
    }
}

/// The columns, with their count before them. Their ids differ and are below the next one.
#[tactic(auto, unfolding(crate::specs::Columns::counted_columns_at))]
pub fn counted_columns_of(
    alloc: Global,
    next: u16,
    bytes: &[u8],
) -> Result<(Vec<Column>, &[u8]), Stop>
    ensures { Gives (λ x. (x.0.items, x.1.now)) result (counted_columns_at next bytes.now) }
{
    let (count, rest) = tri!(count_at(next, bytes));
    columns_of(alloc, count, next, rest)
}
