//! NAME=LIT: the named cells of an upsert or an update.

ghost use Rattle.std.specs.Prelude.{◌≡◌, ◌<◌, ◌++◌, ◌∷◌, [], not, ◌&&◌, min, map, drop, IfOk, OnOk};
ghost use Rattle.std.specs.List.{list_any};
ghost use Rattle.std.specs.Ordering.{nat_cmp};
ghost use Rattle.std.specs.FinMap.Entries.{put};
ghost use Rattle.kt_base.specs.Literals.{same};
ghost use Rattle.kt_script.specs.Reasons.{no_of, reason_if};
ghost use Rattle.kt_script.specs.Writes.{name_in, behind_name, column_named, named_no, all_named_no, under_no, with_named, all_named, must_be_named, op_in, later_in, names_now, again_no, IsGiven};

use crate::least::{Least, note_form, read_cell};
use crate::names::find_column;
use crate::operations::next_op_word;
use crate::test_words::cut_sign;
use crate::vector::push;
use kt_base::{Cell, NoMemory};
use kt_history::put_cell;
use kt_schema::{Column, is_name};
use std::alloc::Global;

/// Named cells by rising column id, their names in the order of the line, and what is left of the line behind them.
#[derive(Drop)]
pub struct TakenNames<'a> {
    pub names: Vec<&'a [u8]>,
    pub cells: Vec<(u16, Cell)>,
    pub rest: Option<&'a [u8]>,
}

fn has_name(names: &[&[u8]], name: &[u8]) -> bool
    ensures { result ≡ list_any (λ n. same n name.now) (names_now names.now) }
{
    names.iter().any(|seen| *seen == name)
}

/// Why a name may not stand behind these.
pub fn again_no(names: &[&[u8]], name: &[u8]) -> Option<u8>
    ensures { no_of result ≡ again_no (names_now names.now) name.now }
{
    if has_name(names, name) {
        Some(13)
    } else {
        None
    }
}

// The literal behind the sign of NAME=LIT.
fn given<'a>(name: &[u8], behind: &'a [u8]) -> Option<&'a [u8]>
    ensures { IsGiven name.now behind.now result }
{
    let (sign, literal) = behind.split_first()?;
    if is_name(name) && *sign == b'=' {
        Some(literal)
    } else {
        None
    }
}

// Keeps a named cell, unless a reason holds that no later word can change.
fn keep_named<'a>(
    id: u16,
    name: &'a [u8],
    cell: Cell,
    names: &mut Vec<&'a [u8]>,
    cells: &mut Vec<(u16, Cell)>,
    no: &Least,
) -> Result<(), NoMemory>
    ensures names { OnOk result (13 < no.now → names_now names.new.items ≡ names_now names.old.items ++ name.now ∷ []) }
    ensures cells { OnOk result (13 < no.now → cells.new.items ≡ put nat_cmp id cell cells.old.items) }
{
    if !no.is_above(13) {
        return Ok(());
    }
    put_cell(cells, id, cell)?;
    push(names, name)
}

// The cell of a literal under a name.
fn read_under<'a>(
    alloc: Global,
    others: &[Column],
    name: &'a [u8],
    literal: &[u8],
    names: &mut Vec<&'a [u8]>,
    cells: &mut Vec<(u16, Cell)>,
    no: &mut Least,
) -> Result<(), NoMemory>
    ensures names { OnOk result (13 < no.new → names_now names.new.items ≡ names_now names.old.items ++ name.now ∷ []) }
    ensures cells { OnOk result (13 < no.new → cells.new.items ≡ with_named (column_named others.now name.now) literal.now cells.old.items) }
    ensures least { OnOk result (no.new ≡ min no.old (under_no (column_named others.now name.now) literal.now)) }
{
    let Some(column) = find_column(others, name) else {
        no.note(Some(13));
        return note_form(alloc, literal, no);
    };
    let cell = read_cell(alloc, column, literal, no)?;
    keep_named(column.id, name, cell, names, cells, no)
}

// One more named cell. Nothing is kept once a reason holds that no later word can change.
fn read_named<'a>(
    alloc: Global,
    others: &[Column],
    word: &'a [u8],
    names: &mut Vec<&'a [u8]>,
    cells: &mut Vec<(u16, Cell)>,
    no: &mut Least,
) -> Result<(), NoMemory>
    ensures names { OnOk result (13 < no.new → names_now names.new.items ≡ names_now names.old.items ++ name_in word.now ∷ []) }
    ensures cells { OnOk result (13 < no.new → cells.new.items ≡ with_named (column_named others.now (name_in word.now)) (drop 1 (behind_name word.now)) cells.old.items) }
    ensures least { OnOk result (no.new ≡ min no.old (min (named_no others.now word.now) (again_no (names_now names.old.items) (name_in word.now)))) }
{
    let (name, behind) = cut_sign(word);
    no.note(again_no(names, name));
    match given(name, behind) {
        Some(literal) => read_under(alloc, others, name, literal, names, cells, no),
        None => {
            no.note(Some(12));
            Ok(())
        }
    }
}

/// The named cells at the end of an operation. They count only where no reason up to 13 holds.
pub fn take_names<'a>(
    alloc: Global,
    others: &[Column],
    rest: Option<&'a [u8]>,
    no: &mut Least,
) -> Result<TakenNames<'a>, NoMemory>
    ensures names { IfOk result (λ taken. 13 < no.new → names_now taken.names.items ≡ map name_in (op_in rest.entry)) }
    ensures cells { IfOk result (λ taken. 13 < no.new → taken.cells.items ≡ all_named others.now [] (op_in rest.entry)) }
    ensures later { IfOk result (λ taken. later_in taken.rest ≡ later_in rest.entry) }
    ensures least { OnOk result (no.new ≡ min no.old (all_named_no others.now [] (op_in rest.entry))) }
{
    let mut names = Vec::new(alloc);
    let mut cells = Vec::new(alloc);
    let mut left = rest;
    'words: while let Some((word, behind)) = next_op_word(left) {
        read_named(alloc, others, word, &mut names, &mut cells, no)?;
        left = behind;
    }
    no.note(None);
    Ok(TakenNames {
        names,
        cells,
        rest: left,
    })
}

fn must_be_named(names: &[&[u8]], column: &Column) -> bool
    ensures { result ≡ must_be_named (names_now names.now) column.now }
{
    (!column.nullable && column.default.is_none()) && !has_name(names, column.name.as_slice())
}

fn leaves_out(names: &[&[u8]], others: &[Column]) -> bool
    ensures { result ≡ list_any (must_be_named (names_now names.now)) others.now }
{
    others.iter().any(|column| must_be_named(names, column))
}

/// Why names are not enough for an upsert.
pub fn left_out_no(others: &[Column], names: &[&[u8]]) -> Option<u8>
    ensures { no_of result ≡ reason_if (list_any (must_be_named (names_now names.now)) others.now) 15 }
{
    if leaves_out(names, others) {
        Some(15)
    } else {
        None
    }
}
