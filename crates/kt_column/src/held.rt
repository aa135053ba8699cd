//! The values of a block as they are held, and one of them.

ghost use Rattle.std.specs.Prelude.{◌≡◌, ◌<◌, ◌≤◌, ◌+◌, ◌++◌, ◌^◌, ℕ, List, length, get_or, IfOk, OnOk};
ghost use Rattle.std.specs.Ordering.{nat_cmp};
ghost use Rattle.std.specs.Cmp.Lexicographic.{slice_cmp};
ghost use Rattle.kt_base.specs.declared.cell.Cell.TheVariants as cells;
ghost use Rattle.kt_plain.specs.Items.{count};
ghost use Rattle.kt_plain.specs.declared.items.Items.TheVariants as plain;
ghost use Rattle.kt_column.specs.Forms.{width};
ghost use Rattle.kt_column.specs.Blocks.{number_cell, value_cells};
ghost use Rattle.kt_column.specs.Held.{items_of};

use crate::form::Form;
use kt_base::{Cell, NoMemory, Octets};
use kt_plain::{Item, Items, NumberWidth, Texts, Width, get};
use std::alloc::Global;
use std::cmp::Ordering;

/// The values of a block: those of cells as plain values, and those of bytes as their encoding has
/// them, so that they take no more than a few times the bytes.
#[derive(Drop)]
pub enum Values {
    Plain(Items),
    Runs(kt_rle::Items),
    Dictionary(kt_dict::Items),
    Prefixes(kt_front::Items),
}

/// How many values there are.
pub fn len(values: &Values) -> usize
    ensures { result ≡ count (items_of values.now) }
{
    match values {
        Values::Plain(Items::Numbers(numbers)) => numbers.len(),
        Values::Plain(Items::Texts(texts)) => texts.len(),
        Values::Runs(runs) => runs.len(),
        Values::Dictionary(items) => items.len(),
        Values::Prefixes(items) => items.len(),
    }
}

/// A number as a cell.
fn number_as(width: Width, number: i64) -> Cell
    ensures { result ≡ number_cell width number }
{
    match width {
        Width::Numbers(NumberWidth::Bit) => Cell::Bool(number == 1),
        _ => Cell::Int(number),
    }
}

/// A plain value as a cell.
fn plain_cell(alloc: Global, form: Form, items: &Items, i: u32) -> Result<Cell, NoMemory>
    requires { i < count items.now }
    ensures { IfOk result (λ cell. cell ≡ get_or (value_cells (width form) items.now) i cells.Null) }
{
    match get(items, i) {
        Item::Number(number) => Ok(number_as(form.width(), number)),
        Item::Bytes(bytes) => Ok(Cell::Bytes(tri!(Octets::from_slice(alloc, bytes)))),
    }
}

/// A value as a cell: a copy of that one.
pub fn cell_of(alloc: Global, form: Form, values: &Values, i: u32) -> Result<Cell, NoMemory>
    requires { i < count (items_of values.now) }
    ensures { IfOk result (λ cell. cell ≡ get_or (value_cells (width form) (items_of values.now)) i cells.Null) }
{
    match values {
        Values::Plain(items) => plain_cell(alloc, form, items, i),
        Values::Runs(runs) => Ok(number_as(form.width(), kt_rle::get(runs, i))),
        Values::Dictionary(items) => {
            let bytes = tri!(Octets::from_slice(alloc, kt_dict::get(items, i)));
            Ok(Cell::Bytes(bytes))
        }
        Values::Prefixes(items) => {
            let bytes = tri!(kt_front::get(items, i).to_octets(alloc));
            Ok(Cell::Bytes(bytes))
        }
    }
}

/// Adds byte lists to others, one by one.
fn push_all(texts: &Texts, out: &mut Texts) -> Result<(), NoMemory>
    ensures { OnOk result (out.new ≡ out.old ++ texts.now) }
{
    'texts: for i in 0..texts.len() {
        out.push(texts.get(i))?;
    }
    Ok(())
}

/// Adds the items of a dictionary's block to others, one by one.
fn push_entries(items: &kt_dict::Items, out: &mut Texts) -> Result<(), NoMemory>
    ensures { OnOk result (out.new ≡ out.old ++ items.now) }
{
    'items: for i in 0..items.len() {
        out.push(items.item(i))?;
    }
    Ok(())
}

/// Adds the values to others, in one go, where they are byte lists.
pub fn push_texts(values: &Values, out: &mut Texts) -> Result<(), NoMemory>
    ensures { OnOk result ((texts : List (List ℕ)) → items_of values.now ≡ plain.Texts texts → out.new ≡ out.old ++ texts) }
{
    match values {
        Values::Plain(Items::Numbers(_)) | Values::Runs(_) => Ok(()),
        Values::Plain(Items::Texts(texts)) => push_all(texts, out),
        Values::Dictionary(items) => push_entries(items, out),
        Values::Prefixes(items) => items.push_to(out),
    }
}

/// The order of a plain value's bytes and the key.
fn plain_order(form: Form, items: &Items, i: u32, key: &[u8]) -> Ordering
    requires { i < count items.now }
    ensures { (bytes : List ℕ) → get_or (value_cells (width form) items.now) i cells.Null ≡ cells.Bytes bytes → result ≡ slice_cmp nat_cmp bytes key.now }
{
    match get(items, i) {
        Item::Number(_) => Ordering::Equal,
        Item::Bytes(bytes) => bytes.cmp(key),
    }
}

/// The order of a value's bytes and the key: one comparison of the two.
#[tactic(auto, using(crate::proofs::HeldValues::text_is, crate::proofs::HeldValues::no_text))]
pub fn order_of(form: Form, values: &Values, i: u32, key: &[u8]) -> Ordering
    requires { i < count (items_of values.now) }
    ensures { (bytes : List ℕ) → get_or (value_cells (width form) (items_of values.now)) i cells.Null ≡ cells.Bytes bytes → result ≡ slice_cmp nat_cmp bytes key.now }
{
    match values {
        Values::Plain(items) => plain_order(form, items, i, key),
        Values::Runs(_) => Ordering::Equal,
        Values::Dictionary(items) => kt_dict::get(items, i).cmp(key),
        Values::Prefixes(items) => kt_front::get(items, i).compare(key),
    }
}
