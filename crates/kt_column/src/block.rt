//! A block of up to 8,192 cells.

ghost use Rattle.std.specs.Prelude.{◌≡◌, ◌==◌, ◌<◌, ◌≤◌, ◌+◌, ◌++◌, ◌∷◌, [], ℕ, List, false, length, get_or, IfOk, OnOk, ◌^◌};
ghost use Rattle.std.specs.List.{concat};
ghost use Rattle.std.specs.Ordering.{nat_cmp};
ghost use Rattle.std.specs.Cmp.Lexicographic.{slice_cmp};
ghost use Rattle.kt_base.specs.declared.cell.Cell.TheVariants as cells;
ghost use Rattle.kt_plain.specs.Items.{count};
ghost use Rattle.kt_column.specs.Forms.{is_nullable, width};
ghost use Rattle.kt_column.specs.Nulls.{null_bytes};
ghost use Rattle.kt_column.specs.Blocks as spec;
ghost use Rattle.kt_column.specs.Blocks.{AreCells, cell_len, numbers_in, texts_in, nulls_in, values_in, AreNullsOf, Held, IsBlock, SpellsBlock, block_bytes};
ghost use Rattle.kt_column.specs.Held.{items_of, cells_of, IsChosen};
ghost use Rattle.kt_column.specs.Values.{AreValues};

use crate::form::{Encoding, Form};
use crate::held::{self, Values, cell_of, order_of, push_texts};
use crate::nulls::Nulls;
use crate::values::spell_values;
use kt_base::{Cell, NoMemory, Octets};
use kt_plain::{Items, Numbers, Texts, Width};
use std::alloc::{AllocError, Global};
use std::cmp::Ordering;
use std::marker::Model;

/// The cells of a block: which are null, and the values of the others, where cells were given as
/// plain values, and where bytes were read as their encoding has them.
#[derive(Drop)]
pub struct Block {
    form: Form,
    nulls: Nulls,
    values: Values,
}

impl Model for Block {
    ghost use Rattle.kt_column.specs.Blocks.{BlockValue, Held};
    ghost use Rattle.kt_column.specs.Held.{items_of, cells_of, IsChosen};

    ghost Value = { BlockValue };

    ghost view = { λ b. record { form = b.form; cells = cells_of b.form b.nulls b.values } };

    ghost invariant = { λ b. Held b.form b.nulls (items_of b.values) (cells_of b.form b.nulls b.values) × IsChosen b.form b.values };
}

fn is_null(cell: &Cell) -> bool
    ensures { result ≡ spec.is_null cell.now }
{
    matches!(cell, Cell::Null)
}

/// Which of the cells are null, where the column says so.
fn nulls_of(alloc: Global, form: Form, cells: &[Cell]) -> Result<Nulls, AllocError>
    requires { length cells.now ≤ 8192 }
    ensures { IfOk result (λ nulls. nulls ≡ nulls_in form cells.now) }
{
    let mut nulls = Nulls::new(alloc);
    if form.is_nullable() {
        for cell in cells {
            nulls.push(is_null(cell))?;
        }
    }
    Ok(nulls)
}

/// Adds the cell where it is a number.
fn push_number(numbers: &mut Vec<i64>, cell: &Cell) -> Result<(), NoMemory>
    ensures { OnOk result (numbers.new.items ≡ numbers.old.items ++ numbers_in (cell.now ∷ [])) }
{
    let number = match cell {
        Cell::Int(number) => *number,
        Cell::Bool(bit) => i64::from(*bit),
        Cell::Null | Cell::Bytes(_) => return Ok(()),
    };
    numbers.push(number)?;
    Ok(())
}

/// The numbers among the cells.
fn numbers_of(alloc: Global, cells: &[Cell]) -> Result<Vec<i64>, NoMemory>
    ensures { IfOk result (λ v. v.items ≡ numbers_in cells.now) }
{
    let mut numbers = Vec::new(alloc);
    for cell in cells {
        tri!(push_number(&mut numbers, cell));
    }
    Ok(numbers)
}

/// Adds the cell where it is a byte list.
fn push_text(texts: &mut Texts, cell: &Cell) -> Result<(), NoMemory>
    requires { length (concat texts.old) + cell_len cell.now < 2 ^ 32 }
    ensures { OnOk result (texts.new ≡ texts.old ++ texts_in (cell.now ∷ [])) }
{
    match cell {
        Cell::Bytes(bytes) => texts.push(bytes.as_slice()),
        _ => Ok(()),
    }
}

/// The byte lists among the cells.
fn texts_of(alloc: Global, form: Form, cells: &[Cell]) -> Result<Texts, NoMemory>
    requires { AreCells form cells.now }
    ensures { IfOk result (λ texts. texts ≡ texts_in cells.now) }
{
    let mut texts = Texts::new(alloc);
    for cell in cells {
        tri!(push_text(&mut texts, cell));
    }
    Ok(texts)
}

/// The values among the cells.
fn values_of(alloc: Global, form: Form, cells: &[Cell]) -> Result<Items, NoMemory>
    requires { AreCells form cells.now }
    ensures { IfOk result (λ items. items ≡ values_in form cells.now) }
{
    match form.width() {
        Width::Bytes => Ok(Items::Texts(tri!(texts_of(alloc, form, cells)))),
        Width::Numbers(width) => {
            let numbers = tri!(numbers_of(alloc, cells));
            Ok(Items::Numbers(Numbers::of(alloc, &numbers, width)?))
        }
    }
}

/// How many cells a block has.
#[tactic(auto, using(crate::proofs::Weaving::len_of_nulls, crate::proofs::Weaving::len_of_values))]
fn cell_count(form: Form, nulls: &Nulls, values: &Values) -> u32
    requires slots { AreNullsOf (is_nullable form) nulls.now (count (items_of values.now)) }
    requires few { length (cells_of form nulls.now values.now) ≤ 8192 }
    ensures { result ≡ length (cells_of form nulls.now values.now) }
{
    if form.is_nullable() {
        nulls.len() as u32
    } else {
        held::len(values) as u32
    }
}

/// The cell at a place of a block.
fn cell_in(
    alloc: Global,
    form: Form,
    nulls: &Nulls,
    values: &Values,
    i: u32,
) -> Result<Cell, NoMemory>
    requires within { i < length (cells_of form nulls.now values.now) }
    requires slots { AreNullsOf (is_nullable form) nulls.now (count (items_of values.now)) }
    ensures { IfOk result (λ cell. cell ≡ get_or (cells_of form nulls.now values.now) i cells.Null) }
{
    if !form.is_nullable() {
        return cell_of(alloc, form, values, i);
    }
    match nulls.slot(i as usize) {
        Some(k) => cell_of(alloc, form, values, k),
        None => Ok(Cell::Null),
    }
}

/// Adds the nulls, and the bytes of the values.
fn put_content(out: &mut Vec<u8>, nulls: &Nulls, values: &[u8]) -> Result<(), AllocError>
    ensures { OnOk result (out.new.items ≡ out.old.items ++ (null_bytes nulls.now ++ values.now)) }
{
    tri!(nulls.spell(out));
    out.extend_from_slice(values)
}

/// The nulls, and the bytes of the values.
fn content_of(alloc: Global, nulls: &Nulls, values: &[u8]) -> Result<Vec<u8>, AllocError>
    ensures { IfOk result (λ content. content.items ≡ null_bytes nulls.now ++ values.now) }
{
    let mut content = Vec::new(alloc);
    tri!(put_content(&mut content, nulls, values));
    Ok(content)
}

/// Adds the number of an encoding, a length and the content.
fn put_block(
    out: &mut Vec<u8>,
    encoding: Encoding,
    len: u32,
    content: &[u8],
) -> Result<(), AllocError>
    requires { len ≡ length content.now }
    ensures { OnOk result (out.new.items ≡ out.old.items ++ block_bytes encoding content.now) }
{
    out.push(encoding.code())?;
    tri!(out.extend_from_slice(&len.to_le_bytes()));
    out.extend_from_slice(content)
}

/// The bytes of a block with this content.
fn framed(alloc: Global, encoding: Encoding, content: &[u8]) -> Result<Vec<u8>, NoMemory>
    ensures room { OnOk result (length content.now < 2 ^ 32) }
    ensures bytes { IfOk result (λ bytes. bytes.items ≡ block_bytes encoding content.now) }
{
    let Ok(len) = u32::try_from(content.len()) else {
        return Err(NoMemory);
    };
    let mut out = Vec::new(alloc);
    put_block(&mut out, encoding, len, content)?;
    Ok(out)
}

/// The bytes of nulls and values.
fn spelled(alloc: Global, form: Form, nulls: &Nulls, values: &Values) -> Result<Vec<u8>, NoMemory>
    requires values { AreValues form (items_of values.now) }
    requires chosen { IsChosen form values.now }
    ensures { IfOk result (λ bytes. IsBlock form nulls.now (items_of values.now) bytes.items) }
{
    let chosen = tri!(spell_values(alloc, form, values));
    let content = content_of(alloc, nulls, &chosen.bytes)?;
    framed(alloc, chosen.encoding, &content)
}

impl Block {
    /// The block of these nulls and values.
    pub(crate) fn of(form: Form, nulls: Nulls, values: Values) -> Block
        requires held { Held form nulls (items_of values) (cells_of form nulls values) }
        requires chosen { IsChosen form values }
        ensures { result ≡ record { form = form; cells = cells_of form nulls values } }
    {
        Block {
            form,
            nulls,
            values,
        }
    }

    /// The block of these cells.
    pub fn build(alloc: Global, form: Form, cells: &[Cell]) -> Result<Block, NoMemory>
        requires { AreCells form cells.now }
        ensures { IfOk result (λ block. block ≡ record { form = form; cells = cells.now }) }
    {
        let nulls = nulls_of(alloc, form, cells)?;
        let items = tri!(values_of(alloc, form, cells));
        Ok(Block {
            form,
            nulls,
            values: Values::Plain(items),
        })
    }

    /// How many cells there are.
    pub fn len(&self) -> u32
        ensures { result ≡ length self.now.cells }
    {
        cell_count(self.form, &self.nulls, &self.values)
    }

    /// Whether there is no cell.
    pub fn is_empty(&self) -> bool
        ensures { result ≡ (length self.now.cells == 0) }
    {
        self.len() == 0
    }

    /// The cell at a place, in constant time but for the copy of its bytes.
    pub fn cell(&self, alloc: Global, i: u32) -> Result<Cell, NoMemory>
        requires { i < length self.now.cells }
        ensures { IfOk result (λ cell. cell ≡ get_or self.now.cells i cells.Null) }
    {
        cell_in(alloc, self.form, &self.nulls, &self.values, i)
    }

    /// Adds the byte lists among the cells to others.
    pub(crate) fn push_texts(&self, out: &mut Texts) -> Result<(), NoMemory>
        requires { width self.now.form ≡ Width.Bytes }
        ensures { OnOk result (out.new ≡ out.old ++ texts_in self.now.cells) }
    {
        push_texts(&self.values, out)?;
        Ok(())
    }

    /// The bytes of the block.
    pub fn spell(&self, alloc: Global) -> Result<Octets, NoMemory>
        ensures { IfOk result (SpellsBlock self.now.form self.now.cells) }
    {
        Ok(Octets::of(tri!(spelled(alloc, self.form, &self.nulls, &self.values))))
    }

    /// The order of a cell's bytes and the key, where no cell is null: one comparison of the two.
    pub fn compare(&self, i: u32, key: &[u8]) -> Ordering
        requires within { i < length self.now.cells }
        requires full { is_nullable self.now.form ≡ false }
        ensures { (bytes : List ℕ) → get_or self.now.cells i cells.Null ≡ cells.Bytes bytes → result ≡ slice_cmp nat_cmp bytes key.now }
    {
        order_of(self.form, &self.values, i, key)
    }
}
