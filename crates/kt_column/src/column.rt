//! A whole column: a list of blocks, all full but the last.

ghost use Rattle.std.specs.Prelude.{◌≡◌, ◌==◌, ◌<◌, ◌≤◌, ◌+◌, ◌^◌, ◌++◌, [], ℕ, List, false, length, get_or, All, IfOk, OnOk};
ghost use Rattle.std.specs.Ordering.{nat_cmp};
ghost use Rattle.std.specs.Cmp.Lexicographic.{slice_cmp};
ghost use Rattle.kt_base.specs.declared.cell.Cell.TheVariants as cells;
ghost use Rattle.kt_column.specs.Forms.{is_nullable, width};
ghost use Rattle.kt_column.specs.Blocks.{IsCell, texts_in};
ghost use Rattle.kt_column.specs.Columns.{AreFull, SpellsColumn};

use crate::block::Block;
use crate::cells::Cells1;
use crate::form::Form;
use kt_base::{Cell, Kind, NoMemory, Octets};
use kt_plain::{Texts, Width};
use std::alloc::Global;
use std::cmp::Ordering;
use std::marker::Model;

/// The cells of a column, decoded. A cell's block and its place there are a division away. Contracts
/// see its form and the list of its cells.
#[derive(Drop)]
pub struct ColumnData {
    form: Form,
    blocks: Vec<Block>,
    len: u32,
}

impl Model for ColumnData {
    ghost use Rattle.std.specs.Prelude.{◌≡◌, length};
    ghost use Rattle.kt_column.specs.Columns.{ColumnValue, AreParts, cells_in};

    ghost Value = { ColumnValue };

    ghost view = { λ c. record { form = c.form; cells = cells_in c.blocks.items } };

    ghost invariant = { λ c. AreParts c.form c.blocks.items × (c.len ≡ length (cells_in c.blocks.items)) };
}

impl ColumnData {
    /// The column without a cell.
    pub(crate) fn new(alloc: Global, form: Form) -> ColumnData
        ensures { result ≡ record { form = form; cells = [] } }
    {
        ColumnData {
            form,
            blocks: Vec::new(alloc),
            len: 0,
        }
    }

    /// Adds a block behind full ones.
    pub(crate) fn push(&mut self, block: Block) -> Result<(), NoMemory>
        requires form { block.form ≡ self.old.form }
        requires full { AreFull self.old.cells }
        requires some { 0 < length block.cells }
        requires few { length block.cells ≤ 8192 }
        requires room { length self.old.cells + length block.cells < 2 ^ 32 }
        ensures { OnOk result (self.new ≡ record { form = self.old.form; cells = self.old.cells ++ block.cells }) }
    {
        let len = self.len + block.len();
        self.blocks.push(block)?;
        self.len = len;
        Ok(())
    }

    /// How many cells there are.
    pub fn len(&self) -> u32
        ensures { result ≡ length self.now.cells }
    {
        self.len
    }

    /// Whether there is no cell.
    pub fn is_empty(&self) -> bool
        ensures { result ≡ (length self.now.cells == 0) }
    {
        self.len == 0
    }

    /// The cell at a place, in constant time but for the copy of its bytes.
    pub fn cell(&self, alloc: Global, i: u32) -> Result<Cell, NoMemory>
        requires { i < length self.now.cells }
        ensures { IfOk result (λ cell. cell ≡ get_or self.now.cells i cells.Null) }
    {
        self.blocks[(i / 8192) as usize].cell(alloc, i % 8192)
    }

    /// The order of a cell's bytes and the key, where no cell is null: one comparison of the two.
    pub fn compare(&self, i: u32, key: &[u8]) -> Ordering
        requires within { i < length self.now.cells }
        requires full { is_nullable self.now.form ≡ false }
        ensures { (bytes : List ℕ) → get_or self.now.cells i cells.Null ≡ cells.Bytes bytes → result ≡ slice_cmp nat_cmp bytes key.now }
    {
        self.blocks[(i / 8192) as usize].compare(i % 8192, key)
    }

    /// Adds the byte lists among the cells of a column of such to others, in one go over each block.
    pub fn push_texts(&self, out: &mut Texts) -> Result<(), NoMemory>
        requires { width self.now.form ≡ Width.Bytes }
        ensures { OnOk result (out.new ≡ out.old ++ texts_in self.now.cells) }
    {
        for block in &self.blocks {
            block.push_texts(out)?;
        }
        Ok(())
    }

    /// The bytes of the column: those of its blocks, one after another.
    pub fn spell(&self, alloc: Global) -> Result<Octets, NoMemory>
        ensures { IfOk result (SpellsColumn self.now.form self.now.cells) }
    {
        let mut out = Vec::new(alloc);
        for block in &self.blocks {
            let bytes = tri!(block.spell(alloc));
            out.extend_from_slice(bytes.as_slice())?;
        }
        Ok(Octets::of(out))
    }
}

/// Adds these cells to the column without a cell, 8,192 to a block.
fn fill(alloc: Global, form: Form, column: &mut ColumnData, cells: &[Cell]) -> Result<(), NoMemory>
    requires none { column.old ≡ record { form = form; cells = [] } }
    requires each { All (IsCell form) cells.now }
    requires few { length cells.now < 2 ^ 32 }
    ensures { OnOk result (column.new ≡ record { form = form; cells = cells.now }) }
{
    let mut rest = cells;
    while !rest.is_empty() {
        let (front, after) = rest.split_at(rest.len().min(8192));
        let block = tri!(Block::build(alloc, form, front));
        tri!(column.push(block));
        rest = after;
    }
    Ok(())
}

/// The column of these cells, 8,192 to a block.
fn blocks_of(alloc: Global, form: Form, cells: &[Cell]) -> Result<ColumnData, NoMemory>
    requires each { All (IsCell form) cells.now }
    requires few { length cells.now < 2 ^ 32 }
    ensures { IfOk result (λ column. column ≡ record { form = form; cells = cells.now }) }
{
    let mut column = ColumnData::new(alloc, form);
    tri!(fill(alloc, form, &mut column, cells));
    Ok(column)
}

/// The column of these cells of a kind.
pub fn build(
    alloc: Global,
    cells: &Cells1,
    kind: Kind,
    nullable: bool,
) -> Result<ColumnData, NoMemory>
    requires each { All (IsCell (Form.Cells kind nullable)) cells.now }
    requires few { length cells.now < 2 ^ 32 }
    ensures { IfOk result (λ column. column ≡ record { form = Form.Cells kind nullable; cells = cells.now }) }
{
    blocks_of(alloc, Form::Cells { kind, nullable }, cells.as_slice())
}

/// The column of these encoded keys.
pub fn build_keys(alloc: Global, cells: &Cells1) -> Result<ColumnData, NoMemory>
    requires each { All (IsCell Form.Keys) cells.now }
    requires few { length cells.now < 2 ^ 32 }
    ensures { IfOk result (λ column. column ≡ record { form = Form.Keys; cells = cells.now }) }
{
    blocks_of(alloc, Form::Keys, cells.as_slice())
}
