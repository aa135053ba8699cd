//! Write lines.

ghost use Rattle.std.specs.Prelude.{◌≡◌, ◌<◌, ◌≤◌, ◌+◌, ◌++◌, ◌∷◌, [], min, map, drop, length, nat_lt, IfOk, IfSome, OnOk, IsTrue, false};
ghost use Rattle.std.specs.List.{list_any};
ghost use Rattle.std.specs.Ordering.{nat_cmp, is_lt};
ghost use Rattle.std.specs.Cmp.Lexicographic.{slice_cmp};
ghost use Rattle.kt_base.specs.Literals.{same};
ghost use Rattle.kt_cells.specs.Rules.{CellListFits};
ghost use Rattle.kt_cells.specs.Spelling.{cell_list};
ghost use Rattle.kt_history.specs.declared.command.Command.TheVariants as command;
ghost use Rattle.kt_history.specs.declared.operation.RowOp.{RowOp};
ghost use Rattle.kt_schema.specs.Columns.{other_columns};
ghost use Rattle.kt_script.specs.declared.forms.OpForm.TheVariants as form;
ghost use Rattle.kt_script.specs.Columns.{IsTable};
ghost use Rattle.kt_script.specs.Reasons.{no_of, reason_if};
ghost use Rattle.kt_script.specs.Buffers.{Spells, HasSpelling, spelled_op, line_ops, line_command, IsLineRead, IsLine, ReadsLine};
ghost use Rattle.kt_script.specs.Writes.{front, rest_no, rest_cells, behind_no, op_form, op_no, op_of, op_said, ops_of, ops_no, many_no, twice, first_op, later_ops, words_cut, ops_cut, op_in, later_in, ops_in, write_no, write_of};

use crate::columns::LineNo;
use crate::forms::{OpForm, op_form, op_kind};
use crate::least::Least;
use crate::named::{TakenNames, left_out_no, take_names};
use crate::operations::{
    behind_none, behind_op, first_op_word, left_no, missing_no, put_others, take_key_into,
};
use crate::word::next_word;
use kt_base::limits::OPERATIONS;
use kt_base::{Cell, Cells, NoMemory, Octets};
use kt_cells::Tail;
use kt_cells::writing::put_cell_list;
use kt_history::{Command, OpKind, OpList, OpRef, Write};
use kt_schema::Schema;
use std::alloc::Global;
use std::mem;

/// An operation as bytes spell it, in buffers that are filled anew for each operation of a script: the cells of its key,
/// the encoded key, and its other cells behind their count. Beside it the list of the operations of a line, which keeps its room.
#[derive(Drop)]
pub(crate) struct SpelledOp {
    pub(crate) kind: OpKind,
    key_cells: Vec<Cell>,
    pub(crate) key: Octets,
    pub(crate) cells: Tail,
    pub(crate) ops: OpList,
}

impl SpelledOp {
    /// Empty buffers, which take no memory yet.
    pub(crate) fn new(alloc: Global) -> SpelledOp {
        SpelledOp {
            kind: OpKind::Delete,
            key_cells: Vec::new(alloc),
            key: Octets::new(alloc),
            cells: Tail::of(Octets::new(alloc)),
            ops: OpList::new(alloc),
        }
    }

    /// The operation that is in the buffers.
    pub(crate) fn read(&self) -> OpRef<'_>
        requires { HasSpelling self.now }
        ensures { result ≡ spelled_op self.now }
    {
        OpRef::of(self.kind, self.key.as_slice(), self.cells.added())
    }
}

/// The command of a line: a write of the one operation that is in the buffers, or a command that is held.
#[derive(Drop)]
pub(crate) enum LineCommand {
    Lone,
    Held(Command),
}

// Adds named cells behind their count, unless a reason holds for which they do not count.
fn put_named(cells: Vec<(u16, Cell)>, out: &mut Tail, no: &Least) -> Result<(), NoMemory>
    requires { 17 < no.now → CellListFits cells.items }
    ensures { OnOk result (17 < no.now → out.new.added ≡ out.old.added ++ cell_list cells.items) }
{
    if no.is_above(17) {
        put_cell_list(out, &Cells::of(cells))?;
    }
    Ok(())
}

// A literal for each column, and no word more.
fn take_values<'a>(
    alloc: Global,
    schema: &Schema,
    rest: Option<&'a [u8]>,
    out: &mut Tail,
    no: &mut Least,
) -> Result<Option<&'a [u8]>, NoMemory>
    requires { IsTable schema.now }
    ensures cells { OnOk result (17 < no.new → out.new.added ≡ out.old.added ++ cell_list (rest_cells (other_columns schema.now) form.Literals (op_in rest.entry))) }
    ensures later { IfOk result (λ left. later_in left ≡ later_in rest.entry) }
    ensures least { OnOk result (no.new ≡ min no.old (rest_no (other_columns schema.now) form.Literals (op_in rest.entry))) }
{
    let left = put_others(alloc, schema.other_columns(), rest, out, no)?;
    no.note(left_no(left));
    Ok(left)
}

// The named cells of a row, none of which has to be named and is not.
fn take_row_names<'a>(
    alloc: Global,
    schema: &Schema,
    rest: Option<&'a [u8]>,
    out: &mut Tail,
    no: &mut Least,
) -> Result<Option<&'a [u8]>, NoMemory>
    requires { IsTable schema.now }
    ensures cells { OnOk result (17 < no.new → out.new.added ≡ out.old.added ++ cell_list (rest_cells (other_columns schema.now) form.RowNames (op_in rest.entry))) }
    ensures later { IfOk result (λ left. later_in left ≡ later_in rest.entry) }
    ensures least { OnOk result (no.new ≡ min no.old (rest_no (other_columns schema.now) form.RowNames (op_in rest.entry))) }
{
    let others = schema.other_columns();
    let TakenNames { names, cells, rest } = take_names(alloc, others, rest, no)?;
    no.note(left_out_no(others, &names));
    put_named(cells, out, no)?;
    Ok(rest)
}

// At least one named cell.
fn take_some_names<'a>(
    alloc: Global,
    schema: &Schema,
    rest: Option<&'a [u8]>,
    out: &mut Tail,
    no: &mut Least,
) -> Result<Option<&'a [u8]>, NoMemory>
    requires { IsTable schema.now }
    ensures cells { OnOk result (17 < no.new → out.new.added ≡ out.old.added ++ cell_list (rest_cells (other_columns schema.now) form.Names (op_in rest.entry))) }
    ensures later { IfOk result (λ left. later_in left ≡ later_in rest.entry) }
    ensures least { OnOk result (no.new ≡ min no.old (rest_no (other_columns schema.now) form.Names (op_in rest.entry))) }
{
    no.note(missing_no(rest));
    let TakenNames { cells, rest, .. } = take_names(alloc, schema.other_columns(), rest, no)?;
    put_named(cells, out, no)?;
    Ok(rest)
}

// Adds the cells behind a key. They count only where no reason up to 17 holds.
fn take_rest<'a>(
    alloc: Global,
    schema: &Schema,
    form: OpForm,
    rest: Option<&'a [u8]>,
    out: &mut Tail,
    no: &mut Least,
) -> Result<Option<&'a [u8]>, NoMemory>
    requires { IsTable schema.now }
    ensures cells { OnOk result (17 < no.new → out.new.added ≡ out.old.added ++ cell_list (rest_cells (other_columns schema.now) form (op_in rest.entry))) }
    ensures later { IfOk result (λ left. later_in left ≡ later_in rest.entry) }
    ensures least { OnOk result (no.new ≡ min no.old (rest_no (other_columns schema.now) form (op_in rest.entry))) }
{
    match form {
        OpForm::Literals => take_values(alloc, schema, rest, out, no),
        OpForm::RowNames => take_row_names(alloc, schema, rest, out, no),
        OpForm::Names => take_some_names(alloc, schema, rest, out, no),
        OpForm::Key => {
            no.note(left_no(rest));
            out.extend(&[0, 0])?;
            Ok(rest)
        }
    }
}

// The words of an operation behind its first. What is left behind its `;` is given, if it has one.
fn read_behind<'a>(
    alloc: Global,
    schema: &Schema,
    kind: OpKind,
    rest: Option<&'a [u8]>,
    op: &mut SpelledOp,
    no: &mut Least,
) -> Result<Option<Option<&'a [u8]>>, NoMemory>
    requires { IsTable schema.now }
    ensures list { op.new.ops ≡ op.old.ops }
    ensures op { OnOk result (17 < no.new → Spells op.new (op_said schema.now kind (op_form kind) (op_in rest.entry))) }
    ensures later { IfOk result (λ left. ops_in left ≡ later_in rest.entry) }
    ensures least { OnOk result (no.new ≡ min no.old (behind_no schema.now (op_form kind) (op_in rest.entry))) }
{
    op.kind = kind;
    op.cells.clear();
    let behind_key = take_key_into(alloc, schema, rest, &mut op.key_cells, &mut op.key, no)?;
    let left = take_rest(alloc, schema, op_form(kind), behind_key, &mut op.cells, no)?;
    Ok(behind_op(left))
}

// An operation, whose line is cut behind its first word. What is left behind its `;` is given, if it has one.
fn read_op<'a>(
    alloc: Global,
    schema: &Schema,
    cut: Option<(&'a [u8], Option<&'a [u8]>)>,
    op: &mut SpelledOp,
    no: &mut Least,
) -> Result<Option<Option<&'a [u8]>>, NoMemory>
    requires { IsTable schema.now }
    ensures list { op.new.ops ≡ op.old.ops }
    ensures op { OnOk result (17 < no.new → Spells op.new (op_of schema.now (first_op (words_cut cut.entry)))) }
    ensures later { IfOk result (λ left. ops_in left ≡ later_ops (words_cut cut.entry)) }
    ensures least { OnOk result (no.new ≡ min no.old (op_no schema.now (first_op (words_cut cut.entry)))) }
{
    let Some((word, behind)) = first_op_word(cut) else {
        no.note(Some(12));
        return Ok(behind_none(cut));
    };
    match op_kind(word) {
        Some(kind) => read_behind(alloc, schema, kind, behind, op, no),
        None => {
            no.note(Some(12));
            Ok(behind_op(behind))
        }
    }
}

// The same operations, with their line cut behind its first word.
fn cut_ops(left: Option<Option<&[u8]>>) -> Option<Option<(&[u8], Option<&[u8]>)>>
    ensures { ops_cut result ≡ ops_in left.entry }
{
    match left {
        Some(rest) => Some(next_word(rest)),
        None => None,
    }
}

// Adds the operation that is in the buffers to the list, if there is room for it. One that a reason up to 17 refuses is
// not added.
fn keep_op(op: &mut SpelledOp, no: &mut Least) -> Result<(), NoMemory>
    requires held { length op.old.ops ≤ 64 }
    requires fits { 17 < no.old → HasSpelling op.old }
    ensures least { OnOk result (no.new ≡ min no.old (reason_if (nat_lt 63 (length op.old.ops)) 18)) }
    ensures kept { OnOk result (18 < no.new → op.new.ops ≡ op.old.ops ++ spelled_op op.old ∷ []) }
    ensures room { OnOk result (17 < no.new → length op.new.ops ≡ min 64 (length op.old.ops + 1)) }
    ensures few { OnOk result (length op.new.ops ≤ 64) }
{
    if op.ops.len() >= OPERATIONS {
        no.note(Some(18));
        return Ok(());
    }
    no.note(None);
    if no.is_above(17) {
        op.ops
            .push(&OpRef::of(op.kind, op.key.as_slice(), op.cells.added()))
    } else {
        Ok(())
    }
}

// Reads the operations of a line that is cut behind its first word into the list. One that is alone stays in the buffers,
// which is told. They count only where no reason up to 18 holds.
fn add_ops(
    alloc: Global,
    schema: &Schema,
    first: Option<(&[u8], Option<&[u8]>)>,
    op: &mut SpelledOp,
    no: &mut Least,
) -> Result<bool, NoMemory>
    requires table { IsTable schema.now }
    requires none { op.old.ops ≡ [] }
    ensures spelled { IfOk result (λ lone. 17 < no.new → IsLineRead op.new lone) }
    ensures ops { IfOk result (λ lone. 18 < no.new → line_ops op.new lone ≡ map (op_of schema.now) (ops_of (words_cut first.entry))) }
    ensures least { OnOk result (no.new ≡ min no.old (min (ops_no schema.now (ops_of (words_cut first.entry))) (many_no 0 (ops_of (words_cut first.entry))))) }
{
    let mut left = Some(first);
    'ops: while let Some(cut) = left {
        let rest = read_op(alloc, schema, cut, op, no)?;
        if op.ops.is_empty() && rest.is_none() {
            no.note(None);
            return Ok(true);
        }
        keep_op(op, no)?;
        left = cut_ops(rest);
    }
    no.note(None);
    Ok(false)
}

// Whether an operation from a place on has this key.
fn has_key(ops: &OpList, from: usize, key: &[u8]) -> bool
    ensures { result ≡ list_any (λ (o : RowOp). same key.now o.key) (drop from ops.now) }
{
    'ops: for at in from..ops.len() {
        let op = ops.at(at);
        if key == op.key() {
            return true;
        }
    }
    false
}

fn is_below(key: &[u8], next: &[u8]) -> bool
    ensures { result ≡ is_lt (slice_cmp nat_cmp key.now next.now) }
{
    key.cmp(next).is_lt()
}

// Whether each key is above the one before it, so that none stands twice.
fn are_rising(ops: &OpList) -> bool
    ensures { IsTrue result → twice (map (λ (o : RowOp). o.key) ops.now) ≡ false }
{
    if ops.is_empty() {
        return true;
    }
    let first = ops.at(0);
    let mut last = first.key();
    'ops: for at in 1..ops.len() {
        let op = ops.at(at);
        let key = op.key();
        if !is_below(last, key) {
            return false;
        }
        last = key;
    }
    true
}

// The number that the first eight bytes of a key spell, if it has so many.
fn front_of(key: &[u8]) -> Option<u64>
    ensures { IfSome result (λ n. n ≡ front key.now) }
{
    match key.first_chunk::<8>() {
        Some(front) => Some(u64::from_be_bytes(*front)),
        None => None,
    }
}

// Whether the first eight bytes of each key are above those of the key before it, so that none stands twice.
fn have_rising_fronts(ops: &OpList) -> bool
    ensures { IsTrue result → twice (map (λ (o : RowOp). o.key) ops.now) ≡ false }
{
    if ops.is_empty() {
        return true;
    }
    let Some(first) = front_of(ops.at(0).key()) else {
        return false;
    };
    let mut last = first;
    'ops: for at in 1..ops.len() {
        let Some(front) = front_of(ops.at(at).key()) else {
            return false;
        };
        if front <= last {
            return false;
        }
        last = front;
    }
    true
}

// Whether two operations have one key, by each two of them.
fn is_twice_among(ops: &OpList) -> bool
    ensures { result ≡ twice (map (λ (o : RowOp). o.key) ops.now) }
{
    'ops: for at in 0..ops.len() {
        let op = ops.at(at);
        if has_key(ops, at + 1, op.key()) {
            return true;
        }
    }
    false
}

// Whether two operations have one key.
fn is_twice(ops: &OpList) -> bool
    ensures { result ≡ twice (map (λ (o : RowOp). o.key) ops.now) }
{
    let few = ops.len() < 2;
    if few {
        return false;
    }
    !have_rising_fronts(ops) && !are_rising(ops) && is_twice_among(ops)
}

fn twice_no(ops: &OpList) -> Option<u8>
    ensures { no_of result ≡ reason_if (twice (map (λ (o : RowOp). o.key) ops.now)) 19 }
{
    if is_twice(ops) { Some(19) } else { None }
}

// Why operations of a line are refused of which two have one key.
fn line_twice_no(op: &SpelledOp, lone: bool) -> Option<u8>
    ensures { no_of result ≡ reason_if (twice (map (λ (o : RowOp). o.key) (line_ops op.now lone))) 19 }
{
    if lone { None } else { twice_no(&op.ops) }
}

// Takes the command of a line out of the buffers and the list, where one operation alone is in the buffers.
fn take_command(alloc: Global, op: &mut SpelledOp, lone: bool) -> LineCommand
    requires { IsLineRead op.old lone }
    ensures command { line_command op.new result ≡ command.Write (record { ops = line_ops op.old lone }) }
    ensures spelled { IsLine op.new result }
{
    if lone {
        return LineCommand::Lone;
    }
    let ops = mem::replace(&mut op.ops, OpList::new(alloc));
    LineCommand::Held(Command::Write(Write { ops }))
}

/// The write of a line of a script, cut behind its first word. The buffers are for its operations.
pub(crate) fn read_write(
    alloc: Global,
    schema: &Schema,
    first: Option<(&[u8], Option<&[u8]>)>,
    op: &mut SpelledOp,
) -> Result<LineCommand, LineNo>
    requires { IsTable schema.now }
    ensures { ReadsLine (write_no schema.now (words_cut first.entry)) (command.Write (record { ops = write_of schema.now (words_cut first.entry) })) op.new result }
{
    let mut no = Least::none();
    op.ops.clear(alloc);
    let Ok(lone) = add_ops(alloc, schema, first, op, &mut no) else {
        return Err(LineNo::Memory);
    };
    no.note(line_twice_no(op, lone));
    match no.reason() {
        Some(reason) => Err(LineNo::Reason(reason)),
        None => Ok(take_command(alloc, op, lone)),
    }
}
