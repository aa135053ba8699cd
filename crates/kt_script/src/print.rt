//! The one text of a script: the names of each operation stand in schema order.

ghost use Rattle.std.specs.Prelude.{◌≡◌, ◌++◌, ◌∷◌, [], OnOk, IfOk, map, drop, codes, All};
ghost use Rattle.std.specs.Fmt.{decimal};
ghost use Rattle.std.specs.List.{flat_map};
ghost use Rattle.std.specs.Option.{option_copied};
ghost use Rattle.kt_script.specs.Texts.{line, spaced, words, literals};
ghost use Rattle.kt_base.specs.Borrowed.{cell_in};
ghost use Rattle.kt_base.specs.Literals.{literal};
ghost use Rattle.kt_cells.specs.Borrowed.{cells_in_ref};
ghost use Rattle.kt_script.specs.Columns.{kind_word};
ghost use Rattle.kt_script.specs.Writes.{op_word};
ghost use Rattle.kt_script.specs.Fit.{column_of, PlanFits};
ghost use Rattle.kt_script.specs.Print.{default_words, mark_words, column_text, key_words, cell_word, cell_words, is_named, op_words, write_words, name_of, names_word, test_words, pred_words, at_words, select_words, where_words, scan_words, command_text, session_lines, script_text, IsKey, HasKeys, prints_are_read, loads_are_read};

use crate::forms::{OpForm, op_form};
use crate::leads::print_chore;
use crate::number::print_number;
use crate::script::Script;
use kt_base::literal::append_literal;
use kt_base::{Cell, CellRef, Kind, NoMemory, Octets};
use kt_cells::CellsRef;
use kt_history::{At, Command, OpKind, OpList, OpRef, Plan, Pred, Scan, Test};
use kt_key::decode_key;
use kt_schema::{Column, Schema};
use std::alloc::Global;

fn print_kind(kind: Kind, out: &mut Octets) -> Result<(), NoMemory>
    ensures ok { OnOk result (out.new ≡ out.old ++ 32 ∷ kind_word kind) }
{
    match kind {
        Kind::Bool => out.extend(b" bool"),
        Kind::Int8 => out.extend(b" int8"),
        Kind::Int16 => out.extend(b" int16"),
        Kind::Int32 => out.extend(b" int32"),
        Kind::Int64 => out.extend(b" int64"),
        Kind::String => out.extend(b" string"),
        Kind::Binary => out.extend(b" binary"),
    }
}

fn print_default(column: &Column, out: &mut Octets) -> Result<(), NoMemory>
    ensures ok { OnOk result (out.new ≡ out.old ++ flat_map spaced (default_words column.now.kind column.now.default)) }
{
    match &column.default {
        Some(cell) => {
            out.extend(b" default ")?;
            append_literal(CellRef::of(cell), column.kind, out)
        }
        None => Ok(()),
    }
}

fn print_marks(column: &Column, out: &mut Octets) -> Result<(), NoMemory>
    ensures ok { OnOk result (out.new ≡ out.old ++ flat_map spaced (mark_words column.now)) }
{
    if column.key {
        return out.extend(b" key");
    }
    if column.nullable {
        out.extend(b" nullable")?;
    }
    print_default(column, out)
}

fn print_column(column: &Column, out: &mut Octets) -> Result<(), NoMemory>
    ensures ok { OnOk result (out.new ≡ out.old ++ column_text column.now) }
{
    out.extend(b"column ")?;
    out.extend(column.name.as_slice())?;
    print_kind(column.kind, out)?;
    print_marks(column, out)?;
    out.push(b'\n')
}

fn print_columns(columns: &[Column], out: &mut Octets) -> Result<(), NoMemory>
    ensures ok { OnOk result (out.new ≡ out.old ++ flat_map column_text columns.now) }
{
    for column in columns {
        print_column(column, out)?;
    }
    Ok(())
}

// A space and a literal for each cell that has a kind.
fn print_literals(kinds: &[Kind], cells: &[Cell], out: &mut Octets) -> Result<(), NoMemory>
    ensures ok { OnOk result (out.new ≡ out.old ++ flat_map spaced (literals kinds.now cells.now)) }
{
    let mut left = kinds;
    for cell in cells {
        let Some((kind, behind)) = left.split_first() else {
            return Ok(());
        };
        out.push(b' ')?;
        append_literal(CellRef::of(cell), *kind, out)?;
        left = behind;
    }
    Ok(())
}

fn print_key(alloc: Global, schema: &Schema, key: &[u8], out: &mut Octets) -> Result<(), NoMemory>
    requires { IsKey schema.now key.now }
    ensures ok { OnOk result (out.new ≡ out.old ++ flat_map spaced (key_words schema.now key.now)) }
{
    let Some(cells) = decode_key(alloc, schema.key_kinds(), key)? else {
        unreachable!()
    };
    print_literals(schema.key_kinds(), cells.as_slice(), out)
}

fn print_cell(
    named: bool,
    column: &Column,
    cell: CellRef<'_>,
    out: &mut Octets,
) -> Result<(), NoMemory>
    ensures ok { OnOk result (out.new ≡ out.old ++ 32 ∷ cell_word named column.now (cell_in cell.entry)) }
{
    out.push(b' ')?;
    if named {
        out.extend(column.name.as_slice())?;
        out.push(b'=')?;
    }
    append_literal(cell, column.kind, out)
}

// A space and a word for each cell, under the column of its id.
fn print_cells(
    named: bool,
    columns: &[Column],
    cells: CellsRef<'_>,
    out: &mut Octets,
) -> Result<(), NoMemory>
    ensures ok { OnOk result (out.new ≡ out.old ++ flat_map spaced (cell_words named columns.now (cells_in_ref cells.entry))) }
{
    let mut left = cells;
    for column in columns {
        let Some(((id, cell), behind)) = left.split_first() else {
            return Ok(());
        };
        if column.id == id {
            print_cell(named, column, cell, out)?;
            left = behind;
        }
    }
    Ok(())
}

fn print_op_word(kind: OpKind, out: &mut Octets) -> Result<(), NoMemory>
    ensures ok { OnOk result (out.new ≡ out.old ++ op_word kind) }
{
    match kind {
        OpKind::Insert => out.extend(b"insert"),
        OpKind::Upsert => out.extend(b"upsert"),
        OpKind::Update => out.extend(b"update"),
        OpKind::Delete => out.extend(b"delete"),
        OpKind::InsertIgnore => out.extend(b"insert-ignore"),
        OpKind::UpdateIgnore => out.extend(b"update-ignore"),
        OpKind::DeleteIgnore => out.extend(b"delete-ignore"),
    }
}

fn is_named(kind: OpKind) -> bool
    ensures { result ≡ is_named kind }
{
    !matches!(op_form(kind), OpForm::Literals)
}

fn print_op(
    alloc: Global,
    schema: &Schema,
    op: &OpRef<'_>,
    out: &mut Octets,
) -> Result<(), NoMemory>
    requires { IsKey schema.now op.now.key }
    ensures ok { OnOk result (out.new ≡ out.old ++ words (op_words schema.now op.now)) }
{
    let kind = op.kind();
    print_op_word(kind, out)?;
    print_key(alloc, schema, op.key(), out)?;
    print_cells(is_named(kind), schema.other_columns(), op.cells(), out)
}

// Each operation behind the first, with a semicolon before it.
fn print_more_ops(
    alloc: Global,
    schema: &Schema,
    ops: &OpList,
    out: &mut Octets,
) -> Result<(), NoMemory>
    requires { All (λ o. IsKey schema.now o.key) ops.now }
    ensures ok { OnOk result (out.new ≡ out.old ++ flat_map spaced (flat_map (λ vs. codes ";" ∷ vs) (map (op_words schema.now) (drop 1 ops.now)))) }
{
    'ops: for at in 1..ops.len() {
        let op = ops.at(at);
        out.extend(b" ; ")?;
        print_op(alloc, schema, &op, out)?;
    }
    Ok(())
}

fn print_write(
    alloc: Global,
    schema: &Schema,
    ops: &OpList,
    out: &mut Octets,
) -> Result<(), NoMemory>
    requires { All (λ o. IsKey schema.now o.key) ops.now }
    ensures ok { OnOk result (out.new ≡ out.old ++ words (write_words schema.now ops.now)) }
{
    if ops.is_empty() {
        return Ok(());
    }
    let first = ops.at(0);
    print_op(alloc, schema, &first, out)?;
    print_more_ops(alloc, schema, ops, out)
}

// The column of an id.
fn column_of(columns: &[Column], id: u16) -> Option<&Column>
    ensures { option_copied result ≡ column_of columns.now id }
{
    let mut left = columns;
    while let Some((column, behind)) = left.split_first() {
        if column.id == id {
            return Some(column);
        }
        left = behind;
    }
    None
}

fn print_name(columns: &[Column], id: u16, out: &mut Octets) -> Result<(), NoMemory>
    ensures ok { OnOk result (out.new ≡ out.old ++ name_of (column_of columns.now id)) }
{
    match column_of(columns, id) {
        Some(column) => out.extend(column.name.as_slice()),
        None => Ok(()),
    }
}

// A comma and a name for each of these.
fn print_more_names(columns: &[Column], ids: &[u16], out: &mut Octets) -> Result<(), NoMemory>
    ensures ok { OnOk result (out.new ≡ out.old ++ flat_map (λ t. codes "," ++ t) (map (λ id. name_of (column_of columns.now id)) ids.now)) }
{
    for id in ids {
        out.push(b',')?;
        print_name(columns, *id, out)?;
    }
    Ok(())
}

fn print_names(columns: &[Column], ids: &[u16], out: &mut Octets) -> Result<(), NoMemory>
    ensures ok { OnOk result (out.new ≡ out.old ++ names_word columns.now ids.now) }
{
    match ids.split_first() {
        Some((first, others)) => {
            print_name(columns, *first, out)?;
            print_more_names(columns, others, out)
        }
        None => Ok(()),
    }
}

// A space, and a comparison of a column.
fn print_compared(
    column: &Column,
    sign: &[u8],
    cell: &Cell,
    out: &mut Octets,
) -> Result<(), NoMemory>
    ensures ok { OnOk result (out.new ≡ out.old ++ 32 ∷ (column.now.name ++ (sign.now ++ literal column.now.kind cell.now))) }
{
    out.push(b' ')?;
    out.extend(column.name.as_slice())?;
    out.extend(sign)?;
    append_literal(CellRef::of(cell), column.kind, out)
}

fn print_null(column: &Column, words: &[u8], out: &mut Octets) -> Result<(), NoMemory>
    ensures ok { OnOk result (out.new ≡ out.old ++ 32 ∷ (column.now.name ++ words.now)) }
{
    out.push(b' ')?;
    out.extend(column.name.as_slice())?;
    out.extend(words)
}

// A space and a word for each word of a test.
fn print_test(column: &Column, test: &Test, out: &mut Octets) -> Result<(), NoMemory>
    ensures ok { OnOk result (out.new ≡ out.old ++ flat_map spaced (test_words column.now test.now)) }
{
    match test {
        Test::Eq(cell) => print_compared(column, b"=", cell, out),
        Test::Lt(cell) => print_compared(column, b"<", cell, out),
        Test::Le(cell) => print_compared(column, b"<=", cell, out),
        Test::Gt(cell) => print_compared(column, b">", cell, out),
        Test::Ge(cell) => print_compared(column, b">=", cell, out),
        Test::IsNull => print_null(column, b" is null", out),
        Test::NotNull => print_null(column, b" is not null", out),
    }
}

fn print_pred(columns: &[Column], pred: &Pred, out: &mut Octets) -> Result<(), NoMemory>
    ensures ok { OnOk result (out.new ≡ out.old ++ flat_map spaced (pred_words columns.now pred.now)) }
{
    match column_of(columns, pred.column) {
        Some(column) => print_test(column, &pred.test, out),
        None => Ok(()),
    }
}

fn print_at(at: At, out: &mut Octets) -> Result<(), NoMemory>
    ensures ok { OnOk result (out.new ≡ out.old ++ flat_map spaced (at_words at)) }
{
    match at {
        At::Looked => out.extend(b" now"),
        At::Given(t) => {
            out.extend(b" at ")?;
            print_number(t, out)
        }
    }
}

fn print_select(columns: &[Column], scan: &Scan, out: &mut Octets) -> Result<(), NoMemory>
    ensures ok { OnOk result (out.new ≡ out.old ++ flat_map spaced (select_words columns.now scan.now.columns)) }
{
    match &scan.columns {
        Some(ids) => {
            out.extend(b" select ")?;
            print_names(columns, ids.as_slice(), out)
        }
        None => Ok(()),
    }
}

fn print_more_preds(columns: &[Column], preds: &[Pred], out: &mut Octets) -> Result<(), NoMemory>
    ensures ok { OnOk result (out.new ≡ out.old ++ flat_map spaced (flat_map (λ vs. codes "and" ∷ vs) (map (pred_words columns.now) preds.now))) }
{
    for pred in preds {
        out.extend(b" and")?;
        print_pred(columns, pred, out)?;
    }
    Ok(())
}

fn print_where(columns: &[Column], preds: &[Pred], out: &mut Octets) -> Result<(), NoMemory>
    ensures ok { OnOk result (out.new ≡ out.old ++ flat_map spaced (where_words columns.now preds.now)) }
{
    match preds.split_first() {
        Some((first, others)) => {
            out.extend(b" where")?;
            print_pred(columns, first, out)?;
            print_more_preds(columns, others, out)
        }
        None => Ok(()),
    }
}

fn print_scan(columns: &[Column], scan: &Scan, out: &mut Octets) -> Result<(), NoMemory>
    ensures ok { OnOk result (out.new ≡ out.old ++ words (scan_words columns.now scan.now)) }
{
    out.extend(b"scan")?;
    print_at(scan.at, out)?;
    print_select(columns, scan, out)?;
    print_where(columns, scan.preds.as_slice(), out)
}

fn print_mark(t: u64, out: &mut Octets) -> Result<(), NoMemory>
    ensures ok { OnOk result (out.new ≡ out.old ++ words (codes "mark" ∷ decimal t ∷ [])) }
{
    out.extend(b"mark ")?;
    print_number(t, out)
}

fn print_command(
    alloc: Global,
    schema: &Schema,
    command: &Command,
    out: &mut Octets,
) -> Result<(), NoMemory>
    requires { HasKeys schema.now command.now }
    ensures ok { OnOk result (out.new ≡ out.old ++ command_text schema.now command.now) }
{
    match command {
        Command::Write(write) => print_write(alloc, schema, &write.ops, out),
        Command::Scan(scan) => print_scan(schema.columns(), scan, out),
        Command::Mark(t) => print_mark(*t, out),
        Command::Chore(chore) => print_chore(*chore, out),
    }
}

fn print_commands(
    alloc: Global,
    schema: &Schema,
    commands: &[Command],
    out: &mut Octets,
) -> Result<(), NoMemory>
    requires { All (HasKeys schema.now) commands.now }
    ensures ok { OnOk result (out.new ≡ out.old ++ session_lines schema.now commands.now) }
{
    out.extend(b"session\n")?;
    for command in commands {
        print_command(alloc, schema, command, out)?;
        out.push(b'\n')?;
    }
    Ok(())
}

fn print_plan(alloc: Global, schema: &Schema, plan: &Plan, out: &mut Octets) -> Result<(), NoMemory>
    requires { All (All (HasKeys schema.now)) plan.now }
    ensures ok { OnOk result (out.new ≡ out.old ++ flat_map (session_lines schema.now) plan.now) }
{
    for session in plan.as_slice() {
        print_commands(alloc, schema, session.as_slice(), out)?;
    }
    Ok(())
}

fn print_load(count: u32, out: &mut Octets) -> Result<(), NoMemory>
    ensures ok { OnOk result (out.new ≡ out.old ++ line (words (codes "load" ∷ decimal count ∷ []))) }
{
    out.extend(b"load ")?;
    print_number(count as u64, out)?;
    out.push(b'\n')
}

/// The text of a script. A load is printed as its line.
pub fn print_script(alloc: Global, script: &Script) -> Result<Octets, NoMemory>
    requires { PlanFits script.now.schema script.now.plan }
    ensures { IfOk result (λ text. text ≡ script_text script.now.load (record { columns = script.now.schema; plan = script.now.plan })) }
{
    let mut text = Octets::new(alloc);
    text.extend(b"table\n")?;
    print_columns(script.schema.columns(), &mut text)?;
    match script.load {
        Some(count) => print_load(count, &mut text)?,
        None => print_plan(alloc, &script.schema, &script.plan, &mut text)?,
    }
    Ok(text)
}

/// The text of a script is read as that script, and that of a load as that load.
pub fn reading_law()
    ensures sessions { prints_are_read }
    ensures load { loads_are_read }
{}
