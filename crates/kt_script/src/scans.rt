//! Scan lines.

ghost use Rattle.std.specs.Prelude.{◌≡◌, ◌<◌, ◌≤◌, ◌++◌, ◌∷◌, [], min, length, Some, None, IfOk, OnOk};
ghost use Rattle.std.specs.Option.{option_to_list};
ghost use Rattle.kt_base.specs.declared.cell.Kind.TheVariants.{Bool};
ghost use Rattle.kt_base.specs.Literals.{cell_in};
ghost use Rattle.kt_script.specs.Pieces.{cut, words_in};
ghost use Rattle.kt_script.specs.Reasons.{sound};
ghost use Rattle.kt_script.specs.Writes.{column_named, names_now, again_no};
ghost use Rattle.kt_script.specs.Scans.{asked_view, asked_no, literal_reason, pred_of, preds_in, tests_in, where_line, select_line, given, name_no, names_no, id_of, ids_of, IsMade, ReadsPreds, ReadsLine, ReadsTimed, ReadsScan};

use crate::asked::{Question, read_test};
use crate::columns::LineNo;
use crate::least::Least;
use crate::named::again_no;
use crate::names::{cut_name, find_column};
use crate::test_words::next_test;
use crate::times::{Time, read_time};
use crate::vector::push;
use crate::word::{is_word, next_word};
use kt_base::literal::{LiteralNo, read_literal};
use kt_base::{Kind, NoMemory};
use kt_history::{At, ColumnIds, Pred, PredList, Scan};
use kt_schema::{Column, Schema, is_name};
use std::alloc::Global;

// Notes a text that is no literal of any kind, or null.
fn note_literal(alloc: Global, text: &[u8], no: &mut Least) -> Result<(), NoMemory>
    ensures { OnOk result (no.new ≡ min no.old (literal_reason (cell_in Bool text.now))) }
{
    match read_literal(alloc, text, Kind::Bool) {
        Err(LiteralNo::Memory) => return Err(NoMemory),
        Err(LiteralNo::Form) => no.note(Some(12)),
        Err(LiteralNo::Null) => no.note(Some(12)),
        _ => no.note(None),
    }
    Ok(())
}

// Notes a test of a column that is not there.
fn note_missing(alloc: Global, question: Question<'_>, no: &mut Least) -> Result<(), NoMemory>
    ensures { OnOk result (no.new ≡ min no.old (asked_no None (asked_view question.entry))) }
{
    no.note(Some(13));
    match question {
        Question::Compared(_, literal) => note_literal(alloc, literal, no),
        Question::Null => Ok(()),
        Question::NotNull => Ok(()),
    }
}

// One test more, if its column is there.
fn read_pred(
    alloc: Global,
    columns: &[Column],
    name: &[u8],
    question: Question<'_>,
    preds: &mut Vec<Pred>,
    no: &mut Least,
) -> Result<(), NoMemory>
    ensures preds { OnOk result (preds.new.items ≡ preds.old.items ++ option_to_list (pred_of (column_named columns.now name.now) (asked_view question.entry))) }
    ensures least { OnOk result (no.new ≡ min no.old (asked_no (column_named columns.now name.now) (asked_view question.entry))) }
{
    let Some(column) = find_column(columns, name) else {
        return note_missing(alloc, question, no);
    };
    let test = read_test(alloc, column, question, no)?;
    push(
        preds,
        Pred {
            column: column.id,
            test,
        },
    )
}

// The tests that all words say, with `and` between them.
fn read_preds(
    alloc: Global,
    columns: &[Column],
    line: Option<&[u8]>,
    no: &mut Least,
) -> Result<Option<PredList>, NoMemory>
    requires { no.old ≤ sound }
    ensures { IfOk result (λ preds. ReadsPreds columns.now no.old no.new (preds_in (length (words_in line.entry)) (words_in line.entry)) preds) }
{
    let mut preds = Vec::new(alloc);
    let mut rest = line;
    'tests: while let Some(taken) = next_test(rest) {
        read_pred(alloc, columns, taken.name, taken.question, &mut preds, no)?;
        let Some((word, behind)) = next_word(taken.rest) else {
            return Ok(Some(PredList::of(preds)));
        };
        if !is_word(word, b"and") {
            return Ok(None);
        }
        rest = behind;
    }
    Ok(None)
}

// The tests at the end of a line, which may have none.
fn read_tests(
    alloc: Global,
    columns: &[Column],
    line: Option<&[u8]>,
    no: &mut Least,
) -> Result<Option<PredList>, NoMemory>
    requires { no.old ≤ sound }
    ensures { IfOk result (λ preds. ReadsPreds columns.now no.old no.new (tests_in (words_in line.entry)) preds) }
{
    let Some((word, rest)) = next_word(line) else {
        return Ok(Some(PredList::of(Vec::new(alloc))));
    };
    if is_word(word, b"where") {
        read_preds(alloc, columns, rest, no)
    } else {
        Ok(None)
    }
}

// One selected name more. Nothing is kept once a reason holds that no later name can change.
fn read_name<'a>(
    columns: &[Column],
    name: &'a [u8],
    seen: &mut Vec<&'a [u8]>,
    ids: &mut Vec<u16>,
    no: &mut Least,
) -> Result<(), NoMemory>
    ensures seen { OnOk result (13 < no.new → names_now seen.new.items ≡ names_now seen.old.items ++ name.now ∷ []) }
    ensures ids { OnOk result (13 < no.new → ids.new.items ≡ ids.old.items ++ option_to_list (id_of (column_named columns.now name.now))) }
    ensures least { OnOk result (no.new ≡ min no.old (min (name_no columns.now name.now) (again_no (names_now seen.old.items) name.now))) }
{
    no.note(again_no(seen, name));
    if !is_name(name) {
        no.note(Some(12));
        return Ok(());
    }
    let Some(column) = find_column(columns, name) else {
        no.note(Some(13));
        return Ok(());
    };
    if no.is_above(13) {
        seen.push(name)?;
        ids.push(column.id)?;
    }
    Ok(())
}

// The ids of selected columns. They count only where no reason holds.
fn read_names(
    alloc: Global,
    columns: &[Column],
    text: &[u8],
    no: &mut Least,
) -> Result<ColumnIds, NoMemory>
    requires { no.old ≤ sound }
    ensures ids { IfOk result (λ ids. no.new ≡ sound → ids ≡ ids_of columns.now (cut 44 text.now)) }
    ensures least { OnOk result (no.new ≡ min no.old (names_no columns.now [] (cut 44 text.now))) }
{
    let mut seen = Vec::new(alloc);
    let mut ids = Vec::new(alloc);
    let mut rest = Some(text);
    'names: while let Some(names) = rest {
        let (name, behind) = cut_name(names);
        read_name(columns, name, &mut seen, &mut ids, no)?;
        rest = behind;
    }
    Ok(ColumnIds::of(ids))
}

// The scan of a time, a selection and tests, unless a reason holds.
fn make_scan(
    at: At,
    columns: Option<ColumnIds>,
    preds: PredList,
    no: &Least,
) -> Result<Scan, LineNo>
    ensures { IsMade at columns preds no.now result }
{
    match no.reason() {
        Some(reason) => Err(LineNo::Reason(reason)),
        None => Ok(Scan { at, columns, preds }),
    }
}

// Behind `select`.
fn read_selected(
    alloc: Global,
    columns: &[Column],
    at: At,
    names: &[u8],
    rest: Option<&[u8]>,
) -> Result<Scan, LineNo>
    ensures { ReadsLine columns.now at (where_line (Some (cut 44 names.now)) (words_in rest.entry)) result }
{
    let mut no = Least::none();
    let Ok(ids) = read_names(alloc, columns, names, &mut no) else {
        return Err(LineNo::Memory);
    };
    match read_tests(alloc, columns, rest, &mut no) {
        Ok(Some(preds)) => make_scan(at, Some(ids), preds, &no),
        Ok(None) => Err(LineNo::Reason(12)),
        Err(NoMemory) => Err(LineNo::Memory),
    }
}

// Every column is shown.
fn read_whole(
    alloc: Global,
    columns: &[Column],
    at: At,
    rest: Option<&[u8]>,
) -> Result<Scan, LineNo>
    ensures { ReadsLine columns.now at (where_line None (words_in rest.entry)) result }
{
    let mut no = Least::none();
    match read_tests(alloc, columns, rest, &mut no) {
        Ok(Some(preds)) => make_scan(at, None, preds, &no),
        Ok(None) => Err(LineNo::Reason(12)),
        Err(NoMemory) => Err(LineNo::Memory),
    }
}

// Behind the time of a scan.
fn read_select(
    alloc: Global,
    columns: &[Column],
    at: At,
    rest: Option<&[u8]>,
) -> Result<Scan, LineNo>
    ensures { ReadsLine columns.now at (select_line (words_in rest.entry)) result }
{
    let Some((word, behind)) = next_word(rest) else {
        return read_whole(alloc, columns, at, None);
    };
    if !is_word(word, b"select") {
        return read_whole(alloc, columns, at, rest);
    }
    let Some((names, behind)) = next_word(behind) else {
        return Err(LineNo::Reason(12));
    };
    read_selected(alloc, columns, at, names, behind)
}

// Behind `scan at`. A time that is too late is told where no lesser reason holds.
fn read_given(alloc: Global, columns: &[Column], rest: Option<&[u8]>) -> Result<Scan, LineNo>
    ensures { ReadsTimed columns.now (given (words_in rest.entry)) result }
{
    let Some((word, behind)) = next_word(rest) else {
        return Err(LineNo::Reason(12));
    };
    match read_time(word) {
        Time::Named(t) => read_select(alloc, columns, At::Given(t), behind),
        Time::TooLate => match read_select(alloc, columns, At::Looked, behind) {
            Ok(_) => Err(LineNo::Reason(20)),
            Err(LineNo::Reason(reason)) => Err(LineNo::Reason(reason.min(20))),
            Err(LineNo::Memory) => Err(LineNo::Memory),
        },
        Time::NoTime => Err(LineNo::Reason(12)),
    }
}

/// The scan of a line, from behind its word `scan` on, or the least reason for which it is refused.
pub fn read_scan(alloc: Global, schema: &Schema, line: Option<&[u8]>) -> Result<Scan, LineNo>
    ensures { ReadsScan schema.now (words_in line.entry) result }
{
    let Some((word, rest)) = next_word(line) else {
        return Err(LineNo::Reason(12));
    };
    if is_word(word, b"now") {
        read_select(alloc, schema.columns(), At::Looked, rest)
    } else if is_word(word, b"at") {
        read_given(alloc, schema.columns(), rest)
    } else {
        Err(LineNo::Reason(12))
    }
}
