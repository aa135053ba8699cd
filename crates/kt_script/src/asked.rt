//! What a scan asks of a column: a comparison with a literal, or whether its cell is null.

ghost use Rattle.std.specs.Prelude.{◌≡◌, min, IfOk, OnOk};
ghost use Rattle.std.specs.Option.{option_map};
ghost use Rattle.kt_base.specs.Literals.{cell_in};
ghost use Rattle.kt_script.specs.Reasons.{no_of, cell_value};
ghost use Rattle.kt_script.specs.Scans.{or_equal, signed, asked_view, compared_reason, asked_no, test_of};

use crate::least::Least;
use kt_base::literal::{LiteralNo, read_literal};
use kt_base::{Cell, NoMemory};
use kt_history::Test;
use kt_schema::Column;
use std::alloc::Global;

/// How a cell is compared with a literal.
#[derive(Clone, Copy)]
pub enum Sign {
    Equal,
    Below,
    AtMost,
    Above,
    AtLeast,
}

/// What is asked of a column. A comparison has the text of its literal.
#[derive(Clone, Copy)]
pub enum Question<'a> {
    Compared(Sign, &'a [u8]),
    Null,
    NotNull,
}

// A sign that may have `=` behind it.
fn or_equal(strict: Sign, loose: Sign, rest: &[u8]) -> Question<'_>
    ensures { asked_view result ≡ or_equal strict loose rest.now }
{
    let Some((first, literal)) = rest.split_first() else {
        return Question::Compared(strict, rest);
    };
    if *first == b'=' {
        Question::Compared(loose, literal)
    } else {
        Question::Compared(strict, rest)
    }
}

/// The sign and the literal that stand behind a name.
pub fn signed(text: &[u8]) -> Option<Question<'_>>
    ensures { option_map asked_view result ≡ signed text.now }
{
    let (first, rest) = text.split_first()?;
    match *first {
        b'=' => Some(Question::Compared(Sign::Equal, rest)),
        b'<' => Some(or_equal(Sign::Below, Sign::AtMost, rest)),
        b'>' => Some(or_equal(Sign::Above, Sign::AtLeast, rest)),
        _ => None,
    }
}

// Null is not compared.
fn compared_reason(read: &Result<Cell, LiteralNo>) -> Option<u8>
    ensures { no_of result ≡ compared_reason read.now }
{
    match read {
        Ok(_) => None,
        Err(LiteralNo::Form) => Some(12),
        Err(LiteralNo::Null) => Some(12),
        Err(LiteralNo::Kind) => Some(14),
        Err(LiteralNo::Long) => Some(16),
        Err(LiteralNo::Memory) => None,
    }
}

fn read_compared(
    alloc: Global,
    column: &Column,
    text: &[u8],
    no: &mut Least,
) -> Result<Cell, NoMemory>
    ensures cell { IfOk result (λ cell. cell ≡ cell_value column.now.kind text.now) }
    ensures least { OnOk result (no.new ≡ min no.old (compared_reason (cell_in column.now.kind text.now))) }
{
    let read = read_literal(alloc, text, column.kind);
    no.note(compared_reason(&read));
    match read {
        Ok(cell) => Ok(cell),
        Err(LiteralNo::Memory) => Err(NoMemory),
        Err(LiteralNo::Form | LiteralNo::Null | LiteralNo::Kind | LiteralNo::Long) => Ok(
            Cell::Null,
        ),
    }
}

/// The test that a question is of a column, with null in place of a literal that is refused.
pub fn read_test(
    alloc: Global,
    column: &Column,
    question: Question<'_>,
    no: &mut Least,
) -> Result<Test, NoMemory>
    ensures test { IfOk result (λ test. test ≡ test_of column.now (asked_view question.entry)) }
    ensures least { OnOk result (no.new ≡ min no.old (asked_no (Some column.now) (asked_view question.entry))) }
{
    match question {
        Question::Null => {
            no.note(None);
            Ok(Test::IsNull)
        }
        Question::NotNull => {
            no.note(None);
            Ok(Test::NotNull)
        }
        Question::Compared(sign, literal) => {
            let cell = read_compared(alloc, column, literal, no)?;
            Ok(match sign {
                Sign::Equal => Test::Eq(cell),
                Sign::Below => Test::Lt(cell),
                Sign::AtMost => Test::Le(cell),
                Sign::Above => Test::Gt(cell),
                Sign::AtLeast => Test::Ge(cell),
            })
        }
    }
}
