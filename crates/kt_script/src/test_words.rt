//! The words of a test: a name with a sign and a literal, or a name with `is null` or `is not null`.

ghost use Rattle.std.specs.Prelude.{◌≡◌};
ghost use Rattle.std.specs.List.{position};
ghost use Rattle.std.specs.Option.{option_map};
ghost use Rattle.kt_script.specs.Pieces.{words_in};
ghost use Rattle.kt_script.specs.Writes.{is_sign, name_in, behind_name};
ghost use Rattle.kt_script.specs.Scans.{behind_word, asking_view, is_asked, null_asked, taken_view, pred_at};

use crate::asked::{Question, signed};
use crate::word::{is_word, next_word};
use kt_schema::is_name;

/// A test, and what is left of the line behind it.
#[derive(Clone, Copy)]
pub struct TakenTest<'a> {
    pub name: &'a [u8],
    pub question: Question<'a>,
    pub rest: Option<&'a [u8]>,
}

fn is_sign(byte: u8) -> bool
    ensures { result ≡ is_sign byte }
{
    byte == b'=' || (byte == b'<' || byte == b'>')
}

fn sign_at(word: &[u8]) -> Option<usize>
    ensures { result ≡ position is_sign word.now }
{
    word.iter().position(|byte| is_sign(*byte))
}

/// The bytes before the first sign, and those from it on.
pub fn cut_sign(word: &[u8]) -> (&[u8], &[u8])
    ensures name { result.0.now ≡ name_in word.now }
    ensures behind { result.1.now ≡ behind_name word.now }
{
    word.split_at(sign_at(word).unwrap_or(word.len()))
}

// What is left behind this word, if it stands first.
fn behind_word<'a>(rest: Option<&'a [u8]>, first: &[u8]) -> Option<Option<&'a [u8]>>
    ensures { option_map words_in result ≡ behind_word first.now (words_in rest.entry) }
{
    let (word, behind) = next_word(rest)?;
    if is_word(word, first) {
        Some(behind)
    } else {
        None
    }
}

// Behind `is`.
fn is_asked(rest: Option<&[u8]>) -> Option<(Question<'_>, Option<&[u8]>)>
    ensures { option_map asking_view result ≡ is_asked (words_in rest.entry) }
{
    if let Some(behind) = behind_word(rest, b"null") {
        return Some((Question::Null, behind));
    }
    let rest = behind_word(rest, b"not")?;
    let behind = behind_word(rest, b"null")?;
    Some((Question::NotNull, behind))
}

fn null_asked(rest: Option<&[u8]>) -> Option<(Question<'_>, Option<&[u8]>)>
    ensures { option_map asking_view result ≡ null_asked (words_in rest.entry) }
{
    is_asked(behind_word(rest, b"is")?)
}

/// The first test of what is left of a line.
pub fn next_test(rest: Option<&[u8]>) -> Option<TakenTest<'_>>
    ensures { option_map taken_view result ≡ pred_at (words_in rest.entry) }
{
    let (word, rest) = next_word(rest)?;
    let (name, behind) = cut_sign(word);
    if !is_name(name) {
        return None;
    }
    let (question, rest) = match signed(behind) {
        Some(question) => (question, rest),
        None => null_asked(rest)?,
    };
    Some(TakenTest {
        name,
        question,
        rest,
    })
}
