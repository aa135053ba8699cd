//! The words of operations: each kind's first word, and how the words behind it stand.

ghost use Rattle.std.specs.Prelude.{◌≡◌};
ghost use Rattle.kt_script.specs.Writes.{op_kind, op_form};

use crate::word::is_word;
use kt_history::OpKind;

/// How the words of an operation stand behind its first.
#[derive(Clone, Copy)]
pub enum OpForm {
    /// A literal for each column.
    Literals,
    /// A key, and NAME=LIT of each column that has to be given, and of others.
    RowNames,
    /// A key, and NAME=LIT of at least one column.
    Names,
    /// A key alone.
    Key,
}

/// The kind of an operation by its first word.
pub fn op_kind(word: &[u8]) -> Option<OpKind>
    ensures { result ≡ op_kind word.now }
{
    if is_word(word, b"insert") {
        return Some(OpKind::Insert);
    }
    if is_word(word, b"upsert") {
        return Some(OpKind::Upsert);
    }
    if is_word(word, b"update") {
        return Some(OpKind::Update);
    }
    if is_word(word, b"delete") {
        return Some(OpKind::Delete);
    }
    if is_word(word, b"insert-ignore") {
        return Some(OpKind::InsertIgnore);
    }
    if is_word(word, b"update-ignore") {
        return Some(OpKind::UpdateIgnore);
    }
    if is_word(word, b"delete-ignore") {
        return Some(OpKind::DeleteIgnore);
    }
    None
}

/// The form of an operation of this kind. One that ignores has that of its plain kind.
pub fn op_form(kind: OpKind) -> OpForm
    ensures { result ≡ op_form kind }
{
    match kind {
        OpKind::Insert | OpKind::InsertIgnore => OpForm::Literals,
        OpKind::Upsert => OpForm::RowNames,
        OpKind::Update | OpKind::UpdateIgnore => OpForm::Names,
        OpKind::Delete | OpKind::DeleteIgnore => OpForm::Key,
    }
}
