//! The first word of a line below the columns, and the words of chores.

ghost use Rattle.std.specs.Prelude.{◌≡◌, ◌++◌, OnOk};
ghost use Rattle.kt_script.specs.Leads.{chore_word, chore_in, command_in, lead_in};

use crate::forms::op_kind;
use crate::word::is_word;
use kt_base::{Chore, NoMemory, Octets};
use kt_history::OpKind;

/// The first word of a command.
#[derive(Clone, Copy)]
pub enum Word {
    Scan,
    Mark,
    Chore(Chore),
    /// A write begins with the word of its first operation.
    Op(OpKind),
}

/// What a line below the columns begins.
#[derive(Clone, Copy)]
pub enum Lead {
    Session,
    /// A load stands in place of all sessions.
    Load,
    Command(Word),
}

/// The chore of a word.
pub fn chore_in(text: &[u8]) -> Option<Chore>
    ensures { result ≡ chore_in text.now }
{
    if is_word(text, b"flush") {
        Some(Chore::Flush)
    } else if is_word(text, b"flush-deltas") {
        Some(Chore::FlushDeltas)
    } else if is_word(text, b"minor") {
        Some(Chore::Minor)
    } else if is_word(text, b"major") {
        Some(Chore::Major)
    } else if is_word(text, b"compact") {
        Some(Chore::Compact)
    } else {
        None
    }
}

/// Appends the word of a chore.
pub fn print_chore(chore: Chore, out: &mut Octets) -> Result<(), NoMemory>
    ensures { OnOk result (out.new ≡ out.old ++ chore_word chore) }
{
    match chore {
        Chore::Flush => out.extend(b"flush"),
        Chore::FlushDeltas => out.extend(b"flush-deltas"),
        Chore::Minor => out.extend(b"minor"),
        Chore::Major => out.extend(b"major"),
        Chore::Compact => out.extend(b"compact"),
    }
}

fn command_in(text: &[u8]) -> Option<Word>
    ensures { result ≡ command_in text.now }
{
    if is_word(text, b"scan") {
        return Some(Word::Scan);
    }
    if is_word(text, b"mark") {
        return Some(Word::Mark);
    }
    match chore_in(text) {
        Some(chore) => Some(Word::Chore(chore)),
        None => match op_kind(text) {
            Some(kind) => Some(Word::Op(kind)),
            None => None,
        },
    }
}

/// What a line begins, by its first word. Most lines are writes, so that their words are looked for first.
pub fn lead_in(text: &[u8]) -> Option<Lead>
    ensures { result ≡ lead_in text.now }
{
    if let Some(kind) = op_kind(text) {
        return Some(Lead::Command(Word::Op(kind)));
    }
    if is_word(text, b"session") {
        return Some(Lead::Session);
    }
    if is_word(text, b"load") {
        return Some(Lead::Load);
    }
    match command_in(text) {
        Some(word) => Some(Lead::Command(word)),
        None => None,
    }
}
