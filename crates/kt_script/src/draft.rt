//! The commands of a session as they are read.

ghost use Rattle.std.specs.Prelude.{◌≡◌, ◌≤◌, ◌++◌, ◌∷◌, [], List, length, take, map, IfOk, OnOk, OnErr};
ghost use Rattle.std.specs.List.{All};
ghost use Rattle.kt_history.specs.declared.command.Command.TheVariants as command;
ghost use Rattle.kt_history.specs.declared.operation.RowOp.{RowOp};
ghost use Rattle.kt_script.specs.Drafts.{command_in, IsInside};

use kt_base::NoMemory;
use kt_history::{Command, OpList, OpRef, Session, Write};
use std::alloc::Global;
use std::marker::Model;

// The most operations of a write that stand in the list of all. A write of more has a list of its own.
const FEW: usize = 4;

// So many bytes are enough for an operation of one number as its key and one as its cell.
const OP_BYTES: usize = 32;

// So many operations of a list, from a place on.
#[derive(Clone, Copy)]
struct Part {
    first: usize,
    len: usize,
}

// A write of few operations, or another command.
#[derive(Drop)]
enum Entry {
    Few(Part),
    Other(Box<Command>),
}

/// The commands of a session. The operations of small writes stand in one list, of which each owns a part in the end.
/// Contracts see the commands.
#[derive(Drop)]
pub(crate) struct Draft {
    alloc: Global,
    ops: OpList,
    entries: Vec<Entry>,
}

impl Model for Draft {
    ghost use Rattle.std.specs.Prelude.{List, map};
    ghost use Rattle.std.specs.List.{All};
    ghost use Rattle.kt_history.specs.declared.command.Command.{Command};
    ghost use Rattle.kt_script.specs.Drafts.{command_in, IsInside};

    ghost Value = { List Command };

    ghost view = { λ d. map (command_in d.ops) d.entries.items };

    ghost invariant = { λ d. All (IsInside d.ops) d.entries.items };
}

// Adds operations. Those before stay, also where there is no memory for all.
fn append(ops: &mut OpList, more: &OpList) -> Result<(), NoMemory>
    ensures ok { OnOk result (ops.new ≡ ops.old ++ more.now) }
    ensures front { take (length ops.old) ops.new ≡ ops.old }
{
    'ops: for at in 0..more.len() {
        let op = more.at(at);
        ops.push(&op)?;
    }
    Ok(())
}

fn other(alloc: Global, command: Command) -> Result<Entry, NoMemory>
    ensures inside { IfOk result (λ entry. (ops : List RowOp) → IsInside ops entry) }
    ensures command { IfOk result (λ entry. (ops : List RowOp) → command_in ops entry ≡ command) }
{
    match Box::new(alloc, command) {
        Ok(command) => Ok(Entry::Other(command)),
        Err(_) => Err(NoMemory),
    }
}

// The entry of a write with a list of its own.
fn long(alloc: Global, ops: &OpList) -> Result<Entry, NoMemory>
    ensures inside { IfOk result (λ entry. (all : List RowOp) → IsInside all entry) }
    ensures command { IfOk result (λ entry. (all : List RowOp) → command_in all entry ≡ command.Write (record { ops = ops.now })) }
{
    let ops = ops.copy()?.shared(alloc)?;
    other(alloc, Command::Write(Write { ops }))
}

// The entry of a write, whose operations are added to the list, if they are few, and else copied.
fn written(alloc: Global, ops: &mut OpList, more: &OpList) -> Result<Entry, NoMemory>
    ensures inside { IfOk result (λ entry. IsInside ops.new entry) }
    ensures command { IfOk result (λ entry. command_in ops.new entry ≡ command.Write (record { ops = more.now })) }
    ensures front { take (length ops.old) ops.new ≡ ops.old }
{
    let first = ops.len();
    let len = more.len();
    if len > FEW {
        return long(alloc, more);
    }
    append(ops, more)?;
    Ok(Entry::Few(Part { first, len }))
}

// The entry of a command. The list of a write is left for its room.
fn entry_of(
    alloc: Global,
    ops: &mut OpList,
    command: Command,
    spare: &mut OpList,
) -> Result<Entry, NoMemory>
    ensures inside { IfOk result (λ entry. IsInside ops.new entry) }
    ensures command { IfOk result (λ entry. command_in ops.new entry ≡ command) }
    ensures front { take (length ops.old) ops.new ≡ ops.old }
{
    match command {
        Command::Write(Write { ops: more }) => {
            let entry = written(alloc, ops, &more)?;
            *spare = more;
            Ok(entry)
        }
        command => other(alloc, command),
    }
}

fn command_of(alloc: Global, ops: &OpList, entry: Entry) -> Result<Command, NoMemory>
    requires { IsInside ops.now entry }
    ensures { IfOk result (λ command. command ≡ command_in ops.now entry) }
{
    match entry {
        Entry::Few(part) => {
            let ops = ops.part(alloc, part.first, part.len)?;
            Ok(Command::Write(Write { ops }))
        }
        Entry::Other(command) => Ok(Box::into_inner(command)),
    }
}

// The commands of some entries.
fn commands_of(alloc: Global, ops: &OpList, entries: Vec<Entry>) -> Result<Vec<Command>, NoMemory>
    requires { All (IsInside ops.now) entries.items }
    ensures { IfOk result (λ commands. commands.items ≡ map (command_in ops.now) entries.items) }
{
    let mut commands = Vec::with_capacity(alloc, entries.len())?;
    let mut left = entries.into_iter();
    'entries: while let Some(entry) = left.next() {
        commands.push(command_of(alloc, ops, entry)?)?;
    }
    Ok(commands)
}

impl Draft {
    /// No commands.
    pub(crate) fn new(alloc: Global) -> Draft
        ensures { result ≡ [] }
    {
        Draft {
            alloc,
            ops: OpList::new(alloc),
            entries: Vec::new(alloc),
        }
    }

    /// No commands, with room for so many writes of one operation and the commands between them.
    pub(crate) fn with_room(alloc: Global, writes: usize) -> Result<Draft, NoMemory>
        requires { writes ≤ 64000 }
        ensures { IfOk result (λ draft. draft ≡ []) }
    {
        Ok(Draft {
            alloc,
            ops: OpList::with_capacity(alloc, writes, writes * OP_BYTES)?,
            entries: Vec::with_capacity(alloc, writes + writes / 32)?,
        })
    }

    pub(crate) fn len(&self) -> usize
        ensures { result ≡ length self.now }
    {
        self.entries.len()
    }

    /// One command more. Without memory nothing is added. The list of a write is left for its room.
    pub(crate) fn push(&mut self, command: Command, spare: &mut OpList) -> Result<(), NoMemory>
        ensures ok { OnOk result (self.new ≡ self.old ++ command ∷ []) }
        ensures err { OnErr result (self.new ≡ self.old) }
    {
        let entry = entry_of(self.alloc, &mut self.ops, command, spare)?;
        self.entries.push(entry)?;
        Ok(())
    }

    /// A write of one operation more. Without memory nothing is added.
    pub(crate) fn push_lone(&mut self, op: &OpRef<'_>) -> Result<(), NoMemory>
        ensures ok { OnOk result (self.new ≡ self.old ++ command.Write (record { ops = op.now ∷ [] }) ∷ []) }
        ensures err { OnErr result (self.new ≡ self.old) }
    {
        let first = self.ops.len();
        self.ops.push(op)?;
        self.entries.push(Entry::Few(Part { first, len: 1 }))?;
        Ok(())
    }

    pub(crate) fn into_session(self) -> Result<Session, NoMemory>
        ensures { IfOk result (λ session. session ≡ self) }
    {
        let Draft {
            alloc,
            ops,
            entries,
        } = self;
        let shared = ops.shared(alloc)?;
        let commands = commands_of(alloc, &shared, entries)?;
        Ok(Session::of(commands))
    }
}
