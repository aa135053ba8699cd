//! Reading a record.
ghost use Rattle.std.specs.Prelude.{◌≡◌, ◌++◌, ℕ, List, length, drop, IfOk, IfErr, Ok};
ghost use Rattle.kt_history.specs.declared.operation.RowOp.{RowOp};
ghost use Rattle.kt_records.specs.declared.entry.CommitRow.{CommitRow};
ghost use Rattle.kt_records.specs.declared.entry.Entry.{Entry};
ghost use Rattle.kt_records.specs.Spelling.{spelling};
ghost use Rattle.kt_records.specs.Rules.{KeepsRules, may_hold};
ghost use Rattle.kt_bytes.specs.Places.{IsFault};
ghost use Rattle.kt_bytes.specs.Reading.{Gives, Fails, Answers, IfPlace};
ghost use Rattle.kt_records.specs.Fields.{Spelled};
ghost use Rattle.kt_records.specs.Reading.{replicate_at, commit_at, entry_at, whole_at, record_of};
ghost use Rattle.kt_records.specs.Shared.{read_as, entry_in, IsNewest, Tells, Adds};

use crate::entry::{CommitRow, CommitRows, Entry};
use crate::lists::{commit_rows_into, operations_into};
use crate::log_records::{Head, Kept, LogRecords};
use kt_bytes::fields::{fault_at, u16_at, u64_at};
use kt_bytes::{CodecNo, Stop};
use kt_history::OpList;
use std::alloc::Global;

fn holds(count: u16) -> bool
    ensures { result ≡ may_hold count }
{
    1 <= count && count <= 64
}

// A REPLICATE, whose operations are added to others.
#[tactic(auto, unfolding(crate::specs::Reading::replicate_at))]
fn replicate_into<'a>(ops: &mut OpList, bytes: &'a [u8]) -> Result<(Head, &'a [u8]), Stop>
    ensures read { (rows : List CommitRow) → Gives (λ x. (entry_in ops.new rows x.0, x.1.now)) result (replicate_at bytes.now) }
    ensures newest { (m : ℕ) (rows : List CommitRow) → IfOk result (λ x. IsNewest (length ops.old) m ops.new rows x.0) }
    ensures front { ops.new ≡ ops.old ++ drop (length ops.old) ops.new }
{
    let (ts, after) = u64_at(bytes)?;
    let (count, rest) = u16_at(after)?;
    if !holds(count) {
        return fault_at(after);
    }
    let first = ops.len();
    let rest = operations_into(ops, count, rest)?;
    let count = ops.len() - first;
    Ok((Head::Replicate { ts, first, count }, rest))
}

// A COMMIT, whose rows are added to others.
#[tactic(auto, unfolding(crate::specs::Reading::commit_at))]
fn commit_into<'a>(rows: &mut Vec<CommitRow>, bytes: &'a [u8]) -> Result<(Head, &'a [u8]), Stop>
    ensures read { (ops : List RowOp) → Gives (λ x. (entry_in ops rows.new.items x.0, x.1.now)) result (commit_at bytes.now) }
    ensures newest { (n : ℕ) (ops : List RowOp) → IfOk result (λ x. IsNewest n (length rows.old.items) ops rows.new.items x.0) }
    ensures front { rows.new.items ≡ rows.old.items ++ drop (length rows.old.items) rows.new.items }
{
    let (ts, rest) = u64_at(bytes)?;
    let (count, rest) = u16_at(rest)?;
    let first = rows.len();
    rows.reserve(usize::from(count).min(rest.len() / 2))?;
    let rest = commit_rows_into(rows, count, rest)?;
    let count = rows.len() - first;
    Ok((Head::Commit { ts, first, count }, rest))
}

// Which of the two records it is.
enum Which {
    Replicate,
    Commit,
}

#[tactic(auto, unfolding(crate::specs::Reading::entry_at))]
fn which_of(bytes: &[u8]) -> Result<(Which, &[u8]), Stop>
    ensures ok { IfOk result (λ x. entry_at bytes.now ≡ read_as x.0 x.1.now) }
    ensures err { IfErr result (λ e. Fails e (entry_at bytes.now)) }
{
    match bytes {
        [] => Err(Stop::Left(0)),
        [1, rest @ ..] => Ok((Which::Replicate, rest)),
        [2, rest @ ..] => Ok((Which::Commit, rest)),
        [_, ..] => Err(Stop::Left(bytes.len())),
    }
}

fn head_into<'a>(
    ops: &mut OpList,
    rows: &mut Vec<CommitRow>,
    bytes: &'a [u8],
) -> Result<(Head, &'a [u8]), Stop>
    ensures read { Gives (λ x. (entry_in ops.new rows.new.items x.0, x.1.now)) result (entry_at bytes.now) }
    ensures newest { IfOk result (λ x. IsNewest (length ops.old) (length rows.old.items) ops.new rows.new.items x.0) }
    ensures ops { ops.new ≡ ops.old ++ drop (length ops.old) ops.new }
    ensures rows { rows.new.items ≡ rows.old.items ++ drop (length rows.old.items) rows.new.items }
{
    match which_of(bytes) {
        Ok((Which::Replicate, rest)) => replicate_into(ops, rest),
        Ok((Which::Commit, rest)) => commit_into(rows, rest),
        Err(stop) => Err(stop),
    }
}

#[tactic(auto, unfolding(crate::specs::Reading::whole_at))]
fn whole_into(ops: &mut OpList, rows: &mut Vec<CommitRow>, bytes: &[u8]) -> Result<Head, Stop>
    ensures read { Gives (λ head. entry_in ops.new rows.new.items head) result (whole_at bytes.now) }
    ensures newest { IfOk result (λ head. IsNewest (length ops.old) (length rows.old.items) ops.new rows.new.items head) }
    ensures ops { ops.new ≡ ops.old ++ drop (length ops.old) ops.new }
    ensures rows { rows.new.items ≡ rows.old.items ++ drop (length rows.old.items) rows.new.items }
{
    let (head, rest) = head_into(ops, rows, bytes)?;
    if !rest.is_empty() {
        return Err(Stop::Left(rest.len()));
    }
    Ok(head)
}

// The record that the bytes spell, whose operations or rows are added to these.
fn record_into(ops: &mut OpList, rows: &mut Vec<CommitRow>, bytes: &[u8]) -> Result<Head, CodecNo>
    ensures read { Tells (entry_in ops.new rows.new.items) result (record_of bytes.now) }
    ensures newest { IfOk result (λ head. IsNewest (length ops.old) (length rows.old.items) ops.new rows.new.items head) }
    ensures ops { ops.new ≡ ops.old ++ drop (length ops.old) ops.new }
    ensures rows { rows.new.items ≡ rows.old.items ++ drop (length rows.old.items) rows.new.items }
{
    match whole_into(ops, rows, bytes) {
        Ok(head) => Ok(head),
        Err(stop) => Err(stop.among(bytes.len())),
    }
}

// The record of a head to which all of these belong.
fn only_entry(head: Head, ops: OpList, rows: Vec<CommitRow>) -> Entry
    requires { IsNewest 0 0 ops rows.items head }
    ensures { result ≡ entry_in ops rows.items head }
{
    match head {
        Head::Replicate { ts, .. } => Entry::Replicate { ts, ops },
        Head::Commit { ts, .. } => Entry::Commit {
            ts,
            rows: CommitRows::of(rows),
        },
    }
}

fn record_from(alloc: Global, bytes: &[u8]) -> Result<Entry, CodecNo>
    ensures { Answers result (record_of bytes.now) }
{
    let mut ops = OpList::new(alloc);
    let mut rows = Vec::new(alloc);
    match record_into(&mut ops, &mut rows, bytes) {
        Ok(head) => Ok(only_entry(head, ops, rows)),
        Err(no) => Err(no),
    }
}

/// The record that the bytes spell, all of the bytes.
pub fn read_record(alloc: Global, bytes: &[u8]) -> Result<Entry, CodecNo>
    // What is read keeps the rules and is spelled so.
    ensures found { IfOk result (λ entry. KeepsRules entry × (bytes.now ≡ spelling entry)) }
    // What is spelled so is read, unless memory runs out.
    ensures only { (entry : Entry) → KeepsRules entry → bytes.now ≡ spelling entry → Answers result (Ok entry) }
    // Where the first fault is: the spellings alone tell it.
    ensures place { IfPlace result (IsFault Spelled bytes.now) }
    // How the reader finds it.
    ensures exact { Answers result (record_of bytes.now) }
{
    record_from(alloc, bytes)
}

impl LogRecords {
    /// Adds the record that the bytes spell, all of the bytes. Where there is none, or no memory, the records stay as they
    /// are.
    pub fn read(&mut self, bytes: &[u8]) -> Result<(), CodecNo>
        ensures { Adds bytes.now self.old self.new result }
    {
        self.kept.reserve(1)?;
        match record_into(&mut self.ops, &mut self.rows, bytes) {
            Ok(head) => {
                let len = bytes.len();
                self.kept.push_reserved(Kept { head, len });
                Ok(())
            }
            Err(no) => Err(no),
        }
    }
}
