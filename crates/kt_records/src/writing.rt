//! Spelling a record.
ghost use Rattle.std.specs.Prelude.{◌≡◌, ◌<◌, ◌^◌, ◌++◌, ◌∷◌, [], length, IfSome, OnOk, OnErr};
ghost use Rattle.std.specs.List.{flat_map};
ghost use Rattle.std.specs.Int.{w16, w64, to_le_bytes};
ghost use Rattle.kt_history.specs.declared.target.Target.TheVariants as stores;
ghost use Rattle.kt_records.specs.Spelling.{outcome as outcome_number, target as target_bytes, commit_row, head, listed, spelling};
ghost use Rattle.kt_records.specs.Rules.{EachAfter, RowFits, KeepsRules};

use crate::entry::{CommitRow, Entry};
use kt_base::{NoMemory, Octets};
use kt_cells::Tail;
use kt_history::{Outcome, Target};
use std::alloc::Global;
use std::mem;

fn number_of_outcome(outcome: Outcome) -> u8
    ensures { result ≡ outcome_number outcome }
{
    match outcome {
        Outcome::Done => 0,
        Outcome::Present => 1,
        Outcome::Absent => 2,
        Outcome::Ignored => 3,
    }
}

fn put_target(out: &mut Tail, target: &Target) -> Result<(), NoMemory>
    ensures front { out.new.front ≡ out.old.front }
    ensures ok { OnOk result (out.new.added ≡ out.old.added ++ target_bytes target.now) }
{
    match target {
        Target::Mem(number) => {
            out.push(1)?;
            out.extend(&number.to_le_bytes())
        }
        Target::Delta { rowset, dms } => {
            out.push(2)?;
            out.extend(&rowset.to_le_bytes())?;
            out.extend(&dms.to_le_bytes())?;
            Ok(())
        }
    }
}

fn put_targets(out: &mut Tail, targets: &[Target]) -> Result<(), NoMemory>
    ensures front { out.new.front ≡ out.old.front }
    ensures ok { OnOk result (out.new.added ≡ out.old.added ++ flat_map target_bytes targets.now) }
{
    'targets: for target in targets {
        put_target(out, target)?;
    }
    Ok(())
}

// A row of which one MemRowSet is told: its outcome, how many stores it changed, and that one.
fn row_in_mem(outcome: u8, number: u64) -> [u8; 11]
    ensures { result ≡ outcome ∷ 1 ∷ 1 ∷ to_le_bytes w64 number }
{
    let mut row = [1; 11];
    row[0] = outcome;
    row[3..].copy_from_slice(&number.to_le_bytes());
    row
}

fn put_row_in(out: &mut Tail, outcome: u8, targets: &[Target]) -> Result<(), NoMemory>
    requires { length targets.now < 2 ^ 8 }
    ensures front { out.new.front ≡ out.old.front }
    ensures ok { OnOk result (out.new.added ≡ out.old.added ++ outcome ∷ length targets.now ∷ flat_map target_bytes targets.now) }
{
    out.push(outcome)?;
    out.push(targets.len() as u8)?;
    put_targets(out, targets)
}

// The number of the MemRowSet, where that is the only store.
fn only_mem(targets: &[Target]) -> Option<u64>
    ensures { IfSome result (λ number. targets.now ≡ stores.Mem number ∷ []) }
{
    match targets {
        [Target::Mem(number)] => Some(*number),
        _ => None,
    }
}

fn put_row(out: &mut Tail, row: &CommitRow) -> Result<(), NoMemory>
    requires { length row.now.targets < 2 ^ 8 }
    ensures front { out.new.front ≡ out.old.front }
    ensures ok { OnOk result (out.new.added ≡ out.old.added ++ commit_row row.now) }
{
    let outcome = number_of_outcome(row.outcome);
    let targets = row.targets.as_slice();
    match only_mem(targets) {
        Some(number) => out.extend(&row_in_mem(outcome, number)),
        None => put_row_in(out, outcome, targets),
    }
}

fn put_rows(out: &mut Tail, rows: &[CommitRow]) -> Result<(), NoMemory>
    requires { EachAfter (λ front row. RowFits row) [] rows.now }
    ensures front { out.new.front ≡ out.old.front }
    ensures ok { OnOk result (out.new.added ≡ out.old.added ++ flat_map commit_row rows.now) }
{
    'rows: for row in rows {
        put_row(out, row)?;
    }
    Ok(())
}

// Which record it is, its timestamp, and how much it lists.
fn numbered(record1: u8, ts: u64, count: u16) -> [u8; 11]
    ensures { result ≡ record1 ∷ (to_le_bytes w64 ts ++ to_le_bytes w16 count) }
{
    let mut head = [record1; 11];
    head[1..9].copy_from_slice(&ts.to_le_bytes());
    head[9..].copy_from_slice(&count.to_le_bytes());
    head
}

// What stands in a record before what it lists.
fn head_of(entry: &Entry) -> [u8; 11]
    requires { KeepsRules entry.now }
    ensures { result ≡ head entry.now }
{
    match entry {
        Entry::Replicate { ts, ops } => numbered(1, *ts, ops.len() as u16),
        Entry::Commit { ts, rows } => numbered(2, *ts, rows.len() as u16),
    }
}

// Adds what a record lists.
fn put_listed(out: &mut Tail, entry: &Entry) -> Result<(), NoMemory>
    requires { KeepsRules entry.now }
    ensures front { out.new.front ≡ out.old.front }
    ensures ok { OnOk result (out.new.added ≡ out.old.added ++ listed entry.now) }
{
    match entry {
        Entry::Replicate { ops, .. } => out.extend(ops.as_bytes()),
        Entry::Commit { rows, .. } => put_rows(out, rows.as_slice()),
    }
}

/// Adds a byte, room for a length of four bytes, which are zero, and a record as `spell` writes it, to what was added
/// to a tail. Without memory some of it may be added.
pub fn put_entry_behind(out: &mut Tail, gate: u8, entry: &Entry) -> Result<(), NoMemory>
    requires { KeepsRules entry.now }
    ensures front { out.new.front ≡ out.old.front }
    ensures ok { OnOk result (out.new.added ≡ out.old.added ++ gate ∷ 0 ∷ 0 ∷ 0 ∷ 0 ∷ spelling entry.now) }
{
    let mut head = [0; 16];
    head[0] = gate;
    head[5..].copy_from_slice(&head_of(entry));
    out.extend(&head)?;
    put_listed(out, entry)
}

// Adds a record.
fn put_entry(out: &mut Tail, entry: &Entry) -> Result<(), NoMemory>
    requires { KeepsRules entry.now }
    ensures front { out.new.front ≡ out.old.front }
    ensures ok { OnOk result (out.new.added ≡ out.old.added ++ spelling entry.now) }
{
    out.extend(&head_of(entry))?;
    put_listed(out, entry)
}

/// Appends the one spelling of a record. Without memory nothing is appended.
pub fn spell(alloc: Global, record1: &Entry, out: &mut Octets) -> Result<(), NoMemory>
    requires { KeepsRules record1.now }
    ensures ok { OnOk result (out.new ≡ out.old ++ spelling record1.now) }
    ensures err { OnErr result (out.new ≡ out.old) }
{
    let mut tail = Tail::of(mem::replace(out, Octets::new(alloc)));
    match put_entry(&mut tail, record1) {
        Ok(()) => {
            *out = tail.whole();
            Ok(())
        }
        Err(NoMemory) => {
            *out = tail.taken_back();
            Err(NoMemory)
        }
    }
}
