//! Lists behind their counts, read from the front of some bytes.
ghost use Rattle.std.specs.Prelude.{◌≡◌, ◌<◌, ◌≤◌, ◌++◌, ◌∷◌, [], ℕ, List, length, drop, true, IfOk, OnOk, OnErr};
ghost use Rattle.kt_records.specs.Rules.{may_list, may_change};
ghost use Rattle.kt_bytes.specs.Reading.{Gives, many_at};
ghost use Rattle.kt_cells.specs.Reading.{cells_behind};
ghost use Rattle.kt_cells.specs.Spelled.{SpellsCells};
ghost use Rattle.kt_records.specs.Rising.{AreBelow, LastIsTop};
ghost use Rattle.kt_history.specs.Spelled.{OpFits};
ghost use Rattle.kt_records.specs.Spelling.{operation};
ghost use Rattle.kt_records.specs.Reading.{cell_list_at, operation_at, target_at, target_list_at, commit_row_at};

use crate::entry::{CommitRow, TargetList};
use crate::fields::{kind_of, new_key_of, outcome_of, target_of};
use crate::front::Front;
use crate::log_records::OpsRef;
use kt_base::NoMemory;
use kt_bytes::Stop;
use kt_bytes::fields::{fault_at, u16_at};
use kt_cells::lists::spelled_cells_of;
use kt_history::{OpKind, OpList, OpRef, Outcome};

fn lists(kind: OpKind, count: u16) -> bool
    ensures { result ≡ may_list kind count }
{
    match kind {
        OpKind::Delete | OpKind::DeleteIgnore => count == 0,
        _ => true,
    }
}

/// The bytes of the cells of an operation of this kind, behind their count.
#[tactic(auto, unfolding(crate::specs::Reading::cell_list_at))]
fn spelled_list_of(kind: OpKind, bytes: &[u8]) -> Result<(&[u8], &[u8]), Stop>
    ensures cells { Gives (λ x. (cells_behind x.0.now, x.1.now)) result (cell_list_at kind bytes.now) }
    ensures spelled { IfOk result (λ x. SpellsCells x.0.now) }
{
    let (count, _) = u16_at(bytes)?;
    if !lists(kind, count) {
        return fault_at(bytes);
    }
    spelled_cells_of(bytes)
}

/// An operation, where it lies.
#[tactic(auto, unfolding(crate::specs::Reading::operation_at))]
fn operation_of<'a>(front: &Front<'_>, bytes: &'a [u8]) -> Result<(OpRef<'a>, &'a [u8]), Stop>
    ensures { Gives (λ x. (x.0, x.1.now)) result (operation_at front.now bytes.now) }
{
    let (kind, rest) = kind_of(bytes)?;
    let (key, rest) = new_key_of(front, rest)?;
    let (cells, rest) = spelled_list_of(kind, rest)?;
    Ok((OpRef::of(kind, key, cells), rest))
}

// An operation, where it lies, on a key that none of those from `first` on has, and whether it is known that it is above theirs.
fn operation_behind<'a>(
    ops: &OpList,
    first: usize,
    rises: bool,
    bytes: &'a [u8],
) -> Result<(OpRef<'a>, bool, &'a [u8]), Stop>
    requires within { first ≤ length ops.now }
    requires rises { rises ≡ true → LastIsTop (drop first ops.now) }
    ensures read { Gives (λ x. (x.0, x.2.now)) result (operation_at (drop first ops.now) bytes.now) }
    ensures above { IfOk result (λ x. x.1 ≡ true → AreBelow (drop first ops.now) x.0.key) }
    ensures spelled { length (drop first ops.now) < 256 → IfOk result (λ x. bytes.now ≡ operation x.0 ++ x.2.now) }
    ensures fits { length (drop first ops.now) < 256 → IfOk result (λ x. OpFits x.0) }
{
    let front = Front::of(OpsRef::behind(ops, first), rises);
    let (op, rest) = operation_of(&front, bytes)?;
    let rises = front.rises_to(op.key());
    Ok((op, rises, rest))
}

// Adds an operation as it lies in front of other bytes.
fn keep(ops: &mut OpList, op: &OpRef<'_>, bytes: &[u8]) -> Result<(), NoMemory>
    requires spelled { (rest : List ℕ) × (bytes.now ≡ operation op.now ++ rest) }
    requires fits { OpFits op.now }
    ensures ok { OnOk result (ops.new ≡ ops.old ++ op.now ∷ []) }
    ensures err { OnErr result (ops.new ≡ ops.old) }
{
    let (spelled, _) = bytes.split_at(op.len());
    ops.push_spelled(spelled)
}

/// Adds so many operations on different keys behind others, and gives the bytes after them.
pub fn operations_into<'a>(ops: &mut OpList, count: u16, bytes: &'a [u8]) -> Result<&'a [u8], Stop>
    requires { count ≤ 64 }
    ensures read { Gives (λ rest. (drop (length ops.old) ops.new, rest.now)) result (many_at operation_at count [] bytes.now) }
    ensures front { ops.new ≡ ops.old ++ drop (length ops.old) ops.new }
{
    let first = ops.len();
    let mut rises = true;
    let mut rest = bytes;
    'ops: for _ in 0..count {
        let (op, above, after) = operation_behind(ops, first, rises, rest)?;
        keep(ops, &op, rest)?;
        rises = above;
        rest = after;
    }
    Ok(rest)
}

fn changes(outcome: Outcome, count: u8) -> bool
    ensures { result ≡ may_change outcome count }
{
    match outcome {
        Outcome::Done => count == 1 || count == 2,
        _ => count == 0,
    }
}

#[tactic(auto, unfolding(kt_bytes::specs::Reading::many_at))]
fn targets_of(count: u8, bytes: &[u8]) -> Result<(TargetList, &[u8]), Stop>
    requires { count < 3 }
    ensures { Gives (λ x. (x.0, x.1.now)) result (many_at (λ front. target_at) count [] bytes.now) }
{
    if count == 0 {
        return Ok((TargetList::none(), bytes));
    }
    let (first, rest) = target_of(bytes)?;
    if count == 1 {
        return Ok((TargetList::one(first), rest));
    }
    let (second, rest) = target_of(rest)?;
    Ok((TargetList::two(first, second), rest))
}

#[tactic(auto, unfolding(crate::specs::Reading::target_list_at))]
fn target_list_of(outcome: Outcome, bytes: &[u8]) -> Result<(TargetList, &[u8]), Stop>
    ensures { Gives (λ x. (x.0, x.1.now)) result (target_list_at outcome bytes.now) }
{
    match bytes {
        [] => Err(Stop::Left(0)),
        [count, rest @ ..] => {
            if !changes(outcome, *count) {
                return Err(Stop::Left(bytes.len()));
            }
            targets_of(*count, rest)
        }
    }
}

#[tactic(auto, unfolding(crate::specs::Reading::commit_row_at))]
fn commit_row_of(bytes: &[u8]) -> Result<(CommitRow, &[u8]), Stop>
    ensures { Gives (λ x. (x.0, x.1.now)) result (commit_row_at bytes.now) }
{
    let (outcome, rest) = outcome_of(bytes)?;
    let (targets, rest) = target_list_of(outcome, rest)?;
    Ok((CommitRow { outcome, targets }, rest))
}

/// Adds so many rows of a COMMIT behind others, and gives the bytes after them.
pub fn commit_rows_into<'a>(
    rows: &mut Vec<CommitRow>,
    count: u16,
    bytes: &'a [u8],
) -> Result<&'a [u8], Stop>
    ensures read { Gives (λ rest. (drop (length rows.old.items) rows.new.items, rest.now)) result (many_at (λ front. commit_row_at) count [] bytes.now) }
    ensures front { rows.new.items ≡ rows.old.items ++ drop (length rows.old.items) rows.new.items }
{
    let mut rest = bytes;
    'rows: for _ in 0..count {
        let (row, after) = commit_row_of(rest)?;
        rows.push(row)?;
        rest = after;
    }
    Ok(rest)
}
