//! Fields of fixed length and keys, read from the front of some bytes.
//!
//! Each function gives the field and the bytes after it, or `Stop::Left` with how many bytes stand from the fault to the
//! end: none where bytes are missing, and all from the field's first byte on where the field is wrong.
ghost use Rattle.std.specs.Prelude.{◌≡◌, ◌<◌, ◌^◌, length, IfOk};
ghost use Rattle.std.specs.Int.{w16};
ghost use Rattle.kt_bytes.specs.Reading.{Gives, checked_at};
ghost use Rattle.kt_records.specs.Reading.{kind_at, is_key_len, new_key_at, outcome_at, target_at};

use crate::front::Front;
use kt_bytes::Stop;
use kt_bytes::fields::{fault_at, front_of, u16_at, u64_at};
use kt_history::{OpKind, Outcome, Target};

/// The byte of an operation's kind.
#[tactic(auto, unfolding(crate::specs::Reading::kind_at))]
pub fn kind_of(bytes: &[u8]) -> Result<(OpKind, &[u8]), Stop>
    ensures { Gives (λ x. (x.0, x.1.now)) result (kind_at bytes.now) }
{
    match bytes {
        [] => Err(Stop::Left(0)),
        [1, rest @ ..] => Ok((OpKind::Insert, rest)),
        [2, rest @ ..] => Ok((OpKind::Upsert, rest)),
        [3, rest @ ..] => Ok((OpKind::Update, rest)),
        [4, rest @ ..] => Ok((OpKind::Delete, rest)),
        [5, rest @ ..] => Ok((OpKind::InsertIgnore, rest)),
        [6, rest @ ..] => Ok((OpKind::UpdateIgnore, rest)),
        [7, rest @ ..] => Ok((OpKind::DeleteIgnore, rest)),
        [_, ..] => Err(Stop::Left(bytes.len())),
    }
}

/// The length of a key that can stand behind these operations.
fn is_key_len(front: &Front<'_>, len: u16) -> bool
    ensures { result ≡ is_key_len front.now len }
{
    len != 0 || !front.has(&[])
}

fn key_len_of<'a>(front: &Front<'_>, bytes: &'a [u8]) -> Result<(u16, &'a [u8]), Stop>
    ensures { Gives (λ x. (x.0, x.1.now)) result (checked_at w16 (is_key_len front.now) bytes.now) }
{
    let (len, rest) = u16_at(bytes)?;
    if is_key_len(front, len) {
        Ok((len, rest))
    } else {
        fault_at(bytes)
    }
}

/// A key behind its length, which none of the operations in front has.
#[tactic(auto, unfolding(crate::specs::Reading::new_key_at))]
pub fn new_key_of<'a>(front: &Front<'_>, bytes: &'a [u8]) -> Result<(&'a [u8], &'a [u8]), Stop>
    ensures key { Gives (λ x. (x.0.now, x.1.now)) result (new_key_at front.now bytes.now) }
    ensures short { IfOk result (λ x. length x.0.now < 2 ^ 16) }
{
    let (len, rest) = key_len_of(front, bytes)?;
    let (key, after) = front_of(rest, len as usize)?;
    if front.has(key) {
        return fault_at(rest);
    }
    Ok((key, after))
}

/// The byte of an outcome.
#[tactic(auto, unfolding(crate::specs::Reading::outcome_at))]
pub fn outcome_of(bytes: &[u8]) -> Result<(Outcome, &[u8]), Stop>
    ensures { Gives (λ x. (x.0, x.1.now)) result (outcome_at bytes.now) }
{
    match bytes {
        [] => Err(Stop::Left(0)),
        [0, rest @ ..] => Ok((Outcome::Done, rest)),
        [1, rest @ ..] => Ok((Outcome::Present, rest)),
        [2, rest @ ..] => Ok((Outcome::Absent, rest)),
        [3, rest @ ..] => Ok((Outcome::Ignored, rest)),
        [_, ..] => Err(Stop::Left(bytes.len())),
    }
}

/// A store that a change went to.
#[tactic(auto, unfolding(crate::specs::Reading::target_at))]
pub fn target_of(bytes: &[u8]) -> Result<(Target, &[u8]), Stop>
    ensures { Gives (λ x. (x.0, x.1.now)) result (target_at bytes.now) }
{
    match bytes {
        [] => Err(Stop::Left(0)),
        [1, rest @ ..] => {
            let (number, rest) = u64_at(rest)?;
            Ok((Target::Mem(number), rest))
        }
        [2, rest @ ..] => {
            let (rowset, rest) = u64_at(rest)?;
            let (dms, rest) = u64_at(rest)?;
            Ok((Target::Delta { rowset, dms }, rest))
        }
        [_, ..] => Err(Stop::Left(bytes.len())),
    }
}
