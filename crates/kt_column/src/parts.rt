//! The parts of a block's bytes in front of its values.

ghost use Rattle.std.specs.Prelude.{◌≡◌, ◌≢◌, ◌<◌, ◌≤◌, ◌+◌, ◌++◌, ℕ, List, Bool, length, IfOk, IfErr, MatchOption};
ghost use Rattle.kt_column.specs.declared.form.Encoding.{Encoding};
ghost use Rattle.kt_column.specs.Forms.{is_nullable, code, MayUse};
ghost use Rattle.kt_column.specs.Nulls.{null_bytes};
ghost use Rattle.kt_column.specs.Reading.{IsOrMemory};
ghost use Rattle.kt_column.specs.Faults.{IsHead, IsHeadStop, FrontNulls, IsFrontStop, AreNullsFor};

use crate::errors::Stop;
use crate::form::{Encoding, Form};
use crate::nulls::{self, Nulls};
use std::alloc::Global;

/// The first fields of a block, and the bytes behind them.
#[derive(Clone, Copy)]
pub struct Head<'a> {
    pub encoding: Encoding,
    pub len: usize,
    pub rest: &'a [u8],
}

/// The encoding of a number.
fn encoding_of(number: u8) -> Option<Encoding>
    ensures { MatchOption result ((e : Encoding) → number ≢ code e) (λ e. number ≡ code e) }
{
    match number {
        1 => Some(Encoding::Plain),
        2 => Some(Encoding::RunLength),
        3 => Some(Encoding::Dictionary),
        4 => Some(Encoding::Prefix),
        _ => None,
    }
}

/// The encoding of a number, if the column may use it.
fn open_encoding(form: Form, number: u8) -> Option<Encoding>
    ensures { MatchOption result ((e : Encoding) → MayUse form e → number ≢ code e) (λ e. MayUse form e × (number ≡ code e)) }
{
    match encoding_of(number) {
        Some(encoding) if form.may_use(encoding) => Some(encoding),
        _ => None,
    }
}

/// The encoding and the length at the front.
pub fn read_head(form: Form, bytes: &[u8]) -> Result<Head<'_>, Stop>
    ensures found { IfOk result (λ h. IsHead form bytes.now h.encoding h.len h.rest.now) }
    ensures stop { IfErr result (IsHeadStop form bytes.now) }
    ensures long { IfOk result (λ h. length bytes.now ≡ 5 + length h.rest.now) }
{
    let [number, after @ ..] = bytes else {
        return Err(Stop::Fault { at: 0 });
    };
    let Some(encoding) = open_encoding(form, *number) else {
        return Err(Stop::Fault { at: 0 });
    };
    if after.len() < 4 {
        return Err(Stop::Fault { at: bytes.len() });
    }
    let (len, rest) = after.split_at(4);
    let len = u32::from_le_bytes([len[0], len[1], len[2], len[3]]) as usize;
    Ok(Head {
        encoding,
        len,
        rest,
    })
}

/// Which of n cells are null, where the column says so.
pub fn front_nulls(alloc: Global, form: Form, n: u32, part: &[u8]) -> Result<Nulls, Stop>
    requires { n ≤ 8192 }
    ensures found { IfOk result (FrontNulls form n part.now) }
    ensures only { (nulls : List Bool) (rest : List ℕ) → AreNullsFor (is_nullable form) n nulls → part.now ≡ null_bytes nulls ++ rest → IsOrMemory result nulls }
    ensures stop { IfErr result (IsFrontStop (is_nullable form) n part.now) }
{
    if form.is_nullable() {
        nulls::read(alloc, part, n)
    } else {
        Ok(Nulls::new(alloc))
    }
}
