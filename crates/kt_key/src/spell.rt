//! Making encoded keys.
ghost use Rattle.std.specs.Prelude.{◌≡◌, ◌+◌, ◌*◌, ◌^◌, ◌<◌, ◌≤◌, ◌++◌, ◌∷◌, [], length, take, IsTrue, IfOk, OnOk, OnErr};
ghost use Rattle.kt_base.specs.Keys.{escaped, number_key, width_of, half_of, raised};
ghost use Rattle.kt_key.specs.Fit.{in_range, is_key, has_kind};
ghost use Rattle.kt_key.specs.Spelling.{spelling, inner_spelling, last_spelling};

use crate::key_len;
use kt_base::{Cell, Kind, NoMemory, Octets, Row};
use memchr::memchr;
use std::alloc::Global;

// A number as a distance from the least one of its range.
fn raised(number: i64, half: u64) -> u64
    requires range { IsTrue (in_range half number) }
    requires small { half ≤ 2 ^ 63 }
    ensures value { result ≡ raised half number }
    ensures bound { result < 2 * half }
{
    (i128::from(number) + i128::from(half)) as u64
}

fn push_number(out: &mut Octets, kind: Kind, number: i64) -> Result<(), NoMemory>
    requires { IsTrue (in_range (half_of (width_of kind)) number) }
    ensures ok { OnOk result (out.new ≡ out.old ++ number_key (width_of kind) number) }
    ensures err { OnErr result (out.new ≡ out.old) }
{
    match kind {
        Kind::Int8 => out.push(raised(number, 1 << 7) as u8),
        Kind::Int16 => out.extend(&(raised(number, 1 << 15) as u16).to_be_bytes()),
        Kind::Int32 => out.extend(&(raised(number, 1 << 31) as u32).to_be_bytes()),
        _ => out.extend(&raised(number, 1 << 63).to_be_bytes()),
    }
}

// The text before a zero byte, and that byte as it is spelled.
fn push_run(out: &mut Octets, run: &[u8]) -> Result<(), NoMemory>
    ensures ok { OnOk result (out.new ≡ (out.old ++ run.now) ++ 0 ∷ 1 ∷ []) }
    ensures err { OnErr result (take (length out.old) out.new ≡ out.old) }
{
    out.extend(run)?;
    out.extend(&[0, 1])
}

fn push_end(out: &mut Octets, rest: &[u8]) -> Result<(), NoMemory>
    ensures ok { OnOk result (out.new ≡ (out.old ++ rest.now) ++ 0 ∷ 0 ∷ []) }
    ensures err { OnErr result (take (length out.old) out.new ≡ out.old) }
{
    out.extend(rest)?;
    out.extend(&[0, 0])
}

fn push_escaped(out: &mut Octets, text: &[u8]) -> Result<(), NoMemory>
    ensures ok { OnOk result (out.new ≡ out.old ++ escaped text.now) }
    ensures err { OnErr result (take (length out.old) out.new ≡ out.old) }
{
    let mut rest = text;
    while let Some(zero) = memchr(0, rest) {
        let (run, after) = rest.split_at(zero);
        push_run(out, run)?;
        let (_, behind) = after.split_at(1);
        rest = behind;
    }
    push_end(out, rest)
}

fn push_inner(out: &mut Octets, kind: Kind, cell: &Cell) -> Result<(), NoMemory>
    requires { IsTrue (has_kind kind cell.now) }
    ensures ok { OnOk result (out.new ≡ out.old ++ inner_spelling kind cell.now) }
    ensures err { OnErr result (take (length out.old) out.new ≡ out.old) }
{
    match cell {
        Cell::Int(number) => push_number(out, kind, *number),
        Cell::Bytes(text) => push_escaped(out, text.as_slice()),
        _ => Ok(()),
    }
}

fn push_last(out: &mut Octets, kind: Kind, cell: &Cell) -> Result<(), NoMemory>
    requires { IsTrue (has_kind kind cell.now) }
    ensures ok { OnOk result (out.new ≡ out.old ++ last_spelling kind cell.now) }
    ensures err { OnErr result (take (length out.old) out.new ≡ out.old) }
{
    match cell {
        Cell::Int(number) => push_number(out, kind, *number),
        Cell::Bytes(text) => out.extend(text.as_slice()),
        _ => Ok(()),
    }
}

/// Appends the encoded key of key cells, for key columns of these kinds. Without memory a part of it may stand at the end.
pub fn encode_key_into(kinds: &[Kind], cells: &[Cell], out: &mut Octets) -> Result<(), NoMemory>
    requires { IsTrue (is_key kinds.now cells.now) }
    ensures ok { OnOk result (out.new ≡ out.old ++ spelling kinds.now cells.now) }
    ensures err { OnErr result (take (length out.old) out.new ≡ out.old) }
{
    if kinds.is_empty() {
        return Ok(());
    }
    let last = kinds.len() - 1;
    for at in 0..last {
        push_inner(out, kinds[at], &cells[at])?;
    }
    push_last(out, kinds[last], &cells[last])
}

/// The encoded key of key cells, for key columns of these kinds.
pub fn encode_key(alloc: Global, kinds: &[Kind], cells: &Row) -> Result<Octets, NoMemory>
    requires { IsTrue (is_key kinds.now cells.now) }
    ensures { IfOk result (λ key. key ≡ spelling kinds.now cells.now) }
{
    let cells = cells.as_slice();
    let mut key = Octets::new(alloc);
    key.reserve(key_len(kinds, cells))?;
    encode_key_into(kinds, cells, &mut key)?;
    Ok(key)
}
