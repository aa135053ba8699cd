//! Bytes that stand for themselves in a string literal, told sixteen at a time.

ghost use Rattle.std.specs.Prelude.{◌≡◌, ◌≤◌, ◌+◌, length};
ghost use Rattle.std.specs.Bool.{OnTrue};
ghost use Rattle.std.specs.List.{position, position_or_len};
ghost use Rattle.kt_base.specs.Literals.{is_escaped, PlainBetween};

use std::simd::prelude::*;

// How many bytes are told at once.
const LANES: usize = 16;

pub(crate) fn is_escaped(byte: u8) -> bool
    ensures { result ≡ is_escaped byte }
{
    byte == b'"' || byte == b'\\' || byte < b' ' || byte == 127
}

// Whether none of the bytes at a place is escaped.
#[inline(always)]
fn is_plain(bytes: &[u8], at: usize) -> bool
    requires { at + LANES ≤ length bytes.now }
    ensures { OnTrue result (PlainBetween bytes.now at (at + LANES)) }
{
    let lanes = u8x16::from_slice(&bytes[at..]);
    (lanes.simd_eq(u8x16::splat(b'"'))
        | lanes.simd_eq(u8x16::splat(b'\\'))
        | lanes.simd_lt(u8x16::splat(b' '))
        | lanes.simd_eq(u8x16::splat(127))).to_bitmask()
        == 0
}

// A number of bytes at the front none of which is escaped.
fn plain_front(bytes: &[u8]) -> usize
    ensures within { result ≤ length bytes.now }
    ensures plain { PlainBetween bytes.now 0 result }
{
    let mut at = 0;
    'lanes: while bytes.len() - at >= LANES && is_plain(bytes, at) {
        at += LANES;
    }
    at
}

// The place of the first byte that is escaped, looked for byte by byte.
fn escaped_at(bytes: &[u8]) -> Option<usize>
    ensures { result ≡ position is_escaped bytes.now }
{
    bytes.iter().position(|b| is_escaped(*b))
}

fn plain_tail(bytes: &[u8]) -> usize
    ensures first { result ≡ position_or_len is_escaped bytes.now }
    ensures within { result ≤ length bytes.now }
{
    escaped_at(bytes).unwrap_or(bytes.len())
}

// The place of the first byte that is escaped, or the length where there is none.
pub(crate) fn plain_len(bytes: &[u8]) -> usize
    ensures first { result ≡ position_or_len is_escaped bytes.now }
    ensures within { result ≤ length bytes.now }
{
    let front = plain_front(bytes);
    front + plain_tail(&bytes[front..])
}
