//! The runs in the bytes of a block.

ghost use Rattle.std.specs.Prelude.{◌≡◌, ◌≢◌, ◌⊎◌, ◌<◌, ◌≤◌, ◌+◌, ◌*◌, ◌/◌, ◌↔◌, IsTrue, length, drop, pos, Some};
ghost use Rattle.std.specs.Bool.{OnTrue, OnFalse};
ghost use Rattle.kt_rle.specs.Runs as spec;
ghost use Rattle.kt_rle.specs.Reading.{IsNumber, MayFollow, IsBehind};

use crate::runs::Run;
use byteorder::{ByteOrder, LittleEndian};
use kt_plain::{NumberWidth as Width, value_at};

/// The run whose bytes stand at the front.
pub(crate) fn run_at(bytes: &[u8], width: Width) -> Run
    requires { spec.run_len width ≤ length bytes.now }
    ensures { result ≡ spec.run_at width bytes.now }
{
    let len = LittleEndian::read_u32(bytes);
    let value = value_at(&bytes[4..], width);
    Run { len, value }
}

/// The bytes from a run on.
pub(crate) fn from_run(bytes: &[u8], i: usize, width: Width) -> &[u8]
    requires { i < length bytes.now / spec.run_len width }
    ensures from { result.now ≡ drop (spec.run_len width * i) bytes.now }
    ensures long { spec.run_len width ≤ length result.now }
    ensures within { spec.run_len width * i + length result.now ≡ length bytes.now }
{
    let step = 4 + width.field_len();
    &bytes[step * i..]
}

/// Whether what was read is a number of the width: of bits, 0 or 1.
fn is_number(number: i64, width: Width) -> bool
    ensures { IsTrue result ↔ IsNumber width number }
{
    match width {
        Width::Bit => number == 0 || number == 1,
        _ => true,
    }
}

/// Whether the last number is this one.
fn is_last(last: Option<i64>, number: i64) -> bool
    ensures { IsTrue result ↔ (last ≡ Some number) }
{
    match last {
        Some(value) => value == number,
        None => false,
    }
}

/// Whether a run may follow, where so many items are left and this was the last number.
pub(crate) fn may_follow(run: Run, left: usize, last: Option<i64>, width: Width) -> bool
    ensures yes { OnTrue result (MayFollow width left last run) }
    ensures no { OnFalse result (¬ MayFollow width left last run) }
{
    if run.len == 0 || run.len as usize > left {
        return false;
    }
    is_number(run.value, width) && !is_last(last, run.value)
}

/// How far behind its first byte a run that may not follow is at fault: at its number where that alone is wrong.
pub(crate) fn fault_in(run: Run, left: usize, width: Width) -> usize
    ensures behind { IsBehind width left run result }
    ensures small { result ≤ 4 }
{
    let has_length = run.len != 0 && run.len as usize <= left;
    if has_length && !is_number(run.value, width) {
        return 4;
    }
    0
}
