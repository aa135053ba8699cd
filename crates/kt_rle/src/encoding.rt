//! Items as bytes, and how many bytes they take.

ghost use Rattle.std.specs.Prelude.{◌≡◌, ◌<◌, ◌^◌, ◌++◌, ◌*◌, length, IfOk, IfErr, OnOk};
ghost use Rattle.std.specs.List.{flat_map};
ghost use Rattle.kt_plain.specs.Widths.{number, IsInWidth};
ghost use Rattle.kt_rle.specs.Runs.{run_bytes, AreRuns};
ghost use Rattle.kt_rle.specs.Held.{runs_of, end_of, Rise};
ghost use Rattle.kt_rle.specs.Spelling.{Fits, Spells, Takes};

use crate::items::{Items, run_end};
use crate::runs::Held;
use kt_bytes::{CodecNo, Octets};
use kt_plain::{NumberWidth as Width, Numbers};
use std::alloc::{AllocError, Global};

/// The one spelling of the items in the width.
pub fn encode(alloc: Global, cells: &Items, width: Width) -> Result<Octets, CodecNo>
    requires { Fits width cells.now }
    ensures ok { IfOk result (λ octets. Spells width (length cells.now) cells.now octets) }
    ensures memory { IfErr result (λ e. e ≡ CodecNo.Memory) }
{
    let bytes = spelled(alloc, cells.runs(), width)?;
    Ok(Octets::of(bytes))
}

/// How many bytes the spelling of the items takes, from the count of their runs.
pub fn spelled_len(cells: &Items, width: Width) -> usize
    requires { Fits width cells.now }
    ensures { Takes width cells.now result }
{
    cells.runs().len() * (4 + width.field_len())
}

/// How many bytes the spelling of plain numbers takes, from the count of their runs.
pub fn encoded_len(numbers: &Numbers, width: Width) -> usize
    requires { Fits width numbers.now }
    ensures { Takes width numbers.now result }
{
    let mut runs = 0;
    let mut at = 0;
    while at < numbers.len() {
        at = run_end(numbers, at);
        runs += 1;
    }
    runs * (4 + width.field_len())
}

/// How many bytes the items take as plain numbers.
pub fn plain_len(cells: &Items, width: Width) -> usize
    requires { Fits width cells.now }
    ensures { result ≡ length (flat_map (number width) cells.now) }
{
    cells.len() * width.field_len()
}

/// The runs one after another.
fn spelled(alloc: Global, runs: &[Held], width: Width) -> Result<Vec<u8>, AllocError>
    requires rise { Rise 0 runs.now }
    requires are { AreRuns width (runs_of 0 runs.now) }
    requires few { end_of 0 runs.now < 2 ^ 32 }
    ensures { IfOk result (λ bytes. bytes.items ≡ flat_map (run_bytes width) (runs_of 0 runs.now)) }
{
    let mut bytes = Vec::with_capacity(alloc, runs.len() * (4 + width.field_len()))?;
    let mut at = 0;
    'runs: for i in 0..runs.len() {
        let end = runs[i].end;
        let len = (end - at) as u32;
        put_run(&mut bytes, len, runs[i].value, width)?;
        at = end;
    }
    Ok(bytes)
}

/// Writes a run at the end.
fn put_run(out: &mut Vec<u8>, len: u32, value: i64, width: Width) -> Result<(), AllocError>
    requires { IsInWidth width value }
    ensures { OnOk result (out.new.items ≡ out.old.items ++ run_bytes width (record { len = len; value = value })) }
{
    out.extend_from_slice(&len.to_le_bytes())?;
    put_number(out, value, width)
}

/// Writes a number at the end.
fn put_number(out: &mut Vec<u8>, value: i64, width: Width) -> Result<(), AllocError>
    requires { IsInWidth width value }
    ensures { OnOk result (out.new.items ≡ out.old.items ++ number width value) }
{
    match width {
        Width::Bit => out.extend_from_slice(&[value as u8]),
        Width::One => out.extend_from_slice(&[(value as i8).cast_unsigned()]),
        Width::Two => out.extend_from_slice(&(value as i16).to_le_bytes()),
        Width::Four => out.extend_from_slice(&(value as i32).to_le_bytes()),
        Width::Eight => out.extend_from_slice(&value.to_le_bytes()),
    }
}
