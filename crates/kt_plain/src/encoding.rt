//! Items as bytes.

ghost use Rattle.std.specs.Prelude.{◌≡◌, ◌≤◌, ◌<◌, ◌^◌, ◌+◌, ◌*◌, ◌++◌, length, take, drop, All, FitsSigned, IfOk, IfErr};
ghost use Rattle.std.specs.List.{flat_map};
ghost use Rattle.std.specs.Int.{w8, w16, w32, to_le_bytes};
ghost use Rattle.kt_plain.specs.Widths.{number, IsInWidth};
ghost use Rattle.kt_plain.specs.Spelling.{Fits, spelling};

use crate::items::Items;
use crate::widths::{NumberWidth, Width};
use byteorder::{ByteOrder, LittleEndian};
use kt_bytes::{CodecNo, Octets};
use std::alloc::{AllocError, Global};

/// The one spelling of the items in the width.
pub fn encode(alloc: Global, cells: &Items, width: Width) -> Result<Octets, CodecNo>
    requires { Fits width cells.now }
    ensures ok { IfOk result (λ octets. octets ≡ spelling width cells.now) }
    ensures memory { IfErr result (λ e. e ≡ CodecNo.Memory) }
{
    let bytes = match (cells, width) {
        (Items::Numbers(numbers), Width::Numbers(width)) => numbers.spelled(alloc, width)?,
        (Items::Texts(texts), Width::Bytes) => {
            spelled_texts(alloc, texts.ends(), texts.as_bytes())?
        }
        _ => unreachable!(),
    };
    Ok(Octets::of(bytes))
}

/// How many bytes the spelling of the items in the width takes.
pub fn encoded_len(cells: &Items, width: Width) -> usize
    requires { Fits width cells.now }
    ensures { result ≡ length (spelling width cells.now) }
{
    match (cells, width) {
        (Items::Numbers(numbers), Width::Numbers(width)) => numbers.len() * width.field_len(),
        (Items::Texts(texts), Width::Bytes) => 4 * texts.len() + texts.byte_len(),
        _ => unreachable!(),
    }
}

/// The ends in four bytes each, and then the bytes.
fn spelled_texts(alloc: Global, ends: &[usize], bytes: &[u8]) -> Result<Vec<u8>, AllocError>
    requires { All (λ e. e < 2 ^ 32) ends.now }
    ensures { IfOk result (λ out. out.items ≡ flat_map (to_le_bytes w32) ends.now ++ bytes.now) }
{
    let mut out = Vec::with_capacity(alloc, 4 * ends.len() + bytes.len())?;
    for end in ends {
        out.extend_from_slice(&(*end as u32).to_le_bytes())?;
    }
    out.extend_from_slice(bytes)?;
    Ok(out)
}

/// The numbers one after another in their width.
pub(crate) fn spelled_numbers(
    alloc: Global,
    values: &[i64],
    width: NumberWidth,
) -> Result<Vec<u8>, AllocError>
    requires { All (IsInWidth width) values.now }
    ensures { IfOk result (λ bytes. bytes.items ≡ flat_map (number width) values.now) }
{
    let mut bytes = vec![in alloc; 0u8; values.len() * width.field_len()]?;
    match width {
        NumberWidth::Bit => write_bits(values, &mut bytes),
        NumberWidth::One => write_one(values, &mut bytes),
        NumberWidth::Two => write_two(values, &mut bytes),
        NumberWidth::Four => write_four(values, &mut bytes),
        NumberWidth::Eight => LittleEndian::write_i64_into(values, &mut bytes),
    }
    Ok(bytes)
}

fn write_bits(values: &[i64], out: &mut [u8])
    requires fits { All (IsInWidth NumberWidth.Bit) values.now }
    requires room { length out.old ≡ length values.now }
    ensures { out.new ≡ flat_map (number NumberWidth.Bit) values.now }
{
    'items: for i in 0..values.len() {
        out[i] = values[i] as u8;
    }
}

fn write_one(values: &[i64], out: &mut [u8])
    requires fits { All (FitsSigned w8) values.now }
    requires room { length out.old ≡ length values.now }
    ensures { out.new ≡ flat_map (number NumberWidth.One) values.now }
{
    'items: for i in 0..values.len() {
        out[i] = (values[i] as i8).cast_unsigned();
    }
}

fn write_two(values: &[i64], out: &mut [u8])
    requires fits { All (FitsSigned w16) values.now }
    requires room { length out.old ≡ 2 * length values.now }
    ensures { out.new ≡ flat_map (number NumberWidth.Two) values.now }
{
    'items: for i in 0..values.len() {
        put_two(out, 2 * i, values[i] as i16);
    }
}

fn write_four(values: &[i64], out: &mut [u8])
    requires fits { All (FitsSigned w32) values.now }
    requires room { length out.old ≡ 4 * length values.now }
    ensures { out.new ≡ flat_map (number NumberWidth.Four) values.now }
{
    'items: for i in 0..values.len() {
        put_four(out, 4 * i, values[i] as i32);
    }
}

/// Writes a number over the bytes at a place.
fn put_two(out: &mut [u8], at: usize, value: i16)
    requires { at + 2 ≤ length out.old }
    ensures { out.new ≡ take at out.old ++ (number NumberWidth.Two value ++ drop (at + 2) out.old) }
{
    LittleEndian::write_i16(&mut out[at..], value);
}

/// Writes a number over the bytes at a place.
fn put_four(out: &mut [u8], at: usize, value: i32)
    requires { at + 4 ≤ length out.old }
    ensures { out.new ≡ take at out.old ++ (number NumberWidth.Four value ++ drop (at + 4) out.old) }
{
    LittleEndian::write_i32(&mut out[at..], value);
}
