//! A list of numbers, held as a block has them.

ghost use Rattle.std.specs.Prelude.{◌≡◌, ◌==◌, ◌<◌, ◌≤◌, ◌+◌, ◌*◌, ℤ, List, Some, All, length, drop, take, slice_get, IfOk};
ghost use Rattle.std.specs.List.{flat_map};
ghost use Rattle.kt_plain.specs.Widths.{field_len, number, value, values, numbers_in, IsInWidth, AreNumbers};

use crate::encoding::spelled_numbers;
use crate::widths::NumberWidth;
use byteorder::{ByteOrder, LittleEndian};
use kt_bytes::NoMemory;
use std::alloc::{AllocError, Global};
use std::marker::Model;

/// A list of numbers of one width: the bytes of each, one after another. Contracts see the list.
#[derive(Drop)]
pub struct Numbers {
    width: NumberWidth,
    bytes: Vec<u8>,
}

impl Model for Numbers {
    ghost use Rattle.std.specs.Prelude.{List, ℤ};
    ghost use Rattle.kt_plain.specs.Widths.{numbers_in, AreNumbers};

    ghost Value = { List ℤ };

    ghost view = { λ a. numbers_in a.width a.bytes.items };

    ghost invariant = { λ a. AreNumbers a.width (numbers_in a.width a.bytes.items) a.bytes.items };
}

impl Numbers {
    /// The numbers of a slice, which are of this width.
    pub fn of(alloc: Global, values: &[i64], width: NumberWidth) -> Result<Numbers, NoMemory>
        requires { All (IsInWidth width) values.now }
        ensures { IfOk result (λ numbers. numbers ≡ values.now) }
    {
        let bytes = spelled_numbers(alloc, values, width)?;
        Ok(Numbers { width, bytes })
    }

    /// The numbers whose bytes these are.
    pub(crate) fn read(
        alloc: Global,
        bytes: &[u8],
        width: NumberWidth,
    ) -> Result<Numbers, AllocError>
        requires { (zs : List ℤ) × AreNumbers width zs bytes.now }
        ensures { (zs : List ℤ) → AreNumbers width zs bytes.now → IfOk result (λ numbers. numbers ≡ zs) }
    {
        let bytes = Vec::from_slice(alloc, bytes)?;
        Ok(Numbers { width, bytes })
    }

    /// How many numbers there are.
    pub fn len(&self) -> usize
        ensures { result ≡ length self.now }
    {
        self.bytes.len() / self.width.field_len()
    }

    /// Whether there is no number.
    pub fn is_empty(&self) -> bool
        ensures { result ≡ (length self.now == 0) }
    {
        self.len() == 0
    }

    /// The number at a place, in constant time.
    pub fn get(&self, i: usize) -> i64
        requires { i < length self.now }
        ensures { slice_get self.now i ≡ Some result }
    {
        number_in(&self.bytes, i, self.width)
    }

    /// The bytes of the numbers in a width: a copy where it is the one in which they are held.
    pub(crate) fn spelled(&self, alloc: Global, width: NumberWidth) -> Result<Vec<u8>, AllocError>
        requires { All (IsInWidth width) self.now }
        ensures { IfOk result (λ bytes. bytes.items ≡ flat_map (number width) self.now) }
    {
        if self.width == width {
            return Vec::from_slice(alloc, &self.bytes);
        }
        let values = all_numbers(alloc, &self.bytes, self.width)?;
        spelled_numbers(alloc, &values, width)
    }
}

/// The number whose bytes stand at the front.
pub fn value_at(bytes: &[u8], width: NumberWidth) -> i64
    requires { field_len width ≤ length bytes.now }
    ensures { result ≡ value width bytes.now }
{
    match width {
        NumberWidth::Bit => bytes[0] as i64,
        NumberWidth::One => bytes[0].cast_signed() as i64,
        NumberWidth::Two => LittleEndian::read_i16(bytes) as i64,
        NumberWidth::Four => LittleEndian::read_i32(bytes) as i64,
        NumberWidth::Eight => LittleEndian::read_i64(bytes),
    }
}

/// The number in the field with this place.
fn number_in(bytes: &[u8], i: usize, width: NumberWidth) -> i64
    requires { field_len width * i + field_len width ≤ length bytes.now }
    ensures { result ≡ value width (drop (field_len width * i) bytes.now) }
{
    value_at(&bytes[width.field_len() * i..], width)
}

/// The numbers of all fields.
fn all_numbers(alloc: Global, bytes: &[u8], width: NumberWidth) -> Result<Vec<i64>, AllocError>
    ensures { IfOk result (λ v. v.items ≡ numbers_in width bytes.now) }
{
    let n = bytes.len() / width.field_len();
    let mut numbers = Vec::with_capacity(alloc, n)?;
    'numbers: for i in 0..n {
        numbers.push(number_in(bytes, i, width))?;
    }
    Ok(numbers)
}
