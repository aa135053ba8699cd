//! Fields of fixed length, and so many bytes, read from the front of some bytes.
//!
//! Each function gives the field and the bytes after it, or `Stop::Left` with how many bytes stand from the fault to the
//! end. The numbers have their least byte first.
ghost use Rattle.std.specs.Prelude.{◌≡◌, Err, length};
ghost use Rattle.std.specs.Int.{w8, w16, w32, w64};
ghost use Rattle.kt_bytes.specs.Reading.{Gives, number_at, bytes_at};

use crate::Stop;
use byteorder::{ByteOrder, LittleEndian};

/// What a field answers that begins here and is wrong.
pub fn fault_at<T>(bytes: &[u8]) -> Result<T, Stop>
    ensures { result ≡ Err (Stop.Left (length bytes.now)) }
{
    Err(Stop::Left(bytes.len()))
}

/// A number of 8 bits.
pub fn u8_at(bytes: &[u8]) -> Result<(u8, &[u8]), Stop>
    ensures { Gives (λ x. (x.0, x.1.now)) result (number_at w8 bytes.now) }
{
    let (front, rest) = front_of(bytes, 1)?;
    Ok((front[0], rest))
}

/// A number of 16 bits.
pub fn u16_at(bytes: &[u8]) -> Result<(u16, &[u8]), Stop>
    ensures { Gives (λ x. (x.0, x.1.now)) result (number_at w16 bytes.now) }
{
    let (front, rest) = front_of(bytes, 2)?;
    Ok((LittleEndian::read_u16(front), rest))
}

/// A number of 32 bits.
pub fn u32_at(bytes: &[u8]) -> Result<(u32, &[u8]), Stop>
    ensures { Gives (λ x. (x.0, x.1.now)) result (number_at w32 bytes.now) }
{
    let (front, rest) = front_of(bytes, 4)?;
    Ok((LittleEndian::read_u32(front), rest))
}

/// A number of 64 bits.
pub fn u64_at(bytes: &[u8]) -> Result<(u64, &[u8]), Stop>
    ensures { Gives (λ x. (x.0, x.1.now)) result (number_at w64 bytes.now) }
{
    let (front, rest) = front_of(bytes, 8)?;
    Ok((LittleEndian::read_u64(front), rest))
}

/// So many bytes.
pub fn front_of(bytes: &[u8], len: usize) -> Result<(&[u8], &[u8]), Stop>
    ensures { Gives (λ x. (x.0.now, x.1.now)) result (bytes_at len bytes.now) }
{
    if bytes.len() < len {
        return Err(Stop::Left(0));
    }
    Ok(bytes.split_at(len))
}
