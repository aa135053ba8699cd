//! Fields of fixed length, read from the front of some bytes.
ghost use Rattle.std.specs.Prelude.{◌≡◌, ◌≤◌, drop, length};
ghost use Rattle.kt_bytes.specs.Reading.{Gives};
ghost use Rattle.kt_baseset.specs.Spelling.{kind_number};
ghost use Rattle.kt_baseset.specs.Reading as reading;
ghost use Rattle.kt_baseset.specs.Reading.{rows_at, kind_at, shape_at};

use crate::schema::ColumnShape;
use kt_base::Kind;
use kt_bytes::Stop;
use kt_bytes::fields::{u16_at, u32_at};
use kt_cells::fields::flag_of;

/// The letters KTB1, as a number.
const KTB1: u32 = 0x3142544b;

/// The most rows: the length of their filter is still a u32.
const ROWS: u32 = 3_435_973_836;

/// The letters, and how many rows there are.
#[tactic(auto, unfolding(crate::specs::Reading::rows_at))]
pub fn rows_of(bytes: &[u8]) -> Result<(u32, &[u8]), Stop>
    ensures { Gives (λ x. (x.0, x.1.now)) result (rows_at bytes.now) }
{
    let (word, behind) = u32_at(bytes)?;
    if word != KTB1 {
        return Err(Stop::Left(bytes.len()));
    }
    let (rows, rest) = u32_at(behind)?;
    if 1 <= rows && rows <= ROWS {
        Ok((rows, rest))
    } else {
        Err(Stop::Left(behind.len()))
    }
}

#[tactic(auto, unfolding(crate::specs::Reading::kind_at))]
fn kind_of(bytes: &[u8]) -> Result<(Kind, &[u8]), Stop>
    ensures { Gives (λ x. (x.0, x.1.now)) result (kind_at bytes.now) }
{
    match bytes {
        [] => Err(Stop::Left(0)),
        [1, rest @ ..] => Ok((Kind::Bool, rest)),
        [2, rest @ ..] => Ok((Kind::Int8, rest)),
        [3, rest @ ..] => Ok((Kind::Int16, rest)),
        [4, rest @ ..] => Ok((Kind::Int32, rest)),
        [5, rest @ ..] => Ok((Kind::Int64, rest)),
        [6, rest @ ..] => Ok((Kind::String, rest)),
        [7, rest @ ..] => Ok((Kind::Binary, rest)),
        [_, ..] => Err(Stop::Left(bytes.len())),
    }
}

/// Whether the id is not below the least one, and leaves ids for so many columns more.
fn is_id(least: u32, more: u16, id: u16) -> bool
    ensures { result ≡ reading.is_id least more id }
{
    least <= u32::from(id) && u32::from(id) + u32::from(more) < 65_536
}

/// What a column is that has so many behind it.
#[tactic(auto, unfolding(crate::specs::Reading::shape_at))]
pub fn shape_of(least: u32, more: u16, bytes: &[u8]) -> Result<(ColumnShape, &[u8]), Stop>
    ensures { Gives (λ x. (x.0, x.1.now)) result (shape_at least more bytes.now) }
{
    let (id, rest) = u16_at(bytes)?;
    if !is_id(least, more, id) {
        return Err(Stop::Left(bytes.len()));
    }
    let (kind, rest) = kind_of(rest)?;
    let (nullable, rest) = flag_of(rest)?;
    Ok((ColumnShape { id, kind, nullable }, rest))
}

/// The number of a kind.
pub fn number_of(kind: Kind) -> u8
    ensures { result ≡ kind_number kind }
{
    match kind {
        Kind::Bool => 1,
        Kind::Int8 => 2,
        Kind::Int16 => 3,
        Kind::Int32 => 4,
        Kind::Int64 => 5,
        Kind::String => 6,
        Kind::Binary => 7,
    }
}

/// The bytes behind so many.
pub fn after(bytes: &[u8], used: usize) -> &[u8]
    requires { used ≤ length bytes.now }
    ensures { result.now ≡ drop used bytes.now }
{
    &bytes[used..]
}
