//! Reading the text of an opening.

ghost use Rattle.std.specs.Prelude.{◌≡◌, ◌≤◌, length, Ok, IfOk, IfErr};
ghost use Rattle.kt_judge.specs.Openings.{IsOpening};
ghost use Rattle.kt_opening.specs.OpeningPlaces.{IsNoOpening, IsInside};
ghost use Rattle.kt_opening.specs.OpeningTexts.{opening_in, found_of};
ghost use Rattle.kt_opening.specs.Reading.{IsWholeRead};

use crate::line_fronts::place_of;
use crate::live::Live;
use crate::parts::{Front, PartNo, RowsPart, WritesPart, read_front, read_rows, read_writes};
use kt_judge::Opening;
use kt_schema::Schema;
use std::alloc::Global;
use thiserror::Error;

/// An opening, and the place of the text behind it.
#[derive(Drop)]
pub struct Read {
    pub opening: Opening,
    pub at: usize,
}

/// Why no opening is read. Contracts say by `IsOpeningPlace` which place this is.
#[derive(Clone, Copy, Debug, PartialEq, Eq, Error)]
pub enum OpeningNo {
    /// The first byte at which no opening goes on, or the first of a number, a row or a key that may not stand.
    #[error("no opening goes on at byte {offset}")]
    Place { offset: usize },
    #[error("out of memory")]
    Memory,
}

// The parts of an opening together.
fn read_whole(alloc: Global, schema: &Schema, text: &[u8]) -> Result<Read, PartNo>
    ensures read { IsWholeRead schema.now text.now result }
    ensures within { IfOk result (λ r. r.at ≤ length text.now) }
{
    let Front { a, c, rows, at } = read_front(text)?;
    let RowsPart { rows, at } = read_rows(alloc, schema, text, at, rows)?;
    let live = Live::of(alloc, &rows)?;
    let WritesPart { writes, at } = read_writes(alloc, schema, live, text, at, a, c)?;
    let opening = Opening { a, c, rows, writes };
    Ok(Read { opening, at })
}

/// The opening that a text begins with.
pub fn read_opening(alloc: Global, schema: &Schema, text: &[u8]) -> Result<Read, OpeningNo>
    ensures read { IfOk result (λ r. opening_in schema.now text.now ≡ Ok (found_of r)) }
    ensures within { IfOk result (λ r. r.at ≤ length text.now) }
    ensures opening { IfOk result (λ r. IsOpening r.opening) }
    ensures place { IfErr result (λ no. IsNoOpening schema.now text.now no) }
    ensures inside { IfErr result (λ no. IsInside text.now no) }
{
    match read_whole(alloc, schema, text) {
        Ok(read) => Ok(read),
        Err(PartNo::At(stop)) => Err(OpeningNo::Place {
            offset: place_of(text, stop),
        }),
        Err(PartNo::Memory) => Err(OpeningNo::Memory),
    }
}
