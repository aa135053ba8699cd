//! The length of an encoded key.
ghost use Rattle.std.specs.Prelude.{◌≡◌, ◌-◌, ◌^◌, min, length, IsTrue, count_by, ◌==◌};
ghost use Rattle.std.specs.Int.{byte_len};
ghost use Rattle.kt_base.specs.Keys.{escaped, width_of};
ghost use Rattle.kt_key.specs.Fit.{is_key};
ghost use Rattle.kt_key.specs.Spelling.{spelling, inner_spelling, last_spelling};

use kt_base::{Cell, Kind};

// How many bytes a number takes.
pub fn width(kind: Kind) -> usize
    ensures { result ≡ byte_len (width_of kind) }
{
    match kind {
        Kind::Int8 => 1,
        Kind::Int16 => 2,
        Kind::Int32 => 4,
        _ => 8,
    }
}

fn zeros(text: &[u8]) -> usize
    ensures { result ≡ count_by (λ byte. byte == 0) text.now }
{
    text.iter().filter(|byte| **byte == 0).count()
}

fn escaped_len(text: &[u8]) -> usize
    ensures { result ≡ min (length (escaped text.now)) (2 ^ 64 - 1) }
{
    text.len().saturating_add(zeros(text)).saturating_add(2)
}

fn inner_len(kind: Kind, cell: &Cell) -> usize
    ensures { result ≡ min (length (inner_spelling kind cell.now)) (2 ^ 64 - 1) }
{
    match cell {
        Cell::Int(_) => width(kind),
        Cell::Bytes(text) => escaped_len(text.as_slice()),
        _ => 0,
    }
}

fn last_len(kind: Kind, cell: &Cell) -> usize
    ensures { result ≡ min (length (last_spelling kind cell.now)) (2 ^ 64 - 1) }
{
    match cell {
        Cell::Int(_) => width(kind),
        Cell::Bytes(text) => text.len(),
        _ => 0,
    }
}

/// The length of the key's spelling, or the greatest number where it is longer.
pub fn key_len(kinds: &[Kind], cells: &[Cell]) -> usize
    requires { IsTrue (is_key kinds.now cells.now) }
    ensures { result ≡ min (length (spelling kinds.now cells.now)) (2 ^ 64 - 1) }
{
    if kinds.is_empty() {
        return 0;
    }
    let last = kinds.len() - 1;
    let mut total: usize = 0;
    for at in 0..last {
        total = total.saturating_add(inner_len(kinds[at], &cells[at]));
    }
    total.saturating_add(last_len(kinds[last], &cells[last]))
}
