//! Which cells may stand under a column of a kind.
ghost use Rattle.std.specs.Prelude.{◌≡◌};
ghost use Rattle.kt_key.specs.Fit.{has_kind, in_range};

use kt_base::{Cell, Kind};

// A number from minus half up to half, which is left out.
fn is_within(number: i64, half: u64) -> bool
    ensures { result ≡ in_range half number }
{
    let number = i128::from(number);
    let half = i128::from(half);
    -half <= number && number < half
}

/// Whether a cell is of this kind. Null is of none.
pub fn has_kind(kind: Kind, cell: &Cell) -> bool
    ensures { result ≡ has_kind kind cell.now }
{
    match (kind, cell) {
        (Kind::Int8, Cell::Int(number)) => is_within(*number, 1 << 7),
        (Kind::Int16, Cell::Int(number)) => is_within(*number, 1 << 15),
        (Kind::Int32, Cell::Int(number)) => is_within(*number, 1 << 31),
        (Kind::Int64, Cell::Int(number)) => is_within(*number, 1 << 63),
        (Kind::Bool, Cell::Bool(_)) => true,
        (Kind::String, Cell::Bytes(_)) | (Kind::Binary, Cell::Bytes(_)) => true,
        _ => false,
    }
}
