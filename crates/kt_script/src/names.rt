//! Columns by their names, and the names that a scan selects.

ghost use Rattle.std.specs.Prelude.{◌≡◌, ◌∷◌};
ghost use Rattle.kt_script.specs.Pieces.{cut};
ghost use Rattle.kt_script.specs.Writes.{IsFound};
ghost use Rattle.kt_script.specs.Scans.{names_in};

use crate::split::cut_at;
use kt_schema::Column;

/// The first column of this name.
pub fn find_column<'a>(columns: &'a [Column], name: &[u8]) -> Option<&'a Column>
    ensures { IsFound columns.now name.now result }
{
    let mut left = columns;
    while let Some((column, behind)) = left.split_first() {
        if column.name.as_slice() == name {
            return Some(column);
        }
        left = behind;
    }
    None
}

/// The first of some names with commas between them, and what is left behind its comma.
pub fn cut_name(text: &[u8]) -> (&[u8], Option<&[u8]>)
    ensures { cut 44 text.now ≡ result.0.now ∷ names_in result.1 }
{
    match cut_at(text, b',') {
        Some((name, behind)) => (name, Some(behind)),
        None => (text, None),
    }
}
