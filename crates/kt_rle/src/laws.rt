//! Laws of the format.

ghost use Rattle.std.specs.Prelude.{ℕ};
ghost use Rattle.kt_bytes.specs.Places.{Delimited};
ghost use Rattle.kt_rle.specs.Spelling.{SpellsOne, IsSpelledOnce, Spelled, IsJoined, IsToldOnce};

use kt_plain::NumberWidth as Width;

/// No two lists of items have one spelling.
pub fn one_value()
    ensures { SpellsOne }
{}

/// No list of items has two spellings.
pub fn one_spelling()
    ensures { IsSpelledOnce }
{}

/// A spelling is made of fields, and the fields before one tell how long it is. So bytes have one first fault.
pub fn delimited()
    ensures joined { IsJoined }
    ensures delimited { (width : Width) (n : ℕ) → Delimited (Spelled width n) }
{}

/// Bytes are refused at one place.
pub fn one_place()
    ensures { IsToldOnce }
{}
