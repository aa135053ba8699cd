//! Laws of the format.

ghost use Rattle.std.specs.Prelude.{ℕ};
ghost use Rattle.kt_bytes.specs.Places.{Delimited};
ghost use Rattle.kt_plain.specs.Spelling.{SpellsOne, Spelled, SpelledWithin, IsJoined};

use crate::widths::Width;

/// No two lists of items have one spelling.
pub fn one_value()
    ensures { SpellsOne }
{}

/// A spelling is made of fields, and the fields before one tell how long it is. So bytes have one first fault.
pub fn delimited()
    ensures joined { IsJoined }
    ensures delimited { (width : Width) (n : ℕ) → Delimited (Spelled width n) }
    ensures within { (most : ℕ) (width : Width) (n : ℕ) → Delimited (SpelledWithin most width n) }
{}
