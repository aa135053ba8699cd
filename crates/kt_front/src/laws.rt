//! What holds of every spelling, and of the place of every fault.

ghost use Rattle.std.specs.Prelude.{◌≡◌, ◌<◌, ◌^◌, ℕ, List};
ghost use Rattle.std.specs.List.{concat};
ghost use Rattle.kt_front.specs.Reading.{IsFault, IsFaultWithin, Spells};
ghost use Rattle.kt_front.specs.Spelling.{fields, spelling};

/// No bytes spell two lists of one length.
pub fn one_value()
    ensures { (bytes : List ℕ) (n : ℕ) (a b : List (List ℕ)) → Spells bytes n a → Spells bytes n b → a ≡ b }
{}

/// A list's fields, one after the other, are its spelling.
pub fn fields_spell()
    ensures { (items : List (List ℕ)) → concat (fields items) ≡ spelling items }
{}

/// Bytes that are no block have one first fault.
pub fn one_place()
    ensures any { (bytes : List ℕ) (n a b : ℕ) → IsFault n bytes a → IsFault n bytes b → a ≡ b }
    ensures within { (bytes : List ℕ) (most n a b : ℕ) → most < 2 ^ 32 → IsFaultWithin most n bytes a → IsFaultWithin most n bytes b → a ≡ b }
{}
