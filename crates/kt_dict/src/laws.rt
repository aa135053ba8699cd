//! What holds of every spelling, and of the place of every fault.

ghost use Rattle.std.specs.Prelude.{◌≡◌, ◌<◌, ◌^◌, ℕ, List};
ghost use Rattle.kt_bytes.specs.Places.{IsFault};
ghost use Rattle.kt_dict.specs.Reading.{Spells};
ghost use Rattle.kt_dict.specs.Spelling.{Spelled, SpelledWithin};

/// No bytes spell two lists of one length.
pub fn one_value()
    ensures { (bytes : List ℕ) (n : ℕ) (a b : List (List ℕ)) → Spells bytes n a → Spells bytes n b → a ≡ b }
{}

/// Bytes that are no block have one first fault.
pub fn one_place()
    ensures any { (bytes : List ℕ) (n a b : ℕ) → IsFault (Spelled n) bytes a → IsFault (Spelled n) bytes b → a ≡ b }
    ensures within { (bytes : List ℕ) (most n a b : ℕ) → most < 2 ^ 32 → IsFault (SpelledWithin most n) bytes a → IsFault (SpelledWithin most n) bytes b → a ≡ b }
{}
