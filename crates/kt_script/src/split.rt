//! Cutting bytes in two.

ghost use Rattle.std.specs.Prelude.{◌≡◌, ◌≢◌, ◌++◌, ◌∷◌, ℕ, List, All, IfSome, IfNone};

use memchr::memchr;

/// What follows the word.
pub fn after<'a>(text: &'a [u8], word: &[u8]) -> Option<&'a [u8]>
    ensures found { IfSome result (λ rest. text.now ≡ word.now ++ rest.now) }
    ensures none { IfNone result ((rest : List ℕ) → text.now ≢ word.now ++ rest) }
{
    if text.len() < word.len() {
        return None;
    }
    let (front, rest) = text.split_at(word.len());
    if front == word { Some(rest) } else { None }
}

/// The bytes before the first byte of a kind, and those after it.
pub fn cut_at(text: &[u8], byte: u8) -> Option<(&[u8], &[u8])>
    ensures cut { IfSome result (λ x. text.now ≡ x.0.now ++ byte ∷ x.1.now) }
    ensures first { IfSome result (λ x. All (λ b. b ≢ byte) x.0.now) }
    ensures none { IfNone result (All (λ b. b ≢ byte) text.now) }
{
    let at = memchr(byte, text)?;
    Some((&text[..at], &text[at + 1..]))
}
