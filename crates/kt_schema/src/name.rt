//! The names of columns.
ghost use Rattle.std.specs.Prelude.{◌≡◌, ◌||◌};
ghost use Rattle.std.specs.List.{list_all};
ghost use Rattle.kt_schema.specs.Names.{is_letter, is_digit, is_name};

use kt_base::limits::NAME_LEN;

fn is_letter(byte: u8) -> bool
    ensures { result ≡ is_letter byte }
{
    matches!(byte, b'A'..=b'Z' | b'a'..=b'z' | b'_')
}

fn are_inner(bytes: &[u8]) -> bool
    ensures { result ≡ list_all (λ c. is_letter c || is_digit c) bytes.now }
{
    bytes
        .iter()
        .all(|byte| is_letter(*byte) || matches!(*byte, b'0'..=b'9'))
}

/// Whether a text may name a column: a letter or an underscore, and then at most 63 letters, digits and underscores.
pub fn is_name(text: &[u8]) -> bool
    ensures { result ≡ is_name text.now }
{
    match text {
        [first, rest @ ..] => is_letter(*first) && rest.len() < NAME_LEN && are_inner(rest),
        [] => false,
    }
}
