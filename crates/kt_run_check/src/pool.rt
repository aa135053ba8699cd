//! The words of the checker's command line.
ghost use Rattle.std.specs.Prelude.{◌≡◌, ◌∷◌, [], map, codes};
ghost use Rattle.kt_base.specs.Literals.{same};
ghost use Rattle.kt_run_check.specs.Words.{cells_said, pool_said, pool_in};

use kt_words::number_said;

/// The fewest and the most cells of a pool, and how many it has where no word says it.
const LEAST: u32 = 1024;

const MOST: u32 = 4_194_304;

const CELLS: u32 = 262_144;

// The cells that one to ten digits say.
fn cells_said(digits: &[u8]) -> Option<u32>
    ensures { result ≡ cells_said digits.now }
{
    number_said(digits, LEAST, MOST)
}

// The cells that one word says, its value behind `=`.
fn joined_said(word: &[u8]) -> Option<u32>
    ensures { result ≡ pool_said (word.now ∷ []) }
{
    if word.len() >= 7 && &word[..7] == b"--pool=".as_slice() {
        cells_said(&word[7..])
    } else {
        None
    }
}

// The cells that two words say.
fn split_said(word: &[u8], digits: &[u8]) -> Option<u32>
    ensures { result ≡ pool_said (word.now ∷ digits.now ∷ []) }
{
    if word == b"--pool".as_slice() {
        cells_said(digits)
    } else {
        None
    }
}

fn is_check(word: &[u8]) -> bool
    ensures { result ≡ same word.now (codes "check") }
{
    word == b"check".as_slice()
}

/// The cells of the pool, where the words are `check`, and behind it at most once `--pool` with one to ten digits, as a word of
/// their own or behind `=`.
pub(crate) fn pool_in(words: &[&str]) -> Option<u32>
    ensures { result ≡ pool_in (map (λ w. w.now) words.now) }
{
    match words {
        [check] if is_check(check.as_bytes()) => Some(CELLS),
        [check, word] if is_check(check.as_bytes()) => joined_said(word.as_bytes()),
        [check, word, digits] if is_check(check.as_bytes()) => {
            split_said(word.as_bytes(), digits.as_bytes())
        }
        _ => None,
    }
}
