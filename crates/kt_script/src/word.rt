//! Cutting a text into lines, and a line into words.

ghost use Rattle.std.specs.Prelude.{◌≡◌, ◌+◌, ◌<◌, ◌≤◌, ℕ, [], false, length, slice_index, IfSome, IfNone};
ghost use Rattle.memchr.specs.Find.{is_byte2};
ghost use Rattle.kt_base.specs.Literals.{same};
ghost use Rattle.kt_script.specs.Pieces.{side_after, ends_word, words_of, words_in, IsCut};
ghost use Rattle.kt_script.specs.Runs.{Quiet};

use std::simd::prelude::*;

// How many bytes are looked at together.
const LANES: usize = 16;

/// Where a byte of a line stands.
#[derive(Clone, Copy)]
pub enum Side {
    Outside,
    /// Between quotes.
    Inside,
    /// Between quotes and behind a backslash.
    Slashed,
}

fn side_after(side: Side, byte: u8) -> Side
    ensures { result ≡ side_after side byte }
{
    match side {
        Side::Outside if byte == b'"' => Side::Inside,
        Side::Outside => Side::Outside,
        Side::Inside if byte == b'"' => Side::Outside,
        Side::Inside if byte == b'\\' => Side::Slashed,
        Side::Inside | Side::Slashed => Side::Inside,
    }
}

fn ends_word(side: Side, byte: u8) -> bool
    ensures { result ≡ ends_word side byte }
{
    match side {
        Side::Outside => byte == b' ',
        Side::Inside | Side::Slashed => false,
    }
}

// How many of the sixteen bytes at a place stand before the first of two.
#[inline(always)]
fn run_at(first: u8, second: u8, text: &[u8], at: usize) -> usize
    requires { at + LANES ≤ length text.now }
    ensures within { result ≤ LANES }
    ensures none { (k : ℕ) → at ≤ k → k < at + result → is_byte2 first second (slice_index text.now k) ≡ false }
{
    let lanes = u8x16::from_slice(&text[at..]);
    let marks = (lanes.simd_eq(u8x16::splat(first))
        | lanes.simd_eq(u8x16::splat(second))).to_bitmask();
    if marks == 0 {
        LANES
    } else {
        marks.trailing_zeros() as usize
    }
}

// As `next_of`, byte by byte.
fn next_in_rest(first: u8, second: u8, text: &[u8], from: usize) -> usize
    requires { from ≤ length text.now }
    ensures behind { from ≤ result }
    ensures within { result ≤ length text.now }
    ensures none { (k : ℕ) → from ≤ k → k < result → is_byte2 first second (slice_index text.now k) ≡ false }
{
    let mut at = from;
    'bytes: while at < text.len() {
        let byte = text[at];
        if byte == first || byte == second {
            return at;
        }
        at += 1;
    }
    at
}

// The place of the first of two bytes from a place on, or the length of the text.
#[inline(always)]
fn next_of(first: u8, second: u8, text: &[u8], from: usize) -> usize
    requires { from ≤ length text.now }
    ensures behind { from ≤ result }
    ensures within { result ≤ length text.now }
    ensures none { (k : ℕ) → from ≤ k → k < result → is_byte2 first second (slice_index text.now k) ≡ false }
{
    let mut at = from;
    'lanes: while text.len() - at >= LANES {
        let run = run_at(first, second, text, at);
        at += run;
        if run < LANES {
            return at;
        }
    }
    next_in_rest(first, second, text, at)
}

// The first place from one on whose byte may end the word or change the side, or the length of the text.
fn run_end(side: Side, text: &[u8], from: usize) -> usize
    requires { from ≤ length text.now }
    ensures behind { from ≤ result }
    ensures within { result ≤ length text.now }
    ensures quiet { (k : ℕ) → from ≤ k → k < result → Quiet side (slice_index text.now k) }
{
    match side {
        Side::Outside => next_of(b' ', b'"', text, from),
        Side::Inside => next_of(b'"', b'\\', text, from),
        Side::Slashed => from,
    }
}

/// Whether a word is this one. Words are short: a look at each byte costs less than the parts of a longer comparison.
pub fn is_word(word: &[u8], text: &[u8]) -> bool
    ensures { result ≡ same word.now text.now }
{
    if word.len() != text.len() {
        return false;
    }
    'bytes: for at in 0..text.len() {
        if word[at] != text[at] {
            return false;
        }
    }
    true
}

/// The first word of a line, and what is left behind the space after it. Spaces between quotes end no word.
pub fn cut_word(text: &[u8]) -> (&[u8], Option<&[u8]>)
    ensures { IsCut (words_of text.now) result.0.now result.1 }
{
    let mut side = Side::Outside;
    let mut from = 0;
    'bytes: loop {
        let at = run_end(side, text, from);
        if at == text.len() {
            return (text, None);
        }
        let byte = text[at];
        if ends_word(side, byte) {
            return (&text[..at], Some(&text[at + 1..]));
        }
        side = side_after(side, byte);
        from = at + 1;
    }
}

/// The next word of what is left of a line.
pub fn next_word(rest: Option<&[u8]>) -> Option<(&[u8], Option<&[u8]>)>
    ensures some { IfSome result (λ cut. IsCut (words_in rest.entry) cut.0.now cut.1) }
    ensures none { IfNone result (words_in rest.entry ≡ []) }
{
    match rest {
        Some(text) => Some(cut_word(text)),
        None => None,
    }
}
