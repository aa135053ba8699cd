//! Byte strings of a list that has several owners.
ghost use Rattle.std.specs.Prelude.{◌≡◌, ◌+◌, ◌<◌, ◌≤◌, [], length, get_or, IfOk};
ghost use Rattle.std.specs.List.{between, concat};

use kt_base::NoMemory;
use kt_bytes::{Texts, start_at};
use std::alloc::Global;
use std::marker::Model;
use std::sync::Arc;

/// So many strings of a shared list, from a place on. Contracts see them as a list.
#[derive(Drop)]
pub(crate) struct TextPart {
    alloc: Global,
    texts: Arc<Texts>,
    first: usize,
    len: usize,
}

impl Model for TextPart {
    ghost use Rattle.std.specs.Prelude.{List, ℕ, ◌+◌, ◌≤◌, ◌<◌, ◌^◌, length};
    ghost use Rattle.std.specs.Arc.{arc_value};
    ghost use Rattle.std.specs.List.{between};

    ghost Value = { List (List ℕ) };

    ghost view = { λ p. between p.first (p.first + p.len) (arc_value p.texts) };

    ghost invariant = { λ p. (p.first + p.len ≤ length (arc_value p.texts)) × (p.first + p.len < 2 ^ 64) };
}

// The bytes from a place on and before another.
fn piece(bytes: &[u8], start: usize, end: usize) -> &[u8]
    requires in_order { start ≤ end }
    requires within { end ≤ length bytes.now }
    ensures { result.now ≡ between start end bytes.now }
{
    &bytes[start..end]
}

// The bytes of the strings from a place on and before another.
fn bytes_between(texts: &Texts, first: usize, end: usize) -> &[u8]
    requires in_order { first ≤ end }
    requires within { end ≤ length texts.now }
    ensures { result.now ≡ concat (between first end texts.now) }
{
    let ends = texts.ends();
    piece(texts.as_bytes(), start_at(ends, first), start_at(ends, end))
}

impl TextPart {
    /// All strings of a list, which is shared from here on.
    pub(crate) fn whole(alloc: Global, texts: Texts) -> Result<TextPart, NoMemory>
        ensures { IfOk result (λ part. part ≡ texts) }
    {
        let len = texts.len();
        match Arc::new(alloc, texts) {
            Ok(texts) => Ok(TextPart {
                alloc,
                texts,
                first: 0,
                len,
            }),
            Err(_) => Err(NoMemory),
        }
    }

    /// How many strings there are.
    pub(crate) fn len(&self) -> usize
        ensures { result ≡ length self.now }
    {
        self.len
    }

    /// The string at this place, where it lies.
    pub(crate) fn get(&self, at: usize) -> &[u8]
        requires { at < length self.now }
        ensures { result.now ≡ get_or self.now at [] }
    {
        self.texts.get(self.first + at)
    }

    /// The bytes of all strings.
    pub(crate) fn as_bytes(&self) -> &[u8]
        ensures { result.now ≡ concat self.now }
    {
        bytes_between(&self.texts, self.first, self.first + self.len)
    }

    /// Another owner of so many of the strings, from a place on. It takes no memory.
    pub(crate) fn part(&self, first: usize, len: usize) -> Result<TextPart, NoMemory>
        requires { first + len ≤ length self.now }
        ensures { IfOk result (λ part. part ≡ between first (first + len) self.now) }
    {
        Ok(TextPart {
            alloc: self.alloc,
            texts: Arc::try_clone(&self.texts)?,
            first: self.first + first,
            len,
        })
    }

    /// A copy of the strings that has no other owner.
    pub(crate) fn own(&self) -> Result<Texts, NoMemory>
        ensures { IfOk result (λ own. own ≡ self.now) }
    {
        let mut own = Texts::new(self.alloc);
        'texts: for at in 0..self.len {
            own.push(self.get(at))?;
        }
        Ok(own)
    }
}
