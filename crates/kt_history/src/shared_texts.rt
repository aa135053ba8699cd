//! Byte strings that one list owns, or several share.
ghost use Rattle.std.specs.Prelude.{◌≡◌, ◌<◌, ◌≤◌, ◌+◌, ◌==◌, [], ◌∷◌, ◌++◌, length, get_or, IfOk, OnOk, OnErr};
ghost use Rattle.std.specs.List.{between, concat, flat_map};
ghost use Rattle.kt_history.specs.Shared.{held_texts};

use crate::text_part::TextPart;
use kt_base::NoMemory;
use kt_bytes::Texts;
use std::alloc::Global;
use std::marker::Model;

#[derive(Drop)]
enum Held {
    Own(Texts),
    Shared(TextPart),
}

// The same strings, of which a copy is then another owner.
fn shared(alloc: Global, held: Held) -> Result<Held, NoMemory>
    ensures { IfOk result (λ shared. held_texts shared ≡ held_texts held) }
{
    match held {
        Held::Own(texts) => Ok(Held::Shared(TextPart::whole(alloc, texts)?)),
        Held::Shared(part) => Ok(Held::Shared(part)),
    }
}

fn copy(held: &Held) -> Result<Held, NoMemory>
    ensures { IfOk result (λ copy. held_texts copy ≡ held_texts held.now) }
{
    match held {
        Held::Own(texts) => Ok(Held::Own(texts.copy()?)),
        Held::Shared(part) => Ok(Held::Shared(part.part(0, part.len())?)),
    }
}

// The strings from a place on and before another, copied.
fn copied(alloc: Global, texts: &Texts, first: usize, end: usize) -> Result<Texts, NoMemory>
    requires in_order { first ≤ end }
    requires within { end ≤ length texts.now }
    ensures { IfOk result (λ own. own ≡ between first end texts.now) }
{
    let mut own = Texts::new(alloc);
    'texts: for at in first..end {
        own.push(texts.get(at))?;
    }
    Ok(own)
}

// So many of the strings, from a place on.
fn part(alloc: Global, held: &Held, first: usize, len: usize) -> Result<Held, NoMemory>
    requires { first + len ≤ length (held_texts held.now) }
    ensures { IfOk result (λ part. held_texts part ≡ between first (first + len) (held_texts held.now)) }
{
    match held {
        Held::Own(texts) => {
            prove!(first <= texts.len());
            Ok(Held::Own(copied(alloc, texts, first, first + len)?))
        }
        Held::Shared(texts) => Ok(Held::Shared(texts.part(first, len)?)),
    }
}

// Adds a string that is some parts, to an own copy where the strings are shared.
fn push_parts(held: &mut Held, parts: &[&[u8]]) -> Result<(), NoMemory>
    ensures ok { OnOk result (held_texts held.new ≡ held_texts held.old ++ flat_map (λ p. p.now) parts.now ∷ []) }
    ensures err { OnErr result (held_texts held.new ≡ held_texts held.old) }
{
    match held {
        Held::Own(texts) => texts.push_parts(parts),
        Held::Shared(part) => {
            let mut own = part.own()?;
            own.push_parts(parts)?;
            *held = Held::Own(own);
            Ok(())
        }
    }
}

// No strings are left. The room of strings that nothing shares stays.
fn clear(alloc: Global, held: &mut Held)
    ensures { held_texts held.new ≡ [] }
{
    match held {
        Held::Own(texts) => texts.clear(),
        Held::Shared(_) => *held = Held::Own(Texts::new(alloc)),
    }
}

/// Byte strings in one buffer. While they are shared, a copy is another owner of the buffer. Contracts see them as a list.
#[derive(Drop)]
pub struct SharedTexts {
    held: Held,
}

impl Model for SharedTexts {
    ghost use Rattle.std.specs.Prelude.{List, ℕ};
    ghost use Rattle.kt_history.specs.Shared.{held_texts};

    ghost Value = { List (List ℕ) };

    ghost view = { λ t. held_texts t.held };
}

impl SharedTexts {
    /// These strings, which nothing shares yet.
    pub fn of(texts: Texts) -> SharedTexts
        ensures { result ≡ texts }
    {
        SharedTexts {
            held: Held::Own(texts),
        }
    }

    /// The same strings, of which a copy takes no memory.
    pub fn shared(self, alloc: Global) -> Result<SharedTexts, NoMemory>
        ensures { IfOk result (λ texts. texts ≡ self) }
    {
        Ok(SharedTexts {
            held: shared(alloc, self.held)?,
        })
    }

    /// How many strings there are.
    pub fn len(&self) -> usize
        ensures { result ≡ length self.now }
    {
        match &self.held {
            Held::Own(texts) => texts.len(),
            Held::Shared(part) => part.len(),
        }
    }

    pub fn is_empty(&self) -> bool
        ensures { result ≡ (length self.now == 0) }
    {
        self.len() == 0
    }

    /// The string at this place, where it lies.
    pub fn get(&self, at: usize) -> &[u8]
        requires { at < length self.now }
        ensures { result.now ≡ get_or self.now at [] }
    {
        match &self.held {
            Held::Own(texts) => texts.get(at),
            Held::Shared(part) => part.get(at),
        }
    }

    /// The bytes of all strings.
    pub fn as_bytes(&self) -> &[u8]
        ensures { result.now ≡ concat self.now }
    {
        match &self.held {
            Held::Own(texts) => texts.as_bytes(),
            Held::Shared(part) => part.as_bytes(),
        }
    }

    /// Adds a string that is some parts, one behind the other. Without memory nothing is added. Where the strings are
    /// shared, an own copy is taken first.
    pub fn push_parts(&mut self, parts: &[&[u8]]) -> Result<(), NoMemory>
        ensures ok { OnOk result (self.new ≡ self.old ++ flat_map (λ p. p.now) parts.now ∷ []) }
        ensures err { OnErr result (self.new ≡ self.old) }
    {
        push_parts(&mut self.held, parts)
    }

    /// No strings are left. Where nothing shared them, their room stays.
    pub fn clear(&mut self, alloc: Global)
        ensures { self.new ≡ [] }
    {
        clear(alloc, &mut self.held);
    }

    /// Another owner of shared strings, which takes no memory, and else a copy, which takes no more than it needs.
    pub fn copy(&self) -> Result<SharedTexts, NoMemory>
        ensures { IfOk result (λ copy. copy ≡ self.now) }
    {
        Ok(SharedTexts {
            held: copy(&self.held)?,
        })
    }

    /// So many of the strings, from a place on: another owner of shared strings, which takes no memory, and else a copy.
    pub fn part(&self, alloc: Global, first: usize, len: usize) -> Result<SharedTexts, NoMemory>
        requires { first + len ≤ length self.now }
        ensures { IfOk result (λ part. part ≡ between first (first + len) self.now) }
    {
        Ok(SharedTexts {
            held: part(alloc, &self.held, first, len)?,
        })
    }
}
