//! A list of byte strings in one buffer.
ghost use Rattle.std.specs.Prelude.{◌≡◌, ◌+◌, ◌<◌, ◌≤◌, ◌==◌, [], ◌∷◌, ◌++◌, length, take, get_or, vec_len, IfOk, OnOk, OnErr};
ghost use Rattle.std.specs.List.{between, concat, flat_map};
ghost use Rattle.kt_bytes.specs.Cuts as spec;

use crate::NoMemory;
use std::alloc::{AllocError, Global};
use std::marker::Model;

/// Where piece `i` begins: where the one before it ends.
pub fn start_at(ends: &[usize], i: usize) -> usize
    requires { i ≤ length ends.now }
    ensures { result ≡ spec.start_at 0 ends.now i }
{
    if i == 0 { 0 } else { ends[i - 1] }
}

fn part(bytes: &[u8], start: usize, end: usize) -> &[u8]
    requires in_order { start ≤ end }
    requires inside { end ≤ length bytes.now }
    ensures { result.now ≡ between start end bytes.now }
{
    &bytes[start..end]
}

// Adds what stands at `start` for so many bytes, and then the rest.
fn append_behind(
    bytes: &mut Vec<u8>,
    start: usize,
    shared: usize,
    rest: &[u8],
) -> Result<(), AllocError>
    requires { start + shared ≤ vec_len bytes.old }
    ensures ok { OnOk result (bytes.new.items ≡ bytes.old.items ++ (between start (start + shared) bytes.old.items ++ rest.now)) }
    ensures err { OnErr result (bytes.new.items ≡ bytes.old.items) }
{
    let was = bytes.len();
    bytes.extend_from_within(start..start + shared)?;
    if let Err(e) = bytes.extend_from_slice(rest) {
        bytes.truncate(was);
        return Err(e);
    }
    Ok(())
}

// Adds parts, one behind the other.
fn append_parts(bytes: &mut Vec<u8>, parts: &[&[u8]]) -> Result<(), AllocError>
    ensures ok { OnOk result (bytes.new.items ≡ bytes.old.items ++ flat_map (λ p. p.now) parts.now) }
    ensures err { OnErr result (bytes.new.items ≡ bytes.old.items) }
{
    let was = bytes.len();
    'parts: for part in parts {
        if let Err(e) = bytes.extend_from_slice(part) {
            bytes.truncate(was);
            return Err(e);
        }
    }
    Ok(())
}

/// A list of byte strings: the bytes of all of them in one buffer, and where each one ends. Contracts see it as the list.
#[derive(Drop)]
pub struct Texts {
    bytes: Vec<u8>,
    ends: Vec<usize>,
}

impl Model for Texts {
    ghost use Rattle.std.specs.Prelude.{List, ℕ, length};
    ghost use Rattle.kt_bytes.specs.Cuts.{pieces, IsCut};

    ghost Value = { List (List ℕ) };

    ghost view = { λ t. pieces 0 t.ends.items t.bytes.items };

    ghost invariant = { λ t. IsCut 0 t.ends.items (length t.bytes.items) };
}

impl Texts {
    ghost use Rattle.kt_bytes.specs.Cuts.{last};

    /// No strings.
    pub fn new(alloc: Global) -> Texts
        ensures { result ≡ [] }
    {
        Texts {
            bytes: Vec::new(alloc),
            ends: Vec::new(alloc),
        }
    }

    /// The strings that these bytes are, each up to its end. It takes no memory.
    pub fn cut(bytes: Vec<u8>, ends: Vec<usize>) -> Texts
        requires { spec.IsCut 0 ends.items (length bytes.items) }
        ensures { result ≡ spec.pieces 0 ends.items bytes.items }
    {
        Texts { bytes, ends }
    }

    /// How many strings there are.
    pub fn len(&self) -> usize
        ensures { result ≡ length self.now }
    {
        self.ends.len()
    }

    pub fn is_empty(&self) -> bool
        ensures { result ≡ (length self.now == 0) }
    {
        self.len() == 0
    }

    /// How many bytes they have together.
    pub fn byte_len(&self) -> usize
        ensures { result ≡ length (concat self.now) }
    {
        self.bytes.len()
    }

    /// The bytes of all strings.
    pub fn as_bytes(&self) -> &[u8]
        ensures { result.now ≡ concat self.now }
    {
        &self.bytes
    }

    /// Where each string ends among the bytes of all.
    pub fn ends(&self) -> &[usize]
        ensures { result.now ≡ spec.ends_of 0 self.now }
    {
        &self.ends
    }

    /// The string at this place, where it lies.
    pub fn get(&self, i: usize) -> &[u8]
        requires { i < length self.now }
        ensures { result.now ≡ get_or self.now i [] }
    {
        let start = start_at(&self.ends, i);
        let end = self.ends[i];
        part(&self.bytes, start, end)
    }

    /// The last string, or nothing where there is none.
    pub fn last(&self) -> &[u8]
        ensures { result.now ≡ last self.now }
    {
        let n = self.len();
        if n == 0 { &[] } else { self.get(n - 1) }
    }

    /// Adds a string. Without memory nothing is added.
    pub fn push(&mut self, text: &[u8]) -> Result<(), NoMemory>
        ensures ok { OnOk result (self.new ≡ self.old ++ text.now ∷ []) }
        ensures err { OnErr result (self.new ≡ self.old) }
    {
        self.ends.reserve(1)?;
        self.bytes.extend_from_slice(text)?;
        let end = self.bytes.len();
        self.ends.push(end)?;
        Ok(())
    }

    /// Adds a string that is some parts, one behind the other. Without memory nothing is added.
    pub fn push_parts(&mut self, parts: &[&[u8]]) -> Result<(), NoMemory>
        ensures ok { OnOk result (self.new ≡ self.old ++ flat_map (λ p. p.now) parts.now ∷ []) }
        ensures err { OnErr result (self.new ≡ self.old) }
    {
        self.ends.reserve(1)?;
        append_parts(&mut self.bytes, parts)?;
        let end = self.bytes.len();
        self.ends.push(end)?;
        Ok(())
    }

    /// No strings are left. Their room stays.
    pub fn clear(&mut self)
        ensures { self.new ≡ [] }
    {
        self.bytes.clear();
        self.ends.clear();
    }

    /// A copy of the strings, which takes no more memory than they need.
    pub fn copy(&self) -> Result<Texts, NoMemory>
        ensures { IfOk result (λ copy. copy ≡ self.now) }
    {
        Ok(Texts {
            bytes: self.bytes.clone()?,
            ends: self.ends.clone()?,
        })
    }

    /// Adds a string that begins as the last one does, for so many bytes. Without memory nothing is added.
    pub fn push_behind(&mut self, shared: usize, rest: &[u8]) -> Result<(), NoMemory>
        requires { shared ≤ length (last self.old) }
        ensures ok { OnOk result (self.new ≡ self.old ++ (take shared (last self.old) ++ rest.now) ∷ []) }
        ensures err { OnErr result (self.new ≡ self.old) }
    {
        self.ends.reserve(1)?;
        let start = start_at(&self.ends, self.ends.len().saturating_sub(1));
        append_behind(&mut self.bytes, start, shared, rest)?;
        let end = self.bytes.len();
        self.ends.push(end)?;
        Ok(())
    }
}
