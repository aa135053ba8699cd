//! Bytes that are added behind others, and may be taken back.
ghost use Rattle.std.specs.Prelude.{◌≡◌, ◌<◌, ◌++◌, ◌∷◌, [], length, slice_set, OnOk};

use kt_base::{NoMemory, Octets};
use std::marker::Model;

/// A byte string, and where the bytes begin that were added. Contracts see what stood before, and what was added.
#[derive(Drop)]
pub struct Tail {
    bytes: Vec<u8>,
    start: usize,
}

impl Model for Tail {
    ghost use Rattle.std.specs.Prelude.{◌≤◌, length, take, drop};
    ghost use Rattle.kt_cells.specs.Tail.{TailView};

    ghost Value = { TailView };

    ghost view = { λ t. record { front = take t.start t.bytes.items; added = drop t.start t.bytes.items } };

    ghost invariant = { λ t. t.start ≤ length t.bytes.items };
}

impl Tail {
    /// Nothing behind these bytes.
    pub fn of(bytes: Octets) -> Tail
        ensures front { result.front ≡ bytes }
        ensures added { result.added ≡ [] }
    {
        let bytes = bytes.into_vec();
        let start = bytes.len();
        Tail { bytes, start }
    }

    /// Adds bytes. Without memory nothing is added.
    pub fn extend(&mut self, more: &[u8]) -> Result<(), NoMemory>
        ensures front { self.new.front ≡ self.old.front }
        ensures ok { OnOk result (self.new.added ≡ self.old.added ++ more.now) }
    {
        self.bytes.extend_from_slice(more)?;
        Ok(())
    }

    /// Adds a byte. Without memory nothing is added.
    pub fn push(&mut self, byte: u8) -> Result<(), NoMemory>
        ensures front { self.new.front ≡ self.old.front }
        ensures ok { OnOk result (self.new.added ≡ self.old.added ++ byte ∷ []) }
    {
        self.bytes.push(byte)?;
        Ok(())
    }

    /// How many bytes were added.
    pub fn len(&self) -> usize
        ensures { result ≡ length self.now.added }
    {
        self.bytes.len() - self.start
    }

    /// Writes a byte over one that was added.
    pub fn set(&mut self, at: usize, byte: u8)
        requires { at < length self.old.added }
        ensures front { self.new.front ≡ self.old.front }
        ensures added { self.new.added ≡ slice_set self.old.added at byte }
    {
        let place = self.start + at;
        self.bytes[place] = byte;
    }

    /// The bytes that were added.
    pub fn added(&self) -> &[u8]
        ensures { result.now ≡ self.now.added }
    {
        &self.bytes[self.start..]
    }

    /// Takes the bytes back that were added, and keeps the room.
    pub fn clear(&mut self)
        ensures front { self.new.front ≡ self.old.front }
        ensures added { self.new.added ≡ [] }
    {
        self.bytes.truncate(self.start);
    }

    /// All of the bytes.
    pub fn whole(self) -> Octets
        ensures { result ≡ self.front ++ self.added }
    {
        let Tail { bytes, start: _ } = self;
        Octets::of(bytes)
    }

    /// The bytes that stood before.
    pub fn taken_back(self) -> Octets
        ensures { result ≡ self.front }
    {
        let Tail { mut bytes, start } = self;
        bytes.truncate(start);
        Octets::of(bytes)
    }
}
