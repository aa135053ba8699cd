//! A source and a sink in memory, which fail at the calls that they are told to.
ghost use Rattle.std.specs.Prelude.{◌≡◌, ◌+◌, ◌-◌, ◌≤◌, ◌<◌, ◌||◌, [], length, take, drop, min, max, nat_lt, is_err, Some, IfOk, OnOk, OnErr, if◌then◌else◌, vec_len};
ghost use Rattle.std.specs.Vec.{vec_capacity};
ghost use Rattle.kt_base.specs.Causes.{Rose, HasCause};
ghost use Rattle.kt_base.specs.Listed.{next, no_call_yet, next_is_listed, after_call};

use crate::{CallList, Failed, NoMemory, Octets, Sink, Source};
use std::alloc::Global;

/// Counts the calls of something that fails at those which are listed.
#[derive(Drop)]
pub struct Fails {
    listed: CallList,
    calls: u64,
    /// How often it has failed.
    pub faults: u64,
}

impl Fails {
    pub fn of(listed: CallList) -> Fails
        ensures { result ≡ no_call_yet listed }
    {
        Fails {
            listed,
            calls: 0,
            faults: 0,
        }
    }

    // Counts a fault.
    fn count(&mut self)
        ensures counted { self.new ≡ record self.old { faults = next self.old.faults } }
        ensures rose { Rose self.old.faults self.new.faults × (self.old.faults ≤ self.new.faults) }
    {
        self.faults = self.faults.saturating_add(1);
    }

    /// Counts a call, and fails it where it is listed.
    pub fn call(&mut self) -> Result<(), Failed>
        ensures failed { is_err result ≡ next_is_listed self.old }
        ensures counted { self.new ≡ after_call (is_err result) self.old }
        ensures cause { HasCause self.old.faults self.new.faults result }
    {
        self.calls = self.calls.saturating_add(1);
        if self.listed.as_slice().contains(&self.calls) {
            self.count();
            return Err(Failed);
        }
        Ok(())
    }
}

/// A source over bytes in memory.
#[derive(Drop)]
pub struct MemSource {
    bytes: Octets,
    at: usize,
    fails: Fails,
    ghost inside: { at ≤ length bytes },
}

impl MemSource {
    ghost use Rattle.kt_base.specs.Told.{told_left, source_fails};

    /// A source of these bytes, which fails at the listed calls.
    pub fn of(bytes: Octets, fails: CallList) -> MemSource
        ensures left { told_left result ≡ Some bytes }
        ensures calls { source_fails result ≡ no_call_yet fails }
    {
        MemSource {
            bytes,
            at: 0,
            fails: Fails::of(fails),
        }
    }
}

// Copies the bytes from a place on, as many as there is room for.
fn copy_from(bytes: &[u8], at: usize, into: &mut [u8]) -> usize
    requires { at ≤ length bytes.now }
    ensures count { result ≡ min (length (drop at bytes.now)) (length into.new) }
    ensures front { take result into.new ≡ take result (drop at bytes.now) }
{
    let (_, rest) = bytes.split_at(at);
    let n = rest.len().min(into.len());
    into[..n].copy_from_slice(&rest[..n]);
    n
}

impl Source for MemSource {
    ghost use Rattle.std.specs.Io.{ReadsAtMost};
    ghost use Rattle.std.specs.Io.KnownBytes.{ReadConsumes};
    ghost use Rattle.kt_base.specs.Told.{told_left, source_fails};

    ghost left = { told_left };

    ghost faults = { λ s. s.fails.faults };

    fn take(&mut self, into: &mut [u8]) -> Result<usize, Failed>
        ensures bound { ReadsAtMost result into.new }
        ensures bytes { ReadConsumes (told_left self.old) (told_left self.new) result into.new }
        ensures cause { HasCause (source_fails self.old).faults (source_fails self.new).faults result }
        ensures failed { is_err result ≡ next_is_listed (source_fails self.old) }
        ensures counted { source_fails self.new ≡ after_call (is_err result) (source_fails self.old) }
    {
        self.fails.call()?;
        let n = copy_from(self.bytes.as_slice(), self.at, into);
        self.at += n;
        Ok(n)
    }
}

/// A sink that keeps its bytes in memory.
#[derive(Drop)]
pub struct MemSink {
    bytes: Vec<u8>,
    room: usize,
    fails: Fails,
    ghost fits: { vec_len bytes + room ≤ vec_capacity bytes },
}

impl MemSink {
    ghost use Rattle.kt_base.specs.Told.{told_written, sink_fails, room_of};

    /// An empty sink without room, which fails at the listed calls.
    pub fn new(alloc: Global, fails: CallList) -> MemSink
        ensures written { told_written result ≡ Some [] }
        ensures calls { sink_fails result ≡ no_call_yet fails }
        ensures room { room_of result ≡ 0 }
    {
        MemSink {
            bytes: Vec::new(alloc),
            room: 0,
            fails: Fails::of(fails),
        }
    }

    /// Makes room for so many bytes more. A put beyond the room is a fault.
    pub fn reserve(&mut self, n: usize) -> Result<(), NoMemory>
        ensures written { told_written self.new ≡ told_written self.old }
        ensures calls { sink_fails self.new ≡ sink_fails self.old }
        ensures room { OnOk result (room_of self.new ≡ max (room_of self.old) n) }
        ensures err { OnErr result (room_of self.new ≡ room_of self.old) }
    {
        self.bytes.reserve(n)?;
        self.room = self.room.max(n);
        Ok(())
    }

    /// What was written.
    pub fn bytes(&self) -> &[u8]
        ensures { told_written self.now ≡ Some result.now }
    {
        &self.bytes
    }
}

impl Sink for MemSink {
    ghost use Rattle.std.specs.Io.KnownBytes.{WriteAppends};
    ghost use Rattle.kt_base.specs.Told.{told_written, sink_fails, room_of};

    ghost written = { told_written };

    ghost faults = { λ s. s.fails.faults };

    fn put(&mut self, piece: &[u8]) -> Result<usize, Failed>
        ensures bound { IfOk result (λ n. n ≤ length piece.now) }
        ensures some { 0 < length piece.now → IfOk result (λ n. 0 < n) }
        ensures bytes { WriteAppends (told_written self.old) (told_written self.new) result piece.now }
        ensures cause { HasCause (sink_fails self.old).faults (sink_fails self.new).faults result }
        ensures whole { IfOk result (λ n. n ≡ length piece.now) }
        ensures failed { is_err result ≡ (next_is_listed (sink_fails self.old) || nat_lt (room_of self.old) (length piece.now)) }
        ensures counted { sink_fails self.new ≡ after_call (is_err result) (sink_fails self.old) }
        ensures room { room_of self.new ≡ (if is_err result then room_of self.old else room_of self.old - length piece.now) }
    {
        self.fails.call()?;
        if piece.len() > self.room {
            self.fails.count();
            return Err(Failed);
        }
        let Ok(()) = self.bytes.extend_from_slice(piece) else {
            unreachable!()
        };
        self.room -= piece.len();
        Ok(piece.len())
    }
}
