//! The real ends, which are trusted: they count their failures.

ghost use Rattle.std.specs.Prelude.{IsTrue, IsErr};
ghost use Rattle.std.specs.Io.{ReadsAtMost, WritesAtMost};
ghost use Rattle.std.specs.Io.KnownBytes.{ReadConsumes, WriteAppends};

use kt_base::{Clock, Failed, Sink, Source};
use std::io::{ErrorKind, Read, Write};
use std::time::{SystemTime, UNIX_EPOCH};
use std::{io, time};

/// How often a call is made that signals interrupt.
const TRIES: u32 = 1000;

// Whether a signal interrupted a call.
fn is_interrupted(answer: &io::Result<usize>) -> bool
    ensures { IsTrue result → IsErr answer.now }
{
    match answer {
        Ok(_) => false,
        Err(e) => e.kind() == ErrorKind::Interrupted,
    }
}

// Reads, and again where a signal interrupts it.
fn read_through<R: Read>(inner: &mut R, into: &mut [u8]) -> io::Result<usize>
    ensures bound { ReadsAtMost result into.new }
    ensures bytes { ReadConsumes (R.remaining inner.old) (R.remaining inner.new) result into.new }
{
    for _ in 1..TRIES {
        let answer = inner.read(into);
        if !is_interrupted(&answer) {
            return answer;
        }
    }
    inner.read(into)
}

// Writes, and again where a signal interrupts it.
fn write_through<W: Write>(inner: &mut W, piece: &[u8]) -> io::Result<usize>
    ensures bound { WritesAtMost result piece.now }
    ensures bytes { WriteAppends (W.contents inner.old) (W.contents inner.new) result piece.now }
{
    for _ in 1..TRIES {
        let answer = inner.write(piece);
        if !is_interrupted(&answer) {
            return answer;
        }
    }
    inner.write(piece)
}

/// A source that reads a stream.
#[derive(Drop)]
pub struct Stdin<R: Read> {
    inner: R,
    faults: u64,
}

impl<R: Read> Stdin<R> {
    pub fn new(inner: R) -> Stdin<R> {
        Stdin { inner, faults: 0 }
    }
}

impl<R: Read> Source for Stdin<R> {
    ghost left = { λ s. R.remaining s.inner };

    ghost faults = { λ s. s.faults };

    fn take(&mut self, into: &mut [u8]) -> Result<usize, Failed> {
        match read_through(&mut self.inner, into) {
            Ok(count) => Ok(count),
            Err(_) => {
                self.faults = self.faults.saturating_add(1);
                Err(Failed)
            }
        }
    }
}

/// A sink that writes to a stream.
#[derive(Drop)]
pub struct Stdout<W: Write> {
    inner: W,
    faults: u64,
}

impl<W: Write> Stdout<W> {
    pub fn new(inner: W) -> Stdout<W> {
        Stdout { inner, faults: 0 }
    }
}

impl<W: Write> Sink for Stdout<W> {
    ghost written = { λ s. W.contents s.inner };

    ghost faults = { λ s. s.faults };

    fn put(&mut self, piece: &[u8]) -> Result<usize, Failed> {
        match write_through(&mut self.inner, piece) {
            Ok(0) if !piece.is_empty() => {
                self.faults = self.faults.saturating_add(1);
                Err(Failed)
            }
            Ok(count) => Ok(count),
            Err(_) => {
                self.faults = self.faults.saturating_add(1);
                Err(Failed)
            }
        }
    }
}

/// A clock that reads 1, 2, 3 and so on.
#[derive(Drop)]
pub struct Ticks {
    reading: u64,
}

impl Ticks {
    pub fn new() -> Ticks {
        Ticks { reading: 0 }
    }
}

impl Clock for Ticks {
    ghost use Rattle.std.specs.Prelude.{None};

    ghost readings = { λ _. None };

    fn now(&mut self) -> u64 {
        self.reading = self.reading.saturating_add(1);
        self.reading
    }
}

/// The machine's clock, in microseconds since 2020-01-01T00:00:00Z, and 0 before or where it cannot be read.
#[derive(Drop)]
pub struct MachineClock<'a, R> {
    rt: &'a R,
}

impl<'a, R: time::Clock> MachineClock<'a, R> {
    pub fn new(rt: &'a R) -> MachineClock<'a, R> {
        MachineClock { rt }
    }
}

/// 2020-01-01T00:00:00Z in seconds since 1970.
const START: u64 = 1_577_836_800;

fn micros_since_start(clock: &impl time::Clock) -> Option<u64> {
    let now = SystemTime::now(clock).ok()?;
    let since = now.duration_since(UNIX_EPOCH).ok()?;
    let seconds = since.as_secs().checked_sub(START)?;
    let micros = seconds.saturating_mul(1_000_000);
    Some(micros.saturating_add(u64::from(since.subsec_micros())))
}

impl<'a, R: time::Clock> Clock for MachineClock<'a, R> {
    ghost use Rattle.std.specs.Prelude.{None};

    ghost readings = { λ _. None };

    fn now(&mut self) -> u64 {
        micros_since_start(self.rt).unwrap_or(0)
    }
}
