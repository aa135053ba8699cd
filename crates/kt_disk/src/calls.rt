//! The calls that a disk in memory keeps, with the bytes of all writes in one buffer.
ghost use Rattle.std.specs.Prelude.{◌≡◌, ◌-◌, ◌≤◌, ◌++◌, ◌∷◌, [], length, take, map, OnOk, OnErr, IfOk};
ghost use Rattle.std.specs.List.{All};
ghost use Rattle.kt_disk.specs.Noted.{change_of, event_in, LiesIn};

use crate::{Change, Event};
use kt_base::{NoMemory, Octets};
use std::alloc::Global;
use std::marker::Model;

/// What a call did to its file that wrote no bytes.
#[derive(Clone, Copy)]
pub enum Plain {
    Cut(u64),
    Sync,
    Remove,
    /// It was only looked at.
    Look,
}

/// What a call did to its file. What it wrote stands among the bytes of all writes.
#[derive(Clone, Copy)]
pub enum Deed {
    Write { at: u64, from: usize, len: usize },
    Plain(Plain),
}

/// A call on a file.
#[derive(Clone, Copy)]
pub struct Call {
    file: u64,
    deed: Deed,
}

/// Calls, the oldest first. Contracts see them as a list of events.
#[derive(Drop)]
pub struct CallList {
    calls: Vec<Call>,
    bytes: Vec<u8>,
}

impl Model for CallList {
    ghost use Rattle.std.specs.Prelude.{List, map, length};
    ghost use Rattle.std.specs.List.{All};
    ghost use Rattle.kt_disk.specs.declared.event.Event.{Event};
    ghost use Rattle.kt_disk.specs.Noted.{event_in, LiesIn};

    ghost Value = { List Event };

    ghost view = { λ c. map (event_in c.bytes.items) c.calls.items };

    ghost invariant = { λ c. All (LiesIn (length c.bytes.items)) c.calls.items };
}

fn change_of(plain: Plain) -> Change
    ensures { result ≡ change_of plain }
{
    match plain {
        Plain::Cut(to) => Change::Cut(to),
        Plain::Sync => Change::Sync,
        Plain::Remove => Change::Remove,
        Plain::Look => Change::Look,
    }
}

// A call as an event, with a copy of what it wrote.
fn event_of(alloc: Global, bytes: &[u8], call: Call) -> Result<Event, NoMemory>
    requires { LiesIn (length bytes.now) call }
    ensures { IfOk result (λ event. event ≡ event_in bytes.now call) }
{
    let change = match call.deed {
        Deed::Write { at, from, len } => {
            Change::Write(at, Octets::from_slice(alloc, &bytes[from..from + len])?)
        }
        Deed::Plain(plain) => change_of(plain),
    };
    Ok(Event {
        file: call.file,
        change,
    })
}

// Calls as events, each with a copy of what it wrote.
fn events_of(alloc: Global, bytes: &[u8], calls: &[Call]) -> Result<Vec<Event>, NoMemory>
    requires { All (LiesIn (length bytes.now)) calls.now }
    ensures { IfOk result (λ events. events.items ≡ map (event_in bytes.now) calls.now) }
{
    let mut events = Vec::new(alloc);
    for call in calls {
        events.push(event_of(alloc, bytes, *call)?)?;
    }
    Ok(events)
}

impl CallList {
    /// No calls.
    pub fn new(alloc: Global) -> CallList
        ensures { result ≡ [] }
    {
        CallList {
            calls: Vec::new(alloc),
            bytes: Vec::new(alloc),
        }
    }

    pub fn len(&self) -> usize
        ensures { result ≡ length self.now }
    {
        self.calls.len()
    }

    /// Notes a call that wrote no bytes. Without memory nothing is noted.
    pub fn push(&mut self, file: u64, plain: Plain) -> Result<(), NoMemory>
        ensures ok { OnOk result (self.new ≡ self.old ++ (record { file = file; change = change_of plain }) ∷ []) }
        ensures err { OnErr result (self.new ≡ self.old) }
    {
        let deed = Deed::Plain(plain);
        self.calls.push(Call { file, deed })?;
        Ok(())
    }

    /// Notes a write. Without memory nothing is noted.
    pub fn push_write(&mut self, file: u64, at: u64, bytes: &[u8]) -> Result<(), NoMemory>
        ensures ok { OnOk result (self.new ≡ self.old ++ (record { file = file; change = Change.Write at bytes.now }) ∷ []) }
        ensures err { OnErr result (self.new ≡ self.old) }
    {
        self.calls.reserve(1)?;
        let from = self.bytes.len();
        let len = bytes.len();
        self.bytes.extend_from_slice(bytes)?;
        let deed = Deed::Write { at, from, len };
        self.calls.push_reserved(Call { file, deed });
        Ok(())
    }

    /// Lets go of the last call.
    pub fn drop_last(&mut self)
        ensures { self.new ≡ take (length self.old - 1) self.old }
    {
        let _ = self.calls.pop();
    }

    /// So many of the first calls, as events that have their own bytes.
    pub fn events(&self, alloc: Global, n: usize) -> Result<Vec<Event>, NoMemory>
        requires { n ≤ length self.now }
        ensures { IfOk result (λ events. events.items ≡ take n self.now) }
    {
        events_of(alloc, &self.bytes, &self.calls[..n])
    }
}
