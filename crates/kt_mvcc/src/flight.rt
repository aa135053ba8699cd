//! The clock and the flying writes of a tablet.
ghost use Rattle.std.specs.Prelude.{◌≡◌, ◌+◌, ◌-◌, ◌^◌, ◌<◌, ◌≤◌, ◌++◌, ◌∷◌, [], ℕ, min, max, not, false, true, IfOk, IfErr, OnOk, OnErr, Option, Some, None, ◌==◌};
ghost use Rattle.std.specs.List.{All, filter, find, position};
ghost use Rattle.std.specs.Result.{result_err};
ghost use Rattle.kt_history.specs.Machine.{next_timestamp, clean_below};
ghost use Rattle.kt_mvcc.specs.Flying.{least_of, holder, flies};
ghost use Rattle.kt_mvcc.specs.Held.{Tells, KeepsOthers, Lacks, Stood, HasLeft};
ghost use Rattle.kt_mvcc.specs.declared.flier.Flier.{Flier};
ghost use Rattle.kt_mvcc.specs.Waits.{IsRefused, lesser_of};

use crate::flier::{Flier, KeyList, share_key};
use crate::held::Held;
use kt_base::NoMemory;
use kt_base::limits::READING_MOST;
use std::alloc::Global;
use std::marker::Model;
use thiserror::Error;

/// The last timestamp, the ancient history mark, and the writes that fly with the keys that they hold.
/// Where several fly, a key that no write holds is found by its hash; where one is held, the writes are looked at in turn.
#[derive(Drop)]
pub struct Flight {
    c: u64,
    a: u64,
    flying: Vec<Flier>,
    held: Held,
}

impl Model for Flight {
    ghost use Rattle.std.specs.Prelude.{◌-◌, vec_capacity, vec_len};
    ghost use Rattle.std.specs.HashMap.{spare};
    ghost use Rattle.kt_mvcc.specs.Flying.{Clock};
    ghost use Rattle.kt_mvcc.specs.Held.{Tells};

    ghost Value = { Clock };

    ghost view = { λ f. record { c = f.c; a = f.a; flying = f.flying.items; room = vec_capacity f.flying - vec_len f.flying; key_room = spare f.held.writers } };

    ghost invariant = { λ f. Tells f.held f.flying.items };
}

/// Why a write does not begin.
#[derive(Clone, Copy, Debug, PartialEq, Eq, Error)]
pub enum MvccNo {
    /// The flying write of this timestamp holds one of the keys, and it is the least that does.
    #[error("the write of timestamp {ts} holds one of the keys")]
    Wait { ts: u64 },
    /// There was no memory for it.
    #[error("out of memory")]
    Memory,
}

// The timestamp that follows c at a reading of the clock.
fn next(c: u64, m: u64) -> u64
    requires { c < 2 ^ 64 - 1 }
    ensures { result ≡ next_timestamp c m }
{
    (c + 1).max(m.min(READING_MOST) * 4096)
}

fn lesser(found: Option<u64>, ts: u64) -> u64
    ensures { result ≡ lesser_of found ts }
{
    match found {
        Some(least) => least.min(ts),
        None => ts,
    }
}

fn least_of(flying: &[Flier]) -> Option<u64>
    ensures { result ≡ least_of flying.now }
{
    let mut found = None;
    for flier in flying {
        found = Some(lesser(found, flier.ts));
    }
    found
}

// The least of the flying writes that hold one of the keys, found by looking at each.
fn find_holder(flying: &[Flier], keys: &KeyList) -> Option<u64>
    ensures { result ≡ holder keys.now flying.now }
{
    let mut found = None;
    for flier in flying {
        if share_key(keys, &flier.keys) {
            found = Some(lesser(found, flier.ts));
        }
    }
    found
}

// The least of the flying writes that hold one of the keys. Where the hashes tell that none does, no write is looked at.
fn holder(held: &Held, flying: &[Flier], keys: &KeyList) -> Option<u64>
    requires { Tells held.now flying.now }
    ensures { result ≡ holder keys.now flying.now }
{
    if flying.is_empty() {
        return None;
    }
    if held.is_free(keys) {
        return None;
    }
    find_holder(flying, keys)
}

// Writes down the keys of the writes that fly, and no others.
fn renew(held: &mut Held, flying: &[Flier])
    ensures { Tells held.new flying.now }
{
    held.clear();
    for flier in flying {
        held.hold(flier.who, &flier.keys);
    }
}

// Writes down the keys of the writes that fly, and those of one that begins.
fn hold_all(held: &mut Held, flying: &[Flier], who: u32, keys: &KeyList)
    ensures { (ts : ℕ) → Tells held.new (flying.now ++ record { who = who; ts = ts; keys = keys.now } ∷ []) }
{
    renew(held, flying);
    held.hold(who, keys);
}

// Writes down the keys of a write that begins. One that begins alone is left out until another is to begin.
fn note(held: &mut Held, flying: &[Flier], who: u32, keys: &KeyList)
    requires { Tells held.old flying.now }
    ensures { (ts : ℕ) → Tells held.new (flying.now ++ record { who = who; ts = ts; keys = keys.now } ∷ []) }
{
    if flying.is_empty() {
        held.pass_over();
        return;
    }
    let whole = held.whole;
    if whole {
        held.hold(who, keys);
        return;
    }
    hold_all(held, flying, who, keys);
}

// Lets go of the keys of a flying write, where it is that of the writer that ends.
fn release_one(held: &mut Held, flier: &Flier, who: u32)
    ensures keeps { KeepsOthers who held.old held.new }
    ensures stood { Stood held.old held.new }
    ensures others { Lacks who held.old held.new }
    ensures left { HasLeft held.new who flier.now }
{
    if flier.who == who {
        held.release(who, &flier.keys);
    }
}

// Lets go of the keys of a writer that ends.
fn release(held: &mut Held, flying: &[Flier], who: u32)
    ensures keeps { KeepsOthers who held.old held.new }
    ensures stood { Stood held.old held.new }
    ensures left { All (HasLeft held.new who) flying.now }
{
    for flier in flying {
        release_one(held, flier, who);
    }
}

// Lets go of the keys of a writer that ends. Where no write flies but its own, all keys are let go of at once.
fn let_go(held: &mut Held, flying: &[Flier], who: u32)
    requires tells { Tells held.old flying.now }
    requires flies { flies who flying.now ≡ true }
    ensures { Tells held.new (filter (λ f. not (f.who == who)) flying.now) }
{
    let alone = flying.len() == 1;
    if alone {
        held.clear();
        return;
    }
    release(held, flying, who);
}

// Where a flying write of a writer stands first, if there is one.
fn find_place(flying: &[Flier], who: u32) -> Option<usize>
    ensures { result ≡ position (λ f. f.who == who) flying.now }
{
    flying.iter().position(|flier| flier.who == who)
}

// Takes the first flying write of a writer out.
fn take_first(flying: &mut Vec<Flier>, who: u32) -> Flier
    requires { flies who flying.old.items ≡ true }
    ensures first { find (λ f. f.who == who) flying.old.items ≡ Some result }
    ensures others { filter (λ f. not (f.who == who)) flying.new.items ≡ filter (λ f. not (f.who == who)) flying.old.items }
{
    match find_place(flying, who) {
        Some(place) => flying.remove(place),
        None => unreachable!(),
    }
}

impl Flight {
    /// A clock under which nothing flies.
    pub fn new(alloc: Global, c: u64, a: u64) -> Flight
        ensures last { result.c ≡ c }
        ensures mark { result.a ≡ a }
        ensures rests { result.flying ≡ [] }
    {
        Flight {
            c,
            a,
            flying: Vec::new(alloc),
            held: Held::new(alloc),
        }
    }

    /// The last timestamp.
    pub fn last(&self) -> u64
        ensures { result ≡ self.now.c }
    {
        self.c
    }

    /// The ancient history mark.
    pub fn mark(&self) -> u64
        ensures { result ≡ self.now.a }
    {
        self.a
    }

    /// Lets the last timestamp be no less than a time.
    pub fn raise(&mut self, t: u64)
        ensures { self.new ≡ record self.old { c = max self.old.c t } }
    {
        self.c = self.c.max(t);
    }

    /// Draws the next timestamp at a reading of the clock.
    pub fn draw(&mut self, m: u64) -> u64
        requires { self.old.c < 2 ^ 64 - 1 }
        ensures value { result ≡ next_timestamp self.old.c m }
        ensures after { self.new ≡ record self.old { c = result } }
    {
        self.c = next(self.c, m);
        self.c
    }

    /// Whether a write of these keys may begin, and otherwise the least flying write that holds one of them.
    pub fn try_keys(&self, keys: &KeyList) -> Result<(), u64>
        ensures { result_err result ≡ holder keys.now self.now.flying }
    {
        match holder(&self.held, &self.flying, keys) {
            Some(ts) => Err(ts),
            None => Ok(()),
        }
    }

    /// Makes the keys of a write that flies alone fast to ask for. Nothing else is seen of it, and without memory they are as slow
    /// as before.
    pub fn look_up(&mut self)
        ensures { self.new ≡ record self.old { key_room = self.new.key_room } }
    {
        let whole = self.held.whole;
        if whole {
            return;
        }
        renew(&mut self.held, &self.flying);
    }

    /// Makes room for a write of so many keys, which then begins without memory.
    pub fn reserve(&mut self, _alloc: Global, keys: usize) -> Result<(), NoMemory>
        ensures room { OnOk result (0 < self.new.room) }
        ensures keys { OnOk result (keys ≤ self.new.key_room) }
        ensures same { self.new ≡ record self.old { room = self.new.room; key_room = self.new.key_room } }
    {
        self.held.reserve(keys)?;
        self.flying.reserve(1)?;
        Ok(())
    }

    /// Begins a write: its keys are held, and its timestamp is drawn at a reading of the clock.
    pub fn begin(&mut self, _alloc: Global, who: u32, keys: KeyList, m: u64) -> Result<u64, MvccNo>
        requires rests { flies who self.old.flying ≡ false }
        requires below { self.old.c < 2 ^ 64 - 1 }
        ensures ts { IfOk result (λ ts. (ts ≡ next_timestamp self.old.c m) × (self.new.c ≡ ts)) }
        ensures flying { IfOk result (λ ts. self.new.flying ≡ self.old.flying ++ record { who = who; ts = ts; keys = keys } ∷ []) }
        ensures mark { self.new.a ≡ self.old.a }
        ensures free { OnOk result (holder keys self.old.flying ≡ None) }
        ensures refused { IfErr result (IsRefused keys self.old) }
        ensures unchanged { OnErr result (self.new ≡ record self.old { room = self.new.room; key_room = self.new.key_room }) }
    {
        if let Some(ts) = holder(&self.held, &self.flying, &keys) {
            return Err(MvccNo::Wait { ts });
        }
        if self.flying.try_reserve(1).is_err() {
            return Err(MvccNo::Memory);
        }
        Ok(self.begin_free(who, keys, m))
    }

    /// Begins a write for which there is room, and whose keys no write holds. They are not looked up again.
    pub fn begin_free(&mut self, who: u32, keys: KeyList, m: u64) -> u64
        requires rests { flies who self.old.flying ≡ false }
        requires below { self.old.c < 2 ^ 64 - 1 }
        requires free { holder keys self.old.flying ≡ None }
        requires room { 0 < self.old.room }
        ensures ts { (result ≡ next_timestamp self.old.c m) × (self.new.c ≡ result) }
        ensures flying { self.new.flying ≡ self.old.flying ++ record { who = who; ts = result; keys = keys } ∷ [] }
        ensures mark { self.new.a ≡ self.old.a }
    {
        let ts = next(self.c, m);
        note(&mut self.held, &self.flying, who, &keys);
        self.flying.push_reserved(Flier { who, ts, keys });
        self.c = ts;
        ts
    }

    /// Ends a write, and lets go of its keys.
    pub fn end(&mut self, who: u32)
        requires { flies who self.old.flying ≡ true }
        ensures last { self.new.c ≡ self.old.c }
        ensures mark { self.new.a ≡ self.old.a }
        ensures flying { self.new.flying ≡ filter (λ f. not (f.who == who)) self.old.flying }
    {
        let _ = self.take(who);
    }

    /// Ends a write, and gives back the keys that it held, so that the caller chooses when their memory is freed.
    pub fn take(&mut self, who: u32) -> KeyList
        requires { flies who self.old.flying ≡ true }
        ensures last { self.new.c ≡ self.old.c }
        ensures mark { self.new.a ≡ self.old.a }
        ensures flying { self.new.flying ≡ filter (λ f. not (f.who == who)) self.old.flying }
        ensures keys { (f : Flier) → find (λ f. f.who == who) self.old.flying ≡ Some f → result ≡ f.keys }
    {
        let_go(&mut self.held, &self.flying, who);
        let flier = take_first(&mut self.flying, who);
        self.flying.retain(|flier| flier.who != who);
        flier.keys
    }

    /// The least flying timestamp.
    pub fn least(&self) -> Option<u64>
        ensures { result ≡ least_of self.now.flying }
    {
        least_of(&self.flying)
    }

    /// Up to here no write flies and none will begin.
    pub fn clean(&self) -> u64
        ensures { result ≡ clean_below (least_of self.now.flying) self.now.c }
    {
        match self.least() {
            Some(least) => least.saturating_sub(1),
            None => self.c,
        }
    }

    /// Raises the ancient history mark towards a time, and no further than no write flies.
    pub fn raise_mark(&mut self, to: u64) -> u64
        ensures value { result ≡ max self.old.a (min to (clean_below (least_of self.old.flying) self.old.c)) }
        ensures after { self.new ≡ record self.old { a = result } }
    {
        self.a = self.a.max(to.min(self.clean()));
        self.a
    }
}
