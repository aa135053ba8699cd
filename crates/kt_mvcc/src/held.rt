//! Which flying write holds a key, found by a hash of the key.
ghost use Rattle.std.specs.Prelude.{◌≡◌, ◌≢◌, ◌≤◌, [], ℕ, true, false, Some, OnOk, nat_eq};
ghost use Rattle.std.specs.List.{All};
ghost use Rattle.std.specs.HashMap.{get, spare, IsEmpty};
ghost use Rattle.kt_mvcc.specs.Held.{hash_of, Keeps, KeepsOthers, Lacks, Stood, StoodElsewhere, Tells, IsFree};

use crate::flier::{Flier, KeyList};
use kt_base::NoMemory;
use std::alloc::Global;
use std::collections::HashMap;

/// The writer of each held key, by the key's hash. Where two writers' keys have one hash, it is not whole, nor where a write is
/// left out.
#[derive(Drop)]
pub struct Held {
    pub writers: HashMap<u64, u32>,
    pub whole: bool,
}

// The FNV-1a hash of a key.
fn hash_of(key: &[u8]) -> u64
    ensures { result ≡ hash_of key.now }
{
    let mut hash: u64 = 0xcbf2_9ce4_8422_2325;
    for byte in key {
        hash = (hash ^ u64::from(*byte)).wrapping_mul(0x100_0000_01b3);
    }
    hash
}

impl Held {
    pub fn new(alloc: Global) -> Held
        ensures { Tells result [] }
    {
        Held {
            writers: HashMap::new(alloc),
            whole: true,
        }
    }

    /// Makes room for more keys.
    pub fn reserve(&mut self, keys: usize) -> Result<(), NoMemory>
        ensures keeps { Keeps self.old self.new }
        ensures stood { Stood self.old self.new }
        ensures room { OnOk result (keys ≤ spare self.new.writers) }
        ensures whole { self.new.whole ≡ self.old.whole }
    {
        self.writers.reserve(keys)?;
        Ok(())
    }

    /// Whether none of the keys is held, as far as the hashes tell.
    pub fn is_free(&self, keys: &KeyList) -> bool
        ensures free { result ≡ true → IsFree self.now keys.now }
        ensures held { IsFree self.now keys.now → result ≡ true }
    {
        if !self.whole {
            return false;
        }
        'keys: for at in 0..keys.len() {
            if self.writers.contains_key(&hash_of(keys.at(at))) {
                return false;
            }
        }
        true
    }

    fn put(&mut self, hash: u64, who: u32)
        ensures keeps { self.new.whole ≡ true → Keeps self.old self.new }
        ensures put { self.new.whole ≡ true → get nat_eq self.new.writers hash ≡ Some who }
        ensures stood { (other writer : ℕ) → other ≢ hash → get nat_eq self.new.writers other ≡ Some writer → get nat_eq self.old.writers other ≡ Some writer }
    {
        match self.writers.insert(hash, who) {
            Ok(None) => {}
            Ok(Some(other)) => self.whole &= other == who,
            Err(_) => self.whole = false,
        }
    }

    /// Writes down that a writer holds these keys.
    pub fn hold(&mut self, who: u32, keys: &KeyList)
        ensures keeps { self.new.whole ≡ true → Keeps self.old self.new }
        ensures held { self.new.whole ≡ true → All (λ key. get nat_eq self.new.writers (hash_of key) ≡ Some who) keys.now }
        ensures stood { StoodElsewhere keys.now self.old self.new }
    {
        'keys: for at in 0..keys.len() {
            self.put(hash_of(keys.at(at)), who);
        }
    }

    /// Leaves a write out: from here on the hashes tell nothing.
    pub fn pass_over(&mut self)
        ensures { self.new.whole ≡ false }
    {
        self.whole = false;
    }

    fn take(&mut self, hash: u64, who: u32)
        ensures keeps { KeepsOthers who self.old self.new }
        ensures stood { Stood self.old self.new }
        ensures gone { get nat_eq self.new.writers hash ≢ Some who }
        ensures others { Lacks who self.old self.new }
    {
        if self.writers.get(&hash) == Some(&who) {
            self.writers.remove(&hash);
        }
    }

    /// Lets go of these keys of a writer.
    pub fn release(&mut self, who: u32, keys: &KeyList)
        ensures keeps { KeepsOthers who self.old self.new }
        ensures stood { Stood self.old self.new }
        ensures gone { All (λ key. get nat_eq self.new.writers (hash_of key) ≢ Some who) keys.now }
        ensures others { Lacks who self.old self.new }
    {
        'keys: for at in 0..keys.len() {
            self.take(hash_of(keys.at(at)), who);
        }
    }

    /// Lets go of all keys.
    pub fn clear(&mut self)
        ensures empty { IsEmpty self.new.writers }
        ensures whole { self.new.whole ≡ true }
    {
        self.writers.clear();
        self.whole = true;
    }
}
