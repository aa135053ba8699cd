//! The filter and the index together.

ghost use Rattle.std.specs.Prelude.{◌≡◌, ◌+◌, ◌-◌, ◌*◌, ◌^◌, ◌<◌, ◌≤◌, ◌↔◌, [], ℕ, List, ◌++◌, drop, length, IsTrue, IfOk, MatchResult, Ok, Err, slice_index_or};
ghost use Rattle.kt_lookup.specs.Hash.{hash_of};
ghost use Rattle.kt_lookup.specs.Filter.{HasAll, filter_of as filter_of_keys};
ghost use Rattle.kt_lookup.specs.Tail.{spelling, used_of};
ghost use Rattle.kt_lookup.specs.Index.{IsBelow, Rises, index_of as index_of_keys};

use crate::filters::{filter_of, has_hash};
use crate::hashing::fnv;
use crate::indexes::{index_of, search};
use crate::steps::Steps;
use crate::tails::{self, Differs};
use kt_bytes::{NoMemory, Octets, Texts};
use std::alloc::Global;
use std::marker::Model;
use std::sync::ledger::Ledger;

/// The filter and the index of a file's keys.
#[derive(Drop)]
pub struct Lookup {
    filter: Vec<u8>,
    index: Texts,
}

impl Model for Lookup {
    ghost use Rattle.kt_lookup.specs.Tables.{Tables, AreTables};

    ghost Value = { Tables };

    ghost view = { λ a. record { filter = a.filter.items; index = a.index } };

    ghost invariant = { λ a. AreTables a.filter.items a.index };
}

/// The filter and the index of keys that rise.
pub fn build(alloc: Global, keys: &Texts) -> Result<Lookup, NoMemory>
    requires some { 0 < length keys.now }
    requires few { length keys.now ≤ 3435973836 }
    requires rises { Rises keys.now }
    requires short { (j : ℕ) → j < length keys.now → length (slice_index_or keys.now j []) ≤ 65535 }
    ensures filter { IfOk result (λ lookup. lookup.filter ≡ filter_of_keys keys.now) }
    ensures index { IfOk result (λ lookup. lookup.index ≡ index_of_keys keys.now) }
{
    let filter = filter_of(alloc, keys)?;
    let index = index_of(alloc, keys)?;
    Ok(Lookup { filter, index })
}

impl Lookup {
    /// The filter's bytes.
    pub fn filter(&self) -> &[u8]
        ensures { result.now ≡ self.now.filter }
    {
        &self.filter
    }

    /// The index's entries: the keys at the ordinals divisible by 16.
    pub fn index(&self) -> &Texts
        ensures { result.now ≡ self.now.index }
    {
        &self.index
    }

    /// What a base file has of both: the filter behind its length, and each key of the index behind its length.
    pub fn spell(&self, alloc: Global) -> Result<Octets, NoMemory>
        ensures { IfOk result (λ bytes. bytes ≡ spelling self.now.filter self.now.index) }
    {
        tails::spell(alloc, &self.filter, &self.index)
    }

    /// Whether the bytes begin with what a base file has of both, and how many of them that is.
    pub fn check(&self, bytes: &[u8]) -> Result<usize, Differs>
        ensures found { IfOk result (λ used. bytes.now ≡ spelling self.now.filter self.now.index ++ drop used bytes.now) }
        ensures only { (rest : List ℕ) → bytes.now ≡ spelling self.now.filter self.now.index ++ rest → result ≡ Ok (length (spelling self.now.filter self.now.index)) }
        // Which fault it is.
        ensures exact { MatchResult result (λ used. used_of self.now.filter self.now.index bytes.now ≡ Ok used) (λ e. used_of self.now.filter self.now.index bytes.now ≡ Err e.offset) }
    {
        tails::check(&self.filter, &self.index, bytes)
    }

    /// Whether the key may be among the keys: whether its six bits are set.
    pub fn may_have(&self, key: &[u8]) -> bool
        ensures bits { IsTrue result ↔ HasAll self.now.filter (hash_of key.now) }
        // A key that was added is not hidden.
        ensures added { (keys : List (List ℕ)) (j : ℕ) → self.now.filter ≡ filter_of_keys keys → j < length keys → slice_index_or keys j [] ≡ key.now → IsTrue result }
    {
        has_hash(&self.filter, fnv(key))
    }

    /// The place among the index's entries of the first one at or after the key, or their count.
    pub fn first_at_or_after<L: Ledger>(&self, key: &[u8], steps: &mut Steps<L>) -> u32
        ensures within { result ≤ length self.now.index }
        ensures before { (j : ℕ) → j < result → IsBelow (slice_index_or self.now.index j []) key.now }
        ensures at { result < length self.now.index → ¬ IsBelow (slice_index_or self.now.index result []) key.now }
        ensures cost { 2 ^ (steps.new - steps.old) ≤ 2 * length self.now.index + 1 }
    {
        search(&self.index, key, steps) as u32
    }
}
