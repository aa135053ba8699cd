//! The Bloom filter of the keys.

ghost use Rattle.std.specs.Prelude.{◌≡◌, ◌*◌, ◌^◌, ◌<◌, ◌≤◌, ◌⊎◌, ◌↔◌, ℕ, length, IsTrue, IfOk};
ghost use Rattle.kt_lookup.specs.Hash.{Sets};
ghost use Rattle.kt_lookup.specs.Filter.{HasBit, HasAll, SetBy, filter_of as filter_of_keys};

use crate::bits::{are_bytes, has_bit, set_bit};
use crate::hashing::{fnv, nth_bit};
use kt_bytes::Texts;
use std::alloc::{AllocError, Global};

/// Sets the six bits of a hash.
pub(crate) fn add_hash(filter: &mut [u8], hash: u64)
    requires some { 0 < length filter.old }
    requires few { length filter.old < 2 ^ 60 }
    ensures { (j : ℕ) → HasBit filter.new j ↔ (HasBit filter.old j ⊎ Sets (8 * length filter.old) hash j) }
{
    let bits = 8 * filter.len() as u64;
    for i in 0..6 {
        set_bit(filter, nth_bit(hash, i, bits));
    }
}

/// Whether the six bits of a hash are set.
pub(crate) fn has_hash(filter: &[u8], hash: u64) -> bool
    requires some { 0 < length filter.now }
    requires few { length filter.now < 2 ^ 60 }
    ensures { IsTrue result ↔ HasAll filter.now hash }
{
    let bits = 8 * filter.len() as u64;
    for i in 0..6 {
        if !has_bit(filter, nth_bit(hash, i, bits)) {
            return false;
        }
    }
    true
}

/// Sets the bits of each key.
fn add_keys(filter: &mut [u8], keys: &Texts)
    requires some { 0 < length filter.old }
    requires few { length filter.old < 2 ^ 60 }
    ensures { (k : ℕ) → HasBit filter.new k ↔ (HasBit filter.old k ⊎ SetBy (8 * length filter.old) keys.now (length keys.now) k) }
{
    for j in 0..keys.len() {
        add_hash(filter, fnv(keys.get(j)));
    }
}

/// The filter of the keys.
pub(crate) fn filter_of(alloc: Global, keys: &Texts) -> Result<Vec<u8>, AllocError>
    requires some { 0 < length keys.now }
    requires few { length keys.now ≤ 3435973836 }
    ensures { IfOk result (λ filter. filter.items ≡ filter_of_keys keys.now) }
{
    let len = (keys.len() * 10).div_ceil(8);
    let mut filter = vec![in alloc; 0u8; len]?;
    add_keys(&mut filter, keys);
    are_bytes(&filter);
    Ok(filter)
}
