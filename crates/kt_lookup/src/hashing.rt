//! The hash of a key.

ghost use Rattle.std.specs.Prelude.{◌≡◌, ◌<◌};
ghost use Rattle.kt_lookup.specs.Hash.{hash_of, bit_of};

/// FNV-1a of 64 bits.
pub(crate) fn fnv(key: &[u8]) -> u64
    ensures { result ≡ hash_of key.now }
{
    let mut hash: u64 = 14695981039346656037;
    for byte in key {
        hash = (hash ^ *byte as u64).wrapping_mul(1099511628211);
    }
    hash
}

/// The i-th bit that a key of this hash sets, of so many.
pub(crate) fn nth_bit(hash: u64, i: u64, bits: u64) -> u64
    requires some { 0 < bits }
    requires few { i < 6 }
    ensures of { result ≡ bit_of bits hash i }
    ensures below { result < bits }
{
    let low = hash % 4294967296;
    let high = (hash / 4294967296) | 1;
    (low + i * high) % bits
}
