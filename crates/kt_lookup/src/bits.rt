//! Bits in a slice of bytes.

ghost use Rattle.std.specs.Prelude.{◌≡◌, ◌*◌, ◌<◌, ◌⊎◌, ◌↔◌, ℕ, length, slice_index, IsTrue};
ghost use Rattle.kt_lookup.specs.Filter.{HasBit};

/// Sets a bit.
pub(crate) fn set_bit(bytes: &mut [u8], k: u64)
    requires { k < 8 * length bytes.old }
    ensures { (j : ℕ) → HasBit bytes.new j ↔ (HasBit bytes.old j ⊎ (j ≡ k)) }
{
    let at = (k / 8) as usize;
    bytes[at] |= 1 << (k % 8);
}

/// Whether a bit is set.
pub(crate) fn has_bit(bytes: &[u8], k: u64) -> bool
    requires { k < 8 * length bytes.now }
    ensures { IsTrue result ↔ HasBit bytes.now k }
{
    let at = (k / 8) as usize;
    (bytes[at] >> (k % 8)) & 1 == 1
}

/// A byte is below 256. Nothing runs here: it is what a proof asks of bytes that were written.
pub(crate) fn are_bytes(bytes: &[u8])
    ensures { (i : ℕ) → slice_index bytes.now i < 256 }
{
    let _ = bytes;
}
