//! The keys of changes.
ghost use Rattle.std.specs.Prelude.{◌≡◌, ◌≤◌, length};
ghost use Rattle.byteorder.specs.Endian.{big_bytes};
ghost use Rattle.kt_dms.specs.Keys.{key_of, ordinal_of, ts_of};

use byteorder::{BigEndian, ByteOrder};

/// How many bytes a key has.
pub const KEY_LEN: usize = 12;

/// The key of the change of a row at a timestamp.
pub fn key_of(ordinal: u32, ts: u64) -> [u8; 12]
    ensures { result ≡ key_of ordinal ts }
{
    let mut key = [0; KEY_LEN];
    BigEndian::write_u32(&mut key, ordinal);
    BigEndian::write_u64(&mut key[4..], ts);
    key
}

/// The bytes with which the keys of a row begin.
pub fn front_of(ordinal: u32) -> [u8; 4]
    ensures { result ≡ big_bytes 4 ordinal }
{
    let mut front = [0; 4];
    BigEndian::write_u32(&mut front, ordinal);
    front
}

/// The row of a key.
pub fn ordinal_of(key: &[u8]) -> u32
    requires { 12 ≤ length key.now }
    ensures { result ≡ ordinal_of key.now }
{
    BigEndian::read_u32(key)
}

/// And its timestamp.
pub fn ts_of(key: &[u8]) -> u64
    requires { length key.now ≡ 12 }
    ensures { result ≡ ts_of key.now }
{
    BigEndian::read_u64(&key[4..])
}
