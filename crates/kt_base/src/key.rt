//! The spelling of a number in an encoded key.

ghost use Rattle.std.specs.Prelude.{◌≡◌, ◌≤◌, ◌<◌, ◌+◌, ◌^◌, ◌-◌, ◌-ℤ◌, pos, length, IfOk};
ghost use Rattle.std.specs.Int.{w64, to_be_bytes, from_be_bytes};
ghost use Rattle.kt_base.specs.Keys.{number_key, number_of_key, raised};

use crate::{NoMemory, Octets};
use std::alloc::Global;

const HALF: i128 = 1 << 63;

fn raised_number(number: i64) -> u64
    ensures { result ≡ raised (2 ^ 63) number }
{
    (i128::from(number) + HALF) as u64
}

/// The key of a number.
pub fn encode_number(alloc: Global, number: i64) -> Result<Octets, NoMemory>
    ensures { IfOk result (λ key. key ≡ number_key w64 number) }
{
    let mut key = Octets::new(alloc);
    key.extend(&raised_number(number).to_be_bytes())?;
    Ok(key)
}

fn lowered_number(number: u64) -> i64
    ensures { result ≡ pos number -ℤ pos (2 ^ 63) }
{
    (i128::from(number) - HALF) as i64
}

/// The number that a key of a number spells.
pub fn decode_number(key: &[u8]) -> i64
    requires { 8 ≤ length key.now }
    ensures { result ≡ number_of_key w64 key.now }
{
    let (front, _) = key.split_at(8);
    lowered_number(u64::from_be_bytes([
        front[0], front[1], front[2], front[3], front[4], front[5], front[6], front[7],
    ]))
}
