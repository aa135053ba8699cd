//! What a base file has behind its columns: the filter behind its length, and the index, each key behind its length.

ghost use Rattle.std.specs.Prelude.{◌≡◌, ◌≤◌, ◌++◌, [], length, OnOk, IfOk, MatchResult, Ok, Err, slice_index_or, ℕ, ◌<◌};
ghost use Rattle.std.specs.List.{flat_map};
ghost use Rattle.kt_lookup.specs.Tail.{key_fields, fields, joined, spelling, field_at, fields_at, used_of};

use kt_bytes::{NoMemory, Octets, Texts};
use std::alloc::Global;

/// Bytes that are not the ones wanted: the offset of the first field that is another or is cut off.
#[derive(Clone, Copy, PartialEq, Eq)]
pub struct Differs {
    pub offset: u64,
}

fn put_key(out: &mut Octets, key: &[u8]) -> Result<(), NoMemory>
    requires { length key.now ≤ 65535 }
    ensures { OnOk result (out.new ≡ out.old ++ joined (key_fields key.now)) }
{
    out.extend(&(key.len() as u16).to_le_bytes())?;
    out.extend(key)
}

fn put_keys(out: &mut Octets, index: &Texts) -> Result<(), NoMemory>
    requires { (j : ℕ) → j < length index.now → length (slice_index_or index.now j []) ≤ 65535 }
    ensures { OnOk result (out.new ≡ out.old ++ joined (flat_map key_fields index.now)) }
{
    for i in 0..index.len() {
        put_key(out, index.get(i))?;
    }
    Ok(())
}

/// The filter and the index, spelled.
pub(crate) fn spell(alloc: Global, filter: &[u8], index: &Texts) -> Result<Octets, NoMemory>
    requires filter { length filter.now ≤ 4294967295 }
    requires index { (j : ℕ) → j < length index.now → length (slice_index_or index.now j []) ≤ 65535 }
    ensures { IfOk result (λ bytes. bytes ≡ spelling filter.now index.now) }
{
    let mut out = Octets::new(alloc);
    out.extend(&(filter.len() as u32).to_le_bytes())?;
    out.extend(filter)?;
    put_keys(&mut out, index)?;
    Ok(out)
}

/// What stands behind a field at the front, or how many bytes are left from the fault on.
#[tactic(auto, unfolding(crate::specs::Tail::field_at))]
fn behind_field<'a>(field: &[u8], bytes: &'a [u8]) -> Result<&'a [u8], usize>
    ensures { MatchResult result (λ rest. field_at field.now bytes.now ≡ Ok rest.now) (λ left. field_at field.now bytes.now ≡ Err left) }
{
    if bytes.len() < field.len() {
        return Err(0);
    }
    let (front, rest) = bytes.split_at(field.len());
    if front == field {
        Ok(rest)
    } else {
        Err(bytes.len())
    }
}

#[tactic(auto, unfolding(crate::specs::Tail::fields_at))]
fn behind_key<'a>(key: &[u8], bytes: &'a [u8]) -> Result<&'a [u8], usize>
    requires { length key.now ≤ 65535 }
    ensures { MatchResult result (λ rest. fields_at (key_fields key.now) bytes.now ≡ Ok rest.now) (λ left. fields_at (key_fields key.now) bytes.now ≡ Err left) }
{
    match behind_field(&(key.len() as u16).to_le_bytes(), bytes) {
        Ok(rest) => behind_field(key, rest),
        Err(left) => Err(left),
    }
}

fn behind_keys<'a>(index: &Texts, bytes: &'a [u8]) -> Result<&'a [u8], usize>
    requires { (j : ℕ) → j < length index.now → length (slice_index_or index.now j []) ≤ 65535 }
    ensures { MatchResult result (λ rest. fields_at (flat_map key_fields index.now) bytes.now ≡ Ok rest.now) (λ left. fields_at (flat_map key_fields index.now) bytes.now ≡ Err left) }
{
    let mut rest = bytes;
    for i in 0..index.len() {
        match behind_key(index.get(i), rest) {
            Ok(after) => rest = after,
            Err(left) => return Err(left),
        }
    }
    Ok(rest)
}

#[tactic(auto, unfolding(crate::specs::Tail::fields_at))]
fn behind<'a>(filter: &[u8], index: &Texts, bytes: &'a [u8]) -> Result<&'a [u8], usize>
    requires filter { length filter.now ≤ 4294967295 }
    requires index { (j : ℕ) → j < length index.now → length (slice_index_or index.now j []) ≤ 65535 }
    ensures { MatchResult result (λ rest. fields_at (fields filter.now index.now) bytes.now ≡ Ok rest.now) (λ left. fields_at (fields filter.now index.now) bytes.now ≡ Err left) }
{
    let rest = match behind_field(&(filter.len() as u32).to_le_bytes(), bytes) {
        Ok(rest) => rest,
        Err(left) => return Err(left),
    };
    match behind_field(filter, rest) {
        Ok(rest) => behind_keys(index, rest),
        Err(left) => Err(left),
    }
}

/// How many bytes at the front spell the filter and the index.
pub(crate) fn check(filter: &[u8], index: &Texts, bytes: &[u8]) -> Result<usize, Differs>
    requires filter { length filter.now ≤ 4294967295 }
    requires index { (j : ℕ) → j < length index.now → length (slice_index_or index.now j []) ≤ 65535 }
    ensures { MatchResult result (λ used. used_of filter.now index.now bytes.now ≡ Ok used) (λ e. used_of filter.now index.now bytes.now ≡ Err e.offset) }
{
    match behind(filter, index, bytes) {
        Ok(rest) => Ok(bytes.len().saturating_sub(rest.len())),
        Err(left) => {
            let offset = bytes.len().saturating_sub(left) as u64;
            Err(Differs { offset })
        }
    }
}
